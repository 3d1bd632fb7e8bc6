// Before the first gate: the numbers of clauses of net 0 and the inputs.
ghost use Rattle.std.specs.Prelude.{◌+◌, ◌*◌, ◌≤◌, length};
ghost use Rattle.model.specs.Limits.{most_inputs};
ghost use Rattle.emit_laws.specs.Emit.{start_links};
ghost use Rattle.table.specs.Links.{link_width, Keeps};

use table::links::keep;

// Net 0 is linked to false by clause 1, and inputs stand for themselves.
pub fn start_links(links: &mut [u16], inputs: usize)
    requires { (link_width * (1 + inputs) ≤ length links.old) × (inputs ≤ most_inputs) }
    ensures { Keeps links.new (start_links inputs) }
{
    keep(links, 0, [1, 0, 0, 0]);
    for k in 0..inputs {
        keep(links, 1 + k, [0, 0, 0, 0]);
    }
}
