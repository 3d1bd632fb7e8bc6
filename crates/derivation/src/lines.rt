// The proof that is written, line by line: a resolution behind those before it.
ghost use Rattle.std.specs.Prelude.{◌≡◌};
ghost use Rattle.frame.specs.Rows.{resolve_frame};
ghost use Rattle.emit_laws.specs.Fields as model;
ghost use Rattle.emit_laws.specs.Replay as replay;
ghost use Rattle.emit_laws.specs.Trees.Tree.{old, cut as cut_tree};
ghost use Rattle.derivation.specs.Emission.{Room, Few, Emits};

use frame::Resolve;
use frame::kinds::RESOLVE_BYTES;
use frame::resolves::write_resolve;
use literal::Literal;

// The bytes, how many lines stand in them, and how many clauses there are then. That so many lines more have room is asked by each function
// (`Room`, and `Few` of what it adds): the number is the function's own, and so no fact of the struct.
#[derive(Drop)]
pub struct Proof<'a> {
    pub bytes: &'a mut [u8],
    pub lines: usize,
    pub clauses: u16,
}

// The resolution of clause a, which holds the pivot, and clause b, which holds its complement.
fn resolution(a: u16, b: u16, pivot: Literal) -> Resolve
    ensures { resolve_frame result ≡ model.frame_of (replay.pivot a b pivot.code) }
{
    let variable = pivot.variable();
    if pivot.sign() {
        return Resolve {
            first: b,
            second: a,
            variable,
        };
    }
    Resolve {
        first: a,
        second: b,
        variable,
    }
}

impl Proof<'_> {
    // One line more, the resolution on this pivot, and the number of its clause.
    pub fn resolve(&mut self, a: u16, b: u16, pivot: Literal) -> u16
        requires { Room self.old 1 }
        ensures few { Few self.old 1 self.new }
        ensures emits { Emits self.old self.new result (cut_tree (old a) (old b) pivot.code) }
    {
        let step = resolution(a, b, pivot);
        write_resolve(self.bytes, RESOLVE_BYTES * self.lines, step);
        self.lines += 1;
        self.clauses += 1;
        self.clauses
    }
}
