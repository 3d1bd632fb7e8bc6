// The numbers of clauses, four for each net: a net that stands for another has the two clauses that link its literals to their
// representatives, a gate that stands for itself the clauses over its key.
ghost use Rattle.std.specs.Prelude.{◌≡◌, List, [], ◌∷◌, ◌++◌, ℕ, ◌+◌, ◌*◌, ◌%◌, ◌<◌, ◌≤◌, length, get_or};
ghost use Rattle.model.specs.Answers.{filled};
ghost use Rattle.model.specs.Nets.{net_of};
ghost use Rattle.table.specs.Links.{link_width, Keeps};

use literal::Literal;

pub const LINKS: usize = 4;

// Number i of net u.
pub fn number_at(links: &[u16], u: u16, i: usize) -> u16
    requires { i < link_width }
    ensures { (k : List (List ℕ)) → Keeps links.now k → u < length k → result ≡ get_or (get_or k u []) i 0 }
{
    links.get(LINKS * (u as usize) + i).copied().unwrap_or(0)
}

// The clause that links a literal to its representative.
pub fn link(links: &[u16], l: Literal) -> u16
    ensures { (k : List (List ℕ)) → Keeps links.now k → net_of l.code < length k → result ≡ get_or (get_or k (net_of l.code) []) (l.code % 2) 0 }
{
    number_at(links, l.variable(), l.sign() as usize)
}

// The numbers of net v, behind those of the nets before it.
pub fn keep(links: &mut [u16], v: usize, numbers: [u16; LINKS])
    requires { link_width * v + link_width ≤ length links.old }
    ensures { (k : List (List ℕ)) (ns : List ℕ) → Keeps links.old k → length k ≡ v → numbers ≡ filled link_width ns → Keeps links.new (k ++ (ns ∷ [])) }
{
    let at = LINKS * v;
    // not `copy_from_slice`, which puts the numbers together in memory first
    for i in 0..LINKS {
        links[at + i] = numbers[i];
    }
}
