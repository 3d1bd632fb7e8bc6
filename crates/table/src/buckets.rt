// The search for the first net with a kind and key, by hashing: each net is in the bucket of its kind and key, and the nets of a bucket are a
// chain from the latest down. What is stored of a chain is one more than a net, and 0 at its end. Callers see to room alone: a number that no
// chain has at its place ends a walk, so that the search ends whatever the working numbers hold. It is no map of the library, which would be on the
// heap: document 01 lends the numbers.
ghost use Rattle.std.specs.Prelude.{◌≡◌, Bool, List, [], ◌∷◌, ◌++◌, ◌+◌, ◌*◌, ◌<◌, ◌≤◌, length, get_or};
ghost use Rattle.model.specs.Limits.{highest_variable, numbers_per_net};
ghost use Rattle.fold_laws.specs.Table as model;
ghost use Rattle.table.specs.Rows.{entry_of};
ghost use Rattle.table.specs.Buckets.{bucket_width, bucket_of, after, below, Indexed, Among};

use crate::links::LINKS;
use crate::rows::{Entry, ROW, enter, fits};
use clearing::clear;
use literal::Literal;

const BUCKETS: usize = 4;

// The number of a row that says where the net's chain goes on.
const NEXT: usize = 5;

// The bucket of a kind and key. The factors are about 2³² × 1/ρ, 1/ρ² and 1/φ² (plastic number, golden ratio), so that keys that rise in steps,
// as those of consecutive gates do, lie apart. The scaling is by a multiplication, since a remainder by the count is slow.
fn bucket(nets: usize, kind: u16, a: Literal, b: Literal) -> usize
    requires { (0 < nets) × (nets ≤ highest_variable + 1) }
    ensures { (result ≡ bucket_of nets kind a.code b.code) × (result < bucket_width * nets) }
{
    if a == Literal::FALSE {
        return 0;
    }
    let mixed = ((a.code as usize) * 3242174889
        + (b.code as usize) * 2447445415
        + (kind as usize) * 1640531527)
        % 4294967296;
    1 + mixed * (BUCKETS * nets - 1) / 4294967296
}

// The net that the number at a place stands for, if it is one of so many: the number is one more than the net, and 0 is none.
fn net_at(work: &[u16], at: usize, nets: usize) -> Option<usize>
    requires { at < length work.now }
    ensures { (after result ≤ nets) × (get_or work.now at 0 ≤ nets → after result ≡ get_or work.now at 0) }
{
    (work[at] as usize).checked_sub(1).filter(|u| *u < nets)
}

// Buckets with no nets: zeros from the first one on.
pub fn empty(work: &mut [u16], nets: usize)
    requires { numbers_per_net * nets ≤ length work.old }
    ensures { Indexed work.new nets [] }
{
    clear(work, (ROW + LINKS) * nets);
}

// The least net below v with this kind and key. It is the last on the chain that fits; that keys are unique is not used. Numbers, nets and net stand
// apart: `insert` writes the numbers that the others read, so that a struct of the three would be made anew for each net.
pub fn find(work: &[u16], nets: usize, v: usize, kind: u16, a: Literal, b: Literal) -> Option<usize>
    requires { Among (length work.now) nets v }
    ensures { (t : List model.Entry) (k : Bool) → Indexed work.now nets t → length t ≡ v → kind ≡ model.kind_of k → result ≡ below v (model.find k a.code b.code t v 0) }
{
    let mut next = net_at(work, (ROW + LINKS) * nets + bucket(nets, kind, a, b), v);
    let mut found = None;
    // along the links: nothing is counted, and where they end a number says
    while let Some(u) = next {
        if fits(work, u, kind, a, b) {
            found = Some(u);
        }
        next = net_at(work, ROW * u + NEXT, u);
    }
    found
}

// The entry of net v, behind those of the nets before it, and the net at the head of its chain.
pub fn insert(work: &mut [u16], nets: usize, v: usize, e: Entry)
    requires { Among (length work.old) nets v }
    ensures { (t : List model.Entry) → Indexed work.old nets t → length t ≡ v → Indexed work.new nets (t ++ (entry_of e ∷ [])) }
{
    let head = (ROW + LINKS) * nets + bucket(nets, e.kind, e.ka, e.kb);
    let next = work[head];
    work[head] = (v + 1) as u16;
    work[ROW * v + NEXT] = next;
    enter(work, v, e);
}
