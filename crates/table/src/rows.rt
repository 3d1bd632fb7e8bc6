// The first pass's table, a row for each net: representative, kind, key, core, then the number by which `buckets` chains nets, and two that are
// free.
ghost use Rattle.std.specs.Prelude.{◌≡◌, Bool, List, ◌+◌, ◌*◌, ◌<◌, ◌≤◌, length};
ghost use Rattle.std.proofs.lemmas.List.Edits.{sets};
ghost use Rattle.model.specs.Nets.{net_of};
ghost use Rattle.fold_laws.specs.Table as model;
ghost use Rattle.table.specs.Rows.{row_width, row, entry_of, HoldsTable};

use literal::Literal;

pub const ROW: usize = 8;

// The kinds of gates' nets; net 0 and the inputs have 0. No enum: they are working numbers of the fixed memory that document 01 has.
pub const AND: u16 = 2;

pub const XOR: u16 = 3;

// What is known of a net: see `model.Entry`.
#[derive(Clone, Copy)]
pub struct Entry {
    pub rep: Literal,
    pub kind: u16, // AND, XOR or 0: a working number, as it stands in the row
    pub ka: Literal,
    pub kb: Literal,
    pub core: Literal,
}

// The entry of a net that has no key of its own.
pub fn keyless(rep: Literal, kind: u16) -> Entry
    ensures { entry_of result ≡ record { rep = rep.code; kind = kind; ka = 0; kb = 0; core = 0 } }
{
    Entry {
        rep,
        kind,
        ka: Literal::FALSE,
        kb: Literal::FALSE,
        core: Literal::FALSE,
    }
}

// The entry of net v: its row, and nothing else, is stored.
pub fn enter(work: &mut [u16], v: usize, e: Entry)
    requires { row_width * v + row_width ≤ length work.old }
    ensures { work.new ≡ sets work.old (row_width * v) (row (entry_of e)) }
{
    let at = ROW * v;
    let row = [e.rep.code, e.kind, e.ka.code, e.kb.code, e.core.code];
    // not `copy_from_slice`, which puts the row together in memory first: a third of the time of an entry
    for i in 0..row.len() {
        work[at + i] = row[i];
    }
}

// The representative of a literal.
pub fn representative(work: &[u16], l: Literal) -> Literal
    ensures { (t : List model.Entry) → HoldsTable work.now t → net_of l.code < length t → result.code ≡ model.rep_of t l.code }
{
    match work.get(ROW * (l.variable() as usize)) {
        Some(rep) => Literal::from(*rep).complement_if(l.sign()),
        None => Literal::FALSE,
    }
}

// The literal over net u that is the AND or XOR of its key.
pub fn core_of(work: &[u16], u: usize) -> Literal
    requires { row_width * u + row_width ≤ length work.now }
    ensures { (t : List model.Entry) → HoldsTable work.now t → u < length t → result.code ≡ (model.at t u).core }
{
    Literal::from(work[ROW * u + 4])
}

// Whether net u has this kind and key.
pub fn fits(work: &[u16], u: usize, kind: u16, a: Literal, b: Literal) -> bool
    requires { row_width * u + row_width ≤ length work.now }
    ensures { (t : List model.Entry) (k : Bool) → HoldsTable work.now t → u < length t → kind ≡ model.kind_of k → result ≡ model.fits k a.code b.code (model.at t u) }
{
    let at = ROW * u;
    work[at + 2] == a.code && work[at + 3] == b.code && work[at + 1] == kind
}
