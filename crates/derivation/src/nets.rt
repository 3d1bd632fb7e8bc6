// What the lines of a gate are made from, beside the gate's own clauses.

// What the working numbers have of the nets: the table of the first pass, and the numbers of clauses that were kept so far.
#[derive(Clone, Copy)]
pub struct Nets<'a> {
    pub table: &'a [u16],
    pub links: &'a [u16],
}
