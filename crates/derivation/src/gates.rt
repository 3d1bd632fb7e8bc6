// A gate and the numbers of its clauses: of those that define it, from which its lines are made, and of those that its lines derive.
use literal::Literal;

// n is the gate of x and y; a to d are the numbers of its clauses in the order of the miter, of which an AND has three.
#[derive(Clone, Copy)]
pub struct DefinedGate {
    pub n: Literal,
    pub x: Literal,
    pub y: Literal,
    pub a: u16,
    pub b: u16,
    pub c: u16,
    pub d: u16,
}

// The clauses that link the gate to what it stands for, and its complement to the complement of that; or the gate's clauses over its key, of
// which an AND has three. Where there is no clause, the number is 0, as the working numbers have it.
#[derive(Clone, Copy)]
pub enum DerivedGate {
    Linked(u16, u16),
    Own([u16; 4]),
}
