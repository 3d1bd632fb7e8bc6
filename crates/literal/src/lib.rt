// Literals by value (document 01, 'Lines on the wire' and 'The miter's clauses'): a net or a variable, or its complement.
#![tactic(auto)]

ghost use Rattle.std.specs.Prelude.{◌≡◌, ◌==◌, ◌%◌, ◌≤◌, cond};
ghost use Rattle.model.specs.Nets.{net_of};
ghost use Rattle.model.specs.Clauses as model;

// The variable v is 2 × v, its complement 2 × v + 1.
#[derive(Clone, Copy, PartialEq, Eq, PartialOrd, Ord)]
pub struct Literal {
    pub code: u16,
}

// The literal that a line states.
impl From<u16> for Literal {
    ghost from_gives = { λ code literal. literal.code ≡ code };

    fn from(code: u16) -> Literal {
        Literal { code }
    }
}

impl Literal {
    pub const HIGHEST_VARIABLE: u16 = 16383;

    // The constants: net 0 is false.
    pub const FALSE: Literal = Literal { code: 0 };

    pub const TRUE: Literal = Literal { code: 1 };

    // Above every literal of the store, which holds literals plus one in 16 bits.
    pub const BOUND: u16 = 65535;

    pub fn positive(v: u16) -> Literal
        requires { v ≤ 32767 }
        ensures { result.code ≡ model.positive v }
    {
        Literal { code: 2 * v }
    }

    // Two names of the field; both signs by one function are `complement_if`.
    pub fn negative(v: u16) -> Literal
        requires { v ≤ 32767 }
        ensures { result.code ≡ model.negative v }
    {
        Literal { code: 2 * v + 1 }
    }

    // The literal, complemented where the sign is 1. By one operation, since signs follow no pattern and a test of them is mispredicted.
    pub fn signed(self, sign: u16) -> Literal
        ensures { (sign ≡ 0 → result.code ≡ self.code) × (sign ≡ 1 → result.code ≡ model.neg self.code) }
    {
        Literal {
            code: self.code ^ sign,
        }
    }

    // The literal, complemented where this is to be.
    pub fn complement_if(self, complemented: bool) -> Literal
        ensures { result.code ≡ cond complemented (model.neg self.code) self.code }
    {
        self.signed(complemented as u16)
    }

    pub fn complement(self) -> Literal
        ensures { result.code ≡ model.neg self.code }
    {
        self.signed(1)
    }

    // The literal of the same variable without its sign.
    pub fn unsigned(self) -> Literal
        ensures { result.code ≡ model.positive (net_of self.code) }
    {
        Literal {
            code: 2 * (self.code / 2),
        }
    }

    // The variable, or the net.
    pub fn variable(self) -> u16
        ensures { result ≡ net_of self.code }
    {
        self.code / 2
    }

    // Whether it is a complement.
    pub fn sign(self) -> bool
        ensures { result ≡ (self.code % 2 == 1) }
    {
        self.code % 2 == 1
    }
}
