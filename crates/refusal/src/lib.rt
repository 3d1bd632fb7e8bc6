// Refusals (document 01, 'Refusals by the place of the check'): each number once, by name, in the order of the table, and a refusal with its
// place. What a call answers is a `Result` with a refusal as its error, and `specs/Answers` gives the paper's answer for it.
#![tactic(auto)]

ghost use Rattle.std.specs.Prelude.{◌≡◌};
ghost use Rattle.refusal.specs.Answers.{number_of};

#[derive(Clone, Copy, PartialEq, Eq)]
pub enum Reason {
    // A program's stream is over 65,536 bytes.
    Stream = 1,
    // A line's bytes are no digits, or the text ends within it.
    Bytes = 2,
    // A frame's kind is not due, its length is wrong, or a field does not fit it.
    Frame = 3,
    // The text ended where a list's frame is due.
    End = 4,
    // A header's count is outside its range.
    Count = 5,
    // A right header is unlike the left.
    Unlike = 6,
    // A literal is over a net not allowed there.
    Net = 7,
    // The store is too short for the miter's clauses.
    Miter = 8,
    // There is no clause of this number.
    Clause = 9,
    // The pivot is missing from one of the clauses.
    Pivot = 10,
    // The resolvent is too long.
    Length = 11,
    // An operand's variable is not in use.
    Operand = 12,
    // No variable is left.
    Variable = 13,
    // The store lacks space for a step's clauses.
    Store = 14,
    // The last step is no empty resolvent.
    Empty = 15,
    // What is to be written does not fit.
    Room = 16,
    // The working memory is short.
    Work = 17,
    // The forms of an output differ.
    Forms = 18,
}

impl Reason {
    pub fn number(self) -> u8
        ensures { result ≡ number_of self }
    {
        self as u8
    }

    // The refusal for this reason at a line.
    pub fn at(self, line: usize) -> Refusal
        ensures { result ≡ record { reason = self; line = line } }
    {
        Refusal { reason: self, line }
    }
}

// A reason, and the line of its place: 0 where it has none.
#[derive(Clone, Copy, PartialEq, Eq)]
pub struct Refusal {
    pub reason: Reason,
    // 0 where it has no line, as the paper's replies state it.
    pub line: usize,
}

impl Refusal {
    // The number that a report states where nothing is refused.
    pub const NONE: u8 = 0;
}
