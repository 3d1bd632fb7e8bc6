// The table of kinds (document 01, 'Lines on the wire'): each kind with its byte and the length of its line. What a line is due to be is decided
// here, by one match on the two digits of its kind byte, for a lone line as for the lines that long texts are made of.
ghost use Rattle.std.specs.Prelude.{◌≡◌};
ghost use Rattle.frame.specs.Kinds.{byte_of, IsOp, Named, IsKind, KindSays};

use crate::Op;
use crate::fields::digit_of;
use refusal::Reason;

// The bytes of each line, its LF counted.
pub const HEADER_BYTES: usize = 11;

pub const GATE_BYTES: usize = 11;

pub const OUTPUT_BYTES: usize = 7;

pub const RESOLVE_BYTES: usize = 15;

pub const EXTEND_BYTES: usize = 11;

pub const REPORT_BYTES: usize = 19;

// A kind of the table.
#[derive(Clone, Copy, PartialEq, Eq)]
pub enum Kind {
    Header,
    Gate(Op),
    Output,
    Resolve,
    Extend(Op),
    Report,
}

// The kind that a byte is.
impl TryFrom<u8> for Kind {
    type Error = Reason;

    ghost try_from_gives = { IsKind };

    fn try_from(byte: u8) -> Result<Kind, Reason> {
        spelt_kind(digit_of(byte / 16), digit_of(byte % 16)).ok_or(Reason::Frame)
    }
}

// The byte of a kind.
impl From<Kind> for u8 {
    ghost from_gives = { λ kind byte. byte ≡ byte_of kind };

    fn from(kind: Kind) -> u8 {
        match kind {
            Kind::Header => 0x01,
            Kind::Gate(Op::And) => 0x02,
            Kind::Gate(Op::Xor) => 0x03,
            Kind::Output => 0x04,
            Kind::Resolve => 0x11,
            Kind::Extend(Op::And) => 0x12,
            Kind::Extend(Op::Xor) => 0x13,
            Kind::Report => 0x21,
        }
    }
}

// The operation of a gate's kind, or of an extension's, by its second digit; told apart without a branch, since lists mix them.
fn op_of(low: u8) -> Op
    ensures { IsOp low result }
{
    if low == b'2' { Op::And } else { Op::Xor }
}

// The kind that two digits spell. They are one number, the first digit lower, as they stand in memory: 0x3130 is '01'.
fn spelt_kind(high: u8, low: u8) -> Option<Kind>
    ensures { Named high low result }
{
    match 256 * (low as u16) + (high as u16) {
        0x3130 => Some(Kind::Header),
        0x3230 | 0x3330 => Some(Kind::Gate(op_of(low))),
        0x3430 => Some(Kind::Output),
        0x3131 => Some(Kind::Resolve),
        0x3231 | 0x3331 => Some(Kind::Extend(op_of(low))),
        0x3132 => Some(Kind::Report),
        _ => None,
    }
}

// The kind of a text's first line.
pub fn kind_of(text: &[u8]) -> Option<Kind>
    ensures { KindSays text.now result }
{
    if text.len() < 2 {
        return None;
    }
    spelt_kind(text[0], text[1])
}
