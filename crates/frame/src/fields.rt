// A frame as its kind and fields, and its line written field by field.
ghost use Rattle.std.specs.Prelude.{◌≡◌, ◌+◌, ◌≤◌, ◌<◌, leb, length, get_or};
ghost use Rattle.std.proofs.lemmas.List.Edits.{sets};
ghost use Rattle.model.specs.Limits.{highest_line};
ghost use Rattle.model.specs.Lines.{digit_of};
ghost use Rattle.model.specs.Frames.{one_byte, two_bytes, three_bytes, hex, line_of, stated_line};
ghost use Rattle.frame.specs.Frames.{frame_of, values_of, Spells};

use crate::Frame;
use crate::kinds::{
    EXTEND_BYTES, GATE_BYTES, HEADER_BYTES, Kind, OUTPUT_BYTES, REPORT_BYTES, RESOLVE_BYTES,
};

// The highest line number that a report can state, in three bytes.
pub const HIGHEST_LINE: usize = 0xFFFFFF;

// A field, and the digits that it has on the line.
#[derive(Clone, Copy, PartialEq, Eq)]
pub struct Field {
    pub value: usize,
    pub width: usize,
}

impl Field {
    // Where a kind has no further field. No `Option`: no digit is written for it, and so all four go one way.
    pub const NONE: Field = Field { value: 0, width: 0 };

    // A line number, which is the only field of three bytes.
    fn three_bytes(value: usize) -> Field
        ensures { result ≡ record { value = value; width = three_bytes } }
    {
        Field { value, width: 6 }
    }
}

impl From<u8> for Field {
    ghost from_gives = { λ value field. field ≡ record { value = value; width = one_byte } };

    fn from(value: u8) -> Field {
        Field {
            value: value as usize,
            width: 2,
        }
    }
}

impl From<u16> for Field {
    ghost from_gives = { λ value field. field ≡ record { value = value; width = two_bytes } };

    fn from(value: u16) -> Field {
        Field {
            value: value as usize,
            width: 4,
        }
    }
}

// The kind's byte, and the fields in turn.
#[derive(Clone, Copy, PartialEq, Eq)]
pub struct Fields {
    pub kind: u8,
    pub fields: [Field; 4],
}

impl Fields {
    // Field i, from 0; 0 behind the last.
    pub fn value(self, i: usize) -> usize
        requires { i < 4 }
        ensures { result ≡ get_or (values_of self.fields) i 0 }
    {
        self.fields[i].value
    }
}

// An arm for each kind, its fields in the table's order. (49 lines, since the format gives each field of a pattern its own.)
pub fn fields_of(frame: Frame) -> Fields
    ensures { Spells result (frame_of frame) }
{
    match frame {
        Frame::Header {
            inputs,
            gates,
            outputs,
        } => Fields {
            kind: Kind::Header.into(),
            fields: [inputs.into(), gates.into(), outputs.into(), Field::NONE],
        },
        Frame::Gate(gate) => Fields {
            kind: Kind::Gate(gate.op).into(),
            fields: [gate.x.into(), gate.y.into(), Field::NONE, Field::NONE],
        },
        Frame::Output { literal } => Fields {
            kind: Kind::Output.into(),
            fields: [literal.into(), Field::NONE, Field::NONE, Field::NONE],
        },
        Frame::Resolve(step) => Fields {
            kind: Kind::Resolve.into(),
            fields: [
                step.first.into(),
                step.second.into(),
                step.variable.into(),
                Field::NONE,
            ],
        },
        Frame::Extend(gate) => Fields {
            kind: Kind::Extend(gate.op).into(),
            fields: [gate.x.into(), gate.y.into(), Field::NONE, Field::NONE],
        },
        Frame::Report {
            refusal,
            line,
            steps,
            clauses,
        } => Fields {
            kind: Kind::Report.into(),
            fields: [
                refusal.into(),
                Field::three_bytes(line),
                steps.into(),
                clauses.into(),
            ],
        },
    }
}

// The length of a frame's line, its LF counted.
pub fn line_len(frame: Frame) -> usize
    ensures { result ≡ length (line_of (frame_of frame)) }
{
    match frame {
        Frame::Header { .. } => HEADER_BYTES,
        Frame::Gate(_) => GATE_BYTES,
        Frame::Output { .. } => OUTPUT_BYTES,
        Frame::Resolve(_) => RESOLVE_BYTES,
        Frame::Extend(_) => EXTEND_BYTES,
        Frame::Report { .. } => REPORT_BYTES,
    }
}

// Whether the line number that a report states has three bytes.
pub fn line_number_fits(frame: Frame) -> bool
    ensures { result ≡ leb (stated_line (frame_of frame)) highest_line }
{
    let Frame::Report { line, .. } = frame else {
        return true;
    };
    line <= HIGHEST_LINE
}

pub fn digit_of(d: u8) -> u8
    requires { d < 16 }
    ensures { result ≡ digit_of d }
{
    if d < 10 { b'0' + d } else { b'A' - 10 + d }
}

// The lowest digits of n, as many as width says, written from a place on; the place behind them. No `Display`: what formatting writes has no contract.
pub fn put_hex(out: &mut [u8], at: usize, n: usize, width: usize) -> usize
    requires { at + width ≤ length out.old }
    ensures { (result ≡ at + width) × (out.new ≡ sets out.old at (hex width n)) }
{
    let mut rest = n;
    for i in (0..width).rev() {
        out[at + i] = digit_of((rest % 16) as u8);
        rest /= 16;
    }
    at + width
}

// A frame's line, written from a place on where there is room for it; the place behind it.
pub fn write_line(frame: Frame, out: &mut [u8], at: usize) -> usize
    requires { at + length (line_of (frame_of frame)) ≤ length out.old }
    ensures { (result ≡ at + length (line_of (frame_of frame))) × (out.new ≡ sets out.old at (line_of (frame_of frame))) }
{
    let w = fields_of(frame);
    let mut p = put_hex(out, at, w.kind as usize, 2);
    for field in &w.fields {
        p = put_hex(out, p, field.value, field.width);
    }
    out[p] = b'\n';
    p + 1
}
