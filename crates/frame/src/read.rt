// The fields of a text's first line, read as its kind has them: one function for each kind, which knows the kind's length. A line is gone through
// once, without a loop. What comes back is small: the lines that long texts are made of are read without a frame.
ghost use Rattle.std.specs.Prelude.{◌<◌};
ghost use Rattle.model.specs.Frames.{header_kind, report_kind};
ghost use Rattle.frame.specs.Kinds.{HasKind};
ghost use Rattle.frame.specs.Fields.{Feeds, OperandsSay, OutputSays, ResolveSays, Looked};

use crate::kinds::{
    EXTEND_BYTES, GATE_BYTES, HEADER_BYTES, Kind, OUTPUT_BYTES, REPORT_BYTES, RESOLVE_BYTES,
    kind_of,
};
use crate::{Frame, Gate, Resolve};
use digits::read::{byte_at, triple_at, word_at};

// Whether the first line can be one of so many bytes: LF stands where it has it.
fn feeds(text: &[u8], bytes: usize) -> bool
    requires { 0 < bytes }
    ensures { Feeds text.now bytes result }
{
    text.get(bytes - 1) == Some(&b'\n')
}

// The operands of a gate's line or of an extension's; or there are none, and the line is refused.
pub fn operands_of(text: &[u8]) -> Option<(u16, u16)>
    ensures { OperandsSay text.now result }
{
    if !feeds(text, GATE_BYTES) {
        return None;
    }
    let x = word_at(text, 2)?;
    let y = word_at(text, 6)?;
    Some((x, y))
}

// The literal of an output's line; or there is none, and the line is refused.
pub fn output_of(text: &[u8]) -> Option<u16>
    ensures { OutputSays text.now result }
{
    if !feeds(text, OUTPUT_BYTES) {
        return None;
    }
    word_at(text, 2)
}

// The clauses of a resolve's line and its pivot; or there are none, and the line is refused.
pub fn resolve_of(text: &[u8]) -> Option<Resolve>
    ensures { ResolveSays text.now result }
{
    if !feeds(text, RESOLVE_BYTES) {
        return None;
    }
    let first = word_at(text, 2)?;
    let second = word_at(text, 6)?;
    let variable = word_at(text, 10)?;
    Some(Resolve {
        first,
        second,
        variable,
    })
}

// The header of the first line: as of each kind, its promise is that of `first_frame`.
fn header_of(text: &[u8]) -> Option<(Frame, &[u8])>
    requires { HasKind text.now header_kind }
    ensures { Looked text.now result }
{
    if !feeds(text, HEADER_BYTES) {
        return None;
    }
    let inputs = byte_at(text, 2)?;
    let gates = word_at(text, 4)?;
    let outputs = byte_at(text, 8)?;
    let frame = Frame::Header {
        inputs,
        gates,
        outputs,
    };
    Some((frame, &text[HEADER_BYTES..]))
}

fn report_of(text: &[u8]) -> Option<(Frame, &[u8])>
    requires { HasKind text.now report_kind }
    ensures { Looked text.now result }
{
    if !feeds(text, REPORT_BYTES) {
        return None;
    }
    let refusal = byte_at(text, 2)?;
    let line = triple_at(text, 4)? as usize;
    let steps = word_at(text, 10)?;
    let clauses = word_at(text, 14)?;
    let frame = Frame::Report {
        refusal,
        line,
        steps,
        clauses,
    };
    Some((frame, &text[REPORT_BYTES..]))
}

// The frame of the first line, and what is behind the line; or there is none: nothing is left, or the line is refused.
pub fn first_frame(text: &[u8]) -> Option<(Frame, &[u8])>
    ensures { Looked text.now result }
{
    match kind_of(text)? {
        Kind::Header => header_of(text),
        Kind::Gate(op) => {
            let (x, y) = operands_of(text)?;
            Some((Frame::Gate(Gate { op, x, y }), &text[GATE_BYTES..]))
        }
        Kind::Output => {
            let literal = output_of(text)?;
            Some((Frame::Output { literal }, &text[OUTPUT_BYTES..]))
        }
        Kind::Resolve => {
            let step = resolve_of(text)?;
            Some((Frame::Resolve(step), &text[RESOLVE_BYTES..]))
        }
        Kind::Extend(op) => {
            let (x, y) = operands_of(text)?;
            Some((Frame::Extend(Gate { op, x, y }), &text[EXTEND_BYTES..]))
        }
        Kind::Report => report_of(text),
    }
}
