// The lines of a list: its header, its gates, its outputs, and the end of the text. Each frame's answer is taken apart by `let .. else`, and
// refusals are handed upward by `?`.
ghost use Rattle.std.specs.Prelude.{◌≡◌, ◌+◌, ◌≤◌, ◌&&◌, leb, ltb};
ghost use Rattle.model.specs.Limits.{most_inputs, most_gates, most_outputs};
ghost use Rattle.model.specs.Lists.{is_gate, is_output};
ghost use Rattle.frame.specs.Frames.{frame_of};
ghost use Rattle.netlist.specs.Says.{ahead, DueSays, HeaderSays, GatesSay, OutputsSay, BodySays, EndSays};
ghost use Rattle.netlist.specs.Plain.{Refused};

use crate::plain::{plain_gate, plain_output, rows};
use frame::cursor::Cursor;
use frame::kinds::{GATE_BYTES, OUTPUT_BYTES};
use frame::{Frame, read_line};
use listing::Counts;
use refusal::{Reason, Refusal};

pub const MOST_INPUTS: u8 = 64;

pub const MOST_GATES: u16 = 1024;

pub const MOST_OUTPUTS: u8 = 64;

// The frame at a cursor where a list's is due, and the cursor behind it: a text that has ended is 4.
#[inline(always)]
fn due_frame(cursor: Cursor<'_>) -> Result<(Frame, Cursor<'_>), Refusal>
    ensures { DueSays cursor.entry result }
{
    let Some(read) = read_line(cursor)? else {
        return Err(Reason::End.at(cursor.line));
    };
    Ok(read)
}

// Whether the counts of a header are within their ranges.
fn in_range(inputs: u8, gates: u16, outputs: u8) -> bool
    ensures { result ≡ (leb inputs most_inputs && leb gates most_gates && ltb 0 outputs && leb outputs most_outputs) }
{
    inputs <= MOST_INPUTS && gates <= MOST_GATES && outputs > 0 && outputs <= MOST_OUTPUTS
}

#[inline(always)]
pub fn read_header(cursor: Cursor<'_>) -> Result<(Counts, Cursor<'_>), Refusal>
    ensures { HeaderSays cursor.entry result }
{
    let line = cursor.line;
    let (frame, next) = due_frame(cursor)?;
    let Frame::Header {
        inputs,
        gates,
        outputs,
    } = frame
    else {
        return Err(Reason::Frame.at(line));
    };
    if !in_range(inputs, gates, outputs) {
        return Err(Reason::Count.at(line));
    }
    Ok((
        Counts {
            inputs: inputs as usize,
            gates: gates as usize,
            outputs: outputs as usize,
        },
        next,
    ))
}

// The refusal of a line that ends a row too early: of a frame that is due there, and so reads a net that it may not, 7.
fn refuse<F: Fn(Frame) -> bool>(cursor: Cursor<'_>, due: F) -> Refusal
    requires { F.IsAlwaysCallable due }
    ensures { Refused (F.post due) (ahead cursor.entry) cursor.entry.line result }
{
    let frame = match due_frame(cursor) {
        Ok((frame, _)) => frame,
        Err(refusal) => return refusal,
    };
    if due(frame) {
        return Reason::Net.at(cursor.line);
    }
    Reason::Frame.at(cursor.line)
}

fn is_gate(frame: Frame) -> bool
    ensures { result ≡ is_gate (frame_of frame).kind }
{
    matches!(frame, Frame::Gate(_))
}

fn is_output(frame: Frame) -> bool
    ensures { result ≡ is_output (frame_of frame).kind }
{
    matches!(frame, Frame::Output { .. })
}

// So many gates, of which the first is this net.
pub fn read_gates(cursor: Cursor<'_>, first: usize, count: usize) -> Result<Cursor<'_>, Refusal>
    requires { (first ≤ 1 + most_inputs) × (count ≤ most_gates) }
    ensures { GatesSay cursor.entry first count result }
{
    let known = rows(
        cursor.rest,
        GATE_BYTES,
        count,
        |text, i| plain_gate(text, first + i),
    );
    let next = cursor.past(GATE_BYTES * known, known);
    if known < count {
        return Err(refuse(next, is_gate));
    }
    Ok(next)
}

// So many outputs of a list with so many nets. It stands beside `read_gates`: both are the same two calls, but each over a definition of its own, so
// that one function would only hand both closures and both facts on.
pub fn read_outputs(cursor: Cursor<'_>, nets: usize, count: usize) -> Result<Cursor<'_>, Refusal>
    requires { count ≤ most_outputs }
    ensures { OutputsSay cursor.entry nets count result }
{
    let known = rows(
        cursor.rest,
        OUTPUT_BYTES,
        count,
        |text, _| plain_output(text, nets),
    );
    let next = cursor.past(OUTPUT_BYTES * known, known);
    if known < count {
        return Err(refuse(next, is_output));
    }
    Ok(next)
}

// The gates and the outputs behind a header.
#[inline(always)]
pub fn read_body(cursor: Cursor<'_>, counts: Counts) -> Result<Cursor<'_>, Refusal>
    requires { (counts.inputs ≤ most_inputs) × (counts.gates ≤ most_gates) × (counts.outputs ≤ most_outputs) }
    ensures { BodySays cursor.entry counts result }
{
    let first = 1 + counts.inputs;
    let next = read_gates(cursor, first, counts.gates)?;
    read_outputs(next, first + counts.gates, counts.outputs)
}

// Nothing more in the text: a line behind a list that should be the end is read like any other, and is then 3.
pub fn read_end(cursor: Cursor<'_>) -> Result<(), Refusal>
    ensures { EndSays cursor.entry result }
{
    match read_line(cursor)? {
        None => Ok(()),
        Some(_) => Err(Reason::Frame.at(cursor.line)),
    }
}
