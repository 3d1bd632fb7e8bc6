// One line of a text as one frame, and back (document 01, 'Lines on the wire').
// Every text gets an answer: nothing here asks anything of the bytes that it is given.
#![tactic(auto)]

pub mod cursor; // what is left of a text
pub mod fields; // a frame as its kind and fields, for writing
pub mod kinds; // the table of kinds
pub mod read; // the fields of a line, by its kind
pub mod report; // a report's line
pub mod rows; // the lines that stand in rows
pub mod resolves; // a resolve's line, written without a loop

ghost use Rattle.std.specs.Prelude.{◌≡◌, ℕ, ◌<◌, length};
ghost use Rattle.model.specs.Lines.{lines};
ghost use Rattle.model.specs.Frames.{lone_line, write_frame, written_frame};
ghost use Rattle.refusal.specs.Answers.{number_of};
ghost use Rattle.frame.specs.Frames.{frame_of, decoded_of, written_of, first, first_of, left_of, Ahead};
ghost use Rattle.frame.specs.Frames.First.{fault};
ghost use Rattle.frame.specs.Kinds.{Unframed};

use clearing::clear;
use cursor::Cursor;
use digits::digits_of;
use fields::{line_len, line_number_fits, write_line};
use read::first_frame;
use refusal::{Reason, Refusal};

#[derive(Clone, Copy, PartialEq, Eq)]
pub enum Op {
    And,
    Xor,
}

// A gate's operation and operands.
#[derive(Clone, Copy, PartialEq, Eq)]
pub struct Gate {
    pub op: Op,
    pub x: u16,
    pub y: u16,
}

// A resolve's clauses and its pivot.
#[derive(Clone, Copy, PartialEq, Eq)]
pub struct Resolve {
    pub first: u16,
    pub second: u16,
    pub variable: u16,
}

// A frame of each kind of the table.
#[derive(Clone, Copy, PartialEq, Eq)]
pub enum Frame {
    Header {
        inputs: u8,
        gates: u16,
        outputs: u8,
    },
    Gate(Gate),
    Output {
        literal: u16,
    },
    Resolve(Resolve),
    // The next variable as a gate.
    Extend(Gate),
    // A reply's line may be any number; only one of three bytes can be written.
    Report {
        refusal: u8,
        line: usize,
        steps: u16,
        clauses: u16,
    },
}

// A refusal's report.
impl From<Refusal> for Frame {
    ghost use Rattle.refusal.specs.Answers.{number_of};
    ghost use Rattle.frame.specs.declared.Frame.{Frame};

    ghost from_gives = { λ refusal frame. frame ≡ Frame.Report (number_of refusal.reason) refusal.line 0 0 };

    fn from(refusal: Refusal) -> Frame {
        Frame::Report {
            refusal: refusal.reason.number(),
            line: refusal.line,
            steps: 0,
            clauses: 0,
        }
    }
}

// Why the first line has no frame: its first byte that is no digit is no LF either, or the text ends before one; else its digits are none.
fn fault_of(text: &[u8]) -> Reason
    ensures { 0 < length text.now → Unframed text.now → (line : ℕ) → fault (number_of result) line ≡ first (lines text.now) line }
{
    if text.get(digits_of(text)) == Some(&b'\n') {
        return Reason::Frame;
    }
    Reason::Bytes
}

// Whether nothing is left at a cursor where no frame stands; else a line, which is refused.
fn end_of(cursor: Cursor<'_>) -> Result<(), Refusal>
    ensures { Unframed cursor.entry.rest.now → left_of result ≡ first (lines cursor.entry.rest.now) cursor.entry.line }
{
    if cursor.rest.is_empty() {
        return Ok(());
    }
    Err(fault_of(cursor.rest).at(cursor.line))
}

// The line at a cursor as a frame, with the cursor behind it; none at the end of the text. Inlined, since a reply of this size comes back through
// memory, which takes as long as reading a short line.
#[inline(always)]
pub fn read_line(cursor: Cursor<'_>) -> Result<Option<(Frame, Cursor<'_>)>, Refusal>
    ensures reads { first_of result ≡ first (lines cursor.entry.rest.now) cursor.entry.line }
    ensures ahead { Ahead cursor.entry.rest.now result }
{
    let Some((frame, rest)) = first_frame(cursor.rest) else {
        end_of(cursor)?;
        return Ok(None);
    };
    let next = Cursor {
        rest,
        line: cursor.line + 1,
    };
    Ok(Some((frame, next)))
}

// A lone line: a text that is one frame and nothing behind it.
pub fn read_frame(text: &[u8]) -> Result<Frame, Refusal>
    ensures { decoded_of result ≡ lone_line text.now }
{
    let Some((frame, next)) = read_line(Cursor::start(text))? else {
        return Err(Reason::Bytes.at(1));
    };
    match read_line(next)? {
        None => Ok(frame),
        Some(_) => Err(Reason::Frame.at(next.line)),
    }
}

// A frame's line with its LF at the start of out and zeros behind it; or 16, and all zeros.
pub fn write_frame(frame: Frame, out: &mut [u8]) -> Result<usize, Refusal>
    ensures replies { written_of result ≡ write_frame (frame_of frame) (length out.old) }
    ensures leaves { out.new ≡ written_frame (frame_of frame) (length out.old) }
{
    clear(out, 0);
    if !line_number_fits(frame) || out.len() < line_len(frame) {
        return Err(Reason::Room.at(0));
    }
    Ok(write_line(frame, out, 0))
}
