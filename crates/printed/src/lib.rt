// A line that a program prints: a frame's, or bytes of its own, in room for the longest frame.
#![tactic(auto)]

ghost use Rattle.std.specs.Prelude.{◌≡◌, ◌≤◌, take};
ghost use Rattle.model.specs.Limits.{highest_line};
ghost use Rattle.model.specs.Frames.{line_of, stated_line};
ghost use Rattle.frame.specs.Frames.{frame_of, report};
ghost use Rattle.printed.specs.Printing.{Whole};

use frame::fields::line_len;
use frame::kinds::REPORT_BYTES;
use frame::{Frame, write_frame};
use std::marker::Model;

// The bytes to print are the first `len`; behind them stand zeros.
// An array with its length and no Vec, which would be on the heap: memory is fixed (document 01).
#[derive(Clone, Copy)]
pub struct Printed {
    line: [u8; REPORT_BYTES],
    len: usize,
}

// Contracts see the bytes to print.
impl Model for Printed {
    ghost use Rattle.std.specs.Prelude.{ℕ, List, length, take};
    ghost use Rattle.model.specs.Answers.{filled};
    ghost use Rattle.printed.specs.Printing.{Whole, line_room, same_line, same_length};

    ghost Value = { List ℕ };

    ghost view = { λ p. take p.len p.line };

    ghost invariant = { λ p. Whole p.line p.len };

    ghost inverse = { λ l. record { line = filled line_room l; len = length l } };

    ghost inverse_ok = { λ p h i. record {
      line = same_line p.line p.len h i;
      len = same_length p.line p.len h i;
    } };
}

impl Printed {
    // The first bytes of a line that has zeros behind them.
    pub fn of(line: [u8; REPORT_BYTES], len: usize) -> Printed
        requires { Whole line len }
        ensures { result ≡ take len line }
    {
        Printed { line, len }
    }

    pub fn bytes(&self) -> &[u8]
        ensures { result.now ≡ self.now }
    {
        &self.line[..self.len]
    }
}

// A frame's line.
pub fn frame_line(frame: Frame) -> Printed
    requires { stated_line (frame_of frame) ≤ highest_line }
    ensures { result ≡ line_of (frame_of frame) }
{
    let mut line = [0u8; REPORT_BYTES];
    let _ = write_frame(frame, &mut line);
    Printed::of(line, line_len(frame))
}

// A refusal's report frame, by its number and line, whatever the number.
pub fn refusal_line(number: u8, line: usize) -> Printed
    requires { line ≤ highest_line }
    ensures { result ≡ line_of (report number line 0 0) }
{
    frame_line(Frame::Report {
        refusal: number,
        line,
        steps: 0,
        clauses: 0,
    })
}
