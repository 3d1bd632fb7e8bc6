// A report's line, which a program prints.
ghost use Rattle.std.specs.Prelude.{◌≡◌, ◌≤◌};
ghost use Rattle.model.specs.Limits.{highest_line};
ghost use Rattle.model.specs.Frames.{line_of};
ghost use Rattle.frame.specs.Frames.{report};

use crate::Frame;
use crate::fields::write_line;
use crate::kinds::REPORT_BYTES;

// The line, with its LF. The refusal is a number and no `Reason`, since 0 is acceptance (document 01, 'The checker').
pub fn report_line(refusal: u8, line: usize, steps: u16, clauses: u16) -> [u8; REPORT_BYTES]
    requires { line ≤ highest_line }
    ensures { result ≡ line_of (report refusal line steps clauses) }
{
    let mut out = [0u8; REPORT_BYTES];
    let frame = Frame::Report {
        refusal,
        line,
        steps,
        clauses,
    };
    write_line(frame, &mut out, 0);
    out
}
