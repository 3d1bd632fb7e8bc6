// A stream's answer: the counts of its one list, or the refusal, as the one line that the program prints.
ghost use Rattle.std.specs.Prelude.{◌≡◌};
ghost use Rattle.model.specs.Frames.{line_of};
ghost use Rattle.refusal.specs.Answers.{answer_of};
ghost use Rattle.cec_list.specs.Program.{listed, program, counts_frame};

use frame::Frame;
use listing::GateList;
use netlist::read_list;
use printed::{Printed, frame_line, refusal_line};
use refusal::{Reason, Refusal};
use streams::STREAM_BYTES;

// A stream's list, or 1 for a stream that is too long.
fn list_stream(stream: &[u8]) -> Result<GateList<'_>, Refusal>
    ensures { answer_of result ≡ listed stream.now }
{
    if STREAM_BYTES < stream.len() {
        return Err(Reason::Stream.at(0));
    }
    read_list(stream)
}

// The header's line that states a list's counts.
fn counts_line(list: &GateList<'_>) -> Printed
    ensures { result ≡ line_of (counts_frame list.now) }
{
    let counts = list.counts();
    frame_line(Frame::Header {
        inputs: counts.inputs as u8,
        gates: counts.gates as u16,
        outputs: counts.outputs as u8,
    })
}

// The line that the program prints for a stream.
pub fn answer(stream: &[u8]) -> Printed
    ensures { result ≡ program stream.now }
{
    match list_stream(stream) {
        Ok(list) => counts_line(&list),
        Err(refusal) => refusal_line(refusal.reason.number(), refusal.line),
    }
}
