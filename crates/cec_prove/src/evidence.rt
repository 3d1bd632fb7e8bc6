// What the program prints for a stream: both lists as they came and the engine's proof behind them, or one report frame with the refusal.
ghost use Rattle.cec_prove.specs.Streams.{Answered, Prints};

use clearing::clear;
use engine::prove;
use frame::kinds::{REPORT_BYTES, RESOLVE_BYTES};
use frame::write_frame;
use refusal::{Reason, Refusal};
use streams::STREAM_BYTES;

// Proof bytes for the largest lists: 15 × (16 × 2,048 + 12 × 64).
pub const PROOF_BYTES: usize = 503040;

// Working numbers for the largest lists: 16 × (1 + 64 + 2,048).
pub const WORKING_NUMBERS: usize = 33808;

// 1 for a stream that is too long, else the engine's answer.
fn prove_stream(
    stream: &[u8],
    out: &mut [u8; PROOF_BYTES],
    work: &mut [u16; WORKING_NUMBERS],
) -> Result<usize, Refusal>
    ensures { Answered stream.now result out.new work.new }
{
    if STREAM_BYTES < stream.len() {
        clear(work, 0);
        return Err(Reason::Stream.at(0));
    }
    prove(stream, out, work)
}

// The evidence for a stream: these first bytes of it, and behind them so many of the buffer, from its start. In the buffer zeros stand behind
// what is printed of it; the working numbers end as zeros.
pub fn evidence<'a>(
    stream: &'a [u8],
    out: &mut [u8; PROOF_BYTES],
    work: &mut [u16; WORKING_NUMBERS],
) -> (&'a [u8], usize)
    ensures { Prints stream.now result.0.now result.1 out.new work.new }
{
    match prove_stream(stream, out, work) {
        Ok(lines) => (&stream[..], RESOLVE_BYTES * lines),
        Err(refusal) => {
            let _ = write_frame(refusal.into(), out);
            (&stream[..0], REPORT_BYTES)
        }
    }
}
