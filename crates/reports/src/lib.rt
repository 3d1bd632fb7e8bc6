// A stream's report within two limits: the checker's verdict on a stream of at most so many bytes, with a lent store, as the one line that a
// checking program prints.
#![tactic(auto)]

ghost use Rattle.std.specs.Prelude.{◌≡◌, ◌≤◌, ◌<◌, ◌*◌, ℕ, length};
ghost use Rattle.model.specs.Limits.{clause_width, most_clauses, highest_line};
ghost use Rattle.model.specs.Answers.{Answer};
ghost use Rattle.model.specs.Frames.{line_of};
ghost use Rattle.model.specs.Steps.{State};
ghost use Rattle.model.specs.Checker as model;
ghost use Rattle.checker.specs.Verdicts.{counted_of};
ghost use Rattle.refusal.specs.Answers.{answer_of};
ghost use Rattle.reports.specs.Reports.{Fits};

use checker::{Accepted, check};
use clearing::clear;
use frame::kinds::REPORT_BYTES;
use frame::report::report_line;
use refusal::{Reason, Refusal};

// The verdict on a stream, or 1 for one of more bytes.
fn judge(stream: &[u8], bytes: usize, store: &mut [u16]) -> Result<Accepted, Refusal>
    ensures replies { answer_of result ≡ counted_of (model.judge bytes (length store.old) stream.now) }
    ensures leaves { store.new ≡ model.store_after (length store.old) (model.judge bytes (length store.old) stream.now) }
{
    if bytes < stream.len() {
        clear(store, 0);
        return Err(Reason::Stream.at(0));
    }
    check(stream, store)
}

// The report's line of every verdict that comes to these counts or to this refusal.
// Numbers and no frame: the line has the same place for an accepted proof's counts.
fn line_of(checked: Result<Accepted, Refusal>) -> [u8; REPORT_BYTES]
    requires { Fits checked }
    ensures { (a : Answer State) → answer_of checked ≡ counted_of a → result ≡ line_of (model.report_of a) }
{
    match checked {
        Ok(a) => report_line(Refusal::NONE, 0, a.steps as u16, a.clauses as u16),
        Err(refusal) => report_line(refusal.reason.number(), refusal.line, 0, 0),
    }
}

// The line for a stream of at most so many bytes. The store holds what the checker leaves in it, and zeros after 1. A report has digits for
// every line of as many bytes.
pub fn report_within(stream: &[u8], bytes: usize, store: &mut [u16]) -> [u8; REPORT_BYTES]
    requires { bytes < highest_line }
    ensures replies { result ≡ line_of (model.report_of (model.judge bytes (length store.old) stream.now)) }
    ensures leaves { store.new ≡ model.store_after (length store.old) (model.judge bytes (length store.old) stream.now) }
{
    line_of(judge(stream, bytes, store))
}

// The line that a checking program prints, by its two limits: a stream's bytes, and the numbers of a store of its own.
pub fn report<const BYTES: usize, const NUMBERS: usize>(stream: &[u8]) -> [u8; REPORT_BYTES]
    requires bytes { BYTES < highest_line }
    requires numbers { NUMBERS ≤ clause_width * most_clauses }
    ensures { (clauses : ℕ) → NUMBERS ≡ clause_width * clauses → result ≡ model.program_within BYTES clauses stream.now }
{
    let mut store = [0u16; NUMBERS];
    report_within(stream, BYTES, &mut store)
}
