// All lines of a proof, one step each (document 01, 'Steps'), up to the end of the text or the first fault.
ghost use Rattle.std.specs.Prelude.{◌≡◌};
ghost use Rattle.model.specs.Steps as model;
ghost use Rattle.frame.specs.Frames.{frame_of};
ghost use Rattle.netlist.specs.Says.{ahead};
ghost use Rattle.steps.specs.Kept.{replied};
ghost use Rattle.steps.specs.Proofs.{state_of, SamePlace};
ghost use Rattle.checker.specs.Lines.{frame_step};
ghost use Rattle.checker.specs.Replays.{RanSays};

use frame::cursor::Cursor;
use frame::kinds::RESOLVE_BYTES;
use frame::rows::resolve_line;
use frame::{Frame, read_line};
use refusal::{Reason, Refusal};
use steps::Proof;

// The step that a frame means: 3 unless it is a step.
fn frame_step(proof: &mut Proof, line: usize, frame: Frame) -> Result<(), Refusal>
    ensures step { replied result (state_of proof.new) ≡ frame_step proof.old.room line (state_of proof.old) (frame_of frame) }
    ensures place { SamePlace proof.old proof.new }
{
    match frame {
        Frame::Resolve(step) => proof.resolve(
            line,
            step.first as usize,
            step.second as usize,
            step.variable,
        ),
        Frame::Extend(gate) => proof.extend(line, gate.op, gate.x, gate.y),
        _ => Err(Reason::Frame.at(line)),
    }
}

// The resolves in a row from a cursor on: the cursor behind them, or the refusal of one. Long proofs have hardly any other line, and no frame is
// built for these. No iterator stands in the loop's place: a step may be refused, and the line that is no resolve is read again by `replay`.
fn run_resolves<'a>(cursor: Cursor<'a>, proof: &mut Proof) -> Result<Cursor<'a>, Refusal>
    ensures ran { RanSays proof.old.room cursor.entry (state_of proof.old) (state_of proof.new) result }
    ensures place { SamePlace proof.old proof.new }
{
    let mut c = cursor;
    while let Some(step) = resolve_line(c.rest) {
        let (first, second) = (step.first as usize, step.second as usize);
        proof.resolve(c.line, first, second, step.variable)?;
        c = c.past(RESOLVE_BYTES, 1);
    }
    Ok(c)
}

// The lines from a cursor on: resolves in a row, then a line of any kind, and so on. The loop goes by a cursor, which each line moves by its own
// length. A line, the end of the text and a refused line stand side by side in one match: a `?` would leave two of them to a `let .. else`, and then
// no edit shows that the last is not taken for the end (must-fail/fault_is_end).
pub fn replay(cursor: Cursor<'_>, proof: &mut Proof) -> Result<(), Refusal>
    ensures replays { replied result (state_of proof.new) ≡ model.replay proof.old.room (state_of proof.old) (ahead cursor.entry) cursor.entry.line }
    ensures place { SamePlace proof.old proof.new }
{
    let mut c = cursor;
    loop {
        let d = run_resolves(c, proof)?;
        match read_line(d) {
            Ok(Some((frame, next))) => {
                frame_step(proof, d.line, frame)?;
                c = next;
            }
            Ok(None) => return Ok(()),
            Err(refusal) => return Err(refusal),
        }
    }
}
