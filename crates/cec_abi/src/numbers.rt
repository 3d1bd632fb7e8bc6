// A frame from a kind and numbers of 64 bits: 3 if the kind is outside the table or a number does not fit its field.
// A report's line is not tested here: the writer refuses one above FFFFFF by 16.
ghost use Rattle.std.specs.Prelude.{◌≡◌, [], ◌∷◌};
ghost use Rattle.model.specs.Frames.{header_kind, output_kind, resolve_kind, report_kind};
ghost use Rattle.frame.specs.Frames.{decoded_of};
ghost use Rattle.cec_abi.specs.Calls.{frame_from, FieldOf, Operands};

use frame::kinds::Kind;
use frame::{Frame, Gate, Resolve};
use refusal::{Reason, Refusal};
use std::num::TryFromIntError;

// A number as a field of one byte or of two, whichever type the field has.
fn field<T: TryFrom<u64, Error = TryFromIntError>>(n: u64) -> Result<T, Refusal>
    ensures { (r : _) × T.try_from_gives n r × FieldOf r result }
{
    T::try_from(n).map_err(|_| Reason::Frame.at(0))
}

fn header_from(inputs: u64, gates: u64, outputs: u64) -> Result<Frame, Refusal>
    ensures { decoded_of result ≡ frame_from header_kind (inputs ∷ gates ∷ outputs ∷ []) }
{
    let inputs = field(inputs)?;
    let gates = field(gates)?;
    let outputs = field(outputs)?;
    Ok(Frame::Header {
        inputs,
        gates,
        outputs,
    })
}

// The operands of a gate, or of an extension.
fn operands(x: u64, y: u64) -> Result<(u16, u16), Refusal>
    ensures { Operands x y result }
{
    let x = field(x)?;
    let y = field(y)?;
    Ok((x, y))
}

fn output_from(literal: u64) -> Result<Frame, Refusal>
    ensures { decoded_of result ≡ frame_from output_kind (literal ∷ []) }
{
    let literal = field(literal)?;
    Ok(Frame::Output { literal })
}

fn resolve_from(first: u64, second: u64, variable: u64) -> Result<Frame, Refusal>
    ensures { decoded_of result ≡ frame_from resolve_kind (first ∷ second ∷ variable ∷ []) }
{
    let first = field(first)?;
    let second = field(second)?;
    let variable = field(variable)?;
    Ok(Frame::Resolve(Resolve {
        first,
        second,
        variable,
    }))
}

fn report_from(refusal: u64, line: u64, steps: u64, clauses: u64) -> Result<Frame, Refusal>
    ensures { decoded_of result ≡ frame_from report_kind (refusal ∷ line ∷ steps ∷ clauses ∷ []) }
{
    let refusal = field(refusal)?;
    let line = line as usize;
    let steps = field(steps)?;
    let clauses = field(clauses)?;
    Ok(Frame::Report {
        refusal,
        line,
        steps,
        clauses,
    })
}

// A kind takes as many of the numbers as it has fields.
pub fn frame_from(kind: u8, numbers: [u64; 4]) -> Result<Frame, Refusal>
    ensures { decoded_of result ≡ frame_from kind numbers }
{
    let [first, second, third, fourth] = numbers;
    match Kind::try_from(kind) {
        Ok(Kind::Header) => header_from(first, second, third),
        Ok(Kind::Gate(op)) => {
            let (x, y) = operands(first, second)?;
            Ok(Frame::Gate(Gate { op, x, y }))
        }
        Ok(Kind::Output) => output_from(first),
        Ok(Kind::Resolve) => resolve_from(first, second, third),
        Ok(Kind::Extend(op)) => {
            let (x, y) = operands(first, second)?;
            Ok(Frame::Extend(Gate { op, x, y }))
        }
        Ok(Kind::Report) => report_from(first, second, third, fourth),
        Err(reason) => Err(reason.at(0)),
    }
}
