// The lines that stand in rows, and of which long texts are made: gates, outputs, resolves. Each is read as what is due there, without a frame.
ghost use Rattle.frame.specs.Rows.{OpSays, GateSays, LiteralSays, ResolvesSay};

use crate::kinds::{Kind, kind_of};
use crate::read::{operands_of, output_of, resolve_of};
use crate::{Gate, Op, Resolve};

// The operation of a text's first line if that is a gate's, by its kind alone; or there is no gate.
pub fn op_line(text: &[u8]) -> Option<Op>
    ensures { OpSays text.now result }
{
    let kind = kind_of(text)?;
    let Kind::Gate(op) = kind else {
        return None;
    };
    Some(op)
}

// The gate of the first line, or there is no gate. Inlined, since whoever reads rows asks for the operands alone, and a call hands back all three
// in memory.
#[inline(always)]
pub fn gate_line(text: &[u8]) -> Option<Gate>
    ensures { GateSays text.now result }
{
    let op = op_line(text)?;
    let (x, y) = operands_of(text)?;
    Some(Gate { op, x, y })
}

// The literal of the first line if that is an output's, or there is no output.
pub fn output_line(text: &[u8]) -> Option<u16>
    ensures { LiteralSays text.now result }
{
    let kind = kind_of(text)?;
    let Kind::Output = kind else {
        return None;
    };
    output_of(text)
}

// The resolve of the first line, or there is no resolve. One function with the output's would take the kind and the reader, which is all that either
// says.
pub fn resolve_line(text: &[u8]) -> Option<Resolve>
    ensures { ResolvesSay text.now result }
{
    let kind = kind_of(text)?;
    let Kind::Resolve = kind else {
        return None;
    };
    resolve_of(text)
}
