// A resolve's line, written without a loop: the engine's proof has no other.
ghost use Rattle.std.specs.Prelude.{◌≡◌, ◌+◌, ◌≤◌, length};
ghost use Rattle.std.proofs.lemmas.List.Edits.{sets};
ghost use Rattle.model.specs.Limits.{proof_line_bytes};
ghost use Rattle.model.specs.Frames.{two_bytes, hex, line_of};
ghost use Rattle.frame.specs.Frames.{resolve};

use crate::Resolve;
use digits::packed::spelling;

// The four digits of n, written from a place on.
fn put_word(out: &mut [u8], at: usize, n: u16)
    requires { at + two_bytes ≤ length out.old }
    ensures { out.new ≡ sets out.old at (hex two_bytes n) }
{
    let n = n as u32;
    let a = n / 16;
    let b = a / 16;
    let values = b / 16 + 256 * (b % 16) + 65536 * (a % 16) + 16777216 * (n % 16);
    let digits = spelling(values);
    out[at] = (digits % 256) as u8;
    out[at + 1] = (digits / 256 % 256) as u8;
    out[at + 2] = (digits / 65536 % 256) as u8;
    out[at + 3] = (digits / 16777216) as u8;
}

// The line, written from a place on.
pub fn write_resolve(out: &mut [u8], at: usize, step: Resolve)
    requires { at + proof_line_bytes ≤ length out.old }
    ensures { out.new ≡ sets out.old at (line_of (resolve step.first step.second step.variable)) }
{
    out[at] = b'1';
    out[at + 1] = b'1';
    put_word(out, at + 2, step.first);
    put_word(out, at + 6, step.second);
    put_word(out, at + 10, step.variable);
    out[at + 14] = b'\n';
}
