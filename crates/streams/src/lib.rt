// Standard input, read to its end, how long a program's stream may be, and its answer on standard output.
#![tactic(auto)]

ghost use Rattle.std.specs.Prelude.{◌≡◌, ◌+◌, ◌≤◌, length, IfOk};
ghost use Rattle.model.specs.Limits.{stream_bytes};

use std::io::{self, Read, Write};

// The most bytes that a program takes (document 01, refusal 1).
pub const STREAM_BYTES: usize = 65536;

// A buffer of one byte more, so that a longer stream is seen without being read to its end.
pub const STREAM_ROOM: usize = 65537;

// An empty buffer. No proof writes its zeros out.
pub fn room<const N: usize>() -> [u8; N]
    ensures { length result ≡ N }
{
    [0; N]
}

// The buffer of a program that takes STREAM_BYTES.
pub fn stream_room() -> [u8; STREAM_ROOM]
    ensures { length result ≡ stream_bytes + 1 }
{
    room::<STREAM_ROOM>()
}

// Reads standard input to the start of the buffer, until the stream ends or the buffer is full, after so many bytes; or the error, which the
// system may tell only once.
pub fn read_stream(rt: &HostRuntime, buf: &mut [u8]) -> io::Result<usize>
    ensures { IfOk result (λ n. n ≤ length buf.new) }
{
    let mut input = rt.stdin();
    let mut done = 0;
    // Counts the bytes that came: a read may stop short of the end, `read_exact` tells no count there, and `read_to_end` fills a Vec, on the heap.
    while done < buf.len() {
        let more = input.read(&mut buf[done..])?;
        if more == 0 {
            return Ok(done);
        }
        done += more;
    }
    Ok(done)
}

// Hands standard input on to a program's answer, or says on standard error that it was not read to its end. The buffer has a byte more than a
// stream may have.
pub fn answer_stream<F: FnOnce(&[u8])>(rt: &HostRuntime, buf: &mut [u8], unread: &[u8], answer: F)
    requires { F.IsAlwaysCallable answer }
{
    match read_stream(rt, buf) {
        Ok(n) => answer(&buf[..n]),
        Err(_) => complain(rt, unread),
    }
}

// Writes the parts of a program's answer in turn, and where that fails its message on standard error.
pub fn print(rt: &HostRuntime, parts: &[&[u8]], unwritten: &[u8]) {
    let mut output = rt.stdout();
    for part in parts {
        if output.write_all(part).is_err() {
            complain(rt, unwritten);
            return;
        }
    }
}

// Writes a message on standard error. Where that fails too, nobody is left to be told.
pub fn complain(rt: &HostRuntime, message: &[u8]) {
    let _ = rt.stderr().write_all(message);
}
