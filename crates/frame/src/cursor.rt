// What is left of a text that is read line by line.
ghost use Rattle.std.specs.Prelude.{◌≡◌, ◌+◌, ◌^◌, ◌≤◌, drop, length};

// What is left of a text, and the number of its first line, from 1. Every line has a byte, so that a line's number cannot outrun the text.
#[derive(Clone, Copy, PartialEq, Eq)]
pub struct Cursor<'a> {
    pub rest: &'a [u8],
    pub line: usize,
    ghost numbered: { line + length rest.now ≤ 2 ^ 63 },
}

impl<'a> Cursor<'a> {
    // A whole text.
    pub fn start(text: &'a [u8]) -> Cursor<'a>
        ensures { (result.rest.now ≡ text.now) × (result.line ≡ 1) }
    {
        Cursor {
            rest: text,
            line: 1,
        }
    }

    // What is left behind so many bytes, in which so many lines stand.
    pub fn past(self, bytes: usize, lines: usize) -> Cursor<'a>
        requires { (lines ≤ bytes) × (bytes ≤ length self.rest.now) }
        ensures { (result.rest.now ≡ drop bytes self.entry.rest.now) × (result.line ≡ self.entry.line + lines) }
    {
        Cursor {
            rest: &self.rest[bytes..],
            line: self.line + lines,
        }
    }
}
