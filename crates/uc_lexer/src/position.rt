ghost use Rattle.std.specs.Prelude.{◌≡◌, ◌+◌, ◌-◌, ◌*◌, ◌^◌, ◌<◌, ◌≤◌, ◌==◌, if◌then◌else◌};

use crate::place::Place;

/// How far a text was read: the offset of the next byte, the number of its line, and the offset of
/// that line's first byte.
#[derive(Clone, Copy, Debug)]
pub(crate) struct Position {
    pub at: usize,
    pub line: u32,
    pub line_start: usize,
}

impl Position {
    pub fn start() -> Position
        ensures { result ≡ record { at = 0; line = 1; line_start = 0 } }
    {
        Position {
            at: 0,
            line: 1,
            line_start: 0,
        }
    }

    /// Behind as many bytes, none of which is a line feed.
    pub fn along(self, count: usize) -> Position
        requires { self.at + count < 2 ^ 64 }
        ensures { result ≡ record { at = self.at + count; line = self.line; line_start = self.line_start } }
    {
        Position {
            at: self.at + count,
            ..self
        }
    }

    /// Behind a line feed.
    pub fn next_line(self) -> Position
        requires at { self.at + 1 < 2 ^ 64 }
        requires line { self.line + 1 < 2 ^ 32 }
        ensures { result ≡ record { at = self.at + 1; line = self.line + 1; line_start = self.at + 1 } }
    {
        Position {
            at: self.at + 1,
            line: self.line + 1,
            line_start: self.at + 1,
        }
    }

    pub fn place(self, file: u16) -> Place
        requires start { self.line_start ≤ self.at }
        requires fits { self.at + 1 < 2 ^ 32 }
        ensures { result ≡ record { file = file; line = self.line; col = self.at - self.line_start + 1 } }
    {
        Place {
            file,
            line: self.line,
            col: (self.at - self.line_start + 1) as u32,
        }
    }
}
