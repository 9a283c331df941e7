ghost use Rattle.std.specs.Prelude.{◌≡◌, ◌+◌, ◌≤◌, ◌++◌, ℕ, List, [], length, take};

use std::marker::Model;
use tk_script::Line;

/// The most bytes of the lines of one record: three parts of at most 96 bytes.
pub const TEXT_ROOM: usize = 288;

/// Contains the lines of one record.
#[derive(Drop)]
pub struct Text {
    bytes: [u8; TEXT_ROOM],
    len: usize,
}

impl Model for Text {
    ghost Value = { List ℕ };

    ghost view = { λ a. take a.len a.bytes };

    ghost invariant = { λ a. a.len ≤ 288 };
}

impl Text {
    /// Makes an empty text.
    pub(crate) fn new() -> Text
        ensures { result ≡ [] }
    {
        Text {
            bytes: [0; TEXT_ROOM],
            len: 0,
        }
    }

    /// Makes the text of one line.
    pub(crate) fn of(line: &Line) -> Text
        ensures text { result ≡ line.now }
        ensures short { length result ≤ 96 }
    {
        let mut text = Text::new();
        text.add(line);
        text
    }

    /// Appends a line, or a part of one.
    pub(crate) fn add(&mut self, line: &Line)
        requires { length self.old ≤ 192 }
        ensures text { self.new ≡ self.old ++ line.now }
        ensures more { length self.new ≤ length self.old + 96 }
    {
        let bytes = line.as_bytes();
        let end = self.len + bytes.len();
        self.bytes[self.len..end].copy_from_slice(bytes);
        self.len = end;
    }

    /// Returns the bytes of the lines.
    pub fn as_bytes(&self) -> &[u8]
        ensures text { result.now ≡ self.now }
        ensures short { length result.now ≤ 288 }
    {
        &self.bytes[..self.len]
    }
}
