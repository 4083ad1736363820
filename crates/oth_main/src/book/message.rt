//! The lines that a command of the book prints.

ghost use Rattle.std.specs.Prelude.{◌≡◌, ◌≤◌, ◌<◌, ◌+◌, ◌++◌, ◌∷◌, [], true, false, length, decimal, IsTrue, IsFalse};
ghost use Rattle.std.specs.Io.KnownBytes.{Appends};

use arrayvec::ArrayVec;
use itoa::Buffer;
use oth_text::{Sink, write_all};
use std::marker::Model;

// More than the longest line has: `line `, a number of at most 20 digits, `: `, a fault line of at most 24 bytes, and
// byte 10.
const MESSAGE_LEN: usize = 80;

/// A line of texts and numbers, as far as there is room for them. Contracts see its bytes.
#[derive(Drop)]
pub struct Message {
    bytes: ArrayVec<u8, MESSAGE_LEN>,
}

impl Model for Message {
    ghost use Rattle.std.specs.Prelude.{List, ℕ};

    ghost Value = { List ℕ };

    ghost view = { λ m. m.bytes.items };
}

impl Message {
    /// The line that begins with this text.
    pub fn of(text: &[u8]) -> Self
        ensures { length text.now ≤ 80 → result ≡ text.now }
    {
        let mut message = Message {
            bytes: ArrayVec::new(),
        };
        message.push_text(text);
        message
    }

    /// Appends the text to the line, if there is room for it.
    pub fn text(mut self, text: &[u8]) -> Self
        ensures text { length self + length text.now ≤ 80 → result ≡ self ++ text.now }
        ensures short { length result ≤ length self + length text.now }
    {
        self.push_text(text);
        self
    }

    /// Appends the number in decimal digits to the line, if there is room for them.
    pub fn number(mut self, number: u64) -> Self
        ensures text { length self ≤ 60 → result ≡ self ++ decimal number }
        ensures short { length result ≤ length self + 20 }
    {
        self.push_text(Buffer::new().format(number).as_bytes());
        self
    }

    /// Prints the line with byte 10. A sink that fails is passed over.
    pub fn print<E: Sink>(self, errors: &mut E)
        ensures { E.failed errors.new ≡ false → length self < 80
            → Appends (E.contents errors.old) (E.contents errors.new) (self ++ 10 ∷ []) }
    {
        let _ = self.write_to(errors);
    }

    /// Writes the line with byte 10, and returns whether that was done.
    pub fn write_to<W: Sink>(mut self, writer: &mut W) -> bool
        ensures written { IsTrue result → length self < 80
            → Appends (W.contents writer.old) (W.contents writer.new) (self ++ 10 ∷ []) }
        ensures works { IsTrue result → W.failed writer.new ≡ W.failed writer.old }
        ensures fails { IsFalse result → W.failed writer.new ≡ true }
    {
        self.push_text(b"\n");
        write_all(writer, self.bytes.as_slice()).is_ok()
    }

    // Adds the text, if there is room for it.
    fn push_text(&mut self, text: &[u8])
        ensures text { length self.old + length text.now ≤ 80 → self.new ≡ self.old ++ text.now }
        ensures short { length self.new ≤ length self.old + length text.now }
    {
        let _ = self.bytes.try_extend_from_slice(text);
    }
}
