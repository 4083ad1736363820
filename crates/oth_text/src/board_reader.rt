//! Board lines that are read in parts.
//!
//! The first 67 bytes tell all (`KeepsLine kept line` is `kept ≡ take 67 line`), since a line of 67 bytes or more
//! is refused by its length alone.

ghost use Rattle.std.specs.Prelude.{◌≡◌, ◌==◌, ◌≤◌, ℕ, List, [], ◌++◌, IfOk, length};
ghost use Rattle.oth_rules.specs.Position.{empty_count};
ghost use Rattle.oth_text.specs.BoardLine.{KeepsLine, reading, solvable_reading};
ghost use Rattle.oth_text.specs.Transcript.{is_nil};

use crate::board_line::{BOARD_LINE_LEN, read_board, read_solvable};
use crate::fault::LineFault;
use crate::position::Position;
use arrayvec::ArrayVec;
use std::marker::Model;

// One byte more than a board line has.
const KEPT_LEN: usize = 67;

/// A line of any length that is read in parts, of which as much is kept as tells whether it is a board line: its first
/// 67 bytes.
#[derive(Drop)]
pub struct BoardReader {
    kept: ArrayVec<u8, KEPT_LEN>,
}

impl Model for BoardReader {
    ghost use Rattle.std.specs.Prelude.{List, ℕ, ◌≤◌, length};

    ghost Value = { List ℕ };

    ghost view = { λ r. r.kept.items };

    ghost invariant = { λ r. length r.kept.items ≤ 67 };
}

impl BoardReader {
    /// The reader before the first byte of a line.
    pub fn new() -> Self
        ensures { KeepsLine result [] }
    {
        BoardReader {
            kept: ArrayVec::new(),
        }
    }

    /// Forgets what was read: another line begins.
    pub fn clear(&mut self)
        ensures { KeepsLine self.new [] }
    {
        self.kept.clear();
    }

    /// Takes the next bytes of the line.
    pub fn push(&mut self, bytes: &[u8])
        ensures { (line : List ℕ) → KeepsLine self.old line → KeepsLine self.new (line ++ bytes.now) }
    {
        let count = self.kept.remaining_capacity().min(bytes.len());
        self.kept.try_extend_from_slice(&bytes[..count]).unwrap();
    }

    /// Whether no byte was taken.
    pub fn is_empty(&self) -> bool
        ensures { (line : List ℕ) → KeepsLine self.now line → result ≡ is_nil line }
    {
        self.kept.is_empty()
    }

    /// Whether the line has as many bytes so far as a board line.
    pub fn has_length_of_line(&self) -> bool
        ensures { (line : List ℕ) → KeepsLine self.now line → result ≡ (length line == 66) }
    {
        self.kept.len() == BOARD_LINE_LEN
    }

    /// The reading of the whole line, as `read_board` gives it.
    pub fn read(&self) -> Result<Position, LineFault>
        ensures { (line : List ℕ) → KeepsLine self.now line → result ≡ reading line }
    {
        read_board(self.kept.as_slice())
    }

    /// The reading of the whole line, as `read_solvable` gives it.
    pub fn read_solvable(&self) -> Result<Position, LineFault>
        ensures reading { (line : List ℕ) → KeepsLine self.now line → result ≡ solvable_reading line }
        ensures few { IfOk result (λ p. empty_count p.board ≤ 30) }
    {
        read_solvable(self.kept.as_slice())
    }
}
