//! The faults of lines.

use thiserror::Error;

/// The first fault of a line that should be the board line of a position, or of one that can be solved.
#[derive(Clone, Copy, Debug, PartialEq, Eq, Error)]
pub enum LineFault {
    /// The length isn't 66.
    #[error("a board line has 66 bytes")]
    Length,
    /// The byte at this place, 1 to 64, is no cell. It is the leftmost such byte.
    #[error("byte {0} is none of 'X', 'O' and '-'")]
    BadCell(u8),
    /// Byte 65 isn't a space.
    #[error("byte 65 is not a space")]
    Space,
    /// Byte 66 is no side.
    #[error("byte 66 is neither 'X' nor 'O'")]
    Mover,
    /// The board has this many empty squares, 31 to 64.
    #[error("the board has {0} empty squares, and at most 30 are solved")]
    Empties(u8),
}

/// The first fault of a line that should be a transcript. Pairs are counted from 1.
#[derive(Clone, Copy, Debug, PartialEq, Eq, Error)]
pub enum TranscriptFault {
    /// The number of bytes is odd.
    #[error("a transcript has an even number of bytes")]
    OddLength,
    /// This pair is no letter from a to h and a digit from 1 to 8.
    #[error("pair {0} is no square")]
    BadPair(u8),
    /// The move of this pair is illegal.
    #[error("move {0} is illegal")]
    Illegal(u8),
    /// The game is over before this pair.
    #[error("the game is over before move {0}")]
    Over(u8),
}

/// The first fault of a line that should be a board line, alone or with a space and the moves that are played on it.
#[derive(Clone, Copy, Debug, PartialEq, Eq, Error)]
pub enum GameFault {
    /// What should be the board line is none.
    #[error("{0}")]
    Board(LineFault),
    /// What stands behind the space is no transcript from the board's position.
    #[error("{0}")]
    Moves(TranscriptFault),
}

/// The first fault of a line of any command.
#[derive(Clone, Copy, Debug, PartialEq, Eq, Error)]
pub enum Fault {
    /// Of a board line, or of the moves behind one.
    #[error("{0}")]
    Game(GameFault),
    /// Of a transcript.
    #[error("{0}")]
    Transcript(TranscriptFault),
}
