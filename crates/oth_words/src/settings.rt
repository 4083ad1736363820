//! What the words of a command line ask for.

use oth_rules::Scoring;

/// What is reported of each line of the input.
#[derive(Clone, Copy, Debug, PartialEq, Eq, Drop)]
pub enum Command {
    /// Of a board line the score and all best moves.
    Solve,
    /// Of a board line every legal move with its score, the best first.
    Scores,
    /// Of a board line all legal moves.
    Moves,
    /// Of a transcript the board line of the position that it leads to.
    Transcript,
    /// Of a board line and the moves that are played on it the board line of the position that they lead to.
    Play,
    /// Of a transcript, or of a board line and the moves that are played on it, each move that is made where at most
    /// this many squares are empty, and at most 30, beside the best ones, and the discs that each side lost.
    Analyse(u8),
}

/// The cells of the table where no number is asked for.
pub const DEFAULT_CELLS: u32 = 65_536;

/// How an input is worked on.
#[derive(Clone, Copy, Debug, PartialEq, Eq, Drop)]
pub struct Settings {
    /// What is reported of each line.
    pub command: Command,
    /// The threads that search one board together, 1 to 16.
    pub workers: u8,
    /// The cells of the table that they share: 0 for none, or a power of two of at most 262,144.
    pub cells: u32,
    /// How a finished game is counted. `Solve`, `Scores` and `Analyse` alone heed it.
    pub scoring: Scoring,
}

/// What is told beside what is written.
#[derive(Clone, Copy, Debug, PartialEq, Eq, Drop)]
pub struct Telling {
    /// Faults of lines are told in words, and so is what ends the work, on a terminal or not.
    pub explains: bool,
    /// Where a line has a fault, the exit status tells it.
    pub is_strict: bool,
}

/// What the words of a command line ask for. The texts are names of files.
#[derive(Debug, Drop)]
pub enum Words {
    /// Report each line of the input, with the book of this file where one is named. The input are the files of the
    /// list, one after the other, or standard input where it names none.
    Run(Settings, Telling, Option<String>, Vec<String>),
    /// Verify the book of this file.
    Verify(Telling, String),
    /// Solve each line of the input, and add the answers to the book of this file.
    Add(Settings, Telling, String),
}
