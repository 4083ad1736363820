//! Games from a board: a board line, alone or with a space and the transcript of the moves that are played on it.

ghost use Rattle.std.specs.Prelude.{◌≡◌, ◌==◌, ◌↔◌, ℕ, List, [], ◌∷◌, ◌++◌, Ok, Err, IfOk, length};
ghost use Rattle.oth_text.specs.declared.position.Position.{Position as PositionReached};
ghost use Rattle.oth_text.specs.declared.fault.GameFault.{GameFault as Fault};
ghost use Rattle.oth_text.specs.BoardLine.{KeepsLine};
ghost use Rattle.oth_text.specs.Transcript.{MovesUnlessOver, is_nil};
ghost use Rattle.oth_text.specs.Game.{IsGame, IsGameFault, KeepsGame, board_part, game_reading, moves_part};

use crate::board_line::{BOARD_LINE_LEN, read_board};
use crate::board_reader::BoardReader;
use crate::fault::{GameFault, LineFault};
use crate::position::Position;
use crate::transcript::{TranscriptReader, play_transcript, with_forced_pass};

/// A board line and the moves that are played on it, read in parts, of any length and in a fixed space.
#[derive(Drop)]
pub enum GameReader {
    /// No space has come behind the first 66 bytes.
    Board(BoardReader),
    /// One has come, behind a text with this fault.
    Faulty(LineFault),
    /// One has come behind a board line, from whose position the moves are read.
    Moves(TranscriptReader),
}

impl GameReader {
    /// The reader before the first byte of a line.
    pub fn new() -> Self
        ensures { KeepsGame result [] }
    {
        GameReader::Board(BoardReader::new())
    }

    /// Forgets what was read: another line begins.
    pub fn clear(&mut self)
        ensures { KeepsGame self.new [] }
    {
        *self = Self::new();
    }

    /// Takes the next bytes of the line.
    pub fn push(&mut self, bytes: &[u8])
        ensures { (line : List ℕ) → KeepsGame self.old line → KeepsGame self.new (line ++ bytes.now) }
    {
        for byte in bytes {
            self.push_byte(*byte);
        }
    }

    /// Whether no byte was taken.
    pub fn is_empty(&self) -> bool
        ensures { (line : List ℕ) → KeepsGame self.now line → result ≡ is_nil line }
    {
        match self {
            GameReader::Board(board) => board.is_empty(),
            GameReader::Faulty(_) => false,
            GameReader::Moves(_) => false,
        }
    }

    /// The reading of the whole line, as `read_game` gives it.
    pub fn read(&self) -> Result<Position, GameFault>
        ensures { (line : List ℕ) → KeepsGame self.now line → result ≡ game_reading line }
    {
        match self {
            GameReader::Board(board) => match board.read() {
                Ok(position) => Ok(with_forced_pass(position)),
                Err(fault) => Err(GameFault::Board(fault)),
            },
            GameReader::Faulty(fault) => Err(GameFault::Board(*fault)),
            GameReader::Moves(moves) => match moves.read() {
                Ok(position) => Ok(position),
                Err(fault) => Err(GameFault::Moves(fault)),
            },
        }
    }

    // Takes one more byte: a space behind 66 bytes ends the board.
    fn push_byte(&mut self, byte: u8)
        ensures { (line : List ℕ) → KeepsGame self.old line → KeepsGame self.new (line ++ byte ∷ []) }
    {
        match self {
            GameReader::Board(board) => {
                if byte == b' ' && board.has_length_of_line() {
                    let begun = behind(board);
                    *self = begun;
                } else {
                    board.push(&[byte]);
                }
            }
            GameReader::Faulty(_) => {}
            GameReader::Moves(moves) => moves.push(&[byte]),
        }
    }
}

// The reader of the moves behind this board, or of its fault.
fn behind(board: &BoardReader) -> GameReader
    ensures { (line : List ℕ) → KeepsLine board.now line → length line ≡ 66 → KeepsGame result (line ++ 32 ∷ []) }
{
    match board.read() {
        Ok(position) => {
            GameReader::Moves(TranscriptReader::starting_at(with_forced_pass(position)))
        }
        Err(fault) => GameReader::Faulty(fault),
    }
}

/// The position that a game from a board leads to: a board line, alone or with a space and a transcript of the moves
/// that are played on it. A forced pass isn't written; it is put in, before the first move too, so the mover of the
/// position can move unless the game is over. Where no space stands behind the first 66 bytes, the whole text should be
/// a board line. Another text is refused with the first fault of what should be the board line, as by `read_board`, and
/// else with that of the moves, as by `play_transcript`.
pub fn read_game(line: &[u8]) -> Result<Position, GameFault>
    ensures reading { result ≡ game_reading line.now }
    ensures position { (p : PositionReached) → (result ≡ Ok p) ↔ IsGame line.now p }
    ensures fault { (f : Fault) → (result ≡ Err f) ↔ IsGameFault line.now f }
    ensures mover { IfOk result (λ p. MovesUnlessOver p) }
{
    let (board, moves) = parts(line);
    let position = match read_board(board) {
        Ok(position) => position,
        Err(fault) => return Err(GameFault::Board(fault)),
    };
    match play_transcript(position, moves) {
        Ok(position) => Ok(position),
        Err(fault) => Err(GameFault::Moves(fault)),
    }
}

/// What should be the board line, and the moves.
pub(crate) fn parts(line: &[u8]) -> (&[u8], &[u8])
    ensures board { result.0.now ≡ board_part line.now }
    ensures moves { result.1.now ≡ moves_part line.now }
{
    if line.len() <= BOARD_LINE_LEN || line[BOARD_LINE_LEN] != b' ' {
        return (line, &[]);
    }
    let (board, behind) = line.split_at(BOARD_LINE_LEN);
    (board, &behind[1..])
}
