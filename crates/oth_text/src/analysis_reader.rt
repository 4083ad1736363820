//! Games that are read in parts to be analysed: a transcript, or a board line with moves behind it.
//!
//! The first byte tells which. The front of a line, 195 bytes, has every legal move, since each takes an empty square;
//! the readers of both forms go on to the end, for the fault.

ghost use Rattle.std.specs.Prelude.{◌≡◌, ◌+◌, ◌≤◌, ◌<◌, ℕ, List, [], ◌∷◌, ◌++◌, Ok, All, filter};
ghost use Rattle.oth_rules.specs.Position.{empty_count};
ghost use Rattle.arrayvec.specs.ArrayVec.{array_vec_len};
ghost use Rattle.oth_text.specs.Analysis.{HasFewEmpties, KeepsAnalysed, begins_board, fault_of, is_told};
ghost use Rattle.oth_text.specs.Analysis.{pass_turns, told_turns};
ghost use Rattle.oth_text.specs.Analysis.{turns_from};
ghost use Rattle.oth_text.specs.BoardLine.{is_cell};
ghost use Rattle.oth_text.specs.Transcript.{is_nil};

use crate::analysis::Turn;
use crate::board_line::read_board;
use crate::fault::Fault;
use crate::game::{GameReader, parts};
use crate::position::Position;
use crate::transcript::{TranscriptReader, move_of_pair, with_forced_pass};
use arrayvec::ArrayVec;
use oth_search::MOST_EMPTIES;

// A board line, a space, and 64 moves.
const FRONT_LEN: usize = 195;

// The most turns that are told of a game: 30 moves, each with a pass behind it, and a pass before them.
const MOST_TURNS: usize = 64;

/// The turns that are told of a game.
pub type Turns = ArrayVec<Turn, MOST_TURNS>;

/// A game of any length that is read in parts: a board line, alone or with a space and a transcript behind it, if it
/// begins with X, O or -, and else a transcript.
#[derive(Drop)]
pub struct AnalysisReader {
    front: ArrayVec<u8, FRONT_LEN>,
    transcript: TranscriptReader,
    game: GameReader,
}

impl AnalysisReader {
    /// The reader before the first byte of a line.
    pub fn new() -> Self
        ensures { KeepsAnalysed result [] }
    {
        AnalysisReader {
            front: ArrayVec::new(),
            transcript: TranscriptReader::new(),
            game: GameReader::new(),
        }
    }

    /// Forgets what was read: another line begins.
    pub fn clear(&mut self)
        ensures { KeepsAnalysed self.new [] }
    {
        self.front.clear();
        self.transcript.clear();
        self.game.clear();
    }

    /// Takes the next bytes of the line.
    pub fn push(&mut self, bytes: &[u8])
        ensures { (line : List ℕ) → KeepsAnalysed self.old line → KeepsAnalysed self.new (line ++ bytes.now) }
    {
        let count = self.front.remaining_capacity().min(bytes.len());
        self.front.try_extend_from_slice(&bytes[..count]).unwrap();
        self.transcript.push(bytes);
        self.game.push(bytes);
    }

    /// Whether no byte was taken.
    pub fn is_empty(&self) -> bool
        ensures { (line : List ℕ) → KeepsAnalysed self.now line → result ≡ is_nil line }
    {
        self.transcript.is_empty()
    }

    /// The first fault of the line, if it has one, as `play` or `transcript` has it.
    pub fn fault(&self) -> Option<Fault>
        ensures { (line : List ℕ) → KeepsAnalysed self.now line → result ≡ fault_of line }
    {
        if self.begins_board() {
            return match self.game.read() {
                Ok(_) => None,
                Err(fault) => Some(Fault::Game(fault)),
            };
        }
        match self.transcript.read() {
            Ok(_) => None,
            Err(fault) => Some(Fault::Transcript(fault)),
        }
    }

    /// The turns of the game that are told: its legal moves, up to the first fault, and its passes, where at most
    /// `last` and at most 30 squares are empty before.
    pub fn turns(&self, last: u8) -> Turns
        ensures turns { (line : List ℕ) → KeepsAnalysed self.now line → result.items ≡ told_turns last line }
        ensures few { All HasFewEmpties result.items }
    {
        let front = self.front.as_slice();
        if !self.begins_board() {
            return turns_told(Position::start(), front, last);
        }
        let (board, moves) = parts(front);
        match read_board(board) {
            Ok(position) => turns_told(position, moves, last),
            Err(_) => ArrayVec::new(),
        }
    }

    // Whether the line begins as a board line.
    fn begins_board(&self) -> bool
        ensures { (line : List ℕ) → KeepsAnalysed self.now line → result ≡ begins_board line }
    {
        let front = self.front.as_slice();
        !front.is_empty() && is_cell(front[0])
    }
}

// Whether the byte is X, O or -.
fn is_cell(byte: u8) -> bool
    ensures { result ≡ is_cell byte }
{
    byte == b'X' || byte == b'O' || byte == b'-'
}

// The turns from a position on that are told, as far as the pairs of the text are legal moves.
fn turns_told(from: Position, text: &[u8], last: u8) -> Turns
    ensures turns { result.items ≡ filter (is_told last) (turns_from (Ok from) text.now) }
    ensures few { All HasFewEmpties result.items }
{
    let mut told = ArrayVec::new();
    push_pass(&mut told, &from, last);
    let mut position = with_forced_pass(from);
    let mut rest = text;
    while rest.len() >= 2 {
        let (pair, others) = rest.split_at(2);
        let Ok((square, after)) = move_of_pair(&position, 1, pair[0], pair[1]) else {
            return told;
        };
        push_told(
            &mut told,
            Turn {
                before: position,
                played: Some(square),
                after,
            },
            last,
        );
        let moved = Position {
            board: after,
            mover: position.mover.opponent(),
        };
        push_pass(&mut told, &moved, last);
        position = with_forced_pass(moved);
        rest = others;
    }
    told
}

// Adds the turn, if it is told.
fn push_told(told: &mut Turns, turn: Turn, last: u8)
    requires room { empty_count turn.before.board ≤ 30 → array_vec_len told.old < 64 }
    ensures told { told.new.items ≡ told.old.items ++ filter (is_told last) (turn ∷ []) }
    ensures len { array_vec_len told.new ≤ array_vec_len told.old + 1 }
    ensures none { 30 < empty_count turn.before.board → array_vec_len told.new ≡ array_vec_len told.old }
{
    let empties = turn.before.board.empties();
    if empties <= last && empties <= MOST_EMPTIES {
        told.push(turn);
    }
}

// Adds the pass that the position forces, if there is one and it is told.
fn push_pass(told: &mut Turns, position: &Position, last: u8)
    requires room { empty_count position.now.board ≤ 30 → array_vec_len told.old < 64 }
    ensures told { told.new.items ≡ told.old.items ++ filter (is_told last) (pass_turns position.now) }
    ensures len { array_vec_len told.new ≤ array_vec_len told.old + 1 }
    ensures none { 30 < empty_count position.now.board → array_vec_len told.new ≡ array_vec_len told.old }
{
    if position.board.can_move() {
        return;
    }
    let after = position.board.pass();
    if after.can_move() {
        push_told(
            told,
            Turn {
                before: *position,
                played: None,
                after,
            },
            last,
        );
    }
}
