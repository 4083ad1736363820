//! The turns of a game, and the lines that are printed of them.

ghost use Rattle.std.specs.Prelude.{◌≡◌, ◌+◌, ◌≤◌, ◌++◌, ◌∷◌, length, decimal};
ghost use Rattle.arrayvec.specs.ArrayVec.{array_vec_len};
ghost use Rattle.oth_text.specs.Analysis.{disc_number, if_by, loss, lost_text, name_played, score_of_turn, turn_line};
ghost use Rattle.oth_text.specs.FaultLine.{any_fault_line_of};
ghost use Rattle.oth_text.specs.OneLine.{IsOneLine};
ghost use Rattle.oth_text.specs.declared.position.Side.TheVariants.{Black, White};

use crate::board_line::side_byte;
use crate::fault::Fault;
use crate::fault_text::any_fault_line;
use crate::position::{Position, Side};
use crate::report::{push_name, push_report_line, push_signed, push_text};
use arrayvec::ArrayVec;
use itoa::Buffer;
use oth_rules::{Board, Square};
use oth_search::Answer;

/// The most bytes of a turn's line.
pub const TURN_LINE_LEN: usize = 256;

/// The most bytes of the line of what both sides lost.
pub const LOST_LINE_LEN: usize = 64;

/// A move of a game, or a pass.
#[derive(Clone, Copy, Debug, PartialEq, Eq)]
pub struct Turn {
    /// The position in which it is made.
    pub before: Position,
    /// The square of the disc; none where the side passes.
    pub played: Option<Square>,
    /// The board after it.
    pub after: Board,
}

impl Default for Turn {
    fn default() -> Turn {
        Turn {
            before: Position::start(),
            played: None,
            after: Board::default(),
        }
    }
}

/// A turn with what it is worth. No untrue value of this type can be made: whoever makes one proves its ghost fields.
#[derive(Clone, Copy, Debug)]
pub struct JudgedTurn {
    pub turn: Turn,
    /// The value and all best moves of the board before.
    pub answer: Answer,
    /// The value of the board after, seen from who moved, -64 to 64.
    pub score: i8,
    pub ghost of_board: { answer.board ≡ turn.before.board },
    pub ghost is_score: { score ≡ score_of_turn answer.scoring turn },
}

impl JudgedTurn {
    /// The turn with the answers of the boards before and after it.
    pub fn of(turn: Turn, answer: Answer, after: &Answer) -> JudgedTurn
        requires before { answer.board ≡ turn.before.board }
        requires after { after.now.board ≡ turn.after }
        requires scoring { after.now.scoring ≡ answer.scoring }
        ensures turn { result.turn ≡ turn }
        ensures scoring { result.answer.scoring ≡ answer.scoring }
    {
        JudgedTurn {
            turn,
            answer,
            score: -after.score,
        }
    }

    /// The discs that it is worth less than the best one, 0 to 128.
    pub fn loss(&self) -> u16
        ensures loss { result ≡ loss self.now.answer.scoring self.now.turn }
        ensures most { result ≤ 128 }
    {
        let lost = i16::from(self.answer.score) - i16::from(self.score);
        lost.unsigned_abs()
    }
}

/// What both sides lost, in discs.
#[derive(Clone, Copy, Debug, PartialEq, Eq)]
pub struct Losses {
    pub black: u16,
    pub white: u16,
}

impl Losses {
    /// Adds what the turn's side lost by it. Neither sum may be above 60,000.
    pub fn add(&mut self, judged: &JudgedTurn)
        requires black { self.old.black ≤ 60000 }
        requires white { self.old.white ≤ 60000 }
        ensures black { self.new.black ≡ self.old.black + if_by Black judged.now.turn.before.mover
            (loss judged.now.answer.scoring judged.now.turn) }
        ensures white { self.new.white ≡ self.old.white + if_by White judged.now.turn.before.mover
            (loss judged.now.answer.scoring judged.now.turn) }
        ensures most { (self.new.black ≤ self.old.black + 128) × (self.new.white ≤ self.old.white + 128) }
    {
        match judged.turn.before.mover {
            Side::Black => self.black += judged.loss(),
            Side::White => self.white += judged.loss(),
        }
    }
}

/// The number of the game's line, that of the disc, who moves, the move or `pass`, its score, and the report line of
/// the board before, with one space between two columns.
pub fn turn_line(number: u64, judged: &JudgedTurn) -> ArrayVec<u8, TURN_LINE_LEN>
    ensures text { result.items ≡ turn_line number judged.now.answer.scoring judged.now.turn }
    ensures one_line { IsOneLine result.items }
{
    let turn = &judged.turn;
    let mut line = ArrayVec::new();
    push_text(&mut line, Buffer::new().format(number).as_bytes());
    line.push(b' ');
    push_text(
        &mut line,
        Buffer::new().format(disc_number(turn)).as_bytes(),
    );
    line.push(b' ');
    line.push(side_byte(turn.before.mover));
    push_played(&mut line, turn.played);
    line.push(b' ');
    push_signed(&mut line, judged.score);
    line.push(b' ');
    push_report_line(&mut line, &judged.answer);
    line
}

/// The number of the game's line, `lost`, and behind the byte of each side its sum.
pub fn lost_line(number: u64, lost: &Losses) -> ArrayVec<u8, LOST_LINE_LEN>
    ensures text { result.items ≡ lost_text number lost.now.black lost.now.white }
    ensures one_line { IsOneLine result.items }
{
    let mut line = ArrayVec::new();
    push_text(&mut line, Buffer::new().format(number).as_bytes());
    push_text(&mut line, b" lost X ");
    push_text(&mut line, Buffer::new().format(lost.black).as_bytes());
    push_text(&mut line, b" O ");
    push_text(&mut line, Buffer::new().format(lost.white).as_bytes());
    line
}

/// The number of the game's line, a space, and its fault.
pub fn game_line(number: u64, fault: &Fault) -> ArrayVec<u8, LOST_LINE_LEN>
    ensures text { result.items ≡ decimal number ++ 32 ∷ any_fault_line_of fault.now }
    ensures one_line { IsOneLine result.items }
{
    let mut line = ArrayVec::new();
    push_text(&mut line, Buffer::new().format(number).as_bytes());
    line.push(b' ');
    push_text(&mut line, any_fault_line(fault).as_slice());
    line
}

// The number of the turn's disc: the first that is put is 1.
fn disc_number(turn: &Turn) -> u8
    ensures { result ≡ disc_number turn.now }
{
    61u8.saturating_sub(turn.before.board.empties())
}

// A space and the name of the square, or `pass`.
fn push_played(line: &mut ArrayVec<u8, TURN_LINE_LEN>, played: Option<Square>)
    requires { array_vec_len line.old + 5 ≤ 256 }
    ensures text { line.new.items ≡ line.old.items ++ 32 ∷ name_played played }
    ensures len { array_vec_len line.new ≤ array_vec_len line.old + 5 }
{
    match played {
        Some(square) => push_name(line, square.number(), false),
        None => push_text(line, b" pass"),
    }
}
