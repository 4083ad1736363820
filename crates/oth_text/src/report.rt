//! The lines that are printed of a board: its moves, or its value and best moves.

ghost use Rattle.std.specs.Prelude.{◌≡◌, ◌+◌, ◌≤◌, if◌then◌else◌, ◌++◌, [], ◌∷◌, ◌<◌, length, ℕ};
ghost use Rattle.arrayvec.specs.ArrayVec.{array_vec_len};
ghost use Rattle.oth_text.specs.OneLine.{IsOneLine};
ghost use Rattle.oth_text.specs.Report.{moves_line_of, moves_or_word, names, report_line_of, score_text, sign_byte};
ghost use Rattle.oth_text.specs.Report.{square_name, squares_of};

use arrayvec::ArrayVec;
use itoa::Buffer;
use oth_rules::{Board, Square};
use oth_search::{Answer, Kind};

/// The most bytes of a moves line.
pub const MOVES_LINE_LEN: usize = 192;

/// The most bytes of a report line.
pub const REPORT_LINE_LEN: usize = 196;

/// All legal moves in rising square number with one space between them, or `pass`, or `end`.
pub fn moves_line(board: &Board) -> ArrayVec<u8, MOVES_LINE_LEN>
    ensures text { result.items ≡ moves_line_of board.now }
    ensures one_line { IsOneLine result.items }
{
    let mut line = ArrayVec::new();
    push_moves(&mut line, Kind::of(board), board.moves());
    line
}

/// The score with its sign, which zero has too; a space; and all best moves as a moves line has them, or `pass`, or
/// `end`.
pub fn report_line(answer: &Answer) -> ArrayVec<u8, REPORT_LINE_LEN>
    ensures text { result.items ≡ report_line_of answer.now.scoring answer.now.board }
    ensures one_line { IsOneLine result.items }
{
    let mut line = ArrayVec::new();
    push_report_line(&mut line, answer);
    line
}

/// Adds the report line of the answer behind what `line` has. There has to be room for [`REPORT_LINE_LEN`] bytes.
pub fn push_report_line<const CAPACITY: usize>(line: &mut ArrayVec<u8, CAPACITY>, answer: &Answer)
    requires { array_vec_len line.old + 196 ≤ CAPACITY }
    ensures { line.new.items ≡ line.old.items ++ report_line_of answer.now.scoring answer.now.board }
{
    push_signed(line, answer.score);
    line.push(b' ');
    push_moves(line, answer.kind, answer.best);
}

/// Adds a sign and the score. There has to be room for four bytes.
pub(crate) fn push_signed<const CAPACITY: usize>(line: &mut ArrayVec<u8, CAPACITY>, score: i8)
    requires { array_vec_len line.old + 4 ≤ CAPACITY }
    ensures text { line.new.items ≡ line.old.items ++ score_text score }
    ensures len { array_vec_len line.new ≤ array_vec_len line.old + 4 }
{
    line.push(sign_byte(score));
    push_text(line, Buffer::new().format(score.unsigned_abs()).as_bytes());
}

// The sign of the score, which zero has too.
fn sign_byte(score: i8) -> u8
    ensures { result ≡ sign_byte score }
{
    if score < 0 { b'-' } else { b'+' }
}

// The names of the moves, or `pass`, or `end`.
fn push_moves<const CAPACITY: usize>(line: &mut ArrayVec<u8, CAPACITY>, kind: Kind, moves: u64)
    requires { array_vec_len line.old + 191 ≤ CAPACITY }
    ensures { line.new.items ≡ line.old.items ++ moves_or_word kind (squares_of moves) }
{
    match kind {
        Kind::Move => push_names(line, moves),
        Kind::Pass => push_text(line, b"pass"),
        Kind::End => push_text(line, b"end"),
    }
}

// The names of the squares of a word.
fn push_names<const CAPACITY: usize>(line: &mut ArrayVec<u8, CAPACITY>, squares: u64)
    requires { array_vec_len line.old + 191 ≤ CAPACITY }
    ensures { line.new.items ≡ line.old.items ++ names (squares_of squares) }
{
    let mut is_first = true;
    let mut rest = squares;
    while rest != 0 {
        let square = Square::first_of(rest);
        push_name(line, square.number(), is_first);
        is_first = false;
        rest &= !square.word();
    }
}

/// A square's name, behind a space where it isn't the first.
pub(crate) fn push_name<const CAPACITY: usize>(
    line: &mut ArrayVec<u8, CAPACITY>,
    n: u8,
    is_first: bool,
)
    requires within { n < 64 }
    requires room { array_vec_len line.old + (if is_first then 2 else 3) ≤ CAPACITY }
    ensures { line.new.items ≡ line.old.items ++ (if is_first then square_name n else 32 ∷ square_name n) }
{
    if !is_first {
        line.push(b' ');
    }
    line.push(b'a' + n % 8);
    line.push(b'1' + n / 8);
}

/// Adds the text. There has to be room for it.
pub(crate) fn push_text<const CAPACITY: usize>(line: &mut ArrayVec<u8, CAPACITY>, text: &[u8])
    requires { array_vec_len line.old + length text.now ≤ CAPACITY }
    ensures { line.new.items ≡ line.old.items ++ text.now }
{
    line.try_extend_from_slice(text).unwrap();
}
