//! Moves, flips and play.

ghost use Rattle.std.specs.Prelude.{◌≡◌, ◌≢◌, ◌↔◌, false, IfOk, IfErr};
ghost use Rattle.oth_rules.specs.Square.{word_of};
ghost use Rattle.oth_rules.specs.Move.{after, is_flipped, is_legal};
ghost use Rattle.oth_c.specs.Boards.{position};
ghost use Rattle.oth_c.specs.Codes.{code_of};
ghost use Rattle.oth_c.specs.Rules.{board_code, play_code, square_code};

use crate::board::{OthBoard, square_of};
use crate::refusal::{DONE, Refusal, deliver};

/// Writes the set of the mover's legal squares. Refusal 1.
#[unsafe(no_mangle)]
pub extern "C" fn oth_moves(board: OthBoard, moves: &mut u64) -> u32
    ensures code { result ≡ board_code board }
    ensures moves { result ≡ DONE → moves.new ≡ word_of (is_legal (position board)) }
    ensures kept { result ≢ DONE → moves.new ≡ moves.old }
{
    deliver(legal(board), moves)
}

// The legal squares, or the refusal.
fn legal(board: OthBoard) -> Result<u64, Refusal>
    ensures ok { IfOk result (λ w. (board_code board ≡ DONE) × (w ≡ word_of (is_legal (position board)))) }
    ensures err { IfErr result (λ r. board_code board ≡ code_of r) }
{
    let board = board.board()?;
    Ok(board.moves())
}

/// Writes the discs that a move to the square flips: none exactly where the move is illegal. Refusals 1 and 2, tested
/// in this order.
#[unsafe(no_mangle)]
pub extern "C" fn oth_flips(board: OthBoard, square: u8, flips: &mut u64) -> u32
    ensures code { result ≡ square_code board square }
    ensures flips { result ≡ DONE → flips.new ≡ word_of (is_flipped (position board) square) }
    ensures none { result ≡ DONE → (flips.new ≡ 0) ↔ (is_legal (position board) square ≡ false) }
    ensures kept { result ≢ DONE → flips.new ≡ flips.old }
{
    deliver(flipped(board, square), flips)
}

// The discs that the move turns over, or the first refusal.
fn flipped(board: OthBoard, square: u8) -> Result<u64, Refusal>
    ensures ok { IfOk result (λ w. (square_code board square ≡ DONE)
        × (w ≡ word_of (is_flipped (position board) square))
        × ((w ≡ 0) ↔ (is_legal (position board) square ≡ false))) }
    ensures err { IfErr result (λ r. square_code board square ≡ code_of r) }
{
    let board = board.board()?;
    let square = square_of(square)?;
    Ok(board.flips(square))
}

/// Writes the board after a move to the square, as the other side sees it. Refusals 1, 2 and 3, tested in this order.
#[unsafe(no_mangle)]
pub extern "C" fn oth_play(board: OthBoard, square: u8, next: &mut OthBoard) -> u32
    ensures code { result ≡ play_code board square }
    ensures played { result ≡ DONE → position next.new ≡ after (position board) square }
    ensures kept { result ≢ DONE → next.new ≡ next.old }
{
    deliver(played(board, square), next)
}

// The board after the move, or the first refusal.
fn played(board: OthBoard, square: u8) -> Result<OthBoard, Refusal>
    ensures ok { IfOk result (λ b. (play_code board square ≡ DONE) × (position b ≡ after (position board) square)) }
    ensures err { IfErr result (λ r. play_code board square ≡ code_of r) }
{
    let board = board.board()?;
    let square = square_of(square)?;
    let next = board.play(square).ok_or(Refusal::Illegal)?;
    Ok(OthBoard::of(&next))
}
