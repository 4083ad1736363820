//! Boards for tests, of this crate and of those above it: crates of tests see none of each other.
ghost use Rattle.std.specs.Prelude.{◌≡◌, ◌≤◌, IfSome, slice_index_or};
ghost use Rattle.oth_rules.specs.Position.{empty_count};

use crate::board::Board;
use crate::square::Square;

/// The board of these words, own discs first, if it is one with at most 30 empty squares.
pub fn board(words: [u64; 2]) -> Option<Board>
    ensures words { IfSome result (λ b. b ≡ record { own = slice_index_or words 0 0; opp = slice_index_or words 1 0 }) }
    ensures empties { IfSome result (λ b. empty_count b ≤ 30) }
{
    let board = Board::of(words[0], words[1]).ok()?;
    if board.empties() > 30 {
        return None;
    }
    Some(board)
}

/// As `least_moves_from`, from the start of a game on.
pub fn after_least_moves(most_empties: u8) -> Option<Board> {
    let start = Board::of(0x0000_0008_1000_0000, 0x0000_0010_0800_0000).ok()?;
    least_moves_from(start, most_empties)
}

/// Plays the least-numbered legal moves from `board` on, with forced passes, until at most `most_empties` squares are
/// empty or the game is over.
pub fn least_moves_from(board: Board, most_empties: u8) -> Option<Board> {
    let mut board = board;
    for _ in 0..120 {
        if board.empties() <= most_empties || board.is_over() {
            break;
        }
        let moves = board.moves();
        board = if moves == 0 {
            board.pass()
        } else {
            board.play(Square::first_of(moves))?
        };
    }
    Some(board)
}
