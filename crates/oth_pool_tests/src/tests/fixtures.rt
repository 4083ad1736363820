//! What the tests begin with. A test fails where there is none.

ghost use Rattle.std.specs.Prelude.{◌≤◌};
ghost use Rattle.oth_rules.specs.Position.{empty_count};

use oth_rules::samples::board;
use oth_rules::{Board, Scoring};
use oth_search::{Answer, solve_alone};
use std::process::Abort;

// The board of these discs.
pub(super) fn board_of(rt: &impl Abort, words: [u64; 2]) -> Board
    ensures { empty_count result ≤ 30 }
{
    let Some(board) = board(words) else {
        panic!(rt; "no board")
    };
    board
}

// The board's answer by one thread that keeps nothing.
pub(super) fn answer_of(rt: &impl Abort, board: &Board, scoring: Scoring) -> Answer {
    let Ok(answer) = solve_alone(board, scoring) else {
        panic!(rt; "no answer")
    };
    answer
}
