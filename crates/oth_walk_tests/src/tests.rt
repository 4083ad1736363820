//! Moves of a root that workers settle, and what they tell each other; boards and answers that these tests take.

ghost use Rattle.std.specs.Prelude.{◌≤◌};
ghost use Rattle.oth_rules.specs.Position.{empty_count};

mod bounds;
mod hints;
mod settling;

use oth_pieces::floor::Root;
use oth_rules::samples::board;
use oth_rules::{Board, Scoring};
use oth_search::{Answer, solve_alone};
use oth_walk::MoveBounds;
use std::process::Abort;

// Boards of games, of 14 empty squares.
const BOARDS: [[u64; 2]; 3] = [
    [0x00fc_98c0_a010_0804, 0x0402_673b_5fef_75b8],
    [0x8080_b1df_a743_2740, 0x4f67_4620_18bc_4082],
    [0x450b_3b61_676b_5000, 0x18a4_c49c_9884_a2f0],
];

// Boards of games, of 12 empty squares, whose mover loses (by 10, 10 and 38, as another solver says), so that no move
// reaches the draw that is asked for first.
const LOSING: [[u64; 2]; 3] = [
    [0x00f2_e2da_3f2a_1e0e, 0x3c0d_1c24_40d5_2051],
    [0xc0ec_d047_8c08_f06c, 0x3512_2c38_70b7_0f01],
    [0x8276_2a0f_2761_c100, 0x1c09_5070_189e_1e7f],
];

// The board of these discs.
fn board_of(rt: &impl Abort, words: [u64; 2]) -> Board
    ensures { empty_count result ≤ 30 }
{
    let Some(board) = board(words) else {
        panic!(rt; "no board")
    };
    board
}

// The board's answer by one thread that keeps nothing.
fn answer_of(rt: &impl Abort, board: &Board, scoring: Scoring) -> Answer {
    let Ok(answer) = solve_alone(board, scoring) else {
        panic!(rt; "no answer")
    };
    answer
}

// A list of bounds of this board's moves.
fn bounds_of<R: AllocGlobal + Abort>(rt: &R, board: &Board) -> Option<MoveBounds> {
    let root = Root {
        board: *board,
        scoring: Scoring::Winner,
    };
    let bounds = MoveBounds::new(rt.alloc(), root);
    assert!(rt; bounds.is_some());
    bounds
}
