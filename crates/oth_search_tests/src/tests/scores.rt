//! The scores of all moves of worked boards.
ghost use Rattle.std.specs.Prelude.{◌<◌};

use super::{board_of, line_of};
use oth_rules::{Board, Scoring, Square};
use oth_search::{Kind, NoCells, ScoredMove, scores_with, solve_with};
use std::process::Abort;

const B1: u8 = 1;

const H1: u8 = 7;

// A move with its score.
fn scored(number: u8, score: i8) -> ScoredMove
    requires { number < 64 }
{
    ScoredMove {
        square: Square::numbered(number),
        score,
    }
}

// The board has these moves with these scores, and the answer that `solve_with` gives it.
fn check_scores(rt: &impl Abort, board: Board, scoring: Scoring, moves: &[ScoredMove]) {
    let found = scores_with(board, &mut NoCells, scoring);
    assert!(rt; found.moves() == moves);
    assert!(rt; found.answer() == solve_with(board, &mut NoCells, scoring));
}

#[test]
fn scores_each_move_of_a_worked_board(rt: HostRuntime) {
    let board = board_of(&rt, [0x8, 0xffff_ffff_ffff_ff74]);
    let winner = [scored(B1, -64), scored(H1, -50)];
    check_scores(&rt, board, Scoring::Winner, winner.as_slice());
    let discs = [scored(B1, -63), scored(H1, -49)];
    check_scores(&rt, board, Scoring::Discs, discs.as_slice());
}

#[test]
fn scores_no_move_where_there_is_none(rt: HostRuntime) {
    let passes = board_of(&rt, [0xffff_ffff_ffff_ff74, 0x8]);
    check_scores(&rt, passes, Scoring::Winner, &[]);
    let found = scores_with(passes, &mut NoCells, Scoring::Winner);
    assert!(rt; found.kind() == Kind::Pass && found.score() == 50);
    let ended = board_of(&rt, [0, u64::MAX]);
    check_scores(&rt, ended, Scoring::Winner, &[]);
    let found = scores_with(ended, &mut NoCells, Scoring::Winner);
    assert!(rt; found.kind() == Kind::End && found.score() == -64);
}

// Whether each move of the board has the value of its whole tree.
fn are_whole(board: &Board, moves: &[ScoredMove], scoring: Scoring) -> bool {
    for scored in moves {
        match board.play(scored.square) {
            Some(child) => {
                if i16::from(scored.score) + i16::from(child.plain_score(scoring)) != 0 {
                    return false;
                }
            }
            None => return false,
        }
    }
    moves.len() == board.moves().count_ones() as usize
}

#[test]
fn scores_agree_with_the_whole_tree(rt: HostRuntime) {
    let board = line_of(&rt, 9);
    for scoring in [Scoring::Winner, Scoring::Discs] {
        let found = scores_with(board, &mut NoCells, scoring);
        assert!(rt; are_whole(&board, found.moves(), scoring));
    }
}
