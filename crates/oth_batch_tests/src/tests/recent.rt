//! What was found of the last boards of a run is found again, and is forgotten behind many others.

use oth_batch::{Asked, Recent};
use oth_rules::samples::after_least_moves;
use oth_rules::{Board, Scoring, Sym};
use oth_search::{Answer, Kind, NoCells, Scores, scores_with, solve_alone};
use std::process::Abort;

// Boards of whose last ones at least is kept what was found.
const KEPT: u64 = 4_096;

fn other(scoring: Scoring) -> Scoring {
    match scoring {
        Scoring::Winner => Scoring::Discs,
        Scoring::Discs => Scoring::Winner,
    }
}

// The answer of the board by one thread.
fn answer_of(rt: &impl Abort, board: &Board, scoring: Scoring) -> Answer {
    let Ok(answer) = solve_alone(board, scoring) else {
        panic!(rt; "too many empty squares")
    };
    answer
}

// A board of a game.
fn game_board(rt: &impl Abort, empties: u8) -> Board {
    let Some(board) = after_least_moves(empties) else {
        panic!(rt; "no board")
    };
    assert!(rt; board.empties() == empties);
    board
}

#[test]
fn an_answer_is_found_again_for_each_image(rt: HostRuntime) {
    for scoring in [Scoring::Winner, Scoring::Discs] {
        for empties in [9, 10] {
            let board = game_board(&rt, empties);
            let recent = Recent::new(rt.alloc(), Asked::Answer);
            assert!(rt; !recent.has(&board) && recent.answer_of(&board, scoring).is_none());
            recent.keep_answer(&answer_of(&rt, &board.image(Sym::numbered(3)), scoring));
            for number in 0..8 {
                let image = board.image(Sym::numbered(number));
                let found = recent.answer_of(&image, scoring);
                assert!(rt; recent.has(&image) && found == Some(answer_of(&rt, &image, scoring)));
                assert!(rt; recent.answer_of(&image, other(scoring)).is_none());
            }
            assert!(rt; recent.scores_of(&board, scoring).is_none());
        }
    }
}

#[test]
fn scores_are_found_again_for_their_board_alone(rt: HostRuntime) {
    let scoring = Scoring::Discs;
    let board = game_board(&rt, 7);
    let scores = scores_with(board, &mut NoCells, scoring);
    let recent = Recent::new(rt.alloc(), Asked::Scores);
    assert!(rt; !recent.has(&board) && recent.scores_of(&board, scoring).is_none());
    recent.keep_scores(&scores);
    let Some(found) = recent.scores_of(&board, scoring) else {
        panic!(rt; "nothing found")
    };
    assert!(rt;
        recent.has(&board) && found.answer() == scores.answer() && found.moves() == scores.moves()
    );
    let image = board.image(Sym::numbered(3));
    assert!(rt;
        image != board && !recent.has(&image) && recent.scores_of(&image, scoring).is_none()
    );
    assert!(rt;
        recent.scores_of(&board, Scoring::Winner).is_none()
            && recent.answer_of(&board, scoring).is_none()
    );
}

#[test]
fn boards_of_few_empty_squares_are_not_kept(rt: HostRuntime) {
    let answer = answer_of(&rt, &game_board(&rt, 8), Scoring::Winner);
    let recent = Recent::new(rt.alloc(), Asked::Answer);
    recent.keep_answer(&answer);
    assert!(rt;
        !recent.has(&answer.board) && recent.answer_of(&answer.board, Scoring::Winner).is_none()
    );
    let scores = scores_with(game_board(&rt, 6), &mut NoCells, Scoring::Winner);
    let recent = Recent::new(rt.alloc(), Asked::Scores);
    recent.keep_scores(&scores);
    assert!(rt; !recent.has(&scores.answer.board));
}

// The scores of a finished board without opposing discs, of 16 to 30 empty squares, by its number below 16,384.
fn finished(rt: &impl Abort, number: u64) -> Scores {
    let Ok(board) = Board::of(0xffff_ffff_0003_0000 | number, 0) else {
        panic!(rt; "no board")
    };
    let answer = answer_of(rt, &board, Scoring::Winner);
    assert!(rt; answer.kind == Kind::End);
    Scores::of(answer, &[], &mut NoCells)
}

#[test]
fn the_last_boards_are_kept_and_those_before_them_forgotten(rt: HostRuntime) {
    let recent = Recent::new(rt.alloc(), Asked::Scores);
    for number in 0..3 * KEPT {
        recent.keep_scores(&finished(&rt, number));
        let first = number.saturating_sub(KEPT - 1);
        assert!(rt;
            recent.has(&finished(&rt, first).answer.board)
                && recent.has(&finished(&rt, number).answer.board)
        );
        assert!(rt;
            number < 2 * KEPT || !recent.has(&finished(&rt, number - 2 * KEPT).answer.board)
        );
    }
}
