//! Boards that wait together are answered as one worker alone answers them.

mod games;
mod helping;
mod jobs;
mod recent;
mod refused;
mod verifying;

use oth_batch::{Asked, Batch, Crew, Jobs};
use oth_pool::Open;
use oth_rules::samples::after_least_moves;
use oth_rules::{Board, Scoring, Sym};
use oth_search::{Answer, RootMoves, Solved, solve_alone};
use std::alloc::Global;
use std::sync::Wait;
use std::test::Fail;
use std::thread::Threads;

/// The eight images of each of two boards of a game, one of `empties` empty squares and one of one less.
fn images(alloc: Global, empties: u8) -> Option<Vec<Board>> {
    let mut boards = Vec::new(alloc);
    for most_empties in [empties, empties.saturating_sub(1)] {
        let board = after_least_moves(most_empties)?;
        for number in 0..8 {
            boards.push(board.image(Sym::of(number)?)).ok()?;
        }
    }
    Some(boards)
}

/// The boards after each move of two boards of a game, one of `empties` empty squares and one of one less: none is an
/// image of another one.
fn children(alloc: Global, empties: u8) -> Option<Vec<Board>> {
    let mut boards = Vec::new(alloc);
    for most_empties in [empties, empties.saturating_sub(1)] {
        let board = after_least_moves(most_empties)?;
        for root_move in RootMoves::of(&Solved::unknown(board, Scoring::Winner), &[]).as_slice() {
            boards.push(root_move.child.board).ok()?;
        }
    }
    Some(boards)
}

fn batch<T: Threads + Sync + AllocGlobal>(
    rt: &T,
    workers: u8,
    cells: u32,
    scoring: Scoring,
) -> Batch<'_, T, Open> {
    Batch {
        rt,
        alloc: rt.alloc(),
        gate: &Open,
        book: None,
        workers,
        cells,
        scoring,
    }
}

/// Whether each answer is the one of its board that one worker alone gives.
fn are_right(answers: &[Answer], scoring: Scoring) -> bool {
    answers.iter().all(|answer| solve_alone(&answer.board, scoring) == Ok(*answer))
}

/// The answers that a crew gives of these boards, one after the other.
fn answers<T: Wait + Threads + Sync>(batch: &Batch<'_, T, Open>, boards: &[Board]) -> Vec<Answer> {
    let mut answers = Vec::new(batch.alloc);
    let crew = Crew::of(&*batch, Jobs::of(&*batch, Asked::Answer, boards));
    let mut work = || {
        for board in boards {
            if let Some(answer) = crew.answer_of(board) {
                let _ = answers.push(answer);
            }
        }
    };
    crew.beside(&mut work);
    answers
}

#[test]
fn each_board_is_answered(rt: HostRuntime) -> Result<(), Fail> {
    let Some(boards) = images(rt.alloc(), 10) else {
        panic!(rt; "no boards")
    };
    for scoring in [Scoring::Winner, Scoring::Discs] {
        for (workers, cells) in [(2, 0), (3, 1), (16, 64)] {
            let answers = answers(&batch(&rt, workers, cells, scoring), boards.as_slice());
            assert!(rt; answers.len() == 16, "{workers} workers, {cells} cells");
            assert!(rt; are_right(answers.as_slice(), scoring));
        }
    }
    Ok(())
}

#[test]
fn each_of_many_boards_is_answered(rt: HostRuntime) -> Result<(), Fail> {
    let Some(boards) = children(rt.alloc(), 12) else {
        panic!(rt; "no boards")
    };
    for (workers, cells) in [(2, 0), (3, 1), (16, 64)] {
        let batch = batch(&rt, workers, cells, Scoring::Winner);
        let answers = answers(&batch, boards.as_slice());
        assert!(rt;
            answers.len() == boards.len(),
            "{workers} workers, {cells} cells"
        );
        assert!(rt; are_right(answers.as_slice(), Scoring::Winner));
    }
    Ok(())
}

#[test]
fn a_batch_that_is_not_worth_a_second_thread_is_left(rt: HostRuntime) -> Result<(), Fail> {
    let (Some(few), Some(boards)) = (images(rt.alloc(), 4), images(rt.alloc(), 10)) else {
        panic!(rt; "no boards")
    };
    assert!(rt; few.len() == 16);
    let (many, one) = (
        batch(&rt, 16, 64, Scoring::Winner),
        batch(&rt, 1, 64, Scoring::Winner),
    );
    assert!(rt; Jobs::of(&many, Asked::Answer, few.as_slice()).is_none());
    assert!(rt; answers(&many, few.as_slice()).is_empty());
    assert!(rt; Jobs::of(&one, Asked::Answer, boards.as_slice()).is_none());
    assert!(rt; answers(&one, boards.as_slice()).is_empty());
    Ok(())
}

#[test]
fn a_board_that_is_worth_all_workers_is_left(rt: HostRuntime) -> Result<(), Fail> {
    let (Some(mut boards), Some(large)) = (images(rt.alloc(), 9), after_least_moves(14)) else {
        panic!(rt; "no boards")
    };
    boards.push(large)?;
    assert!(rt; boards.len() == 17);
    let answers = answers(&batch(&rt, 2, 64, Scoring::Winner), boards.as_slice());
    assert!(rt; answers.len() == 16);
    assert!(rt; answers.iter().all(|answer| answer.board.empties() <= 9));
    Ok(())
}
