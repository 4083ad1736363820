//! Boards are answered for whoever asks, while other workers solve them.

use super::helping::{Begun, few, heard_batch};
use super::{batch, images};
use oth_batch::{Asked, Crew, Jobs};
use oth_rules::{Board, Scoring};
use oth_search::{NoCells, scores_with, solve_alone};
use std::test::Fail;
use std::thread::Threads;

#[test]
fn each_board_is_answered_while_others_solve(rt: HostRuntime) -> Result<(), Fail> {
    let Some(boards) = images(rt.alloc(), 10) else {
        panic!(rt; "no boards")
    };
    for (workers, cells) in [(2, 0), (4, 64), (16, 1)] {
        let batch = batch(&rt, workers, cells, Scoring::Discs);
        let Some(jobs) = Jobs::of(&batch, Asked::Answer, boards.as_slice()) else {
            panic!(rt; "no jobs")
        };
        let mut work = || {
            let mut right = 0u32;
            for board in boards.as_slice() {
                let answer = jobs.answer_of(&rt, board);
                if answer.is_some() && answer == solve_alone(board, Scoring::Discs).ok() {
                    right = right.saturating_add(1);
                }
            }
            right
        };
        assert!(rt;
            jobs.beside(0, &mut work) == 16,
            "{workers} workers, {cells} cells"
        );
    }
    Ok(())
}

#[test]
fn the_moves_of_each_board_are_scored_while_others_score(rt: HostRuntime) -> Result<(), Fail> {
    let Some(boards) = images(rt.alloc(), 8) else {
        panic!(rt; "no boards")
    };
    for (workers, cells) in [(2, 0), (16, 64)] {
        let batch = batch(&rt, workers, cells, Scoring::Discs);
        let Some(jobs) = Jobs::of(&batch, Asked::Scores, boards.as_slice()) else {
            panic!(rt; "no jobs")
        };
        let mut work = || {
            let mut right = 0u32;
            for board in boards.as_slice() {
                let alone = scores_with(*board, &mut NoCells, Scoring::Discs);
                if let Some(scores) = jobs.scores_of(&rt, board) {
                    if scores.moves() == alone.moves() && scores.answer() == alone.answer() {
                        right = right.saturating_add(1);
                    }
                }
            }
            right
        };
        assert!(rt;
            jobs.beside(0, &mut work) == 16,
            "{workers} workers, {cells} cells"
        );
        for board in boards.as_slice() {
            assert!(rt; jobs.answer_of(&rt, board).is_none());
        }
    }
    Ok(())
}

// The first image of each of the two boards is searched, and tells the answers of the other seven.
#[test]
fn nobody_is_waited_for_where_nobody_helps(rt: HostRuntime) -> Result<(), Fail> {
    let Some(boards) = images(rt.alloc(), 10) else {
        panic!(rt; "no boards")
    };
    let gate = Begun::new();
    let batch = heard_batch(&rt, &gate);
    let Some(jobs) = Jobs::of(&batch, Asked::Answer, boards.as_slice()) else {
        panic!(rt; "no jobs")
    };
    for (place, board) in boards.as_slice().iter().enumerate() {
        assert!(rt; jobs.answer_of(&rt, board) == solve_alone(board, Scoring::Discs).ok());
        assert!(rt; gate.number() == place as u64 / 8 + 1);
        assert!(rt; jobs.scores_of(&rt, board).is_none());
    }
    Ok(())
}

// Whether there are jobs of these boards, and none is begun after a stop.
fn none_is_begun_after_a_stop<T: Threads + Sync + AllocGlobal>(rt: &T, boards: &[Board]) -> bool {
    let gate = Begun::new();
    let batch = heard_batch(rt, &gate);
    let Some(jobs) = Jobs::of(&batch, Asked::Answer, boards) else {
        return false;
    };
    jobs.stop();
    jobs.work();
    gate.number() == 0
}

#[test]
fn no_job_is_begun_after_a_stop(rt: HostRuntime) -> Result<(), Fail> {
    let (Some(few), Some(many)) = (few(rt.alloc()), images(rt.alloc(), 10)) else {
        panic!(rt; "no boards")
    };
    assert!(rt; none_is_begun_after_a_stop(&rt, many.as_slice()));
    assert!(rt; none_is_begun_after_a_stop(&rt, few.as_slice()));
    Ok(())
}

// Its threads end without a job, so that nothing is waited for.
#[test]
fn a_crew_without_jobs_has_none(rt: HostRuntime) {
    let Some(boards) = images(rt.alloc(), 10) else {
        panic!(rt; "no boards")
    };
    let batch = batch(&rt, 4, 64, Scoring::Winner);
    let crew = Crew::of(&batch, Jobs::of(&batch, Asked::Answer, boards.as_slice()));
    assert!(rt; crew.helpers() >= 1);
    let mut work = || {
        crew.give(Jobs::of(&batch, Asked::Answer, &[]));
        crew.jobs().is_none()
    };
    assert!(rt; crew.beside(&mut work));
}

#[test]
fn boards_of_few_empty_squares_are_found_in_turn(rt: HostRuntime) -> Result<(), Fail> {
    let Some(few) = images(rt.alloc(), 8) else {
        panic!(rt; "no boards")
    };
    let mut boards = Vec::new(rt.alloc());
    for _ in 0..3 {
        for board in few.as_slice() {
            boards.push(*board)?;
        }
    }
    let batch = batch(&rt, 4, 64, Scoring::Winner);
    let Some(jobs) = Jobs::of(&batch, Asked::Answer, boards.as_slice()) else {
        panic!(rt; "no jobs")
    };
    let (Some(first), Some(second)) = (boards.as_slice().first(), boards.as_slice().get(1)) else {
        panic!(rt; "one board")
    };
    jobs.work();
    assert!(rt; jobs.answer_of(&rt, second).is_none());
    for board in boards.as_slice() {
        assert!(rt; jobs.answer_of(&rt, board) == solve_alone(board, Scoring::Winner).ok());
    }
    assert!(rt; jobs.answer_of(&rt, first).is_none());
    Ok(())
}

#[test]
fn boards_of_few_empty_squares_are_scored_in_turn(rt: HostRuntime) -> Result<(), Fail> {
    let Some(few) = images(rt.alloc(), 6) else {
        panic!(rt; "no boards")
    };
    let mut boards = Vec::new(rt.alloc());
    for _ in 0..3 {
        for board in few.as_slice() {
            boards.push(*board)?;
        }
    }
    let batch = batch(&rt, 4, 64, Scoring::Winner);
    let Some(jobs) = Jobs::of(&batch, Asked::Scores, boards.as_slice()) else {
        panic!(rt; "no jobs")
    };
    let mut work = || {
        let mut right = 0u32;
        for board in boards.as_slice() {
            let alone = scores_with(*board, &mut NoCells, Scoring::Winner);
            if let Some(scores) = jobs.scores_of(&rt, board) {
                if scores.moves() == alone.moves() && scores.answer() == alone.answer() {
                    right = right.saturating_add(1);
                }
            }
        }
        right
    };
    assert!(rt; jobs.beside(0, &mut work) == 48);
    for board in few.as_slice() {
        assert!(rt; jobs.scores_of(&rt, board).is_none());
    }
    Ok(())
}

// Thirteen of each, one after the other: the small ones are a whole bundle and the beginning of another.
#[test]
fn boards_of_few_and_of_many_empty_squares_are_found_among_each_other(
    rt: HostRuntime,
) -> Result<(), Fail> {
    let (Some(few), Some(many)) = (images(rt.alloc(), 8), images(rt.alloc(), 10)) else {
        panic!(rt; "no boards")
    };
    let mut boards = Vec::new(rt.alloc());
    for place in 0..13 {
        if let (Some(small), Some(large)) = (
            few.as_slice().get(place),
            many.as_slice().get(place),
        ) {
            boards.push(*small)?;
            boards.push(*large)?;
        }
    }
    assert!(rt; boards.len() == 26);
    let batch = batch(&rt, 4, 64, Scoring::Discs);
    let Some(jobs) = Jobs::of(&batch, Asked::Answer, boards.as_slice()) else {
        panic!(rt; "no jobs")
    };
    jobs.work();
    for board in boards.as_slice() {
        assert!(rt; jobs.answer_of(&rt, board) == solve_alone(board, Scoring::Discs).ok());
    }
    Ok(())
}

#[test]
fn a_crew_does_the_jobs_of_one_batch_after_the_other(rt: HostRuntime) -> Result<(), Fail> {
    let (Some(few), Some(many)) = (images(rt.alloc(), 8), images(rt.alloc(), 10)) else {
        panic!(rt; "no boards")
    };
    let mut small = Vec::new(rt.alloc());
    for _ in 0..3 {
        for board in few.as_slice() {
            small.push(*board)?;
        }
    }
    for workers in [2, 4, 16] {
        let batch = batch(&rt, workers, 64, Scoring::Discs);
        let crew = Crew::of(&batch, Jobs::of(&batch, Asked::Answer, many.as_slice()));
        let mut work = || {
            let mut right = 0u32;
            for (boards, next) in [
                (many.as_slice(), small.as_slice()),
                (small.as_slice(), many.as_slice()),
                (many.as_slice(), small.as_slice()),
            ] {
                for board in boards {
                    if crew.answer_of(board) == solve_alone(board, Scoring::Discs).ok() {
                        right = right.saturating_add(1);
                    }
                }
                crew.give(Jobs::of(&batch, Asked::Answer, next));
            }
            right
        };
        assert!(rt; crew.beside(&mut work) == 80, "{workers} workers");
    }
    Ok(())
}
