//! Whichever request for memory or threads is refused, what is answered is answered rightly.

use super::games::{games, right_answers};
use super::verifying::SIX;
use super::{answers, are_right, batch, images};
use oth_batch::{Asked, Jobs, verify_by};
use oth_book::{BookFault, Wrong, read_claims};
use oth_pool::Open;
use oth_rules::Scoring;
use oth_search::{NoCells, scores_with, solve_alone};
use std::test::Fail;

#[test]
fn a_batch(rt: HostRuntime) -> Result<(), Fail> {
    let Some(boards) = images(rt.alloc(), 10) else {
        return Ok(());
    };
    let answers = answers(&batch(&rt, 2, 64, Scoring::Discs), boards.as_slice());
    assert!(rt; answers.len() <= boards.len());
    assert!(rt; are_right(answers.as_slice(), Scoring::Discs));
    Ok(())
}

#[test]
fn boards_that_others_solve_too(rt: HostRuntime) -> Result<(), Fail> {
    let Some(boards) = images(rt.alloc(), 10) else {
        return Ok(());
    };
    let batch = batch(&rt, 2, 64, Scoring::Winner);
    let Some(jobs) = Jobs::of(&batch, Asked::Answer, boards.as_slice()) else {
        return Ok(());
    };
    // One request at the most is refused, so the eight images of one board at the most have no answer.
    let mut work = || {
        let mut unanswered = 0usize;
        for board in boards.as_slice() {
            match jobs.answer_of(&rt, board) {
                Some(answer) if solve_alone(board, Scoring::Winner).ok() == Some(answer) => {}
                Some(_) => return false,
                None => unanswered = unanswered.saturating_add(1),
            }
        }
        unanswered <= 8
    };
    assert!(rt; jobs.beside(0, &mut work));
    Ok(())
}

#[test]
fn boards_whose_moves_others_score_too(rt: HostRuntime) -> Result<(), Fail> {
    let Some(boards) = images(rt.alloc(), 8) else {
        return Ok(());
    };
    let batch = batch(&rt, 2, 64, Scoring::Winner);
    let Some(jobs) = Jobs::of(&batch, Asked::Scores, boards.as_slice()) else {
        return Ok(());
    };
    let mut work = || {
        boards.as_slice().iter().all(|board| {
            let alone = scores_with(*board, &mut NoCells, Scoring::Winner);
            match jobs.scores_of(&rt, board) {
                Some(scores) => scores.moves() == alone.moves(),
                None => false,
            }
        })
    };
    assert!(rt; jobs.beside(0, &mut work));
    Ok(())
}

#[test]
fn a_book_is_verified_or_memory_is_wanting(rt: HostRuntime) {
    match read_claims(rt.alloc(), SIX) {
        Ok(claims) => match verify_by(&rt, rt.alloc(), claims, 2, 64, &Open) {
            Ok(book) => assert_eq!(rt; book.len(), 6),
            Err(wrong) => assert!(rt; wrong == Wrong::Memory),
        },
        Err(fault) => assert!(rt; fault == BookFault::Memory),
    }
}

#[test]
fn games_that_others_analyse_too(rt: HostRuntime) -> Result<(), Fail> {
    let (Some(told), Some(given)) = (games(rt.alloc(), 10), games(rt.alloc(), 10)) else {
        return Ok(());
    };
    let batch = batch(&rt, 2, 64, Scoring::Winner);
    let Some(jobs) = Jobs::of_games(&batch, given) else {
        return Ok(());
    };
    let mut work = || {
        told.as_slice().iter().all(|turns| match jobs.known_of(&rt, turns.as_slice()) {
            Some(known) => right_answers(known, turns.as_slice(), Scoring::Winner).is_some(),
            None => turns.is_empty(),
        })
    };
    assert!(rt; jobs.beside(0, &mut work));
    Ok(())
}
