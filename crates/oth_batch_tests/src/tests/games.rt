//! Games are analysed for whoever asks, while other workers analyse others.

use super::batch;
use oth_batch::{Jobs, known_by};
use oth_book::Book;
use oth_rules::samples::{after_least_moves, least_moves_from};
use oth_rules::{Board, Scoring, Square};
use oth_search::{Answer, solve_alone};
use oth_text::{Position, Side, Turn};
use std::alloc::Global;
use std::test::Fail;

// A board's first legal move, and the board after it.
fn first_move(board: &Board) -> Option<(Square, Board)> {
    for number in 0..64 {
        let square = Square::numbered(number);
        if let Some(after) = board.play(square) {
            return Some((square, after));
        }
    }
    None
}

/// The turns of a game from this board on, by first legal moves, up to a pass.
pub fn turns_from(alloc: Global, board: Board) -> Option<Vec<Turn>> {
    let mut turns = Vec::new(alloc);
    let mut board = board;
    for _ in 0..board.empties() {
        let Some((square, after)) = first_move(&board) else {
            break;
        };
        let before = Position {
            board,
            mover: Side::Black,
        };
        let played = Some(square);
        let turn = Turn {
            before,
            played,
            after,
        };
        turns.push(turn).ok()?;
        board = after;
    }
    Some(turns)
}

/// Games that begin below the moves of a board of four empty squares more, each with `empties` empty squares at most.
pub fn games(alloc: Global, empties: u8) -> Option<Vec<Vec<Turn>>> {
    let mut games = Vec::new(alloc);
    let root = after_least_moves(empties.saturating_add(4)).unwrap_or(Position::start().board);
    for number in 0..64 {
        if let Some(child) = root.play(Square::numbered(number)) {
            if let Some(board) = least_moves_from(child, empties) {
                games.push(turns_from(alloc, board)?).ok()?;
            }
        }
    }
    Some(games)
}

/// Whether these are answers of boards of the turns, each the one that one worker alone gives; and how many they are.
pub fn right_answers(known: &Book, turns: &[Turn], scoring: Scoring) -> Option<usize> {
    let mut right = 0usize;
    for turn in turns {
        for board in [turn.before.board, turn.after] {
            let Some(answer) = known.find(&board) else {
                continue;
            };
            if Some(answer) != solve_alone(&board, scoring).ok() {
                return None;
            }
            right = right.saturating_add(1);
        }
    }
    Some(right)
}

#[test]
fn each_game_is_analysed_while_others_are(rt: HostRuntime) -> Result<(), Fail> {
    let Some(told) = games(rt.alloc(), 10) else {
        panic!(rt; "no games")
    };
    assert!(rt; told.len() >= 4);
    for (workers, cells) in [(2, 0), (4, 64), (16, 1)] {
        let batch = batch(&rt, workers, cells, Scoring::Discs);
        let Some(given) = games(rt.alloc(), 10) else {
            panic!(rt; "no games")
        };
        let Some(jobs) = Jobs::of_games(&batch, given) else {
            panic!(rt; "no jobs")
        };
        let mut work = || {
            told.as_slice().iter().all(|turns| match jobs.known_of(&rt, turns.as_slice()) {
                Some(known) => {
                    right_answers(known, turns.as_slice(), Scoring::Discs)
                        == Some(turns.len() + turns.len())
                }
                None => false,
            })
        };
        assert!(rt;
            jobs.beside(0, &mut work),
            "{workers} workers, {cells} cells"
        );
    }
    Ok(())
}

// So no board that is asked for has fewer empty squares than the one before it.
#[test]
fn a_game_is_solved_from_its_last_turn_on(rt: HostRuntime) -> Result<(), Fail> {
    let Some(turns) = turns_from(
        rt.alloc(),
        after_least_moves(8).unwrap_or(Position::start().board),
    ) else {
        panic!(rt; "no game")
    };
    let (mut asked, mut empties, mut falls) = (0usize, 0u8, false);
    let nothing = Book::new(rt.alloc(), Scoring::Winner);
    let known = known_by(
        nothing,
        turns.as_slice(),
        |board: &Board, _: &Book| -> Option<Answer> {
            asked = asked.saturating_add(1);
            falls |= board.empties() < empties;
            empties = board.empties();
            solve_alone(board, Scoring::Winner).ok()
        },
    );
    assert!(rt; turns.len() >= 4 && asked == turns.len() + turns.len());
    assert!(rt; empties == 8 && !falls);
    assert!(rt; right_answers(&known, turns.as_slice(), Scoring::Winner) == Some(asked));
    Ok(())
}

#[test]
fn games_are_no_jobs_where_two_workers_do_not_pay(rt: HostRuntime) -> Result<(), Fail> {
    let Some(small) = games(rt.alloc(), 2) else {
        panic!(rt; "no games")
    };
    let batch = batch(&rt, 4, 64, Scoring::Winner);
    assert!(rt; Jobs::of_games(&batch, small).is_none());
    assert!(rt; Jobs::of_games(&batch, Vec::new(rt.alloc())).is_none());
    Ok(())
}
