//! Boards and games of lines that wait together, as jobs of other workers while the lines are answered.

ghost use Rattle.std.specs.Prelude.{◌≤◌, IfSome, length};
ghost use Rattle.oth_rules.specs.Position.{empty_count};

use crate::lines::split_line;
use crate::solver::Solver;
use memchr::memchr;
use oth_batch::{Asked, Batch, Jobs, MOST_JOBS, ONE_WORKER_MAX_EMPTIES, Recent};
use oth_book::Book;
use oth_pool::Gate;
use oth_rules::Board;
use oth_text::{AnalysisReader, Turn, read_solvable};
use oth_words::Command;
use std::alloc::Global;
use std::thread::Threads;

/// What a command asks of boards by a search, if it does.
pub(crate) fn asked_by(command: Command) -> Option<Asked> {
    match command {
        Command::Solve => Some(Asked::Answer),
        Command::Scores => Some(Asked::Scores),
        Command::Moves | Command::Transcript | Command::Play | Command::Analyse(_) => None,
    }
}

/// Makes jobs for the whole lines in `bytes`, up to `MOST_JOBS`, but for boards in `Recent`: of their boards, or of
/// their games. None where the command asks for no search, one worker is enough, or there is no memory.
pub(crate) fn jobs_of_lines<'b, T: Threads + Sync, G: Gate>(
    solver: &'b Solver<'b, T, G>,
    bytes: &[u8],
) -> Option<Jobs<'b, T, G>> {
    let (alloc, recent) = (solver.batch.alloc, &solver.recent);
    let command = solver.settings.get().command;
    if let Command::Analyse(last) = command {
        let games = of_lines(alloc, bytes, |line: &[u8]| -> Option<Vec<Turn>> {
            turns_of_line(alloc, recent, last, line)
        });
        return Jobs::of_games(&solver.batch, games);
    }
    let asked = asked_by(command)?;
    jobs_of_boards(
        &solver.batch,
        asked,
        bytes,
        |board: &Board| recent.has(board),
    )
}

/// Makes jobs for the boards of the whole lines in `bytes`, up to `MOST_JOBS`, but for those whose answer is in the
/// book. None where one worker is enough, or there is no memory.
pub fn jobs_of_new_boards<'b, T: Threads + Sync, G: Gate>(
    batch: &'b Batch<'b, T, G>,
    bytes: &[u8],
    book: &Book,
) -> Option<Jobs<'b, T, G>> {
    jobs_of_boards(
        batch,
        Asked::Answer,
        bytes,
        |board: &Board| book.find(board).is_some(),
    )
}

// Makes jobs for the boards of the whole lines in these bytes, but for those that are known.
fn jobs_of_boards<'b, T: Threads + Sync, G: Gate, F: Fn(&Board) -> bool>(
    batch: &'b Batch<'b, T, G>,
    asked: Asked,
    bytes: &[u8],
    is_known: F,
) -> Option<Jobs<'b, T, G>>
    requires { F.IsAlwaysCallable is_known }
{
    // Boards without an empty square, as of ended games, are answered sooner than they are read.
    memchr(b'-', bytes)?;
    let boards = of_lines(
        batch.alloc,
        bytes,
        |line: &[u8]| -> Option<Board>
            requires { F.IsAlwaysCallable is_known }
        {
            let board = board_of_line(line)?;
            if is_known(&board) { None } else { Some(board) }
        },
    );
    Jobs::of(batch, asked, boards.as_slice())
}

// What is read of the whole lines in these bytes, up to `MOST_JOBS` of it, as far as there is memory.
fn of_lines<X: Drop, F: Fn(&[u8]) -> Option<X>>(alloc: Global, bytes: &[u8], read: F) -> Vec<X>
    requires { F.IsAlwaysCallable read }
    ensures { length result.items ≤ MOST_JOBS }
{
    let mut list = Vec::new(alloc);
    let mut rest = bytes;
    for _ in 0..bytes.len() {
        let Some((line, others)) = split_line(rest) else {
            break;
        };
        if let Some(found) = read(line) {
            if list.len() >= MOST_JOBS || list.push(found).is_err() {
                break;
            }
        }
        rest = others;
    }
    list
}

// The board of the line, if one worker is enough for it.
fn board_of_line(line: &[u8]) -> Option<Board>
    ensures { IfSome result (λ b. empty_count b ≤ ONE_WORKER_MAX_EMPTIES) }
{
    let board = read_solvable(line).ok()?.board;
    if board.empties() > ONE_WORKER_MAX_EMPTIES {
        return None;
    }
    Some(board)
}

// The turns to be told of the game, if there are some, and memory for them, and the first board's answer wasn't found
// lately. Never inlined, so that they are not on the stack while boards are searched.
#[inline(never)]
fn turns_of_line(alloc: Global, recent: &Recent, last: u8, line: &[u8]) -> Option<Vec<Turn>> {
    let mut reader = AnalysisReader::new();
    reader.push(line);
    let turns = reader.turns(last);
    if recent.has(&turns.first()?.before.board) {
        return None;
    }
    turns.as_slice().to_vec(alloc).ok()
}
