//! The line that shows how far a run is.

use super::counts::Reached;
use super::under_search::UnderSearch;
use oth_rules::{Board, Square};
use oth_search::Interval;
use std::fmt;
use std::time::{Clock, Instant};

// Seconds of work before the line comes, and of a board before it is shown.
const PATIENCE: u64 = 1;

/// A board whose answer is awaited.
#[derive(Clone, Copy, Drop)]
pub struct Awaited {
    /// The board.
    pub board: Board,
    /// Its number among those that were awaited.
    pub(crate) count: u64,
    // How far its search is, if that was heard.
    pub(crate) search: Option<UnderSearch>,
    // How far the search of the board after a move is, if its score is asked.
    pub(crate) after_move: Option<(Square, UnderSearch)>,
}

// A stopwatch that starts anew when `count` changes.
#[derive(Clone, Copy, Drop)]
struct Since {
    count: u64,
    start: Option<Instant>,
}

impl Since {
    // Nothing was seen.
    fn new() -> Since {
        Since {
            count: 0,
            start: None,
        }
    }

    // Returns for how many whole seconds that of this number has lasted, if for `PATIENCE` or more.
    fn seconds<C: Clock>(&mut self, clock: &C, count: u64) -> Option<u64> {
        if self.start.is_none() || self.count != count {
            self.count = count;
            self.start = Instant::now(clock).ok();
        }
        let seconds = self.start?.elapsed(clock).ok()?.as_secs();
        if seconds < PATIENCE {
            return None;
        }
        Some(seconds)
    }
}

/// Since when there has been work, and since when a board has been awaited.
#[derive(Drop)]
pub(crate) struct Times {
    work: Since,
    board: Since,
}

impl Times {
    /// Nothing was seen.
    pub fn new() -> Times {
        Times {
            work: Since::new(),
            board: Since::new(),
        }
    }

    /// What is shown of what the run is at, if it has been at work for `PATIENCE` or more.
    pub fn shown<C: Clock>(
        &mut self,
        clock: &C,
        look: Option<(Reached, Option<Awaited>)>,
    ) -> Option<Shown> {
        let Some((reached, awaited)) = look else {
            self.work = Since::new();
            return None;
        };
        let seconds = self.work.seconds(clock, 0);
        if let Some(board) = &awaited {
            if let Some(seconds) = self.board.seconds(clock, board.count) {
                return Some(Shown {
                    reached,
                    awaited,
                    seconds,
                });
            }
        }
        Some(Shown {
            reached,
            awaited: None,
            seconds: seconds?,
        })
    }
}

/// The line: how far the run is, and for how many seconds it has worked. Where a board takes long: how far its search
/// is, and for how many seconds it has been awaited. That is its empty squares, how many of its moves need no further
/// search, and what its score lies between by now; where a score is asked of each move: which move is searched, how
/// many replies to it need no further search, and what its score lies between.
#[derive(Drop)]
pub struct Shown {
    /// How far the run is.
    pub reached: Reached,
    /// The board that takes long, if one does.
    pub awaited: Option<Awaited>,
    /// Seconds.
    pub seconds: u64,
}

impl fmt::Display for Shown {
    fn fmt<W: fmt::Write>(&self, f: &mut fmt::Formatter<W>) -> fmt::Result {
        write!(f, "{}", self.reached)?;
        if let Some(awaited) = &self.awaited {
            write_awaited(f, awaited)?;
        }
        write!(f, ", {} s", self.seconds)
    }
}

// The empty squares of the board, and how far its search is.
fn write_awaited<W: fmt::Write>(f: &mut fmt::Formatter<W>, awaited: &Awaited) -> fmt::Result {
    let board = &awaited.board;
    let empties = board.empties();
    write!(f, ": {empties} empty squares")?;
    if let Some(search) = &awaited.search {
        let moves = search.root.board.moves().count_ones();
        write!(f, ", {} of {moves} moves settled", search.settled)?;
        if let Some(known) = search.bounds_of(board) {
            write_bounds(f, known)?;
        }
    } else if let Some((square, search)) = &awaited.after_move {
        write_move(f, board, *square, search)?;
    }
    Ok(())
}

// The move whose score is asked, and how far its search is.
fn write_move<W: fmt::Write>(
    f: &mut fmt::Formatter<W>,
    board: &Board,
    square: Square,
    search: &UnderSearch,
) -> fmt::Result {
    let number = square.number();
    let (column, row) = ((b'a' + number % 8) as char, number / 8 + 1);
    let replies = search.root.board.moves().count_ones();
    write!(
        f,
        ", {column}{row}: {} of {replies} replies settled",
        search.settled
    )?;
    match search.known_for_mover(board, square) {
        Some(known) => write_bounds(f, known),
        None => Ok(()),
    }
}

// What a score lies between.
fn write_bounds<W: fmt::Write>(f: &mut fmt::Formatter<W>, bounds: Interval) -> fmt::Result {
    write!(f, ", {:+} to {:+}", bounds.lower, bounds.upper)
}
