//! What a run is at, as its gate hears it, for who sits at a terminal.

use super::counts::{Counted, Counts, Reached};
use super::look::Awaited;
use super::under_search::UnderSearch;
use oth_pool::Gate;
use oth_rules::{Board, Square};
use oth_search::Solved;
use std::sync::{Condvar, Mutex, MutexGuard, Wait};
use std::time::{Clock, Duration};

// Milliseconds between two looks at how far the search is.
const TICK: u64 = 250;

// Tries of a gate's call to lock the state. After them what it hears is dropped.
const LOCK_TRIES: u32 = 1_000;

// The most boards under search whose progress is kept: more than are ever searched at once.
const MOST_SEARCHES: usize = 32;

// The boards that a run is at.
#[derive(Drop)]
struct State {
    is_over: bool,
    // The last board that was awaited, and how many were so far.
    board: Board,
    count: u64,
    // The lines that were answered by then, and the boards whose search had begun.
    done: u64,
    begun: u64,
    // The searches that were heard of, and the place of the next one.
    searches: [UnderSearch; MOST_SEARCHES],
    place: usize,
}

impl State {
    // Nothing was heard yet; `nothing` stands at the place of each search.
    fn of(nothing: UnderSearch) -> State {
        State {
            is_over: false,
            board: Board::default(),
            count: 0,
            done: 0,
            begun: 0,
            searches: [nothing; MOST_SEARCHES],
            place: 0,
        }
    }

    // Keeps that the board is awaited.
    fn await_board(&mut self, board: &Board, counts: &Counts) {
        self.board = *board;
        self.count = self.count.wrapping_add(1);
        self.done = counts.done();
        self.begun = counts.begun();
    }

    // The board that is awaited, if one is: its line isn't answered, and no search of others has begun since.
    fn awaited(&self, counts: &Counts) -> Option<Awaited> {
        let others = counts.begun().saturating_sub(self.begun);
        if self.count == 0 || self.done != counts.done() || others > 1 {
            return None;
        }
        Some(Awaited {
            board: self.board,
            count: self.count,
            search: self.search_of(&self.board),
            after_move: self.search_after_move(&self.board),
        })
    }

    // Keeps how far a search is.
    fn keep(&mut self, search: UnderSearch) {
        for place in 0..MOST_SEARCHES {
            if self.searches[place].root.board == search.root.board {
                self.searches[place] = search;
                return;
            }
        }
        let place = self.place % MOST_SEARCHES;
        self.searches[place] = search;
        self.place = place + 1;
    }

    // How far the search of the board is, if anything was heard of it.
    fn search_of(&self, board: &Board) -> Option<UnderSearch> {
        for place in 0..MOST_SEARCHES {
            if self.searches[place].known_of(board).is_some() {
                return Some(self.searches[place]);
            }
        }
        None
    }

    // Of the searches of this board's children the one that began last: the move, and how far the search is.
    fn search_after_move(&self, board: &Board) -> Option<(Square, UnderSearch)> {
        let next = self.place % MOST_SEARCHES;
        for passed in 0..MOST_SEARCHES {
            let search = &self.searches[(next + MOST_SEARCHES - 1 - passed) % MOST_SEARCHES];
            if let Some(square) = search.move_of(board) {
                return Some((square, *search));
            }
        }
        None
    }
}

/// The gate of a run: it keeps what it hears, where the run's progress is shown. Its calls never wait.
#[derive(Drop)]
pub struct Progress {
    pub(crate) is_shown: bool,
    pub(crate) counts: Counts,
    state: Mutex<State>,
    bell: Condvar,
}

impl Progress {
    /// Nothing was heard yet. `is_shown`: the run's progress is shown.
    pub fn new(is_shown: bool) -> Progress {
        let nothing = UnderSearch {
            root: Solved::default(),
            settled: 0,
        };
        Progress {
            is_shown,
            counts: Counts::new(),
            state: Mutex::new(State::of(nothing)),
            bell: Condvar::new(),
        }
    }

    // Locks the state. None where another thread keeps it through `LOCK_TRIES` tries.
    fn heard(&self) -> Option<MutexGuard<'_, State>> {
        for _ in 0..LOCK_TRIES {
            let state = self.state.try_lock();
            if state.is_some() {
                return state;
            }
        }
        None
    }

    /// Begins to go through the entries of a book.
    pub(crate) fn begin_entries(&self, count: usize) {
        self.counts.begin(Counted::Entries, count as u64);
        self.counts.work();
    }

    /// Begins to go through lines of input, none of which was read, whose boards are added to a book or not.
    pub(crate) fn begin_lines(&self, are_added: bool) {
        let counted = if are_added {
            Counted::Added
        } else {
            Counted::Lines
        };
        self.counts.begin(counted, 0);
    }

    /// Counts a line as answered.
    pub(crate) fn count_line(&self) {
        if self.is_shown {
            self.counts.advance();
        }
    }

    /// Counts further lines that were read, with which there is work.
    pub(crate) fn has_read(&self, lines: u64) {
        self.counts.read(lines);
        self.counts.work();
    }

    /// Ends the run, and wakes the thread that waits for a tick.
    pub(crate) fn end<R: Wait>(&self, rt: &R) {
        let mut state = self.state.lock(rt);
        state.is_over = true;
        MutexGuard::unlock(state);
        self.bell.notify_all();
    }

    /// Waits for a tick, or until the run is over. Returns whether it goes on.
    pub(crate) fn goes_on_after_a_tick<R: Wait + Clock>(&self, rt: &R) -> bool {
        let state = self.state.lock(rt);
        if state.is_over {
            return false;
        }
        let (state, _) = self
            .bell
            .wait_timeout(rt, state, Duration::from_millis(TICK));
        !state.is_over
    }

    /// How far the run is, if it is at work.
    pub fn reached(&self) -> Option<Reached> {
        self.counts.reached()
    }

    /// How far the run is, if it is at work, and the board whose answer is awaited, if one is.
    pub(crate) fn look<R: Wait>(&self, rt: &R) -> Option<(Reached, Option<Awaited>)> {
        let reached = self.reached()?;
        Some((reached, self.state.lock(rt).awaited(&self.counts)))
    }
}

impl Gate for Progress {
    fn before(&self, _task: u32) {}

    fn after(&self, _task: u32) {}

    fn begins(&self, _board: &Board) {
        if self.is_shown {
            self.counts.search();
        }
    }

    fn awaits(&self, board: &Board) {
        if !self.is_shown {
            return;
        }
        if self.counts.counted() == Counted::Entries {
            self.counts.advance();
        }
        if let Some(mut state) = self.heard() {
            state.await_board(board, &self.counts);
        }
    }

    fn hears(&self) -> bool {
        self.is_shown
    }

    fn follows(&self) -> bool {
        self.is_shown
    }

    fn goes_on(&self, root: &Solved, settled: u64) {
        let search = UnderSearch {
            root: *root,
            settled,
        };
        if let Some(mut state) = self.heard() {
            state.keep(search);
        }
    }
}
