//! A job of one board, or of one game.

use crate::asked::Found;
use oth_pool::claim;
use oth_rules::Board;
use oth_text::Turn;
use std::alloc::Global;
use std::sync::atomic::AtomicU64;
use std::sync::{OnceLock, Wait};

/// A board, and what the worker that has taken it finds of it. Of a game it is the first board of the last turns.
#[derive(Drop)]
pub(crate) struct Job {
    pub board: Board,
    pub turns: Vec<Turn>,
    // A word whose lowest bit says whether a worker has taken the job.
    taken: AtomicU64,
    found: OnceLock<Option<Found>>,
}

impl Job {
    /// A job without turns that nobody has taken.
    pub fn of(alloc: Global, board: Board) -> Job {
        Job {
            board,
            turns: Vec::new(alloc),
            taken: AtomicU64::new(0),
            found: OnceLock::new(),
        }
    }

    /// Takes the job, unless it is taken.
    pub fn take(&self) -> bool {
        claim(&self.taken, 1)
    }

    /// Leaves what was found in the job.
    pub fn leave(&self, found: Option<Found>) {
        let _ = self.found.try_set(found);
    }

    /// Whether what was found is there.
    pub fn is_done(&self) -> bool {
        self.found.get().is_some()
    }

    /// Waits until what was found is there, and returns it.
    pub fn awaited<T: Wait>(&self, rt: &T) -> Option<&Found> {
        self.found.wait(rt).as_ref()
    }
}
