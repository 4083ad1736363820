//! Boards of few empty squares in the order in which they wait, cut into bundles.

use super::bundle::{Bundle, BundleBoards};
use crate::asked::Asked;
use crate::batch::Batch;
use crate::split::{Split, is_asked_in_turn};
use crate::tuning::BUNDLE_LEN;
use oth_pool::Gate;
use oth_rules::Board;
use std::alloc::Global;
use std::sync::atomic::{AtomicU64, Ordering};
use std::thread::Threads;

/// Bundles of boards, each board of which is asked for in its turn.
#[derive(Drop)]
pub(crate) struct Bundles {
    asked: Asked,
    list: Vec<Bundle>,
    // The place of the next bundle that a worker looks at.
    next: AtomicU64,
    // How many of the boards were asked for.
    turn: AtomicU64,
}

/// Where a board is: the place of its bundle, and its own there.
#[derive(Clone, Copy)]
pub(crate) struct Spot {
    pub bundle: usize,
    pub place: usize,
}

impl Bundles {
    /// Bundles of those of the boards that one worker solves and that are asked for in turn; the last one may be
    /// shorter. None where there is no memory.
    pub fn of(alloc: Global, asked: Asked, boards: &[Board], split: Split) -> Option<Bundles> {
        let mut list = Vec::new(alloc);
        let mut bundle = BundleBoards::new();
        for board in boards {
            if is_asked_in_turn(asked, board) && split.is_for_one(board) {
                bundle.try_push(*board).ok()?;
                if bundle.is_full() {
                    list.push(Bundle::of(bundle)).ok()?;
                    bundle = BundleBoards::new();
                }
            }
        }
        if !bundle.is_empty() {
            list.push(Bundle::of(bundle)).ok()?;
        }
        Some(Bundles {
            asked,
            list,
            next: AtomicU64::new(0),
            turn: AtomicU64::new(0),
        })
    }

    /// The number of bundles.
    pub fn len(&self) -> usize {
        self.list.len()
    }

    /// Searches the next bundle that nobody has taken. False where there is none, or the bundles are stopped.
    pub fn search_next<R: Threads + Sync, G: Gate>(&self, batch: &Batch<'_, R, G>) -> bool {
        for _ in 0..self.list.len() {
            let place = self.next.fetch_add(1, Ordering::SeqCst);
            let Some(bundle) = self.list.get(place as usize) else {
                return false;
            };
            if bundle.search(batch, self.asked) {
                return true;
            }
        }
        false
    }

    /// Stops the bundles: no worker takes a further one, unless it is asked for a board of it.
    pub fn stop(&self) {
        self.next.store(self.list.len() as u64, Ordering::SeqCst);
    }

    /// The bundle at this place.
    pub fn get(&self, place: usize) -> Option<&Bundle> {
        self.list.get(place)
    }

    /// Where the board is, if it is the next one that is asked for; then the turn is that of the one behind it.
    pub fn spot_of(&self, board: &Board) -> Option<Spot> {
        let turn = self.turn.load(Ordering::SeqCst);
        let spot = Spot {
            bundle: turn as usize / BUNDLE_LEN,
            place: turn as usize % BUNDLE_LEN,
        };
        if !self.list.get(spot.bundle)?.has_at(spot.place, board) {
            return None;
        }
        self.turn.store(turn.saturating_add(1), Ordering::SeqCst);
        Some(spot)
    }
}
