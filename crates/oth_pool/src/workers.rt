//! Threads that draw items and search them.
ghost use Rattle.std.specs.Prelude.{◌≡◌, ℕ, ◌<◌, length, slice_index_or};
ghost use Rattle.oth_pieces.specs.Hands.{number_of};
ghost use Rattle.oth_pool.specs.Working.{CanWork};

use crate::at_once::for_each_at_once;
use crate::work::{Duty, Work};
use oth_pieces::{Reply, Tasks};
use oth_search::Cells;
use oth_walk::{Gate, Search, Worker, search_item, settle_all};
use std::thread::Threads;

/// Lets each duty search items until no number is left and no move of the root is open, in a thread of its own where
/// one can be made.
pub(crate) fn work_all<'w, R: Threads + Sync, G: Gate, C: Cells + Send>(
    rt: &R,
    search: &Search,
    tasks: &Tasks,
    duties: &mut [Duty<'w, C, G>],
)
    requires { (i : ℕ) (d : Duty C G) → i < length duties.old
        → CanWork search.now.frontier.now search.now.scoring tasks.now (slice_index_or duties.old i d).work }
    ensures works { (i : ℕ) (d : Duty C G) → i < length duties.old
        → CanWork search.now.frontier.now search.now.scoring tasks.now (slice_index_or duties.new i d).work }
    ensures numbers { (i : ℕ) (d : Duty C G) → i < length duties.old
        → number_of (slice_index_or duties.new i d).work.hand ≡ number_of (slice_index_or duties.old i d).work.hand }
{
    for_each_at_once(
        rt,
        &|duty: &mut Duty<C, G>|
            requires { CanWork search.now.frontier.now search.now.scoring tasks.now duty.old.work }
            ensures works { CanWork search.entry.now.frontier.now search.entry.now.scoring
                tasks.entry.now duty.new.work }
            ensures number { number_of duty.new.work.hand ≡ number_of duty.old.work.hand }
        { search_all(search, tasks, &mut duty.work, &mut duty.worker) },
        duties,
    );
}

// Searches items until no number is left, and then what is open of the root's moves.
fn search_all<G: Gate, C: Cells>(
    search: &Search,
    tasks: &Tasks,
    work: &mut Work,
    worker: &mut Worker<C, G>,
)
    requires { CanWork search.now.frontier.now search.now.scoring tasks.now work.old }
    ensures works { CanWork search.now.frontier.now search.now.scoring tasks.now work.new }
    ensures number { number_of work.new.hand ≡ number_of work.old.hand }
{
    for _ in 0..u64::MAX {
        if !search_next(search, tasks, work, worker) {
            break;
        }
    }
    settle_all(worker);
}

// Draws a number and searches its item. False where no number or no room for a reply is left.
fn search_next<G: Gate, C: Cells>(
    search: &Search,
    tasks: &Tasks,
    work: &mut Work,
    worker: &mut Worker<C, G>,
) -> bool
    requires { CanWork search.now.frontier.now search.now.scoring tasks.now work.old }
    ensures works { CanWork search.now.frontier.now search.now.scoring tasks.now work.new }
    ensures number { number_of work.new.hand ≡ number_of work.old.hand }
{
    if work.replies.len() >= work.replies.capacity() {
        return false;
    }
    let Some(number) = tasks.draw(&mut work.hand) else {
        return false;
    };
    let Some(item) = search.frontier.entry(number) else {
        return false;
    };
    let solved = search_item(search, number, &item, worker);
    work.replies.push_reserved(Reply { number, solved });
    true
}
