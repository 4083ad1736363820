//! The numbers of a frontier, dealt out to the hands of several threads, by work stealing: each hand has the deque of
//! Chase and Lev (Dynamic circular work-stealing deque, 2005), and takes from the others where its own is empty.
//!
//! Number `j` lies in deque `j` modulo the hands, once, pushed in the order of the ranks that the caller gives
//! (`Tasks::by_rank`; the order is a permutation by its type, `DealOrder`). A hand pops from its own deque and steals
//! from the others, at most 64 tries for each deque in a round. Invariant of a deque: each pushed number is either
//! still in it, or in the list of what exactly one pass took.
ghost use Rattle.std.specs.Prelude.{◌≡◌, ◌<◌, ◌≤◌, true, false, IfNone, IfOk, IfSome, [], ◌∷◌, ◌++◌, MatchOption, map};
ghost use Rattle.std.specs.Prelude.{length, vec_len};
ghost use Rattle.crossbeam_deque.specs.Handles.{view, IsPassOf, stealer_deque};
ghost use Rattle.oth_pieces.specs.Dealing.{Took};
ghost use Rattle.oth_pieces.specs.Hands.{AreAllHands, IsHandOf, Fits, Draws, AreFresh, HaveRoom, IsCrew, list_of};
ghost use Rattle.oth_pieces.specs.Hands.{number_of, has_ended, room_of, count_of};
ghost use Rattle.oth_pieces.specs.Drawn.{lists_of, AreOnce};
ghost use Rattle.oth_pieces.specs.declared.frontier.TheConstants.{MOST_ITEMS};

mod balance;
mod closing;
mod deal_order;
mod dealing;
mod ranked;
mod rule;
mod share;
mod state;

use crate::frontier::Frontier;
use balance::balance;
use closing::{left_of, parts_of};
use crossbeam_deque::Steal;
use deal_order::DealOrder;
use dealing::dealt;
use rule::Takes;
pub use share::Share;
pub use state::{Drawn, Hand, Tasks};
use state::{Parts, Thief, Token};
use std::alloc::{AllocError, Global};
use thiserror::Error;

// How often a steal that must be tried again is tried.
const STEAL_TRIES: u32 = 64;

/// There was no memory.
#[derive(Debug, Drop, Error)]
#[error("there is no memory for the tasks")]
pub struct TasksError;

impl From<AllocError> for TasksError {
    fn from(_: AllocError) -> TasksError {
        TasksError
    }
}

impl Tasks {
    /// Makes tasks of the numbers of the frontier, and `hands` hands, 1 to 16. Each number `j` is pushed into the deque
    /// of hand `j` modulo `hands`, once. Each hand has room for all numbers of a frontier. Refused if there is no
    /// memory.
    pub fn new(
        alloc: Global,
        frontier: &Frontier,
        hands: u8,
    ) -> Result<(Tasks, Vec<Hand>), TasksError>
        requires { IsCrew hands }
        ensures hands { IfOk result (λ made. AreAllHands made.0 made.1.items) }
        ensures many { IfOk result (λ made. length made.1.items ≡ hands) }
        ensures fresh { IfOk result (λ made. AreFresh made.1.items) }
        ensures room { IfOk result (λ made. HaveRoom made.1.items) }
        ensures count { IfOk result (λ made. count_of made.0 ≡ length frontier.now) }
    {
        Tasks::by_rank(alloc, frontier, &[], hands)
    }

    /// As [`Tasks::new`], but each deque has its numbers by rising rank. The rank of number `j` is the one at `j`; a
    /// number that has none goes last, and of equal ranks the lesser number goes first. Which number is drawn when
    /// rests on this alone.
    #[inline(never)]
    pub fn by_rank(
        alloc: Global,
        frontier: &Frontier,
        ranks: &[u32],
        hands: u8,
    ) -> Result<(Tasks, Vec<Hand>), TasksError>
        requires { IsCrew hands }
        ensures hands { IfOk result (λ made. AreAllHands made.0 made.1.items) }
        ensures many { IfOk result (λ made. length made.1.items ≡ hands) }
        ensures fresh { IfOk result (λ made. AreFresh made.1.items) }
        ensures room { IfOk result (λ made. HaveRoom made.1.items) }
        ensures count { IfOk result (λ made. count_of made.0 ≡ length frontier.now) }
    {
        let turns = DealOrder::by_rank(frontier.len(), ranks);
        let made = dealt(alloc, &turns, hands as usize)?;
        Ok(made)
    }

    /// How many numbers there are.
    pub fn count(&self) -> u32
        ensures value { result ≡ count_of self.now }
        ensures most { result ≤ MOST_ITEMS }
    {
        self.count
    }

    /// The lists of all hands, which share no number, and the numbers that are in none. It takes no memory.
    pub fn close(self, hands: Vec<Hand>) -> Drawn
        requires { AreAllHands self hands.items }
        ensures lists { lists_of result ≡ map list_of hands.items }
        ensures once { AreOnce (count_of self) result }
    {
        let Parts {
            owners,
            mut piles,
            lists,
        } = parts_of(hands);
        balance(owners, piles.as_mut_slice());
        let left = left_of(self.count, lists.as_slice());
        Drawn { lists, left }
    }

    /// Takes a number from the hand's own deque, or else from the next one that has some, and puts it last in the
    /// hand's list. From the first `None` on this hand gets no more. It takes no memory, and tries each deque at most
    /// 64 times.
    pub fn draw(&self, hand: &mut Hand) -> Option<u32>
        requires { IsHandOf self.now hand.old }
        ensures hand { IsHandOf self.now hand.new }
        ensures number { number_of hand.new ≡ number_of hand.old }
        ensures room { room_of hand.new ≡ room_of hand.old }
        ensures drawn { MatchOption result (list_of hand.new ≡ list_of hand.old)
            (λ number. list_of hand.new ≡ list_of hand.old ++ number ∷ []) }
        ensures below { IfSome result (λ number. number < count_of self.now) }
        ensures ended { IfNone result (has_ended hand.new ≡ true) }
        ensures more { IfSome result (λ _. has_ended hand.new ≡ false) }
        ensures stays { has_ended hand.old ≡ true → result ≡ None }
    {
        if hand.ended || hand.list.len() >= hand.list.capacity() {
            hand.ended = true;
            return None;
        }
        let found = self.find(hand);
        match found {
            Some(number) => hand.list.push_reserved(number),
            None => hand.ended = true,
        }
        found
    }

    // As `draw`, but the number isn't in the list yet.
    fn find(&self, hand: &mut Hand) -> Option<u32>
        requires { Fits self.now hand.old }
        ensures { Draws self.now hand.old hand.new result }
    {
        let own = hand.owner.pop_as::<Takes>();
        if own.is_some() {
            return own;
        }
        let count = self.thieves.len();
        for step in 1..count {
            let found = self.steal(hand, (hand.number + step) % count);
            if found.is_some() {
                return found;
            }
        }
        None
    }

    // Steals a number from another hand's deque, if one can be had there.
    fn steal(&self, hand: &mut Hand, deque: usize) -> Option<u32>
        requires hand { Fits self.now hand.old }
        requires deque { deque < vec_len self.now.thieves }
        ensures { Draws self.now hand.old hand.new result }
    {
        steal_from(&self.thieves[deque], &mut hand.passes[deque])
    }
}

impl Drawn {
    /// No list, and all numbers below the count are left. It takes no memory.
    pub fn nothing(alloc: Global, count: u32) -> Drawn
        requires { count ≤ MOST_ITEMS }
        ensures lists { lists_of result ≡ [] }
        ensures once { AreOnce count result }
    {
        let lists = Vec::new(alloc);
        let left = left_of(count, lists.as_slice());
        Drawn { lists, left }
    }
}

// Steals a number of the deque. A try that another thread foiled is made again, up to `STEAL_TRIES` times.
fn steal_from(thief: &Thief, pass: &mut Token) -> Option<u32>
    requires pass { IsPassOf (stealer_deque thief.now) pass.old }
    requires knows { (view pass.old).knows ≡ true }
    ensures pass { IsPassOf (stealer_deque thief.now) pass.new }
    ensures took { Took (view pass.old) (view pass.new) result }
{
    for _ in 0..STEAL_TRIES {
        match thief.steal_as::<Takes>(pass) {
            Steal::Success(number) => return Some(number),
            Steal::Empty => return None,
            Steal::Retry => {}
        }
    }
    None
}
