//! The tasks, the hands that draw them, and what all hands hold.
ghost use Rattle.std.specs.Prelude.{◌≤◌};
ghost use Rattle.oth_pieces.specs.declared.frontier.TheConstants.{MOST_ITEMS};

use super::rule::Deal;
use super::share::Share;
use crate::frontier::MOST_ITEMS;
use arrayvec::ArrayVec;
use crossbeam_deque::{Pass, Stealer, Worker};
use std::alloc::Global;

/// A pass of a deque, which knows what its holder took there.
pub(crate) type Token = Pass<u32, Share>;

/// The end of a deque at which its own hand draws.
pub(crate) type Owner = Worker<u32, Global, Share, Deal>;

/// The end of a deque at which other hands steal.
pub(crate) type Thief = Stealer<u32, Global, Share, Deal>;

/// What the hands hold, each kind by itself.
#[derive(Drop)]
pub(crate) struct Parts {
    pub owners: Vec<Owner>,
    pub piles: Vec<Vec<Token>>,
    pub lists: Vec<Vec<u32>>,
}

/// The numbers of a frontier, dealt out to a deque for each hand.
#[derive(Drop)]
pub struct Tasks {
    pub(crate) thieves: Vec<Thief>,
    /// How many numbers there are.
    pub(crate) count: u32,
    pub(crate) ghost few: { count ≤ MOST_ITEMS },
}

/// What one thread draws numbers with. It has a deque of its own, and a pass for each deque.
#[derive(Drop)]
pub struct Hand {
    pub(crate) number: usize,
    pub(crate) owner: Owner,
    pub(crate) passes: Vec<Token>,
    pub(crate) list: Vec<u32>,
    pub(crate) ended: bool,
    // Room for what all hands hold, so that the end takes no memory. (No thread shares it, as tasks are shared.)
    pub(crate) room: Parts,
}

/// The numbers that the hands drew, each hand's in their order, and the numbers that none drew, rising.
#[derive(Drop)]
pub struct Drawn {
    pub lists: Vec<Vec<u32>>,
    pub left: ArrayVec<u32, MOST_ITEMS>,
}
