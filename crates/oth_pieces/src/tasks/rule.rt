//! The rule of a deque of numbers, and its kinds of call.
ghost use Rattle.oth_pieces.specs.Dealing.{Dealt, owner, stranger, puts, takes, owner_of, thief_of, both, IsFair};

use super::share::Share;
use crossbeam_deque::protocol::{Join, Lesson, Outcome, Protocol, Split};

/// Each number that was pushed is taken at most once.
pub struct Deal;

impl Protocol<u32, Share> for Deal {
    ghost holds = { Dealt };

    ghost first = { owner };

    ghost guest = { stranger };
}

/// A number was pushed.
pub struct Puts;

impl Outcome<u32, Share> for Puts {
    ghost then = { puts };
}

/// A number was popped or stolen.
pub struct Takes;

impl Outcome<u32, Share> for Takes {
    ghost then = { takes };
}

/// A thief knows what was pushed.
pub struct Thieves;

impl Split<Share> for Thieves {
    ghost left = { owner_of };

    ghost right = { thief_of };
}

/// The owner has what another took too.
pub struct Gathers;

impl Join<Share> for Gathers {
    ghost both = { both };

    ghost spent = { stranger };
}

/// No number was taken more often than it was put.
pub struct Fair;

impl Lesson<u32, Share> for Fair {
    ghost fact = { λ v items. IsFair v };
}
