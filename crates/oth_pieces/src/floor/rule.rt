//! The rule of a floor, and its kinds of step.
ghost use Rattle.oth_pieces.specs.Floor.{IsKept, newcomer, Looked, Raised, Named, Learned, parent_of, child_of};
ghost use Rattle.oth_pieces.specs.Floor.{messenger_of, told_by, spent};

use super::root::Root;
use super::view::View;
use atomic_table::{Join, Play, Split, TableRule};

/// The words of a floor are those of one legal history, which every seat's view begins.
pub struct TheFloor;

impl TableRule<u8, View, Root> for TheFloor {
    ghost holds = { λ root. IsKept root };

    ghost first = { λ root. newcomer root };
}

/// Sees the history so far, and the floor after it.
pub struct Looking;

impl Play<u8, View> for Looking {
    ghost then = { Looked };
}

/// Raises the floor, or finds it as high already.
pub struct Raising;

impl Play<u8, View> for Raising {
    ghost then = { Raised };
}

/// Picks a name for a new seat.
pub struct Naming;

impl Play<u8, View> for Naming {
    ghost then = { Named };
}

/// Sees what it was told too.
pub struct Learning;

impl Play<u8, View> for Learning {
    ghost then = { Learned };
}

/// A seat makes another.
pub struct Children;

impl Split<View> for Children {
    ghost left = { parent_of };

    ghost right = { child_of };
}

/// A seat lends what it has seen to a messenger.
pub struct Messengers;

impl Split<View> for Messengers {
    ghost left = { λ v. v };

    ghost right = { messenger_of };
}

/// A messenger tells what it carries.
pub struct Tellings;

impl Join<View> for Tellings {
    ghost both = { told_by };

    ghost spent = { spent };
}
