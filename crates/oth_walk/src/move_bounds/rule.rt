//! The rule of the bounds of root moves, and their kind of step.
ghost use Rattle.oth_walk.specs.MoveBounds.{AreTrue, Finds};

use atomic_table::{Play, TableRule};
use oth_pieces::floor::Root;

/// No word tells more of a board than is true.
pub struct TrueBounds;

impl TableRule<u8, Root, Root> for TrueBounds {
    ghost holds = { λ root s. AreTrue root s.words };

    ghost first = { λ root. root };
}

/// A load or a fetch_max. What it finds is true.
pub struct Step;

impl Play<u8, Root> for Step {
    ghost then = { Finds };
}
