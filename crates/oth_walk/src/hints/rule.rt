//! The rule of the words of hints: they may hold anything, since nothing rests on them.
use atomic_table::{Play, TableRule};

/// Any word may stand there.
pub struct Anything;

impl TableRule<u8, (), ()> for Anything {
    ghost holds = { λ key s. Unit {0} };

    ghost first = { λ key. tt };
}

/// A load, a store or an exchange. It tells nothing beyond the word.
pub struct Step;

impl Play<u8, ()> for Step {
    ghost then = { λ s m found m'. Unit {0} };
}
