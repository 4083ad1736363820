//! What a search is made with.
ghost use Rattle.oth_pieces.specs.Hands.{IsCrew};

use std::alloc::Global;

/// What a search is made with: the threads, the memory, the gate that hears of each item, and the number of workers.
#[derive(Drop)]
pub(crate) struct Means<'m, R, G> {
    pub rt: &'m R,
    pub alloc: Global,
    pub gate: &'m G,
    pub workers: u8,
    pub ghost crew: { IsCrew workers },
}
