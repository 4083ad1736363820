//! What one thread has found of each item.
ghost use Rattle.std.specs.Prelude.{◌≡◌};

use oth_search::Solved;
use std::alloc::Global;

/// The bounds of each item that one thread has found, by the items' numbers: nothing where there is no memory.
#[derive(Drop)]
pub(super) struct FoundItems {
    items: Vec<Solved>,
}

impl FoundItems {
    /// Nothing yet of each of `count` items.
    pub fn of(alloc: Global, count: u32) -> FoundItems {
        let Ok(mut items) = Vec::with_capacity(alloc, count as usize) else {
            return FoundItems {
                items: Vec::new(alloc),
            };
        };
        for _ in 0..count {
            let _ = items.push(Solved::default());
        }
        FoundItems { items }
    }

    /// What was found of the item of this number, and `known` of its board, after a forced pass where there is one.
    pub fn known_of(&self, number: u32, known: &Solved) -> Solved
        ensures board { result.board ≡ known.now.board }
        ensures scoring { result.scoring ≡ known.now.scoring }
    {
        match self.items.get(number as usize) {
            Some(found) => known.joined(found),
            None => *known,
        }
    }

    /// Keeps what was found of the item of this number.
    pub fn keep(&mut self, number: u32, found: &Solved) {
        let place = number as usize;
        if place < self.items.len() {
            self.items[place] = found.awake().joined(&self.items[place]);
        }
    }
}
