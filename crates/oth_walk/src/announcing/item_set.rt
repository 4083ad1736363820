//! Sets of items to which several threads add.
use oth_pieces::MOST_ITEMS;
use std::array::from_fn;
use std::sync::atomic::{AtomicU64, Ordering};

// Words of 64 items each, as many as all items of a frontier need.
const SET_WORDS: usize = MOST_ITEMS / 64 + 1;

/// A set of numbers of items, at first empty. A number that no frontier has is in none.
#[derive(Drop)]
pub struct ItemSet {
    words: [AtomicU64; SET_WORDS],
}

impl ItemSet {
    /// No item.
    pub fn new() -> ItemSet {
        ItemSet {
            words: from_fn(|_| AtomicU64::new(0)),
        }
    }

    /// Adds the item. Returns whether it was not there: of several threads that add it, one hears so.
    pub fn add(&self, number: u32) -> bool {
        let Some(word) = self.words.get((number / 64) as usize) else {
            return false;
        };
        claim(word, 1 << (number % 64))
    }

    /// Whether no item is there.
    pub fn is_empty(&self) -> bool {
        for word in &self.words {
            if word.load(Ordering::SeqCst) != 0 {
                return false;
            }
        }
        true
    }

    /// Whether the item is there.
    pub fn has(&self, number: u32) -> bool {
        match self.words.get((number / 64) as usize) {
            Some(word) => word.load(Ordering::SeqCst) & (1 << (number % 64)) != 0,
            None => false,
        }
    }
}

/// Sets this bit of the word, by one compare-and-exchange. Returns whether it was not set: of several threads that
/// claim it, one hears so. Tries again where another thread claims another bit at the same time, at most once for each.
pub fn claim(word: &AtomicU64, bit: u64) -> bool {
    for _ in 0..64 {
        let old = word.load(Ordering::SeqCst);
        if old & bit != 0 {
            return false;
        }
        let claimed = word.compare_exchange(old, old | bit, Ordering::SeqCst, Ordering::SeqCst);
        if claimed.is_ok() {
            return true;
        }
    }
    false
}
