//! A flag by which one thread ends the searches of others.
use std::sync::atomic::{AtomicU64, Ordering};

/// A flag that ends searches: any thread sets it, and each search that was handed it hears it.
#[derive(Drop)]
pub struct StopFlag {
    // 0 until it is set.
    word: AtomicU64,
}

impl StopFlag {
    /// A flag that is not set.
    pub fn new() -> StopFlag {
        StopFlag {
            word: AtomicU64::new(0),
        }
    }

    /// Ends the searches that hear this flag, and those that begin before it is cleared.
    pub fn set(&self) {
        self.word.store(1, Ordering::SeqCst);
    }

    /// Lets searches go on that begin from now on.
    pub fn clear(&self) {
        self.word.store(0, Ordering::SeqCst);
    }

    /// Whether it is set.
    pub fn is_set(&self) -> bool {
        self.word.load(Ordering::SeqCst) != 0
    }
}
