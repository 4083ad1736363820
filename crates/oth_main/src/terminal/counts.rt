//! How far a run is, in numbers that each thread may change without waiting.

use std::fmt;
use std::sync::atomic::{AtomicU64, Ordering};

/// What a run goes through.
#[derive(Clone, Copy, Debug, PartialEq, Eq)]
pub enum Counted {
    /// The lines of the input, whose answers are written in their order.
    Lines,
    /// The lines of the input, whose boards are solved side by side before they are added to a book.
    Added,
    /// The entries of a book, whose boards are solved side by side before they are compared.
    Entries,
}

/// How far a run is.
#[derive(Clone, Copy, Debug, PartialEq, Eq)]
pub enum Reached {
    /// The line of the input that is awaited, from 1, and how many lines were read so far.
    Line(u64, u64),
    /// The entry of the book that is tested, from 1, and how many there are.
    Entry(u64, u64),
}

impl fmt::Display for Reached {
    fn fmt<W: fmt::Write>(&self, f: &mut fmt::Formatter<W>) -> fmt::Result {
        match self {
            Reached::Line(number, read) => write!(f, "line {number} of {read} read"),
            Reached::Entry(number, count) => write!(f, "entry {number} of {count}"),
        }
    }
}

/// What is counted of a run.
#[derive(Drop)]
pub(crate) struct Counts {
    // The number of the counted.
    counted: AtomicU64,
    // 1 while there is work, 0 while input is awaited.
    is_at_work: AtomicU64,
    // The lines that were read, or the entries of the book.
    all: AtomicU64,
    // The lines that are answered, or the entries that were or are compared.
    done: AtomicU64,
    // The boards whose search has begun, where they are searched before their turn.
    begun: AtomicU64,
}

impl Counts {
    /// No line was read.
    pub fn new() -> Counts {
        Counts {
            counted: AtomicU64::new(number_of(Counted::Lines)),
            is_at_work: AtomicU64::new(0),
            all: AtomicU64::new(0),
            done: AtomicU64::new(0),
            begun: AtomicU64::new(0),
        }
    }

    /// Begins a counted of which `all` lines or entries are known.
    pub fn begin(&self, counted: Counted, all: u64) {
        self.is_at_work.store(0, Ordering::SeqCst);
        self.counted.store(number_of(counted), Ordering::SeqCst);
        self.all.store(all, Ordering::SeqCst);
        self.done.store(0, Ordering::SeqCst);
        self.begun.store(0, Ordering::SeqCst);
    }

    /// The counted.
    pub fn counted(&self) -> Counted {
        match self.counted.load(Ordering::SeqCst) {
            0 => Counted::Lines,
            1 => Counted::Added,
            _ => Counted::Entries,
        }
    }

    /// Input is awaited.
    pub fn rest(&self) {
        self.is_at_work.store(0, Ordering::SeqCst);
    }

    /// There is work.
    pub fn work(&self) {
        self.is_at_work.store(1, Ordering::SeqCst);
    }

    /// Counts further lines that were read.
    pub fn read(&self, lines: u64) {
        let _ = self.all.fetch_add(lines, Ordering::SeqCst);
    }

    /// `lines` lines are answered by now.
    pub fn answered(&self, lines: u64) {
        self.done.store(lines, Ordering::SeqCst);
    }

    /// Counts a line that is answered, or an entry whose turn it is.
    pub fn advance(&self) {
        let _ = self.done.fetch_add(1, Ordering::SeqCst);
    }

    /// Counts a board whose search begins, unless answers are written in the order of the lines.
    pub fn search(&self) {
        if self.counted() != Counted::Lines {
            let _ = self.begun.fetch_add(1, Ordering::SeqCst);
        }
    }

    /// The lines that are answered, or the entries that were or are compared.
    pub fn done(&self) -> u64 {
        self.done.load(Ordering::SeqCst)
    }

    /// The boards whose search has begun, where these are counted.
    pub fn begun(&self) -> u64 {
        self.begun.load(Ordering::SeqCst)
    }

    /// How far the run is, if it is at work.
    pub fn reached(&self) -> Option<Reached> {
        if self.is_at_work.load(Ordering::SeqCst) == 0 {
            return None;
        }
        let all = self.all.load(Ordering::SeqCst).max(1);
        match self.counted() {
            Counted::Lines | Counted::Added => {
                let next = self.done().saturating_add(1);
                Some(Reached::Line(next.max(self.begun()).min(all), all))
            }
            Counted::Entries => {
                let next = self.done().max(1);
                Some(Reached::Entry(next.max(self.begun()).min(all), all))
            }
        }
    }
}

// The number of the counted.
fn number_of(counted: Counted) -> u64 {
    match counted {
        Counted::Lines => 0,
        Counted::Added => 1,
        Counted::Entries => 2,
    }
}
