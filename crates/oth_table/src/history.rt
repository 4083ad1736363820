//! What the proofs say of a table: its sequential history, as linearizability asks for (Herlihy and Wing, 1990), and
//! what each seat knows. Of these types only `Terms` and `Limits` have values.
use oth_history::Name;
use oth_rules::Scoring;
use oth_search::Entry;
use std::collections::LinkedList;

/// Why a call neither read nor stored.
pub enum Why {
    /// A look met another seat's claim.
    Busy,
    /// A put did.
    Skipped,
    /// A put found the cell published as often as it may be.
    Worn,
}

/// An event, by the seat that did it and the cell.
pub enum Event {
    /// The seat claimed the cell.
    Claim(Name, u64),
    /// The seat published the cell, with what was given and what the cell then kept.
    Publish(Name, u64, Entry, Entry),
    /// The seat looked at the cell, with the entry that it found, if any.
    Look(Name, u64, Option<Entry>),
    /// The seat did nothing.
    Away(Name, u64, Why),
    /// The first seat made the second.
    Made(Name, Name),
}

/// What a seat is about.
pub enum Stage {
    /// Nothing: it is between calls.
    Idle,
    /// The cell, the version that was loaded first, the last version known, and the content at the first.
    Reading(u64, u64, u64, Option<Entry>),
    /// The cell, its version, the content before, the given entry, and how many words are stored.
    Writing(u64, u64, Option<Entry>, Entry, u64),
    /// A seat of this name is about to be made.
    Making(Name),
    /// It is no seat, and only takes to another what it was told.
    Note,
}

/// What a table is for: how often each cell may be published, and the scoring of its entries.
#[derive(Clone, Copy)]
pub struct Terms {
    /// 1 to 2^63 - 1.
    pub wear: u64,
    pub scoring: Scoring,
}

/// What a seat knows. Each history has the newest event first.
pub struct View {
    /// The table's.
    pub terms: Terms,
    pub name: Name,
    /// The history that it has seen.
    pub seen: LinkedList<Event>,
    /// A history that another seat has told it of.
    pub told: LinkedList<Event>,
    pub stage: Stage,
}

/// What a table is told once: its number of cells, and its terms.
#[derive(Drop)]
pub struct Limits {
    pub cells: u64,
    pub terms: Terms,
}
