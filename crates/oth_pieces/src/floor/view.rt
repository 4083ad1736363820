//! What the proofs say that a seat of a floor knows.
use super::event::Event;
use super::root::Root;
use oth_history::Name;
use std::collections::LinkedList;

/// What a seat of a floor knows. Each history has the newest event first. No value of it is made.
pub struct View {
    pub root: Root,
    /// Its number, if it is live.
    pub name: Name,
    /// Whether it raises the floor. If not, it only carries a history from one seat to another.
    pub live: bool,
    /// The number of the seat that it is about to make.
    pub spare: Option<Name>,
    /// The history that it has seen.
    pub seen: LinkedList<Event>,
    /// What another seat has told it.
    pub told: LinkedList<Event>,
}
