//! The words of sequential histories, in which the calls of a shared table and of a floor say what they did.
//!
//! A history is a list of events, the newest first. `specs/History` says what such a list begins with, which events
//! are a seat's, which seats there are and when each event may come. The author of an event, the seat that it makes
//! and what fits are parameters: `oth_table` and `oth_pieces` give them in a file of that name, with what is their
//! own, such as what a cell holds or which number the floor is at.
#![tactic(auto)]

mod laws;

pub use laws::{
    a_past_is_legal, a_stranger_did_nothing, beginning_is_an_order,
    no_further_event_means_the_same_events,
};

/// A seat's name: a number that no other seat has. The first seat's is 0. Only proofs speak of it.
pub type Name = u64;
