//! The null-window search: is the value of a board above alpha? One file for each range of empty squares, and one
//! contract for every body: `BoundsAt v alpha r` says that `r` is an upper bound of `v` if `r <= alpha`, else a lower
//! bound.
//!
//! `deep`: from 6 empty squares on. Children are worked out once each with their moves, and the best-ranked one is
//! picked as the search goes on. From 9 empty squares on boards are looked up in the table and stored; boards of 5 to
//! 8, and those up to 14 of which the cells say so, are kept in a local table by cells that have one. Of boards of 8
//! and 9 empty squares the children are looked up there, from 11 on in the table, before one of them is searched
//! (enhanced transposition cutoff). A stability cutoff ends the search where the opponent's stable discs leave no
//! more than alpha.
//!
//! `heard`: a search that tells of each board after a move when it searches it, for whoever announces these.
//!
//! `shallow`: at most 5 empty squares, on twins, odd quadrants first (parity), without ranks. `last`: a body for each
//! of the last four squares; the last one is scored by the number of its flips. `node`, `empties` and `quadrant` are
//! what these hand down.
mod deep;
mod empties;
mod heard;
mod last;
mod node;
mod quadrant;
mod shallow;

pub use deep::{by_table, nws_node, nws_with};
pub use heard::{Hearer, Unheard, nws_heard};
pub use node::Node;
