//! What one worker remembers beside the shared table, handed to a search as cells.
//!
//! `table`: a local hash table, on the heap beside any cells or none (`WithLocal`), or on the stack (`StackCells`).
//! `tables`: those of one search, for boards of few and of more empty squares, made when the first board is to be
//! kept.
mod table;
mod tables;

pub use table::{LocalTable, StackCells, WithLocal};
pub use tables::{LocalTables, is_remembered};
