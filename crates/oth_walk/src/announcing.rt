//! What a gate hears of the items of a board, and that it hears of each once.
//!
//! `gate`: the trait. `announced`: the items and the gate, which all who search the board share; whoever is about to
//! search an item for the first time takes it out of one set (`item_set`), and announces it. `announcer`: one thread's
//! way to that, with what it has found of each (`found_items`). `alone`: the only worker of a search, which announces
//! as several do.
mod alone;
mod announced;
mod announcer;
mod found_items;
mod gate;
mod item_set;

pub use alone::Alone;
pub use announced::Announced;
pub use announcer::Announcer;
pub use gate::{Gate, Open};
pub use item_set::{ItemSet, claim};
