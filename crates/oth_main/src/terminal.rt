//! What a terminal shows while a run goes on: a line that says how far it is, and the faults of its input in words.
//!
//! `showing` has a terminal with that line (`look`, in its `row`). `Progress` (`progress`) hears of each search
//! (`under_search`) as the gate of the run, and counts (`counts`) the lines that its source reads (`Input`) and those
//! of which its sink hears (`Report`). That sink takes the line away before each answer, and tells faults in words.
mod counts;
mod input;
mod look;
mod progress;
mod row;
mod showing;
mod under_search;

pub use counts::Reached;
pub use input::Input;
pub use look::{Awaited, Shown};
pub use progress::Progress;
pub use row::{ROW_LEN, Row};
pub use showing::{FaultyLine, Report, Watch};
