//! What the workers of one search share: the floor, the frontier, the tasks and the collector.
#![tactic(auto)]

mod collector;
mod crew;
pub mod floor;
mod frontier;
mod laws;
mod reply;
pub mod tasks;

pub use collector::Collector;
pub use crew::is_crew;
pub use floor::{Floor, FloorError, FloorSeat, Stranger};
pub use frontier::{Frontier, Item, MOST_ITEMS, awake, count_below};
pub use laws::{a_past_is_legal, a_stranger_did_nothing, the_floor_is_true};
pub use reply::{Refusal, Reply};
pub use tasks::{Drawn, Hand, Tasks, TasksError};
