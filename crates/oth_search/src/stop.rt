//! The search that may be ended, and goes on later. `until`: `solve_until`, which ends when its look-ups are spent, as
//! `limited` counts them, or when another thread sets the `flag`. A further one goes on by what is in the cells, and by
//! where the last one left off: `resume`, of which `orders` are a part.
mod flag;
mod limited;
mod orders;
mod resume;
mod until;

pub use flag::StopFlag;
pub use limited::Limited;
pub use resume::Resume;
pub use until::{Stopped, solve_until};
