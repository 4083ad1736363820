//! Values and what is known of them. Each type holds only what is true of its board, so no search can spoil a bound.
//!
//! `interval`: scores between bounds. `solved`: a board with true bounds, and what these tell of the board before a
//! move or across a forced pass. `entry`: what a table keeps, in canonical form. `answer` and `kind`: the value with
//! all best moves, and what the mover does. `null_window`: a null window by its type. `cells`: the law of tables
//! (`Cells`), and cells that keep nothing. `backup`: bounds of a board by those of boards some plies below it.
//! `hash`: by which tables and hints find a board's place. `square_set`: sets of squares.
mod answer;
mod backup;
mod cells;
mod entry;
mod hash;
mod interval;
mod kind;
mod null_window;
mod solved;
mod square_set;

pub use answer::Answer;
pub use backup::{BackedUp, backed_up_from, bounds_among};
pub use cells::{Cells, NoCells};
pub use entry::Entry;
pub use hash::{OPPOSING_FACTOR, OWN_FACTOR, board_hash};
pub use interval::{Interval, greater, lesser};
pub use kind::Kind;
pub use null_window::NullWindow;
pub use solved::{NotChild, Solved};
pub use square_set::{FIRST_QUADRANT, first, holds, odd_quadrants, preferred, with, without};
