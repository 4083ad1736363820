//! Tables of words for each square. The check computes them to be what the definitions say.
//!
//! `line_masks`: the squares in line with a square. `line_counts`: by which the flips of a game's last move are
//! counted. `twin_rays`: rays of a board beside itself turned.
mod line_counts;
mod line_masks;
mod twin_rays;

pub use line_counts::{LINE_COUNTS, LINE_FACTORS, LINE_STARTS};
pub use line_masks::LINE_MASKS;
pub use twin_rays::{TWIN_RAYS, TWIN_SQUARES};
