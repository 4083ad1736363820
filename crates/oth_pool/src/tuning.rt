//! The numbers that choose how many of its workers and cells a search uses. What each was measured to bring stands in
//! docs/TUNING.md.

/// Empty squares of the root: from here on all workers search. Below it two do, since a thread takes longer to start
/// than the rest of the search.
pub(crate) const CREW_MIN_EMPTIES: u8 = 12;

/// Returns how many of `cells` cells a search of `empties` empty squares by `workers` workers can use: a large table
/// takes longer to make than a small search gains, and up to 9 one worker finds in a table only what it knows.
pub(crate) fn cells_for(cells: u32, empties: u8, workers: u8) -> u32 {
    match empties {
        0..=9 if workers == 1 => 0,
        0..=6 => cells.min(1),
        7..=9 => cells.min(1 << 6),
        10..=12 => cells.min(1 << 10),
        13..=14 => cells.min(1 << 12),
        15..=16 => cells.min(1 << 14),
        17 => cells.min(1 << 15),
        _ => cells,
    }
}

/// Empty squares: from here on a guess is made of a board of whose moves a book knows some, to see whether the score is
/// higher than they reach.
pub(crate) const HIGHER_MIN_EMPTIES: u8 = 14;

/// Discs: where the score seems to be above what the moves are known to reach by no more than this, it is not asked for
/// first.
pub(crate) const HIGHER_BY: i8 = 2;
