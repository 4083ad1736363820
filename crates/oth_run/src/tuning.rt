//! The sizes that choose how often the engine reads and writes. What each trades stands in docs/TUNING.md.

/// Bytes that are read at once, on the heap: enough that the boards of their lines keep workers busy for longer than
/// their threads take to start, however few empty squares the boards have.
pub(crate) const HEAP_CHUNK: usize = 262_144;

/// Bytes that are read at once where there is no memory for those, on the stack.
pub const STACK_CHUNK: usize = 4_096;

/// Bytes of a report that wait for one write, at the most.
pub(crate) const WAITING_LEN: usize = 16_384;

/// Empty squares: up to here a board's answer waits for those of the next lines that were read with it, until a larger
/// board's turn comes or `WAITING_LEN` bytes wait, and one call writes them. A larger board's answer is written at
/// once.
pub(crate) const HELD_ANSWER_MAX_EMPTIES: u8 = 8;

/// As `HELD_ANSWER_MAX_EMPTIES`, of the scores of all moves.
pub(crate) const HELD_SCORES_MAX_EMPTIES: u8 = 6;
