//! The numbers that choose how fast several workers search one tree. No contract names one. What each was measured to
//! bring stands in docs/TUNING.md.

// ---- What workers share

/// Cells: workers share what they find over a table of at least as many. A smaller one loses it before another worker
/// looks, so that each would search it again.
pub(crate) const SHARED_MIN_CELLS: u32 = 64;

/// Empty squares, by those of the root: the smallest nodes that workers share, so that their searches are deferred and
/// given up, and the largest nodes at which only `FEW_TOGETHER` children are undeferred. The trees of deeper roots
/// are so large that sharing small nodes takes longer than it saves.
pub(crate) fn shared_empties(root: u8) -> (u8, u8) {
    match root {
        0..=19 => (10, 12),
        _ => (11, 14),
    }
}

/// Children that a worker searches at a large node even if another one is there (young brothers wait). Later ones that
/// turn out not to matter cost most there.
pub(crate) const CHILDREN_TOGETHER: usize = 2;

/// As `CHILDREN_TOGETHER`, at a small node.
pub(crate) const FEW_TOGETHER: usize = 1;

/// Empty squares above the smallest shared nodes: below that the last two searches under way are looked up in the
/// table after each node, and from there on all of them, which takes little beside the search of a large node.
pub(crate) const SMALL_NODE_MARGIN: u8 = 2;

// ---- Hints, which workers leave for each other

/// Marks: nodes that can be marked as being searched, so that other workers defer them. A power of two.
pub(crate) const MARK_COUNT: usize = 1024;

/// Entries: nodes of the selective search of which others are told what was found. A power of two.
pub(crate) const SEEN_COUNT: usize = 256;

/// Entries: nodes of which the order of moves is kept for all workers, by the empty squares of the root.
pub fn orders_for(empties: u8) -> u16 {
    match empties {
        0..=13 => 1,
        14..=15 => 1_024,
        16..=17 => 4_096,
        _ => 8_192,
    }
}

/// Empty squares: from here on the order of a node's moves is kept. Below it a worker makes it anew in less time.
pub(crate) const KEPT_ORDER_MIN_EMPTIES: u8 = 12;

// ---- The shared first guess, a selective search by all workers

/// Empty squares of the root: from here on workers make the first guess together. Below it each one searches at once.
pub(crate) const SHARED_GUESS_MIN_EMPTIES: u8 = 14;

// ---- The root's moves

/// Root moves of higher rank that a worker helps to finish before its own item's: what they reach bounds its search.
pub(crate) const MOVES_BEFORE: usize = 1;

/// Rounds through the root's moves of a worker that has no item left. Until the last one it defers those that others
/// are at.
pub(crate) const FINAL_ROUNDS: u32 = 3;

/// The number of the last of these rounds, from 0.
pub(crate) const LAST_FINAL_ROUND: u32 = FINAL_ROUNDS - 1;

/// Root moves that all workers search together then, before any is left to another one.
pub(crate) const MOVES_TOGETHER: u64 = 3;
