//! The numbers that choose how fast the search is. No public contract names one. What each was measured to bring stands
//! in docs/TUNING.md.
ghost use Rattle.std.specs.Prelude.{◌<◌};

// ---- Which nodes are searched how, by their empty squares

/// Empty squares: up to here each of the last squares has a body of its own, ordered by parity alone.
pub(crate) const LAST_SQUARES_MAX_EMPTIES: u8 = 4;

/// Empty squares of the root: up to here one worker of whom nobody hears keeps no list of the root's moves. The boards
/// after them are searched in less time than a list of them is made in.
pub(crate) const FEW_MAX_EMPTIES: u8 = 6;

/// Empty squares: from here on a position is kept in the local hash table, if the worker has one. Below it a search
/// takes no longer than a look.
pub(crate) const LOCAL_TABLE_MIN_EMPTIES: u8 = 5;

/// Empty squares: from here on moves are sorted by rank. Below it parity orders them, since a rank costs more than it
/// saves.
pub(crate) const RANK_MIN_EMPTIES: u8 = 6;

/// Empty squares: from here on all children are looked up before one is searched (enhanced transposition cutoff).
pub(crate) const ETC_MIN_EMPTIES: u8 = 8;

/// Empty squares: from here on a position goes into the transposition table, in its canonical form, unless a local
/// table has it. Below it a look and a store there cost more than they save.
pub(crate) const TABLE_MIN_EMPTIES: u8 = 9;

/// Alpha, in discs: from here on the stability cutoff is tried. Below it the opponent seldom has as many stable discs.
pub(crate) const LEAST_ALPHA_BOUNDED: i8 = 24;

/// Empty squares: a search that may be stopped ends only between nodes of this many and more, so that the inner loop
/// has no test.
pub(crate) const STOP_MIN_EMPTIES: u8 = 11;

// ---- Move ordering: the rank of a move, the lowest first

/// Rank points of each legal reply of the opponent: mobility.
pub(crate) const REPLY: u16 = 16;

/// Rank points of each corner among these replies, besides.
pub(crate) const CORNER_REPLY: u16 = 16;

/// Rank points of each empty square beside a disc of the mover: what the opponent may be able to play later, potential
/// mobility.
pub(crate) const OPEN_SQUARE: u16 = 3;

/// Rank points of a move to an X square, diagonal to a corner, which so comes late.
pub(crate) const ON_X_SQUARE: u16 = 8;

/// Rank points of a move that takes no corner.
pub(crate) const OFF_CORNER: u16 = 8;

/// Rank points of a move to a quadrant with an even number of empty squares: parity.
pub(crate) const IN_EVEN_QUADRANT: u16 = 8;

/// Empty squares: up to here the rank leaves out potential mobility, which takes longer than it saves.
pub(crate) const SHORT_RANK_MAX_EMPTIES: u8 = 8;

/// Empty squares: from here on the rank adds the evaluation of the child.
pub(crate) const EVALUATION_MIN_EMPTIES: u8 = 11;

// ---- Evaluation: how well a position stands, in points

/// Points of each legal move: mobility.
pub(crate) const MOVE: u16 = 16;

/// Points of each corner among these moves, besides.
pub(crate) const CORNER_MOVE: u16 = 16;

/// Points of each empty square beside an opposing disc: potential mobility.
pub(crate) const OPEN_TO_MOVER: u16 = 3;

/// Points of each corner that the mover holds.
pub(crate) const CORNER_TAKEN: u16 = 20;

/// Points of each disc that stands along an edge in an unbroken row from a corner of its own, so that it is never
/// flipped.
pub(crate) const STABLE_EDGE_DISC: u16 = 10;

/// Points of each opposing disc on the X square of an empty corner, which may give that corner away.
pub(crate) const OPPOSING_X_SQUARE: u16 = 10;

/// Points of each disc of a finished game: more than any evaluation of a game that goes on brings for one.
pub(crate) const DISC: i16 = 100;

/// Points: a move that is worse than the best so far by this much is evaluated no further.
pub(crate) const MARGIN: i16 = 30;

/// Empty squares of the parent: from here on the evaluation of a child is that after the opponent's best reply, below
/// it that of the child as it stands.
pub(crate) const LOOKAHEAD_MIN_EMPTIES: u8 = 12;

/// Empty squares of the parent: from here on it is that after three plies, by a search over evaluations.
pub(crate) const LOOKAHEAD_THREE_MIN_EMPTIES: u8 = 16;

/// Empty squares of the parent: from here on it is that after four plies.
pub(crate) const LOOKAHEAD_FOUR_MIN_EMPTIES: u8 = 19;

/// Empty squares of the parent: from here on it is that after five plies.
pub(crate) const LOOKAHEAD_FIVE_MIN_EMPTIES: u8 = 21;

/// Moves that are ranked at a node of this search over evaluations; others come last, unranked. Few nodes have more,
/// and a longer list takes longer to make.
pub(crate) const MOST_LOOKED: usize = 16;

// ---- Local hash tables

/// Entries of the local table of a search by one worker without memory of the heap, 24 bytes each: a power of two.
pub(crate) const PLACES: usize = 4096;

/// Bits: the place in a local table is taken from the bits of the 64-bit hash above this one, which depend on all
/// squares.
pub(crate) const SHIFT: u32 = 44;

/// Bits: the hash is folded onto itself shifted by this, so that a place in a small table depends on higher bits too.
pub(crate) const FOLD: u32 = 8;

/// Empty squares: from here on a position belongs to the second local table, so that the many positions of few empty
/// squares do not drive it out.
pub(crate) const SECOND_LOCAL_MIN_EMPTIES: u8 = 9;

/// Empty squares: from here on a position belongs to the transposition table even where there is a second local one.
pub(crate) const TABLE_ALWAYS_MIN_EMPTIES: u8 = 15;

/// Empty squares of the root: from here on a worker makes a local table, which takes time to clear.
pub(crate) const LOCAL_TABLE_ROOT_MIN_EMPTIES: u8 = 10;

/// Empty squares of the root: from here on a worker that searches alone makes a second one. Where others search too,
/// the shared table tells all of them what it would have.
pub(crate) const SECOND_LOCAL_ROOT_MIN_EMPTIES: u8 = 18;

/// The last place of the first local table, by the empty squares of the root: 4,096 or 8,192 entries. More save nodes,
/// and take longer to reach.
pub(crate) fn last_below(empties: u8) -> usize
    ensures { result < 8192 }
{
    match empties {
        0..=15 => 4_095,
        _ => 8_191,
    }
}

/// The last place of the second local table: 65,536, 262,144 or 1,048,576 entries.
pub(crate) fn large_last_below(empties: u8) -> usize
    ensures { result < 1048576 }
{
    match empties {
        0..=19 => 65_535,
        20..=21 => 262_143,
        _ => 1_048_575,
    }
}

// ---- The first guess, a selective search, and the null windows that follow it

/// Empty squares of the root: from here on a selective search gives the first guess. Below it the search starts at 0.
pub(crate) const GUESS_MIN_EMPTIES: u8 = 12;

/// Empty squares, by those of the board after a reply: up to here the selective search goes through all moves. At roots
/// of 22 and 23 a nearer guess saves more than it takes.
pub(crate) fn most_empties_in_full(empties: u8) -> u8 {
    match empties {
        20..=21 => 10,
        _ => 6,
    }
}

/// Moves that it tries of the board after a reply, if at least `MANY_PLIES` plies follow.
pub(crate) const WIDTH_AT_FIRST: usize = 3;

/// Moves that it tries at each further node.
pub(crate) const WIDTH: usize = 2;

/// Plies of the selective search left below a reply: from here on `WIDTH_AT_FIRST` holds.
pub(crate) const MANY_PLIES: u8 = 7;

/// Moves that it ranks at a node; others come last.
pub(crate) const MOST_RANKED: usize = 12;

/// Empty squares: from here on it ranks children by their evaluation.
pub(crate) const GUESS_EVALUATION_MIN_EMPTIES: u8 = 13;

/// Empty squares: at nodes with more, the guess evaluates children as far ahead as at a node of this many, which is a
/// ply. Looks of more plies make it dearer and no nearer.
pub(crate) const GUESS_LOOKAHEAD_MAX_EMPTIES: u8 = 14;

/// Null windows of one guess, at the most.
pub(crate) const GUESS_ROUNDS: u8 = 12;

/// Rounds through the moves of a node of the guess: in the first, moves that another worker is at are deferred.
pub(crate) const GUESS_DEFERRAL_ROUNDS: u8 = 2;

/// Discs that a guess leaves open: it ends where its bounds are no further apart. To close them takes longer than it
/// saves.
pub(crate) const GUESS_CLOSE: i8 = 3;

/// Discs: the first step of a guess away from where it starts, which doubles each time.
pub(crate) const FIRST_GUESS_STEP: i8 = 8;

/// Rounds: how often a first guess that no move reaches is lowered, the first time to the most that the root may still
/// reach.
pub(crate) const FIRST_BOUND_ROUNDS: u8 = 6;

/// Null windows of a root move that may bring nothing new before a worker leaves it to the others. One worker has none.
pub(crate) const MOST_FRUITLESS: u8 = 4;

/// Empty squares: up to here, where the scores of all moves are asked for, the search of a child starts at the score of
/// the sibling before. Beyond it a guess that starts there is nearer.
pub(crate) const SIBLING_START_MAX_EMPTIES: u8 = 13;

/// Discs: the widest step from one null window to the next of a search for a value.
pub(crate) const WIDEST_STEP: i8 = 63;

// ---- Several workers on one tree

/// Rounds through the moves of a node. Until the last one a child that another worker searches is deferred (ABDADA).
pub(crate) const MOVE_ROUNDS: u32 = 3;

/// The number of the last of these rounds, from 0.
pub(crate) const LAST_MOVE_ROUND: u32 = MOVE_ROUNDS - 1;

/// Squares of a kept order: as many as one 64-bit word has room for at six bits each.
pub(crate) const KEPT_MOVES: u32 = 10;
