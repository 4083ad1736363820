//! What all workers of a search have in common.
ghost use Rattle.std.specs.Prelude.{◌≡◌};

use crate::announcing::Announcer;
use crate::hints::HintSeat;
use crate::move_bounds::BoundsSeat;
use crate::root_bound::RootBound;
use crate::tuning::{SHARED_MIN_CELLS, shared_empties};
use oth_pieces::Frontier;
use oth_rules::Scoring;
use oth_search::RootMoves;
use oth_table::TableCells;

/// The search of one board: its scoring, its moves in the order in which they are searched, its frontier, and how
/// workers share it.
#[derive(Clone, Copy)]
pub struct Search<'s> {
    pub scoring: Scoring,
    pub moves: &'s RootMoves,
    pub frontier: &'s Frontier,
    pub shape: SharedNodes,
}

impl<'s> Search<'s> {
    /// The search of the root of these moves, which has this frontier, by workers that share it so.
    pub fn of(moves: &'s RootMoves, frontier: &'s Frontier, sharing: Sharing) -> Search<'s>
        ensures scoring { result.scoring ≡ moves.now.scoring }
        ensures moves { result.moves.now ≡ moves.now }
        ensures frontier { result.frontier.now ≡ frontier.now }
        ensures sharing { result.shape.sharing ≡ sharing }
    {
        let root = moves.root();
        Search {
            scoring: root.scoring,
            moves,
            frontier,
            shape: SharedNodes::of(root.board.empties(), sharing),
        }
    }
}

/// One worker's access to what all workers share besides the table: the floor, the hints, the bounds of the
/// root's moves, and which items the gate has heard of.
#[derive(Drop)]
pub struct Seats<'w> {
    pub root_bound: RootBound<'w>,
    pub hints: HintSeat<'w>,
    pub bounds: BoundsSeat<'w>,
    pub announcer: Announcer<'w>,
}

/// How many workers search, and how one learns what another found.
#[derive(Clone, Copy)]
pub enum Sharing {
    /// One worker, from whom nobody learns.
    Alone,
    /// Several workers without a table, or over a small one: each searches whole moves of the root, and learns from the
    /// others its floor and the bounds of the root's moves.
    Apart,
    /// Several workers over one table.
    OverTable,
}

impl Sharing {
    /// The sharing of several workers over this table, or without one. From a table that is too small to keep what they
    /// find they learn nothing, as without one.
    pub fn of_several<'t>(table: &Option<TableCells<'t>>) -> Sharing {
        match table {
            Some(cells) if cells.count() >= SHARED_MIN_CELLS => Sharing::OverTable,
            _ => Sharing::Apart,
        }
    }

    /// Whether each worker learns what the others find, by a table.
    pub fn is_over_table(self) -> bool {
        matches!(self, Sharing::OverTable)
    }
}

/// Which nodes workers share, by their empty squares, and how.
#[derive(Clone, Copy)]
pub struct SharedNodes {
    /// Nodes of fewer empty squares are searched to the end by one worker each.
    pub fewest: u8,
    /// At nodes of more empty squares workers search more of the first moves together, before any is deferred: later
    /// ones that are searched in vain cost most there.
    pub dealt: u8,
    pub sharing: Sharing,
}

impl SharedNodes {
    /// The shape of a search below a root of `empties` empty squares. The boards after its moves are shared however few
    /// are empty there, so that each board after a reply is searched by itself.
    pub fn of(empties: u8, sharing: Sharing) -> SharedNodes
        ensures { result.sharing ≡ sharing }
    {
        let (fewest, dealt) = shared_empties(empties);
        SharedNodes {
            fewest: fewest.min(empties.saturating_sub(1)),
            dealt,
            sharing,
        }
    }
}
