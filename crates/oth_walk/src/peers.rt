//! One worker's peers: what it hears from the other workers of a search and tells them, while the root driver settles
//! the root's moves, and while it searches below one of these. A node that another worker is at is deferred, as in
//! ABDADA (Weill, The ABDADA distributed minimax-search algorithm, 1996).
//!
//! The table tells bounds of a board, the floor the best value, the bounds that workers tell each other which moves of
//! the root are settled, and the hints which boards another worker is at and what those seem to have. What this worker
//! finds goes into the table and to these bounds, and raises the floor.
//!
//! The root driver asks them as `RootPeers` (`root_peers`), and the search below a move as `TreePeers` (`tree_peers`).
ghost use Rattle.std.specs.Prelude.{◌≡◌};

mod path_node;
mod root_peers;
mod tree_peers;

use crate::announcing::Announcer;
use crate::hints::HintSeat;
use crate::move_bounds::BoundsSeat;
use crate::root_bound::RootBound;
use crate::shared::{Search, Seats, SharedNodes};
use crate::tuning::{KEPT_ORDER_MIN_EMPTIES, SHARED_GUESS_MIN_EMPTIES, SMALL_NODE_MARGIN};
use arrayvec::ArrayVec;
use oth_rules::{Board, Square};
use oth_search::{Cells, MoveOrder, RootMove, Solved, order};
use path_node::PathNode;
use std::alloc::Global;

/// The other workers of a search as one of them knows them, by the table, the floor and the hints, the items that it
/// announces to the gate, and the searches that it has under way itself.
#[derive(Drop)]
pub(crate) struct Peers<'w, G> {
    shape: SharedNodes,
    pub root_bound: RootBound<'w>,
    pub hints: HintSeat<'w>,
    bounds: BoundsSeat<'w>,
    pub announcer: Announcer<'w>,
    pub gate: &'w G,
    // The root's moves that this worker has settled.
    settled: u64,
    // The board after the root's move that it searches below, and the floor at which that search began.
    child: Board,
    floor_before: i8,
    // The searches under way below that move.
    path: Vec<PathNode>,
}

impl<'w, G> Peers<'w, G> {
    /// The peers of a worker of this search that has no search under way. Their list takes memory as it grows; if there
    /// is none they keep less.
    pub fn of(alloc: Global, search: &Search, seats: Seats<'w>, gate: &'w G) -> Peers<'w, G> {
        let Seats {
            root_bound,
            hints,
            bounds,
            announcer,
        } = seats;
        Peers {
            shape: search.shape,
            root_bound,
            hints,
            bounds,
            announcer,
            gate,
            settled: 0,
            child: Board::default(),
            floor_before: -64,
            path: Vec::new(alloc),
        }
    }

    /// Whether several workers share what they find, by a table.
    pub fn shares(&self) -> bool {
        self.shape.sharing.is_over_table()
    }

    /// Whether the workers make the first guess together.
    pub fn guesses(&self) -> bool {
        self.shares() && self.root_bound.board().empties() >= SHARED_GUESS_MIN_EMPTIES
    }

    /// The worker is about to search the board after this move of the root, or one below it.
    pub fn begin_below(&mut self, root_move: &RootMove) {
        self.child = root_move.child.board;
        self.floor_before = self.root_bound.floor();
        self.announcer.enter(root_move.square);
    }

    /// Tells the others the bounds of the board after this move of the root, and raises the floor by the bound of the
    /// root that the board alone gives.
    pub fn raise_by(&mut self, known: &RootMove) {
        self.bounds.tell(known.square, &known.child);
        let root = self.root_bound.board();
        if let Ok(bound) = Solved::lift(&root, known.square, &known.child) {
            self.root_bound.raise(&bound);
        }
    }

    /// What is known of the board after this move of the root, and what the others told of it.
    pub fn with_told(&mut self, known: &RootMove) -> Solved
        ensures board { result.board ≡ known.now.child.board }
        ensures scoring { result.scoring ≡ known.now.child.scoring }
    {
        match self.bounds.hear(known.square) {
            Some(told) => known.child.joined(&told),
            None => known.child,
        }
    }

    /// Tells the others that a root's move needs no further search, and by which bounds, if those of the board after it
    /// settle it at the floor.
    pub fn note_if_settled(&mut self, known: &RootMove) {
        let floor = self.root_bound.floor();
        if known.child.is_settled(-floor) {
            self.bounds.tell(known.square, &known.child);
            self.settled |= known.square.word();
            self.hints.note_settled(known.square);
        }
    }

    /// Whether bounds settle the root's move: this worker's, or those that another one told. These are heard where a
    /// hint says that they do.
    pub fn is_settled(&mut self, square: Square) -> bool {
        self.settled & square.word() != 0
            || self.hints.seems_settled(square) && self.is_settled_as_told(square)
    }

    // Whether the bounds that were told of the board after the root's move settle it.
    fn is_settled_as_told(&mut self, square: Square) -> bool {
        let floor = self.root_bound.floor();
        match self.bounds.hear(square) {
            Some(told) => told.is_settled(-floor),
            None => false,
        }
    }

    // Whether the move that is searched below needs no further search: where another worker hints so, the table too is
    // asked for bounds that settle it.
    fn is_out<C: Cells>(&mut self, cells: &mut C) -> bool
        ensures fixed { C.fixed cells.new ≡ C.fixed cells.old }
    {
        let square = self.announcer.square();
        if self.is_settled(square) {
            return true;
        }
        if !self.hints.seems_settled(square) {
            return false;
        }
        let floor = self.root_bound.floor();
        let known = Solved::looked_up(&self.child, cells, self.root_bound.scoring());
        known.is_settled(-floor)
    }

    /// How many of the root's moves need no further search.
    pub fn settled(&mut self) -> u64 {
        u64::from((self.settled | self.hints.settled()).count_ones())
    }

    /// Each legal move of the board once, in the order in which they are searched: the order that is kept, if one is.
    pub fn order_of(&mut self, board: &Board) -> ArrayVec<Square, 64> {
        if board.empties() < KEPT_ORDER_MIN_EMPTIES {
            return order(board);
        }
        if let Some(kept) = self.hints.order_of(board) {
            return kept.of_moves(board.moves());
        }
        let squares = order(board);
        self.hints
            .keep_order(board, MoveOrder::of(squares.as_slice()));
        squares
    }

    // How many of the last searches under way are looked up once a board of `empties` empty squares was searched: all
    // of them only where that takes little beside the search.
    fn checked_ancestors(&self, empties: u8) -> usize {
        let fewest = self.shape.fewest;
        if empties < fewest {
            1
        } else if empties < fewest.saturating_add(SMALL_NODE_MARGIN) {
            2
        } else {
            usize::MAX
        }
    }

    // Whether the table decides one of the last `most` searches under way.
    fn is_any_decided<C: Cells>(&self, most: usize, cells: &mut C) -> bool
        ensures fixed { C.fixed cells.new ≡ C.fixed cells.old }
    {
        let scoring = self.root_bound.scoring();
        let path = self.path.as_slice();
        let first = path.len().saturating_sub(most);
        for place in first..path.len() {
            if path[place].is_decided(cells, scoring) {
                return true;
            }
        }
        false
    }
}
