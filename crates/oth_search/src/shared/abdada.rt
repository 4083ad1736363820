//! The shared search: null windows over a tree that several workers search, with the hooks of `TreePeers` at each
//! node. A child that another worker is at is deferred, as in ABDADA (J.-C. Weill, The ABDADA distributed minimax
//! search algorithm, 1996), and a search that is of no more use is given up.
ghost use Rattle.std.specs.Prelude.{◌≡◌, pos, negsuc, ◌≤ℤ◌, true, false};
ghost use Rattle.oth_rules.specs.Move.{can_move, after};
ghost use Rattle.oth_search.specs.Bounds.Squares.{In};

use super::tree_peers::TreePeers;
use crate::bounds::{BackedUp, Cells, Entry, Interval, NullWindow, Solved, first, holds, without};
use crate::root::MOST_EMPTIES;
use crate::tuning::{LAST_MOVE_ROUND, MOVE_ROUNDS};
use oth_rules::{Board, Square};

impl Solved {
    /// The board with closer bounds, by a shared search of its moves, which takes no memory. They decide the window
    /// unless the search is given up.
    pub fn narrowed_by_abdada<C: Cells, H: TreePeers<C>>(
        &self,
        window: NullWindow,
        cells: &mut C,
        peers: &mut H,
    ) -> Solved
        ensures board { result.board ≡ self.now.board }
        ensures scoring { result.scoring ≡ self.now.scoring }
        ensures lower { self.now.interval.lower ≤ℤ result.interval.lower }
        ensures upper { result.interval.upper ≤ℤ self.now.interval.upper }
        ensures fixed { C.fixed cells.new ≡ C.fixed cells.old }
    {
        if window.is_decided(self.interval) {
            return *self;
        }
        let unknown = Solved::unknown(self.board, self.scoring);
        self.joined(&abdada(&unknown, window, MOST_EMPTIES, cells, peers))
    }
}

// Bounds of the board's value, by a shared search at most `plies` plies deep. They decide the window as
// `narrowed_by_abdada` says.
#[cycle(abdada)]
fn abdada<C: Cells, H: TreePeers<C>>(
    asked: &Solved,
    window: NullWindow,
    plies: u8,
    cells: &mut C,
    peers: &mut H,
) -> Solved
    ensures board { result.board ≡ asked.now.board }
    ensures scoring { result.scoring ≡ asked.now.scoring }
    ensures fixed { C.fixed cells.new ≡ C.fixed cells.old }
{
    let board = asked.board;
    if plies == 0 || board.empties() < peers.fewest() || board.is_over() {
        return window.search(&board, cells, asked.scoring);
    }
    if !board.can_move() {
        let after = Solved::unknown(board.pass(), asked.scoring);
        return abdada(&after, window.turned(), plies - 1, cells, peers).before_pass(&board);
    }
    let known = Solved::looked_up(&board, cells, asked.scoring);
    if window.is_decided(known.interval) {
        return known;
    }
    let depth = peers.enter(&board, window);
    let found = abdada_moves(asked, window, plies - 1, cells, peers);
    peers.leave(depth);
    if window.is_decided(found.interval) {
        return found;
    }
    found.joined(&Solved::looked_up(&board, cells, asked.scoring))
}

// A board while its moves are searched.
#[derive(Drop)]
struct OpenNode {
    window: NullWindow,
    // How many more moves are searched even if another worker is at them, and whether later ones may be deferred.
    undeferred: usize,
    defers: bool,
    // What the moves searched so far tell, and the first of the best among them.
    searched: BackedUp,
    best: Option<Square>,
}

impl OpenNode {
    // Whether the search of this child may be deferred.
    fn may_defer(&self, child: &Board, fewest: u8) -> bool {
        self.defers && (child.empties() < fewest || self.undeferred == 0)
    }

    // Takes in the bounds of the board after a move.
    fn take(&mut self, square: Square, reply: &Solved)
        requires left { In self.old.searched.left square }
        requires board { reply.now.board ≡ after self.old.searched.board square }
        requires scoring { reply.now.scoring ≡ self.old.searched.scoring }
        ensures board { self.new.searched.board ≡ self.old.searched.board }
        ensures scoring { self.new.searched.scoring ≡ self.old.searched.scoring }
    {
        if self.best.is_none() || -upper_of(reply) > self.searched.lower {
            self.best = Some(square);
        }
        self.undeferred = self.undeferred.saturating_sub(1);
        self.searched = self.searched.with(square, reply);
    }
}

// Bounds of the board's value by its moves, each of which is searched at most `plies` plies deep.
#[cycle(abdada)]
fn abdada_moves<C: Cells, H: TreePeers<C>>(
    asked: &Solved,
    window: NullWindow,
    plies: u8,
    cells: &mut C,
    peers: &mut H,
) -> Solved
    requires { can_move asked.now.board ≡ true }
    ensures board { result.board ≡ asked.now.board }
    ensures scoring { result.scoring ≡ asked.now.scoring }
    ensures fixed { C.fixed cells.new ≡ C.fixed cells.old }
{
    if let Some(found) = decided_by_child(asked, window, cells) {
        return asked.joined(&found);
    }
    let squares = peers.kept_order(&asked.board);
    let mut node = OpenNode {
        window,
        undeferred: peers.undeferred(asked.board.empties()),
        defers: true,
        searched: BackedUp::of(asked.board, asked.scoring),
        best: None,
    };
    for round in 0..MOVE_ROUNDS {
        node.defers = round < LAST_MOVE_ROUND;
        for square in squares.as_slice() {
            if let Some(found) = visit(&mut node, *square, plies, cells, peers) {
                return asked.joined(&found);
            }
        }
    }
    let solved = node.searched.solved();
    put(&solved, cells);
    if let Some(best) = node.best {
        if solved.interval.is_exact() {
            peers.prefer(&solved.board, best);
        }
    }
    solved
}

// Enhanced transposition cutoff: the bound of the board that a child's entry gives, if that decides the window.
fn decided_by_child<C: Cells>(asked: &Solved, window: NullWindow, cells: &mut C) -> Option<Solved>
    ensures fixed { C.fixed cells.new ≡ C.fixed cells.old }
{
    let mut rest = asked.board.moves();
    while rest != 0 {
        let square = first(rest);
        rest = without(rest, square);
        let child = asked.board.play(square)?;
        let reply = Solved::looked_up(&child, cells, asked.scoring);
        if window.is_reached(-upper_of(&reply)) {
            return Some(lifted(&asked.board, square, &reply, cells));
        }
    }
    None
}

// Searches one move, unless it is deferred. Returns bounds of the board if no further move is to be searched: after a
// cutoff, or all scores if the search is given up.
#[cycle(abdada)]
fn visit<C: Cells, H: TreePeers<C>>(
    node: &mut OpenNode,
    square: Square,
    plies: u8,
    cells: &mut C,
    peers: &mut H,
) -> Option<Solved>
    ensures board { node.new.searched.board ≡ node.old.searched.board }
    ensures scoring { node.new.searched.scoring ≡ node.old.searched.scoring }
    ensures fixed { C.fixed cells.new ≡ C.fixed cells.old }
{
    if !holds(node.searched.left, square) {
        return None;
    }
    let BackedUp { board, scoring, .. } = node.searched;
    let child = board.play_legal(square);
    if node.may_defer(&child, peers.fewest()) && peers.is_deferred(&child) {
        return None;
    }
    peers.begin(&child, cells);
    let asked = Solved::unknown(child, scoring);
    let solved = abdada(&asked, node.window.turned(), plies, cells, peers);
    peers.end(&solved);
    if node.window.is_reached(-upper_of(&solved)) {
        peers.prefer(&board, square);
        return Some(lifted(&board, square, &solved, cells));
    }
    node.take(square, &solved);
    if peers.gives_up(&child, cells) {
        return Some(Solved::unknown(board, scoring));
    }
    None
}

// The upper bound, with its range.
fn upper_of(solved: &Solved) -> i8
    ensures low { negsuc 63 ≤ℤ result }
    ensures high { result ≤ℤ pos 64 }
{
    solved.interval.upper
}

// The bound of the board that a child's bounds give, which it stores in the cells.
fn lifted<C: Cells>(board: &Board, square: Square, reply: &Solved, cells: &mut C) -> Solved
    ensures fixed { C.fixed cells.new ≡ C.fixed cells.old }
{
    match Solved::lift(board, square, reply) {
        Ok(bound) => {
            put(&bound, cells);
            bound
        }
        Err(_) => Solved::unknown(*board, reply.scoring),
    }
}

/// Stores these bounds in the cells, unless they are all scores, or the cells have no table.
pub fn put<C: Cells>(solved: &Solved, cells: &mut C)
    ensures fixed { C.fixed cells.new ≡ C.fixed cells.old }
{
    if solved.interval != Interval::all() && cells.has_table() {
        cells.put(&Entry::of(solved));
    }
}
