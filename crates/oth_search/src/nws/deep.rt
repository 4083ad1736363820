//! Null-window search with move ordering and a transposition table, of boards with more than a few empty squares.
ghost use Rattle.std.specs.Prelude.{◌≡◌, ℕ, ◌<◌, neg_ℤ, pos, true, IfSome, IfOk, IfErr};
ghost use Rattle.std.specs.List.{All};
ghost use Rattle.oth_rules.specs.Move.{can_move};
ghost use Rattle.oth_rules.specs.Score.{score_of};
ghost use Rattle.oth_rules.specs.Value.{value};
ghost use Rattle.oth_rules.specs.Symmetry.{IsCanonical};
ghost use Rattle.oth_search.specs.Bounds.Interval.{BoundsAt, Encloses, IsThreshold};
ghost use Rattle.oth_search.specs.Ordering.Children.{IsChild};

use super::node::Node;
use super::shallow::{nws, nws_few};
use crate::bounds::{Cells, Entry, Solved, without};
use crate::ordering::{
    Child, KeyedNode, ShortKeys, add_children, add_with_keys, child_by_key, look_at, next_child,
};
use crate::tuning::{
    ETC_MIN_EMPTIES, EVALUATION_MIN_EMPTIES, LEAST_ALPHA_BOUNDED, LOCAL_TABLE_MIN_EMPTIES,
    RANK_MIN_EMPTIES, TABLE_MIN_EMPTIES,
};
use arrayvec::ArrayVec;
use oth_rules::{Board, Scoring};

/// As `nws`, with tables: what `cells` keep is looked up and stored.
pub fn nws_with<C: Cells>(board: Board, alpha: i8, cells: &mut C, scoring: Scoring) -> i8
    requires { IsThreshold alpha }
    ensures value { BoundsAt (value (score_of scoring) board) alpha result }
    ensures fixed { C.fixed cells.new ≡ C.fixed cells.old }
{
    nws_node(Node::of(board), alpha, cells, scoring)
}

/// As `nws_with`, of a board whose moves are known.
#[cycle(deep)]
pub fn nws_node<C: Cells>(node: Node, alpha: i8, cells: &mut C, scoring: Scoring) -> i8
    requires { IsThreshold alpha }
    ensures value { BoundsAt (value (score_of scoring) node.board) alpha result }
    ensures fixed { C.fixed cells.new ≡ C.fixed cells.old }
{
    let board = node.board;
    if board.empties() < LOCAL_TABLE_MIN_EMPTIES {
        return nws(board, alpha, scoring);
    }
    if node.moves != 0 {
        return nws_kept(node, alpha, cells, scoring);
    }
    let passed = Node::of(board.pass());
    if passed.moves != 0 {
        return -nws_kept(passed, -alpha - 1, cells, scoring);
    }
    board.final_score(scoring)
}

// Looks the board up in the table that keeps it. If the entry doesn't decide, searches, and stores what that found.
#[cycle(deep)]
fn nws_kept<C: Cells>(node: Node, alpha: i8, cells: &mut C, scoring: Scoring) -> i8
    requires threshold { IsThreshold alpha }
    requires some { can_move node.board ≡ true }
    ensures value { BoundsAt (value (score_of scoring) node.board) alpha result }
    ensures fixed { C.fixed cells.new ≡ C.fixed cells.old }
{
    let board = node.board;
    if is_remembered(&board, cells) {
        return nws_remembered(node, alpha, cells, scoring);
    }
    let known = by_table(&board.canonical().0, cells, scoring);
    if known.interval.lower > alpha {
        return known.interval.lower;
    }
    if known.interval.upper <= alpha {
        return known.interval.upper;
    }
    let found = nws_ordered(node, alpha, cells, scoring);
    cells.put(&Entry::canonical(&known.narrowed(alpha, found)));
    found
}

// As `nws_kept`, of a board that the local table keeps.
#[cycle(deep)]
fn nws_remembered<C: Cells>(node: Node, alpha: i8, cells: &mut C, scoring: Scoring) -> i8
    requires threshold { IsThreshold alpha }
    requires some { can_move node.board ≡ true }
    ensures value { BoundsAt (value (score_of scoring) node.board) alpha result }
    ensures fixed { C.fixed cells.new ≡ C.fixed cells.old }
{
    let recalled = by_local_table(&node.board, cells, scoring);
    if recalled.interval.lower > alpha {
        return recalled.interval.lower;
    }
    if recalled.interval.upper <= alpha {
        return recalled.interval.upper;
    }
    let found = nws_ordered(node, alpha, cells, scoring);
    cells.store_local(&recalled.narrowed(alpha, found));
    found
}

// Searches the children: by parity alone up to 5 empty squares, else by rank, unless a stability cutoff comes first.
// Inline: so a node takes one call less.
#[inline(always)]
#[cycle(deep)]
fn nws_ordered<C: Cells>(node: Node, alpha: i8, cells: &mut C, scoring: Scoring) -> i8
    requires threshold { IsThreshold alpha }
    requires some { can_move node.board ≡ true }
    ensures value { BoundsAt (value (score_of scoring) node.board) alpha result }
    ensures fixed { C.fixed cells.new ≡ C.fixed cells.old }
{
    let empties = node.board.empties();
    if empties < RANK_MIN_EMPTIES {
        return nws_few(node, alpha, scoring);
    }
    if let Some(most) = most_at(&node.board, alpha, scoring) {
        return most;
    }
    if empties < ETC_MIN_EMPTIES {
        return nws_short(node, alpha, cells, scoring);
    }
    if empties < EVALUATION_MIN_EMPTIES {
        return nws_middle(node, alpha, cells, scoring);
    }
    nws_long(node, alpha, cells, scoring)
}

// Searches a board of 6 or 7 empty squares, with a list of 7 children. Each length of the list has a function of its
// own: the blank places of a long one take time to fill.
#[inline(never)]
#[cycle(deep)]
fn nws_short<C: Cells>(node: Node, alpha: i8, cells: &mut C, scoring: Scoring) -> i8
    requires threshold { IsThreshold alpha }
    requires some { can_move node.board ≡ true }
    ensures value { BoundsAt (value (score_of scoring) node.board) alpha result }
    ensures fixed { C.fixed cells.new ≡ C.fixed cells.old }
{
    let mut list: ArrayVec<Child, 7> = ArrayVec::new();
    let mut keyed = KeyedNode {
        node,
        keys: ShortKeys::none(),
    };
    add_with_keys(&node, &mut list, &mut keyed.keys);
    nws_by_keys(&mut keyed, list.as_slice(), alpha, cells, scoring)
}

// Searches a board of 8 to 10 empty squares, with a list of 10 children. First looks the children up (ETC), unless each
// of them would have to be made canonical for that.
#[inline(never)]
#[cycle(deep)]
fn nws_middle<C: Cells>(node: Node, alpha: i8, cells: &mut C, scoring: Scoring) -> i8
    requires threshold { IsThreshold alpha }
    requires some { can_move node.board ≡ true }
    ensures value { BoundsAt (value (score_of scoring) node.board) alpha result }
    ensures fixed { C.fixed cells.new ≡ C.fixed cells.old }
{
    let mut list: ArrayVec<Child, 10> = ArrayVec::new();
    let mut keyed = KeyedNode {
        node,
        keys: ShortKeys::none(),
    };
    add_with_keys(&node, &mut list, &mut keyed.keys);
    if node.board.empties() <= TABLE_MIN_EMPTIES || is_remembered(&node.board, cells) {
        if let Some(found) = bounded_by_child(&node.board, list.as_slice(), alpha, cells, scoring) {
            return found;
        }
    }
    nws_by_keys(&mut keyed, list.as_slice(), alpha, cells, scoring)
}

// Searches the children of the list, that of the least short key first, and then those that had no room there. Inline,
// so that the compiler knows the length of the list.
#[inline(always)]
#[cycle(deep)]
fn nws_by_keys<C: Cells>(
    keyed: &mut KeyedNode,
    children: &[Child],
    alpha: i8,
    cells: &mut C,
    scoring: Scoring,
) -> i8
    requires threshold { IsThreshold alpha }
    requires some { can_move keyed.old.node.board ≡ true }
    requires children { All (IsChild keyed.old.node.board) children.now }
    ensures value { BoundsAt (value (score_of scoring) keyed.old.node.board) alpha result }
    ensures fixed { C.fixed cells.new ≡ C.fixed cells.old }
{
    let parent = keyed.node;
    let mut best = -64;
    let mut left = parent.moves;
    while left != 0 {
        let child = child_by_key(&parent.board, children, &keyed.keys, left);
        keyed.keys.cross_out();
        left = without(left, child.square());
        let score = -nws_node(child.node(), -alpha - 1, cells, scoring);
        if score > alpha {
            return score;
        }
        keyed.keys.compare();
        if score > best {
            best = score;
        }
    }
    best
}

// Searches a board of 11 and more empty squares, with a list of 32 children. First looks the children up (ETC), then
// ranks them by their evaluations too.
#[inline(never)]
#[cycle(deep)]
fn nws_long<C: Cells>(node: Node, alpha: i8, cells: &mut C, scoring: Scoring) -> i8
    requires threshold { IsThreshold alpha }
    requires some { can_move node.board ≡ true }
    ensures value { BoundsAt (value (score_of scoring) node.board) alpha result }
    ensures fixed { C.fixed cells.new ≡ C.fixed cells.old }
{
    let mut list: ArrayVec<Child, 32> = ArrayVec::new();
    add_children(&node, &mut list);
    if let Some(found) = bounded_by_child(&node.board, list.as_slice(), alpha, cells, scoring) {
        return found;
    }
    look_at(list.as_mut_slice(), node.board.empties());
    nws_children(node, list.as_mut_slice(), alpha, cells, scoring)
}

// Searches the children of the list, the best-ranked first, and then those that had no room there. Inline, so that the
// compiler knows the length of the list.
#[inline(always)]
#[cycle(deep)]
fn nws_children<C: Cells>(
    node: Node,
    children: &mut [Child],
    alpha: i8,
    cells: &mut C,
    scoring: Scoring,
) -> i8
    requires threshold { IsThreshold alpha }
    requires some { can_move node.board ≡ true }
    requires children { All (IsChild node.board) children.old }
    ensures value { BoundsAt (value (score_of scoring) node.board) alpha result }
    ensures fixed { C.fixed cells.new ≡ C.fixed cells.old }
{
    let mut best = -64;
    let mut left = node.moves;
    while left != 0 {
        let child = next_child(&node.board, children, left);
        left = without(left, child.square());
        let score = -nws_node(child.node(), -alpha - 1, cells, scoring);
        if score > alpha {
            return score;
        }
        if score > best {
            best = score;
        }
    }
    best
}

/// Stability cutoff: the upper bound that the opponent's stable discs leave to the mover, if it is at most `alpha`.
pub fn most_at(board: &Board, alpha: i8, scoring: Scoring) -> Option<i8>
    ensures { IfSome result (BoundsAt (value (score_of scoring) board.now) alpha) }
{
    if alpha < LEAST_ALPHA_BOUNDED {
        return None;
    }
    let discs = board.opp().count_ones() as i8;
    if 64 - discs - discs > alpha {
        return None;
    }
    let most = board.most_by_stable_discs();
    if most <= alpha { Some(most) } else { None }
}

/// Enhanced transposition cutoff: a bound above `alpha`, if what a table has of a child gives one. Children whose mover
/// has no move are not looked up.
pub fn bounded_by_child<C: Cells>(
    parent: &Board,
    children: &[Child],
    alpha: i8,
    cells: &mut C,
    scoring: Scoring,
) -> Option<i8>
    requires { All (IsChild parent.now) children.now }
    ensures value { IfSome result (BoundsAt (value (score_of scoring) parent.now) alpha) }
    ensures fixed { C.fixed cells.new ≡ C.fixed cells.old }
{
    for child in children {
        if child.moves != 0 {
            let told = by_either_table(&child.board, cells, scoring);
            let score = -told.interval.upper;
            if score > alpha {
                return Some(score);
            }
        }
    }
    None
}

// Whether the board goes to the local table, and not to the transposition table.
fn is_remembered<C: Cells>(board: &Board, cells: &C) -> bool {
    let empties = board.empties();
    empties < TABLE_MIN_EMPTIES || cells.keeps_local(empties)
}

// The bounds of the board's value by the table that keeps it: by the local one, or by the entry of its canonical image
// in the transposition table.
fn by_either_table<C: Cells>(board: &Board, cells: &mut C, scoring: Scoring) -> Solved
    ensures value { Encloses result.interval.lower result.interval.upper (value (score_of scoring) board.now) }
    ensures fixed { C.fixed cells.new ≡ C.fixed cells.old }
{
    if is_remembered(board, cells) {
        return by_local_table(board, cells, scoring);
    }
    by_table(&board.canonical().0, cells, scoring)
}

/// The bounds that the transposition table has of a canonical board: all scores if it has none.
pub fn by_table<C: Cells>(board: &Board, cells: &mut C, scoring: Scoring) -> Solved
    requires { IsCanonical board.now }
    ensures board { result.board ≡ board.now }
    ensures scoring { result.scoring ≡ scoring }
    ensures fixed { C.fixed cells.new ≡ C.fixed cells.old }
{
    match cells.look(board, scoring) {
        Some(entry) => entry.solved(),
        None => Solved::unknown(*board, scoring),
    }
}

// The bounds that the local table has of a board: all scores if it has none.
fn by_local_table<C: Cells>(board: &Board, cells: &mut C, scoring: Scoring) -> Solved
    ensures board { result.board ≡ board.now }
    ensures scoring { result.scoring ≡ scoring }
    ensures fixed { C.fixed cells.new ≡ C.fixed cells.old }
{
    match cells.probe_local(board, scoring) {
        Some(solved) => solved,
        None => Solved::unknown(*board, scoring),
    }
}
