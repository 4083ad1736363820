//! The boards one or two plies below a root.
ghost use Rattle.std.specs.Prelude.{◌≡◌, ◌+◌, ◌<◌, ◌≤◌, ◌++◌, option_map, slice_get, length, flat_map};
ghost use Rattle.oth_rules.specs.Position.{empty_count};
ghost use Rattle.oth_rules.specs.Move.{can_move};
ghost use Rattle.oth_pieces.specs.Frontier.{awake, only_passes, item_after, child_of, children, moves_of, one_ply};
ghost use Rattle.oth_pieces.specs.Frontier.{two_plies, frontier, below, board_of, IsPlies};

mod item;

use arrayvec::ArrayVec;
pub use item::Item;
use oth_rules::{Board, Square};
use std::marker::Model;

/// The most boards of a frontier.
pub const MOST_ITEMS: usize = 870;

// No board has more moves.
const MOST_MOVES: usize = 64;

/// The numbered boards one or two plies below a root, seen as the list of its items.
#[derive(Drop)]
pub struct Frontier {
    items: ArrayVec<Item, MOST_ITEMS>,
}

impl Model for Frontier {
    ghost use Rattle.std.specs.Prelude.{List, length, ◌≤◌};
    ghost use Rattle.oth_pieces.specs.declared.frontier.TheConstants.{MOST_ITEMS};
    ghost use Rattle.oth_pieces.specs.declared.frontier.item.Item.{Item};

    ghost Value = { List Item };

    ghost view = { λ f. f.items.items };

    ghost invariant = { λ f. length f.items.items ≤ MOST_ITEMS };
}

impl Frontier {
    /// The boards one or two plies below the board, after a forced pass where there is one. They go by rising squares
    /// of the first move, and then of the second. A board that is over one ply below stands itself; below a root that
    /// is over there are none.
    #[inline(never)]
    pub fn of(board: &Board, plies: u8) -> Frontier
        requires plies { IsPlies plies }
        requires few { empty_count board.now ≤ 30 }
        ensures { result ≡ frontier plies board.now }
    {
        let (root, _) = awake(*board);
        let first = first_ply(root);
        let items = if plies == 1 {
            all_of(first.as_slice())
        } else {
            second_ply(first.as_slice())
        };
        Frontier { items }
    }

    /// How many items there are, at most 870.
    pub fn len(&self) -> u32
        ensures value { result ≡ length self.now }
        ensures most { result ≤ MOST_ITEMS }
    {
        self.items.len() as u32
    }

    /// The board of the item of this number, from 0.
    pub fn item(&self, number: u32) -> Option<Board>
        ensures { result ≡ option_map board_of (slice_get self.now number) }
    {
        let item = self.items.get(number as usize)?;
        Some(item.board)
    }

    /// The item of this number, from 0.
    pub fn entry(&self, number: u32) -> Option<Item>
        ensures { result ≡ slice_get self.now number }
    {
        let item = self.items.get(number as usize)?;
        Some(*item)
    }
}

/// How many items two plies below a root come after the move that leads to this board: one where the game is over then,
/// else one for each move that follows, after a forced pass where there is one.
pub fn count_below(child: &Board) -> u32
    ensures { (parent : Item) → result ≡ length (below (item_after parent child.now)) }
{
    let (board, _) = awake(*child);
    if board.is_over() {
        return 1;
    }
    board.moves().count_ones()
}

/// The board after a forced pass, where there is one, and whether there is.
pub fn awake(board: Board) -> (Board, bool)
    ensures board { result.0 ≡ awake board }
    ensures passed { result.1 ≡ only_passes board }
{
    if board.can_move() {
        return (board, false);
    }
    let passed = board.pass();
    if passed.can_move() {
        (passed, true)
    } else {
        (board, false)
    }
}

// Where the move is legal, adds the item after it.
fn push_child(items: &mut ArrayVec<Item, MOST_ITEMS>, parent: &Item, square: Square)
    requires { length items.old.items + length (child_of parent.now square) ≤ MOST_ITEMS }
    ensures { items.new.items ≡ items.old.items ++ child_of parent.now square }
{
    if let Some(after) = parent.board.play(square) {
        items.push(item_after(parent, after));
    }
}

// The item of a board that the parent leads to; a forced pass is put in.
fn item_after(parent: &Item, after: Board) -> Item
    ensures { result ≡ item_after parent.now after }
{
    let (board, passed) = awake(after);
    Item {
        board,
        square: parent.square,
        same_mover: if passed {
            parent.same_mover
        } else {
            !parent.same_mover
        },
    }
}

// Adds the items one ply below.
fn push_children(items: &mut ArrayVec<Item, MOST_ITEMS>, parent: &Item)
    requires { length items.old.items + length (children parent.now) ≤ MOST_ITEMS }
    ensures { items.new.items ≡ items.old.items ++ children parent.now }
{
    for number in 0..64 {
        push_child(items, parent, Square::numbered(number));
    }
}

// The items one ply below these. One that is over stands itself.
fn second_ply(first: &[Item]) -> ArrayVec<Item, MOST_ITEMS>
    requires { length (flat_map below first.now) ≤ MOST_ITEMS }
    ensures { result.items ≡ flat_map below first.now }
{
    let mut items = ArrayVec::new();
    for item in first {
        push_below(&mut items, item);
    }
    items
}

// The boards after the item's moves, or the item itself where its game is over.
fn push_below(items: &mut ArrayVec<Item, MOST_ITEMS>, item: &Item)
    requires { length items.old.items + length (below item.now) ≤ MOST_ITEMS }
    ensures { items.new.items ≡ items.old.items ++ below item.now }
{
    if item.board.is_over() {
        items.push(*item);
    } else {
        push_children(items, item);
    }
}

// The items one ply below a root that needn't pass.
fn first_ply(root: Board) -> ArrayVec<Item, MOST_MOVES>
    requires { length (moves_of root) ≤ 64 }
    ensures { result.items ≡ moves_of root }
{
    let mut items = ArrayVec::new();
    for number in 0..64 {
        let square = Square::numbered(number);
        let from = Item {
            board: root,
            square,
            same_mover: true,
        };
        push_move(&mut items, &from, square);
    }
    items
}

// Where the root's move is legal, adds the item after it, to a list as short as the root's moves need.
fn push_move(items: &mut ArrayVec<Item, MOST_MOVES>, from: &Item, square: Square)
    requires { length items.old.items + length (child_of from.now square) ≤ 64 }
    ensures { items.new.items ≡ items.old.items ++ child_of from.now square }
{
    if let Some(after) = from.board.play(square) {
        items.push(item_after(from, after));
    }
}

// These items, with room for as many as a frontier has.
fn all_of(first: &[Item]) -> ArrayVec<Item, MOST_ITEMS>
    requires { length first.now ≤ MOST_ITEMS }
    ensures { result.items ≡ first.now }
{
    let mut items = ArrayVec::new();
    let _ = items.try_extend_from_slice(first);
    items
}
