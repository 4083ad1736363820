//! The bucket of a board, two cells, and the replacement rule: which of them takes a store.
ghost use Rattle.std.specs.Prelude.{◌≡◌, ◌<◌};
ghost use Rattle.oth_rules.specs.Symmetry.{IsCanonical};
ghost use Rattle.oth_table.specs.Choices.{place_of, second_of, is_whole_of, entry_in, is_better};
ghost use Rattle.oth_table.specs.Choices.{picks_second, picked_of};
ghost use Rattle.oth_table.specs.Sizes.{IsSize};

use crate::table::Look;
use oth_rules::Board;
use oth_search::{Entry, board_hash};

/// The first cell of a canonical board in a table of `cells` cells, below `cells`. `cells` is 1, 2, 4 .. 262,144.
/// It is the number of the highest `k` bits, for `2^k` cells, of `own * 9e3779b97f4a7c15 +
/// opposing * c2b2ae3d27d4eb4f` modulo 2^64, the factors in hexadecimal.
pub fn place(board: &Board, cells: u32) -> u32
    requires canonical { IsCanonical board.now }
    requires cells { IsSize cells }
    ensures place { result ≡ place_of board.now cells }
    ensures inside { result < cells }
{
    ((u128::from(board_hash(board)) * u128::from(cells)) >> 64) as u32
}

/// The second cell of a canonical board, below `cells`: its place with the lowest bit changed, or the place itself
/// in a table of one cell. `cells` is 1, 2, 4 .. 262,144.
pub fn second(board: &Board, cells: u32) -> u32
    requires canonical { IsCanonical board.now }
    requires cells { IsSize cells }
    ensures place { result ≡ second_of board.now cells }
    ensures inside { result < cells }
{
    let first = place(board, cells);
    if cells == 1 {
        first
    } else if first % 2 == 0 {
        first + 1
    } else {
        first - 1
    }
}

/// Whether a store of the board goes to the second cell, by what looks found in both. The first rule that fits
/// says it: a cell that holds the board, the first cell before the second; an empty cell, the first before the
/// second; of two entries the one with more discs, the first at a tie; an entry before a busy cell; the first of
/// two busy cells.
pub fn pick(first: &Look, second: &Look, board: &Board) -> bool
    ensures { result ≡ picks_second first.now second.now board.now }
{
    if is_whole_of(first, board) {
        false
    } else if is_whole_of(second, board) {
        true
    } else {
        is_better(first, second)
    }
}

/// The cell that takes a store of the board, below `cells`.
pub(crate) fn picked(first: &Look, other: &Look, board: &Board, cells: u32) -> u32
    requires canonical { IsCanonical board.now }
    requires cells { IsSize cells }
    ensures cell { result ≡ picked_of cells first.now other.now board.now }
    ensures inside { result < cells }
{
    if pick(first, other, board) {
        second(board, cells)
    } else {
        place(board, cells)
    }
}

/// The entry of the board, if it was found.
pub(crate) fn entry_in(found: &Look, board: &Board) -> Option<Entry>
    ensures { result ≡ entry_in found.now board.now }
{
    match found {
        Look::Whole(entry) if is_whole_of(found, board) => Some(*entry),
        _ => None,
    }
}

// Whether an entry of the board was found.
fn is_whole_of(found: &Look, board: &Board) -> bool
    ensures { result ≡ is_whole_of found.now board.now }
{
    match found {
        Look::Whole(entry) => {
            let kept = entry.board();
            kept.own() == board.own() && kept.opp() == board.opp()
        }
        _ => false,
    }
}

// Whether the second cell is the better one for an entry of another board.
fn is_better(first: &Look, second: &Look) -> bool
    ensures { result ≡ is_better first.now second.now }
{
    match (first, second) {
        (Look::Empty, _) => false,
        (_, Look::Empty) => true,
        (Look::Whole(old), Look::Whole(other)) => other.board().empties() < old.board().empties(),
        (Look::Busy, Look::Whole(_)) => true,
        (_, Look::Busy) => false,
    }
}
