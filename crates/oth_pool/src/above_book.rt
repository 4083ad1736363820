//! Where a search starts if the guess lies above the best that the book knows.
//!
//! A book may have the board after a move that was played, and that move may be far from the best. A search that begins
//! at what it gives finds many better moves one after the other. So a guess is made as if nothing were known, and where
//! it is higher, the moves are asked at it first; of what is known has then only that some moves give no more.
ghost use Rattle.std.specs.Prelude.{◌≡◌, IfSome};
ghost use Rattle.oth_search.specs.Bounds.Interval.{IsThreshold};

use crate::tuning::{HIGHER_BY, HIGHER_MIN_EMPTIES};
use oth_search::{Cells, NoPeers, RootMoves, RootPeers, ask_at, first_threshold};
use oth_table::TableCells;
use oth_walk::{Sharing, worker_cells};
use std::alloc::Global;

// The root's moves with upper bounds only, seen from who moves, and the threshold of the guess.
#[derive(Drop)]
struct Higher {
    moves: RootMoves,
    first: i8,
    ghost threshold: { IsThreshold first },
}

/// Asks the boards after the moves at a guess, where the score seems to be higher than the moves are known to reach,
/// and takes in what that finds. Never inlined, so that its list is not on the stack of other searches.
#[inline(never)]
pub(crate) fn ask_higher<C: Cells, P: RootPeers<C>>(
    moves: &mut RootMoves,
    cells: &mut C,
    peers: &mut P,
)
    ensures root { moves.new ≡ moves.old }
    ensures fixed { C.fixed cells.new ≡ C.fixed cells.old }
{
    if !may_be_higher(moves) {
        return;
    }
    let Some(mut higher) = seems_higher(moves, cells, peers) else {
        return;
    };
    ask_down_to(&mut higher, -moves.best(), cells, peers);
    moves.take_in(higher.moves.as_slice());
}

/// Returns the moves from which several workers begin: these, or where the score seems to be higher than they are known
/// to reach, those of which is known that they give no more.
#[inline(never)]
pub(crate) fn start_of_several<'t>(
    alloc: Global,
    moves: &RootMoves,
    access: &mut Option<TableCells<'t>>,
) -> RootMoves
    ensures { result ≡ moves.now }
{
    if !may_be_higher(moves) {
        return moves.another();
    }
    let empties = moves.root().board.empties();
    let mut cells = worker_cells(alloc, empties, Sharing::of_several(access), access);
    match seems_higher(moves, &mut cells, &mut NoPeers) {
        Some(higher) => higher.moves,
        None => moves.another(),
    }
}

// Whether a guess may pay: the moves are known to reach some score, and enough squares are empty that the guess is a
// small part of the search.
fn may_be_higher(moves: &RootMoves) -> bool {
    moves.root().board.empties() >= HIGHER_MIN_EMPTIES && moves.best() > -64
}

// Where the score seems to be higher than the moves are known to reach, these moves with what is known of the most
// that each gives.
fn seems_higher<C: Cells, P: RootPeers<C>>(
    moves: &RootMoves,
    cells: &mut C,
    peers: &mut P,
) -> Option<Higher>
    ensures root { IfSome result (λ h. h.moves ≡ moves.now) }
    ensures fixed { C.fixed cells.new ≡ C.fixed cells.old }
{
    let mut moves_at_most = moves.without_least();
    let first = first_threshold(&mut moves_at_most, cells, peers);
    if first.saturating_add(HIGHER_BY) >= -moves.best() {
        return None;
    }
    Some(Higher {
        moves: moves_at_most,
        first,
    })
}

// Asks every board after a move at the guess, then 2, 6, 14 .. above it, below `known`.
fn ask_down_to<C: Cells, P: RootPeers<C>>(
    higher: &mut Higher,
    known: i8,
    cells: &mut C,
    peers: &mut P,
)
    ensures root { higher.new.moves ≡ higher.old.moves }
    ensures fixed { C.fixed cells.new ≡ C.fixed cells.old }
{
    for above in [0, 2, 6, 14, 30, 62] {
        let most = threshold_above(higher.first, above);
        if most >= known {
            return;
        }
        for place in 0..higher.moves.len() {
            if ask_at(&mut higher.moves, place, most, cells, peers) {
                return;
            }
        }
    }
}

// The threshold this far above the first one, at most 63.
fn threshold_above(first: i8, above: i8) -> i8
    ensures { IsThreshold result }
{
    let at = first.saturating_add(above);
    if at < -64 {
        -64
    } else if at > 63 {
        63
    } else {
        at
    }
}
