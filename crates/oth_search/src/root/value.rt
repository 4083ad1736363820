//! The value of a board, where its best moves are not asked for.
ghost use Rattle.std.specs.Prelude.{◌≡◌, IfSome};
ghost use Rattle.oth_rules.specs.Laws.{IsScore};
ghost use Rattle.oth_search.specs.Bounds.Interval.{IsThreshold};

use super::guess::guess;
use super::moves::RootMoves;
use super::root_peers::RootPeers;
use super::settle::{Round, first_threshold, settle};
use crate::bounds::{Cells, Interval, Solved, backed_up_from, greater, lesser};
use crate::tuning::SIBLING_START_MAX_EMPTIES;

/// The board with its exact value, by what is known of it and a search. One of the boards after its moves is searched
/// to its value, and each other until it is known to be no better for the mover. The peers hear of each search of
/// one of them. `sibling`, a board after another move of the same parent, tells where the search starts: siblings often
/// have scores near each other.
pub fn value_of<C: Cells, O: RootPeers<C>>(
    known: &Solved,
    sibling: Option<&Solved>,
    cells: &mut C,
    peers: &mut O,
) -> Solved
    ensures board { result.board ≡ known.now.board }
    ensures scoring { result.scoring ≡ known.now.scoring }
    ensures exact { result.interval.lower ≡ result.interval.upper }
    ensures fixed { C.fixed cells.new ≡ C.fixed cells.old }
{
    let mut moves = RootMoves::of(&known.awake(), &[]);
    let likely = likely_score(known, sibling);
    let mut round = Round::first(first_asked(&mut moves, likely, cells, peers));
    settle(&mut moves, false, &mut round, cells, peers);
    let told = backed_up_from(known.board, 0, &[moves.backed_up()], known.scoring);
    known.joined(&told).exact(cells)
}

// The score of a sibling, as the side sees it that moves first on this board: with its sign turned if the mover must
// pass.
fn likely_score(known: &Solved, sibling: Option<&Solved>) -> Option<i8>
    ensures { IfSome result IsScore }
{
    let score = sibling?.interval.upper;
    Some(if known.board.can_move() {
        score
    } else {
        -score
    })
}

// The first threshold: the sibling's score up to 13 empty squares, beyond that a guess that starts there, and
// `first_threshold` where there is no sibling.
fn first_asked<C: Cells, O: RootPeers<C>>(
    moves: &mut RootMoves,
    likely: Option<i8>,
    cells: &mut C,
    peers: &mut O,
) -> i8
    requires { IfSome likely IsScore }
    ensures threshold { IsThreshold result }
    ensures fixed { C.fixed cells.new ≡ C.fixed cells.old }
{
    let Some(score) = likely else {
        return first_threshold(moves, cells, peers);
    };
    let root = moves.root();
    let likely = lesser(63, -within(root.interval, score));
    if root.board.empties() <= SIBLING_START_MAX_EMPTIES {
        return likely;
    }
    lesser(63, guess(moves, likely, cells, peers))
}

// The score of the interval that is nearest to this one.
fn within(interval: Interval, score: i8) -> i8
    requires { IsScore score }
    ensures { IsScore result }
{
    greater(interval.lower, lesser(score, interval.upper))
}
