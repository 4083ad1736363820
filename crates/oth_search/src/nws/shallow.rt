//! Null-window searches of boards with few empty squares: odd quadrants first, no rank, no cells.
ghost use Rattle.std.specs.Prelude.{◌≡◌, ℕ, ◌<◌, neg_ℤ, pos, true};
ghost use Rattle.oth_rules.specs.Square.{word_of};
ghost use Rattle.oth_rules.specs.Position.{is_empty};
ghost use Rattle.oth_rules.specs.Move.{is_legal, can_move};
ghost use Rattle.oth_rules.specs.Score.{score_of};
ghost use Rattle.oth_rules.specs.Value.{value};
ghost use Rattle.oth_search.specs.Bounds.Interval.{BoundsAt, IsThreshold};

use super::empties::Empties;
use super::last::nws_last;
use super::node::Node;
use crate::bounds::{preferred, without};
use crate::tuning::LAST_SQUARES_MAX_EMPTIES;
use oth_rules::{Board, Scoring, Twin};

/// Whether the value of the board is above `alpha`: a bound of the value on its side of `alpha`.
pub fn nws(board: Board, alpha: i8, scoring: Scoring) -> i8
    requires { IsThreshold alpha }
    ensures { BoundsAt (value (score_of scoring) board) alpha result }
{
    nws_at(Twin::of(&board), Empties::of(&board), alpha, scoring)
}

/// As `nws`, of a board whose moves are known, where there is one.
pub fn nws_few(node: Node, alpha: i8, scoring: Scoring) -> i8
    requires threshold { IsThreshold alpha }
    requires some { can_move node.board ≡ true }
    ensures { BoundsAt (value (score_of scoring) node.board) alpha result }
{
    let board = &node.board;
    nws_moves(
        Twin::of(board),
        node.moves,
        Empties::of(board),
        alpha,
        scoring,
    )
}

// As `nws`, of a twin whose empty squares are known.
#[cycle(nws)]
fn nws_at(board: Twin, empties: Empties, alpha: i8, scoring: Scoring) -> i8
    requires threshold { IsThreshold alpha }
    requires empties { empties.all ≡ word_of (is_empty board) }
    ensures { BoundsAt (value (score_of scoring) board) alpha result }
{
    if empties.all.count_ones() <= u32::from(LAST_SQUARES_MAX_EMPTIES) {
        if let Some(found) = nws_last(board, empties, alpha, scoring) {
            return found;
        }
    }
    let moves = board.moves();
    if moves != 0 {
        return nws_moves(board, moves, empties, alpha, scoring);
    }
    let passed = board.pass();
    let replies = passed.moves();
    if replies != 0 {
        return -nws_moves(passed, replies, empties, -alpha - 1, scoring);
    }
    board.board().final_score(scoring)
}

// As `nws_at`, where the mover has these moves.
#[cycle(nws)]
fn nws_moves(board: Twin, moves: u64, empties: Empties, alpha: i8, scoring: Scoring) -> i8
    requires threshold { IsThreshold alpha }
    requires some { can_move board ≡ true }
    requires legal { moves ≡ word_of (is_legal board) }
    requires empties { empties.all ≡ word_of (is_empty board) }
    ensures { BoundsAt (value (score_of scoring) board) alpha result }
{
    let mut best = -64;
    let mut rest = moves;
    while rest != 0 {
        let square = preferred(rest, empties.odd);
        rest = without(rest, square);
        let child = board.play_legal(square);
        let score = -nws_at(child, empties.without(square), -alpha - 1, scoring);
        if score > alpha {
            return score;
        }
        if score > best {
            best = score;
        }
    }
    best
}
