//! Searches of boards with at most four empty squares, square by square.
ghost use Rattle.std.specs.Prelude.{◌≡◌, ◌≢◌, ◌<◌, ◌%◌, ◌/◌, ◌-ℤ◌, ℕ, pos, neg_ℤ, false, List, [], ◌∷◌, IfSome};
ghost use Rattle.oth_rules.specs.Square.{word_of};
ghost use Rattle.oth_rules.specs.Position.{is_empty};
ghost use Rattle.oth_rules.specs.Move.{can_move};
ghost use Rattle.oth_rules.specs.Score.{score_of};
ghost use Rattle.oth_rules.specs.Value.{value};
ghost use Rattle.oth_search.specs.Bounds.Interval.{BoundsAt, IsThreshold};
ghost use Rattle.oth_search.specs.Nws.Lasts.{Leaves, GivesAt, MovesAt};

use super::empties::Empties;
use super::quadrant::share_quadrant;
use crate::bounds::{greater, preferred, without};
use oth_rules::{Board, Scoring, Square, Twin};

// Less than each score: there is no move.
const NO_MOVE: i8 = -65;

// Three squares, in the order in which they are tried.
#[derive(Clone, Copy)]
struct Three {
    a: Square,
    b: Square,
    c: Square,
}

// Four squares, in the order in which they are tried.
#[derive(Clone, Copy)]
struct Four {
    a: Square,
    b: Square,
    c: Square,
    d: Square,
}

/// As `nws`, of a board with at most four empty squares, and `None` if it has more. Squares of odd quadrants are tried
/// first.
pub fn nws_last(board: Twin, empties: Empties, alpha: i8, scoring: Scoring) -> Option<i8>
    requires threshold { IsThreshold alpha }
    requires empties { empties.all ≡ word_of (is_empty board) }
    ensures { IfSome result (λ r. BoundsAt (value (score_of scoring) board) alpha r) }
{
    let Empties { all: rest, odd } = empties;
    if rest == 0 {
        return Some(board.board().final_score(scoring));
    }
    let a = preferred(rest, odd);
    let rest = without(rest, a);
    if rest == 0 {
        return Some(last_one(board.board(), a, scoring));
    }
    let b = preferred(rest, odd);
    let rest = without(rest, b);
    if rest == 0 {
        return Some(last_two(board, alpha, a, b, scoring));
    }
    let c = preferred(rest, odd);
    let rest = without(rest, c);
    if rest == 0 {
        return Some(last_three(board, alpha, a, b, c, scoring));
    }
    let d = preferred(rest, odd);
    if without(rest, d) == 0 {
        return Some(last_four(board, alpha, &Four { a, b, c, d }, scoring));
    }
    None
}

// The value of a board with one empty square.
#[inline(always)]
fn last_one(board: Board, a: Square, scoring: Scoring) -> i8
    requires { Leaves board (a ∷ []) }
    ensures { result ≡ value (score_of scoring) board }
{
    let flips = board.last_flips(a);
    if flips == 0 {
        return board.final_score(scoring);
    }
    let half = board.own().count_ones() as i32 + last_gain(flips);
    (half + half) as i8
}

// What is added to the mover's discs for half of the score, by the discs that each side flips on the only empty square,
// the mover's in the low byte; one side flips some. The mover moves there if it can. Both scorings give this score.
#[inline(always)]
fn last_gain(flips: u16) -> i32
    ensures mover { flips % 256 ≢ 0 → result ≡ (pos (flips % 256) -ℤ pos 31) }
    ensures other { flips % 256 ≡ 0 → result ≡ (neg_ℤ (pos (flips / 256)) -ℤ pos 32) }
{
    let mover = i32::from(flips % 256);
    let other = i32::from(flips / 256);
    if mover != 0 { mover - 31 } else { -other - 32 }
}

// A bound of the value of a board with these two empty squares, on its side of `alpha`. Inline, since most of the time
// is spent here. The pass is kept out of line: with it this would be too long to stand inline.
#[inline(always)]
fn last_two(board: Twin, alpha: i8, a: Square, b: Square, scoring: Scoring) -> i8
    requires threshold { IsThreshold alpha }
    requires last { Leaves board (a ∷ b ∷ []) }
    ensures { BoundsAt (value (score_of scoring) board) alpha result }
{
    let found = moves_two(board, alpha, a, b, scoring);
    if found != NO_MOVE {
        return found;
    }
    passed_two(board, alpha, a, b, scoring)
}

// As `last_two`, where the mover has no move.
#[inline(never)]
fn passed_two(board: Twin, alpha: i8, a: Square, b: Square, scoring: Scoring) -> i8
    requires threshold { IsThreshold alpha }
    requires last { Leaves board (a ∷ b ∷ []) }
    requires none { can_move board ≡ false }
    ensures { BoundsAt (value (score_of scoring) board) alpha result }
{
    let passed = board.pass();
    let found = moves_two(passed, -alpha - 1, a, b, scoring);
    if found != NO_MOVE {
        return -found;
    }
    board.board().final_score(scoring)
}

// The score of the best move to these squares, as a bound on its side of `alpha`; `NO_MOVE` if none is legal.
#[inline(always)]
fn moves_two(board: Twin, alpha: i8, a: Square, b: Square, scoring: Scoring) -> i8
    requires threshold { IsThreshold alpha }
    requires last { Leaves board (a ∷ b ∷ []) }
    ensures { MovesAt (score_of scoring) board alpha result }
{
    let best = reply_one(board, alpha, a, b, scoring);
    if best > alpha {
        return best;
    }
    greater(best, reply_one(board, alpha, b, a, scoring))
}

// The score of a move to `square`, after which `a` alone is empty; `NO_MOVE` if it is illegal.
#[inline(always)]
fn reply_one(board: Twin, alpha: i8, square: Square, a: Square, scoring: Scoring) -> i8
    requires threshold { IsThreshold alpha }
    requires last { Leaves board (square ∷ a ∷ []) }
    ensures { GivesAt (score_of scoring) board square alpha result }
{
    let Some(flips) = board.legal_flips(square) else {
        return NO_MOVE;
    };
    -last_one(board.play_flipped(square, flips).board(), a, scoring)
}

// As `last_two`, of three empty squares.
fn last_three(board: Twin, alpha: i8, a: Square, b: Square, c: Square, scoring: Scoring) -> i8
    requires threshold { IsThreshold alpha }
    requires last { Leaves board (a ∷ b ∷ c ∷ []) }
    ensures { BoundsAt (value (score_of scoring) board) alpha result }
{
    let found = moves_three(board, alpha, a, b, c, scoring);
    if found != NO_MOVE {
        return found;
    }
    let passed = board.pass();
    let found = moves_three(passed, -alpha - 1, a, b, c, scoring);
    if found != NO_MOVE {
        return -found;
    }
    board.board().final_score(scoring)
}

// As `last_three`, but a square that is alone in its quadrant is tried first. Who moves there moves last there.
#[inline(always)]
fn last_three_by_quadrants(board: Twin, alpha: i8, squares: Three, scoring: Scoring) -> i8
    requires threshold { IsThreshold alpha }
    requires last { Leaves board (squares.a ∷ squares.b ∷ squares.c ∷ []) }
    ensures { BoundsAt (value (score_of scoring) board) alpha result }
{
    let Three { a, b, c } = squares;
    if share_quadrant(a, b) {
        return last_three(board, alpha, c, a, b, scoring);
    }
    if share_quadrant(a, c) {
        return last_three(board, alpha, b, a, c, scoring);
    }
    last_three(board, alpha, a, b, c, scoring)
}

// As `moves_two`, of three squares.
#[inline(always)]
fn moves_three(board: Twin, alpha: i8, a: Square, b: Square, c: Square, scoring: Scoring) -> i8
    requires threshold { IsThreshold alpha }
    requires last { Leaves board (a ∷ b ∷ c ∷ []) }
    ensures { MovesAt (score_of scoring) board alpha result }
{
    let best = reply_two(board, alpha, a, b, c, scoring);
    if best > alpha {
        return best;
    }
    let best = greater(best, reply_two(board, alpha, b, a, c, scoring));
    if best > alpha {
        return best;
    }
    greater(best, reply_two(board, alpha, c, a, b, scoring))
}

// As `reply_one`, with two more empty squares.
#[inline(always)]
fn reply_two(board: Twin, alpha: i8, square: Square, a: Square, b: Square, scoring: Scoring) -> i8
    requires threshold { IsThreshold alpha }
    requires last { Leaves board (square ∷ a ∷ b ∷ []) }
    ensures { GivesAt (score_of scoring) board square alpha result }
{
    let Some(flips) = board.legal_flips(square) else {
        return NO_MOVE;
    };
    -last_two(board.play_flipped(square, flips), -alpha - 1, a, b, scoring)
}

// As `last_two`, of four empty squares.
fn last_four(board: Twin, alpha: i8, squares: &Four, scoring: Scoring) -> i8
    requires threshold { IsThreshold alpha }
    requires last { Leaves board (squares.now.a ∷ squares.now.b ∷ squares.now.c ∷ squares.now.d ∷ []) }
    ensures { BoundsAt (value (score_of scoring) board) alpha result }
{
    let found = moves_four(board, alpha, squares, scoring);
    if found != NO_MOVE {
        return found;
    }
    let passed = board.pass();
    let found = moves_four(passed, -alpha - 1, squares, scoring);
    if found != NO_MOVE {
        return -found;
    }
    board.board().final_score(scoring)
}

// As `moves_two`, of four squares.
#[inline(always)]
fn moves_four(board: Twin, alpha: i8, squares: &Four, scoring: Scoring) -> i8
    requires threshold { IsThreshold alpha }
    requires last { Leaves board (squares.now.a ∷ squares.now.b ∷ squares.now.c ∷ squares.now.d ∷ []) }
    ensures { MovesAt (score_of scoring) board alpha result }
{
    let Four { a, b, c, d } = *squares;
    let best = reply_three(board, alpha, a, Three { a: b, b: c, c: d }, scoring);
    if best > alpha {
        return best;
    }
    let best = greater(
        best,
        reply_three(board, alpha, b, Three { a, b: c, c: d }, scoring),
    );
    if best > alpha {
        return best;
    }
    let best = greater(
        best,
        reply_three(board, alpha, c, Three { a, b, c: d }, scoring),
    );
    if best > alpha {
        return best;
    }
    greater(
        best,
        reply_three(board, alpha, d, Three { a, b, c }, scoring),
    )
}

// As `reply_one`, with three more empty squares.
#[inline(always)]
fn reply_three(board: Twin, alpha: i8, square: Square, rest: Three, scoring: Scoring) -> i8
    requires threshold { IsThreshold alpha }
    requires last { Leaves board (square ∷ rest.a ∷ rest.b ∷ rest.c ∷ []) }
    ensures { GivesAt (score_of scoring) board square alpha result }
{
    let Some(flips) = board.legal_flips(square) else {
        return NO_MOVE;
    };
    -last_three_by_quadrants(board.play_flipped(square, flips), -alpha - 1, rest, scoring)
}
