//! The answer of a board of few empty squares, by one worker: no list of the root's moves, no cells, and nobody hears.
//! There the boards after the moves are searched in less time than a list of them is made in.
ghost use Rattle.std.specs.Prelude.{◌≡◌, ◌≤◌, ◌↔◌, IsTrue, ◌≤ℤ◌, ◌<ℤ◌, ◌+ℤ◌, negsuc, pos, true};
ghost use Rattle.oth_rules.specs.Move.{can_move};
ghost use Rattle.oth_rules.specs.Laws.{IsScore};
ghost use Rattle.oth_search.specs.Bounds.Interval.{Decides};

use super::best_so_far::BestSoFar;
use super::pace::Pace;
use crate::bounds::{Answer, Kind, NoCells, Solved, odd_quadrants, preferred, without};
use crate::nws::nws_with;
use crate::tuning::FEW_MAX_EMPTIES;
use oth_rules::{Board, Scoring};

/// Whether `solve_few` pays for a root of `empties` empty squares.
pub fn is_few(empties: u8) -> bool
    ensures { IsTrue result ↔ (empties ≤ FEW_MAX_EMPTIES) }
{
    empties <= FEW_MAX_EMPTIES
}

/// The answer of a root whose mover has a move, by what is known of it. A board after a move is searched until its
/// value is exact, or the move is known to be worse than the score so far.
pub fn solve_few(root: &Solved) -> Answer
    requires { can_move root.now.board ≡ true }
    ensures board { result.board ≡ root.now.board }
    ensures scoring { result.scoring ≡ root.now.scoring }
{
    let board = root.board;
    let scoring = root.scoring;
    let odd = odd_quadrants(board.empty_squares());
    let mut best = BestSoFar {
        score: root.interval.lower,
        moves: 0,
    };
    let mut left = board.moves_by_lines();
    while left != 0 {
        let square = preferred(left, odd);
        left = without(left, square);
        let reply = at_most(board.play_legal(square), -best.score, scoring).interval;
        if reply.lower > -best.score {
            continue;
        }
        best = best.with(square, -reply.lower);
    }
    Answer::of(&board, best.score, best.moves, Kind::Move, scoring)
}

// The board with its exact value if that is at most `limit`, else with a lower bound above `limit`: by a null window at
// the limit, or at 0 where it is 64, and then by others ever further below the upper bound.
fn at_most(board: Board, limit: i8, scoring: Scoring) -> Solved
    requires { IsScore limit }
    ensures board { result.board ≡ board }
    ensures scoring { result.scoring ≡ scoring }
    ensures decides { Decides result.interval.lower result.interval.upper (negsuc 64) (limit +ℤ pos 1) }
{
    let start = if limit < 64 { limit } else { 0 };
    let mut reply = Solved::unknown(board, scoring);
    let mut pace = Pace::new();
    while !reply.interval.decides(-65, limit + 1) {
        let alpha = pace.onward(reply.interval, start);
        reply = asked(reply, alpha);
        let upper = reply.interval.upper;
        pace = pace.after(upper <= alpha || upper == 64);
    }
    reply
}

// What is known of the board, and what a null window inside its bounds tells.
fn asked(known: Solved, alpha: i8) -> Solved
    requires low { known.interval.lower ≤ℤ alpha }
    requires high { alpha <ℤ known.interval.upper }
    ensures board { result.board ≡ known.board }
    ensures scoring { result.scoring ≡ known.scoring }
    ensures lower { known.interval.lower ≤ℤ result.interval.lower }
    ensures upper { result.interval.upper ≤ℤ known.interval.upper }
    ensures decides { Decides result.interval.lower result.interval.upper alpha (alpha +ℤ pos 1) }
{
    let found = nws_with(known.board, alpha, &mut NoCells, known.scoring);
    known.narrowed(alpha, found)
}
