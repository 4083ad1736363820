//! The first guess of a root's score: all moves and replies in turn, and each board after a reply by the selective
//! search of `glance`. One worker makes it alone; several make it together, where each takes boards that no other one
//! is at, and hears what the others saw of a board. `bracket`: between which scores the guess seems to lie.
ghost use Rattle.std.specs.Prelude.{◌≡◌, ◌<◌, ◌≤◌, ◌≤ℤ◌, pos};
ghost use Rattle.oth_rules.specs.Laws.{IsScore};
ghost use Rattle.oth_search.specs.Bounds.Interval.{IsThreshold};

mod bracket;
mod glance;

use super::moves::RootMoves;
use super::root_peers::RootPeers;
use crate::bounds::{Cells, Interval, Solved, greater, lesser, without};
use crate::nws::Node;
use crate::ordering::{next_child, try_again};
use crate::tuning::{GUESS_DEFERRAL_ROUNDS, GUESS_ROUNDS};
use bracket::Bracket;
use glance::ranked_for_guess;
pub use glance::seeming_value;
use oth_rules::{Board, Scoring};

/// Returns the least value that a board after a move of the root seems to have, by null windows from `likely` on. Moves
/// the move that seems to lead to it to the front.
pub fn guess<C: Cells, O: RootPeers<C>>(
    moves: &mut RootMoves,
    likely: i8,
    cells: &mut C,
    peers: &mut O,
) -> i8
    requires { IsThreshold likely }
    ensures score { IsScore result }
    ensures root { moves.new ≡ moves.old }
    ensures fixed { C.fixed cells.new ≡ C.fixed cells.old }
{
    let root = moves.root().board;
    let mut bracket = Bracket::from(likely);
    let mut seen = [Interval::all(); 64];
    for _ in 0..GUESS_ROUNDS {
        let at = bracket.at;
        let found = least_seen(moves, &mut seen, at, cells, peers);
        let is_reached = found <= at;
        peers.tell_guessed(&root, -at - 1, -found);
        bracket = if is_reached {
            bracket.at_most(found)
        } else {
            bracket.at_least(found)
        };
        if bracket.is_close() {
            break;
        }
    }
    bracket.most()
}

// Returns a value of at most `at` that a board after a move seems to have, and moves that move to the front; or else
// the least value that one seems to have, or what another worker told. `seen` has what each seemed to have before, in
// the order of the moves. In the first round defers boards that another worker is at, but for the one in front.
fn least_seen<C: Cells, O: RootPeers<C>>(
    moves: &mut RootMoves,
    seen: &mut [Interval; 64],
    at: i8,
    cells: &mut C,
    peers: &mut O,
) -> i8
    requires threshold { IsThreshold at }
    ensures score { IsScore result }
    ensures root { moves.new ≡ moves.old }
    ensures fixed { C.fixed cells.new ≡ C.fixed cells.old }
{
    let root = moves.root().board;
    let mut asked = [false; 64];
    let mut least = 64;
    for turn in 0..GUESS_DEFERRAL_ROUNDS {
        for place in 0..moves.len() {
            let Some(root_move) = moves.get(place) else {
                continue;
            };
            let child = root_move.child;
            let is_deferred = turn == 0 && place > 0 && peers.is_deferred(&child.board);
            if asked[place] || is_deferred {
                continue;
            }
            asked[place] = true;
            let found = least_of(&child, seen[place], at, cells, peers);
            if found <= at {
                moves.move_to_front(place);
                seen.swap(0, place);
                return found;
            }
            seen[place] = Interval {
                lower: found,
                upper: 64,
            };
            least = lesser(least, found);
            if let Some(told_of_root) = peers.guessed(&root, -at - 1) {
                return told(moves, at, -told_of_root <= at, peers);
            }
        }
    }
    least
}

// Returns a bound of the value that a reply seems to have, on its side of `at`. Looks at the reply only if it may be at
// most `at` by `seen`, what it seemed to have before.
fn least_of<C: Cells, O: RootPeers<C>>(
    reply: &Solved,
    seen: Interval,
    at: i8,
    cells: &mut C,
    peers: &mut O,
) -> i8
    requires { IsThreshold at }
    ensures score { IsScore result }
    ensures fixed { C.fixed cells.new ≡ C.fixed cells.old }
{
    if seen.lower > at {
        return seen.lower;
    }
    glance_after_move(reply, at, cells, peers)
}

// Takes over what another worker told of the root: whether a board after a move seems to have at most `at`. Moves that
// move to the front. Returns `at`, or `at + 1` if there is none.
fn told<C: Cells, O: RootPeers<C>>(
    moves: &mut RootMoves,
    at: i8,
    is_reached: bool,
    peers: &mut O,
) -> i8
    requires { IsThreshold at }
    ensures score { IsScore result }
    ensures root { moves.new ≡ moves.old }
{
    if !is_reached {
        return at + 1;
    }
    for place in 0..moves.len() {
        if let Some(root_move) = moves.get(place) {
            if is_told_below(&root_move.child.board, at, peers) {
                moves.move_to_front(place);
                return at;
            }
        }
    }
    at
}

// Whether it was told of this board that it seems to have at most `at`.
fn is_told_below<C: Cells, O: RootPeers<C>>(board: &Board, at: i8, peers: &mut O) -> bool
    requires { IsThreshold at }
{
    match peers.guessed(board, at) {
        Some(told) => told <= at,
        None => false,
    }
}

// Returns a bound, on its side of `alpha`, of the value that the board after a root's move seems to have: what was told
// of it, or else by a glance at all its moves, or where there is none by `seeming_value`.
fn glance_after_move<C: Cells, O: RootPeers<C>>(
    reply: &Solved,
    alpha: i8,
    cells: &mut C,
    peers: &mut O,
) -> i8
    requires { IsThreshold alpha }
    ensures score { IsScore result }
    ensures fixed { C.fixed cells.new ≡ C.fixed cells.old }
{
    let board = reply.board;
    if let Some(told) = peers.guessed(&board, alpha) {
        return told;
    }
    peers.begin_guess(&board);
    let node = Node::of(board);
    let found = if node.moves != 0 {
        glance_at_all_moves(node, alpha, cells, peers, reply.scoring)
    } else {
        seeming_value(board, alpha, cells, reply.scoring)
    };
    peers.tell_guessed(&board, alpha, found);
    peers.end_guess(&board);
    found
}

// As `glance_after_move`, of a board whose mover has a move, by a glance at each one. In the first round defers
// children that another worker is at.
fn glance_at_all_moves<C: Cells, O: RootPeers<C>>(
    node: Node,
    alpha: i8,
    cells: &mut C,
    peers: &mut O,
    scoring: Scoring,
) -> i8
    requires { IsThreshold alpha }
    ensures score { IsScore result }
    ensures fixed { C.fixed cells.new ≡ C.fixed cells.old }
{
    let mut ranked = ranked_for_guess(&node);
    let mut best = -64;
    let mut left = node.moves;
    for turn in 0..GUESS_DEFERRAL_ROUNDS {
        let mut rest = left;
        try_again(ranked.as_mut_slice(), left);
        while rest != 0 {
            let child = next_child(&node.board, ranked.as_mut_slice(), rest);
            rest = without(rest, child.square());
            if turn == 0 && peers.is_deferred(&child.board) {
                continue;
            }
            left = without(left, child.square());
            let reply = -glance_after_reply(child.board, -alpha - 1, cells, peers, scoring);
            if reply > alpha {
                return reply;
            }
            best = greater(best, reply);
            if let Some(told) = peers.guessed(&node.board, alpha) {
                return told;
            }
        }
    }
    best
}

// Returns a bound, on its side of `alpha`, of the value that the board after a reply to a root's move seems to have:
// what was told of it, or else by `seeming_value`. Once the guess ends that is `alpha`.
fn glance_after_reply<C: Cells, O: RootPeers<C>>(
    board: Board,
    alpha: i8,
    cells: &mut C,
    peers: &mut O,
    scoring: Scoring,
) -> i8
    requires { IsThreshold alpha }
    ensures score { IsScore result }
    ensures fixed { C.fixed cells.new ≡ C.fixed cells.old }
{
    if let Some(told) = peers.guessed(&board, alpha) {
        return told;
    }
    if peers.ends_guess(cells) {
        return alpha;
    }
    peers.begin_guess(&board);
    let found = seeming_value(board, alpha, cells, scoring);
    peers.tell_guessed(&board, alpha, found);
    peers.end_guess(&board);
    found
}
