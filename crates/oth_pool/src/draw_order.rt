//! The order in which the items of a frontier are drawn: the most promising first.
//!
//! All replies to the first move come first, in the order of the search, then the best reply to each other move, then
//! the second ones.
use arrayvec::ArrayVec;
use oth_pieces::{MOST_ITEMS, awake};
use oth_rules::Board;
use oth_search::{RootMove, order};
use oth_walk::Search;

// More moves than a board has.
const BEYOND: u32 = 64;

/// Returns the rank of each item of the frontier; the least is drawn first. First come the replies to the root's first
/// move in their order, then the best reply to each other move, then the second reply to each, up to the last.
#[inline(never)]
pub(crate) fn ranks(search: &Search) -> ArrayVec<u32, MOST_ITEMS> {
    let mut ranks = ArrayVec::new();
    let mut replies = ArrayVec::<Board, 64>::new();
    let mut to = None;
    for number in 0..search.frontier.len() {
        let mut rank = u32::MAX;
        if let Some(item) = search.frontier.entry(number) {
            let of_move = search.moves.place_of(item.square);
            if to != Some(of_move) {
                replies = replies_to(search.moves.get(of_move));
                to = Some(of_move);
            }
            rank = rank_of(of_move as u32, place_of(replies.as_slice(), &item.board));
        }
        let _ = ranks.try_push(rank);
    }
    ranks
}

// Returns the rank of a reply by two places: of the root's move among the root's moves, and of the reply among the
// replies to it.
fn rank_of(of_move: u32, of_reply: u32) -> u32 {
    if of_move == 0 {
        of_reply
    } else {
        BEYOND + BEYOND * of_reply.min(BEYOND) + of_move.min(BEYOND)
    }
}

// Returns the boards after the replies to the root's move, in the order in which they are searched. A forced pass
// before or after a reply is played too.
fn replies_to(root_move: Option<RootMove>) -> ArrayVec<Board, 64> {
    let mut replies = ArrayVec::new();
    if let Some(root_move) = root_move {
        let (child, _) = awake(root_move.child.board);
        let squares = order(&child);
        for reply in squares.as_slice() {
            if let Some(board) = child.play(*reply) {
                let (board, _) = awake(board);
                let _ = replies.try_push(board);
            }
        }
    }
    replies
}

// Returns the place of the board in the list, or `BEYOND` where it isn't among the first 64.
fn place_of(list: &[Board], board: &Board) -> u32 {
    let mut place = 0;
    for other in list {
        if *other == *board || place == BEYOND {
            return place;
        }
        place = place.saturating_add(1);
    }
    BEYOND
}
