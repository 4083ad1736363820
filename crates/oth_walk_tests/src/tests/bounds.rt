//! The bounds of a root's moves that workers tell each other are heard of their board and scoring alone.

use super::{LOSING, answer_of, board_of, bounds_of};
use oth_rules::{Scoring, Square};
use oth_search::{RootMoves, Solved};
use oth_walk::BoundsSeat;

#[test]
fn bounds_of_a_move_are_heard_of_its_board_alone(rt: HostRuntime) {
    let root = board_of(&rt, LOSING[0]);
    let bounds = bounds_of(&rt, &root);
    let (mut mine, mut theirs) = (BoundsSeat::of(&bounds), BoundsSeat::of(&bounds));
    let moves = RootMoves::of(&Solved::unknown(root, Scoring::Winner), &[]);
    let (Some(one), Some(other)) = (moves.get(0), moves.get(1)) else {
        panic!(rt; "fewer than two moves")
    };
    let found = Solved::of_answer(&answer_of(&rt, &one.child.board, Scoring::Winner));
    assert!(rt; theirs.hear(one.square) == Some(one.child));
    mine.tell(other.square, &found);
    assert!(rt; theirs.hear(other.square) == Some(other.child));
    let by_discs = Solved::of_answer(&answer_of(&rt, &one.child.board, Scoring::Discs));
    mine.tell(one.square, &by_discs);
    assert!(rt; theirs.hear(one.square) == Some(one.child));
    mine.tell(one.square, &found);
    mine.tell(one.square, &one.child);
    assert!(rt; theirs.hear(one.square) == Some(found));
    assert!(rt; theirs.hear(other.square) == Some(other.child));
    assert!(rt; BoundsSeat::none().hear(one.square).is_none());
    let empty = root.empty_squares() & !root.moves();
    if empty != 0 {
        assert!(rt; theirs.hear(Square::first_of(empty)).is_none());
    }
}
