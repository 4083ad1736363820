//! Hints tell another worker which board is searched, which moves are settled, and an order of a board's moves.

use super::{BOARDS, board_of};
use oth_rules::Square;
use oth_search::{MoveOrder, order};
use oth_walk::{HintSeat, Hints};
use std::test::Fail;
use std::thread::join;

#[test]
fn a_marked_board_is_searched_until_its_mark_is_gone(rt: HostRuntime) -> Result<(), Fail> {
    let hints = Hints::new(rt.alloc(), 1);
    assert!(rt; hints.is_some());
    let (mut mine, mut theirs) = (HintSeat::of(&hints), HintSeat::of(&hints));
    let one = board_of(&rt, BOARDS[0]);
    let other = board_of(&rt, BOARDS[1]);
    assert!(rt; !theirs.is_searched(&one) && !theirs.is_searched(&other));
    mine.begin(&one);
    assert!(rt; theirs.is_searched(&one) && !theirs.is_searched(&other));
    mine.end(&other);
    assert!(rt; theirs.is_searched(&one));
    mine.end(&one);
    assert!(rt; !theirs.is_searched(&one));
    Ok(())
}

#[test]
fn moves_are_settled_one_by_one(rt: HostRuntime) {
    let hints = Hints::new(rt.alloc(), 1);
    assert!(rt; hints.is_some());
    let (mut mine, mut theirs) = (HintSeat::of(&hints), HintSeat::of(&hints));
    assert!(rt; theirs.settled() == 0);
    for number in 0..64 {
        let square = Square::numbered(number);
        assert!(rt; !theirs.seems_settled(square));
        mine.note_settled(square);
        mine.note_settled(square);
        assert!(rt; theirs.seems_settled(square));
        assert!(rt; theirs.settled() == u64::MAX >> (63 - u32::from(number)));
    }
}

// Settles the move to each square, by rising or by falling number.
fn settle_each(hints: &Option<Hints>, is_falling: bool) {
    let mut seat = HintSeat::of(hints);
    for number in 0..64 {
        let number = if is_falling { 63 - number } else { number };
        seat.note_settled(Square::numbered(number));
    }
}

#[test]
fn no_move_is_lost_that_is_settled_beside_another(rt: HostRuntime) {
    for _ in 0..200 {
        let hints = Hints::new(rt.alloc(), 1);
        assert!(rt; hints.is_some());
        join(
            &rt,
            || { settle_each(&hints, false) },
            || { settle_each(&hints, true) },
        );
        assert!(rt; HintSeat::of(&hints).settled() == u64::MAX);
    }
}

#[test]
fn without_hints_nothing_is_told(rt: HostRuntime) -> Result<(), Fail> {
    let mut seat = HintSeat::none();
    let board = board_of(&rt, BOARDS[0]);
    let square = Square::numbered(3);
    seat.begin(&board);
    seat.note_settled(square);
    seat.keep_order(&board, MoveOrder::of(&[square]));
    assert!(rt; !seat.is_searched(&board));
    assert!(rt; !seat.seems_settled(square) && seat.settled() == 0);
    assert!(rt; seat.order_of(&board).is_none());
    Ok(())
}

#[test]
fn an_order_is_kept_for_its_board(rt: HostRuntime) {
    let hints = Hints::new(rt.alloc(), 64);
    assert!(rt; hints.is_some());
    let (mut mine, mut theirs) = (HintSeat::of(&hints), HintSeat::of(&hints));
    let board = board_of(&rt, BOARDS[0]);
    let other = board_of(&rt, BOARDS[1]);
    let squares = order(&board);
    assert!(rt; theirs.order_of(&board).is_none());
    mine.keep_order(&board, MoveOrder::of(squares.as_slice()));
    assert!(rt; theirs.order_of(&other).is_none());
    let Some(kept) = theirs.order_of(&board) else {
        panic!(rt; "no order")
    };
    assert!(rt; kept.of_moves(board.moves()).as_slice() == squares.as_slice());
    let Some(last) = squares.as_slice().last() else {
        panic!(rt; "no moves")
    };
    let turned = kept.with_first(*last).of_moves(board.moves());
    assert!(rt; turned.len() == squares.len());
    assert!(rt; turned.as_slice().first() == Some(last));
    assert!(rt; turned.as_slice().get(1) == squares.as_slice().first());
}
