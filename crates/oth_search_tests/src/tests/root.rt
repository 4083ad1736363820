//! What no clause says of a root: what is asked, and what is not.
ghost use Rattle.std.specs.Prelude.{◌≡◌};

use super::board_of;
use oth_rules::{Board, Scoring};
use oth_search::{
    Cells, Entry, Interval, NoCells, NoPeers, RootMoves, Solved, settle_moves, solve_alone,
    solve_moves,
};

/// Keeps nothing, and counts the calls.
#[derive(Drop)]
struct Counted {
    looks: u32,
}

impl Cells for Counted {
    ghost Fixed = { Unit {0} };

    ghost fixed = { λ c. tt };

    fn look(&mut self, _board: &Board, _scoring: Scoring) -> Option<Entry> {
        self.looks = self.looks.wrapping_add(1);
        None
    }

    fn put(&mut self, _entry: &Entry) {}
}

// The least upper bound of a reply.
fn least_upper(moves: &RootMoves) -> i8 {
    let mut least = 64;
    for root_move in moves.as_slice() {
        least = least.min(root_move.child.interval.upper);
    }
    least
}

// Whether each reply's bounds are one number, or above this one.
fn are_settled(moves: &RootMoves, least: i8) -> bool {
    for root_move in moves.as_slice() {
        let bounds = root_move.child.interval;
        if bounds.lower != bounds.upper && bounds.lower <= least {
            return false;
        }
    }
    true
}

// The moves of the root, settled.
fn settled_moves(root: &Solved) -> RootMoves {
    let mut moves = RootMoves::of(root, &[]);
    settle_moves(&mut moves, &mut NoCells, &mut NoPeers);
    moves
}

// The boards after these moves with what is known of them, in their order, and others behind them.
fn children(moves: &RootMoves) -> [Solved; 64] {
    let mut known = [Solved::default(); 64];
    for place in 0..moves.len() {
        if let Some(root_move) = moves.get(place) {
            known[place] = root_move.child;
        }
    }
    known
}

#[test]
fn searches_no_reply_that_is_settled(rt: HostRuntime) {
    let board = board_of(&rt, [0xd470_0405_47e5_dd00, 0x0205_7a18_b81a_22fc]);
    let mut moves = settled_moves(&Solved::unknown(board, Scoring::Winner));
    assert!(rt; moves.len() == board.moves().count_ones() as usize);
    let mut cells = Counted { looks: 0 };
    settle_moves(&mut moves, &mut cells, &mut NoPeers);
    assert!(rt; cells.looks == 0);
    assert!(rt; least_upper(&moves) == 4 && are_settled(&moves, 4));
}

#[test]
fn answers_by_replies_that_are_settled(rt: HostRuntime) {
    let board = board_of(&rt, [0xd470_0405_47e5_dd00, 0x0205_7a18_b81a_22fc]);
    let root = Solved::unknown(board, Scoring::Winner);
    let known = children(&settled_moves(&root));
    let mut cells = Counted { looks: 0 };
    if !board.can_move() {
        panic!(rt; "no move")
    }
    let moves = RootMoves::of(&root, known.as_slice());
    let answer = solve_moves(moves, &mut cells, &mut NoPeers);
    assert!(rt; cells.looks == 0);
    assert!(rt; answer.score == -4);
}

#[test]
fn starts_from_a_guess(rt: HostRuntime) {
    let board = board_of(&rt, [0x887e_3660_0403_0312, 0x3200_899f_bb7c_0c08]);
    assert!(rt; board.empties() == 17);
    match solve_alone(&board, Scoring::Winner) {
        Ok(answer) => assert!(rt; answer.score == -32 && answer.best == 0x4000_0000_0000_4000),
        Err(_) => panic!(rt; "not solved"),
    }
}

#[test]
fn of_moves_known_to_give_as_much_the_first_is_the_surest(rt: HostRuntime) {
    let board = board_of(&rt, [0xd470_0405_47e5_dd00, 0x0205_7a18_b81a_22fc]);
    let mut moves = RootMoves::of(&Solved::unknown(board, Scoring::Winner), &[]);
    let count = moves.len();
    assert!(rt; count > 2);
    for place in [0, count - 1, 1] {
        let first = moves.get(place).expect(&rt, "a move");
        moves.move_to_front(place);
        assert!(rt; moves.surest() == Some(first.square));
    }
}

// Each of these moves, in the same order, with the lower bound of the other's child and no upper one.
fn forget_least(moves: &RootMoves, others: &RootMoves) -> bool {
    for (root_move, other) in moves.as_slice().iter().zip(others.as_slice()) {
        let (bounds, known) = (root_move.child.interval, other.child.interval);
        if root_move.square != other.square || bounds.lower != known.lower || bounds.upper != 64 {
            return false;
        }
    }
    moves.len() == others.len() && moves.root().interval == Interval::all()
}

#[test]
fn what_moves_give_at_least_is_forgotten(rt: HostRuntime) {
    let board = board_of(&rt, [0xd470_0405_47e5_dd00, 0x0205_7a18_b81a_22fc]);
    let mut moves = settled_moves(&Solved::unknown(board, Scoring::Winner));
    moves.move_to_front(1);
    assert!(rt; moves.best() == -4);
    let most = moves.without_least();
    assert!(rt; most.best() == -64 && forget_least(&most, &moves));
}

#[test]
fn moves_without_ranks_are_the_same_moves(rt: HostRuntime) {
    let board = board_of(&rt, [0xd470_0405_47e5_dd00, 0x0205_7a18_b81a_22fc]);
    let root = Solved::unknown(board, Scoring::Winner);
    let settled = settled_moves(&root);
    let known = children(&settled);
    let moves = RootMoves::unranked(&root, known.as_slice());
    assert!(rt; moves.len() == settled.len() && moves.best() == -4);
    for root_move in settled.as_slice() {
        assert!(rt; moves.known_after(root_move.square) == Some(root_move.child));
    }
}
