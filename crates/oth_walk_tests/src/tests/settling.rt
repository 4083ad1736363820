//! One worker settles each move of a root and comes to its value, whatever hints and bounds of moves it hears.

ghost use Rattle.oth_pieces.specs.Watch as floor;

use super::{BOARDS, LOSING, answer_of, board_of, bounds_of};
use oth_pieces::{Floor, FloorSeat, Frontier};
use oth_rules::{Board, Scoring, Square};
use oth_search::{Interval, NoCells, RootMoves, Solved};
use oth_walk::{
    Announced, Announcer, BoundsSeat, HintSeat, Hints, MoveBounds, Open, RootBound, Search, Seats,
    SharedNodes, Sharing, Worker, search_item, settle_all,
};
use std::process::Abort;

const A: [u64; 2] = [8, 0xffff_ffff_ffff_ff74];

const C: [u64; 2] = [0xffff_ffff_ffff_ff3c, 0x42];

// Row 1 `-OXXXXO-`, row 8 the same, and `X` on all other squares.
const CORNERS: [u64; 2] = [0x3cff_ffff_ffff_ff3c, 0x4200_0000_0000_0042];

// Boards of games, of 14 empty squares, where a side must pass after a move of a board of at least 12.
const PASSING: [[u64; 2]; 3] = [
    [0x0008_c0e1_a1ff_bfbf, 0x00e4_1e1e_5a00_4040],
    [0x8080_a8d6_ea5c_0010, 0x7c6b_5628_15a2_ff00],
    [0xe0e0_f008_0000_1000, 0x081c_0e37_ff7d_2f7f],
];

// A floor of the board by winner, and its first seat.
fn floor_of<R: AllocGlobal + Abort>(rt: &R, board: &Board) -> (Floor, FloorSeat)
    ensures { floor.IsSeatOf result.0 result.1 }
{
    let Ok((floor, seat)) = Floor::new(rt.alloc(), board, Scoring::Winner) else {
        panic!(rt; "no floor")
    };
    (floor, seat)
}

// One worker that keeps nothing settles each move, and comes to the value. Where it would share what it finds it
// searches the first item before, and so looks for a move that reaches what it guesses.
fn check_settled<R: AllocGlobal + Abort>(rt: &R, words: [u64; 2], sharing: Sharing) {
    check_settled_beside(rt, words, sharing, &None, &None);
}

// As `check_settled`, by a worker that hears these hints and bounds.
fn check_settled_beside<R: AllocGlobal + Abort>(
    rt: &R,
    words: [u64; 2],
    sharing: Sharing,
    hints: &Option<Hints>,
    bounds: &Option<MoveBounds>,
) {
    let root = board_of(rt, words);
    let answer = answer_of(rt, &root, Scoring::Winner);
    let (floor, seat) = floor_of(rt, &root);
    let frontier = Frontier::of(&root, 1);
    let moves = RootMoves::of(&Solved::unknown(root, Scoring::Winner), &[]);
    let shared = Search {
        shape: SharedNodes {
            fewest: 12,
            dealt: 64,
            sharing,
        },
        ..Search::of(&moves, &frontier, sharing)
    };
    let announced = Announced::of(&root, Some(&frontier), &Open);
    let seats = Seats {
        root_bound: RootBound::of(&floor, seat),
        hints: HintSeat::of(hints),
        bounds: BoundsSeat::of(bounds),
        announcer: Announcer::of(rt.alloc(), &announced),
    };
    let mut worker = Worker::of(&shared, rt.alloc(), NoCells, seats, &Open);
    if sharing.is_over_table() {
        let Some(item) = frontier.entry(0) else {
            panic!(rt; "no item")
        };
        search_item(&shared, 0, &item, &mut worker);
    }
    settle_all(&mut worker);
    assert!(rt; worker.settled() == moves.len() as u64);
    for root_move in worker.moves.as_slice() {
        let Interval { lower, upper } = root_move.child.interval;
        assert!(rt; lower == upper || lower > answer.score.wrapping_neg());
    }
    assert!(rt; worker.floor() == answer.score);
    assert!(rt; worker.root().interval.lower == answer.score);
}

#[test]
fn one_worker_settles_each_move(rt: HostRuntime) {
    for words in &BOARDS {
        check_settled(&rt, *words, Sharing::Apart);
    }
}

#[test]
fn one_worker_settles_each_move_that_fell_short_of_its_guess(rt: HostRuntime) {
    for words in &LOSING {
        check_settled(&rt, *words, Sharing::OverTable);
    }
}

// Boards of two and four best moves: none is settled before it is told from those that are worse.
#[test]
fn one_worker_settles_moves_that_are_as_good_as_the_best(rt: HostRuntime) {
    for words in [C, CORNERS] {
        check_settled(&rt, words, Sharing::Apart);
        check_settled(&rt, words, Sharing::OverTable);
    }
}

#[test]
fn one_worker_settles_each_move_before_a_pass(rt: HostRuntime) {
    for words in &PASSING {
        check_settled(&rt, *words, Sharing::Apart);
    }
}

// Hints say of every move that it is settled, and nobody has told bounds that settle one: each is searched.
#[test]
fn hints_alone_settle_no_move(rt: HostRuntime) {
    for words in &BOARDS {
        let root = board_of(&rt, *words);
        for sharing in [Sharing::Apart, Sharing::OverTable] {
            let hints = Hints::new(rt.alloc(), 1);
            assert!(rt; hints.is_some());
            let mut seat = HintSeat::of(&hints);
            for root_move in RootMoves::of(
                &Solved::unknown(root, Scoring::Winner),
                &[],
            ).as_slice()
            {
                seat.note_settled(root_move.square);
            }
            let bounds = bounds_of(&rt, &root);
            check_settled_beside(&rt, *words, sharing, &hints, &bounds);
            check_settled_beside(&rt, *words, sharing, &hints, &None);
        }
    }
}

// The value of the board after the root's move to this square, by winner.
fn value_after(rt: &impl Abort, root: &Board, square: Square) -> Solved {
    let Some(child) = root.play(square) else {
        panic!(rt; "no move")
    };
    Solved::of_answer(&answer_of(rt, &child, Scoring::Winner))
}

// A's best move is h1, by which it has -50. Of b1 it is known at first that the opponent has 50 or more: it may be as
// good. The worker itself finds so, and then hints say that the move is settled by what was told of it.
#[test]
fn a_move_that_may_be_as_good_as_the_floor_is_not_settled(rt: HostRuntime) {
    let root = board_of(&rt, A);
    let (b1, h1) = (Square::numbered(1), Square::numbered(7));
    let (floor, seat) = floor_of(&rt, &root);
    let frontier = Frontier::of(&root, 1);
    let moves = RootMoves::of(&Solved::unknown(root, Scoring::Winner), &[]);
    let hints = Hints::new(rt.alloc(), 1);
    let bounds = bounds_of(&rt, &root);
    let announced = Announced::of(&root, Some(&frontier), &Open);
    let seats = Seats {
        root_bound: RootBound::of(&floor, seat),
        hints: HintSeat::of(&hints),
        bounds: BoundsSeat::of(&bounds),
        announcer: Announcer::of(rt.alloc(), &announced),
    };
    let search = Search::of(&moves, &frontier, Sharing::Apart);
    let mut worker = Worker::of(&search, rt.alloc(), NoCells, seats, &Open);
    worker.update(h1, &value_after(&rt, &root, h1));
    assert!(rt; worker.floor() == -50);
    let found = value_after(&rt, &root, b1);
    let Some(as_good) = found.widen(50, 64) else {
        panic!(rt; "b1 is better")
    };
    worker.update(b1, &as_good);
    assert!(rt; !worker.is_settled(b1));
    HintSeat::of(&hints).note_settled(b1);
    assert!(rt; !worker.is_settled(b1));
    worker.update(b1, &found);
    assert!(rt; worker.is_settled(b1));
}
