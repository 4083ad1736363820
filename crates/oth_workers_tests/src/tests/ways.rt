//! That a worker announces each item before it searches it: alone, as one of several that is left alone or has another
//! one beside it, and where it values the boards after a root's moves for `scores`. Cells of these tests note what is
//! found of an item, whatever keeps it.

ghost use Rattle.std.specs.Prelude.{◌≡◌, ◌≤◌, true};
ghost use Rattle.oth_rules.specs.Position.{empty_count};
ghost use Rattle.oth_rules.specs.Move.{can_move};

use super::announcing::{are_apart, line_to, with_passes};
use super::fixtures::{answer_of, floor_of};
use super::noting::{Counts, Noticing, Noting};
use super::{BOARDS, WITH_PASSES};
use oth_pieces::Frontier;
use oth_pieces::floor::Root;
use oth_rules::{Board, Scoring, Square};
use oth_search::{Answer, Cells, RootMoves, Solved, solve_moves, value_of};
use oth_walk::{
    Alone, Announced, Announcer, BoundsSeat, Gate, HintSeat, Hints, ItemSet, MoveBounds, RootBound,
    Search, Seats, Sharing, Worker, search_item, settle_all,
};
use std::alloc::Global;
use std::process::Abort;
use std::sync::atomic::{AtomicU64, Ordering};
use std::thread::{Threads, join};

// The answer of the board by the only worker of a search, which announces its items to the gate.
pub(super) fn by_only_worker<R: AllocGlobal + Abort, C: Cells + Drop, G: Gate>(
    rt: &R,
    root: &Board,
    mut cells: C,
    gate: &G,
) -> Answer
    requires few { empty_count root.now ≤ 30 }
    requires some { can_move root.now ≡ true }
{
    let alloc = rt.alloc();
    let announced = Announced::of(root, None, gate);
    let mut alone = Alone::of(alloc, gate, &announced);
    let moves = RootMoves::of(&Solved::unknown(*root, Scoring::Winner), &[]);
    let answer = solve_moves(moves, &mut cells, &mut alone);
    announced.finish(gate);
    answer
}

// The only worker of a search answers the board, and announces each item before it finds anything of it.
fn check_alone<R: AllocGlobal + Abort>(rt: &R, root: &Board) -> Counts
    requires few { empty_count root.now ≤ 30 }
    requires some { can_move root.now ≡ true }
{
    let frontier = Frontier::of(root, 2);
    let found = ItemSet::new();
    let gate = Noticing::of(&found);
    let cells = Noting::of(&frontier, &found, root.empties());
    let answer = by_only_worker(rt, root, cells, &gate);
    assert!(rt; answer == answer_of(rt, root, Scoring::Winner));
    gate.check_alone(rt, frontier.len())
}

// The floor that one of several workers comes to, who is left alone with all items, and announces them to the gate.
pub(super) fn by_one_of_several<R: AllocGlobal + Abort, C: Cells + Drop, G: Gate>(
    rt: &R,
    root: &Board,
    sharing: Sharing,
    cells: C,
    gate: &G,
) -> i8
    requires few { empty_count root.now ≤ 30 }
{
    let frontier = Frontier::of(root, 2);
    let announced = Announced::of(root, Some(&frontier), gate);
    let moves = RootMoves::of(&Solved::unknown(*root, Scoring::Winner), &[]);
    let search = Search::of(&moves, &frontier, sharing);
    let (floor, seat) = floor_of(rt, root);
    let seats = Seats {
        root_bound: RootBound::of(&floor, seat),
        hints: HintSeat::none(),
        bounds: BoundsSeat::none(),
        announcer: Announcer::of(rt.alloc(), &announced),
    };
    let mut worker = Worker::of(&search, rt.alloc(), cells, seats, gate);
    for number in 0..frontier.len() {
        if let Some(item) = frontier.entry(number) {
            search_item(&search, number, &item, &mut worker);
        }
    }
    settle_all(&mut worker);
    announced.finish(gate);
    worker.floor()
}

// One of several workers, who is left alone, settles each move, and announces each item before it finds anything of it.
fn check_worker<R: AllocGlobal + Abort>(rt: &R, root: &Board, sharing: Sharing)
    requires few { empty_count root.now ≤ 30 }
{
    let frontier = Frontier::of(root, 2);
    let found = ItemSet::new();
    let gate = Noticing::of(&found);
    let cells = Noting::of(&frontier, &found, root.empties());
    let floor = by_one_of_several(rt, root, sharing, cells, &gate);
    assert!(rt; floor == answer_of(rt, root, Scoring::Winner).score);
    gate.check_alone(rt, frontier.len());
}

// What several workers share, and the number of the next item that one of them takes.
#[derive(Drop)]
struct Shared<'s> {
    search: Search<'s>,
    gate: &'s Noticing<'s>,
    announced: &'s Announced,
    found: &'s ItemSet,
    hints: &'s Option<Hints>,
    bounds: &'s Option<MoveBounds>,
    next: AtomicU64,
}

// One of several workers without a table: it searches items until none is left, and what is open of the root's moves.
// Returns the floor that it has come to.
fn work(shared: &Shared, alloc: Global, root_bound: RootBound) -> i8 {
    let frontier = shared.search.frontier;
    let seats = Seats {
        root_bound,
        hints: HintSeat::of(shared.hints),
        bounds: BoundsSeat::of(shared.bounds),
        announcer: Announcer::of(alloc, shared.announced),
    };
    let empties = shared.search.moves.root().board.empties();
    let cells = Noting::of(frontier, shared.found, empties);
    let mut worker = Worker::of(&shared.search, alloc, cells, seats, shared.gate);
    for _ in 0..frontier.len() {
        let Ok(number) = u32::try_from(shared.next.fetch_add(1, Ordering::SeqCst)) else {
            break;
        };
        let Some(item) = frontier.entry(number) else {
            break;
        };
        search_item(&shared.search, number, &item, &mut worker);
    }
    settle_all(&mut worker);
    worker.floor()
}

// Two workers without a table come to the value in two threads, and announce each item before one of them finds
// anything of it.
fn check_two<R: Threads + Sync + AllocGlobal + Abort>(rt: &R, root: &Board) -> Counts
    requires few { empty_count root.now ≤ 30 }
{
    let frontier = Frontier::of(root, 2);
    let found = ItemSet::new();
    let gate = Noticing::of(&found);
    let announced = Announced::of(root, Some(&frontier), &gate);
    let moves = RootMoves::of(&Solved::unknown(*root, Scoring::Winner), &[]);
    let alloc = rt.alloc();
    let (hints, bounds) = (Hints::new(alloc, 1), bounds_of(alloc, root));
    let (floor, mut seat) = floor_of(rt, root);
    let Ok(further) = floor.seat(alloc, &mut seat) else {
        panic!(rt; "no seat")
    };
    let shared = Shared {
        search: Search::of(&moves, &frontier, Sharing::Apart),
        gate: &gate,
        announced: &announced,
        found: &found,
        hints: &hints,
        bounds: &bounds,
        next: AtomicU64::new(0),
    };
    let (mine, theirs) = (RootBound::of(&floor, seat), RootBound::of(&floor, further));
    let (one, other) = join(
        rt,
        || { work(&shared, alloc, mine) },
        || { work(&shared, alloc, theirs) },
    );
    announced.finish(&gate);
    assert!(rt; one.max(other) == answer_of(rt, root, Scoring::Winner).score);
    gate.check(rt, frontier.len())
}

// A list of bounds of this board's moves.
fn bounds_of(alloc: Global, board: &Board) -> Option<MoveBounds> {
    let root = Root {
        board: *board,
        scoring: Scoring::Winner,
    };
    MoveBounds::new(alloc, root)
}

// One worker finds the value of the board, after it valued this sibling, and announces each item before it finds
// anything of it.
fn check_valued<R: AllocGlobal + Abort>(rt: &R, child: &Board, sibling: &Option<Solved>) -> Solved
    requires { empty_count child.now ≤ 30 }
{
    let frontier = Frontier::of(child, 2);
    assert!(rt; are_apart(&frontier));
    let found = ItemSet::new();
    let gate = Noticing::of(&found);
    let announced = Announced::of(child, None, &gate);
    let mut cells = Noting::of(&frontier, &found, child.empties());
    let mut alone = Alone::of(rt.alloc(), &gate, &announced);
    let known = Solved::unknown(*child, Scoring::Winner);
    let valued = value_of(&known, sibling.as_ref(), &mut cells, &mut alone);
    announced.finish(&gate);
    gate.check_alone(rt, frontier.len());
    valued
}

#[test]
fn one_worker_announces_each_item_before_it_searches_it(rt: HostRuntime) {
    for words in BOARDS {
        for empties in 9..=14 {
            let root = line_to(&rt, words, empties);
            assert!(rt; are_apart(&Frontier::of(&root, 2)));
            check_alone(&rt, &root);
        }
    }
    for words in WITH_PASSES {
        check_alone(&rt, &with_passes(&rt, words));
    }
}

#[test]
fn a_worker_without_a_table_announces_each_item_before_it_searches_it(rt: HostRuntime) {
    for words in BOARDS {
        for empties in 9..=13 {
            let root = line_to(&rt, words, empties);
            assert!(rt; are_apart(&Frontier::of(&root, 2)));
            check_worker(&rt, &root, Sharing::Apart);
            check_worker(&rt, &root, Sharing::OverTable);
        }
    }
    for words in WITH_PASSES {
        let root = with_passes(&rt, words);
        check_worker(&rt, &root, Sharing::Apart);
        check_worker(&rt, &root, Sharing::OverTable);
    }
}

#[test]
fn one_worker_announces_the_items_of_each_board_that_it_values(rt: HostRuntime) {
    for words in &WITH_PASSES[..2] {
        let root = with_passes(&rt, *words);
        let mut sibling = None;
        for number in 0..64 {
            let Some(child) = root.play(Square::numbered(number)) else {
                continue;
            };
            if child.is_over() || child.empties() > 30 {
                continue;
            }
            let valued = check_valued(&rt, &child, &sibling);
            assert!(rt; valued == Solved::of_answer(&answer_of(&rt, &child, Scoring::Winner)));
            sibling = Some(valued);
        }
    }
}

#[test]
fn two_workers_without_a_table_announce_each_item_before_they_search_it(rt: HostRuntime) {
    for words in BOARDS {
        for empties in 9..=14 {
            check_two(&rt, &line_to(&rt, words, empties));
        }
    }
    for words in WITH_PASSES {
        check_two(&rt, &with_passes(&rt, words));
    }
}

#[test]
fn few_items_are_searched_by_one_worker(rt: HostRuntime) {
    for words in BOARDS {
        let counts = check_alone(&rt, &line_to(&rt, words, 14));
        assert!(rt; counts.are_few_searched(), "{counts:?}");
    }
}
