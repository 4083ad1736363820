//! That a worker waits which is about to search an item while another one announces it.

ghost use Rattle.std.specs.Prelude.{◌≡◌, ◌≤◌, true};
ghost use Rattle.oth_rules.specs.Position.{empty_count};

use super::BOARDS;
use super::announcing::{are_apart, line_to};
use super::fixtures::floor_of;
use oth_pieces::{Frontier, awake};
use oth_rules::{Board, Scoring};
use oth_search::{Cells, Entry, RootMoves, Solved, order};
use oth_walk::{
    Announced, Announcer, BoundsSeat, Gate, HintSeat, RootBound, Search, Seats, Sharing, Worker,
    search_item,
};
use std::alloc::Global;
use std::process::Abort;
use std::sync::atomic::{AtomicU64, Ordering};
use std::thread;
use std::thread::{Threads, join};

// The item that two workers search first, and how often they have looked for its board: each does so once before it
// comes to the item, whoever announces it once more, and each again as it searches it.
#[derive(Drop)]
struct Meeting {
    task: u32,
    image: Board,
    looks: AtomicU64,
    // Whether both had come to the item, and whether the other one went on before the gate had heard of it.
    met: AtomicU64,
    early: AtomicU64,
}

impl Meeting {
    fn of(task: u32, image: Board) -> Meeting {
        Meeting {
            task,
            image,
            looks: AtomicU64::new(0),
            met: AtomicU64::new(0),
            early: AtomicU64::new(0),
        }
    }

    // Whether there are this many looks before it has waited for so long.
    fn comes_to(&self, looks: u64, yields: u32) -> bool {
        for _ in 0..yields {
            if self.looks.load(Ordering::SeqCst) >= looks {
                return true;
            }
            thread::yield_now();
        }
        false
    }
}

impl Gate for Meeting {
    fn before(&self, task: u32) {
        if task != self.task || !self.comes_to(3, 10_000_000) {
            return;
        }
        self.met.store(1, Ordering::SeqCst);
        if self.comes_to(4, 500) {
            self.early.store(1, Ordering::SeqCst);
        }
    }

    fn after(&self, _task: u32) {}
}

// Cells that keep nothing, and count the looks for the item's board.
#[derive(Drop)]
struct Looking<'m> {
    meeting: &'m Meeting,
}

impl<'m> Cells for Looking<'m> {
    ghost Fixed = { Unit {0} };

    ghost fixed = { λ c. tt };

    fn look(&mut self, board: &Board, _scoring: Scoring) -> Option<Entry> {
        if *board == self.meeting.image {
            self.meeting.looks.fetch_add(1, Ordering::SeqCst);
        }
        None
    }

    fn put(&mut self, _entry: &Entry) {}
}

// One of two workers without a table or hints: it searches the move of the first item.
fn search_first(
    search: &Search,
    alloc: Global,
    meeting: &Meeting,
    announced: &Announced,
    root_bound: RootBound,
) {
    let seats = Seats {
        root_bound,
        hints: HintSeat::none(),
        bounds: BoundsSeat::none(),
        announcer: Announcer::of(alloc, announced),
    };
    let mut worker = Worker::of(search, alloc, Looking { meeting }, seats, meeting);
    if let Some(item) = search.frontier.entry(0) {
        search_item(search, 0, &item, &mut worker);
    }
}

// The number of the item that is searched first below the move of the first one, and the image of its board.
fn first_below(root: &Board, frontier: &Frontier) -> Option<(u32, Board)> {
    let child = awake(root.play(frontier.entry(0)?.square)?).0;
    let squares = order(&child);
    let board = awake(child.play(*squares.first()?)?).0;
    for number in 0..frontier.len() {
        if frontier.item(number) == Some(board) {
            return Some((number, board.canonical().0));
        }
    }
    None
}

// Lets two workers search the same items at once, and returns what came of their meeting.
fn meeting_of_two<R: Threads + Sync + AllocGlobal + Abort>(rt: &R, root: &Board) -> Meeting
    requires { empty_count root.now ≤ 30 }
{
    let frontier = Frontier::of(root, 2);
    let Some((task, image)) = first_below(root, &frontier) else {
        panic!(rt; "no item")
    };
    let meeting = Meeting::of(task, image);
    let announced = Announced::of(root, Some(&frontier), &meeting);
    let moves = RootMoves::of(&Solved::unknown(*root, Scoring::Winner), &[]);
    let search = Search::of(&moves, &frontier, Sharing::Apart);
    let alloc = rt.alloc();
    let ((one, my_seat), (other, their_seat)) = (floor_of(rt, root), floor_of(rt, root));
    let (mine, theirs) = (
        RootBound::of(&one, my_seat),
        RootBound::of(&other, their_seat),
    );
    join(
        rt,
        || { search_first(&search, alloc, &meeting, &announced, mine) },
        || { search_first(&search, alloc, &meeting, &announced, theirs) },
    );
    meeting
}

// A worker that is given no processor for long looks like one that waits, and one that announces for long isn't waited
// for: so most of several meetings tell.
#[test]
fn a_worker_waits_while_another_one_announces_the_item(rt: HostRuntime) {
    let root = line_to(&rt, BOARDS[1], 11);
    assert!(rt; are_apart(&Frontier::of(&root, 2)));
    let (mut met, mut early) = (0u64, 0u64);
    for _ in 0..20 {
        let meeting = meeting_of_two(&rt, &root);
        met = met.saturating_add(meeting.met.load(Ordering::SeqCst));
        early = early.saturating_add(meeting.early.load(Ordering::SeqCst));
    }
    assert!(rt; met >= 10, "{met} met");
    assert!(rt; early.saturating_mul(2) < met, "{early} of {met}");
}
