//! Runs workers over all items of a frontier.
ghost use Rattle.std.specs.Prelude.{◌≡◌, ◌≤ℤ◌, IfSome, List, length, vec_len, []};
ghost use Rattle.oth_pieces.specs.Watch.{IsSeatOf};
ghost use Rattle.oth_pieces.specs.History.{floor_after};
ghost use Rattle.oth_pieces.specs.Hands.{IsCrew};
ghost use Rattle.oth_pieces.specs.Drawn.{lists_of};
ghost use Rattle.oth_walk.specs.Lending.{LendsFloor, LendsTable};
ghost use Rattle.oth_pool.specs.Working.{HasLists, AreGathered};

use crate::draw_order::ranks;
use crate::means::Means;
use crate::work::{collect_replies, duties_of, hands_in, run_duties, told_by_all};
use oth_pieces::floor::Root;
use oth_pieces::{Drawn, Floor, FloorSeat, Frontier, Reply, Tasks};
use oth_search::{RootMoves, Solved};
use oth_table::TableCells;
use oth_walk::{
    Announced, Announcer, BoundsSeat, Gate, HintSeat, Hints, MoveBounds, RootBound, Search, Seats,
    Sharing, Worker, WorkerCells, orders_for, worker_cells,
};
use std::alloc::Global;
use std::thread::Threads;

/// What the workers drew and found: at most one reply to each drawn number, and none to others.
#[derive(Drop)]
pub struct Gathered {
    pub drawn: Drawn,
    pub replies: Vec<Reply>,
}

/// What workers share besides the table, and what is known of the root before they start.
#[derive(Clone, Copy)]
pub(crate) struct Links<'s> {
    pub root: &'s Solved,
    pub floor: &'s Floor,
    pub hints: &'s Option<Hints>,
    pub bounds: &'s Option<MoveBounds>,
    pub announced: &'s Announced,
}

/// Lets `workers` workers, 1 to 16, search the items of the frontier with a window at the floor, each over cells of the
/// table where there is one and a seat of it can be had. Waits for them. The gate hears of each item that a worker
/// takes. Refused memory or threads cost time alone: what no worker takes is left.
pub fn run_workers<'t, R: Threads + Sync, G: Gate>(
    rt: &R,
    alloc: Global,
    frontier: &Frontier,
    floor: &Floor,
    seat: &mut FloorSeat,
    workers: u8,
    table: &mut Option<TableCells<'t>>,
    gate: &G,
) -> Gathered
    requires crew { IsCrew workers }
    requires seat { IsSeatOf floor.now seat.old }
    ensures seat { LendsFloor seat.old seat.new }
    ensures table { LendsTable table.old table.new }
    ensures gathered { AreGathered frontier.now floor.now.root.scoring result }
    ensures lists { HasLists workers result.drawn }
{
    let root = Solved::unknown(floor.board(), floor.scoring());
    let moves = RootMoves::of(&root, &[]);
    let sharing = Sharing::of_several(table);
    let search = Search::of(&moves, frontier, sharing);
    let means = Means {
        rt,
        alloc,
        gate,
        workers,
    };
    let hints = hints_for(&means, &search);
    let bounds = bounds_for(&means, &root);
    let announced = Announced::of(&root.board, Some(frontier), gate);
    let links = Links {
        root: &root,
        floor,
        hints: &hints,
        bounds: &bounds,
        announced: &announced,
    };
    let gathered = run(&means, &search, links, seat, table);
    pass_over(&announced, &gathered.drawn, gate);
    gathered
}

// Announces the items that were drawn, and of which no search was needed.
fn pass_over<G: Gate>(announced: &Announced, drawn: &Drawn, gate: &G) {
    for list in drawn.lists.as_slice() {
        for number in list.as_slice() {
            announced.pass_over(*number, gate);
        }
    }
}

/// As `run_workers`, for a prepared search by workers that share `links`, with a floor as high as what is known of the
/// root. What they find of the root's moves they tell the bounds of `links`.
#[inline(never)]
pub(crate) fn run<'w, 't, R: Threads + Sync, G: Gate>(
    means: &Means<'w, R, G>,
    search: &Search,
    links: Links<'w>,
    seat: &mut FloorSeat,
    table: &mut Option<TableCells<'t>>,
) -> Gathered
    requires seat { IsSeatOf links.floor.now seat.old }
    requires raised { links.root.now.interval.lower ≤ℤ floor_after seat.old.seen }
    ensures seat { LendsFloor seat.old seat.new }
    ensures table { LendsTable table.old table.new }
    ensures gathered { AreGathered search.now.frontier.now search.now.scoring result }
    ensures lists { HasLists means.now.workers result.drawn }
{
    let alloc = means.alloc;
    let ranks = ranks(search);
    let Ok((tasks, hands)) = Tasks::by_rank(alloc, search.frontier, ranks.as_slice(), means.workers)
    else {
        return nothing_drawn(alloc, search);
    };
    let count = hands.len();
    let items = search.frontier.len() as usize;
    let (Some(workers), Ok(duties), Ok(room), Ok(replies), Ok(told)) = (
        workers_of(means, search, links, seat, table),
        Vec::with_capacity(alloc, count),
        Vec::with_capacity(alloc, count),
        Vec::with_capacity(alloc, items),
        Vec::with_capacity(alloc, items),
    ) else {
        let drawn = tasks.close(hands);
        let replies = Vec::new(alloc);
        return Gathered { drawn, replies };
    };
    let duties = duties_of(alloc, search, hands, workers, duties);
    let duties = run_duties(means, search, &tasks, duties);
    let replies = collect_replies(duties.as_slice(), replies);
    let replies = told_by_all(duties.as_slice(), replies.as_slice(), told);
    let hands = hands_in(room, duties);
    let drawn = tasks.close(hands);
    Gathered { drawn, replies }
}

/// Makes the hints that several workers share. None where there is one worker, which needs none, or no memory.
pub(crate) fn hints_for<R, G>(means: &Means<R, G>, search: &Search) -> Option<Hints> {
    if means.workers == 1 {
        return None;
    }
    Hints::new(means.alloc, orders_for(search.moves.root().board.empties()))
}

/// Makes the list of bounds of the root's moves that several workers share. None where there is one worker, which needs
/// none, or no memory.
pub(crate) fn bounds_for<R, G>(means: &Means<R, G>, root: &Solved) -> Option<MoveBounds> {
    if means.workers == 1 {
        return None;
    }
    let root = Root {
        board: root.board,
        scoring: root.scoring,
    };
    MoveBounds::new(means.alloc, root)
}

// What is gathered where nobody drew anything: all items are left.
#[inline(never)]
fn nothing_drawn(alloc: Global, search: &Search) -> Gathered
    ensures gathered { AreGathered search.now.frontier.now search.now.scoring result }
    ensures lists { lists_of result.drawn ≡ [] }
{
    Gathered {
        drawn: Drawn::nothing(alloc, search.frontier.len()),
        replies: Vec::new(alloc),
    }
}

// Makes the workers, which have searched nothing yet. None where there is no memory for them or for their seats of the
// floor.
fn workers_of<'w, 't, R, G: Gate>(
    means: &Means<'w, R, G>,
    search: &Search,
    links: Links<'w>,
    seat: &mut FloorSeat,
    table: &mut Option<TableCells<'t>>,
) -> Option<Vec<Worker<'w, WorkerCells<'t>, G>>>
    requires { IsSeatOf links.floor.now seat.old }
    ensures seat { LendsFloor seat.old seat.new }
    ensures table { LendsTable table.old table.new }
    ensures many { IfSome result (λ workers. vec_len workers ≡ means.now.workers) }
{
    let alloc = means.alloc;
    let Ok(mut workers) = Vec::with_capacity(alloc, means.workers as usize) else {
        return None;
    };
    let empties = search.moves.root().board.empties();
    for _ in 0..means.workers {
        let Ok(own) = links.floor.seat(alloc, seat) else {
            return None;
        };
        let root_bound = RootBound::of(links.floor, own);
        let seats = Seats {
            root_bound,
            hints: HintSeat::of(links.hints),
            bounds: BoundsSeat::of(links.bounds),
            announcer: Announcer::of(alloc, links.announced),
        };
        let cells = worker_cells(alloc, empties, search.shape.sharing, table);
        workers.push_reserved(Worker::of(search, alloc, cells, seats, means.gate));
    }
    Some(workers)
}
