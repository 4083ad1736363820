//! That each item is announced before anybody searches it: at the announcement nothing of its board is known yet.

ghost use Rattle.std.specs.Prelude.{◌≡◌, ◌≤◌, true};
ghost use Rattle.oth_rules.specs.Position.{empty_count};
ghost use Rattle.oth_rules.specs.Move.{can_move};
ghost use Rattle.oth_pieces.specs.Hands.{IsCrew};

use super::fixtures::{board_of, floor_of, table_of};
use super::noting::{Counts, Tally};
use super::view::TableView;
use super::{BOARDS, WITH_PASSES};
use oth_pieces::{Frontier, awake};
use oth_pool::run_workers;
use oth_rules::samples::least_moves_from;
use oth_rules::{Board, Scoring, Square};
use oth_search::backed_up_from;
use oth_table::TableCells;
use oth_walk::{Gate, Open};
use std::process::Abort;
use std::thread::Threads;

// Looks in the table for the board of each item, when it is announced and when its search has ended.
#[derive(Drop)]
struct Looking<'t> {
    view: TableView<'t>,
    frontier: &'t Frontier,
    // How often it looks for an item that is announced.
    looks: u32,
    tally: Tally,
}

impl<'t> Looking<'t> {
    // Whether one of `looks` looks finds the item's board.
    fn has(&self, task: u32, looks: u32) -> bool {
        match self.frontier.item(task) {
            Some(board) => self.view.is_there(&board, looks),
            None => false,
        }
    }
}

impl<'t> Gate for Looking<'t> {
    fn before(&self, task: u32) {
        self.tally.begin(task, self.has(task, self.looks));
    }

    fn after(&self, task: u32) {
        self.tally.end(task, self.has(task, 10));
    }
}

// The board of `empties` empty squares that follows on the one of these words by its least-numbered moves.
pub(super) fn line_to(rt: &impl Abort, words: [u64; 2], empties: u8) -> Board
    ensures few { empty_count result ≤ 30 }
    ensures some { can_move result ≡ true }
{
    let Some(board) = least_moves_from(board_of(rt, words), empties) else {
        panic!(rt; "no line")
    };
    if board.empties() != empties || empties > 30 || !board.can_move() {
        panic!(rt; "no such line")
    }
    board
}

// The board of these words, with items apart and a pass in the first two plies.
pub(super) fn with_passes(rt: &impl Abort, words: [u64; 2]) -> Board
    ensures few { empty_count result ≤ 30 }
    ensures some { can_move result ≡ true }
{
    let board = board_of(rt, words);
    assert!(rt; board.can_move());
    assert!(rt; are_apart(&Frontier::of(&board, 2)));
    assert!(rt; passes_after_move(&board) || passes_after_reply(&board));
    board
}

// Whether the opponent must pass after a move.
fn passes_after_move(board: &Board) -> bool {
    for number in 0..64 {
        if let Some(child) = board.play(Square::numbered(number)) {
            if awake(child).1 {
                return true;
            }
        }
    }
    false
}

// Whether the mover must pass after a reply to a move.
fn passes_after_reply(board: &Board) -> bool {
    for number in 0..64 {
        if let Some(child) = board.play(Square::numbered(number)) {
            if child.can_move() && passes_after_move(&child) {
                return true;
            }
        }
    }
    false
}

// Whether no item's board is an image of another item's, so that none is known by the search of another one.
pub(super) fn are_apart(frontier: &Frontier) -> bool {
    for number in 0..frontier.len() {
        for other in 0..number {
            if image(frontier, number) == image(frontier, other) {
                return false;
            }
        }
    }
    true
}

// The canonical image of the item's board.
pub(super) fn image(frontier: &Frontier, number: u32) -> Option<Board> {
    let board = frontier.item(number)?;
    Some(board.canonical().0)
}

// What `workers` workers over a table of `cells` cells announced.
fn announced_by<R: Threads + Sync + AllocGlobal + Abort>(
    rt: &R,
    root: &Board,
    workers: u8,
    cells: u32,
) -> Counts
    requires few { empty_count root.now ≤ 30 }
    requires crew { IsCrew workers }
{
    let frontier = Frontier::of(root, 2);
    let (floor, mut seat) = floor_of(rt, root);
    let (table, own) = table_of(rt, cells);
    let mut access = Some(TableCells::of(&table, own));
    let gate = Looking {
        view: TableView::of(rt.alloc(), &mut access, *root),
        frontier: &frontier,
        looks: if workers < 16 { 1 } else { 0 },
        tally: Tally::new(),
    };
    let alloc = rt.alloc();
    let found = run_workers(
        rt,
        alloc,
        &frontier,
        &floor,
        &mut seat,
        workers,
        &mut access,
        &gate,
    );
    assert!(rt; found.drawn.left.is_empty());
    gate.tally.counts(rt, frontier.len())
}

#[test]
fn workers_announce_each_item_before_anybody_searches_it(rt: HostRuntime) {
    for words in BOARDS {
        for empties in 9..=14 {
            let root = line_to(&rt, words, empties);
            for workers in [1, 2, 4] {
                announced_by(&rt, &root, workers, 65_536);
            }
        }
    }
}

// By each number of workers over smaller tables. Of 16 workers, which share the processors, the gate looks at the end
// alone: who waits for another one in `before` doesn't wait for long.
fn check_announced<R: Threads + Sync + AllocGlobal + Abort>(rt: &R, root: &Board)
    requires few { empty_count root.now ≤ 30 }
{
    for workers in [1, 2, 4, 16] {
        for cells in [1, 4_096] {
            announced_by(rt, root, workers, cells);
        }
    }
}

#[test]
fn workers_over_smaller_tables_announce_each_item_before_they_search_it(rt: HostRuntime) {
    check_announced(&rt, &line_to(&rt, BOARDS[1], 11));
    check_announced(&rt, &line_to(&rt, BOARDS[2], 12));
    for words in &WITH_PASSES[1..] {
        check_announced(&rt, &with_passes(&rt, *words));
    }
}

#[test]
fn few_items_are_searched_by_workers_over_a_table(rt: HostRuntime) {
    for words in BOARDS {
        let root = line_to(&rt, words, 14);
        for workers in [1, 2, 4] {
            let counts = announced_by(&rt, &root, workers, 65_536);
            assert!(rt; counts.are_few_searched(), "{workers} workers: {counts:?}");
        }
    }
}

// The floor after `workers` workers have searched all items of the board, over the table at hand if there is one, and
// the lower bound of the root by their replies.
fn bounds_by<'t, R: Threads + Sync + AllocGlobal + Abort>(
    rt: &R,
    root: &Board,
    workers: u8,
    access: &mut Option<TableCells<'t>>,
) -> (i8, i8)
    requires few { empty_count root.now ≤ 30 }
    requires crew { IsCrew workers }
{
    let frontier = Frontier::of(root, 2);
    let (floor, mut seat) = floor_of(rt, root);
    let alloc = rt.alloc();
    let found = run_workers(
        rt, alloc, &frontier, &floor, &mut seat, workers, access, &Open,
    );
    let mut replies = Vec::new(alloc);
    for reply in found.replies.as_slice() {
        let _ = replies.push(reply.solved);
    }
    let told = backed_up_from(*root, 2, replies.as_slice(), Scoring::Winner);
    (floor.read(&mut seat), told.interval.lower)
}

#[test]
fn replies_bound_the_root_as_the_floor_does(rt: HostRuntime) {
    for words in BOARDS {
        let root = line_to(&rt, words, 12);
        for workers in [1, 2, 4] {
            let (floor, told) = bounds_by(&rt, &root, workers, &mut None);
            assert!(rt; told >= floor, "{workers} workers without a table");
            let (table, own) = table_of(&rt, 65_536);
            let mut access = Some(TableCells::of(&table, own));
            let (floor, told) = bounds_by(&rt, &root, workers, &mut access);
            assert!(rt; told >= floor, "{workers} workers over a table");
        }
    }
}
