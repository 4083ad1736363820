//! What workers do before the first call of a gate, and what they leave behind them.

use super::fixtures::{board_of, floor_of, table_of};
use super::view::{TableView, has_entry};
use super::{A, BOARDS};
use oth_pieces::Frontier;
use oth_pool::run_workers;
use oth_rules::{Board, Square};
use oth_table::{Look, TableCells};
use oth_walk::{Gate, Open, Sharing, worker_cells};
use std::process::Abort;
use std::sync::atomic::{AtomicU64, Ordering};
use std::test::Fail;
use std::thread::Threads;

#[test]
fn the_floor_is_raised_to_the_value(rt: HostRuntime) -> Result<(), Fail> {
    let a = board_of(&rt, A);
    for workers in [1, 2] {
        let frontier = Frontier::of(&a, 1);
        let (floor, mut seat) = floor_of(&rt, &a);
        let alloc = rt.alloc();
        let found = run_workers(
            &rt, alloc, &frontier, &floor, &mut seat, workers, &mut None, &Open,
        );
        assert!(rt; found.replies.len() == 2);
        assert!(rt; floor.read(&mut seat) == -50);
    }
    Ok(())
}

// Whether the caller's seat finds something in the table of one cell, when two workers have searched these items.
fn check_left<R: Threads + Sync + AllocGlobal + Abort>(rt: &R, root: &Board, frontier: &Frontier) {
    let (floor, mut seat) = floor_of(rt, root);
    let (table, own) = table_of(rt, 1);
    let mut access = Some(TableCells::of(&table, own));
    let alloc = rt.alloc();
    let found = run_workers(
        rt,
        alloc,
        frontier,
        &floor,
        &mut seat,
        2,
        &mut access,
        &Open,
    );
    assert!(rt; found.drawn.left.is_empty());
    let Some(access) = access else {
        panic!(rt; "the table is gone")
    };
    let mut own = access.into_seat();
    assert!(rt; table.cells() == 1);
    assert!(rt; matches!(&table.look(&mut own, 0), Look::Whole(_)));
}

#[test]
fn the_callers_seat_looks_at_what_workers_left(rt: HostRuntime) {
    let a = board_of(&rt, A);
    check_left(&rt, &a, &Frontier::of(&a, 1));
    check_left(&rt, &a, &Frontier::of(&a, 2));
}

#[test]
fn workers_search_over_the_table(rt: HostRuntime) -> Result<(), Fail> {
    let a = board_of(&rt, A);
    let frontier = Frontier::of(&a, 1);
    let (floor, mut seat) = floor_of(&rt, &a);
    let (table, own) = table_of(&rt, 1);
    let mut access = Some(TableCells::of(&table, own));
    let found = run_workers(
        &rt,
        rt.alloc(),
        &frontier,
        &floor,
        &mut seat,
        2,
        &mut access,
        &Open,
    );
    assert!(rt; found.drawn.left.is_empty() && found.replies.len() == 2);
    let mut cells = worker_cells(rt.alloc(), 0, Sharing::Apart, &mut access);
    let mut whole = false;
    for number in [1, 7] {
        if let Some(child) = a.play(Square::numbered(number)) {
            whole = whole || has_entry(&mut cells, &child) || has_entry(&mut cells, &child.pass());
        }
    }
    assert!(rt; whole);
    Ok(())
}

// Looks for the boards after the root's moves when the first item is announced, and for the first item whose search
// ends when it has ended.
#[derive(Drop)]
struct Watching<'t> {
    view: TableView<'t>,
    frontier: &'t Frontier,
    begun: AtomicU64,
    ended: AtomicU64,
    // How many boards after moves were there at first, and whether the item was there then.
    moves: AtomicU64,
    item: AtomicU64,
}

impl<'t> Gate for Watching<'t> {
    fn before(&self, _task: u32) {
        if self.begun.fetch_add(1, Ordering::SeqCst) == 0 {
            self.moves.store(self.view.known(), Ordering::SeqCst);
        }
    }

    fn after(&self, task: u32) {
        if self.ended.fetch_add(1, Ordering::SeqCst) != 0 {
            return;
        }
        if let Some(board) = self.frontier.item(task) {
            if self.view.has_board(&board) {
                self.item.store(1, Ordering::SeqCst);
            }
        }
    }
}

#[test]
fn nothing_is_searched_before_the_first_item_is_announced(rt: HostRuntime) -> Result<(), Fail> {
    let root = board_of(&rt, BOARDS[0]);
    let frontier = Frontier::of(&root, 2);
    let (floor, mut seat) = floor_of(&rt, &root);
    let (table, own) = table_of(&rt, 4096);
    let mut access = Some(TableCells::of(&table, own));
    let gate = Watching {
        view: TableView::of(rt.alloc(), &mut access, root),
        frontier: &frontier,
        begun: AtomicU64::new(0),
        ended: AtomicU64::new(0),
        moves: AtomicU64::new(64),
        item: AtomicU64::new(0),
    };
    let alloc = rt.alloc();
    let found = run_workers(
        &rt,
        alloc,
        &frontier,
        &floor,
        &mut seat,
        1,
        &mut access,
        &gate,
    );
    assert!(rt; found.drawn.left.is_empty());
    assert!(rt; gate.moves.load(Ordering::SeqCst) == 0);
    assert!(rt; gate.item.load(Ordering::SeqCst) == 1);
    Ok(())
}
