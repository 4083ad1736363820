//! A table as a gate sees it.

use oth_rules::{Board, Scoring, Square};
use oth_search::Cells;
use oth_table::TableCells;
use oth_walk::{Sharing, WorkerCells, worker_cells};
use std::alloc::Global;
use std::sync::Mutex;
use std::thread;

// Whether the cells have an entry of the board.
pub(super) fn has_entry<'t>(cells: &mut WorkerCells<'t>, board: &Board) -> bool {
    let (least, _) = board.canonical();
    cells.look(&least, Scoring::Winner).is_some()
}

// A seat of the table on which a board is searched.
#[derive(Drop)]
pub(super) struct TableView<'t> {
    cells: Mutex<WorkerCells<'t>>,
    root: Board,
}

impl<'t> TableView<'t> {
    pub(super) fn of(
        alloc: Global,
        access: &mut Option<TableCells<'t>>,
        root: Board,
    ) -> TableView<'t> {
        TableView {
            cells: Mutex::new(worker_cells(alloc, 0, Sharing::Apart, access)),
            root,
        }
    }

    // How many of the boards after the root's moves the table has; 64 where another thread looks at it all the time.
    pub(super) fn known(&self) -> u64 {
        for _ in 0..1_000_000 {
            if let Some(mut cells) = self.cells.try_lock() {
                return known_children(&mut *cells, &self.root);
            }
            thread::yield_now();
        }
        64
    }

    // Whether the table has the board after this move of the root. While a worker writes its cell there is nothing to
    // see, so it is looked at for a while, which is short beside a search.
    pub(super) fn has(&self, square: Square) -> bool {
        match self.root.play(square) {
            Some(child) => self.is_there(&child, 1_000),
            None => false,
        }
    }

    // Whether the table has this board.
    pub(super) fn has_board(&self, board: &Board) -> bool {
        self.is_there(board, 10)
    }

    // Whether one of `looks` looks finds the board.
    pub(super) fn is_there(&self, board: &Board, looks: u32) -> bool {
        for _ in 0..looks {
            if let Some(mut cells) = self.cells.try_lock() {
                if has_entry(&mut *cells, board) {
                    return true;
                }
            }
            if looks > 1 {
                thread::yield_now();
            }
        }
        false
    }
}

// How many of the boards after the root's moves the cells have.
fn known_children<'t>(cells: &mut WorkerCells<'t>, root: &Board) -> u64 {
    let mut known = 0;
    for number in 0..64 {
        if let Some(child) = root.play(Square::numbered(number)) {
            if has_entry(cells, &child) {
                known = u64::saturating_add(known, 1);
            }
        }
    }
    known
}
