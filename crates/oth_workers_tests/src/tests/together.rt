//! That each of several workers searches what it announces, and that sixteen of them agree.

use super::fixtures::{board_of, floor_of, table_of};
use super::view::TableView;
use super::{A, BOARDS};
use oth_pieces::{Floor, Frontier};
use oth_pool::run_workers;
use oth_rules::samples::board;
use oth_rules::{Board, Scoring};
use oth_search::{Answer, Kind, NoPeers, RootMoves, Solved, solve_moves};
use oth_table::{SharedTable, TableCells};
use oth_walk::{Gate, Open, Sharing, worker_cells};
use std::alloc::Global;
use std::process::Abort;
use std::sync::atomic::{AtomicU64, Ordering};
use std::test::Fail;
use std::thread;
use std::thread::Threads;

// Lets the first two items begin at once, which two workers draw. When the first search of each has ended, it looks
// whether the table has the item's board, or the board after its move, where the other worker decided that meanwhile.
#[derive(Drop)]
struct Beginning<'t> {
    view: TableView<'t>,
    frontier: &'t Frontier,
    begun: AtomicU64,
    // The numbers of the two items, each plus one.
    first: AtomicU64,
    second: AtomicU64,
    // Of how many of the two the table had something, and whether no second worker came.
    searched: AtomicU64,
    given_up: AtomicU64,
}

impl<'t> Beginning<'t> {
    fn of(view: TableView<'t>, frontier: &'t Frontier) -> Beginning<'t> {
        Beginning {
            view,
            frontier,
            begun: AtomicU64::new(0),
            first: AtomicU64::new(0),
            second: AtomicU64::new(0),
            searched: AtomicU64::new(0),
            given_up: AtomicU64::new(0),
        }
    }

    // Whether this is one of the two items.
    fn is_early(&self, task: u32) -> bool {
        let number = u64::from(task).saturating_add(1);
        self.first.load(Ordering::SeqCst) == number || self.second.load(Ordering::SeqCst) == number
    }

    // Waits a while until two items have begun.
    fn wait_for_two(&self) {
        for _ in 0..10_000_000 {
            if self.begun.load(Ordering::SeqCst) >= 2 {
                return;
            }
            thread::yield_now();
        }
        self.given_up.store(1, Ordering::SeqCst);
    }
}

impl<'t> Gate for Beginning<'t> {
    fn before(&self, task: u32) {
        let number = u64::from(task).saturating_add(1);
        match self.begun.fetch_add(1, Ordering::SeqCst) {
            0 => self.first.store(number, Ordering::SeqCst),
            1 => self.second.store(number, Ordering::SeqCst),
            _ => return,
        }
        self.wait_for_two();
    }

    fn after(&self, task: u32) {
        if !self.is_early(task) {
            return;
        }
        if let Some(item) = self.frontier.entry(task) {
            if self.view.has_board(&item.board) || self.view.has(item.square) {
                self.searched.fetch_add(1, Ordering::SeqCst);
            }
        }
    }
}

// Lets two workers search the items of the frontier over the table.
fn search_by_two<'t, R: Threads + Sync + AllocGlobal + Abort, G: Gate>(
    rt: &R,
    frontier: &Frontier,
    root: &Board,
    access: &mut Option<TableCells<'t>>,
    gate: &G,
) {
    let alloc = rt.alloc();
    let (floor, mut seat) = floor_of(rt, root);
    let found = run_workers(rt, alloc, frontier, &floor, &mut seat, 2, access, gate);
    assert!(rt; found.drawn.left.is_empty());
    assert!(rt; found.replies.len() == frontier.len() as usize);
}

#[test]
fn each_of_two_workers_searches_its_first_item(rt: HostRuntime) -> Result<(), Fail> {
    for words in BOARDS {
        let root = board_of(&rt, words);
        let frontier = Frontier::of(&root, 2);
        let (table, own) = table_of(&rt, 4_096);
        let mut access = Some(TableCells::of(&table, own));
        let view = TableView::of(rt.alloc(), &mut access, root);
        let gate = Beginning::of(view, &frontier);
        search_by_two(&rt, &frontier, &root, &mut access, &gate);
        assert!(rt; gate.given_up.load(Ordering::SeqCst) == 0);
        assert!(rt; gate.searched.load(Ordering::SeqCst) == 2);
    }
    Ok(())
}

// Boards by their own and opposing discs, with the score and the best moves: A, two images of it, and two more.
const ROWS: [([u64; 2], i8, u64); 5] = [
    (A, -50, 0x80),
    ([0x10, 0xffff_ffff_ffff_ff2e], -50, 0x1),
    (
        [0x1000_0000_0000_0000, 0x2eff_ffff_ffff_ffff],
        -50,
        0x0100_0000_0000_0000,
    ),
    ([0xffff_ffff_ffff_fcfc, 0x0000_0000_0000_0202], 64, 0x0101),
    (
        [0x3cff_ffff_ffff_ff3c, 0x4200_0000_0000_0042],
        64,
        0x8100_0000_0000_0081,
    ),
];

// The floor of the board of these discs, when sixteen workers over one cell have searched all its items, and the answer
// by the caller's search of all its moves over what they left in that cell.
fn by_sixteen<R: Threads + Sync>(rt: &R, alloc: Global, words: [u64; 2]) -> Option<(i8, Answer)> {
    let root = board(words)?;
    if !root.can_move() {
        return None;
    }
    let frontier = Frontier::of(&root, 2);
    let Ok((floor, mut seat)) = Floor::new(alloc, &root, Scoring::Winner) else {
        return None;
    };
    let Ok((table, own)) = SharedTable::new(alloc, 1, Scoring::Winner) else {
        return None;
    };
    let mut access = Some(TableCells::of(&table, own));
    let found = run_workers(
        rt,
        alloc,
        &frontier,
        &floor,
        &mut seat,
        16,
        &mut access,
        &Open,
    );
    if !found.drawn.left.is_empty() || found.drawn.lists.len() != 16 {
        return None;
    }
    let mut cells = worker_cells(alloc, 0, Sharing::Apart, &mut access);
    let moves = RootMoves::of(&Solved::unknown(root, Scoring::Winner), &[]);
    let answer = solve_moves(moves, &mut cells, &mut NoPeers);
    Some((floor.read(&mut seat), answer))
}

// `run_workers` starts as many as it is told, whatever the board. Of an answer the score, the best moves and the kind
// are compared, which is all that its line has.
#[test]
fn sixteen_workers_raise_the_floor_to_the_value_over_one_cell(rt: HostRuntime) {
    for _ in 0..100 {
        for (words, score, best) in &ROWS {
            let Some((floor, answer)) = by_sixteen(&rt, rt.alloc(), *words) else {
                panic!(rt; "no workers")
            };
            assert!(rt; floor == *score, "the board of {}", words[0]);
            let told = (answer.score, answer.best, answer.kind);
            assert!(rt;
                told == (*score, *best, Kind::Move),
                "the board of {}",
                words[0]
            );
        }
    }
}
