//! What a gate hears of how far a search is.

use super::super::crews::BOARDS;
use super::super::fixtures::{answer_of, board_of};
use oth_pool::{Gate, solve};
use oth_rules::{Board, Scoring};
use oth_search::Solved;
use std::process::Abort;
use std::sync::atomic::{AtomicU64, Ordering};
use std::thread::Threads;

// Hears how far a search is.
#[derive(Drop)]
struct Following {
    // How often it was told what is known, and how often when the first item was announced.
    told: AtomicU64,
    at_first: AtomicU64,
    // The most moves that were told to be settled, and the last bounds, each plus 64.
    settled: AtomicU64,
    lower: AtomicU64,
    upper: AtomicU64,
}

impl Following {
    fn new() -> Self {
        Following {
            told: AtomicU64::new(0),
            at_first: AtomicU64::new(u64::MAX),
            settled: AtomicU64::new(0),
            lower: AtomicU64::new(0),
            upper: AtomicU64::new(0),
        }
    }
}

impl Gate for Following {
    fn before(&self, _task: u32) {
        let told = self.told.load(Ordering::SeqCst);
        self.at_first.fetch_min(told, Ordering::SeqCst);
    }

    fn after(&self, _task: u32) {}

    fn follows(&self) -> bool {
        true
    }

    fn goes_on(&self, root: &Solved, settled: u64) {
        self.told.fetch_add(1, Ordering::SeqCst);
        self.settled.fetch_max(settled, Ordering::SeqCst);
        let lower = (root.interval.lower as i16 + 64) as u64;
        let upper = (root.interval.upper as i16 + 64) as u64;
        self.lower.fetch_max(lower, Ordering::SeqCst);
        self.upper.store(upper, Ordering::SeqCst);
    }
}

// The answer's score plus 64, where `workers` workers answer as one alone does.
fn followed<R: Threads + Sync + AllocGlobal + Abort>(
    rt: &R,
    board: &Board,
    workers: u8,
    cells: u32,
    gate: &Following,
) -> u64 {
    let alone = answer_of(rt, board, Scoring::Winner);
    let score = alone.score;
    let alloc = rt.alloc();
    let found = solve(
        rt,
        alloc,
        board,
        workers,
        cells,
        gate,
        None,
        Scoring::Winner,
    );
    assert!(rt; found == Ok(alone));
    (score.max(-64) as i16 + 64) as u64
}

#[test]
fn one_worker_tells_how_far_it_is(rt: HostRuntime) {
    let board = board_of(&rt, BOARDS[1]);
    let moves = u64::from(board.moves().count_ones());
    for cells in [0, 4096] {
        let gate = Following::new();
        let score = followed(&rt, &board, 1, cells, &gate);
        assert!(rt; gate.at_first.load(Ordering::SeqCst) == 0);
        assert!(rt; gate.told.load(Ordering::SeqCst) >= moves);
        assert!(rt; gate.settled.load(Ordering::SeqCst) == moves);
        assert!(rt; gate.lower.load(Ordering::SeqCst) == score);
        assert!(rt; gate.upper.load(Ordering::SeqCst) == score);
    }
}

#[test]
fn workers_tell_how_far_they_are(rt: HostRuntime) {
    let board = board_of(&rt, BOARDS[1]);
    let moves = u64::from(board.moves().count_ones());
    for cells in [0, 4096] {
        let gate = Following::new();
        let score = followed(&rt, &board, 4, cells, &gate);
        assert!(rt; gate.at_first.load(Ordering::SeqCst) == 0);
        assert!(rt; gate.settled.load(Ordering::SeqCst) == moves);
        assert!(rt; gate.lower.load(Ordering::SeqCst) == score);
        assert!(rt; gate.upper.load(Ordering::SeqCst) >= score);
    }
}
