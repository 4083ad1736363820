//! That several workers work at once: gates that hold an item until others have begun or ended.

use super::super::C;
use super::super::crews::BOARDS;
use super::super::fixtures::{answer_of, board_of};
use super::{Hearing, by_two};
use oth_pool::solve;
use oth_rules::Scoring;
use oth_walk::Gate;
use std::process::Abort;
use std::sync::atomic::{AtomicU64, Ordering};
use std::thread;
use std::thread::Threads;

// Each of the first two items waits a while until the search of the other one has begun.
#[derive(Drop)]
struct Meeting {
    hearing: Hearing,
    given_up: AtomicU64,
}

impl Meeting {
    fn has_begun(&self, task: u32) -> bool {
        let heard = self.hearing.before.load(Ordering::SeqCst);
        task < 16 && heard >> (4 * task) & 15 != 0
    }
}

impl Gate for Meeting {
    fn before(&self, task: u32) {
        self.hearing.before(task);
        if task >= 2 {
            return;
        }
        for _ in 0..10_000_000 {
            if self.has_begun(1 - task) {
                return;
            }
            thread::yield_now();
        }
        self.given_up.store(1, Ordering::SeqCst);
    }

    fn after(&self, task: u32) {
        self.hearing.after(task);
    }
}

#[test]
fn two_workers_begin_the_two_items_at_once(rt: HostRuntime) {
    let gate = Meeting {
        hearing: Hearing::new(),
        given_up: AtomicU64::new(0),
    };
    let found = by_two(&rt, rt.alloc(), C, 0, &gate);
    assert!(rt; found == Some((64, 0x81)));
    assert!(rt; gate.hearing.heard_once(2));
    assert!(rt; gate.given_up.load(Ordering::SeqCst) == 0);
}

// Each item waits a while until as many searches as wanted have begun.
#[derive(Drop)]
struct Crowding {
    wanted: u64,
    begun: AtomicU64,
    given_up: AtomicU64,
}

impl Gate for Crowding {
    fn before(&self, _task: u32) {
        self.begun.fetch_add(1, Ordering::SeqCst);
        for _ in 0..10_000_000 {
            if self.begun.load(Ordering::SeqCst) >= self.wanted {
                return;
            }
            thread::yield_now();
        }
        self.given_up.store(1, Ordering::SeqCst);
    }

    fn after(&self, _task: u32) {}
}

// As many of `workers` workers as wanted begin an item each before any of these is searched.
fn check_at_once<R: Threads + Sync + AllocGlobal + Abort>(rt: &R, workers: u8, wanted: u64) {
    let board = board_of(rt, BOARDS[1]);
    for cells in [0, 64, 4096] {
        let gate = Crowding {
            wanted,
            begun: AtomicU64::new(0),
            given_up: AtomicU64::new(0),
        };
        let alloc = rt.alloc();
        let found = solve(
            rt,
            alloc,
            &board,
            workers,
            cells,
            &gate,
            None,
            Scoring::Winner,
        );
        assert!(rt; found.is_ok());
        assert!(rt; gate.given_up.load(Ordering::SeqCst) == 0, "{cells} cells");
    }
}

#[test]
fn two_workers_work_at_once(rt: HostRuntime) {
    check_at_once(&rt, 2, 2);
}

#[test]
fn three_workers_work_at_once(rt: HostRuntime) {
    check_at_once(&rt, 4, 3);
}

// The first item whose search ends waits a while until that of another one has ended.
#[derive(Drop)]
struct Holding {
    ended: AtomicU64,
    given_up: AtomicU64,
}

impl Gate for Holding {
    fn before(&self, _task: u32) {}

    fn after(&self, _task: u32) {
        if self.ended.fetch_add(1, Ordering::SeqCst) != 0 {
            return;
        }
        for _ in 0..100_000_000 {
            if self.ended.load(Ordering::SeqCst) > 1 {
                return;
            }
            thread::yield_now();
        }
        self.given_up.store(1, Ordering::SeqCst);
    }
}

fn check_held<R: Threads + Sync + AllocGlobal + Abort>(rt: &R, cells: u32) {
    let board = board_of(rt, BOARDS[1]);
    let alone = answer_of(rt, &board, Scoring::Winner);
    let gate = Holding {
        ended: AtomicU64::new(0),
        given_up: AtomicU64::new(0),
    };
    let alloc = rt.alloc();
    let found = solve(rt, alloc, &board, 2, cells, &gate, None, Scoring::Winner);
    assert!(rt; found == Ok(alone));
    assert!(rt; gate.given_up.load(Ordering::SeqCst) == 0);
}

#[test]
fn two_searches_end_in_two_threads(rt: HostRuntime) {
    check_held(&rt, 0);
    check_held(&rt, 65_536);
}
