//! What those who help do: they begin each batch, and go on past jobs that others have taken.

use super::images;
use oth_batch::{Asked, Batch, Crew, Jobs};
use oth_pool::Gate;
use oth_rules::{Board, Scoring};
use std::alloc::Global;
use std::sync::Wait;
use std::sync::atomic::{AtomicU64, Ordering};
use std::test::Fail;
use std::thread;
use std::thread::Threads;

/// Counts the searches that are begun, and hears of nothing else.
#[derive(Drop)]
pub(super) struct Begun {
    searches: AtomicU64,
}

impl Begun {
    /// None is begun.
    pub(super) fn new() -> Begun {
        Begun {
            searches: AtomicU64::new(0),
        }
    }

    /// The number of searches that are begun.
    pub(super) fn number(&self) -> u64 {
        self.searches.load(Ordering::SeqCst)
    }

    // Whether this number of searches is begun, or will be in a while.
    fn reaches(&self, searches: u64) -> bool {
        for _ in 0..10_000_000 {
            if self.number() >= searches {
                return true;
            }
            thread::yield_now();
        }
        false
    }
}

impl Gate for Begun {
    fn before(&self, _task: u32) {}

    fn after(&self, _task: u32) {}

    fn begins(&self, _board: &Board) {
        let _ = self.searches.fetch_add(1, Ordering::SeqCst);
    }

    fn hears(&self) -> bool {
        false
    }
}

/// A batch for four workers, whose searches are counted.
pub(super) fn heard_batch<'b, T: Threads + Sync + AllocGlobal>(
    rt: &'b T,
    gate: &'b Begun,
) -> Batch<'b, T, Begun> {
    Batch {
        rt,
        alloc: rt.alloc(),
        gate,
        book: None,
        workers: 4,
        cells: 64,
        scoring: Scoring::Discs,
    }
}

/// The images of two boards, one of 8 and one of 7 empty squares, each three times.
pub(super) fn few(alloc: Global) -> Option<Vec<Board>> {
    let boards = images(alloc, 8)?;
    let mut few = Vec::new(alloc);
    for _ in 0..3 {
        few.extend_from_slice(boards.as_slice()).ok()?;
    }
    Some(few)
}

// The run asks for nothing, so whoever begins a search is a helper. Of the larger boards one image of each is searched.
#[test]
fn a_crew_begins_each_batch_by_itself(rt: HostRuntime) -> Result<(), Fail> {
    let (Some(few), Some(many)) = (few(rt.alloc()), images(rt.alloc(), 10)) else {
        panic!(rt; "no boards")
    };
    let gate = Begun::new();
    let batch = heard_batch(&rt, &gate);
    let crew = Crew::of(&batch, Jobs::of(&batch, Asked::Answer, many.as_slice()));
    assert!(rt; crew.helpers() >= 1);
    let mut work = || {
        let mut searches = 2u64;
        if !gate.reaches(searches) {
            return false;
        }
        for (boards, searched) in [(few.as_slice(), 48), (many.as_slice(), 2)] {
            crew.give(Jobs::of(&batch, Asked::Answer, boards));
            searches = searches.saturating_add(searched);
            if !gate.reaches(searches) {
                return false;
            }
        }
        true
    };
    assert!(rt; crew.beside(&mut work));
    Ok(())
}

// Whether who works does the jobs of all these boards but the first one's, which was taken: then this
// number of searches is begun.
fn goes_on_past_the_first<T: Wait + Threads + Sync + AllocGlobal>(
    rt: &T,
    boards: &[Board],
    searches: u64,
) -> bool {
    let gate = Begun::new();
    let batch = heard_batch(rt, &gate);
    let Some(jobs) = Jobs::of(&batch, Asked::Answer, boards) else {
        return false;
    };
    let Some(first) = boards.first() else {
        return false;
    };
    if jobs.answer_of(rt, first).is_none() || gate.number() >= searches {
        return false;
    }
    jobs.work();
    gate.number() == searches
}

#[test]
fn who_works_goes_on_past_a_job_that_is_taken(rt: HostRuntime) -> Result<(), Fail> {
    let (Some(few), Some(many)) = (few(rt.alloc()), images(rt.alloc(), 10)) else {
        panic!(rt; "no boards")
    };
    assert!(rt; goes_on_past_the_first(&rt, many.as_slice(), 2));
    assert!(rt; goes_on_past_the_first(&rt, few.as_slice(), 48));
    Ok(())
}
