//! A run with a book searches no board that the book has, and reports as one without.

use super::super::{NO_FAILURE, by_two_workers, unseen};
use super::{BOOK_OF_A, TWO_LINES};
use oth_book::Book;
use oth_main::{open_book, run};
use oth_pool::Gate;
use oth_rules::Scoring;
use oth_text::fakes::{BrokenSource, ByteSink};
use std::process::Abort;
use std::sync::Wait;
use std::sync::atomic::{AtomicU64, Ordering};
use std::thread::Threads;

// Counts the searches of items that are announced.
#[derive(Drop)]
struct Counting {
    calls: AtomicU64,
}

impl Gate for Counting {
    fn before(&self, _task: u32) {
        let _ = self.calls.fetch_add(1, Ordering::SeqCst);
    }

    fn after(&self, _task: u32) {}
}

// What a run with the book writes of the lines, and how many searches its gate hears of.
fn run_by<R: Wait + Threads + Sync + AllocGlobal>(
    rt: &R,
    book: &Book,
    input: &[u8],
    scoring: Scoring,
) -> Option<(ByteSink<64>, u64)> {
    let gate = Counting {
        calls: AtomicU64::new(0),
    };
    let mut reader = BrokenSource::new(input, NO_FAILURE);
    let mut writer = ByteSink::<64>::new(NO_FAILURE);
    run(
        rt,
        rt.alloc(),
        &mut reader,
        &mut writer,
        &by_two_workers(scoring),
        &gate,
        Some(book),
    )
    .ok()?;
    Some((writer, gate.calls.load(Ordering::SeqCst)))
}

// Runs with the book of the file, and looks at what is written and at how many searches are heard of.
fn check_run<R: Wait + Threads + Sync + AllocGlobal + Abort>(
    rt: &R,
    file: &[u8],
    input: &[u8],
    scoring: Scoring,
    report: &[u8],
    searches: u64,
) {
    let Ok(book) = open_book(rt, rt.alloc(), file, 2, 64, &unseen()) else {
        panic!(rt; "no book")
    };
    match run_by(rt, &book, input, scoring) {
        Some((writer, calls)) => {
            assert!(rt; writer.taken() == report);
            assert!(rt; calls == searches);
        }
        None => panic!(rt; "a fault"),
    }
}

// Two images of A.
const IMAGES: &[u8] = b"-OOOXO--OOOOOOOOOOOOOOOOOOOOOOOOOOOOOOOOOOOOOOOOOOOOOOOOOOOOOOOO X\n\
      OOOOOOOOOOOOOOOOOOOOOOOOOOOOOOOOOOOOOOOOOOOOOOOOOOOOOOOO-OOOXO-- X\n";

#[test]
fn boards_of_the_book_are_not_searched(rt: HostRuntime) {
    let winner = Scoring::Winner;
    check_run(&rt, BOOK_OF_A, IMAGES, winner, b"-50 a1\n-50 a8\n", 0);
    check_run(&rt, BOOK_OF_A, TWO_LINES, winner, b"-50 h1\n+64 a1 h1\n", 2);
    check_run(
        &rt,
        BOOK_OF_A,
        IMAGES,
        Scoring::Discs,
        b"-49 a1\n-49 a8\n",
        4,
    );
}

// Bounds in a book, of which the lower one is the value.
const BOUNDS_OF_A: &[u8] =
    b"OBOOK2 W\n--OXOOO-OOOOOOOOOOOOOOOOOOOOOOOOOOOOOOOOOOOOOOOOOOOOOOOOOOOOOOOO -50 -40 0000000000000000\n\
      END 000001\n";

#[test]
fn bounds_of_the_book_leave_the_report(rt: HostRuntime) {
    let winner = Scoring::Winner;
    check_run(&rt, BOUNDS_OF_A, IMAGES, winner, b"-50 a1\n-50 a8\n", 4);
    check_run(
        &rt,
        BOUNDS_OF_A,
        TWO_LINES,
        winner,
        b"-50 h1\n+64 a1 h1\n",
        4,
    );
}
