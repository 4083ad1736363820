//! Out of memory. Each of these tests holds whichever one of its requests for memory is refused; `hostile/refusals.py`
//! runs each of them once for each request, thread starts among them.

use super::devices::{SCORED_TWO, TWO_LINES};
use super::{NO_FAILURE, by_two_workers, walk};
use oth_rules::Scoring;
use oth_words::{Command, Settings};
use std::process::Abort;
use std::sync::Wait;
use std::thread::Threads;

// The start, A, and a board of 14 empty squares, which two workers search together. Another solver gave its answer.
const LINES: &[u8] = b"---------------------------OX------XO--------------------------- X\n\
      --OXOOO-OOOOOOOOOOOOOOOOOOOOOOOOOOOOOOOOOOOOOOOOOOOOOOOOOOOOOOOO X\n\
      --XOOO-OO-OXOOO-OOOOXOOOOOOOOXOXOO-OOOXXOOOXXOOX-OXXXXXX--O----- X\n";

const SOLVED: &[u8] = b"error 5 60\n-50 h1\n-6 c5\n";

fn check_run<R: Wait + Threads + Sync + AllocGlobal + Abort>(rt: &R, cells: u32) {
    let asked = Settings {
        cells,
        ..by_two_workers(Scoring::Winner)
    };
    let done = walk(rt, &asked, LINES, NO_FAILURE, NO_FAILURE);
    assert!(rt; done.result == Ok(()));
    assert!(rt; done.writer.taken() == SOLVED);
}

#[test]
fn a_run_writes_the_same_report(rt: HostRuntime) {
    check_run(&rt, 1);
}

#[test]
fn a_run_without_cells(rt: HostRuntime) {
    check_run(&rt, 0);
}

#[test]
fn a_run_over_64_cells(rt: HostRuntime) {
    check_run(&rt, 64);
}

#[test]
fn a_run_of_scores_writes_the_same_report(rt: HostRuntime) {
    let asked = Settings {
        command: Command::Scores,
        ..by_two_workers(Scoring::Winner)
    };
    let done = walk(&rt, &asked, TWO_LINES, NO_FAILURE, NO_FAILURE);
    assert!(rt; done.result == Ok(()));
    assert!(rt; done.writer.taken() == SCORED_TWO);
}
