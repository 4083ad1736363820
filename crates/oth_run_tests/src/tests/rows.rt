//! Lines, each run by itself, and what is written of them.

mod answers;
mod faults;
mod moves;
mod scores;

use super::{NO_FAILURE, walk};
use oth_words::Settings;
use std::process::Abort;
use std::sync::Wait;
use std::thread::Threads;

// Runs each line by itself, a byte a read and a byte a write.
fn check_rows<R: Wait + Threads + Sync + AllocGlobal + Abort>(
    rt: &R,
    settings: &Settings,
    rows: &[(&[u8], &[u8])],
) {
    for (line, report) in rows {
        let done = walk(rt, settings, line, NO_FAILURE, NO_FAILURE);
        assert!(rt; done.result == Ok(()));
        assert!(rt; done.writer.taken() == *report);
    }
}
