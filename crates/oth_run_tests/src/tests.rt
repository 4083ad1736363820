//! Runs over rows and over devices that fail. The expected lines are those that the rules and the formats give.

mod batches;
mod devices;
mod games;
mod gates;
mod heard;
mod refused;
mod rows;

use oth_pool::Open;
use oth_rules::Scoring;
use oth_run::{RunFault, run};
use oth_text::fakes::{BrokenSource, ByteSink};
use oth_words::{Command, Settings};
use std::sync::Wait;
use std::thread::Threads;

const NO_FAILURE: usize = usize::MAX;

fn settings(command: Command, scoring: Scoring) -> Settings {
    Settings {
        command,
        workers: 1,
        cells: 0,
        scoring,
    }
}

fn by_two_workers(scoring: Scoring) -> Settings {
    Settings {
        workers: 2,
        cells: 1,
        ..settings(Command::Solve, scoring)
    }
}

// What a run did: how it ended, how often each device was called, and what was written.
#[derive(Drop)]
struct Walked {
    result: Result<(), RunFault>,
    reads: u64,
    writes: u64,
    writer: ByteSink<512>,
}

// A run with a reader that gives one byte a call and fails after some, and a writer that takes one byte a call and
// fails after some.
fn walk<R: Wait + Threads + Sync + AllocGlobal>(
    rt: &R,
    settings: &Settings,
    input: &[u8],
    until_read: usize,
    until_write: usize,
) -> Walked {
    let mut reader = BrokenSource::new(input, until_read).in_steps(1);
    let mut writer = ByteSink::new(until_write);
    let result = run(
        rt,
        rt.alloc(),
        &mut reader,
        &mut writer,
        settings,
        &Open,
        None,
    );
    Walked {
        result,
        reads: reader.calls(),
        writes: writer.calls(),
        writer,
    }
}
