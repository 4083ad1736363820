//! The commands of the book, and runs with a book; books and additions that several of these tests take.

mod adding;
mod full;
mod runs;
mod verifying;

use super::{NO_FAILURE, unseen};
use oth_main::{Errors, Settings, book_add};
use oth_text::fakes::{BrokenSource, ByteSink};
use std::sync::Wait;
use std::thread::Threads;

pub(super) const EMPTY_BOOK: &[u8] = b"OBOOK2 W\nEND 000000\n";

pub(super) const BOOK_OF_A: &[u8] =
    b"OBOOK1\n--OXOOO-OOOOOOOOOOOOOOOOOOOOOOOOOOOOOOOOOOOOOOOOOOOOOOOOOOOOOOOO -50 0000000000000080\nEND 000001\n";

// The lines of two boards, and the book of both.
pub(super) const TWO_LINES: &[u8] =
    b"--OXOOO-OOOOOOOOOOOOOOOOOOOOOOOOOOOOOOOOOOOOOOOOOOOOOOOOOOOOOOOO X\n\
      -OXXXXO-XXXXXXXXXXXXXXXXXXXXXXXXXXXXXXXXXXXXXXXXXXXXXXXXXXXXXXXX X\n";

pub(super) const BOOK_OF_TWO: &[u8] =
    b"OBOOK2 W\n--OXOOO-OOOOOOOOOOOOOOOOOOOOOOOOOOOOOOOOOOOOOOOOOOOOOOOOOOOOOOOO -50 -50 0000000000000080\n\
      XXXXXXXXXXXXXXXXXXXXXXXXXXXXXXXXXXXXXXXXXXXXXXXXXXXXXXXX-OXXXXO- +64 +64 8100000000000000\nEND 000002\n";

// What an addition wrote on standard output and on standard error, how often it read, and its status.
#[derive(Drop)]
pub(super) struct Addition {
    pub(super) reads: u64,
    pub(super) writer: ByteSink<256>,
    pub(super) errors: ByteSink<64>,
    pub(super) status: u8,
}

pub(super) fn add<R: Wait + Threads + Sync + AllocGlobal>(
    rt: &R,
    file: &[u8],
    input: &[u8],
    until_read: usize,
    until_write: usize,
    settings: &Settings,
) -> Addition {
    let mut reader = BrokenSource::new(input, until_read).in_steps(1);
    let mut writer = ByteSink::new(until_write);
    let mut errors = Errors::new(ByteSink::new(NO_FAILURE), false);
    let status = book_add(
        rt,
        rt.alloc(),
        file,
        &mut reader,
        &mut writer,
        &mut errors,
        settings,
        &unseen(),
    );
    Addition {
        reads: reader.calls(),
        writer,
        errors: errors.sink,
        status,
    }
}
