//! Devices: how the bytes are cut changes nothing. Where a device fails, what was written is known to the byte, and no
//! device is called again.

use super::{NO_FAILURE, by_two_workers, settings, walk};
use oth_pool::Open;
use oth_rules::Scoring;
use oth_run::{RunFault, run};
use oth_text::fakes::{BrokenSource, ByteSink};
use oth_text::{FromRead, ToWrite};
use oth_words::{Command, Settings};
use std::alloc::{AllocError, Global};
use std::io::{Error, ErrorKind, Write};
use std::process::Abort;
use std::sync::Wait;
use std::test::Fail;
use std::thread::Threads;

// What a run is asked, its input and its report.
type Walk = (Settings, &'static [u8], &'static [u8]);

// A board with too many empty squares, a blank line, and a last line without byte 10: 67, 1 and 66 bytes.
const THREE_LINES: &[u8] = b"---------------------------OX------XO--------------------------- X\n\n\
      --OXOOO-OOOOOOOOOOOOOOOOOOOOOOOOOOOOOOOOOOOOOOOOOOOOOOOOOOOOOOOO X";

const SOLVED: &[u8] = b"error 5 60\nerror 1\n-50 h1\n";

const SCORED: &[u8] = b"error 5 60\nerror 1\n-50 h1 -64 b1\n";

const MOVED: &[u8] = b"d3 c4 f5 e6\nerror 1\nb1 h1\n";

// Transcripts in its place.
const THREE_GAMES: &[u8] = b"f5d6c3d3c4\n\nF5";

const FOLLOWED: &[u8] = b"------------------XO------XXX------OXX-----O-------------------- O\n\
      ---------------------------OX------XO--------------------------- X\nerror 2 at 1\n";

// Boards with moves in its place: 73, 68 and 66 bytes.
const THREE_PLAYED: &[u8] =
    b"---------------------------OX------XO--------------------------- X f5d6c3\n\
      ---------------------------OX------XO--------------------------- X \n\
      --OXXXXXOOOOOOOOOOOOOOOOOOOOOOOOOOOOOOOOOOOOOOOOOOOOOOOOOOOOOOOO O";

const PLAYED: &[u8] = b"------------------X--------XX------OXX-----O-------------------- O\n\
      ---------------------------OX------XO--------------------------- X\n\
      --OXXXXXOOOOOOOOOOOOOOOOOOOOOOOOOOOOOOOOOOOOOOOOOOOOOOOOOOOOOOOO X\n";

// Two lines of 67 bytes.
pub(super) const TWO_LINES: &[u8] =
    b"---------------------------OX------XO--------------------------- X\n\
      --OXOOO-OOOOOOOOOOOOOOOOOOOOOOOOOOOOOOOOOOOOOOOOOOOOOOOOOOOOOOOO X\n";

pub(super) const SOLVED_TWO: &[u8] = b"error 5 60\n-50 h1\n";

pub(super) const SCORED_TWO: &[u8] = b"error 5 60\n-50 h1 -64 b1\n";

fn walks() -> [Walk; 7] {
    let winner = Scoring::Winner;
    let scores_by_two = Settings {
        command: Command::Scores,
        ..by_two_workers(winner)
    };
    [
        (settings(Command::Solve, winner), THREE_LINES, SOLVED),
        (settings(Command::Scores, winner), THREE_LINES, SCORED),
        (settings(Command::Moves, winner), THREE_LINES, MOVED),
        (settings(Command::Transcript, winner), THREE_GAMES, FOLLOWED),
        (settings(Command::Play, winner), THREE_PLAYED, PLAYED),
        (by_two_workers(winner), TWO_LINES, SOLVED_TWO),
        (scores_by_two, TWO_LINES, SCORED_TWO),
    ]
}

// The first bytes of a text.
fn front(text: &[u8], len: usize) -> &[u8] {
    if len < text.len() { &text[..len] } else { text }
}

// The first lines of a text, with their ends.
fn first_lines(text: &[u8], lines: usize) -> &[u8] {
    let mut left = lines;
    for i in 0..text.len() {
        if left == 0 {
            return &text[..i];
        }
        if text[i] == b'\n' {
            left -= 1;
        }
    }
    text
}

fn ended_lines(text: &[u8]) -> usize {
    let mut count = 0usize;
    for byte in text {
        if *byte == b'\n' {
            count = count.saturating_add(1);
        }
    }
    count
}

// The report of the lines that are ended within the first bytes of the input.
fn reported<'r>(input: &[u8], report: &'r [u8], read: usize) -> &'r [u8] {
    first_lines(report, ended_lines(front(input, read)))
}

// How often a byte is asked for until more than `written` bytes of the report can be written. Where there are no more
// it is once for each byte and once at the end of input.
fn reads_until(input: &[u8], report: &[u8], written: usize) -> u64 {
    for read in 1..input.len() {
        if reported(input, report, read).len() > written {
            return read as u64;
        }
    }
    if reported(input, report, input.len()).len() > written {
        input.len() as u64
    } else {
        (input.len() as u64).saturating_add(1)
    }
}

// The end of input is a read of its own, and the flush is the last call of the writer.
#[test]
fn all_is_read_and_reported(rt: HostRuntime) {
    for (asked, input, report) in walks() {
        let done = walk(&rt, &asked, input, NO_FAILURE, NO_FAILURE);
        assert!(rt; done.result == Ok(()));
        assert!(rt; done.writer.taken() == report && done.writer.is_flushed());
        assert!(rt; done.reads == (input.len() as u64).saturating_add(1));
        assert!(rt; done.writes == (report.len() as u64).saturating_add(1));
    }
}

// The reader's fault leaves the report of the lines that were ended.
#[test]
fn a_reader_fails_after_each_byte(rt: HostRuntime) {
    for (asked, input, report) in walks() {
        for n in 0..input.len().saturating_add(1) {
            let done = walk(&rt, &asked, input, n, NO_FAILURE);
            let written = reported(input, report, n);
            assert!(rt; done.result == Err(RunFault::Read));
            assert!(rt; done.writer.taken() == written);
            assert!(rt; done.reads == (n as u64).saturating_add(1));
            assert!(rt; done.writes == written.len() as u64);
        }
    }
}

// The writer's fault leaves a beginning of the report, all that it took.
#[test]
fn a_writer_fails_after_each_byte(rt: HostRuntime) {
    for (asked, input, report) in walks() {
        for n in 0..report.len() {
            let done = walk(&rt, &asked, input, NO_FAILURE, n);
            assert!(rt; done.result == Err(RunFault::Write));
            assert!(rt; done.writer.taken() == front(report, n));
            assert!(rt; done.reads == reads_until(input, report, n));
            assert!(rt; done.writes == (n as u64).saturating_add(1));
        }
    }
}

// Within the first line, at its end, within the second one and at its end.
#[test]
fn a_reader_fails_round_the_ends_of_two_lines(rt: HostRuntime) {
    let asked = by_two_workers(Scoring::Winner);
    let rows: [(usize, &[u8]); 6] = [
        (0, b""),
        (66, b""),
        (67, b"error 5 60\n"),
        (68, b"error 5 60\n"),
        (133, b"error 5 60\n"),
        (134, b"error 5 60\n-50 h1\n"),
    ];
    for (read, written) in rows {
        let done = walk(&rt, &asked, TWO_LINES, read, NO_FAILURE);
        assert!(rt; done.result == Err(RunFault::Read));
        assert!(rt; done.writer.taken() == written);
    }
}

#[test]
fn two_workers_and_a_writer_of_four_bytes(rt: HostRuntime) {
    let asked = by_two_workers(Scoring::Winner);
    assert!(rt; TWO_LINES.len() == 134 && SOLVED_TWO.len() == 18);
    let done = walk(&rt, &asked, TWO_LINES, NO_FAILURE, NO_FAILURE);
    assert!(rt; done.result == Ok(()));
    assert!(rt; done.writer.taken() == b"error 5 60\n-50 h1\n".as_slice());
    let broken = walk(&rt, &asked, TWO_LINES, NO_FAILURE, 4);
    assert!(rt; broken.result == Err(RunFault::Write));
    assert!(rt; broken.writer.taken() == b"erro".as_slice());
}

// A writer that takes all bytes, and can't be flushed.
#[derive(Drop)]
struct Unflushed {}

impl Write for Unflushed {
    fn write(&mut self, buffer: &[u8]) -> std::io::Result<usize> {
        Ok(buffer.len())
    }

    fn flush(&mut self) -> std::io::Result<()> {
        Err(Error::from(ErrorKind::Other))
    }
}

#[test]
fn a_flush_that_fails_is_the_writers_fault(rt: HostRuntime) {
    for (asked, input, _) in walks() {
        let mut reader = FromRead::new(input);
        let mut writer = ToWrite::new(Unflushed {});
        let result = run(
            &rt,
            rt.alloc(),
            &mut reader,
            &mut writer,
            &asked,
            &Open,
            None,
        );
        assert!(rt; result == Err(RunFault::Write));
    }
}

// What is written of an input that comes `step` bytes at a time.
fn written_in_steps<R: Wait + Threads + Sync>(
    rt: &R,
    alloc: Global,
    asked: &Settings,
    input: &[u8],
    step: usize,
) -> Option<Vec<u8>> {
    let mut reader = BrokenSource::new(input, NO_FAILURE).in_steps(step.max(1));
    let mut writer = ToWrite::new(Vec::<u8>::new(alloc));
    run(rt, alloc, &mut reader, &mut writer, asked, &Open, None).ok()?;
    Some(writer.into_inner())
}

fn check_steps<R: Wait + Threads + Sync + AllocGlobal + Abort>(
    rt: &R,
    asked: &Settings,
    input: &[u8],
    report: &[u8],
    most: usize,
) {
    for step in 1..most {
        match written_in_steps(rt, rt.alloc(), asked, input, step) {
            Some(written) => assert!(rt; written.as_slice() == report, "{step} bytes at a time"),
            None => panic!(rt; "a fault"),
        }
    }
}

#[test]
fn reads_of_any_length_give_the_same_bytes(rt: HostRuntime) {
    for (asked, input, report) in walks() {
        check_steps(&rt, &asked, input, report, 140);
    }
    let empty = settings(Command::Solve, Scoring::Winner);
    check_steps(&rt, &empty, b"", b"", 3);
}

// `count` copies of a text.
fn copies(alloc: Global, text: &[u8], count: u32) -> Result<Vec<u8>, AllocError> {
    let mut all = Vec::new(alloc);
    for _ in 0..count {
        all.extend_from_slice(text)?;
    }
    Ok(all)
}

// Longer than all buffers: one line, and the report of many.
#[test]
fn long_lines_and_many_lines_are_reported(rt: HostRuntime) -> Result<(), Fail> {
    let asked = settings(Command::Solve, Scoring::Winner);
    let mut input = copies(rt.alloc(), b"X", 50_000)?;
    input.push(b'\n')?;
    input.extend_from_slice(
        b"--OXOOO-OOOOOOOOOOOOOOOOOOOOOOOOOOOOOOOOOOOOOOOOOOOOOOOOOOOOOOOO X\n",
    )?;
    let found = written_in_steps(&rt, rt.alloc(), &asked, input.as_slice(), 50_100);
    assert!(rt; found.is_some_and(|text| text.as_slice() == b"error 1\n-50 h1\n".as_slice()));
    let asked = settings(Command::Moves, Scoring::Winner);
    let input = copies(rt.alloc(), TWO_LINES, 3_000)?;
    let report = copies(rt.alloc(), b"d3 c4 f5 e6\nb1 h1\n", 3_000)?;
    let found = written_in_steps(&rt, rt.alloc(), &asked, input.as_slice(), 100_000);
    assert!(rt; found.is_some_and(|text| text.as_slice() == report.as_slice()));
    Ok(())
}
