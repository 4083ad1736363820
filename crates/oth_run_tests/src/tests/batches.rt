//! Lines that wait together, whose boards are searched side by side: the report is the same for any number of workers,
//! however the bytes come and wherever a device fails.

use super::{NO_FAILURE, by_two_workers, settings};
use oth_pool::Open;
use oth_rules::samples::after_least_moves;
use oth_rules::{Board, Scoring, Sym};
use oth_run::{RunFault, run};
use oth_search::{NoCells, scores_with, solve_alone};
use oth_text::fakes::{BrokenSource, ByteSink};
use oth_text::{Position, Side, report_line, scores_line, write_board};
use oth_words::{Command, Settings};
use std::alloc::Global;
use std::process::Abort;
use std::sync::Wait;
use std::test::Fail;
use std::thread::Threads;

/// An input of ten lines and a rest, and its report.
#[derive(Drop)]
struct Lines {
    input: Vec<u8>,
    report: Vec<u8>,
}

impl Lines {
    /// A line and its reply. Byte 10 ends both.
    fn push(&mut self, line: &[u8], reply: &[u8]) -> Result<(), Fail> {
        self.input.extend_from_slice(line)?;
        self.input.push(b'\n')?;
        self.report.extend_from_slice(reply)?;
        self.report.push(b'\n')?;
        Ok(())
    }

    fn push_board(&mut self, board: Board, asked: &Settings) -> Result<(), Fail> {
        let position = Position {
            board,
            mover: Side::Black,
        };
        let line = write_board(&position);
        if asked.command == Command::Scores {
            let scores = scores_with(board, &mut NoCells, asked.scoring);
            return self.push(line.as_slice(), scores_line(&scores).as_slice());
        }
        match solve_alone(&board, asked.scoring) {
            Ok(answer) => self.push(line.as_slice(), report_line(&answer).as_slice()),
            Err(_) => Ok(()),
        }
    }
}

/// The eight images of a board of a game with ten empty squares at most, with faulty lines among them.
fn mixed_lines(alloc: Global, asked: &Settings) -> Result<Lines, Fail> {
    let mut lines = Lines {
        input: Vec::new(alloc),
        report: Vec::new(alloc),
    };
    let board = after_least_moves(10).unwrap_or(Position::start().board);
    for number in 0..8 {
        if number == 3 {
            lines.push(b"", b"error 1")?;
        }
        if number == 6 {
            lines.push(write_board(&Position::start()).as_slice(), b"error 5 60")?;
        }
        if let Some(sym) = Sym::of(number) {
            lines.push_board(board.image(sym), asked)?;
        }
    }
    Ok(lines)
}

fn by_two() -> Settings {
    Settings {
        cells: 64,
        ..by_two_workers(Scoring::Winner)
    }
}

/// How a run ends, and what it writes. Its reader gives `step` bytes at a time and fails after `until.0` bytes, its
/// writer after `until.1`.
fn done<R: Wait + Threads + Sync + AllocGlobal>(
    rt: &R,
    asked: &Settings,
    input: &[u8],
    step: usize,
    until: (usize, usize),
) -> (Result<(), RunFault>, ByteSink<1024>) {
    let mut reader = BrokenSource::new(input, until.0).in_steps(step.max(1));
    let mut writer = ByteSink::new(until.1);
    let alloc = rt.alloc();
    let result = run(rt, alloc, &mut reader, &mut writer, asked, &Open, None);
    (result, writer)
}

// Each number of workers gives the report of one worker without cells.
fn check_workers<R: Wait + Threads + Sync + AllocGlobal + Abort>(
    rt: &R,
    alone: &Settings,
) -> Result<(), Fail> {
    let lines = mixed_lines(rt.alloc(), alone)?;
    assert!(rt; lines.input.len() == 8 * 67 + 1 + 67);
    for workers in [1, 2, 3, 16] {
        let asked = Settings {
            workers,
            cells: 64,
            ..*alone
        };
        let whole = (NO_FAILURE, NO_FAILURE);
        let (result, writer) = done(rt, &asked, lines.input.as_slice(), 1_000, whole);
        assert!(rt; result == Ok(()), "{workers} workers");
        assert!(rt;
            writer.taken() == lines.report.as_slice(),
            "{workers} workers"
        );
    }
    Ok(())
}

#[test]
fn any_number_of_workers_gives_the_same_report(rt: HostRuntime) -> Result<(), Fail> {
    for scoring in [Scoring::Winner, Scoring::Discs] {
        for command in [Command::Solve, Command::Scores] {
            check_workers(&rt, &settings(command, scoring))?;
        }
    }
    Ok(())
}

#[test]
fn parts_of_any_length_give_the_same_report(rt: HostRuntime) -> Result<(), Fail> {
    let asked = by_two();
    let lines = mixed_lines(rt.alloc(), &asked)?;
    for step in 1..260 {
        let whole = (NO_FAILURE, NO_FAILURE);
        let (result, writer) = done(&rt, &asked, lines.input.as_slice(), step, whole);
        assert!(rt; result == Ok(()), "{step} bytes at a time");
        assert!(rt;
            writer.taken() == lines.report.as_slice(),
            "{step} bytes at a time"
        );
    }
    Ok(())
}

#[test]
fn a_writer_that_fails_leaves_a_beginning_of_the_report(rt: HostRuntime) -> Result<(), Fail> {
    let asked = by_two();
    let lines = mixed_lines(rt.alloc(), &asked)?;
    for n in 0..lines.report.len() {
        let until = (NO_FAILURE, n);
        let (result, writer) = done(&rt, &asked, lines.input.as_slice(), 1_000, until);
        assert!(rt; result == Err(RunFault::Write));
        assert!(rt; writer.taken() == &lines.report.as_slice()[..n]);
    }
    Ok(())
}

#[test]
fn a_reader_that_fails_leaves_the_report_of_the_lines_before(rt: HostRuntime) -> Result<(), Fail> {
    let asked = by_two();
    let lines = mixed_lines(rt.alloc(), &asked)?;
    for n in 0..lines.input.len() {
        let until = (n, NO_FAILURE);
        let (result, writer) = done(&rt, &asked, lines.input.as_slice(), 1_000, until);
        assert!(rt; result == Err(RunFault::Read));
        assert!(rt; lines.report.as_slice().starts_with(writer.taken()));
        assert!(rt; ends(writer.taken()) == ends(&lines.input.as_slice()[..n]));
    }
    Ok(())
}

/// How many lines a text ends.
fn ends(text: &[u8]) -> usize {
    text.iter().filter(|byte| **byte == b'\n').count()
}
