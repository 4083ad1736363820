//! What a sink hears of each line that is answered: every number in its turn, and the line's fault, whose reply is
//! written already where faults are told.

ghost use Rattle.std.specs.Prelude.{◌≡◌, false};

use super::{NO_FAILURE, settings};
use oth_pool::Open;
use oth_rules::Scoring;
use oth_run::{ReportSink, run};
use oth_text::fakes::{BrokenSource, ByteSink};
use oth_text::{Failed, Fault, GameFault, LineFault, Sink, TranscriptFault};
use oth_words::{Command, Settings};
use std::process::Abort;
use std::sync::Wait;
use std::test::Fail;
use std::thread::Threads;

// A fault that was heard, with the number of its line.
type Heard = (u64, Fault);

// A faulty line: what is heard of it, and the end of its reply.
type Faulty = (Heard, &'static [u8]);

// A sink that is to hear of just these faults in their order, each behind its reply where it tells faults.
#[derive(Drop)]
struct Hearing<'w> {
    sink: ByteSink<512>,
    wanted: &'w [Faulty],
    tells: bool,
    // The number of lines, if each came in its turn.
    lines: Option<u64>,
    // The number of faults, and whether each was as wanted.
    faults: usize,
    is_as_wanted: bool,
}

impl<'w> Hearing<'w> {
    fn new(wanted: &'w [Faulty], tells: bool) -> Self
        ensures { ⟦<Hearing<'w> as Sink>⟧.failed result ≡ false }
    {
        Hearing {
            sink: ByteSink::new(NO_FAILURE),
            wanted,
            tells,
            lines: Some(0),
            faults: 0,
            is_as_wanted: true,
        }
    }
}

impl<'w> Sink for Hearing<'w> {
    ghost contents = { λ s. ⟦<ByteSink<512> as Sink>⟧.contents s.sink };

    ghost failed = { λ s. ⟦<ByteSink<512> as Sink>⟧.failed s.sink };

    ghost flushed = { λ s. ⟦<ByteSink<512> as Sink>⟧.flushed s.sink };

    fn write(&mut self, buffer: &[u8]) -> Result<usize, Failed> {
        self.sink.write(buffer)
    }

    fn flush(&mut self) -> Result<(), Failed> {
        self.sink.flush()
    }

    fn failed(&self) -> bool {
        self.sink.failed()
    }
}

impl<'w> ReportSink for Hearing<'w> {
    fn tells_faults(&self) -> bool {
        self.tells
    }

    fn answered(&mut self, number: u64, fault: Option<Fault>) {
        self.lines = match self.lines {
            Some(lines) if lines.saturating_add(1) == number => Some(number),
            _ => None,
        };
        let Some(fault) = fault else {
            return;
        };
        let is_wanted = match self.wanted.get(self.faults) {
            Some((heard, reply)) => {
                *heard == (number, fault) && (!self.tells || self.sink.taken().ends_with(reply))
            }
            None => false,
        };
        self.is_as_wanted = self.is_as_wanted && is_wanted;
        self.faults = self.faults.saturating_add(1);
    }
}

fn board(fault: LineFault) -> Fault {
    Fault::Game(GameFault::Board(fault))
}

fn moves(fault: TranscriptFault) -> Fault {
    Fault::Game(GameFault::Moves(fault))
}

const START: &str = "---------------------------OX------XO--------------------------- X";

const FULL: &str = "XXXXXXXXXXXXXXXXXXXXXXXXXXXXXXXXXXXXXXXXXXXXXXXXXXXXXXXXXXXXXXXX";

const BAD: &str = "XXXXXXXXXXXXXXXXXXXXXXXXXXXXXXXXXXXXXXXXXXXXXXXXXXXXXXXXXXXXXXX?";

// Whether a run tells its sink of seven lines in their order, and of just these faults; where `tells`, each behind its
// reply.
fn hears<R: Wait + Threads + Sync + AllocGlobal>(
    rt: &R,
    asked: &Settings,
    input: &[u8],
    wanted: &[Faulty],
    tells: bool,
) -> bool {
    let mut reader = BrokenSource::new(input, NO_FAILURE);
    let mut writer = Hearing::new(wanted, tells);
    let done = run(rt, rt.alloc(), &mut reader, &mut writer, asked, &Open, None);
    done.is_ok() && writer.lines == Some(7) && writer.is_as_wanted && writer.faults == wanted.len()
}

// The input has seven lines.
fn check<R: Wait + Threads + Sync + AllocGlobal + Abort>(
    rt: &R,
    command: Command,
    input: &str,
    wanted: &[Faulty],
) {
    for workers in [1, 2] {
        let asked = Settings {
            workers,
            ..settings(command, Scoring::Winner)
        };
        assert!(rt; hears(rt, &asked, input.as_bytes(), wanted, false));
        assert!(rt; hears(rt, &asked, input.as_bytes(), wanted, true));
    }
}

#[test]
fn each_fault_of_a_board_line_is_heard(rt: HostRuntime) -> Result<(), Fail> {
    let input = format!(in rt.alloc();
        "{START}\n{FULL} X\nX\n{BAD} X\n{FULL}_X\n{FULL} Y\n{FULL} O"
    )?;
    let wanted: [Faulty; 5] = [
        ((1, board(LineFault::Empties(60))), b"error 5 60\n"),
        ((3, board(LineFault::Length)), b"error 1\n"),
        ((4, board(LineFault::BadCell(64))), b"error 2 at 64\n"),
        ((5, board(LineFault::Space)), b"error 3\n"),
        ((6, board(LineFault::Mover)), b"error 4\n"),
    ];
    check(&rt, Command::Solve, input.as_str(), &wanted);
    check(&rt, Command::Scores, input.as_str(), &wanted);
    check(&rt, Command::Moves, input.as_str(), &wanted[1..]);
    Ok(())
}

#[test]
fn each_fault_of_moves_is_heard(rt: HostRuntime) -> Result<(), Fail> {
    let wanted: [Faulty; 4] = [
        (
            (2, Fault::Transcript(TranscriptFault::OddLength)),
            b"error 1\n",
        ),
        (
            (3, Fault::Transcript(TranscriptFault::BadPair(1))),
            b"error 2 at 1\n",
        ),
        (
            (5, Fault::Transcript(TranscriptFault::Illegal(2))),
            b"error 3 at 2\n",
        ),
        (
            (6, Fault::Transcript(TranscriptFault::Over(10))),
            b"error 4 at 10\n",
        ),
    ];
    let over = "e6f4e3f6g5d6e7f5c5a1";
    let input = format!(in rt.alloc(); "f5\nf5d\ni9\n\nf5f5\n{over}\nf5d6")?;
    check(&rt, Command::Transcript, input.as_str(), &wanted);
    let wanted: [Faulty; 5] = [
        ((1, board(LineFault::Space)), b"error 3\n"),
        ((2, moves(TranscriptFault::OddLength)), b"error 21\n"),
        ((4, moves(TranscriptFault::BadPair(2))), b"error 22 at 2\n"),
        ((5, moves(TranscriptFault::Illegal(2))), b"error 23 at 2\n"),
        ((6, moves(TranscriptFault::Over(1))), b"error 24 at 1\n"),
    ];
    let input = format!(in rt.alloc();
        "{FULL}_X\n{START} f5d\n{START} f5\n{START} f5i9\n{START} f5f5\n{FULL} X a1\n{START}"
    )?;
    check(&rt, Command::Play, input.as_str(), &wanted);
    Ok(())
}

// Faults 1 and 2 of a transcript have the numbers of faults of a board line, which are not meant.
#[test]
fn each_fault_of_a_game_is_heard(rt: HostRuntime) -> Result<(), Fail> {
    let wanted: [Faulty; 5] = [
        (
            (1, Fault::Transcript(TranscriptFault::OddLength)),
            b"1 error 1\n1 lost X 0 O 0\n",
        ),
        (
            (2, Fault::Transcript(TranscriptFault::BadPair(1))),
            b"2 error 2 at 1\n2 lost X 0 O 0\n",
        ),
        (
            (4, board(LineFault::Length)),
            b"4 error 1\n4 lost X 0 O 0\n",
        ),
        (
            (5, board(LineFault::BadCell(64))),
            b"5 error 2 at 64\n5 lost X 0 O 0\n",
        ),
        (
            (6, moves(TranscriptFault::Illegal(2))),
            b"6 error 23 at 2\n6 lost X 0 O 0\n",
        ),
    ];
    let input = format!(in rt.alloc(); "f5d\n..\nf5d6\nX\n{BAD} X\n{START} f5f5\n{FULL} X")?;
    check(&rt, Command::Analyse(8), input.as_str(), &wanted);
    Ok(())
}
