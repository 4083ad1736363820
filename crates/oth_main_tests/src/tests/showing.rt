//! The line that shows how far a run is: its words, the bytes that put it on a terminal, and what is counted for it.

use super::NO_FAILURE;
use oth_main::{Input, Progress, Reached, Report, ReportSink, Row, Shown, Watch};
use oth_text::fakes::{BrokenSource, ByteSink};
use oth_text::{Fault, Source, TranscriptFault};
use std::test::Fail;

// How far a run is, for how many seconds it has worked, and the line.
const LINES: [(Reached, u64, &str); 4] = [
    (Reached::Line(1, 1), 1, "line 1 of 1 read, 1 s"),
    (Reached::Line(120, 400), 7, "line 120 of 400 read, 7 s"),
    (Reached::Entry(2, 3), 59, "entry 2 of 3, 59 s"),
    (
        Reached::Entry(99_999, 100_000),
        3_600,
        "entry 99999 of 100000, 3600 s",
    ),
];

#[test]
fn the_line_tells_how_far_a_run_is(rt: HostRuntime) -> Result<(), Fail> {
    for (reached, seconds, wanted) in LINES {
        let shown = Shown {
            reached,
            awaited: None,
            seconds,
        };
        let line = format!(in rt.alloc(); "{shown}")?;
        assert!(rt; line.as_str() == wanted);
    }
    Ok(())
}

#[test]
fn a_row_takes_the_place_of_the_one_before(rt: HostRuntime) {
    for can_cut in [false, true] {
        let mut row = Row::new(can_cut);
        assert!(rt; row.cleared().is_empty());
        assert!(rt; row.renewed(b"line 10").as_slice() == b"\rline 10".as_slice());
        assert!(rt; row.renewed(b"line 9").as_slice() == b"\rline 9 ".as_slice());
        assert!(rt; row.renewed(b"line 11").as_slice() == b"\rline 11".as_slice());
        assert!(rt; row.cleared().as_slice() == b"\r       \r".as_slice());
        assert!(rt; row.cleared().is_empty());
    }
}

// 39 columns, and 40.
const FEW: &[u8] = b"line 1 of 9 read: 26 empty squares, 3 s";

const MANY: &[u8] = b"line 1 of 9 read: 26 empty squares, 12 s";

#[test]
fn a_terminal_cuts_a_long_row_at_its_width(rt: HostRuntime) {
    let mut row = Row::new(true);
    let few = b"\rline 1 of 9 read: 26 empty squares, 3 s".as_slice();
    assert!(rt; row.renewed(FEW).as_slice() == few);
    let many = b"\x1b[?7l\rline 1 of 9 read: 26 empty squares, 12 s\x1b[?7h".as_slice();
    assert!(rt; row.renewed(MANY).as_slice() == many);
    let few_behind = b"\x1b[?7l\rline 1 of 9 read: 26 empty squares, 3 s \x1b[?7h".as_slice();
    assert!(rt; row.renewed(FEW).as_slice() == few_behind);
    assert!(rt; row.renewed(MANY).as_slice() == many);
    let gone = b"\x1b[?7l\r                                        \x1b[?7h\r".as_slice();
    assert!(rt; row.cleared().as_slice() == gone);
}

#[test]
fn a_row_has_39_columns_where_the_terminal_cuts_none(rt: HostRuntime) {
    let mut row = Row::new(false);
    let cut = b"\rline 1 of 9 read: 26 empty squares, 12 ".as_slice();
    assert!(rt; row.renewed(MANY).as_slice() == cut);
}

#[test]
fn the_longest_row_has_120_columns(rt: HostRuntime) {
    let mut row = Row::new(true);
    let bytes = row.renewed(&[b'-'; 121]);
    assert!(rt; bytes.len() == 131 && bytes.as_slice().ends_with(b"-\x1b[?7h"));
    assert!(rt; row.cleared().len() == 132);
}

#[test]
fn answered_lines_are_counted(rt: HostRuntime) {
    let watch = Watch::on(ByteSink::<64>::new(NO_FAILURE), true, true);
    let mut input = Input::of(watch.gate(), BrokenSource::new(b"a\nb\nc\n", NO_FAILURE));
    let _ = input.read(&mut [0; 16]);
    let mut report = Report::of(&rt, &watch, ByteSink::<64>::new(NO_FAILURE), false, false);
    assert!(rt; watch.gate().reached() == Some(Reached::Line(1, 3)));
    report.answered(1, None);
    assert!(rt; watch.gate().reached() == Some(Reached::Line(2, 3)));
    report.answered(2, Some(Fault::Transcript(TranscriptFault::OddLength)));
    assert!(rt; watch.gate().reached() == Some(Reached::Line(3, 3)));
    assert!(rt; report.writer().taken().is_empty());
}

// The line that is awaited and how many were read, after each byte of three lines, the last one without its end, and at
// the end of input.
const READ: [Reached; 7] = [
    Reached::Line(1, 1),
    Reached::Line(1, 1),
    Reached::Line(1, 1),
    Reached::Line(1, 2),
    Reached::Line(1, 2),
    Reached::Line(1, 3),
    Reached::Line(1, 3),
];

#[test]
fn lines_are_counted_as_they_are_read(rt: HostRuntime) {
    let progress = Progress::new(true);
    let source = BrokenSource::new(b"a\nb\nc", NO_FAILURE).in_steps(1);
    let mut input = Input::of(&progress, source);
    assert!(rt; progress.reached() == None);
    for reached in READ {
        let _ = input.read(&mut [0; 16]);
        assert!(rt; progress.reached() == Some(reached));
    }
}
