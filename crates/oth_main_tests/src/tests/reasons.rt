//! The reasons in words: what is told on a terminal, and that nothing is told elsewhere.

use super::books::EMPTY_BOOK;
use super::{NO_FAILURE, unseen};
use oth_book::{AddError, BookFault, Cause, Wrong};
use oth_main::{
    BookRefusal, Command, Errors, Reason, RunFault, Scene, book_verify, open_book, print_run_fault,
    tell_scoring,
};
use oth_rules::Scoring;
use oth_text::fakes::ByteSink;
use std::alloc::Global;
use std::io::{Error, ErrorKind};
use std::sync::Wait;
use std::thread::Threads;

// Each refusal of a book, and what is told of it.
const REFUSALS: [(BookRefusal, &[u8]); 11] = [
    (
        BookRefusal::Text(BookFault::Header),
        b"my.book: the first line is none of OBOOK2 W, OBOOK2 D and OBOOK1\n",
    ),
    (
        BookRefusal::Text(BookFault::Line(11)),
        b"line 12 of my.book: no entry and no end line\n",
    ),
    (
        BookRefusal::Text(BookFault::Order(u32::MAX)),
        b"line 4294967296 of my.book: its board isn't above the one before\n",
    ),
    (
        BookRefusal::Text(BookFault::Count),
        b"my.book: the number of entries is wrong\n",
    ),
    (
        BookRefusal::Text(BookFault::CutShort),
        b"my.book: the book is cut short\n",
    ),
    (
        BookRefusal::Text(BookFault::Trailing),
        b"my.book: bytes follow the end\n",
    ),
    (
        BookRefusal::Text(BookFault::Memory),
        b"my.book: out of memory\n",
    ),
    (
        BookRefusal::Claim(Wrong::Entry(499, Cause::Bounds)),
        b"line 500 of my.book: the bounds don't enclose the value of its board\n",
    ),
    (
        BookRefusal::Claim(Wrong::Entry(1, Cause::Best)),
        b"line 2 of my.book: its best moves are wrong\n",
    ),
    (
        BookRefusal::Claim(Wrong::Entry(1, Cause::Empties)),
        b"line 2 of my.book: its board has more than 30 empty squares\n",
    ),
    (
        BookRefusal::Claim(Wrong::Memory),
        b"my.book: out of memory\n",
    ),
];

// The kinds of error with words of their own, and one with the system's.
const KINDS: [(ErrorKind, &[u8]); 7] = [
    (ErrorKind::NotFound, b"my.book: no such file\n"),
    (ErrorKind::PermissionDenied, b"my.book: permission denied\n"),
    (ErrorKind::IsADirectory, b"my.book: is a directory\n"),
    (ErrorKind::StorageFull, b"my.book: no space left\n"),
    (
        ErrorKind::WouldBlock,
        b"my.book: not ready (it is in non-blocking mode)\n",
    ),
    (ErrorKind::BrokenPipe, b"my.book: closed by its reader\n"),
    (ErrorKind::TimedOut, b"my.book: timed out\n"),
];

// What an output gets that fails after `until_failure` bytes, where this is the reason.
pub(super) fn told(
    alloc: Global,
    reason: Option<Reason>,
    in_words: bool,
    until_failure: usize,
    file: &str,
) -> ByteSink<128> {
    let mut errors = Errors::new(ByteSink::<128>::new(until_failure), in_words);
    errors.reason = reason;
    let scene = Scene {
        file,
        input_name: "standard input",
        input: None,
        output: None,
    };
    errors.explain(alloc, &scene);
    errors.sink
}

#[test]
fn each_refusal_of_a_book_is_told_with_its_line(rt: HostRuntime) {
    for (refusal, words) in REFUSALS {
        let reason = Some(Reason::Book(refusal));
        let done = told(rt.alloc(), reason, true, NO_FAILURE, "my.book");
        assert!(rt; done.taken() == words);
    }
}

#[test]
fn each_error_of_a_file_is_told(rt: HostRuntime) {
    for (kind, words) in KINDS {
        let reason = Some(Reason::File(Error::from(kind)));
        let done = told(rt.alloc(), reason, true, NO_FAILURE, "my.book");
        assert!(rt; done.taken() == words);
    }
}

// A terminal would obey the bytes 27 and 7.
#[test]
fn control_characters_of_a_name_are_not_told(rt: HostRuntime) {
    let reason = Some(Reason::File(Error::from(ErrorKind::NotFound)));
    let done = told(rt.alloc(), reason, true, NO_FAILURE, "a\u{1b}b\u{7}c\u{e9}");
    assert!(rt; done.taken() == "a?b?c\u{e9}: no such file\n".as_bytes());
}

#[test]
fn nothing_is_told_where_nobody_reads_it(rt: HostRuntime) {
    let reason = Some(Reason::Run(RunFault::Cells));
    assert!(rt; told(rt.alloc(), reason, false, NO_FAILURE, "").calls() == 0);
    assert!(rt; told(rt.alloc(), None, true, NO_FAILURE, "").calls() == 0);
    let failing = told(rt.alloc(), reason, true, 3, "");
    assert!(rt; failing.taken() == b"the".as_slice() && failing.calls() == 4);
    let mut errors = Errors::new(ByteSink::<128>::new(0), true);
    let scene = Scene {
        file: "",
        input_name: "standard input",
        input: None,
        output: None,
    };
    assert!(rt; print_run_fault(RunFault::Cells, &mut errors) == 2 && errors.sink.calls() == 1);
    errors.explain(rt.alloc(), &scene);
    assert!(rt; errors.sink.calls() == 1);
}

// What is told after this fault of a run, where both devices may have failed.
fn told_of_run(
    alloc: Global,
    fault: RunFault,
    input: Option<&Error>,
    output: Option<&Error>,
) -> ByteSink<128> {
    let mut errors = Errors::new(ByteSink::<128>::new(NO_FAILURE), true);
    let _ = print_run_fault(fault, &mut errors);
    let scene = Scene {
        file: "my.book",
        input_name: "standard input",
        input,
        output,
    };
    errors.explain(alloc, &scene);
    errors.sink
}

#[test]
fn a_run_is_told_with_the_device_that_failed(rt: HostRuntime) {
    let blocks = Error::from(ErrorKind::WouldBlock);
    let full = Error::from(ErrorKind::StorageFull);
    let (input, output) = (Some(&blocks), Some(&full));
    let alloc = rt.alloc();
    let rows: [(ByteSink<128>, &[u8]); 6] = [
        (
            told_of_run(alloc, RunFault::Read, input, output),
            b"run error 1\nstandard input: not ready (it is in non-blocking mode)\n",
        ),
        (
            told_of_run(alloc, RunFault::Write, input, output),
            b"run error 2\nstandard output: no space left\n",
        ),
        (
            told_of_run(alloc, RunFault::Read, None, output),
            b"run error 1\na read failed\n",
        ),
        (
            told_of_run(alloc, RunFault::Write, input, None),
            b"run error 2\na write failed\n",
        ),
        (
            told_of_run(alloc, RunFault::Workers, input, output),
            b"run error 3\nthe workers must be 1 to 16\n",
        ),
        (
            told_of_run(alloc, RunFault::Cells, input, output),
            b"run error 4\nthe cells must be 0 or a power of two up to 262144\n",
        ),
    ];
    for (done, words) in &rows {
        assert!(rt; done.taken() == *words);
    }
    let reason = Some(Reason::Answer(3, AddError::Full));
    let done = told(alloc, reason, true, NO_FAILURE, "my.book");
    assert!(rt;
        done.taken()
            == b"line 3 of standard input: its answer can't be added: the book is full\n".as_slice()
    );
}

// The number comes at once, and the words when they are asked for.
#[test]
fn a_refused_file_keeps_its_reason(rt: HostRuntime) {
    let mut writer = ByteSink::<64>::new(NO_FAILURE);
    let mut errors = Errors::new(ByteSink::<128>::new(NO_FAILURE), true);
    let file = b"OBOOK2 W\nx\n".as_slice();
    assert!(rt; book_verify(&rt, rt.alloc(), file, &mut writer, &mut errors, &unseen()) == 3);
    assert!(rt; errors.sink.taken() == b"book error 2 at 1\n".as_slice());
    let scene = Scene {
        file: "my.book",
        input_name: "standard input",
        input: None,
        output: None,
    };
    errors.explain(rt.alloc(), &scene);
    assert!(rt;
        errors.sink.taken()
            == b"book error 2 at 1\nline 2 of my.book: no entry and no end line\n".as_slice()
    );
}

// What is told of the scoring of a book that is under `winner`.
fn told_of_scoring<R: Wait + Threads + Sync + AllocGlobal>(
    rt: &R,
    asked: Scoring,
    in_words: bool,
) -> ByteSink<128> {
    let mut errors = Errors::new(ByteSink::<128>::new(NO_FAILURE), in_words);
    if let Ok(book) = open_book(rt, rt.alloc(), EMPTY_BOOK, 1, 0, &unseen()) {
        tell_scoring(rt.alloc(), "my.book", &book, asked, &mut errors);
    }
    errors.sink
}

#[test]
fn a_book_of_the_other_scoring_is_told(rt: HostRuntime) {
    let done = told_of_scoring(&rt, Scoring::Discs, true);
    assert!(rt; done.taken() == b"my.book: by the other scoring, so it is not asked\n".as_slice());
    assert!(rt; told_of_scoring(&rt, Scoring::Winner, true).calls() == 0);
    assert!(rt; told_of_scoring(&rt, Scoring::Discs, false).calls() == 0);
}

#[test]
fn a_file_of_lines_is_named_where_it_fails(rt: HostRuntime) {
    let error = Error::from(ErrorKind::StorageFull);
    let mut errors = Errors::new(ByteSink::<128>::new(NO_FAILURE), true);
    let _ = print_run_fault(RunFault::Read, &mut errors);
    let scene = Scene {
        file: "my.book",
        input_name: "b\u{1b}.txt",
        input: Some(&error),
        output: None,
    };
    errors.explain(rt.alloc(), &scene);
    assert!(rt; errors.sink.taken() == b"run error 1\nb?.txt: no space left\n".as_slice());
}

// On a terminal and elsewhere, and once.
#[test]
fn a_file_that_cannot_be_opened_is_named_everywhere(rt: HostRuntime) {
    for in_words in [false, true] {
        let mut errors = Errors::new(ByteSink::<128>::new(NO_FAILURE), in_words);
        let _ = print_run_fault(RunFault::Read, &mut errors);
        errors.tell_unopened(rt.alloc(), "a\u{7}.txt", &Error::from(ErrorKind::NotFound));
        errors.explain(rt.alloc(), &Scene::default());
        assert!(rt; errors.sink.taken() == b"run error 1\na?.txt: no such file\n".as_slice());
    }
}

#[test]
fn lines_from_a_terminal_are_awaited(rt: HostRuntime) {
    let rows = [
        (Command::Solve, "boards"),
        (Command::Scores, "boards"),
        (Command::Moves, "boards"),
        (Command::Transcript, "games"),
        (Command::Play, "boards with moves"),
        (Command::Analyse(20), "games"),
    ];
    for (command, lines) in rows {
        let mut errors = Errors::new(ByteSink::<128>::new(NO_FAILURE), false);
        errors.tell_awaited(command);
        let wanted = format!(in rt.alloc();
            "othsolve: reading {lines} from the terminal; end with Ctrl-D\n"
        ).expect(&rt, "words");
        assert!(rt; errors.sink.taken() == wanted.as_bytes());
    }
}
