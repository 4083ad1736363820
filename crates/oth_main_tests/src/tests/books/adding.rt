//! What `book_add` writes of each input, and its status, also where a device fails or a setting is refused.

use super::super::{NO_FAILURE, by_two_workers, settings, unseen};
use super::{BOOK_OF_TWO, EMPTY_BOOK, TWO_LINES, add};
use oth_main::{Command, Errors, Settings, book_add};
use oth_rules::Scoring;
use oth_text::fakes::{BrokenSource, ByteSink};

// Files and inputs, and what `book_add` writes of each on standard output and on standard error, and its status.
const ADDED: [(&[u8], &[u8], &[u8], &[u8], u8); 8] = [
    (
        b"OBOOK1\nEND 000000\n",
        b"--OXOOO-OOOOOOOOOOOOOOOOOOOOOOOOOOOOOOOOOOOOOOOOOOOOOOOOOOOOOOOO X\n\
          -OXXXXO-XXXXXXXXXXXXXXXXXXXXXXXXXXXXXXXXXXXXXXXXXXXXXXXXXXXXXXXX X\n",
        b"OBOOK2 W\n--OXOOO-OOOOOOOOOOOOOOOOOOOOOOOOOOOOOOOOOOOOOOOOOOOOOOOOOOOOOOOO -50 -50 0000000000000080\n\
          XXXXXXXXXXXXXXXXXXXXXXXXXXXXXXXXXXXXXXXXXXXXXXXXXXXXXXXX-OXXXXO- +64 +64 8100000000000000\nEND 000002\n",
        b"",
        0,
    ),
    (
        b"OBOOK2 W\nEND 000000\n",
        b"--OXOOO-OOOOOOOOOOOOOOOOOOOOOOOOOOOOOOOOOOOOOOOOOOOOOOOOOOOOOOOO X\n\
          -OXXXXO-XXXXXXXXXXXXXXXXXXXXXXXXXXXXXXXXXXXXXXXXXXXXXXXXXXXXXXXX X\n",
        b"OBOOK2 W\n--OXOOO-OOOOOOOOOOOOOOOOOOOOOOOOOOOOOOOOOOOOOOOOOOOOOOOOOOOOOOOO -50 -50 0000000000000080\n\
          XXXXXXXXXXXXXXXXXXXXXXXXXXXXXXXXXXXXXXXXXXXXXXXXXXXXXXXX-OXXXXO- +64 +64 8100000000000000\nEND 000002\n",
        b"",
        0,
    ),
    (
        b"OBOOK2 D\nEND 000000\n",
        b"-OXXXXO-XXXXXXXXXXXXXXXXXXXXXXXXXXXXXXXXXXXXXXXXXXXXXXXXXXXXXXXX X\n\
          --OXOOO-OOOOOOOOOOOOOOOOOOOOOOOOOOOOOOOOOOOOOOOOOOOOOOOOOOOOOOOO X\n",
        b"OBOOK2 D\n--OXOOO-OOOOOOOOOOOOOOOOOOOOOOOOOOOOOOOOOOOOOOOOOOOOOOOOOOOOOOOO -49 -49 0000000000000080\n\
          XXXXXXXXXXXXXXXXXXXXXXXXXXXXXXXXXXXXXXXXXXXXXXXXXXXXXXXX-OXXXXO- +64 +64 8100000000000000\nEND 000002\n",
        b"",
        0,
    ),
    (
        b"OBOOK2 W\nEND 000000\n",
        b"--OXOOO-OOOOOOOOOOOOOOOOOOOOOOOOOOOOOOOOOOOOOOOOOOOOOOOOOOOOOOOO X\n\n\
          -OXXXXO-XXXXXXXXXXXXXXXXXXXXXXXXXXXXXXXXXXXXXXXXXXXXXXXXXXXXXXXX X\n",
        b"OBOOK2 W\n--OXOOO-OOOOOOOOOOOOOOOOOOOOOOOOOOOOOOOOOOOOOOOOOOOOOOOOOOOOOOOO -50 -50 0000000000000080\n\
          XXXXXXXXXXXXXXXXXXXXXXXXXXXXXXXXXXXXXXXXXXXXXXXXXXXXXXXX-OXXXXO- +64 +64 8100000000000000\nEND 000002\n",
        b"line 2: error 1\n",
        0,
    ),
    (
        b"OBOOK1\n--OXOOO-OOOOOOOOOOOOOOOOOOOOOOOOOOOOOOOOOOOOOOOOOOOOOOOOOOOOOOOO -50 0000000000000080\nEND 000001\n",
        b"---------------------------OX------XO--------------------------- X\n\
          --OXOOO-OOOOOOOOOOOOOOOOOOOOOOOOOOOOOOOOOOOOOOOOOOOOOOOOOOOOOOOO X\n\
          -OXXXXO-XXXXXXXXXXXXXXXXXXXXXXXXXXXXXXXXXXXXXXXXXXXXXXXXXXXXXXXX X",
        b"OBOOK2 W\n--OXOOO-OOOOOOOOOOOOOOOOOOOOOOOOOOOOOOOOOOOOOOOOOOOOOOOOOOOOOOOO -50 -50 0000000000000080\n\
          XXXXXXXXXXXXXXXXXXXXXXXXXXXXXXXXXXXXXXXXXXXXXXXXXXXXXXXX-OXXXXO- +64 +64 8100000000000000\nEND 000002\n",
        b"line 1: error 5 60\n",
        0,
    ),
    (
        b"OBOOK2 W\n--OXOOO-OOOOOOOOOOOOOOOOOOOOOOOOOOOOOOOOOOOOOOOOOOOOOOOOOOOOOOOO -64 -40 0000000000000000\n\
          END 000001\n",
        b"--OXOOO-OOOOOOOOOOOOOOOOOOOOOOOOOOOOOOOOOOOOOOOOOOOOOOOOOOOOOOOO X\n",
        b"OBOOK2 W\n--OXOOO-OOOOOOOOOOOOOOOOOOOOOOOOOOOOOOOOOOOOOOOOOOOOOOOOOOOOOOOO -50 -50 0000000000000080\n\
          END 000001\n",
        b"",
        0,
    ),
    (
        b"OBOOK1\nEND 000000",
        b"--OXOOO-OOOOOOOOOOOOOOOOOOOOOOOOOOOOOOOOOOOOOOOOOOOOOOOOOOOOOOOO X\n",
        b"",
        b"book error 5\n",
        3,
    ),
    (
        b"OBOOK1\n--OXOOO-OOOOOOOOOOOOOOOOOOOOOOOOOOOOOOOOOOOOOOOOOOOOOOOOOOOOOOOO -48 0000000000000080\nEND 000001\n",
        b"--OXOOO-OOOOOOOOOOOOOOOOOOOOOOOOOOOOOOOOOOOOOOOOOOOOOOOOOOOOOOOO X\n",
        b"",
        b"book wrong 1 at 1\n",
        3,
    ),
];

// A blank line before `TWO_LINES`.
const THREE_LINES: &[u8] = b"\n--OXOOO-OOOOOOOOOOOOOOOOOOOOOOOOOOOOOOOOOOOOOOOOOOOOOOOOOOOOOOOO X\n\
      -OXXXXO-XXXXXXXXXXXXXXXXXXXXXXXXXXXXXXXXXXXXXXXXXXXXXXXXXXXXXXXX X\n";

// The scoring is the file's, whatever the settings say.
#[test]
fn adds_the_lines_of_each_input(rt: HostRuntime) {
    for (file, input, written, told, status) in ADDED {
        let done = add(
            &rt,
            file,
            input,
            NO_FAILURE,
            NO_FAILURE,
            &by_two_workers(Scoring::Discs),
        );
        assert!(rt; done.status == status);
        assert!(rt; done.writer.taken() == written);
        assert!(rt; done.errors.taken() == told);
    }
}

// A read that fails leaves no book, and a write that fails a beginning of it. Neither device is called again: the
// source gives a byte a time, the sink takes one.
#[test]
fn an_addition_with_a_failing_device_writes_no_more(rt: HostRuntime) {
    let asked = by_two_workers(Scoring::Discs);
    for n in 0..TWO_LINES.len() + 1 {
        let done = add(&rt, EMPTY_BOOK, TWO_LINES, n, NO_FAILURE, &asked);
        assert!(rt; done.status == 1 && done.errors.taken() == b"run error 1\n".as_slice());
        assert!(rt; done.writer.taken().is_empty());
        assert!(rt; done.reads == n as u64 + 1 && done.writer.calls() == 0);
    }
    let whole = TWO_LINES.len() as u64 + 1;
    for n in 0..BOOK_OF_TWO.len() {
        let done = add(&rt, EMPTY_BOOK, TWO_LINES, NO_FAILURE, n, &asked);
        assert!(rt; done.status == 1 && done.errors.taken() == b"run error 2\n".as_slice());
        assert!(rt; done.writer.taken() == &BOOK_OF_TWO[..n]);
        assert!(rt; done.reads == whole && done.writer.calls() == n as u64 + 1);
    }
}

// Neither the file nor the input is looked at.
#[test]
fn an_addition_tests_its_settings_first(rt: HostRuntime) {
    for (workers, cells, told) in [
        (0, 3, b"run error 3\n"),
        (17, 0, b"run error 3\n"),
        (16, 3, b"run error 4\n"),
        (16, 524_288, b"run error 4\n"),
    ] {
        let asked = Settings {
            workers,
            cells,
            ..settings(Command::Solve, Scoring::Winner)
        };
        let done = add(&rt, b"", TWO_LINES, 0, 0, &asked);
        assert!(rt; done.status == 2 && done.errors.taken() == told.as_slice());
        assert!(rt; done.reads == 0 && done.writer.calls() == 0);
    }
}

// The fault of the blank line can't be told.
#[test]
fn an_addition_passes_a_failing_standard_error_over(rt: HostRuntime) {
    let mut reader = BrokenSource::new(THREE_LINES, NO_FAILURE);
    let mut writer = ByteSink::<256>::new(NO_FAILURE);
    let mut errors = Errors::new(ByteSink::<64>::new(0), false);
    let status = book_add(
        &rt,
        rt.alloc(),
        EMPTY_BOOK,
        &mut reader,
        &mut writer,
        &mut errors,
        &by_two_workers(Scoring::Winner),
        &unseen(),
    );
    assert!(rt; status == 0 && errors.sink.calls() == 1);
    assert!(rt; writer.taken() == BOOK_OF_TWO && BOOK_OF_TWO.len() == 200);
}
