//! Each command has the defaults and takes the values of its options, and the plain commands take none.

use super::{DEFAULTS, QUIET};
use oth_rules::Scoring;
use oth_words::{Command, DEFAULT_CELLS, Settings, Words, read_words};
use std::alloc::Global;

fn is_plain_run(words: &Words, wanted: &Settings) -> bool {
    match words {
        Words::Run(settings, _telling, book, files) => {
            settings == wanted && book.is_none() && files.is_empty()
        }
        Words::Verify(_telling, _file) => false,
        Words::Add(_settings, _telling, _file) => false,
    }
}

// Whether these words ask for this run, without a book and over standard input.
fn runs(alloc: Global, words: &[&str], wanted: &Settings) -> bool {
    match read_words(alloc, words) {
        Ok(asked) => is_plain_run(&asked, wanted),
        Err(_error) => false,
    }
}

fn is_run_with_book(words: &Words, wanted: &Settings, wanted_book: &str) -> bool {
    match words {
        Words::Run(settings, telling, Some(book), files) => {
            settings == wanted
                && *telling == QUIET
                && files.is_empty()
                && book.as_str() == wanted_book
        }
        _ => false,
    }
}

// Whether these words ask for this run with the book of this file, over standard input.
fn runs_with_book(alloc: Global, words: &[&str], wanted: &Settings, book: &str) -> bool {
    match read_words(alloc, words) {
        Ok(asked) => is_run_with_book(&asked, wanted, book),
        Err(_error) => false,
    }
}

const VALUES_OF_SOLVE: [&str; 9] = [
    "othsolve",
    "solve",
    "--workers",
    "16",
    "--cells=0",
    "--scoring",
    "discs",
    "--book",
    "a.book",
];

#[test]
fn solve_has_defaults_and_takes_values(rt: HostRuntime) {
    let words = ["othsolve", "solve"];
    assert!(rt; runs(rt.alloc(), words.as_slice(), &DEFAULTS));
    assert!(rt; DEFAULTS.cells == DEFAULT_CELLS);
    let wanted = Settings {
        command: Command::Solve,
        workers: 16,
        cells: 0,
        scoring: Scoring::Discs,
    };
    assert!(rt; runs_with_book(rt.alloc(), VALUES_OF_SOLVE.as_slice(), &wanted, "a.book"));
}

const VALUES_OF_SCORES: [&str; 7] = [
    "othsolve",
    "scores",
    "--workers=4",
    "--cells",
    "128",
    "--scoring",
    "discs",
];

#[test]
fn scores_has_defaults_and_takes_values(rt: HostRuntime) {
    let words = ["othsolve", "scores"];
    let wanted = Settings {
        command: Command::Scores,
        ..DEFAULTS
    };
    assert!(rt; runs(rt.alloc(), words.as_slice(), &wanted));
    let wanted = Settings {
        command: Command::Scores,
        workers: 4,
        cells: 128,
        scoring: Scoring::Discs,
    };
    assert!(rt; runs(rt.alloc(), VALUES_OF_SCORES.as_slice(), &wanted));
}

const VALUES_OF_ANALYSE: [&str; 7] = [
    "othsolve",
    "analyse",
    "--last",
    "30",
    "--workers=4",
    "--scoring",
    "discs",
];

#[test]
fn analyse_has_defaults_and_takes_values(rt: HostRuntime) {
    let words = ["othsolve", "analyse"];
    let wanted = Settings {
        command: Command::Analyse(20),
        ..DEFAULTS
    };
    assert!(rt; runs(rt.alloc(), words.as_slice(), &wanted));
    let wanted = Settings {
        command: Command::Analyse(30),
        workers: 4,
        scoring: Scoring::Discs,
        ..DEFAULTS
    };
    assert!(rt; runs(rt.alloc(), VALUES_OF_ANALYSE.as_slice(), &wanted));
}

#[test]
fn the_plain_commands_take_no_options(rt: HostRuntime) {
    let commands = [
        ("moves", Command::Moves),
        ("transcript", Command::Transcript),
        ("play", Command::Play),
    ];
    for (word, command) in commands {
        let wanted = Settings {
            command,
            cells: 0,
            ..DEFAULTS
        };
        assert!(rt; runs(rt.alloc(), ["othsolve", word].as_slice(), &wanted));
    }
}
