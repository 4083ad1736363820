//! The files of a command come in the order of its words, and the words of a book name its file.

use super::{DEFAULTS, QUIET, reads};
use oth_words::{Settings, Words, read_words};
use std::alloc::Global;

// Whether the files of this command are those of its words, in their order.
fn reads_in_order(alloc: Global, command: &str) -> bool {
    let words = ["othsolve", command, "b.txt", "-", "a.txt", "b.txt"];
    let wanted = ["b.txt", "-", "a.txt", "b.txt"];
    let behind_all = ["othsolve", command, "--", "--workers"];
    reads(alloc, words.as_slice(), wanted.as_slice())
        && reads(alloc, behind_all.as_slice(), ["--workers"].as_slice())
}

const FILES_AMONG_OPTIONS: [&str; 8] = [
    "othsolve",
    "solve",
    "a",
    "--workers",
    "2",
    "b",
    "--book=c",
    "d",
];

#[test]
fn files_come_in_the_order_of_the_words(rt: HostRuntime) {
    for command in ["solve", "scores", "moves", "transcript", "play", "analyse"] {
        assert!(rt; reads_in_order(rt.alloc(), command));
    }
    assert!(rt;
        reads(
            rt.alloc(),
            FILES_AMONG_OPTIONS.as_slice(),
            ["a", "b", "d"].as_slice()
        )
    );
}

fn is_verified(words: &Words, wanted: &str) -> bool {
    match words {
        Words::Verify(telling, file) => *telling == QUIET && file.as_str() == wanted,
        Words::Run(_settings, _telling, _book, _files) => false,
        Words::Add(_settings, _telling, _file) => false,
    }
}

fn is_added_to(words: &Words, wanted: &Settings, wanted_file: &str) -> bool {
    match words {
        Words::Add(settings, telling, file) => {
            settings == wanted && *telling == QUIET && file.as_str() == wanted_file
        }
        Words::Run(_settings, _telling, _book, _files) => false,
        Words::Verify(_telling, _file) => false,
    }
}

#[test]
fn the_words_of_a_book_name_its_file(rt: HostRuntime) {
    let words = ["othsolve", "book-verify", "a.book"];
    let asked = read_words(rt.alloc(), words.as_slice()).expect(&rt, "words");
    assert!(rt; is_verified(&asked, "a.book"));
    let words = ["othsolve", "book-add", "--cells", "64", "a.book"];
    let asked = read_words(rt.alloc(), words.as_slice()).expect(&rt, "words");
    let wanted = Settings {
        cells: 64,
        ..DEFAULTS
    };
    assert!(rt; is_added_to(&asked, &wanted, "a.book"));
}
