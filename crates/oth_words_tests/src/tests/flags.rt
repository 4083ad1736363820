//! Which commands explain and are strict where they are asked, and which refuse to.

use super::{QUIET, is_refused, reads};
use clap::error::ErrorKind;
use oth_words::{Telling, Words, read_words};
use std::alloc::Global;

const EXPLAINING: Telling = Telling {
    explains: true,
    is_strict: false,
};

const STRICT: Telling = Telling {
    explains: false,
    is_strict: true,
};

const STRICT_AND_EXPLAINING: Telling = Telling {
    explains: true,
    is_strict: true,
};

// Whether what is asked for comes with this telling.
fn has_telling(words: &Words, wanted: Telling) -> bool {
    match words {
        Words::Run(_settings, telling, _book, _files) => *telling == wanted,
        Words::Verify(telling, _file) => *telling == wanted,
        Words::Add(_settings, telling, _file) => *telling == wanted,
    }
}

// Whether these words ask for this telling.
fn tells(alloc: Global, words: &[&str], wanted: Telling) -> bool {
    match read_words(alloc, words) {
        Ok(asked) => has_telling(&asked, wanted),
        Err(_error) => false,
    }
}

#[test]
fn each_command_that_reports_lines_explains_where_it_is_asked(rt: HostRuntime) {
    for command in ["solve", "scores", "moves", "transcript", "play", "analyse"] {
        let plain = ["othsolve", command, "a.txt"];
        assert!(rt; tells(rt.alloc(), plain.as_slice(), QUIET));
        let before = ["othsolve", command, "--explain", "a.txt"];
        assert!(rt; tells(rt.alloc(), before.as_slice(), EXPLAINING));
        assert!(rt; reads(rt.alloc(), before.as_slice(), ["a.txt"].as_slice()));
        let behind = ["othsolve", command, "a.txt", "--explain"];
        assert!(rt; tells(rt.alloc(), behind.as_slice(), EXPLAINING));
        let twice = ["othsolve", command, "--explain", "--explain"];
        assert!(rt; is_refused(rt.alloc(), twice.as_slice(), ErrorKind::ArgumentConflict));
        let valued = ["othsolve", command, "--explain=yes"];
        assert!(rt; is_refused(rt.alloc(), valued.as_slice(), ErrorKind::TooManyValues));
    }
}

#[test]
fn the_commands_of_the_book_explain_where_they_are_asked(rt: HostRuntime) {
    for command in ["book-add", "book-verify"] {
        let plain = ["othsolve", command, "a.book"];
        assert!(rt; tells(rt.alloc(), plain.as_slice(), QUIET));
        let before = ["othsolve", command, "--explain", "a.book"];
        assert!(rt; tells(rt.alloc(), before.as_slice(), EXPLAINING));
        let behind = ["othsolve", command, "a.book", "--explain"];
        assert!(rt; tells(rt.alloc(), behind.as_slice(), EXPLAINING));
    }
}

#[test]
fn each_command_that_reports_lines_is_strict_where_it_is_asked(rt: HostRuntime) {
    for command in ["solve", "scores", "moves", "transcript", "play", "analyse"] {
        let plain = ["othsolve", command, "--explain", "a.txt"];
        assert!(rt; tells(rt.alloc(), plain.as_slice(), EXPLAINING));
        let strict = ["othsolve", command, "a.txt", "--strict"];
        assert!(rt; tells(rt.alloc(), strict.as_slice(), STRICT));
        assert!(rt; reads(rt.alloc(), strict.as_slice(), ["a.txt"].as_slice()));
        let both = ["othsolve", command, "--strict", "--explain"];
        assert!(rt; tells(rt.alloc(), both.as_slice(), STRICT_AND_EXPLAINING));
    }
    for command in ["book-add", "book-verify"] {
        let words = ["othsolve", command, "--strict", "a.book"];
        assert!(rt; is_refused(rt.alloc(), words.as_slice(), ErrorKind::UnknownArgument));
    }
}
