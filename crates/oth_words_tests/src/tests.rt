//! Command lines, what is asked by them, and the kinds of their faults; what several of these tests ask of one.

mod faults;
mod files;
mod flags;
mod options;

use clap::error::ErrorKind;
use oth_rules::Scoring;
use oth_words::{Command, Settings, Telling, Words, read_words};
use std::alloc::Global;

const DEFAULTS: Settings = Settings {
    command: Command::Solve,
    workers: 1,
    cells: 65536,
    scoring: Scoring::Winner,
};

// Nothing is told beside what is written.
const QUIET: Telling = Telling {
    explains: false,
    is_strict: false,
};

// Whether the texts are the wanted ones, in their order.
fn are(texts: &[String], wanted: &[&str]) -> bool {
    if texts.len() != wanted.len() {
        return false;
    }
    for at in 0..wanted.len() {
        if at >= texts.len() || texts[at].as_str() != wanted[at] {
            return false;
        }
    }
    true
}

// Whether these words ask for a run over just these files.
fn reads(alloc: Global, words: &[&str], wanted: &[&str]) -> bool {
    match read_words(alloc, words) {
        Ok(asked) => has_files(&asked, wanted),
        Err(_error) => false,
    }
}

fn has_files(words: &Words, wanted: &[&str]) -> bool {
    match words {
        Words::Run(_settings, _telling, _book, files) => are(files.as_slice(), wanted),
        Words::Verify(_telling, _file) => false,
        Words::Add(_settings, _telling, _file) => false,
    }
}

// Whether these words are refused with this kind of fault.
fn is_refused(alloc: Global, words: &[&str], kind: ErrorKind) -> bool {
    match read_words(alloc, words) {
        Ok(_asked) => false,
        Err(error) => error.kind() == kind,
    }
}
