//! Each command line that is refused has its kind of fault.

use super::is_refused;
use clap::error::ErrorKind;
use std::process::Abort;

// Lines, and the kinds of their faults.
const REFUSED: [(&[&str], ErrorKind); 8] = [
    (
        &["othsolve", "solve", "--workers", "17"],
        ErrorKind::ValueValidation,
    ),
    (
        &["othsolve", "solve", "--scoring", "stones"],
        ErrorKind::InvalidValue,
    ),
    (
        &["othsolve", "moves", "--cells", "1"],
        ErrorKind::UnknownArgument,
    ),
    (
        &["othsolve", "scores", "--book", "a.book"],
        ErrorKind::UnknownArgument,
    ),
    (
        &["othsolve", "book-verify"],
        ErrorKind::MissingRequiredArgument,
    ),
    (&["othsolve"], ErrorKind::MissingSubcommand),
    (&["othsolve", "help"], ErrorKind::DisplayHelp),
    (&["othsolve", "--version"], ErrorKind::DisplayVersion),
];

fn check_refused(rt: &(impl AllocGlobal + Abort), rows: &[(&[&str], ErrorKind)]) {
    for (words, kind) in rows {
        assert!(rt; is_refused(rt.alloc(), words, *kind));
    }
}

#[test]
fn each_refused_line_has_its_kind_of_fault(rt: HostRuntime) {
    check_refused(&rt, REFUSED.as_slice());
}
