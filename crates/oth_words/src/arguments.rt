//! The options and the other arguments of the subcommands.

ghost use Rattle.std.specs.Prelude.{◌≡◌, codes, false};
ghost use Rattle.clap.specs.Words.{new_rule, rule_of};
ghost use Rattle.clap.specs.declared.builder.texts.Texts.TheVariants.{One};
ghost use Rattle.oth_words.specs.CommandLine.{IsCalled, book_rule, cells_rule, file_rule, switch_rule, files_rule};
ghost use Rattle.oth_words.specs.CommandLine.{last_rule, option_rule, scoring_rule, workers_rule};

use clap::{Arg, ArgAction, value_parser};
use std::alloc::Global;

/// The most cells that `--cells` takes; `run` then refuses what is no power of two.
pub const MOST_CELLS: u32 = 262_144;

// An option with this name that takes one value, and what help calls the value.
fn option<'a>(alloc: Global, name: &'a str, value: &'a str) -> Arg<'a>
    ensures rule { rule_of result ≡ option_rule name.entry.now }
    ensures value { result.val_names ≡ One value.entry }
    ensures local { result.global ≡ false }
{
    Arg::new(alloc, name)
        .long(name)
        .value_name(value)
        .action(ArgAction::Set)
}

/// The option `--workers N`.
pub fn workers_option<'a>(alloc: Global) -> Arg<'a>
    ensures rule { rule_of result ≡ workers_rule }
    ensures value { IsCalled result.val_names (codes "N") }
    ensures local { result.global ≡ false }
{
    option(alloc, "workers", "N")
        .value_parser(value_parser!(u8).range(1..=16))
        .default_value("1")
        .help("Threads that search one board together, 1 to 16")
}

/// The option `--cells N`.
pub fn cells_option<'a>(alloc: Global) -> Arg<'a>
    ensures rule { rule_of result ≡ cells_rule }
    ensures value { IsCalled result.val_names (codes "N") }
    ensures local { result.global ≡ false }
{
    option(alloc, "cells", "N")
        .value_parser(value_parser!(u32).range(0..=i64::from(MOST_CELLS)))
        .default_value("65536")
        .help(
            "Cells of 32 bytes of the table that they share: 0, or a power of two up to 262144. \
             Without any, large boards take longer; more than the default save little time",
        )
}

/// The option `--last N`.
pub fn last_option<'a>(alloc: Global) -> Arg<'a>
    ensures rule { rule_of result ≡ last_rule }
    ensures value { IsCalled result.val_names (codes "N") }
    ensures local { result.global ≡ false }
{
    option(alloc, "last", "N")
        .value_parser(value_parser!(u8).range(1..=30))
        .default_value("20")
        .help("Tell the moves that are made from N empty squares on, 1 to 30")
}

/// The option `--scoring`, with its two words.
pub fn scoring_option<'a>(alloc: Global, scorings: &'a [&'a str]) -> Arg<'a>
    ensures rule { rule_of result ≡ scoring_rule scorings.entry }
    ensures value { IsCalled result.val_names (codes "SCORING") }
    ensures local { result.global ≡ false }
{
    option(alloc, "scoring", "SCORING")
        .value_parser(scorings)
        .default_value("winner")
        .help(
            "What a finished game is worth: 'winner', the usual scoring, of tournaments and of Edax, \
             gives the empty squares to the winner, and 'discs' counts the discs alone",
        )
}

/// The option `--book FILE`.
pub fn book_option<'a>(alloc: Global) -> Arg<'a>
    ensures rule { rule_of result ≡ book_rule }
    ensures value { IsCalled result.val_names (codes "FILE") }
    ensures local { result.global ≡ false }
{
    option(alloc, "book", "FILE").help(
        "A book to consult first, if it is under this scoring; every entry is verified before the first line is read",
    )
}

// An argument with this id that is no option, and that help calls FILE.
fn argument<'a>(alloc: Global, id: &'a str) -> Arg<'a>
    ensures rule { rule_of result ≡ record (new_rule id.entry.now) { value_names = 1 } }
    ensures value { IsCalled result.val_names (codes "FILE") }
    ensures local { result.global ≡ false }
{
    Arg::new(alloc, id).value_name("FILE")
}

// An option with this name that takes no value.
fn switch<'a>(alloc: Global, name: &'a str) -> Arg<'a>
    ensures rule { rule_of result ≡ switch_rule name.entry.now }
    ensures local { result.global ≡ false }
{
    Arg::new(alloc, name).long(name).action(ArgAction::SetTrue)
}

/// The option `--explain`.
pub fn explain_option<'a>(alloc: Global) -> Arg<'a>
    ensures rule { rule_of result ≡ switch_rule (codes "explain") }
    ensures local { result.global ≡ false }
{
    switch(alloc, "explain").help(
        "Tell each fault in words on standard error too, with the number of its line",
    )
}

/// The option `--strict`.
pub fn strict_option<'a>(alloc: Global) -> Arg<'a>
    ensures rule { rule_of result ≡ switch_rule (codes "strict") }
    ensures local { result.global ≡ false }
{
    switch(alloc, "strict").help("End with status 4 where a line has a fault")
}

/// The argument `FILE..` of the commands that report lines.
pub fn files_argument<'a>(alloc: Global) -> Arg<'a>
    ensures rule { rule_of result ≡ files_rule }
    ensures value { IsCalled result.val_names (codes "FILE") }
    ensures local { result.global ≡ false }
{
    argument(alloc, "files")
        .action(ArgAction::Append)
        .num_args(1..)
        .help(
            "A file of lines, or - for standard input, which is read where no FILE is given; several are read one \
             after the other",
        )
}

/// The argument `FILE` of the commands of the book.
pub fn file_argument<'a>(alloc: Global) -> Arg<'a>
    ensures rule { rule_of result ≡ file_rule }
    ensures value { IsCalled result.val_names (codes "FILE") }
    ensures local { result.global ≡ false }
{
    argument(alloc, "file")
        .action(ArgAction::Set)
        .required(true)
        .help("The file of a book of solved positions")
}
