//! The program and its subcommands, as clap is told of them.

ghost use Rattle.std.specs.Prelude.{◌≡◌, IfOk, false};
ghost use Rattle.clap.specs.Words.{app_of, new_app};
ghost use Rattle.clap.specs.declared.builder.command.Command.TheViews.{out-Command};
ghost use Rattle.oth_words.specs.CommandLine.{add_app, analyse_app, lines_app, plain_app, othsolve, scores_app};
ghost use Rattle.oth_words.specs.CommandLine.{searcher_app, solve_app, titled, verify_app};

use crate::arguments::{
    book_option, cells_option, explain_option, file_argument, files_argument, last_option,
    scoring_option, strict_option, workers_option,
};
use crate::texts::{
    ADD_NOTES, ANALYSE_ABOUT, ANALYSE_NOTES, ANALYSE_USAGE, MOVES_ABOUT, MOVES_NOTES, MOVES_USAGE,
    PLAY_ABOUT, PLAY_NOTES, PLAY_USAGE, PROGRAM_NOTES, SCORES_ABOUT, SCORES_NOTES, SCORES_USAGE,
    SOLVE_ABOUT, SOLVE_NOTES, SOLVE_USAGE, TRANSCRIPT_ABOUT, TRANSCRIPT_NOTES, TRANSCRIPT_USAGE,
    VERIFY_NOTES,
};
use clap::Command as App;
use std::alloc::{AllocError, Global};

// What `--version` prints behind the program's name: the version, and the first 16 digits of the toolchain's logic that
// the proofs are of.
const VERSION: &str = "0.2.0 (rattle logic dac8208d650f15bf)";

// A subcommand of this name and its help, without arguments: what it is about, how it is called, and what stands
// behind.
fn titled_command<'a>(
    alloc: Global,
    name: &'a str,
    about: &'a str,
    usage: &'a str,
    notes: &'a str,
) -> App<'a>
    ensures app { app_of result ≡ new_app name.entry.now }
    ensures local { (out-Command result).has_globals ≡ false }
{
    App::new(alloc, name)
        .about(about)
        .override_usage(usage)
        .after_help(notes)
}

// The subcommand with what each command that reports lines has last.
fn with_lines<'a>(alloc: Global, command: App<'a>) -> Result<App<'a>, AllocError>
    requires { (out-Command command).has_globals ≡ false }
    ensures app { IfOk result (λ c. app_of c ≡ lines_app (app_of command.entry)) }
    ensures local { IfOk result (λ c. (out-Command c).has_globals ≡ false) }
{
    command
        .arg(explain_option(alloc))?
        .arg(strict_option(alloc))?
        .arg(files_argument(alloc))
}

// The subcommand with the options of a search.
fn with_search_options<'a>(
    alloc: Global,
    titled: App<'a>,
    scorings: &'a [&'a str],
) -> Result<App<'a>, AllocError>
    requires { (out-Command titled).has_globals ≡ false }
    ensures app { IfOk result (λ c. app_of c ≡ searcher_app (app_of titled.entry) scorings.entry) }
    ensures local { IfOk result (λ c. (out-Command c).has_globals ≡ false) }
{
    titled
        .arg(workers_option(alloc))?
        .arg(cells_option(alloc))?
        .arg(scoring_option(alloc, scorings))
}

// The subcommand `solve` with its options.
fn solve_command<'a>(alloc: Global, scorings: &'a [&'a str]) -> Result<App<'a>, AllocError>
    ensures app { IfOk result (λ c. app_of c ≡ solve_app scorings.entry) }
    ensures local { IfOk result (λ c. (out-Command c).has_globals ≡ false) }
{
    let solve = titled_command(alloc, "solve", SOLVE_ABOUT, SOLVE_USAGE, SOLVE_NOTES);
    let searcher = with_search_options(alloc, solve, scorings)?;
    with_lines(alloc, searcher.arg(book_option(alloc))?)
}

// The subcommand `scores` with its options.
fn scores_command<'a>(alloc: Global, scorings: &'a [&'a str]) -> Result<App<'a>, AllocError>
    ensures app { IfOk result (λ c. app_of c ≡ scores_app scorings.entry) }
    ensures local { IfOk result (λ c. (out-Command c).has_globals ≡ false) }
{
    let scores = titled_command(alloc, "scores", SCORES_ABOUT, SCORES_USAGE, SCORES_NOTES);
    with_lines(alloc, with_search_options(alloc, scores, scorings)?)
}

// The subcommand `analyse` with its options.
fn analyse_command<'a>(alloc: Global, scorings: &'a [&'a str]) -> Result<App<'a>, AllocError>
    ensures app { IfOk result (λ c. app_of c ≡ analyse_app scorings.entry) }
    ensures local { IfOk result (λ c. (out-Command c).has_globals ≡ false) }
{
    let analyse = titled_command(
        alloc,
        "analyse",
        ANALYSE_ABOUT,
        ANALYSE_USAGE,
        ANALYSE_NOTES,
    );
    let searcher = with_search_options(alloc, analyse, scorings)?;
    with_lines(alloc, searcher.arg(last_option(alloc))?)
}

// A subcommand that searches no board, of this name and with this help.
fn plain_command<'a>(
    alloc: Global,
    name: &'a str,
    about: &'a str,
    usage: &'a str,
    notes: &'a str,
) -> Result<App<'a>, AllocError>
    ensures app { IfOk result (λ c. app_of c ≡ plain_app name.entry.now) }
    ensures local { IfOk result (λ c. (out-Command c).has_globals ≡ false) }
{
    let titled = titled_command(alloc, name, about, usage, notes);
    with_lines(alloc, titled)
}

// The subcommand `book-verify`.
fn verify_command<'a>(alloc: Global) -> Result<App<'a>, AllocError>
    ensures app { IfOk result (λ c. app_of c ≡ verify_app) }
    ensures local { IfOk result (λ c. (out-Command c).has_globals ≡ false) }
{
    App::new(alloc, "book-verify")
        .about("Verifies every entry of the book of FILE")
        .after_help(VERIFY_NOTES)
        .arg(explain_option(alloc))?
        .arg(file_argument(alloc))
}

// The subcommand `book-add`.
fn add_command<'a>(alloc: Global) -> Result<App<'a>, AllocError>
    ensures app { IfOk result (λ c. app_of c ≡ add_app) }
    ensures local { IfOk result (λ c. (out-Command c).has_globals ≡ false) }
{
    App::new(alloc, "book-add")
        .about(
            "Solves the boards on standard input and writes the book of FILE with their answers added",
        )
        .override_usage("othsolve book-add [OPTIONS] FILE < BOARDS")
        .after_help(ADD_NOTES)
        .arg(workers_option(alloc))?
        .arg(cells_option(alloc))?
        .arg(explain_option(alloc))?
        .arg(file_argument(alloc))
}

// The program with its version and its help, without subcommands.
fn titled_program<'a>(alloc: Global) -> App<'a>
    ensures app { app_of result ≡ titled }
    ensures local { (out-Command result).has_globals ≡ false }
{
    App::new(alloc, "othsolve")
        .version(VERSION)
        .about("Exact scores and best moves of Othello boards of at most 30 empty squares")
        .after_help(PROGRAM_NOTES)
}

/// The program with its subcommands.
pub fn command<'a>(alloc: Global, scorings: &'a [&'a str]) -> Result<App<'a>, AllocError>
    ensures { IfOk result (λ c. app_of c ≡ othsolve scorings.entry) }
{
    titled_program(alloc)
        .subcommand_required(true)
        .subcommand(solve_command(alloc, scorings)?)?
        .subcommand(scores_command(alloc, scorings)?)?
        .subcommand(plain_command(alloc, "moves", MOVES_ABOUT, MOVES_USAGE, MOVES_NOTES)?)?
        .subcommand(plain_command(
            alloc,
            "transcript",
            TRANSCRIPT_ABOUT,
            TRANSCRIPT_USAGE,
            TRANSCRIPT_NOTES,
        )?)?
        .subcommand(plain_command(alloc, "play", PLAY_ABOUT, PLAY_USAGE, PLAY_NOTES)?)?
        .subcommand(analyse_command(alloc, scorings)?)?
        .subcommand(verify_command(alloc)?)?
        .subcommand(add_command(alloc)?)
}
