//! The command line, read by clap.

ghost use Rattle.std.specs.Prelude.{◌≡◌, Option, IfOk, map, option_map, string_bytes};
ghost use Rattle.oth_words.specs.CommandLine.{AreScorings, IsReading, ScoringWords, meaning_of, othsolve};
ghost use Rattle.oth_words.specs.Plans.{listed, plan_meaning};

use crate::commands::command;
use crate::matches::chosen;
use crate::plan::Plan;
use crate::settings::Words;
use clap::Error;
use clap::error::ErrorKind;
use std::alloc::{AllocError, Global};

// The words of `--scoring`.
const SCORINGS: [&str; 2] = ["winner", "discs"];

// The texts as texts of their own.
fn texts_copied(alloc: Global, texts: &[&str]) -> Result<Vec<String>, AllocError>
    ensures { IfOk result (λ copies. map string_bytes copies.items ≡ map (λ t. t.now) texts.now) }
{
    let mut copies = Vec::new(alloc);
    for at in 0..texts.len() {
        copies.push(String::from_str(alloc, texts[at])?)?;
    }
    Ok(copies)
}

// The names of the files as texts of their own.
fn files_copied(alloc: Global, files: Option<&[&str]>) -> Result<Vec<String>, AllocError>
    ensures { IfOk result (λ copies. map string_bytes copies.items ≡ listed files.entry) }
{
    match files {
        Some(files) => texts_copied(alloc, files),
        None => Ok(Vec::new(alloc)),
    }
}

// The name of a book as a text of its own.
fn book_copied(alloc: Global, book: Option<&str>) -> Result<Option<String>, AllocError>
    ensures { IfOk result (λ copy. option_map string_bytes copy ≡ option_map (λ t. t.now) book.entry) }
{
    match book {
        Some(book) => Ok(Some(String::from_str(alloc, book)?)),
        None => Ok(None),
    }
}

// The plan with texts of its own.
fn owned(alloc: Global, plan: Plan<'_, '_>) -> Result<Words, AllocError>
    ensures { IfOk result (λ w. meaning_of w ≡ plan_meaning plan.entry) }
{
    match plan {
        Plan::Run(settings, telling, book, files) => {
            let book = book_copied(alloc, book)?;
            let files = files_copied(alloc, files)?;
            Ok(Words::Run(settings, telling, book, files))
        }
        Plan::Verify(telling, file) => Ok(Words::Verify(telling, String::from_str(alloc, file)?)),
        Plan::Add(settings, telling, file) => {
            Ok(Words::Add(settings, telling, String::from_str(alloc, file)?))
        }
    }
}

// What the words stand for, where the scorings have these words.
fn read_with<'a>(
    alloc: Global,
    scorings: &'a [&'a str],
    words: &'a [&'a str],
) -> Result<Words, Error>
    requires { AreScorings scorings }
    ensures { IsReading (othsolve scorings.entry) (map (λ w. w.now) words.entry.now) result }
{
    let mut command = command(alloc, scorings)?;
    let matches = command.try_get_matches_from_mut(words)?;
    let Some(plan) = chosen(&matches) else {
        return Err(command.error(ErrorKind::ValueValidation, "not a lawful value")?);
    };
    Ok(owned(alloc, plan)?)
}

/// Reads the words of a command line, of which the first names the program:
///
/// - `solve [--workers N] [--cells N] [--scoring winner|discs] [--book FILE] [--explain] [--strict] [FILE]..`
/// - `scores [--workers N] [--cells N] [--scoring winner|discs] [--explain] [--strict] [FILE]..`
/// - `moves`, `transcript`, `play`, each with `[--explain] [--strict] [FILE]..`: by one worker, without a table
/// - `analyse [--workers N] [--cells N] [--scoring winner|discs] [--last N] [--explain] [--strict] [FILE]..`
/// - `book-verify [--explain] FILE`
/// - `book-add [--workers N] [--cells N] [--explain] FILE`: it solves under `winner`
///
/// The names of `[FILE]..` come in the order of the words, each as often as it stands there; what begins with `-` is
/// one only behind `--`, but for `-` itself. There are 1 to 16 workers, or 1 by default, and 0 to 262,144 cells, or
/// 65,536. `--last` is 1 to 30, or 20 by default. The default scoring is `winner`. The subcommand and each value are
/// those that clap's exact meaning gives for the words. Where that meaning takes the words, out of memory is the only
/// error. Where clap finds a fault in the words, the error is of that fault's kind, or out of memory. A call for help
/// or for the version is such a fault, with the text as clap writes it.
pub fn read_words(alloc: Global, words: &[&str]) -> Result<Words, Error>
    ensures { (scorings : ScoringWords) × AreScorings scorings
        × IsReading (othsolve scorings) (map (λ w. w.now) words.entry.now) result }
{
    read_with(alloc, SCORINGS.as_slice(), words)
}
