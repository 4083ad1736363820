//! What a subcommand and its matches stand for.

ghost use Rattle.std.specs.Prelude.{◌≡◌, ◌≤◌, ℕ, Option, Some, None, MatchOption, codes, option_map};
ghost use Rattle.clap.specs.Words.{first_of, found_of, one_text, rows_of, subcommand_rows_of};
ghost use Rattle.oth_words.specs.CommandLine.{HasLast, HasNumbers, IsNumber, IsPlain, Meaning, Means, is_yes};
ghost use Rattle.oth_words.specs.CommandLine.{files_of, telling_of, run, scoring_word};
ghost use Rattle.oth_words.specs.Plans.{listed, plan_meaning};

use crate::arguments::MOST_CELLS;
use crate::plan::Plan;
use crate::settings::{Command, Settings, Telling};
use clap::ArgMatches;
use oth_rules::Scoring;

// The number of an option, where it lies in a range.
fn number(matches: &ArgMatches<'_>, id: &str, least: u32, most: u32) -> Option<u32>
    ensures { MatchOption result
        ((n : ℕ) → IsNumber (one_text (found_of matches.now) id.now) n → least ≤ n → n ≤ most → ⊥)
        (λ n. IsNumber (one_text (found_of matches.now) id.now) n × (least ≤ n) × (n ≤ most)) }
{
    let number = matches.get_one::<u32>(id)?;
    if least <= number && number <= most {
        Some(number)
    } else {
        None
    }
}

// The settings of a search for this command with this scoring.
fn search_settings(matches: &ArgMatches<'_>, command: Command, scoring: Scoring) -> Option<Settings>
    ensures { MatchOption result
        ((s : Settings) → HasNumbers (rows_of (found_of matches.now)) s → ⊥)
        (λ s. HasNumbers (rows_of (found_of matches.now)) s × (s.command ≡ command) × (s.scoring ≡ scoring)) }
{
    let workers = number(matches, "workers", 1, 16);
    let cells = number(matches, "cells", 0, MOST_CELLS);
    match (workers, cells) {
        (Some(workers), Some(cells)) => Some(Settings {
            command,
            workers: workers as u8,
            cells,
            scoring,
        }),
        _ => None,
    }
}

// The text of an argument.
fn text<'a>(matches: &ArgMatches<'a>, id: &str) -> Option<&'a str>
    ensures { option_map (λ t. t.now) result ≡ first_of id.now (rows_of (found_of matches.now)) }
{
    matches.get_str(id)
}

// The words FILE, if any are given.
fn files<'m, 'a>(matches: &'m ArgMatches<'a>) -> Option<&'m [&'a str]>
    ensures { listed result ≡ files_of (rows_of (found_of matches.now)) }
{
    matches.get_strs("files")
}

// What is asked for to be told.
fn telling(matches: &ArgMatches<'_>) -> Telling
    ensures { result ≡ telling_of (rows_of (found_of matches.now)) }
{
    Telling {
        explains: is_given(matches, "explain"),
        is_strict: is_given(matches, "strict"),
    }
}

// Whether the option without a value is given.
fn is_given(matches: &ArgMatches<'_>, id: &str) -> bool
    ensures { result ≡ is_yes (first_of id.now (rows_of (found_of matches.now))) }
{
    match text(matches, id) {
        Some(text) => text == "true",
        None => false,
    }
}

// The value of `--scoring`.
fn scoring(matches: &ArgMatches<'_>) -> Option<Scoring>
    ensures { MatchOption result
        ((s : Scoring) → first_of (codes "scoring") (rows_of (found_of matches.now)) ≡ Some (scoring_word s) → ⊥)
        (λ s. first_of (codes "scoring") (rows_of (found_of matches.now)) ≡ Some (scoring_word s)) }
{
    match text(matches, "scoring")? {
        "winner" => Some(Scoring::Winner),
        "discs" => Some(Scoring::Discs),
        _ => None,
    }
}

// What `solve` stands for.
fn solve_plan<'m, 'a>(matches: &'m ArgMatches<'a>) -> Option<Plan<'m, 'a>>
    ensures { MatchOption result
        ((m : Meaning) → Means (Some (codes "solve", rows_of (found_of matches.now))) m → ⊥)
        (λ p. Means (Some (codes "solve", rows_of (found_of matches.now))) (plan_meaning p)) }
{
    let settings = search_settings(matches, Command::Solve, scoring(matches)?)?;
    Some(Plan::Run(
        settings,
        telling(matches),
        text(matches, "book"),
        files(matches),
    ))
}

// What `scores` stands for.
fn scores_plan<'m, 'a>(matches: &'m ArgMatches<'a>) -> Option<Plan<'m, 'a>>
    ensures { MatchOption result
        ((m : Meaning) → Means (Some (codes "scores", rows_of (found_of matches.now))) m → ⊥)
        (λ p. Means (Some (codes "scores", rows_of (found_of matches.now))) (plan_meaning p)) }
{
    let settings = search_settings(matches, Command::Scores, scoring(matches)?)?;
    Some(Plan::Run(settings, telling(matches), None, files(matches)))
}

// The value of `--last`.
fn last(matches: &ArgMatches<'_>) -> Option<u8>
    ensures { MatchOption result
        ((n : ℕ) → HasLast (rows_of (found_of matches.now)) n → ⊥)
        (λ n. HasLast (rows_of (found_of matches.now)) n) }
{
    let last = number(matches, "last", 1, 30)?;
    Some(last as u8)
}

// What `analyse` stands for.
fn analyse_plan<'m, 'a>(matches: &'m ArgMatches<'a>) -> Option<Plan<'m, 'a>>
    ensures { MatchOption result
        ((m : Meaning) → Means (Some (codes "analyse", rows_of (found_of matches.now))) m → ⊥)
        (λ p. Means (Some (codes "analyse", rows_of (found_of matches.now))) (plan_meaning p)) }
{
    let command = Command::Analyse(last(matches)?);
    let settings = search_settings(matches, command, scoring(matches)?)?;
    Some(Plan::Run(settings, telling(matches), None, files(matches)))
}

// What `book-verify` stands for.
fn verify_plan<'m, 'a>(matches: &'m ArgMatches<'a>) -> Option<Plan<'m, 'a>>
    ensures { MatchOption result
        ((m : Meaning) → Means (Some (codes "book-verify", rows_of (found_of matches.now))) m → ⊥)
        (λ p. Means (Some (codes "book-verify", rows_of (found_of matches.now))) (plan_meaning p)) }
{
    Some(Plan::Verify(telling(matches), text(matches, "file")?))
}

// What `book-add` stands for.
fn add_plan<'m, 'a>(matches: &'m ArgMatches<'a>) -> Option<Plan<'m, 'a>>
    ensures { MatchOption result
        ((m : Meaning) → Means (Some (codes "book-add", rows_of (found_of matches.now))) m → ⊥)
        (λ p. Means (Some (codes "book-add", rows_of (found_of matches.now))) (plan_meaning p)) }
{
    let settings = search_settings(matches, Command::Solve, Scoring::Winner)?;
    Some(Plan::Add(settings, telling(matches), text(matches, "file")?))
}

// What the commands that search no board ask for.
fn plain<'m, 'a>(matches: &'m ArgMatches<'a>, command: Command) -> Plan<'m, 'a>
    ensures { (s : Settings) × (s.command ≡ command) × IsPlain s × (plan_meaning result
        ≡ run s (telling_of (rows_of (found_of matches.now))) None (files_of (rows_of (found_of matches.now)))) }
{
    let settings = Settings {
        command,
        workers: 1,
        cells: 0,
        scoring: Scoring::Winner,
    };
    Plan::Run(settings, telling(matches), None, files(matches))
}

// What a subcommand and its matches stand for.
fn plan<'m, 'a>(name: &str, matches: &'m ArgMatches<'a>) -> Option<Plan<'m, 'a>>
    ensures { MatchOption result
        ((m : Meaning) → Means (Some (name.now, rows_of (found_of matches.now))) m → ⊥)
        (λ p. Means (Some (name.now, rows_of (found_of matches.now))) (plan_meaning p)) }
{
    match name {
        "solve" => solve_plan(matches),
        "scores" => scores_plan(matches),
        "moves" => Some(plain(matches, Command::Moves)),
        "transcript" => Some(plain(matches, Command::Transcript)),
        "play" => Some(plain(matches, Command::Play)),
        "analyse" => analyse_plan(matches),
        "book-verify" => verify_plan(matches),
        "book-add" => add_plan(matches),
        _ => None,
    }
}

/// What the subcommand of a parse stands for.
pub fn chosen<'m, 'a>(matches: &'m ArgMatches<'a>) -> Option<Plan<'m, 'a>>
    ensures { MatchOption result
        ((m : Meaning) → Means (subcommand_rows_of matches.now) m → ⊥)
        (λ p. Means (subcommand_rows_of matches.now) (plan_meaning p)) }
{
    match matches.subcommand() {
        Some((name, matches)) => plan(name, matches),
        None => None,
    }
}
