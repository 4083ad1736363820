//! The words of the command line.
//!
//! `command_line` reads a command line whole, and `settings` has what it asks for. `commands` tells clap of the
//! subcommands, with their `arguments` and the `texts` of their help, and `matches` reads what clap found. The crate
//! stands apart because each check that sees clap takes some seconds more. Its files `WalkKeeps`, `RowsPass` and
//! `Levels` of `proofs/` are about clap alone and would serve any program: an induction over clap's walk through the
//! words for any property of the rows that each argument's uses and defaults keep; that each row's texts passed their
//! argument's parser; and what one level and the entry of a subcommand give.
#![tactic(auto)]

mod arguments;
mod command_line;
mod commands;
mod matches;
mod plan;
mod settings;
mod texts;

pub use command_line::read_words;
pub use settings::{Command, DEFAULT_CELLS, Settings, Telling, Words};
