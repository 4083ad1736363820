//! The commands of the book, the reasons in words, and what a terminal shows. The expected lines are those that the
//! rules and the formats give.

mod books;
mod explaining;
mod joined;
mod reasons;
mod refused;
mod showing;

use oth_main::{Command, Progress, Settings};
use oth_rules::Scoring;

const NO_FAILURE: usize = usize::MAX;

fn settings(command: Command, scoring: Scoring) -> Settings {
    Settings {
        command,
        workers: 1,
        cells: 0,
        scoring,
    }
}

fn by_two_workers(scoring: Scoring) -> Settings {
    Settings {
        workers: 2,
        cells: 1,
        ..settings(Command::Solve, scoring)
    }
}

// What hears of a run that nobody watches.
fn unseen() -> Progress {
    Progress::new(false)
}
