//! The tests of the settings.

ghost use Rattle.std.specs.Prelude.{◌≡◌, ◌↔◌, IsOk, IfOk};
ghost use Rattle.oth_words.specs.declared.settings.Command.TheVariants.{Solve};
ghost use Rattle.oth_run.specs.Run.{AreLawful, RefusesBy};

use crate::fault::RunFault;
use oth_pieces::is_crew;
use oth_rules::Scoring;
use oth_table::is_size;
use oth_words::{Command, Settings};
use std::marker::Model;

/// Settings that were tested: the numbers of workers and of cells are lawful. Contracts see the settings.
#[derive(Drop)]
pub struct Lawful {
    asked: Settings,
}

impl Model for Lawful {
    ghost use Rattle.oth_words.specs.declared.settings.Settings.{Settings as AnySettings};
    ghost use Rattle.oth_run.specs.Run.{AreLawful};

    ghost Value = { AnySettings };

    ghost view = { λ l. l.asked };

    ghost invariant = { λ l. AreLawful l.asked };
}

impl Lawful {
    /// Tests the settings, and returns them as lawful ones, or the fault with which `run` refuses them.
    pub fn of(settings: &Settings) -> Result<Lawful, RunFault>
        ensures same { IfOk result (λ tested. tested ≡ settings.now) }
        ensures lawful { IsOk result ↔ AreLawful settings.now }
        ensures refused { RefusesBy settings.now.workers settings.now.cells result }
    {
        if !is_crew(settings.workers) {
            return Err(RunFault::Workers);
        }
        if settings.cells != 0 && !is_size(settings.cells) {
            return Err(RunFault::Cells);
        }
        Ok(Lawful { asked: *settings })
    }

    /// The settings.
    pub fn get(&self) -> Settings
        ensures same { result ≡ self.now }
        ensures lawful { AreLawful result }
    {
        self.asked
    }

    /// Settings with these numbers of workers and cells, to solve lines under `scoring`.
    pub fn to_solve_by(&self, scoring: Scoring) -> Lawful
        ensures command { result.command ≡ Solve }
        ensures workers { result.workers ≡ self.now.workers }
        ensures cells { result.cells ≡ self.now.cells }
        ensures scoring { result.scoring ≡ scoring }
    {
        Lawful {
            asked: Settings {
                command: Command::Solve,
                scoring,
                ..self.asked
            },
        }
    }
}

/// Tests whether the numbers of workers and of cells are lawful, and returns the fault with which `run` refuses them
/// where they aren't.
pub fn check_settings(settings: &Settings) -> Result<(), RunFault>
    ensures lawful { IsOk result ↔ AreLawful settings.now }
    ensures refused { RefusesBy settings.now.workers settings.now.cells result }
{
    Lawful::of(settings)?;
    Ok(())
}
