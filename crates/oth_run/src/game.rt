//! A game that is analysed.

ghost use Rattle.std.specs.Prelude.{◌≡◌, ◌≤◌, ℕ, List, All, length, IfOk, OnOk, OnErr, true};
ghost use Rattle.std.specs.List.{flat_map};
ghost use Rattle.oth_text.specs.Analysis.{HasFewEmpties, KeepsAnalysed, analysis_of, fault_of, fault_part, lost_by};
ghost use Rattle.oth_text.specs.Analysis.{turn_part};
ghost use Rattle.oth_text.specs.declared.position.Side.TheVariants.{Black, White};
ghost use Rattle.oth_run.specs.Gathered.{Gathers, StopsInText};

use crate::solver::Solver;
use crate::waiting::Waiting;
use oth_batch::Jobs;
use oth_book::Book;
use oth_pool::Gate;
use oth_text::{
    AnalysisReader, Failed, Fault, Losses, Sink, Turn, game_line, lost_line, turn_line,
};
use std::sync::Wait;
use std::thread::Threads;

// Turns of a game, and what is known of their boards.
#[derive(Clone, Copy)]
struct KnownTurns<'t> {
    turns: &'t [Turn],
    book: &'t Book,
}

/// The line of a game that is analysed, and has ended.
#[derive(Drop)]
pub struct Game<'l> {
    /// The number of the line.
    pub number: u64,
    /// What was read of it.
    pub reader: &'l AnalysisReader,
    /// It is analysed from this number of empty squares on.
    pub last: u8,
    /// Its fault, if it has one.
    pub fault: Option<Fault>,
}

impl<'l> Game<'l> {
    /// Adds the analysis of the game to what waits, without its last byte 10. That of a game that is one of the jobs is
    /// awaited. Never inlined, so that its turns are not on the stack while lines of other commands are answered.
    #[inline(never)]
    pub fn tell<T: Wait + Threads + Sync, W: Sink, G: Gate>(
        &self,
        solver: &Solver<'_, T, G>,
        jobs: Option<&Jobs<'_, T, G>>,
        waiting: &mut Waiting,
        writer: &mut W,
    ) -> Result<(), Failed>
        ensures ok { OnOk result ((line : List ℕ) → KeepsAnalysed self.now.reader.now line
            → self.now.fault ≡ fault_of line
            → Gathers (W.contents writer.old) (W.contents writer.new) waiting.old.bytes.items waiting.new.bytes.items
            (analysis_of self.now.number solver.now.settings.scoring self.now.last line)) }
        ensures err { OnErr result ((line : List ℕ) → KeepsAnalysed self.now.reader.now line
            → self.now.fault ≡ fault_of line
            → StopsInText (W.contents writer.old) (W.contents writer.new) waiting.old.bytes.items
            (analysis_of self.now.number solver.now.settings.scoring self.now.last line)) }
        ensures works { OnOk result (W.failed writer.new ≡ W.failed writer.old) }
        ensures fails { OnErr result (W.failed writer.new ≡ true) }
    {
        let turns = self.reader.turns(self.last);
        let turns = turns.as_slice();
        let book = solver.known_of(jobs, turns);
        let known = KnownTurns { turns, book: &book };
        let lost = self.tell_turns(known, solver, waiting, writer)?;
        self.tell_fault(waiting, writer)?;
        waiting.push_text(writer, lost_line(self.number, &lost).as_slice())
    }

    // Adds the lines of the turns, and gives what both sides lost by them.
    fn tell_turns<T: Threads + Sync, W: Sink, G: Gate>(
        &self,
        known: KnownTurns<'_>,
        solver: &Solver<'_, T, G>,
        waiting: &mut Waiting,
        writer: &mut W,
    ) -> Result<Losses, Failed>
        requires few { All HasFewEmpties known.turns.now }
        requires count { length known.turns.now ≤ 64 }
        ensures ok { OnOk result (Gathers (W.contents writer.old) (W.contents writer.new)
            waiting.old.bytes.items waiting.new.bytes.items
            (flat_map (turn_part self.now.number solver.now.settings.scoring) known.entry.turns.now)) }
        ensures lost { IfOk result (λ lost.
            (lost.black ≡ lost_by Black solver.now.settings.scoring known.entry.turns.now)
            × (lost.white ≡ lost_by White solver.now.settings.scoring known.entry.turns.now)) }
        ensures err { OnErr result (StopsInText (W.contents writer.old) (W.contents writer.new)
            waiting.old.bytes.items
            (flat_map (turn_part self.now.number solver.now.settings.scoring) known.entry.turns.now)) }
        ensures works { OnOk result (W.failed writer.new ≡ W.failed writer.old) }
        ensures fails { OnErr result (W.failed writer.new ≡ true) }
    {
        let KnownTurns { turns, book } = known;
        let mut lost = Losses { black: 0, white: 0 };
        for turn in turns {
            let judged = solver.judged(turn, book);
            lost.add(&judged);
            waiting.push_line(writer, turn_line(self.number, &judged).as_slice())?;
        }
        Ok(lost)
    }

    // Adds the line of the game's fault, if it has one.
    fn tell_fault<W: Sink>(&self, waiting: &mut Waiting, writer: &mut W) -> Result<(), Failed>
        ensures ok { OnOk result (Gathers (W.contents writer.old) (W.contents writer.new)
            waiting.old.bytes.items waiting.new.bytes.items (fault_part self.now.number self.now.fault)) }
        ensures err { OnErr result (StopsInText (W.contents writer.old) (W.contents writer.new)
            waiting.old.bytes.items (fault_part self.now.number self.now.fault)) }
        ensures works { OnOk result (W.failed writer.new ≡ W.failed writer.old) }
        ensures fails { OnErr result (W.failed writer.new ≡ true) }
    {
        match &self.fault {
            Some(fault) => waiting.push_line(writer, game_line(self.number, fault).as_slice()),
            None => Ok(()),
        }
    }
}
