//! Boards that are added to a book.

ghost use Rattle.std.specs.Prelude.{◌≡◌, ◌≤◌, ◌∷◌, [], ℕ, List, false, true, IfErr, IfOk};
ghost use Rattle.std.specs.Prelude.{OnErr, OnOk};
ghost use Rattle.std.specs.Io.KnownBytes.{Appends};
ghost use Rattle.oth_rules.specs.Position.{empty_count};
ghost use Rattle.oth_rules.specs.Symmetry.{canonical};
ghost use Rattle.oth_text.specs.BoardLine.{KeepsLine, solvable_reading};
ghost use Rattle.oth_book.specs.Add.{HasNoRoom, IsAbsent, Keeps};
ghost use Rattle.oth_book.specs.Book.{HasExact, IsTrueBook};
ghost use Rattle.oth_book.specs.Contents.{Contents, IsText, written};
ghost use Rattle.oth_book.specs.declared.add.AddError.{AddError as AnyRefusal};
ghost use Rattle.oth_main.specs.Addition.{AddsBytes, AddsLines, AnswersLine, FindsNoRoom, HasAdded, HasNoPlace};
ghost use Rattle.oth_main.specs.Addition.{IsAdding, IsAnswered, IsFullWithin, IsRefusedLine, StopsBy};
ghost use Rattle.oth_main.specs.Addition.{StopsFull};
ghost use Rattle.oth_main.specs.declared.book.addition.Stop.TheVariants.{Run};
ghost use Rattle.oth_run.specs.Report.{lines_of};
ghost use Rattle.oth_run.specs.declared.fault.RunFault.TheVariants.{Write};

mod chunks;

use super::message::Message;
use crate::terminal::Progress;
use oth_batch::{Batch, Jobs};
use oth_book::{AddError, Book, write};
use oth_run::{Lawful, RunFault, Solver, split_line};
use oth_search::Answer;
use oth_text::{BoardReader, LineFault, Sink, Source, fault_line};
use std::sync::Wait;
use std::thread::Threads;

/// Why an addition ends without a book.
#[derive(Drop)]
pub enum Stop {
    /// A device failed.
    Run(RunFault),
    /// The answer of this line isn't taken.
    Refused(u64, AddError),
}

/// The book so far, and the line that has begun with its number from 1.
#[derive(Drop)]
pub struct Addition {
    book: Book,
    line: BoardReader,
    number: u64,
}

impl Addition {
    /// Nothing is added to the book so far.
    pub fn of(book: Book) -> Addition
        ensures book { result.book ≡ book }
        ensures line { KeepsLine result.line [] }
    {
        Addition {
            book,
            line: BoardReader::new(),
            number: 1,
        }
    }

    // What the boards of lines are solved with, under the book's scoring: as by `solver`, but of each the book is asked
    // first.
    fn solver<'s, T: Threads + Sync>(
        &'s self,
        solver: &'s Solver<'_, T, Progress>,
    ) -> Solver<'s, T, Progress>
        ensures scoring { result.settings.scoring ≡ self.now.book.scoring }
    {
        let Batch {
            rt,
            alloc,
            gate,
            ..
        } = solver.batch;
        let settings = solver.settings.to_solve_by(self.book.scoring());
        Solver::of(rt, alloc, gate, Some(&self.book), settings)
    }

    /// Adds all lines, solved as by `solver`, and writes the book.
    pub fn run<T: Wait + Threads + Sync, R: Source, W: Sink, E: Sink>(
        &mut self,
        solver: &Solver<'_, T, Progress>,
        reader: &mut R,
        writer: &mut W,
        errors: &mut E,
    ) -> Result<(), Stop>
        requires line { KeepsLine self.old.line [] }
        requires holds { IsTrueBook self.old.book }
        ensures ok { OnOk result (AddsLines self.old.book (R.remaining reader.old) (R.remaining reader.new)
            (W.contents writer.old) (W.contents writer.new)) }
        ensures works { OnOk result ((R.failed reader.new ≡ R.failed reader.old)
            × (W.failed writer.new ≡ false) × (W.flushed writer.new ≡ true)) }
        ensures err { IfErr result (λ stop. StopsBy stop (R.failed reader.new) (W.failed writer.new)
            (writer.new ≡ writer.old)
            (StopsFull self.old.book (R.remaining reader.old) (R.remaining reader.new))) }
    {
        solver.batch.gate.begin_lines(true);
        self.read_lines(solver, reader, errors)?;
        self.end_last(solver, errors)?;
        self.write_to(writer)
    }

    // Takes further bytes of the input. The jobs are those of boards of their lines.
    fn take_bytes<T: Wait + Threads + Sync, E: Sink>(
        &mut self,
        solver: &Solver<'_, T, Progress>,
        jobs: Option<&Jobs<'_, T, Progress>>,
        bytes: &[u8],
        errors: &mut E,
    ) -> Result<(), Stop>
        ensures ok { OnOk result (AddsBytes self.old.book self.old.line self.new.book self.new.line bytes.now) }
        ensures full { OnErr result (IsFullWithin self.old.book self.old.line bytes.now) }
        ensures refused { IfErr result IsRefusedLine }
    {
        let mut rest = bytes;
        while let Some((line, others)) = split_line(rest) {
            self.line.push(line);
            self.end_line(solver, jobs, errors)?;
            rest = others;
        }
        self.line.push(rest);
        Ok(())
    }

    // Adds the last line, unless it is empty.
    fn end_last<T: Wait + Threads + Sync, E: Sink>(
        &mut self,
        solver: &Solver<'_, T, Progress>,
        errors: &mut E,
    ) -> Result<(), Stop>
        ensures ok { OnOk result ((before : Contents) (input : List ℕ)
            → IsAdding before self.old.book self.old.line input
            → HasAdded before self.new.book input) }
        ensures full { OnErr result ((before : Contents) (input : List ℕ)
            → IsAdding before self.old.book self.old.line input
            → FindsNoRoom before (lines_of input)) }
        ensures refused { IfErr result IsRefusedLine }
    {
        if self.line.is_empty() {
            return Ok(());
        }
        self.end_line(solver, solver.no_jobs(), errors)
    }

    // Ends the line that has begun, and begins a new one.
    fn end_line<T: Wait + Threads + Sync, E: Sink>(
        &mut self,
        solver: &Solver<'_, T, Progress>,
        jobs: Option<&Jobs<'_, T, Progress>>,
        errors: &mut E,
    ) -> Result<(), Stop>
        ensures ok { OnOk result (AddsBytes self.old.book self.old.line self.new.book self.new.line (10 ∷ [])) }
        ensures full { OnErr result (IsFullWithin self.old.book self.old.line (10 ∷ [])) }
        ensures refused { IfErr result IsRefusedLine }
    {
        self.add_line(solver, jobs, errors)?;
        self.line.clear();
        self.number = self.number.saturating_add(1);
        solver.batch.gate.count_line();
        Ok(())
    }

    // Adds the answer of the line that has begun, or prints its fault.
    fn add_line<T: Wait + Threads + Sync, E: Sink>(
        &mut self,
        solver: &Solver<'_, T, Progress>,
        jobs: Option<&Jobs<'_, T, Progress>>,
        errors: &mut E,
    ) -> Result<(), Stop>
        ensures line { self.new.line ≡ self.old.line }
        ensures kept { Keeps self.old.book self.new.book }
        ensures holds { IsTrueBook self.old.book → IsTrueBook self.new.book }
        ensures answered { OnOk result ((line : List ℕ) → KeepsLine self.old.line line
            → IsAnswered self.new.book line) }
        ensures full { OnErr result ((line : List ℕ) → KeepsLine self.old.line line → HasNoPlace self.old.book line) }
        ensures refused { IfErr result IsRefusedLine }
    {
        match self.answer(solver, jobs) {
            Ok(answer) => self.add(&answer),
            Err(fault) => {
                Message::of(b"line ")
                    .number(self.number)
                    .text(b": ")
                    .text(fault_line(&fault).as_slice())
                    .print(errors);
                Ok(())
            }
        }
    }

    // The answer of the line that has begun, under the book's scoring.
    fn answer<T: Wait + Threads + Sync>(
        &self,
        solver: &Solver<'_, T, Progress>,
        jobs: Option<&Jobs<'_, T, Progress>>,
    ) -> Result<Answer, LineFault>
        ensures answers { (line : List ℕ) → KeepsLine self.now.line line → AnswersLine (solvable_reading line) result }
        ensures scoring { IfOk result (λ a. a.scoring ≡ self.now.book.scoring) }
        ensures few { IfOk result (λ a. empty_count a.board ≤ 30) }
    {
        let position = self.line.read()?;
        let board = &position.board;
        let found = self.solver(solver).find_answer(jobs, board);
        match found {
            Ok(answer) => Ok(answer),
            Err(many) => Err(LineFault::Empties(many.empties)),
        }
    }

    // Adds the answer of the line to the book.
    fn add(&mut self, answer: &Answer) -> Result<(), Stop>
        requires scoring { answer.now.scoring ≡ self.old.book.scoring }
        requires few { empty_count answer.now.board ≤ 30 }
        ensures line { self.new.line ≡ self.old.line }
        ensures kept { Keeps self.old.book self.new.book }
        ensures holds { IsTrueBook self.new.book }
        ensures there { OnOk result (HasExact self.new.book.entries (canonical answer.now.board)) }
        ensures full { OnErr result (IsAbsent self.old.book answer.now.board
            × ((why : AnyRefusal) × HasNoRoom self.old.book.entries why)) }
        ensures refused { IfErr result IsRefusedLine }
    {
        match self.book.add(answer) {
            Ok(_) => Ok(()),
            Err(error) => Err(Stop::Refused(self.number, error)),
        }
    }

    // Writes the book. A writer that failed before is not called.
    fn write_to<W: Sink>(&self, writer: &mut W) -> Result<(), Stop>
        ensures text { OnOk result (IsText self.now.book (written self.now.book)) }
        ensures ok { OnOk result (Appends (W.contents writer.old) (W.contents writer.new) (written self.now.book)) }
        ensures works { OnOk result ((W.failed writer.new ≡ false) × (W.flushed writer.new ≡ true)) }
        ensures err { IfErr result (λ stop. stop ≡ Run Write) }
        ensures fails { OnErr result (W.failed writer.new ≡ true) }
    {
        if writer.failed() {
            return Err(Stop::Run(RunFault::Write));
        }
        if write(&self.book, writer).is_err() || writer.flush().is_err() {
            return Err(Stop::Run(RunFault::Write));
        }
        Ok(())
    }
}
