//! The lines that byte 10 ends, a chunk of the input at a time. Where several workers were asked for, a crew does the
//! jobs of each chunk meanwhile.

ghost use Rattle.std.specs.Prelude.{◌≡◌, ◌≤◌, ◌<◌, ◌++◌, [], OnErr, OnOk, IfErr, length, take};
ghost use Rattle.std.specs.Io.KnownBytes.{IsAtEnd};
ghost use Rattle.oth_text.specs.BoardLine.{KeepsLine};
ghost use Rattle.oth_book.specs.Book.{IsTrueBook};
ghost use Rattle.oth_main.specs.Addition.{AddsBytes, IsAdding, IsFullWithin, IsRefusedLine, OfInput, StopsFull};
ghost use Rattle.oth_main.specs.Addition.{StopsReading};

use super::{Addition, Stop};
use crate::terminal::Progress;
use oth_batch::Crew;
use oth_run::{RunFault, STACK_CHUNK, Solver, jobs_of_new_boards, long_buffer, longer};
use oth_text::{Sink, Source};
use std::sync::Wait;
use std::thread::Threads;

impl Addition {
    // As `take_bytes`, while the crew, if there is one, and further workers where these pay, do the jobs that were
    // given to it.
    fn take_beside<T: Wait + Threads + Sync, E: Sink>(
        &mut self,
        solver: &Solver<'_, T, Progress>,
        crew: Option<&Crew<'_, T, Progress>>,
        bytes: &[u8],
        errors: &mut E,
    ) -> Result<(), Stop>
        ensures ok { OnOk result (AddsBytes self.old.book self.old.line self.new.book self.new.line bytes.now) }
        ensures full { OnErr result (IsFullWithin self.old.book self.old.line bytes.now) }
        ensures refused { IfErr result IsRefusedLine }
    {
        let Some(crew) = crew else {
            return self.take_bytes(solver, solver.no_jobs(), bytes, errors);
        };
        let given = crew.jobs();
        let Some(jobs) = &*given else {
            return self.take_bytes(solver, solver.no_jobs(), bytes, errors);
        };
        let mut work = || -> Result<(), Stop>
            ensures ok { OnOk result (AddsBytes self.entry.now.book self.entry.now.line
                self.exit.now.book self.exit.now.line bytes.entry.now) }
            ensures full { OnErr result (IsFullWithin self.entry.now.book self.entry.now.line bytes.entry.now) }
            ensures refused { IfErr result IsRefusedLine }
        { self.take_bytes(solver, Some(jobs), bytes, errors) };
        jobs.beside(crew.helpers(), &mut work)
    }

    // Reads on to the end of input, a chunk at a time, and adds the lines that byte 10 ends. Each chunk's jobs are
    // given to the crew, if there is one.
    fn read_on<'s, T: Wait + Threads + Sync, R: Source, E: Sink>(
        &mut self,
        solver: &'s Solver<'s, T, Progress>,
        crew: Option<&Crew<'s, T, Progress>>,
        reader: &mut R,
        errors: &mut E,
        buffer: &mut [u8],
    ) -> Result<(), Stop>
        requires room { 0 < length buffer.old }
        ensures ok { OnOk result (OfInput (R.remaining reader.old) (R.remaining reader.new)
            (AddsBytes self.old.book self.old.line self.new.book self.new.line)) }
        ensures at_end { OnOk result (IsAtEnd (R.remaining reader.new)) }
        ensures works { OnOk result (R.failed reader.new ≡ R.failed reader.old) }
        ensures err { IfErr result (λ stop. StopsReading stop (R.failed reader.new)
            (OfInput (R.remaining reader.old) (R.remaining reader.new)
            (IsFullWithin self.old.book self.old.line))) }
    {
        for _ in solver.batch.rt.forever() {
            let Ok(count) = reader.read(buffer) else {
                return Err(Stop::Run(RunFault::Read));
            };
            if count == 0 {
                break;
            }
            let bytes = &buffer[..count];
            if let Some(crew) = crew {
                crew.give(jobs_of_new_boards(&solver.batch, bytes, &self.book));
            }
            self.take_beside(solver, crew, bytes, errors)?;
        }
        Ok(())
    }

    // Takes the `count` bytes that were read first, and reads on to the end of input, with a crew: workers that pay for
    // the lines of the first bytes stay to the end.
    fn read_from<T: Wait + Threads + Sync, R: Source, E: Sink>(
        &mut self,
        solver: &Solver<'_, T, Progress>,
        reader: &mut R,
        errors: &mut E,
        buffer: &mut [u8],
        count: usize,
    ) -> Result<(), Stop>
        requires room { 0 < length buffer.old }
        requires count { count ≤ length buffer.old }
        ensures ok { OnOk result (OfInput (R.remaining reader.old) (R.remaining reader.new) (λ more.
            AddsBytes self.old.book self.old.line self.new.book self.new.line (take count buffer.old ++ more))) }
        ensures at_end { OnOk result (IsAtEnd (R.remaining reader.new)) }
        ensures works { OnOk result (R.failed reader.new ≡ R.failed reader.old) }
        ensures err { IfErr result (λ stop. StopsReading stop (R.failed reader.new)
            (OfInput (R.remaining reader.old) (R.remaining reader.new) (λ more.
            IsFullWithin self.old.book self.old.line (take count buffer.old ++ more)))) }
    {
        let jobs = jobs_of_new_boards(&solver.batch, &buffer[..count], &self.book);
        let crew = Crew::of(&solver.batch, jobs);
        let mut work = || -> Result<(), Stop>
            requires room { 0 < length buffer.now }
            requires count { count ≤ length buffer.now }
            ensures ok { OnOk result (OfInput (R.remaining reader.entry.now) (R.remaining reader.exit.now) (λ more.
                AddsBytes self.entry.now.book self.entry.now.line self.exit.now.book self.exit.now.line
                (take count buffer.entry.now ++ more))) }
            ensures at_end { OnOk result (IsAtEnd (R.remaining reader.exit.now)) }
            ensures works { OnOk result (R.failed reader.exit.now ≡ R.failed reader.entry.now) }
            ensures err { IfErr result (λ stop. StopsReading stop (R.failed reader.exit.now)
                (OfInput (R.remaining reader.entry.now) (R.remaining reader.exit.now) (λ more.
                IsFullWithin self.entry.now.book self.entry.now.line (take count buffer.entry.now ++ more)))) }
        {
            self.take_beside(solver, Some(&crew), &buffer[..count], errors)?;
            self.read_on(solver, Some(&crew), reader, errors, buffer)
        };
        crew.beside(&mut work)
    }

    // Adds the lines that byte 10 ends, up to the end of input.
    pub(super) fn read_lines<T: Wait + Threads + Sync, R: Source, E: Sink>(
        &mut self,
        solver: &Solver<'_, T, Progress>,
        reader: &mut R,
        errors: &mut E,
    ) -> Result<(), Stop>
        requires line { KeepsLine self.old.line [] }
        requires holds { IsTrueBook self.old.book }
        ensures ok { OnOk result (OfInput (R.remaining reader.old) (R.remaining reader.new)
            (IsAdding self.old.book self.new.book self.new.line)) }
        ensures at_end { OnOk result (IsAtEnd (R.remaining reader.new)) }
        ensures works { OnOk result (R.failed reader.new ≡ R.failed reader.old) }
        ensures err { IfErr result (λ stop. StopsReading stop (R.failed reader.new)
            (StopsFull self.old.book (R.remaining reader.old) (R.remaining reader.new))) }
    {
        let mut long = long_buffer(solver.batch.alloc);
        let mut short = [0; STACK_CHUNK];
        let buffer = longer(long.as_mut_slice(), &mut short);
        if solver.batch.workers < 2 {
            return self.read_on(solver, solver.no_crew(), reader, errors, buffer);
        }
        let Ok(count) = reader.read(buffer) else {
            return Err(Stop::Run(RunFault::Read));
        };
        if count == 0 {
            return Ok(());
        }
        self.read_from(solver, reader, errors, buffer, count)
    }
}
