//! The lines that byte 10 ends, a chunk of the input at a time. Where several workers were asked for, a crew does the
//! jobs of each chunk meanwhile.

ghost use Rattle.std.specs.Prelude.{◌≡◌, ◌<◌, ◌≤◌, ℕ, List, [], ◌++◌, false, true, length, take, OnOk, OnErr};
ghost use Rattle.std.specs.Io.KnownBytes.{Consumes, IsAtEnd};
ghost use Rattle.oth_run.specs.Halfway.{RunsOn, StopsWithin, Takes, WritesEnded};
ghost use Rattle.oth_run.specs.Line.{Holds};
ghost use Rattle.oth_run.specs.Run.{FailsBy};

use super::Engine;
use crate::ahead::jobs_of_lines;
use crate::buffer::{long_buffer, longer};
use crate::fault::RunFault;
use crate::report_sink::ReportSink;
use crate::solver::Solver;
use crate::tuning::STACK_CHUNK;
use oth_batch::Crew;
use oth_pool::Gate;
use oth_text::{Failed, Source};
use std::sync::Wait;
use std::thread::Threads;

impl Engine {
    // As `take_bytes`, while the crew, if there is one, and further workers where these pay, do the jobs that were
    // given to it, until a write fails.
    fn take_beside<T: Wait + Threads + Sync, W: ReportSink, G: Gate>(
        &mut self,
        solver: &Solver<'_, T, G>,
        crew: Option<&Crew<'_, T, G>>,
        writer: &mut W,
        bytes: &[u8],
    ) -> Result<(), Failed>
        ensures ok { OnOk result (Takes solver.now.settings self.old self.new
            (W.contents writer.old) (W.contents writer.new) bytes.now) }
        ensures err { OnErr result (StopsWithin solver.now.settings self.old
            (W.contents writer.old) (W.contents writer.new) bytes.now) }
        ensures works { OnOk result (W.failed writer.new ≡ W.failed writer.old) }
        ensures fails { OnErr result (W.failed writer.new ≡ true) }
    {
        let Some(crew) = crew else {
            return self.take_bytes(solver, solver.no_jobs(), writer, bytes);
        };
        let given = crew.jobs();
        let Some(jobs) = &*given else {
            return self.take_bytes(solver, solver.no_jobs(), writer, bytes);
        };
        let mut work = || -> Result<(), Failed>
            ensures ok { OnOk result (Takes solver.entry.now.settings self.entry.now self.exit.now
                (W.contents writer.entry.now) (W.contents writer.exit.now) bytes.entry.now) }
            ensures err { OnErr result (StopsWithin solver.entry.now.settings self.entry.now
                (W.contents writer.entry.now) (W.contents writer.exit.now) bytes.entry.now) }
            ensures works { OnOk result (W.failed writer.exit.now ≡ W.failed writer.entry.now) }
            ensures fails { OnErr result (W.failed writer.exit.now ≡ true) }
        { self.take_bytes(solver, Some(jobs), writer, bytes) };
        jobs.beside(crew.helpers(), &mut work)
    }

    // Takes further bytes of the input, and writes the reports of the lines that end in them, those of boards that take
    // long as soon as they are known. The jobs that were given to the crew are those of these lines.
    fn take_chunk<T: Wait + Threads + Sync, W: ReportSink, G: Gate>(
        &mut self,
        solver: &Solver<'_, T, G>,
        crew: Option<&Crew<'_, T, G>>,
        writer: &mut W,
        bytes: &[u8],
    ) -> Result<(), Failed>
        ensures empty { OnOk result (self.new.waiting.bytes.items ≡ []) }
        ensures ok { OnOk result (Takes solver.now.settings self.old self.new
            (W.contents writer.old) (W.contents writer.new) bytes.now) }
        ensures err { OnErr result (StopsWithin solver.now.settings self.old
            (W.contents writer.old) (W.contents writer.new) bytes.now) }
        ensures works { OnOk result (W.failed writer.new ≡ W.failed writer.old) }
        ensures fails { OnErr result (W.failed writer.new ≡ true) }
    {
        self.take_beside(solver, crew, writer, bytes)?;
        self.waiting.write_to(writer)?;
        Ok(())
    }

    // Takes the `count` bytes that were read first, reads on to the end of input, a chunk at a time, and writes the
    // reports of the lines that byte 10 ends. The jobs of the first chunk were given to the crew, if there is one, and
    // those of each further chunk are.
    fn run_on<'s, T: Wait + Threads + Sync, R: Source, W: ReportSink, G: Gate>(
        &mut self,
        solver: &'s Solver<'s, T, G>,
        crew: Option<&Crew<'s, T, G>>,
        reader: &mut R,
        writer: &mut W,
        buffer: &mut [u8],
        count: usize,
    ) -> Result<(), RunFault>
        requires room { 0 < length buffer.old }
        requires count { count ≤ length buffer.old }
        requires reader { R.failed reader.old ≡ false }
        requires writer { W.failed writer.old ≡ false }
        ensures bytes { (more : List ℕ) × Consumes (R.remaining reader.old) (R.remaining reader.new) more
            × RunsOn solver.now.settings self.old self.new.line self.new.is_faulty (W.contents writer.old)
            (W.contents writer.new) result (take count buffer.old ++ more) }
        ensures empty { OnOk result (self.new.waiting.bytes.items ≡ []) }
        ensures end { OnOk result (IsAtEnd (R.remaining reader.new)) }
        ensures devices { FailsBy result (R.failed reader.new) (W.failed writer.new) }
    {
        let mut count = count;
        for _ in solver.batch.rt.forever() {
            let Ok(()) = self.take_chunk(solver, crew, writer, &buffer[..count]) else {
                return Err(RunFault::Write);
            };
            let Ok(further) = reader.read(buffer) else {
                return Err(RunFault::Read);
            };
            if further == 0 {
                return Ok(());
            }
            give_jobs(solver, crew, &buffer[..further]);
            count = further;
        }
        Ok(())
    }

    // As `run_on`, with a crew: workers that pay for the lines of the first bytes stay to the end.
    fn run_from<T: Wait + Threads + Sync, R: Source, W: ReportSink, G: Gate>(
        &mut self,
        solver: &Solver<'_, T, G>,
        reader: &mut R,
        writer: &mut W,
        buffer: &mut [u8],
        count: usize,
    ) -> Result<(), RunFault>
        requires room { 0 < length buffer.old }
        requires count { count ≤ length buffer.old }
        requires reader { R.failed reader.old ≡ false }
        requires writer { W.failed writer.old ≡ false }
        ensures bytes { (more : List ℕ) × Consumes (R.remaining reader.old) (R.remaining reader.new) more
            × RunsOn solver.now.settings self.old self.new.line self.new.is_faulty (W.contents writer.old)
            (W.contents writer.new) result (take count buffer.old ++ more) }
        ensures empty { OnOk result (self.new.waiting.bytes.items ≡ []) }
        ensures end { OnOk result (IsAtEnd (R.remaining reader.new)) }
        ensures devices { FailsBy result (R.failed reader.new) (W.failed writer.new) }
    {
        let jobs = jobs_of_lines(&*solver, &buffer[..count]);
        let crew = Crew::of(&solver.batch, jobs);
        let mut work = || -> Result<(), RunFault>
            requires room { 0 < length buffer.now }
            requires count { count ≤ length buffer.now }
            requires reader { R.failed reader.now ≡ false }
            requires writer { W.failed writer.now ≡ false }
            ensures bytes { (more : List ℕ)
                × Consumes (R.remaining reader.entry.now) (R.remaining reader.exit.now) more
                × RunsOn solver.entry.now.settings self.entry.now self.exit.now.line self.exit.now.is_faulty
                (W.contents writer.entry.now) (W.contents writer.exit.now) result
                (take count buffer.entry.now ++ more) }
            ensures empty { OnOk result (self.exit.now.waiting.bytes.items ≡ []) }
            ensures end { OnOk result (IsAtEnd (R.remaining reader.exit.now)) }
            ensures devices { FailsBy result (R.failed reader.exit.now) (W.failed writer.exit.now) }
        { self.run_on(solver, Some(&crew), reader, writer, buffer, count) };
        crew.beside(&mut work)
    }

    /// Reads all lines that byte 10 ends, up to the end of input, and writes their reports. What is gathered is written
    /// before each read, which may wait.
    pub fn run_ended<T: Wait + Threads + Sync, R: Source, W: ReportSink, G: Gate>(
        &mut self,
        solver: &Solver<'_, T, G>,
        reader: &mut R,
        writer: &mut W,
    ) -> Result<(), RunFault>
        requires reader { R.failed reader.old ≡ false }
        requires writer { W.failed writer.old ≡ false }
        requires line { Holds solver.now.settings.command self.old.line 1 [] }
        requires waiting { self.old.waiting.bytes.items ≡ [] }
        requires faulty { self.old.is_faulty ≡ false }
        ensures bytes { (input : List ℕ) × Consumes (R.remaining reader.old) (R.remaining reader.new) input
            × WritesEnded solver.now.settings self.new.line self.new.is_faulty (W.contents writer.old)
            (W.contents writer.new) result input }
        ensures empty { OnOk result (self.new.waiting.bytes.items ≡ []) }
        ensures end { OnOk result (IsAtEnd (R.remaining reader.new)) }
        ensures devices { FailsBy result (R.failed reader.new) (W.failed writer.new) }
    {
        let mut long = long_buffer(solver.batch.alloc);
        let mut short = [0; STACK_CHUNK];
        let buffer = longer(long.as_mut_slice(), &mut short);
        let Ok(count) = reader.read(buffer) else {
            return Err(RunFault::Read);
        };
        if count == 0 {
            return Ok(());
        }
        if solver.batch.workers < 2 {
            return self.run_on(solver, solver.no_crew(), reader, writer, buffer, count);
        }
        self.run_from(solver, reader, writer, buffer, count)
    }
}

// Gives the crew, if there is one, the jobs of the lines in these bytes.
fn give_jobs<'s, T: Wait + Threads + Sync, G: Gate>(
    solver: &'s Solver<'s, T, G>,
    crew: Option<&Crew<'s, T, G>>,
    bytes: &[u8],
) {
    if let Some(crew) = crew {
        crew.give(jobs_of_lines(solver, bytes));
    }
}
