//! The engine: the line that has begun, and the bytes of the report that wait to be written. `chunks` takes it through
//! an input, a chunk at a time.

ghost use Rattle.std.specs.Prelude.{◌≡◌, ◌||◌, ℕ, List, [], false, true, OnOk, OnErr};
ghost use Rattle.oth_run.specs.Faulty.{has_faulty, is_faulty};
ghost use Rattle.oth_run.specs.Halfway.{Answers, Ends, StopsInside, StopsWithin, Takes};
ghost use Rattle.oth_run.specs.Line.{Holds};
ghost use Rattle.oth_run.specs.Reply.{reply};
ghost use Rattle.oth_run.specs.Report.{last_line, last_report, next_number, with_end};

mod chunks;

use crate::line::Line;
use crate::lines::split_line;
use crate::report_sink::ReportSink;
use crate::solver::Solver;
use crate::waiting::Waiting;
use oth_batch::Jobs;
use oth_pool::Gate;
use oth_text::Failed;
use oth_words::Command;
use std::sync::Wait;
use std::thread::Threads;

/// The line that has begun, and the bytes of the report that wait to be written.
#[derive(Drop)]
pub struct Engine {
    line: Line,
    waiting: Waiting,
    /// Whether a line that was answered has a fault.
    is_faulty: bool,
}

impl Engine {
    /// Nothing was read yet.
    pub fn new(command: Command) -> Self
        ensures line { Holds command result.line 1 [] }
        ensures waiting { result.waiting.bytes.items ≡ [] }
        ensures faulty { result.is_faulty ≡ false }
    {
        Engine {
            line: Line::new(command),
            waiting: Waiting::new(),
            is_faulty: false,
        }
    }

    /// Whether a line that was answered has a fault.
    pub fn is_faulty(&self) -> bool
        ensures { result ≡ self.now.is_faulty }
    {
        self.is_faulty
    }

    // Answers the line that has begun, and begins a new one. What is gathered is written before an answer that may take
    // time, and that answer at once.
    fn end_line<T: Wait + Threads + Sync, W: ReportSink, G: Gate>(
        &mut self,
        solver: &Solver<'_, T, G>,
        jobs: Option<&Jobs<'_, T, G>>,
        writer: &mut W,
    ) -> Result<(), Failed>
        ensures line { OnOk result ((number : ℕ) (line : List ℕ)
            → Holds solver.now.settings.command self.old.line number line
            → Holds solver.now.settings.command self.new.line (next_number number) []) }
        ensures faulty { OnOk result ((number : ℕ) (line : List ℕ)
            → Holds solver.now.settings.command self.old.line number line
            → self.new.is_faulty ≡ (self.old.is_faulty || is_faulty solver.now.settings.command line)) }
        ensures ok { OnOk result (Answers (with_end (reply solver.now.settings)) solver.now.settings self.old self.new
            (W.contents writer.old) (W.contents writer.new)) }
        ensures err { OnErr result (StopsInside (with_end (reply solver.now.settings)) solver.now.settings self.old
            (W.contents writer.old) (W.contents writer.new)) }
        ensures works { OnOk result (W.failed writer.new ≡ W.failed writer.old) }
        ensures fails { OnErr result (W.failed writer.new ≡ true) }
    {
        let reading = self.line.read();
        let (fault, takes_time) = (reading.fault(), reading.takes_time());
        self.waiting.write_if(takes_time, writer)?;
        reading.tell(solver, jobs, &mut self.waiting, writer)?;
        self.waiting.push_end(writer)?;
        let is_told = fault.is_some() && writer.tells_faults();
        self.waiting.write_if(takes_time || is_told, writer)?;
        writer.answered(self.line.number(), fault);
        self.is_faulty |= fault.is_some();
        self.line.clear();
        Ok(())
    }

    // Takes further bytes of the input, and gathers the reports of the lines that end in them.
    fn take_bytes<T: Wait + Threads + Sync, W: ReportSink, G: Gate>(
        &mut self,
        solver: &Solver<'_, T, G>,
        jobs: Option<&Jobs<'_, T, G>>,
        writer: &mut W,
        bytes: &[u8],
    ) -> Result<(), Failed>
        ensures ok { OnOk result (Takes solver.now.settings self.old self.new
            (W.contents writer.old) (W.contents writer.new) bytes.now) }
        ensures err { OnErr result (StopsWithin solver.now.settings self.old
            (W.contents writer.old) (W.contents writer.new) bytes.now) }
        ensures works { OnOk result (W.failed writer.new ≡ W.failed writer.old) }
        ensures fails { OnErr result (W.failed writer.new ≡ true) }
    {
        let mut rest = bytes;
        while let Some((line, others)) = split_line(rest) {
            self.line.push(line);
            self.end_line(solver, jobs, writer)?;
            rest = others;
        }
        self.line.push(rest);
        Ok(())
    }

    // Answers the last line, unless it is empty.
    fn end_last<T: Wait + Threads + Sync, W: ReportSink, G: Gate>(
        &mut self,
        solver: &Solver<'_, T, G>,
        writer: &mut W,
    ) -> Result<(), Failed>
        ensures ok { OnOk result (Answers (last_report (reply solver.now.settings)) solver.now.settings
            self.old self.new (W.contents writer.old) (W.contents writer.new)) }
        ensures faulty { OnOk result ((number : ℕ) (line : List ℕ)
            → Holds solver.now.settings.command self.old.line number line
            → self.new.is_faulty ≡ (self.old.is_faulty || has_faulty solver.now.settings.command (last_line line))) }
        ensures err { OnErr result (StopsInside (last_report (reply solver.now.settings)) solver.now.settings self.old
            (W.contents writer.old) (W.contents writer.new)) }
        ensures works { OnOk result (W.failed writer.new ≡ W.failed writer.old) }
        ensures fails { OnErr result (W.failed writer.new ≡ true) }
    {
        if self.line.is_empty() {
            return Ok(());
        }
        self.end_line(solver, solver.no_jobs(), writer)
    }

    /// Answers the last line, unless it is empty, writes what is left of the report, and flushes.
    pub fn finish<T: Wait + Threads + Sync, W: ReportSink, G: Gate>(
        &mut self,
        solver: &Solver<'_, T, G>,
        writer: &mut W,
    ) -> Result<(), Failed>
        ensures ok { OnOk result (Ends (last_report (reply solver.now.settings)) solver.now.settings self.old
            (W.contents writer.old) (W.contents writer.new)) }
        ensures faulty { OnOk result ((number : ℕ) (line : List ℕ)
            → Holds solver.now.settings.command self.old.line number line
            → self.new.is_faulty ≡ (self.old.is_faulty || has_faulty solver.now.settings.command (last_line line))) }
        ensures flushed { OnOk result (W.flushed writer.new ≡ true) }
        ensures err { OnErr result (StopsInside (last_report (reply solver.now.settings)) solver.now.settings self.old
            (W.contents writer.old) (W.contents writer.new)) }
        ensures works { OnOk result (W.failed writer.new ≡ W.failed writer.old) }
        ensures fails { OnErr result (W.failed writer.new ≡ true) }
    {
        self.end_last(solver, writer)?;
        self.waiting.write_to(writer)?;
        writer.flush()
    }
}
