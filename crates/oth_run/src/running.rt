//! A run over an input.

ghost use Rattle.std.specs.Prelude.{◌≡◌, ℕ, List, [], false, true, OnOk};
ghost use Rattle.std.specs.Io.KnownBytes.{Appends, Consumes, IsAtEnd};
ghost use Rattle.oth_run.specs.Reply.{reply};
ghost use Rattle.oth_run.specs.Run.{FailsBy, Judges, OnRefusal, RefusesBy, Writes, ending};

use crate::checking::Lawful;
use crate::engine::Engine;
use crate::fault::RunFault;
use crate::report_sink::ReportSink;
use crate::solver::Solver;
use oth_book::Book;
use oth_pool::Gate;
use oth_text::Source;
use oth_words::Settings;
use std::alloc::Global;
use std::sync::Wait;
use std::thread::Threads;

/// Reads lines from the reader until its end, and writes the report of them: for each line by itself its reply and byte
/// 10. Byte 10 ends a line, and a last line without it counts if it isn't empty.
///
/// The numbers of workers and of cells are tested first, in this order, and where one is refused nothing is read or
/// written. At `Ok` the writer was flushed behind the last byte. The reader's fault leaves the report of the lines that
/// byte 10 had ended; the writer's fault, in a write or the flush at the end, leaves a beginning of the report. After a
/// fault no device is called again. The run returns only if the input ends or a device fails.
///
/// A board is solved by `settings.workers` workers over a table of at most `settings.cells` cells, and a book that is
/// given is asked first. Boards of lines that wait together may be solved side by side, each by one worker over such a
/// table. A reply that takes time is written as soon as it and those before it are known. None of this changes the
/// report, nor does the gate, nor refused memory or threads. A line takes no memory, however long it is. The writer
/// hears of each line that is answered.
pub fn run<T: Wait + Threads + Sync, R: Source, W: ReportSink, G: Gate>(
    rt: &T,
    alloc: Global,
    reader: &mut R,
    writer: &mut W,
    settings: &Settings,
    gate: &G,
    book: Option<&Book>,
) -> Result<(), RunFault>
    requires reader { R.failed reader.old ≡ false }
    requires writer { W.failed writer.old ≡ false }
    ensures bytes { (input written : List ℕ) × Consumes (R.remaining reader.old) (R.remaining reader.new) input
        × Appends (W.contents writer.old) (W.contents writer.new) written
        × Writes (reply settings.now) result input written }
    ensures end { OnOk result (IsAtEnd (R.remaining reader.new)) }
    ensures flushed { OnOk result (W.flushed writer.new ≡ true) }
    ensures devices { FailsBy result (R.failed reader.new) (W.failed writer.new) }
    ensures refused { RefusesBy settings.now.workers settings.now.cells result }
    ensures untouched { OnRefusal result ((reader.new ≡ reader.old) × (writer.new ≡ writer.old)) }
{
    match run_judged(rt, alloc, reader, writer, settings, gate, book) {
        Ok(_) => Ok(()),
        Err(fault) => Err(fault),
    }
}

/// As `run`, and tells at `Ok` whether a line has a fault, with which it is answered.
pub fn run_judged<T: Wait + Threads + Sync, R: Source, W: ReportSink, G: Gate>(
    rt: &T,
    alloc: Global,
    reader: &mut R,
    writer: &mut W,
    settings: &Settings,
    gate: &G,
    book: Option<&Book>,
) -> Result<bool, RunFault>
    requires reader { R.failed reader.old ≡ false }
    requires writer { W.failed writer.old ≡ false }
    ensures bytes { (input written : List ℕ) × Consumes (R.remaining reader.old) (R.remaining reader.new) input
        × Appends (W.contents writer.old) (W.contents writer.new) written
        × Writes (reply settings.now) (ending result) input written × Judges settings.now.command result input }
    ensures end { OnOk result (IsAtEnd (R.remaining reader.new)) }
    ensures flushed { OnOk result (W.flushed writer.new ≡ true) }
    ensures devices { FailsBy (ending result) (R.failed reader.new) (W.failed writer.new) }
    ensures refused { RefusesBy settings.now.workers settings.now.cells (ending result) }
    ensures untouched { OnRefusal (ending result) ((reader.new ≡ reader.old) × (writer.new ≡ writer.old)) }
{
    let lawful = Lawful::of(settings)?;
    let solver = Solver::of(rt, alloc, gate, book, lawful);
    let mut engine = Engine::new(settings.command);
    engine.run_ended(&solver, reader, writer)?;
    match engine.finish(&solver, writer) {
        Ok(()) => Ok(engine.is_faulty()),
        Err(_) => Err(RunFault::Write),
    }
}
