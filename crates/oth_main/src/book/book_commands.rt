//! The commands of the book.

ghost use Rattle.std.specs.Prelude.{◌≡◌, ◌↔◌, ◌≤◌, ◌⊎◌, ◌++◌, ◌∷◌, [], false, true, IsFalse, IsTrue, Some, length};
ghost use Rattle.std.specs.Io.KnownBytes.{Appends};
ghost use Rattle.oth_text.specs.BoardLine.{KeepsLine};
ghost use Rattle.oth_book.specs.Book.{IsTrueBook};
ghost use Rattle.oth_main.specs.Addition.{AddsLines, AddsTo, DeviceFails, IsFullFor, IsStatus, StopsFull};
ghost use Rattle.oth_main.specs.BookFile.{IsRefused, IsVerdict, KeepsRefusal, TellsBook};
ghost use Rattle.oth_main.specs.Messages.{book_ok, run_error};
ghost use Rattle.oth_main.specs.declared.book.reasons.Reason.TheVariants.{Run as RunReason};
ghost use Rattle.oth_run.specs.Run.{AreLawful, status_of};

use super::addition::{Addition, Stop};
use super::book_file::{REFUSED, open_book, print_refusal};
use super::message::Message;
use super::reasons::{Errors, Reason};
use crate::terminal::Progress;
use oth_book::Book;
use oth_run::{Lawful, RunFault, Solver};
use oth_text::{Sink, Source};
use oth_words::{DEFAULT_CELLS, Settings};
use std::alloc::Global;
use std::sync::Wait;
use std::thread::{Threads, available_parallelism};

/// Status 0: all was done.
pub const STATUS_DONE: u8 = 0;

// The workers where nobody asks for a number and the number of processors isn't known.
const WORKERS: u8 = 4;

/// Prints `book ok n` for a book of n entries, each solved anew by as many workers as there are processors, at most 16;
/// or why the file is no book. Returns the status of the program: 0, or 1 where the writer fails, or 3 where the file
/// is refused. `progress` hears of each entry.
pub fn book_verify<T: Wait + Threads + Sync, W: Sink, E: Sink>(
    rt: &T,
    alloc: Global,
    file: &[u8],
    writer: &mut W,
    errors: &mut Errors<E>,
    progress: &Progress,
) -> u8
    ensures verdict { IsVerdict file.now result (W.failed writer.new) }
    ensures told { result ≡ 0 → TellsBook file.now (W.contents writer.old) (W.contents writer.new) }
    ensures reason { result ≡ 3 → KeepsRefusal file.now errors.new.reason }
    ensures untouched { result ≡ 3 → writer.new ≡ writer.old }
    ensures works { result ≡ 0 → (W.failed writer.new ≡ false) × (W.flushed writer.new ≡ true) }
{
    match open_book(rt, alloc, file, processors(rt), DEFAULT_CELLS, progress) {
        Ok(book) => {
            if !writer.failed() && tell_book(&book, writer) && writer.flush().is_ok() {
                STATUS_DONE
            } else {
                print_run_fault(RunFault::Write, errors)
            }
        }
        Err(refusal) => {
            print_refusal(&refusal, errors);
            REFUSED
        }
    }
}

// Writes the number of the book's entries, and returns whether that was done.
fn tell_book<W: Sink>(book: &Book, writer: &mut W) -> bool
    ensures told { IsTrue result
        → Appends (W.contents writer.old) (W.contents writer.new) (book_ok (length book.now.entries) ++ 10 ∷ []) }
    ensures works { IsTrue result → W.failed writer.new ≡ W.failed writer.old }
    ensures fails { IsFalse result → W.failed writer.new ≡ true }
{
    let ok = Message::of(b"book ok ").number(book.len() as u64);
    ok.write_to(writer)
}

/// Solves each board line under the book's scoring, adds the answers to the book of the file, and writes the new book
/// at the end of input. Where a line can't be read, its number and its fault are printed, and it is left out. Returns
/// the status of the program: 0, or 1 where a device fails, or 2 where the settings aren't lawful, or 3 where the file
/// or an answer is refused. Unless it is 0 no book is written, save for what a writer took before it failed. `progress`
/// hears of each entry and of each line.
#[inline(never)]
pub fn book_add<'p, T: Wait + Threads + Sync, R: Source, W: Sink, E: Sink>(
    rt: &'p T,
    alloc: Global,
    file: &[u8],
    reader: &mut R,
    writer: &mut W,
    errors: &mut Errors<E>,
    settings: &Settings,
    progress: &'p Progress,
) -> u8
    ensures lawful { result ≡ 2 ↔ (AreLawful settings.now → ⊥) }
    ensures untouched { result ≡ 2 → (reader.new ≡ reader.old) × (writer.new ≡ writer.old) }
    ensures added { result ≡ 0 → AddsTo file.now (R.remaining reader.old) (R.remaining reader.new)
        (W.contents writer.old) (W.contents writer.new) }
    ensures works { result ≡ 0 → (R.failed reader.new ≡ R.failed reader.old)
        × (W.failed writer.new ≡ false) × (W.flushed writer.new ≡ true) }
    ensures devices { result ≡ 1 → DeviceFails (R.failed reader.new) (W.failed writer.new) (writer.new ≡ writer.old) }
    ensures refused { result ≡ 3 → (writer.new ≡ writer.old)
        × (IsRefused file.now ⊎ IsFullFor file.now (R.remaining reader.old) (R.remaining reader.new)) }
    ensures statuses { result ≤ 3 }
{
    let lawful = match Lawful::of(settings) {
        Ok(lawful) => lawful,
        Err(fault) => return print_run_fault(fault, errors),
    };
    let Settings { workers, cells, .. } = *settings;
    match open_book(rt, alloc, file, workers, cells, progress) {
        Ok(book) => {
            let settings = lawful.to_solve_by(book.scoring());
            let solver = Solver::of(rt, alloc, progress, None, settings);
            add_lines(&solver, Addition::of(book), reader, writer, errors)
        }
        Err(refusal) => {
            print_refusal(&refusal, errors);
            REFUSED
        }
    }
}

/// Prints the number of the fault, and returns the status of the program. The reason is kept, for words.
pub fn print_run_fault<E: Sink>(fault: RunFault, errors: &mut Errors<E>) -> u8
    ensures status { result ≡ status_of fault }
    ensures printed { E.failed errors.new.sink ≡ false
        → Appends (E.contents errors.old.sink) (E.contents errors.new.sink) (run_error fault ++ 10 ∷ []) }
    ensures reason { errors.new.reason ≡ Some (RunReason fault) }
    ensures words { errors.new.in_words ≡ errors.old.in_words }
{
    Message::of(b"run error ")
        .number(u64::from(fault.number()))
        .print(&mut errors.sink);
    errors.reason = Some(Reason::Run(fault));
    match fault {
        RunFault::Read | RunFault::Write => 1,
        RunFault::Workers | RunFault::Cells => 2,
    }
}

// As many workers as there are processors, at most 16.
fn processors<T: Threads>(rt: &T) -> u8 {
    match available_parallelism(rt) {
        Ok(count) => count.get().min(16) as u8,
        Err(_) => WORKERS,
    }
}

// Adds the lines of the input to the book, and writes it.
fn add_lines<T: Wait + Threads + Sync, R: Source, W: Sink, E: Sink>(
    solver: &Solver<'_, T, Progress>,
    addition: Addition,
    reader: &mut R,
    writer: &mut W,
    errors: &mut Errors<E>,
) -> u8
    requires line { KeepsLine addition.line [] }
    requires holds { IsTrueBook addition.book }
    ensures status { IsStatus result
        (AddsLines addition.book (R.remaining reader.old) (R.remaining reader.new)
        (W.contents writer.old) (W.contents writer.new))
        (DeviceFails (R.failed reader.new) (W.failed writer.new) (writer.new ≡ writer.old))
        ((writer.new ≡ writer.old) × StopsFull addition.book (R.remaining reader.old) (R.remaining reader.new)) }
    ensures works { result ≡ 0 → (R.failed reader.new ≡ R.failed reader.old)
        × (W.failed writer.new ≡ false) × (W.flushed writer.new ≡ true) }
{
    let mut addition = addition;
    match addition.run(solver, reader, writer, &mut errors.sink) {
        Ok(()) => STATUS_DONE,
        Err(Stop::Run(fault)) => print_run_fault(fault, errors),
        Err(Stop::Refused(line, error)) => {
            Message::of(b"line ")
                .number(line)
                .text(b": book error ")
                .number(u64::from(error.number()))
                .print(&mut errors.sink);
            errors.reason = Some(Reason::Answer(line, error));
            REFUSED
        }
    }
}
