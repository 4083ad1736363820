//! The program: it does what its command line asks for, with standard input and output and the file of a book.
#![tactic(auto)]

mod asked;
mod books;
mod inputs;

ghost use Rattle.std.specs.Prelude.{◌≡◌, ◌≤◌, ◌⊎◌, ◌↔◌, IfErr, false, true};
ghost use Rattle.oth_run.specs.Run.{AreLawful};
ghost use Rattle.othsolve.specs.Program.{AreRefused, HasObeyed, HasReported, IsDone, lines_status};

use crate::asked::{cuts_rows, explains, words};
use crate::books::{book_of, file_of, tested_file_of};
use crate::inputs::{STANDARD_INPUT, inputs_of};
use oth_book::Book;
use oth_main::{
    Errors, Input, Joined, Report, ReportSink, STATUS_DONE, Scene, Settings, Telling, Watch, Words,
    book_add, book_verify, check_settings, print_run_fault, run_judged,
};
use oth_text::{FromRead, Sink, Source, ToWrite};
use std::alloc::Global;
use std::io::{IsTerminal, Read, Write};
use std::process::ExitCode;
use std::rt::Files;
use std::sync::Wait;
use std::thread::Threads;
use std::time::Clock;

// Status 4: all was done, and a line of the input has a fault.
const FAULTY_LINES: u8 = 4;

// What is asked for of the lines of the input.
#[derive(Clone, Copy)]
struct Task {
    settings: Settings,
    telling: Telling,
}

// What the words are obeyed with.
#[derive(Clone, Copy)]
struct Host<'m, T, S> {
    rt: &'m T,
    // Shows how far the work is where standard error is a terminal.
    watch: &'m Watch<S>,
    // Whether standard input is a terminal.
    types: bool,
}

// Obeys the words of the command line.
fn main(rt: HostRuntime) -> ExitCode {
    let words = match words(&rt) {
        Ok(words) => words,
        Err(status) => return ExitCode::from(status),
    };
    let is_watched = rt.stderr().is_terminal();
    let in_words = is_watched || explains(&words);
    let watch = Watch::on(ToWrite::new(rt.stderr()), is_watched, cuts_rows(&rt));
    let printed = ToWrite::new(rt.stderr());
    let printed = Report::of(&rt, &watch, printed, is_watched, false);
    let mut errors = Errors::new(printed, in_words);
    let inputs = match inputs_of(&rt, rt.stdin(), &words, &mut errors) {
        Ok(inputs) => inputs,
        Err(status) => {
            errors.explain(rt.alloc(), &Scene::default());
            return ExitCode::from(status);
        }
    };
    let mut input = Input::of(watch.gate(), inputs);
    let (writer, shares_terminal) = (ToWrite::new(rt.stdout()), rt.stdout().is_terminal());
    let mut report = Report::of(&rt, &watch, writer, shares_terminal, explains(&words));
    let host = Host {
        rt: &rt,
        watch: &watch,
        types: rt.stdin().is_terminal(),
    };
    let status = obey_watched(&host, &words, &mut input, &mut report, &mut errors);
    explain(
        rt.alloc(),
        &words,
        input.source(),
        report.writer(),
        &mut errors,
    );
    ExitCode::from(status)
}

// Does what the words ask for, and shows how far it is where standard error is a terminal.
fn obey_watched<
    T: Wait + Threads + Clock + Sync + Files + AllocGlobal,
    R: Source,
    W: ReportSink,
    S: Sink + Send,
    E: Sink,
>(
    host: &Host<'_, T, S>,
    words: &Words,
    reader: &mut R,
    writer: &mut W,
    errors: &mut Errors<E>,
) -> u8
    requires reader { R.failed reader.old ≡ false }
    requires writer { W.failed writer.old ≡ false }
    ensures done { IsDone result → HasObeyed words.now result (R.remaining reader.old) (R.remaining reader.new)
        (W.contents writer.old) (W.contents writer.new) }
    ensures works { IsDone result → (W.failed writer.new ≡ false) × (W.flushed writer.new ≡ true) }
    ensures refused { result ≡ 2 ↔ AreRefused words.now }
    ensures untouched { result ≡ 2 → (reader.new ≡ reader.old) × (writer.new ≡ writer.old) }
    ensures statuses { result ≤ 4 }
{
    let (rt, watch) = (host.rt, host.watch);
    let mut obeying = || -> u8
        requires { (R.failed reader.now ≡ false) × (W.failed writer.now ≡ false) }
        ensures done { IsDone result → HasObeyed words.entry.now result
            (R.remaining reader.entry.now) (R.remaining reader.exit.now)
            (W.contents writer.entry.now) (W.contents writer.exit.now) }
        ensures works { IsDone result → (W.failed writer.exit.now ≡ false) × (W.flushed writer.exit.now ≡ true) }
        ensures refused { result ≡ 2 ↔ AreRefused words.entry.now }
        ensures untouched { result ≡ 2 → (reader.exit.now ≡ reader.entry.now) × (writer.exit.now ≡ writer.entry.now) }
        ensures statuses { result ≤ 4 }
    { obey(host, words, reader, writer, errors) };
    watch.beside(rt, rt.alloc(), &mut obeying)
}

// Tells why the words' work ended, where words are told.
fn explain<R: Read + Drop, W: Write, E: Sink>(
    alloc: Global,
    words: &Words,
    reader: &Joined<FromRead<R>>,
    writer: &ToWrite<W>,
    errors: &mut Errors<E>,
)
    ensures { errors.old.in_words ≡ false → errors.new ≡ errors.old }
{
    let scene = Scene {
        file: file_name(words),
        input_name: input_name(words, reader.place()),
        input: reader.source().failure(),
        output: writer.failure(),
    };
    errors.explain(alloc, &scene);
}

// What the input at this place among all is called, counted from 0.
fn input_name(words: &Words, place: usize) -> &str {
    if let Words::Run(_, _, _, names) = words {
        if place < names.len() && names[place].as_str() != STANDARD_INPUT {
            return names[place].as_str();
        }
    }
    "standard input"
}

// The name of the book that the words name.
fn file_name(words: &Words) -> &str {
    match words {
        Words::Run(_, _, Some(name), _) => name.as_str(),
        Words::Run(_, _, None, _) => "",
        Words::Verify(_, name) => name.as_str(),
        Words::Add(_, _, name) => name.as_str(),
    }
}

// Does what the words ask for. Returns the status: 0, or 4 where the words are strict and a line has a fault; else 1
// where a device fails or the file can't be read, or 2 exactly where the settings are refused, or 3 where the file or
// an answer is.
fn obey<
    T: Wait + Threads + Sync + Files + AllocGlobal,
    R: Source,
    W: ReportSink,
    S: Sink + Send,
    E: Sink,
>(
    host: &Host<'_, T, S>,
    words: &Words,
    reader: &mut R,
    writer: &mut W,
    errors: &mut Errors<E>,
) -> u8
    requires reader { R.failed reader.old ≡ false }
    requires writer { W.failed writer.old ≡ false }
    ensures done { IsDone result → HasObeyed words.now result (R.remaining reader.old) (R.remaining reader.new)
        (W.contents writer.old) (W.contents writer.new) }
    ensures works { IsDone result → (W.failed writer.new ≡ false) × (W.flushed writer.new ≡ true) }
    ensures refused { result ≡ 2 ↔ AreRefused words.now }
    ensures untouched { result ≡ 2 → (reader.new ≡ reader.old) × (writer.new ≡ writer.old) }
    ensures statuses { result ≤ 4 }
{
    let (rt, gate) = (host.rt, host.watch.gate());
    match words {
        Words::Run(settings, telling, name, names) => {
            let task = Task {
                settings: *settings,
                telling: *telling,
            };
            match named_book(host, settings, name, errors) {
                Ok(book) => {
                    greet(host, settings, names.is_empty(), errors);
                    report(host, &task, book.as_ref(), reader, writer, errors)
                }
                Err(status) => status,
            }
        }
        Words::Verify(_, name) => match file_of(rt, name.as_str(), errors) {
            Ok(file) => book_verify(rt, rt.alloc(), file.as_slice(), writer, errors, gate),
            Err(status) => status,
        },
        Words::Add(settings, _, name) => {
            match tested_file_of(rt, settings, name.as_str(), errors) {
                Ok(file) => {
                    greet(host, settings, true, errors);
                    book_add(
                        rt,
                        rt.alloc(),
                        file.as_slice(),
                        reader,
                        writer,
                        errors,
                        settings,
                        gate,
                    )
                }
                Err(status) => status,
            }
        }
    }
}

// The book of this name, if one is named, or the status where that is none.
fn named_book<T: Wait + Threads + Sync + Files + AllocGlobal, S: Sink + Send, E: Sink>(
    host: &Host<'_, T, S>,
    settings: &Settings,
    name: &Option<String>,
    errors: &mut Errors<E>,
) -> Result<Option<Book>, u8>
    ensures refused { IfErr result (λ s. s ≡ 2 ↔ (AreLawful settings.now → ⊥)) }
    ensures statuses { IfErr result (λ s. (1 ≤ s) × (s ≤ 3)) }
{
    match name {
        Some(name) => {
            let gate = host.watch.gate();
            Ok(Some(book_of(host.rt, settings, name.as_str(), errors, gate)?))
        }
        None => Ok(None),
    }
}

// Tells whoever types the lines that they are awaited, where no file is named and the settings are lawful.
fn greet<T, S, E: Sink>(
    host: &Host<'_, T, S>,
    settings: &Settings,
    names_none: bool,
    errors: &mut Errors<E>,
) {
    if host.types && names_none && check_settings(settings).is_ok() {
        errors.tell_awaited(settings.command);
    }
}

// Reports the lines of the input.
fn report<
    T: Wait + Threads + Sync + AllocGlobal,
    R: Source,
    W: ReportSink,
    S: Sink + Send,
    E: Sink,
>(
    host: &Host<'_, T, S>,
    task: &Task,
    book: Option<&Book>,
    reader: &mut R,
    writer: &mut W,
    errors: &mut Errors<E>,
) -> u8
    requires reader { R.failed reader.old ≡ false }
    requires writer { W.failed writer.old ≡ false }
    ensures done { IsDone result → HasReported task.now.settings task.now.telling result
        (R.remaining reader.old) (R.remaining reader.new) (W.contents writer.old) (W.contents writer.new) }
    ensures works { IsDone result → (W.failed writer.new ≡ false) × (W.flushed writer.new ≡ true) }
    ensures fails { result ≡ 1 → (R.failed reader.new ≡ true) ⊎ (W.failed writer.new ≡ true) }
    ensures refused { result ≡ 2 ↔ (AreLawful task.now.settings → ⊥) }
    ensures untouched { result ≡ 2 → (reader.new ≡ reader.old) × (writer.new ≡ writer.old) }
    ensures statuses { (result ≤ 2) ⊎ (result ≡ 4) }
{
    let (rt, gate) = (host.rt, host.watch.gate());
    match run_judged(rt, rt.alloc(), reader, writer, &task.settings, gate, book) {
        Ok(is_faulty) => lines_status(task.telling, is_faulty),
        Err(fault) => print_run_fault(fault, errors),
    }
}

// The status of a report that was written, by whether a line has a fault.
fn lines_status(telling: Telling, is_faulty: bool) -> u8
    ensures status { result ≡ lines_status telling is_faulty }
    ensures done { IsDone result }
{
    if telling.is_strict && is_faulty {
        FAULTY_LINES
    } else {
        STATUS_DONE
    }
}
