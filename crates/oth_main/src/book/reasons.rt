//! The reasons in words, a second line for who sits at a terminal or asks for it.

ghost use Rattle.std.specs.Prelude.{◌≡◌, ◌+◌, ◌<◌, ◌++◌, ◌∷◌, [], None, false, length, true};
ghost use Rattle.std.specs.Io.KnownBytes.{Appends};
ghost use Rattle.oth_main.specs.Messages.{awaited};

use super::book_file::BookRefusal;
use super::message::Message;
use oth_book::{AddError, Book, BookFault, Cause, Wrong};
use oth_rules::Scoring;
use oth_run::RunFault;
use oth_text::{Sink, write_all};
use oth_words::Command;
use std::alloc::Global;
use std::fmt;
use std::io::{Error, ErrorKind};

/// Why a command ended before all was done.
#[derive(Clone, Copy, Debug, Drop)]
pub enum Reason {
    /// FILE can't be read.
    File(Error),
    /// FILE is no book, or no true one.
    Book(BookRefusal),
    /// The answer of this line of the input, counted from 1, can't be added to the book.
    Answer(u64, AddError),
    /// A device failed, or the settings are refused.
    Run(RunFault),
}

/// What a reason is about.
#[derive(Clone, Copy, Default, Drop)]
pub struct Scene<'a> {
    /// The name of FILE.
    pub file: &'a str,
    /// What the input that is read, or was read last, is called.
    pub input_name: &'a str,
    /// The error at which that input failed.
    pub input: Option<&'a Error>,
    /// The error at which standard output failed.
    pub output: Option<&'a Error>,
}

/// The error output of a command, and why the command ended.
#[derive(Drop)]
pub struct Errors<E> {
    /// What lines are printed to.
    pub sink: E,
    /// Whether anything is told in words.
    pub in_words: bool,
    /// Why the command ended before all was done, where it did.
    pub reason: Option<Reason>,
}

impl<E: Sink> Errors<E> {
    /// An error output on which no reason was printed yet, and where words are told or not.
    pub fn new(sink: E, in_words: bool) -> Self
        ensures sink { result.sink ≡ sink }
        ensures words { result.in_words ≡ in_words }
        ensures reason { result.reason ≡ None }
    {
        Errors {
            sink,
            in_words,
            reason: None,
        }
    }

    /// Tells the reason in words, a line of its own. Nothing is written where there is no reason, where no words are
    /// told, and where the output has failed. An output that fails now is passed over, and so is a lack of memory.
    pub fn explain(&mut self, alloc: Global, scene: &Scene<'_>)
        ensures silent { self.old.in_words ≡ false → self.new ≡ self.old }
        ensures failed { E.failed self.old.sink ≡ true → self.new ≡ self.old }
        ensures no_reason { self.old.reason ≡ None → self.new ≡ self.old }
    {
        if let Some(reason) = self.reason {
            let scene = *scene;
            self.tell(alloc, &InWords { reason, scene });
        }
    }

    /// Tells in words, also where else none are told, which file can't be opened, and why. The reason that was kept for
    /// words is told so. An output that has failed or fails now is passed over, and so is a lack of memory.
    pub fn tell_unopened(&mut self, alloc: Global, file: &str, error: &Error)
        ensures reason { self.new.reason ≡ None }
        ensures words { self.new.in_words ≡ self.old.in_words }
        ensures failed { E.failed self.old.sink ≡ true → self.new.sink ≡ self.old.sink }
    {
        let scene = Scene {
            file,
            input_name: "",
            input: None,
            output: None,
        };
        let reason = Reason::File(*error);
        self.write(alloc, &InWords { reason, scene });
        self.reason = None;
    }

    /// Tells that the lines of the command are read from the terminal, and how they end. An output that has failed is
    /// passed over.
    pub fn tell_awaited(&mut self, command: Command)
        ensures told { E.failed self.new.sink ≡ false
            → Appends (E.contents self.old.sink) (E.contents self.new.sink) (awaited command ++ 10 ∷ []) }
        ensures reason { self.new.reason ≡ self.old.reason }
        ensures words { self.new.in_words ≡ self.old.in_words }
        ensures failed { E.failed self.old.sink ≡ true → self.new ≡ self.old }
    {
        if !self.sink.failed() {
            awaited_line(command).print(&mut self.sink);
        }
    }

    // Prints a line of words, where words are told.
    fn tell<D: fmt::Display>(&mut self, alloc: Global, words: &D)
        ensures silent { self.old.in_words ≡ false → self.new ≡ self.old }
        ensures failed { E.failed self.old.sink ≡ true → self.new ≡ self.old }
    {
        if self.in_words {
            self.write(alloc, words);
        }
    }

    // Prints a line of words.
    fn write<D: fmt::Display>(&mut self, alloc: Global, words: &D)
        ensures reason { self.new.reason ≡ self.old.reason }
        ensures words { self.new.in_words ≡ self.old.in_words }
        ensures failed { E.failed self.old.sink ≡ true → self.new ≡ self.old }
    {
        if self.sink.failed() {
            return;
        }
        if let Ok(line) = format!(in alloc; "{words}\n") {
            let _ = write_all(&mut self.sink, line.as_bytes());
        }
    }
}

// The line that tells what is read from the terminal.
fn awaited_line(command: Command) -> Message
    ensures text { result ≡ awaited command }
    ensures short { length result < 80 }
{
    match command {
        Command::Solve | Command::Scores | Command::Moves => {
            Message::of(b"othsolve: reading boards from the terminal; end with Ctrl-D")
        }
        Command::Transcript | Command::Analyse(_) => {
            Message::of(b"othsolve: reading games from the terminal; end with Ctrl-D")
        }
        Command::Play => {
            Message::of(b"othsolve: reading boards with moves from the terminal; end with Ctrl-D")
        }
    }
}

/// Tells that the book of FILE isn't asked, where it is under another scoring than the one that is asked for.
pub fn tell_scoring<E: Sink>(
    alloc: Global,
    file: &str,
    book: &Book,
    asked: Scoring,
    errors: &mut Errors<E>,
)
    ensures silent { errors.old.in_words ≡ false → errors.new ≡ errors.old }
    ensures failed { E.failed errors.old.sink ≡ true → errors.new ≡ errors.old }
    ensures asked { book.now.scoring ≡ asked → errors.new ≡ errors.old }
{
    if book.scoring() != asked {
        errors.tell(alloc, &NotAsked { file });
    }
}

// The number of a line in a book's file as an editor counts it, from 1 with the header. `behind_header` is the number
// of the line or the entry behind the header, from 1.
fn line_of_file(behind_header: u32) -> u64
    ensures { result ≡ behind_header + 1 }
{
    u64::from(behind_header) + 1
}

// The line or the entry that is to blame, counted from 1 behind the header.
fn place_of(refusal: &BookRefusal) -> Option<u32> {
    match refusal {
        BookRefusal::Text(fault) => fault.line(),
        BookRefusal::Claim(wrong) => wrong.entry(),
    }
}

// What is said of the book, or of the line that is to blame.
fn words_of(refusal: &BookRefusal) -> &'static str {
    match refusal {
        BookRefusal::Text(BookFault::Header) => {
            "the first line is none of OBOOK2 W, OBOOK2 D and OBOOK1"
        }
        BookRefusal::Text(BookFault::Line(_)) => "no entry and no end line",
        BookRefusal::Text(BookFault::Order(_)) => "its board isn't above the one before",
        BookRefusal::Text(BookFault::Count) => "the number of entries is wrong",
        BookRefusal::Text(BookFault::CutShort) => "the book is cut short",
        BookRefusal::Text(BookFault::Trailing) => "bytes follow the end",
        BookRefusal::Text(BookFault::Memory) => "out of memory",
        BookRefusal::Claim(Wrong::Entry(_, Cause::Bounds)) => {
            "the bounds don't enclose the value of its board"
        }
        BookRefusal::Claim(Wrong::Entry(_, Cause::Best)) => "its best moves are wrong",
        BookRefusal::Claim(Wrong::Entry(_, Cause::Empties)) => {
            "its board has more than 30 empty squares"
        }
        BookRefusal::Claim(Wrong::Memory) => "out of memory",
    }
}

// What is said of a fault of a run.
fn words_of_run(fault: RunFault) -> &'static str {
    match fault {
        RunFault::Read => "a read failed",
        RunFault::Write => "a write failed",
        RunFault::Workers => "the workers must be 1 to 16",
        RunFault::Cells => "the cells must be 0 or a power of two up to 262144",
    }
}

// A reason in words, without byte 10.
#[derive(Drop)]
struct InWords<'a> {
    reason: Reason,
    scene: Scene<'a>,
}

impl fmt::Display for InWords<'_> {
    fn fmt<W: fmt::Write>(&self, f: &mut fmt::Formatter<W>) -> fmt::Result {
        let file = FileName(self.scene.file);
        match &self.reason {
            Reason::File(error) => write!(f, "{file}: {}", ErrorWords(error)),
            Reason::Book(refusal) => {
                let words = words_of(refusal);
                match place_of(refusal) {
                    Some(place) => write!(f, "line {} of {file}: {words}", line_of_file(place)),
                    None => write!(f, "{file}: {words}"),
                }
            }
            Reason::Answer(line, error) => {
                write!(
                    f,
                    "line {line} of standard input: its answer can't be added: {error}"
                )
            }
            Reason::Run(fault) => self.scene.fmt_run(*fault, f),
        }
    }
}

impl Scene<'_> {
    // Writes why a run ended, with the device that failed.
    fn fmt_run<W: fmt::Write>(&self, fault: RunFault, f: &mut fmt::Formatter<W>) -> fmt::Result {
        match (fault, self.input, self.output) {
            (RunFault::Read, Some(error), _) => {
                let input = FileName(self.input_name);
                write!(f, "{input}: {}", ErrorWords(error))
            }
            (RunFault::Write, _, Some(error)) => write!(
                f,
                "standard output: {}",
                ErrorWords(error)
            ),
            _ => f.write_str(words_of_run(fault)),
        }
    }
}

// That the book of FILE isn't asked.
#[derive(Drop)]
struct NotAsked<'a> {
    file: &'a str,
}

impl fmt::Display for NotAsked<'_> {
    fn fmt<W: fmt::Write>(&self, f: &mut fmt::Formatter<W>) -> fmt::Result {
        let file = FileName(self.file);
        write!(f, "{file}: by the other scoring, so it is not asked")
    }
}

// The error of a file or a device in words: those of the system where there are none of this program's.
#[derive(Drop)]
struct ErrorWords<'a>(&'a Error);

impl fmt::Display for ErrorWords<'_> {
    fn fmt<W: fmt::Write>(&self, f: &mut fmt::Formatter<W>) -> fmt::Result {
        let ErrorWords(error) = *self;
        match error.kind() {
            ErrorKind::NotFound => f.write_str("no such file"),
            ErrorKind::PermissionDenied => f.write_str("permission denied"),
            ErrorKind::IsADirectory => f.write_str("is a directory"),
            ErrorKind::WouldBlock => f.write_str("not ready (it is in non-blocking mode)"),
            ErrorKind::StorageFull => f.write_str("no space left"),
            ErrorKind::BrokenPipe => f.write_str("closed by its reader"),
            _ => write!(f, "{error}"),
        }
    }
}

// The name of a file, with `?` for each control character, as `ls` writes it to a terminal.
#[derive(Drop)]
struct FileName<'a>(&'a str);

impl fmt::Display for FileName<'_> {
    fn fmt<W: fmt::Write>(&self, f: &mut fmt::Formatter<W>) -> fmt::Result {
        let FileName(name) = *self;
        for character in name.chars() {
            f.write_char(if character.is_control() {
                '?'
            } else {
                character
            })?;
        }
        Ok(())
    }
}
