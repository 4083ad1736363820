//! The file of a book.

ghost use Rattle.std.specs.Prelude.{◌≡◌, ◌≤◌, ◌⊎◌, ◌↔◌, IfOk, IfErr, false};
ghost use Rattle.oth_run.specs.Run.{AreLawful};
ghost use Rattle.othsolve.specs.Program.{TellsFault};

use oth_book::{Book, BookFault};
use oth_main::{
    BookRefusal, Errors, MOST_BOOK_BYTES, Progress, REFUSED, Reason, RunFault, Settings,
    check_settings, open_book, print_refusal, print_run_fault, tell_scoring,
};
use oth_text::Sink;
use std::fs::File;
use std::io;
use std::io::{ErrorKind, Read};
use std::rt::Files;
use std::sync::Wait;
use std::thread::Threads;

/// The book of a file, or the status where there is none. The settings are tested before the file is read. `progress`
/// hears of each entry.
pub fn book_of<T: Wait + Threads + Sync + Files + AllocGlobal, E: Sink>(
    rt: &T,
    settings: &Settings,
    name: &str,
    errors: &mut Errors<E>,
    progress: &Progress,
) -> Result<Book, u8>
    ensures lawful { IfOk result (λ book. AreLawful settings.now) }
    ensures refused { IfErr result (λ s. s ≡ 2 ↔ (AreLawful settings.now → ⊥)) }
    ensures statuses { IfErr result (λ s. (1 ≤ s) × (s ≤ 3)) }
{
    let file = tested_file_of(rt, settings, name, errors)?;
    match open_book(
        rt,
        rt.alloc(),
        file.as_slice(),
        settings.workers,
        settings.cells,
        progress,
    ) {
        Ok(book) => {
            tell_scoring(rt.alloc(), name, &book, settings.scoring, errors);
            Ok(book)
        }
        Err(refusal) => {
            print_refusal(&refusal, errors);
            Err(REFUSED)
        }
    }
}

/// The bytes of a book's file, or the status where the settings are refused or it can't be read.
pub fn tested_file_of<T: Files + AllocGlobal, E: Sink>(
    rt: &T,
    settings: &Settings,
    name: &str,
    errors: &mut Errors<E>,
) -> Result<Vec<u8>, u8>
    ensures lawful { IfOk result (λ file. AreLawful settings.now) }
    ensures refused { IfErr result (λ s. s ≡ 2 ↔ (AreLawful settings.now → ⊥)) }
    ensures statuses { IfErr result (λ s. (1 ≤ s) × (s ≤ 3)) }
{
    match check_settings(settings) {
        Ok(()) => file_of(rt, name, errors),
        Err(fault) => Err(print_run_fault(fault, errors)),
    }
}

/// The bytes of a book's file, or the status where it can't be read.
pub fn file_of<T: Files + AllocGlobal, E: Sink>(
    rt: &T,
    name: &str,
    errors: &mut Errors<E>,
) -> Result<Vec<u8>, u8>
    ensures statuses { IfErr result (λ s. (s ≡ 1) ⊎ (s ≡ 3)) }
    ensures told { IfErr result (λ s. E.failed errors.new.sink ≡ false
        → TellsFault s (E.contents errors.old.sink) (E.contents errors.new.sink)) }
{
    match read_file(rt, name) {
        Ok(file) => Ok(file),
        Err(error) if error.kind() == ErrorKind::OutOfMemory => {
            print_refusal(&BookRefusal::Text(BookFault::Memory), errors);
            Err(REFUSED)
        }
        Err(error) => {
            let status = print_run_fault(RunFault::Read, errors);
            errors.reason = Some(Reason::File(error));
            Err(status)
        }
    }
}

// Reads as many bytes of the file as tell whether it is a book.
fn read_file<T: Files + AllocGlobal>(rt: &T, name: &str) -> io::Result<Vec<u8>> {
    let file = File::open(rt, name)?;
    let mut bytes = Vec::new(rt.alloc());
    file.take(MOST_BOOK_BYTES as u64).read_to_end(&mut bytes)?;
    Ok(bytes)
}
