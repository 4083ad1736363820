//! The book of a file, or why there is none.

ghost use Rattle.std.specs.Prelude.{◌≡◌, ◌≤◌, ◌<◌, ◌+◌, ◌++◌, ◌∷◌, [], Some, IfOk, IfErr, false, length};
ghost use Rattle.std.specs.Io.KnownBytes.{Appends};
ghost use Rattle.oth_book.specs.Book.{IsTrueBook};
ghost use Rattle.oth_book.specs.Contents.{IsText};
ghost use Rattle.oth_main.specs.BookFile.{IsBook, IsForMemory, IsRefusal};
ghost use Rattle.oth_main.specs.Messages.{book_refusal, placed};
ghost use Rattle.oth_main.specs.declared.book.reasons.Reason.TheVariants.{Book as BookReason};

use super::message::Message;
use super::reasons::{Errors, Reason};
use crate::terminal::Progress;
use oth_batch::verify_by;
use oth_book::{Book, BookFault, Wrong, read_claims};
use oth_text::Sink;
use std::alloc::Global;
use std::sync::Wait;
use std::thread::Threads;

/// The most bytes that are read of a book's file: one more than the longest book has.
pub const MOST_BOOK_BYTES: usize = 9_000_021;

/// The status of a program whose book is refused.
pub const REFUSED: u8 = 3;

/// Why a file is no book.
#[derive(Clone, Copy, Debug, PartialEq, Eq, Drop)]
pub enum BookRefusal {
    /// Its bytes are no book's text.
    Text(BookFault),
    /// Its bytes are a book's text, and what it says is wrong, or there is no memory to test it.
    Claim(Wrong),
}

/// Returns the book of a file's bytes, each entry solved anew by `workers` workers over tables of at most `cells`
/// cells, of which `progress` hears. The text of a true book is refused when out of memory alone.
pub fn open_book<T: Wait + Threads + Sync>(
    rt: &T,
    alloc: Global,
    file: &[u8],
    workers: u8,
    cells: u32,
    progress: &Progress,
) -> Result<Book, BookRefusal>
    ensures text { IfOk result (λ book. IsText book file.now) }
    ensures holds { IfOk result (λ book. IsTrueBook book) }
    ensures refused { IfErr result (λ why. IsRefusal file.now why) }
    ensures memory { IfErr result (λ why. IsBook file.now → IsForMemory why) }
{
    let claims = match read_claims(alloc, file) {
        Ok(claims) => claims,
        Err(fault) => return Err(BookRefusal::Text(fault)),
    };
    progress.begin_entries(claims.entries().len());
    match verify_by(rt, alloc, claims, workers, cells, progress) {
        Ok(book) => {
            progress.begin_lines(false);
            Ok(book)
        }
        Err(wrong) => Err(BookRefusal::Claim(wrong)),
    }
}

/// Prints why a file is no book: `book error n` or `book wrong n`, then ` at k` where a line or an entry is to blame.
/// The reason is kept, for words. An output that fails is passed over.
pub fn print_refusal<E: Sink>(refusal: &BookRefusal, errors: &mut Errors<E>)
    ensures printed { E.failed errors.new.sink ≡ false
        → Appends (E.contents errors.old.sink) (E.contents errors.new.sink) (book_refusal refusal.now ++ 10 ∷ []) }
    ensures reason { errors.new.reason ≡ Some (BookReason refusal.now) }
    ensures words { errors.new.in_words ≡ errors.old.in_words }
{
    line_of(refusal).print(&mut errors.sink);
    errors.reason = Some(Reason::Book(*refusal));
}

// The line of the refusal.
fn line_of(refusal: &BookRefusal) -> Message
    ensures text { result ≡ book_refusal refusal.now }
    ensures short { length result < 80 }
{
    match *refusal {
        BookRefusal::Text(fault) => {
            let message = Message::of(b"book error ").number(u64::from(fault.number()));
            placed(message, fault.line())
        }
        BookRefusal::Claim(wrong) => {
            let message = Message::of(b"book wrong ").number(u64::from(wrong.number()));
            placed(message, wrong.entry())
        }
    }
}

// The line with the place that is to blame, where there is one.
fn placed(message: Message, place: Option<u32>) -> Message
    ensures text { length message ≤ 50 → result ≡ placed message place }
    ensures short { length result ≤ length message + 24 }
{
    match place {
        Some(place) => message.text(b" at ").number(u64::from(place)),
        None => message,
    }
}
