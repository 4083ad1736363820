//! Writing a book's text.

ghost use Rattle.std.specs.Prelude.{◌≡◌, ◌+◌, ◌≤◌, ◌++◌, [], ◌∷◌, ◌<◌, ℕ, length, false, true, OnOk, OnErr, List, All};
ghost use Rattle.std.specs.Io.KnownBytes.{Appends};
ghost use Rattle.arrayvec.specs.ArrayVec.{array_vec_len};
ghost use Rattle.oth_rules.specs.declared.scoring.Scoring.{Scoring as AnyScoring};
ghost use Rattle.oth_search.specs.Bounds.Interval.{IsInterval};
ghost use Rattle.oth_device.specs.Device.{AppendsBeginning};
ghost use Rattle.oth_book.specs.Order.{cells};
ghost use Rattle.oth_book.specs.Numeral.{numeral};
ghost use Rattle.oth_book.specs.Text.{book_text, entry_line, end_line, signed, IsBookText};
ghost use Rattle.oth_book.specs.Contents.{written, IsText};
ghost use Rattle.oth_book.specs.Book.{IsTrueBook};

use super::numeral::write_numeral;
use super::shape::header;
use crate::book::Book;
use crate::claim::Claim;
use crate::order::cell;
use crate::version::Version;
use arrayvec::ArrayVec;
use oth_device::{Failed, Sink, write_all};
use oth_rules::Board;
use thiserror::Error;

// The most bytes of a line.
const LINE_LEN: usize = 90;

/// The writer failed while a book was written.
#[derive(Clone, Copy, Debug, PartialEq, Eq, Drop, Error)]
#[error("the book couldn't be written")]
pub struct WriteFault;

/// Writes the text of the book, in version 2: of a true book, since there is no other. Where the writer fails, a
/// beginning of the text was written.
pub fn write<W: Sink>(book: &Book, writer: &mut W) -> Result<(), WriteFault>
    requires { W.failed writer.old ≡ false }
    ensures book { IsTrueBook book.now }
    ensures text { IsText book.now (written book.now) }
    ensures ok { OnOk result (Appends (W.contents writer.old) (W.contents writer.new) (written book.now)) }
    ensures err { OnErr result (AppendsBeginning (W.contents writer.old) (W.contents writer.new) (written book.now)) }
    ensures works { OnOk result (W.failed writer.new ≡ false) }
    ensures fails { OnErr result (W.failed writer.new ≡ true) }
{
    let version = Version::Two(book.scoring());
    match write_lines(book.entries(), version, writer) {
        Ok(()) => Ok(()),
        Err(_) => Err(WriteFault),
    }
}

// Writes the text, a line at a time.
fn write_lines<W: Sink>(entries: &[Claim], version: Version, writer: &mut W) -> Result<(), Failed>
    requires version { (g : AnyScoring) × (version ≡ Version.Two g) }
    requires bounds { All (λ c. IsInterval c.lower c.upper) entries.now }
    ensures ok { OnOk result (Appends (W.contents writer.old) (W.contents writer.new) (book_text version entries.now)) }
    ensures err { OnErr result
        (AppendsBeginning (W.contents writer.old) (W.contents writer.new) (book_text version entries.now)) }
    ensures works { OnOk result (W.failed writer.new ≡ W.failed writer.old) }
    ensures fails { OnErr result (W.failed writer.new ≡ true) }
{
    write_all(writer, header(version))?;
    for entry in entries {
        let line = line_of(entry);
        write_all(writer, line.as_slice())?;
    }
    let line = last_line(entries.len() as u64);
    write_all(writer, line.as_slice())?;
    Ok(())
}

// The line of an entry.
fn line_of(entry: &Claim) -> ArrayVec<u8, LINE_LEN>
    requires { IsInterval entry.now.lower entry.now.upper }
    ensures { (g : AnyScoring) → result.items ≡ entry_line (Version.Two g) entry.now }
{
    let mut line = ArrayVec::new();
    push_cells(&mut line, &entry.board);
    line.push(b' ');
    push_bound(&mut line, entry.lower);
    line.push(b' ');
    push_bound(&mut line, entry.upper);
    line.push(b' ');
    push_numeral::<16>(&mut line, 16, entry.best);
    line.push(b'\n');
    line
}

// The end line of a book of `count` entries.
#[tactic(auto, unfolding(crate::specs::Text::end_line))]
fn last_line(count: u64) -> ArrayVec<u8, LINE_LEN>
    ensures { result.items ≡ end_line count }
{
    let mut line = ArrayVec::new();
    line.try_extend_from_slice(b"END ").unwrap();
    push_numeral::<6>(&mut line, 10, count);
    line.push(b'\n');
    line
}

// Appends the cells of the board.
fn push_cells(line: &mut ArrayVec<u8, LINE_LEN>, board: &Board)
    requires { line.old.items ≡ [] }
    ensures cells { line.new.items ≡ cells board.now }
    ensures len { array_vec_len line.new ≡ 64 }
{
    for square in 0u8..64 {
        line.push(cell(board, square));
    }
}

// Appends the bound as a sign and two digits.
#[tactic(auto, unfolding(crate::specs::Text::signed))]
fn push_bound(line: &mut ArrayVec<u8, LINE_LEN>, bound: i8)
    requires { array_vec_len line.old + 3 ≤ LINE_LEN }
    ensures text { line.new.items ≡ line.old.items ++ signed bound }
    ensures len { array_vec_len line.new ≡ array_vec_len line.old + 3 }
{
    line.push(if bound < 0 { b'-' } else { b'+' });
    push_numeral::<2>(line, 10, u64::from(bound.unsigned_abs()));
}

// Appends the number in `DIGITS` digits of the base.
fn push_numeral<const DIGITS: usize>(line: &mut ArrayVec<u8, LINE_LEN>, base: u64, number: u64)
    requires room { array_vec_len line.old + DIGITS ≤ LINE_LEN }
    requires positive { 0 < base }
    requires hexadecimal { base ≤ 16 }
    ensures digits { line.new.items ≡ line.old.items ++ numeral base DIGITS number }
    ensures len { array_vec_len line.new ≡ array_vec_len line.old + DIGITS }
{
    let mut digits = [0u8; DIGITS];
    write_numeral(&mut digits, base, number);
    line.try_extend_from_slice(&digits).unwrap();
}
