//! A full book.

use super::{A, board, check_added, check_added_bounds, check_bounds, check_found};
use oth_book::{AddError, Added, Book};
use oth_rules::Scoring;
use oth_search::Solved;
use std::alloc::Global;
use std::process::Abort;

// A board with the mover's disc on d1 alone, and with the number's 17 bits as the other side's discs on the last
// squares; all squares between have discs of the other side. It is canonical, and greater numbers give boards later in
// the order of cells.
fn numbered(number: u32) -> [u64; 2] {
    [
        8,
        0x0000_7fff_ffff_fff7 | (number.reverse_bits() as u64) << 32,
    ]
}

// Puts in that nothing is known of the board.
fn add_unknown(book: &mut Book, words: [u64; 2]) -> Option<Result<Added, AddError>> {
    let unknown = Solved::unknown(board(words)?, Scoring::Winner);
    Some(book.add_bounds(&unknown))
}

// What is said where the board is put in, of which nothing is known.
fn check_added_unknown(
    rt: &impl Abort,
    book: &mut Book,
    words: [u64; 2],
    said: Result<Added, AddError>,
) {
    assert!(rt; add_unknown(book, words) == Some(said));
}

// A book of 100,000 boards of which nothing is known.
fn full_book(alloc: Global) -> Option<Book> {
    let mut book = Book::new(alloc, Scoring::Winner);
    for number in 0..100_000 {
        if add_unknown(&mut book, numbered(number)) != Some(Ok(Added::New)) {
            return None;
        }
    }
    Some(book)
}

#[test]
fn a_full_book_takes_no_further_board(rt: HostRuntime) {
    let mut book = full_book(rt.alloc()).expect(&rt, "a book");
    assert!(rt; book.len() == 100_000);
    check_bounds(&rt, &book, numbered(99_999), Some((-64, 64)));
    check_bounds(&rt, &book, numbered(100_000), None);
    check_added_unknown(&rt, &mut book, numbered(100_000), Err(AddError::Full));
    check_added(&rt, &mut book, A, Scoring::Winner, Err(AddError::Full));
    check_added_bounds(&rt, &mut book, -64, -40, Err(AddError::Full));
    assert!(rt; book.len() == 100_000);
    check_bounds(&rt, &book, A, None);
}

// Refusals that come before want of room, and boards that are there.
#[test]
fn a_full_book_takes_what_it_has(rt: HostRuntime) {
    let mut book = full_book(rt.alloc()).expect(&rt, "a book");
    check_added(&rt, &mut book, A, Scoring::Discs, Err(AddError::Scoring));
    check_added_bounds(&rt, &mut book, -50, -50, Err(AddError::OneNumber));
    let near_full = numbered(65_535);
    check_added_unknown(&rt, &mut book, near_full, Ok(Added::Present));
    check_found(&rt, &book, near_full, None);
    check_added(
        &rt,
        &mut book,
        near_full,
        Scoring::Winner,
        Ok(Added::Sharper),
    );
    check_added(
        &rt,
        &mut book,
        near_full,
        Scoring::Winner,
        Ok(Added::Present),
    );
    assert!(rt; book.len() == 100_000);
}
