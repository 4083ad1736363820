//! Out of memory. Each of these tests holds whichever one of its requests for memory is refused; `hostile/refusals.py`
//! runs each of them once for each request.

use super::{A, BOOK_1, BOOK_2, BOTH, C, FIRST_IMAGE, add, add_bounds, bounds, found, is_written};
use oth_book::{AddError, Added, Book, BookFault, Claims, Wrong, read_claims, verify};
use oth_rules::Scoring;
use std::process::Abort;

// The claims of a book's text; none when out of memory, which is the only fault.
fn read(rt: &(impl AllocGlobal + Abort), text: &[u8]) -> Option<Claims> {
    match read_claims(rt.alloc(), text) {
        Ok(claims) => Some(claims),
        Err(fault) => {
            assert!(rt; fault == BookFault::Memory);
            None
        }
    }
}

// The book of a text; none when out of memory, of which it is told.
fn opened(rt: &(impl AllocGlobal + Abort), text: &[u8]) -> Option<Book> {
    match verify(rt.alloc(), read(rt, text)?) {
        Ok(book) => Some(book),
        Err(wrong) => {
            assert!(rt; wrong == Wrong::Memory);
            None
        }
    }
}

#[test]
fn a_book_is_read_whole_or_not_at_all(rt: HostRuntime) {
    if let Some(claims) = read(&rt, BOTH) {
        assert!(rt; claims.entries().len() == 2);
        assert!(rt; claims.scoring() == Scoring::Winner);
    }
    if let Some(book) = opened(&rt, BOTH) {
        assert!(rt; is_written(&book, BOTH));
    }
}

#[test]
fn a_board_that_is_there_takes_no_memory(rt: HostRuntime) {
    if let Some(mut book) = opened(&rt, BOOK_1) {
        assert!(rt; add(&mut book, FIRST_IMAGE, Scoring::Winner) == Some(Ok(Added::Present)));
        assert!(rt; is_written(&book, BOOK_2));
    }
}

#[test]
fn a_refused_addition_leaves_the_book(rt: HostRuntime) {
    let Some(mut book) = opened(&rt, BOOK_1) else {
        return;
    };
    let done = add(&mut book, C, Scoring::Winner);
    if done == Some(Ok(Added::New)) {
        assert!(rt; is_written(&book, BOTH));
        return;
    }
    assert!(rt; done == Some(Err(AddError::Memory)));
    assert!(rt; book.len() == 1);
    assert!(rt; found(&book, A) == Some((-50, 0x80)));
    assert!(rt; found(&book, C) == None);
    assert!(rt; is_written(&book, BOOK_2));
}

#[test]
fn refused_bounds_leave_the_book(rt: HostRuntime) {
    let mut book = Book::new(rt.alloc(), Scoring::Winner);
    let done = add_bounds(&mut book, -64, -40);
    if done == Some(Ok(Added::New)) {
        assert!(rt; bounds(&book, A) == Some((-64, -40)));
        return;
    }
    assert!(rt; done == Some(Err(AddError::Memory)));
    assert!(rt; book.is_empty());
    assert!(rt; bounds(&book, A) == None);
}
