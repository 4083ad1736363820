//! Texts of books that are read and verified: whole ones, and each fault and each wrong entry of both versions.

use super::{BOOK_1, BOOK_2, BOTH, CELLS_OF_A, EMPTY_1, EMPTY_2, front};
use oth_book::{BookFault, Cause, Wrong, check_text, read_claims, verify};
use std::alloc::{AllocError, Global};
use std::test::Fail;

const WRONG_ORDER: &[u8] =
    b"OBOOK2 W\nXXXXXXXXXXXXXXXXXXXXXXXXXXXXXXXXXXXXXXXXXXXXXXXXXXXXXXXX-OXXXXO- +64 +64 8100000000000000\n\
      --OXOOO-OOOOOOOOOOOOOOOOOOOOOOOOOOOOOOOOOOOOOOOOOOOOOOOOOOOOOOOO -50 -50 0000000000000080\nEND 000002\n";

const WRONG_ORDER_1: &[u8] =
    b"OBOOK1\nXXXXXXXXXXXXXXXXXXXXXXXXXXXXXXXXXXXXXXXXXXXXXXXXXXXXXXXX-OXXXXO- +64 8100000000000000\n\
      --OXOOO-OOOOOOOOOOOOOOOOOOOOOOOOOOOOOOOOOOOOOOOOOOOOOOOOOOOOOOOO -50 0000000000000080\nEND 000002\n";

const TWICE: &[u8] =
    b"OBOOK1\n--OXOOO-OOOOOOOOOOOOOOOOOOOOOOOOOOOOOOOOOOOOOOOOOOOOOOOOOOOOOOOO -50 0000000000000080\n\
      --OXOOO-OOOOOOOOOOOOOOOOOOOOOOOOOOOOOOOOOOOOOOOOOOOOOOOOOOOOOOOO -50 0000000000000080\nEND 000002\n";

// What becomes of bytes that are read and verified.
#[derive(Clone, Copy, Debug, PartialEq, Eq)]
enum Outcome {
    Fault(BookFault),
    Wrong(Wrong),
    Good(usize),
}

// What is read is what is checked.
fn is_checked_as_read(alloc: Global, bytes: &[u8]) -> bool {
    check_text(bytes).err() == read_claims(alloc, bytes).err()
}

fn judged(alloc: Global, bytes: &[u8]) -> Outcome {
    let claims = match read_claims(alloc, bytes) {
        Ok(claims) => claims,
        Err(fault) => return Outcome::Fault(fault),
    };
    match verify(alloc, claims) {
        Ok(book) => Outcome::Good(book.len()),
        Err(wrong) => Outcome::Wrong(wrong),
    }
}

// A text of one entry, of the board A.
fn text(alloc: Global, header: &[u8], bounds: &[u8], end: &[u8]) -> Result<Vec<u8>, AllocError> {
    let mut bytes = header.to_vec(alloc)?;
    bytes.extend_from_slice(CELLS_OF_A)?;
    bytes.extend_from_slice(bounds)?;
    bytes.extend_from_slice(end)?;
    Ok(bytes)
}

const ONE: &[u8] = b"\nEND 000001\n";

// Texts, and what becomes of each.
const TEXTS: [(&[u8], Outcome); 13] = [
    (EMPTY_1, Outcome::Good(0)),
    (b"OBOOK1\nEND 000000", Outcome::Fault(BookFault::CutShort)),
    (
        b"OBOOK1\nEND 000000\n\n",
        Outcome::Fault(BookFault::Trailing),
    ),
    (b"", Outcome::Fault(BookFault::CutShort)),
    (BOOK_1, Outcome::Good(1)),
    (TWICE, Outcome::Fault(BookFault::Order(2))),
    (WRONG_ORDER_1, Outcome::Fault(BookFault::Order(2))),
    (EMPTY_2, Outcome::Good(0)),
    (b"OBOOK3\n", Outcome::Fault(BookFault::Header)),
    (b"OBOOK2", Outcome::Fault(BookFault::CutShort)),
    (BOOK_2, Outcome::Good(1)),
    (BOTH, Outcome::Good(2)),
    (WRONG_ORDER, Outcome::Fault(BookFault::Order(2))),
];

// A header, and what stands after the cells of A and at the end, of texts with one entry, and what becomes of each.
const ENTRIES: [(&[u8], &[u8], &[u8], Outcome); 11] = [
    (V1, b" -48 0000000000000080", ONE, WRONG_BOUNDS),
    (V1, b" -50 0000000000000002", ONE, WRONG_BEST),
    (V1, b" -00 0000000000000080", ONE, BAD_LINE),
    (
        V1,
        b" -50 0000000000000080",
        b"\nEND 000002\n",
        Outcome::Fault(BookFault::Count),
    ),
    (DISCS, b" -50 -50 0000000000000080", ONE, WRONG_BOUNDS),
    (DISCS, b" -49 -49 0000000000000080", ONE, Outcome::Good(1)),
    (WINNER, b" -64 -40 0000000000000000", ONE, Outcome::Good(1)),
    (WINNER, b" -48 +64 0000000000000000", ONE, WRONG_BOUNDS),
    (WINNER, b" -40 -64 0000000000000000", ONE, BAD_LINE),
    (WINNER, b" -64 -40 0000000000000080", ONE, BAD_LINE),
    (WINNER, b" -50 -50 0000000000000000", ONE, WRONG_BEST),
];

const V1: &[u8] = b"OBOOK1\n";

const WINNER: &[u8] = b"OBOOK2 W\n";

const DISCS: &[u8] = b"OBOOK2 D\n";

const WRONG_BOUNDS: Outcome = Outcome::Wrong(Wrong::Entry(1, Cause::Bounds));

const WRONG_BEST: Outcome = Outcome::Wrong(Wrong::Entry(1, Cause::Best));

const BAD_LINE: Outcome = Outcome::Fault(BookFault::Line(1));

#[test]
fn texts_of_both_versions_are_judged(rt: HostRuntime) {
    for (bytes, outcome) in TEXTS {
        assert!(rt; judged(rt.alloc(), bytes) == outcome);
    }
    assert!(rt; EMPTY_1.len() == 18 && BOOK_1.len() == 104);
    assert!(rt; EMPTY_2.len() == 20 && BOOK_2.len() == 110);
}

#[test]
fn entries_of_both_versions_are_judged(rt: HostRuntime) -> Result<(), Fail> {
    for (header, bounds, end, outcome) in ENTRIES {
        let bytes = text(rt.alloc(), header, bounds, end)?;
        assert!(rt; judged(rt.alloc(), bytes.as_slice()) == outcome);
    }
    Ok(())
}

fn with_byte(alloc: Global, bytes: &[u8], place: usize) -> Result<Vec<u8>, AllocError> {
    let mut changed = bytes.to_vec(alloc)?;
    if let Some(byte) = changed.get_mut(place) {
        *byte = b'~';
    }
    Ok(changed)
}

// Each cut length gives fault 5; one replaced byte gives the fault of its line.
fn is_refused_everywhere(
    alloc: Global,
    book: &[u8],
    header: usize,
    line: usize,
) -> Result<bool, AllocError> {
    for place in 0..book.len() {
        if judged(alloc, front(book, place)) != Outcome::Fault(BookFault::CutShort) {
            return Ok(false);
        }
        let changed = with_byte(alloc, book, place)?;
        let wanted = if place < header {
            BookFault::Header
        } else if place < line {
            BookFault::Line(1)
        } else {
            BookFault::Line(2)
        };
        if judged(alloc, changed.as_slice()) != Outcome::Fault(wanted) {
            return Ok(false);
        }
    }
    Ok(true)
}

#[test]
fn each_cut_and_each_wrong_byte_is_refused(rt: HostRuntime) -> Result<(), Fail> {
    assert!(rt; is_refused_everywhere(rt.alloc(), BOOK_1, 7, 93)?);
    assert!(rt; is_refused_everywhere(rt.alloc(), BOOK_2, 9, 99)?);
    Ok(())
}

#[test]
fn a_text_is_checked_without_memory_as_it_is_read(rt: HostRuntime) -> Result<(), Fail> {
    let alloc = rt.alloc();
    for (bytes, judged) in [
        (BOTH, Ok(())),
        (EMPTY_1, Ok(())),
        (EMPTY_2, Ok(())),
        (WRONG_ORDER, Err(BookFault::Order(2))),
        (TWICE, Err(BookFault::Order(2))),
    ] {
        assert!(rt; check_text(bytes) == judged);
    }
    for len in 0..BOTH.len() {
        assert!(rt; is_checked_as_read(alloc, &BOTH[..len]));
    }
    let mut bytes = BOTH.to_vec(alloc)?;
    for place in 0..BOTH.len() {
        bytes[place] = b'+';
        assert!(rt; is_checked_as_read(alloc, bytes.as_slice()));
        bytes[place] = BOTH[place];
    }
    Ok(())
}
