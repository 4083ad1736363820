//! The longest book is verified and takes no further board, and a longer one is refused.

use super::super::{NO_FAILURE, by_two_workers, unseen};
use super::add;
use oth_main::{Errors, MOST_BOOK_BYTES, book_verify};
use oth_rules::Scoring;
use oth_text::fakes::ByteSink;
use std::alloc::{AllocError, Global};
use std::test::Fail;

// The squares of the rows 6 to 8 that no line of discs from d1 meets, rising.
const OUT_OF_REACH: [usize; 17] = [
    45, 46, 47, 48, 49, 50, 52, 53, 54, 55, 56, 57, 58, 60, 61, 62, 63,
];

// The longest book: 100,000 boards with a disc of the mover on d1, where nobody can move. All other squares but at most
// 17 are the other side's, so the empty ones count for it: 1 against 63.
fn full_book(alloc: Global) -> Result<Vec<u8>, AllocError> {
    let mut file = Vec::with_capacity(alloc, 9_000_020)?;
    file.extend_from_slice(b"OBOOK2 W\n")?;
    let mut line =
        *b"OOOXOOOOOOOOOOOOOOOOOOOOOOOOOOOOOOOOOOOOOOOOOOOOOOOOOOOOOOOOOOOO -62 -62 0000000000000000\n";
    for number in 0..100_000u32 {
        let mut bit = 1 << 17;
        for square in OUT_OF_REACH {
            bit /= 2;
            if let Some(cell) = line.get_mut(square) {
                *cell = if number & bit == 0 { b'-' } else { b'O' };
            }
        }
        file.extend_from_slice(&line)?;
    }
    file.extend_from_slice(b"END 100000\n")?;
    Ok(file)
}

// A blank line, the first board of that book, and one that it hasn't.
const ONE_TOO_MANY: &[u8] =
    b"\nOOOXOOOOOOOOOOOOOOOOOOOOOOOOOOOOOOOOOOOOOOOOO------O-------O---- X\n\
      --OXOOO-OOOOOOOOOOOOOOOOOOOOOOOOOOOOOOOOOOOOOOOOOOOOOOOOOOOOOOOO X\n";

#[test]
fn a_full_book_is_verified_and_takes_no_more(rt: HostRuntime) -> Result<(), Fail> {
    let file = full_book(rt.alloc())?;
    assert!(rt; file.len() == 9_000_020 && MOST_BOOK_BYTES == file.len() + 1);
    let mut writer = ByteSink::<64>::new(NO_FAILURE);
    let mut errors = Errors::new(ByteSink::<64>::new(NO_FAILURE), false);
    assert!(rt;
        book_verify(
            &rt,
            rt.alloc(),
            file.as_slice(),
            &mut writer,
            &mut errors,
            &unseen()
        ) == 0
    );
    assert!(rt; writer.taken() == b"book ok 100000\n".as_slice() && errors.sink.taken().is_empty());
    let asked = by_two_workers(Scoring::Winner);
    let done = add(
        &rt,
        file.as_slice(),
        ONE_TOO_MANY,
        NO_FAILURE,
        NO_FAILURE,
        &asked,
    );
    assert!(rt; done.status == 3 && done.writer.taken().is_empty());
    assert!(rt; done.errors.taken() == b"line 1: error 1\nline 3: book error 2\n".as_slice());
    Ok(())
}

// The entry past the last one is refused at its first byte.
#[test]
fn a_longer_book_has_too_many_entries(rt: HostRuntime) -> Result<(), Fail> {
    let mut file = full_book(rt.alloc())?;
    file.truncate(9_000_009);
    file.push(b'O')?;
    let mut writer = ByteSink::<64>::new(NO_FAILURE);
    let mut errors = Errors::new(ByteSink::<64>::new(NO_FAILURE), false);
    assert!(rt;
        book_verify(
            &rt,
            rt.alloc(),
            file.as_slice(),
            &mut writer,
            &mut errors,
            &unseen()
        ) == 3
    );
    assert!(rt; writer.taken().is_empty());
    assert!(rt; errors.sink.taken() == b"book error 4\n".as_slice());
    Ok(())
}
