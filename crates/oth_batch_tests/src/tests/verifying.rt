//! A book is verified by several workers as by one alone. It has six boards of games, the fourth of 12 empty squares
//! and the others of 10; another solver gave its text.

use oth_batch::verify_by;
use oth_book::{Cause, Wrong, read_claims};
use oth_pool::Open;
use std::alloc::{AllocError, Global};
use std::sync::Wait;
use std::test::Fail;
use std::thread::Threads;

pub(super) const SIX: &[u8] =
    b"OBOOK2 W\n----XXXX-O--OO-XOOOOOOOXXOOOOOOXXXXXOOXXXXXXOXXXXXXXOOXXXOOOOO-- +56 +56 0000000000004100\n\
      ---X-X--OOXXXX-O-XOXXXOOXOOXOXOO-OXOOOOOOOXXOOOOOOOOOOOOO-OOOOOO -20 -20 0000000000000001\n\
      -XXXXX-XXXXXXXXXXXXXXXXXXXXOXX-XXXXXXOO-XOOXXXO-X-OX-OOX--OOOO-O -16 -16 0010000000000000\n\
      O-OXXO--XOXXXX----XXO-XOO-XXXOXO-OXXOX-OXXXOXXXXOXXOOOXXO-XOOOOO -28 -28 0000004000000000\n\
      OOXXXXX-OOOOOOOOO-OXXXO-OOXOXOXOOXOXXOXXXXXXXOXX-OOOOOO------OOO -16 -16 0000000000000080\n\
      X-----O-XOOOOOOOXOOOOOOXXOOOOOOOOOXOOOOO-OOOOOOOXOOOOOOO---OOOOO +18 +18 0000010000000088\nEND 000006\n";

// The six boards with bounds: true ones of the first and the third, and of the fourth such as leave its value out.
const BOUNDS: &[u8] =
    b"OBOOK2 W\n----XXXX-O--OO-XOOOOOOOXXOOOOOOXXXXXOOXXXXXXOXXXXXXXOOXXXOOOOO-- +56 +64 0000000000000000\n\
      ---X-X--OOXXXX-O-XOXXXOOXOOXOXOO-OXOOOOOOOXXOOOOOOOOOOOOO-OOOOOO -20 -20 0000000000000001\n\
      -XXXXX-XXXXXXXXXXXXXXXXXXXXOXX-XXXXXXOO-XOOXXXO-X-OX-OOX--OOOO-O -20 -10 0000000000000000\n\
      O-OXXO--XOXXXX----XXO-XOO-XXXOXO-OXXOX-OXXXOXXXXOXXOOOXXO-XOOOOO -64 -30 0000000000000000\n\
      OOXXXXX-OOOOOOOOO-OXXXO-OOXOXOXOOXOXXOXXXXXXXOXX-OOOOOO------OOO -16 -16 0000000000000080\n\
      X-----O-XOOOOOOOXOOOOOOXXOOOOOOOOOXOOOOO-OOOOOOOXOOOOOOO---OOOOO +18 +18 0000000000000000\nEND 000006\n";

// Numbers of workers and of cells.
const MEANS: [(u8, u32); 4] = [(1, 0), (2, 64), (4, 1_024), (16, 1)];

// The place of the last digit of an entry's best moves. It is 0, 1 or 8.
fn last_digit(entry: usize) -> usize {
    97 + 90 * entry.min(5)
}

// The text with entries that say b1 is a best move.
fn wrong_at(alloc: Global, entries: &[usize]) -> Result<Vec<u8>, AllocError> {
    let mut text = SIX.to_vec(alloc)?;
    for entry in entries {
        if let Some(byte) = text.get_mut(last_digit(*entry)) {
            *byte = b'2';
        }
    }
    Ok(text)
}

// Whether this is what is wrong with the text, by each of the means; none where it is a book of six entries.
fn is_told<R: Wait + Threads + Sync + AllocGlobal>(
    rt: &R,
    text: &[u8],
    wrong: Option<Wrong>,
) -> Result<bool, Fail> {
    for (workers, cells) in MEANS {
        let claims = read_claims(rt.alloc(), text)?;
        let is_told = match verify_by(rt, rt.alloc(), claims, workers, cells, &Open) {
            Ok(book) => wrong.is_none() && book.len() == 6,
            Err(found) => wrong == Some(found),
        };
        if !is_told {
            return Ok(false);
        }
    }
    Ok(true)
}

#[test]
fn true_entries_are_a_book(rt: HostRuntime) -> Result<(), Fail> {
    assert!(rt; is_told(&rt, SIX, None)?);
    Ok(())
}

#[test]
fn the_first_wrong_entry_is_named(rt: HostRuntime) -> Result<(), Fail> {
    for entry in [0, 3, 5] {
        let text = wrong_at(rt.alloc(), &[entry, 5])?;
        let wrong = Wrong::Entry(entry as u32 + 1, Cause::Best);
        assert!(rt; is_told(&rt, text.as_slice(), Some(wrong))?);
    }
    Ok(())
}

#[test]
fn bounds_are_verified_too(rt: HostRuntime) -> Result<(), Fail> {
    assert!(rt; is_told(&rt, BOUNDS, Some(Wrong::Entry(4, Cause::Bounds)))?);
    Ok(())
}
