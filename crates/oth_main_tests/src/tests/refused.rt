//! Out of memory. Each of these tests holds whichever one of its requests for memory is refused; `hostile/refusals.py`
//! runs each of them once for each request, thread starts among them.

use super::books::{BOOK_OF_A, BOOK_OF_TWO, EMPTY_BOOK, TWO_LINES, add};
use super::reasons::told;
use super::{NO_FAILURE, by_two_workers, unseen};
use oth_main::{Errors, Reason, RunFault, book_verify};
use oth_rules::Scoring;
use oth_text::fakes::ByteSink;

// What is told where no book can be made.
const WANTING: [&[u8]; 2] = [b"book error 7\n", b"book wrong 4\n"];

#[test]
fn a_file_is_verified_or_memory_is_wanting(rt: HostRuntime) {
    let mut writer = ByteSink::<64>::new(NO_FAILURE);
    let mut errors = Errors::new(ByteSink::<64>::new(NO_FAILURE), false);
    let status = book_verify(
        &rt,
        rt.alloc(),
        BOOK_OF_A,
        &mut writer,
        &mut errors,
        &unseen(),
    );
    if status == 0 {
        assert!(rt; writer.taken() == b"book ok 1\n".as_slice() && errors.sink.taken().is_empty());
        return;
    }
    assert!(rt; status == 3 && writer.taken().is_empty());
    assert!(rt; WANTING.contains(&errors.sink.taken()));
}

// Where the addition of a line is refused, the line is told.
const REFUSED: [&[u8]; 2] = [b"line 1: book error 1\n", b"line 2: book error 1\n"];

#[test]
fn an_addition_writes_the_whole_book_or_none(rt: HostRuntime) {
    let asked = by_two_workers(Scoring::Winner);
    let done = add(&rt, EMPTY_BOOK, TWO_LINES, NO_FAILURE, NO_FAILURE, &asked);
    if done.status == 0 {
        assert!(rt; done.writer.taken() == BOOK_OF_TWO && done.errors.taken().is_empty());
        return;
    }
    let told = done.errors.taken();
    assert!(rt; done.status == 3 && done.writer.taken().is_empty());
    assert!(rt; WANTING.contains(&told) || REFUSED.contains(&told));
}

#[test]
fn a_reason_is_told_whole_or_not_at_all(rt: HostRuntime) {
    let reason = Some(Reason::Run(RunFault::Workers));
    let done = told(rt.alloc(), reason, true, NO_FAILURE, "");
    let words = b"the workers must be 1 to 16\n".as_slice();
    assert!(rt; done.taken().is_empty() || done.taken() == words);
}
