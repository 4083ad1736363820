//! The worked books: A has value -50 under `Winner` and -49 under `Discs`, its best move is h1. C has value 64, its
//! best moves are a1 and h1. The first two images have A as canonical board.

mod full;
mod knowing;
mod refused;
mod texts;

ghost use Rattle.std.specs.Prelude.{◌≡◌, ◌≤◌, IfSome};
ghost use Rattle.oth_rules.specs.Position.{empty_count};

use oth_book::{AddError, Added, Book, WriteFault, read_claims, verify, write};
use oth_device::fakes::ByteSink;
use oth_rules::samples::board;
use oth_rules::{Board, Scoring};
use oth_search::{Answer, Interval, Kind, NoCells, Solved, solve_alone};
use std::process::Abort;

// Each board by its own and opposing discs.
const A: [u64; 2] = [0x8, 0xffff_ffff_ffff_ff74];

const FIRST_IMAGE: [u64; 2] = [0x10, 0xffff_ffff_ffff_ff2e];

const SECOND_IMAGE: [u64; 2] = [0x1000_0000_0000_0000, 0x2eff_ffff_ffff_ffff];

const C: [u64; 2] = [0xffff_ffff_ffff_ff3c, 0x42];

const EMPTY_1: &[u8] = b"OBOOK1\nEND 000000\n";

const EMPTY_2: &[u8] = b"OBOOK2 W\nEND 000000\n";

const CELLS_OF_A: &[u8] = b"--OXOOO-OOOOOOOOOOOOOOOOOOOOOOOOOOOOOOOOOOOOOOOOOOOOOOOOOOOOOOOO";

const BOOK_1: &[u8] =
    b"OBOOK1\n--OXOOO-OOOOOOOOOOOOOOOOOOOOOOOOOOOOOOOOOOOOOOOOOOOOOOOOOOOOOOOO -50 0000000000000080\nEND 000001\n";

const BOOK_2: &[u8] =
    b"OBOOK2 W\n--OXOOO-OOOOOOOOOOOOOOOOOOOOOOOOOOOOOOOOOOOOOOOOOOOOOOOOOOOOOOOO -50 -50 0000000000000080\n\
      END 000001\n";

const BOTH: &[u8] =
    b"OBOOK2 W\n--OXOOO-OOOOOOOOOOOOOOOOOOOOOOOOOOOOOOOOOOOOOOOOOOOOOOOOOOOOOOOO -50 -50 0000000000000080\n\
      XXXXXXXXXXXXXXXXXXXXXXXXXXXXXXXXXXXXXXXXXXXXXXXXXXXXXXXX-OXXXXO- +64 +64 8100000000000000\nEND 000002\n";

fn front(bytes: &[u8], len: usize) -> &[u8] {
    if len <= bytes.len() {
        &bytes[..len]
    } else {
        bytes
    }
}

fn answer(words: [u64; 2], scoring: Scoring) -> Option<Answer>
    ensures { IfSome result (λ a. empty_count a.board ≤ 30) }
{
    solve_alone(&board(words)?, scoring).ok()
}

// Score and best moves.
fn found(book: &Book, words: [u64; 2]) -> Option<(i8, u64)> {
    let answer = book.find(&board(words)?)?;
    if answer.kind != Kind::Move || answer.board.own() != words[0] {
        return None;
    }
    Some((answer.score, answer.best))
}

fn bounds(book: &Book, words: [u64; 2]) -> Option<(i8, i8)> {
    let solved = book.find_bounds(&board(words)?)?;
    Some((solved.interval.lower, solved.interval.upper))
}

fn solved(words: [u64; 2], lower: i8, upper: i8, scoring: Scoring) -> Option<Solved> {
    Solved::by_search(&board(words)?, -65, 65, &mut NoCells, scoring).widen(lower, upper)
}

fn add(book: &mut Book, words: [u64; 2], scoring: Scoring) -> Option<Result<Added, AddError>> {
    Some(book.add(&answer(words, scoring)?))
}

fn add_bounds(book: &mut Book, lower: i8, upper: i8) -> Option<Result<Added, AddError>> {
    Some(book.add_bounds(&solved(A, lower, upper, Scoring::Winner)?))
}

fn book(rt: &HostRuntime, bytes: &[u8]) -> Option<Book> {
    verify(rt.alloc(), read_claims(rt.alloc(), bytes).ok()?).ok()
}

// The book has this score and these best moves of the board.
fn check_found(rt: &impl Abort, book: &Book, words: [u64; 2], known: Option<(i8, u64)>) {
    assert!(rt; found(book, words) == known);
}

// The book has these bounds of the board.
fn check_bounds(rt: &impl Abort, book: &Book, words: [u64; 2], known: Option<(i8, i8)>) {
    assert!(rt; bounds(book, words) == known);
}

// What is said where the board's answer is added to the book.
fn check_added(
    rt: &impl Abort,
    book: &mut Book,
    words: [u64; 2],
    scoring: Scoring,
    said: Result<Added, AddError>,
) {
    assert!(rt; add(book, words, scoring) == Some(said));
}

// What is said where these bounds of A are added to the book.
fn check_added_bounds(
    rt: &impl Abort,
    book: &mut Book,
    lower: i8,
    upper: i8,
    said: Result<Added, AddError>,
) {
    assert!(rt; add_bounds(book, lower, upper) == Some(said));
}

fn is_written(book: &Book, expected: &[u8]) -> bool {
    let mut sink = ByteSink::<256>::new(256);
    write(book, &mut sink).is_ok() && sink.taken() == expected
}

#[test]
fn answers_are_added_and_found(rt: HostRuntime) {
    let mut book = book(&rt, BOOK_1).expect(&rt, "the book of A");
    check_found(&rt, &book, A, Some((-50, 0x80)));
    check_found(&rt, &book, FIRST_IMAGE, Some((-50, 1)));
    check_found(&rt, &book, SECOND_IMAGE, Some((-50, 0x0100_0000_0000_0000)));
    check_found(&rt, &book, C, None);
    assert!(rt; is_written(&book, BOOK_2));
    check_added(
        &rt,
        &mut book,
        FIRST_IMAGE,
        Scoring::Winner,
        Ok(Added::Present),
    );
    check_added(&rt, &mut book, A, Scoring::Discs, Err(AddError::Scoring));
    check_added(&rt, &mut book, C, Scoring::Winner, Ok(Added::New));
    check_added(&rt, &mut book, C, Scoring::Winner, Ok(Added::Present));
    check_found(&rt, &book, C, Some((64, 0x81)));
    assert!(rt; is_written(&book, BOTH));
}

// Bounds of A that are added to a book one after the other, what each addition says, and the bounds that the book has
// of A then.
const CLOSER: [(i8, i8, Result<Added, AddError>, Option<(i8, i8)>); 6] = [
    (-50, -50, Err(AddError::OneNumber), None),
    (-64, -40, Ok(Added::New), Some((-64, -40))),
    (-60, 64, Ok(Added::Sharper), Some((-60, -40))),
    (-60, 64, Ok(Added::Present), Some((-60, -40))),
    (-50, 64, Ok(Added::Sharper), Some((-50, -40))),
    (-64, -50, Err(AddError::OneNumber), Some((-50, -40))),
];

#[test]
fn bounds_are_kept_and_made_closer(rt: HostRuntime) {
    let mut book = Book::new(rt.alloc(), Scoring::Winner);
    assert!(rt; is_written(&book, EMPTY_2));
    for (lower, upper, said, known) in CLOSER {
        check_added_bounds(&rt, &mut book, lower, upper, said);
        check_bounds(&rt, &book, A, known);
        check_bounds(&rt, &book, FIRST_IMAGE, known);
        check_found(&rt, &book, A, None);
    }
    check_bounds(&rt, &book, C, None);
    check_added(&rt, &mut book, A, Scoring::Winner, Ok(Added::Sharper));
    check_found(&rt, &book, A, Some((-50, 0x80)));
    assert!(rt; is_written(&book, BOOK_2));
}

#[test]
fn refuses_31_empties(rt: HostRuntime) {
    let mut book = Book::new(rt.alloc(), Scoring::Discs);
    let (Ok(many), Some(bounds)) = (Board::of(0x1_ffff_ffff, 0), Interval::of(-64, 64)) else {
        panic!(rt; "no board")
    };
    let unknown = Solved::unknown(many, Scoring::Discs);
    assert!(rt; bounds.upper == 64);
    assert!(rt; book.add_bounds(&unknown) == Err(AddError::Empties));
    assert!(rt; book.scoring() == Scoring::Discs);
    let solved = Solved::unknown(many, Scoring::Winner);
    assert!(rt; book.add_bounds(&solved) == Err(AddError::Scoring));
}

#[test]
fn a_writer_that_fails_has_the_first_bytes(rt: HostRuntime) {
    let book = book(&rt, BOOK_1).expect(&rt, "the book of A");
    for count in 0..110usize {
        let mut sink = ByteSink::<128>::new(count);
        assert!(rt; write(&book, &mut sink) == Err(WriteFault));
        assert!(rt; sink.taken() == front(BOOK_2, count));
        assert!(rt; sink.calls() == count as u64 + 1);
    }
}
