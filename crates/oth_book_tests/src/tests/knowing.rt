//! Claims that are tested by known answers: all of them, those of one board alone, and those under the other scoring.

use super::{A, BOOK_1, BOTH, C, EMPTY_2, answer};
use oth_book::{Book, Cause, Claim, Claims, Wrong, read_claims, verify, verify_knowing};
use oth_rules::Scoring;
use oth_search::{Answer, solve_alone};
use std::alloc::Global;
use std::process::Abort;

// Texts of books, and what is wrong with each.
const TEXTS: [(&[u8], Option<Wrong>); 7] = [
    (EMPTY_2, None),
    (BOOK_1, None),
    (BOTH, None),
    (
        b"OBOOK2 W\n--OXOOO-OOOOOOOOOOOOOOOOOOOOOOOOOOOOOOOOOOOOOOOOOOOOOOOOOOOOOOOO -64 -50 0000000000000000\n\
          XXXXXXXXXXXXXXXXXXXXXXXXXXXXXXXXXXXXXXXXXXXXXXXXXXXXXXXX-OXXXXO- +64 +64 8000000000000000\nEND 000002\n",
        Some(Wrong::Entry(2, Cause::Best)),
    ),
    (
        b"OBOOK2 W\n--OXOOO-OOOOOOOOOOOOOOOOOOOOOOOOOOOOOOOOOOOOOOOOOOOOOOOOOOOOOOOO -49 +64 0000000000000000\n\
          XXXXXXXXXXXXXXXXXXXXXXXXXXXXXXXXXXXXXXXXXXXXXXXXXXXXXXXX-OXXXXO- +64 +64 8000000000000000\nEND 000002\n",
        Some(Wrong::Entry(1, Cause::Bounds)),
    ),
    (
        b"OBOOK2 W\n--OXOOO-OOOOOOOOOOOOOOOOOOOOOOOOOOOOOOOOOOOOOOOOOOOOOOOOOOOOOOOO -64 -51 0000000000000000\n\
          XXXXXXXXXXXXXXXXXXXXXXXXXXXXXXXXXXXXXXXXXXXXXXXXXXXXXXXX-OXXXXO- +64 +64 8100000000000000\nEND 000002\n",
        Some(Wrong::Entry(1, Cause::Bounds)),
    ),
    (
        b"OBOOK2 D\n--OXOOO-OOOOOOOOOOOOOOOOOOOOOOOOOOOOOOOOOOOOOOOOOOOOOOOOOOOOOOOO -49 -49 0000000000000080\n\
          XXXXXXXXXXXXXXXXXXXXXXXXXXXXXXXXXXXXXXXXXXXXXXXXXXXXXXXX-OXXXXO- +63 +63 8100000000000000\nEND 000002\n",
        Some(Wrong::Entry(2, Cause::Bounds)),
    ),
];

fn read(alloc: Global, text: &[u8]) -> Option<Claims> {
    read_claims(alloc, text).ok()
}

// What is wrong with the claims of which no book was made.
fn wrong(judged: Result<Book, Wrong>) -> Option<Wrong> {
    judged.err()
}

// What is wrong with the text where the answer of the board of these words is known; outside, none where the claims or
// the answer are wanting.
fn wrong_knowing(
    alloc: Global,
    text: &[u8],
    words: [u64; 2],
    scoring: Scoring,
) -> Option<Option<Wrong>> {
    let claims = read(alloc, text)?;
    let known = answer(words, scoring)?;
    Some(wrong(verify_knowing(alloc, claims, |_: &[Claim]| Some(known))))
}

fn check_verdict(rt: &(impl AllocGlobal + Abort), text: &[u8], verdict: Option<Wrong>) {
    let claims = read(rt.alloc(), text).expect(rt, "claims");
    assert!(rt; wrong(verify(rt.alloc(), claims)) == verdict);
    for words in [A, C] {
        for scoring in [Scoring::Winner, Scoring::Discs] {
            assert!(rt; wrong_knowing(rt.alloc(), text, words, scoring) == Some(verdict));
        }
    }
}

#[test]
fn each_verdict_is_the_same_whatever_is_known(rt: HostRuntime) {
    for (text, verdict) in TEXTS {
        check_verdict(&rt, text, verdict);
    }
}

// How often whoever knows is asked where these claims are judged.
fn wanted_of(claims: &Claims, verdict: Option<Wrong>) -> usize {
    match verdict {
        Some(Wrong::Entry(entry, _)) => entry as usize,
        _ => claims.entries().len(),
    }
}

fn check_asked(rt: &(impl AllocGlobal + Abort), text: &[u8], verdict: Option<Wrong>) {
    let claims = read(rt.alloc(), text).expect(rt, "claims");
    let wanted = wanted_of(&claims, verdict);
    let scoring = claims.scoring();
    let mut asked = 0usize;
    let judged = verify_knowing(rt.alloc(), claims, |rest: &[Claim]| -> Option<Answer> {
        asked = asked.saturating_add(1);
        solve_alone(&rest.first()?.board, scoring).ok()
    });
    assert!(rt; wrong(judged) == verdict);
    assert!(rt; asked == wanted);
}

#[test]
fn whoever_knows_is_asked_up_to_a_wrong_claim(rt: HostRuntime) {
    for (text, verdict) in TEXTS {
        check_asked(&rt, text, verdict);
    }
}
