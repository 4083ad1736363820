//! The test of each entry of a text.

ghost use Rattle.std.specs.Prelude.{◌≡◌, ◌≤◌, ◌<◌, ◌≤ℤ◌, ℕ, ◌↔◌, IsTrue, IfOk, IfErr, OnOk, length, All};
ghost use Rattle.oth_rules.specs.Position.{empty_count};
ghost use Rattle.oth_search.specs.Bounds.Interval.{IsInterval};
ghost use Rattle.oth_book.specs.declared.version.Version.{Version as AnyVersion};
ghost use Rattle.oth_book.specs.Text.{AreClaims};
ghost use Rattle.oth_book.specs.True.{IsTrueClaim, IsExact, IsCause, IsWrong, HoldsValue};
ghost use Rattle.oth_book.specs.Book.{IsTrueBook};

use crate::book::{Book, has_few_empties, is_exact};
use crate::claim::Claim;
use crate::claims::Claims;
use crate::wrong::{Cause, Wrong};
use oth_rules::Scoring;
use oth_search::{Answer, Interval, NoCells, WithLocal, search, solve_with};
use std::alloc::Global;

/// Tests each claim anew, by a search of its board. Returns the book of the claims where all are true, else the first
/// that isn't, or out of memory. The claims are given up. Memory for the book is asked for once, before any claim is
/// tested, and not where there are no claims. Refused memory for anything else costs time alone.
pub fn verify(alloc: Global, claims: Claims) -> Result<Book, Wrong>
    ensures same { IfOk result (λ book. book ≡ claims) }
    ensures holds { IfOk result (λ book. IsTrueBook book) }
    ensures wrong { IfErr result (λ w. IsWrong claims w) }
{
    verify_knowing(alloc, claims, |_: &[Claim]| None)
}

/// As [`verify`], where answers may be known. Before each claim is tested, `known` is called with the claims that are
/// left, and may return an answer. An answer of the first claim's board under the claims' scoring decides that claim;
/// any other is ignored, and the board is searched. No answer can be untrue, so `known` affects speed only.
pub fn verify_knowing<F: FnMut(&[Claim]) -> Option<Answer>>(
    alloc: Global,
    claims: Claims,
    known: F,
) -> Result<Book, Wrong>
    requires { F.IsAlwaysCallable known }
    ensures same { IfOk result (λ book. book ≡ claims) }
    ensures holds { IfOk result (λ book. IsTrueBook book) }
    ensures wrong { IfErr result (λ w. IsWrong claims w) }
{
    let scoring = claims.scoring();
    let entries = verified(alloc, claims.entries(), scoring, known)?;
    Ok(Book::of(scoring, entries))
}

// The claims, if all are true, or the first that isn't.
fn verified<F: FnMut(&[Claim]) -> Option<Answer>>(
    alloc: Global,
    claims: &[Claim],
    scoring: Scoring,
    mut known: F,
) -> Result<Vec<Claim>, Wrong>
    requires claims { (v : AnyVersion) × AreClaims v claims.now }
    requires known { F.IsAlwaysCallable known }
    ensures same { IfOk result (λ entries. entries.items ≡ claims.now) }
    ensures each { IfOk result (λ entries. All (IsTrueClaim scoring) entries.items) }
    ensures wrong { IfErr result (λ w. IsWrong (record { scoring = scoring; entries = claims.now }) w) }
{
    let Ok(mut entries) = Vec::with_capacity(alloc, claims.len()) else {
        return Err(Wrong::Memory);
    };
    for claim in claims {
        let answer = known(&claims[entries.len()..]);
        if let Err(cause) = check(alloc, claim, scoring, answer) {
            return Err(Wrong::Entry(entries.len() as u32 + 1, cause));
        }
        entries.push(*claim).unwrap();
    }
    Ok(entries)
}

// Tests the claim, by the answer if it is that of the claim's board under the scoring, else by a search. Returns the
// first cause for which the claim isn't true, if there is one.
fn check(
    alloc: Global,
    claim: &Claim,
    scoring: Scoring,
    answer: Option<Answer>,
) -> Result<(), Cause>
    requires { IsInterval claim.now.lower claim.now.upper }
    ensures ok { OnOk result (IsTrueClaim scoring claim.now) }
    ensures cause { IfErr result (λ why. IsCause scoring claim.now why) }
{
    if !has_few_empties(&claim.board) {
        return Err(Cause::Empties);
    }
    if let Some(answer) = answer {
        if answer.board == claim.board && answer.scoring == scoring {
            return check_by(claim, &answer);
        }
    }
    if is_exact(claim) {
        return check_exact(alloc, claim, scoring);
    }
    if !encloses(claim, scoring) {
        return Err(Cause::Bounds);
    }
    Ok(())
}

// As `check`, by the answer of the claim's board.
fn check_by(claim: &Claim, answer: &Answer) -> Result<(), Cause>
    requires few { empty_count claim.now.board ≤ 30 }
    requires board { answer.now.board ≡ claim.now.board }
    ensures ok { OnOk result (IsTrueClaim answer.now.scoring claim.now) }
    ensures cause { IfErr result (λ why. IsCause answer.now.scoring claim.now why) }
{
    if answer.score < claim.lower || claim.upper < answer.score {
        return Err(Cause::Bounds);
    }
    if is_exact(claim) && answer.best != claim.best {
        return Err(Cause::Best);
    }
    Ok(())
}

// As `check`, of a claim whose bounds are one number, by a search for the value and all best moves.
fn check_exact(alloc: Global, claim: &Claim, scoring: Scoring) -> Result<(), Cause>
    requires few { empty_count claim.now.board ≤ 30 }
    ensures ok { OnOk result (IsTrueClaim scoring claim.now) }
    ensures cause { IfErr result (λ why. IsCause scoring claim.now why) }
{
    let mut cells = WithLocal::alone(alloc, claim.board.empties());
    let answer = solve_with(claim.board, &mut cells, scoring);
    check_by(claim, &answer)
}

// Whether the bounds enclose the value, by one search with the window just round them.
fn encloses(claim: &Claim, scoring: Scoring) -> bool
    requires { IsInterval claim.now.lower claim.now.upper }
    ensures { IsTrue result ↔ HoldsValue scoring claim.now }
{
    let found = search(
        &claim.board,
        claim.lower - 1,
        claim.upper + 1,
        &mut NoCells,
        scoring,
    );
    is_within(found, claim)
}

// Whether what was found lies within the claim.
fn is_within(found: Interval, claim: &Claim) -> bool
    ensures { IsTrue result ↔ ((claim.now.lower ≤ℤ found.lower) × (found.upper ≤ℤ claim.now.upper)) }
{
    claim.lower <= found.lower && found.upper <= claim.upper
}
