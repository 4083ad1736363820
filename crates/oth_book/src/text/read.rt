//! Reading a book's text.

ghost use Rattle.std.specs.Prelude.{◌≡◌, ◌≢◌, ◌++◌, ◌<◌, ◌≤◌, ◌↔◌, IsTrue, OnOk, ◌+◌, ◌-◌, ℕ, [], List, IfOk, IfErr};
ghost use Rattle.std.specs.Prelude.{IfSome, IfNone, OnSome, length, drop, ◌==◌};
ghost use Rattle.oth_book.specs.Text.{end_line, IsBookText};
ghost use Rattle.oth_book.specs.Fault.{IsBookFault, IsLineFault, IsHeaderFault, IsNext, IsEntryAt, IsAboveLast, begins};
ghost use Rattle.oth_book.specs.Fault.{last_of, stand, end_stand, entry_stand};
ghost use Rattle.oth_book.specs.declared.claim.Claim.{Claim as AnyClaim};
ghost use Rattle.oth_book.specs.declared.fault.BookFault.TheVariants as faults;
ghost use Rattle.oth_book.specs.Shape.{fit_of, is_cell, shape_len};

use super::line::{read_end, read_entry};
use super::shape::{Fit, Shape, fit_of, is_cell, line_len};
use crate::claim::Claim;
use crate::fault::BookFault;
use crate::order::compare;
use crate::version::Version;
use oth_rules::Scoring;
use std::alloc::Global;
use std::cmp::Ordering;

/// The most entries of a book.
pub const MAX_ENTRIES: usize = 100_000;

/// The entries that the lines after a header claim.
pub fn read_entries(alloc: Global, bytes: &[u8], version: Version) -> Result<Vec<Claim>, BookFault>
    requires { fit_of (Shape.Header version) bytes.now ≡ Fit.Whole }
    ensures text { IfOk result (λ claims. IsBookText version claims.items bytes.now) }
    ensures fault { IfErr result (λ f. IsBookFault bytes.now f) }
{
    let mut rest = after_line(bytes, Shape::Header(version));
    let mut claims = Vec::new(alloc);
    while let Some(claim) = read_line(rest, version, ReadSoFar::after(claims.as_slice()))? {
        if claims.push(claim).is_err() {
            return Err(BookFault::Memory);
        }
        rest = after_line(rest, Shape::Entry(version));
    }
    Ok(claims)
}

/// Tests whether the lines after a header are a book's, and returns their one fault where they aren't. It takes no
/// memory.
pub fn check_entries(bytes: &[u8], version: Version) -> Result<(), BookFault>
    requires { fit_of (Shape.Header version) bytes.now ≡ Fit.Whole }
    ensures text { OnOk result ((claims : List AnyClaim) × IsBookText version claims bytes.now) }
    ensures fault { IfErr result (λ f. IsBookFault bytes.now f) }
    ensures memory { IfErr result (λ f. f ≢ faults.Memory) }
{
    let mut rest = after_line(bytes, Shape::Header(version));
    let mut count = 0;
    let mut last = None;
    while let Some(claim) = read_line(rest, version, ReadSoFar { count, last })? {
        count += 1;
        last = Some(claim);
        rest = after_line(rest, Shape::Entry(version));
    }
    Ok(())
}

// How far the lines of entries were read.
#[derive(Clone, Copy)]
struct ReadSoFar {
    // The number of entries.
    count: usize,
    // The last of them.
    last: Option<Claim>,
}

impl ReadSoFar {
    // The place after these entries.
    fn after(before: &[Claim]) -> Self
        ensures count { result.count ≡ length before.now }
        ensures last { result.last ≡ last_of before.now }
    {
        ReadSoFar {
            count: before.len(),
            last: before.last().copied(),
        }
    }
}

// The bytes behind a first line of this shape.
fn after_line(rest: &[u8], shape: Shape) -> &[u8]
    requires { shape_len shape ≤ length rest.now }
    ensures { result.now ≡ drop (shape_len shape) rest.now }
{
    &rest[line_len(shape)..]
}

/// The version of the header at the front.
pub fn read_header(bytes: &[u8]) -> Result<Version, BookFault>
    ensures ok { IfOk result (λ version. fit_of (Shape.Header version) bytes.now ≡ Fit.Whole) }
    ensures fault { IfErr result (λ f. IsHeaderFault bytes.now f) }
{
    let one = fit_of(Shape::Header(Version::One), bytes);
    if one == Fit::Whole {
        return Ok(Version::One);
    }
    let winner = fit_of(Shape::Header(Version::Two(Scoring::Winner)), bytes);
    if winner == Fit::Whole {
        return Ok(Version::Two(Scoring::Winner));
    }
    let discs = fit_of(Shape::Header(Version::Two(Scoring::Discs)), bytes);
    if discs == Fit::Whole {
        return Ok(Version::Two(Scoring::Discs));
    }
    if one == Fit::Cut || winner == Fit::Cut || discs == Fit::Cut {
        return Err(BookFault::CutShort);
    }
    Err(BookFault::Header)
}

// The next entry after those before, or None where the text ends there.
#[tactic(auto, unfolding(crate::specs::Fault::stand))]
fn read_line(rest: &[u8], version: Version, place: ReadSoFar) -> Result<Option<Claim>, BookFault>
    requires { place.count ≤ MAX_ENTRIES }
    ensures entry { IfOk result (λ next. IfSome next (IsNext version place.count place.last rest.now)) }
    ensures long { IfOk result (λ next. OnSome next (shape_len (Shape.Entry version) ≤ length rest.now)) }
    ensures end { IfOk result (λ next. IfNone next (rest.now ≡ end_line place.count)) }
    ensures memory { IfErr result (λ f. f ≢ faults.Memory) }
    ensures fault { IfErr result (λ f. IsLineFault version place.count place.last rest.now f) }
{
    if begins_end_line(rest) {
        read_end_line(rest, version, place)?;
        return Ok(None);
    }
    if place.count == MAX_ENTRIES && begins_entry_line(rest) {
        return Err(BookFault::Count);
    }
    let claim = read_entry_line(rest, version, place)?;
    Ok(Some(claim))
}

// Whether only an end line can stand here.
fn begins_end_line(rest: &[u8]) -> bool
    ensures { result ≡ begins (λ b. b == 69) rest.now }
{
    match rest {
        [first, ..] => *first == b'E',
        [] => false,
    }
}

// Whether only an entry line can stand here.
fn begins_entry_line(rest: &[u8]) -> bool
    ensures { result ≡ begins is_cell rest.now }
{
    match rest {
        [first, ..] => is_cell(*first),
        [] => false,
    }
}

// Reads the end line, behind which nothing may stand.
fn read_end_line(rest: &[u8], version: Version, place: ReadSoFar) -> Result<(), BookFault>
    requires stand { end_stand rest.now ≡ stand version place.count rest.now }
    requires few { place.count ≤ MAX_ENTRIES }
    ensures ok { OnOk result (rest.now ≡ end_line place.count) }
    ensures memory { IfErr result (λ f. f ≢ faults.Memory) }
    ensures fault { IfErr result (λ f. IsLineFault version place.count place.last rest.now f) }
{
    match fit_of(Shape::End, rest) {
        Fit::Cut => return Err(BookFault::CutShort),
        Fit::Misplaced => return Err(BookFault::Line(place.count as u32 + 1)),
        Fit::Whole => {}
    }
    if read_end(rest) != place.count as u64 {
        return Err(BookFault::Count);
    }
    if rest.len() > 11 {
        return Err(BookFault::Trailing);
    }
    Ok(())
}

// The entry of the next line, which must stand above the last one.
fn read_entry_line(rest: &[u8], version: Version, place: ReadSoFar) -> Result<Claim, BookFault>
    requires stand { entry_stand version rest.now ≡ stand version place.count rest.now }
    requires few { place.count ≤ MAX_ENTRIES }
    ensures entry { IfOk result (λ c. IsEntryAt version rest.now c) }
    ensures above { IfOk result (λ c. IsAboveLast place.last c) }
    ensures memory { IfErr result (λ f. f ≢ faults.Memory) }
    ensures fault { IfErr result (λ f. IsLineFault version place.count place.last rest.now f) }
{
    let line = place.count as u32 + 1;
    match fit_of(Shape::Entry(version), rest) {
        Fit::Cut => return Err(BookFault::CutShort),
        Fit::Misplaced => return Err(BookFault::Line(line)),
        Fit::Whole => {}
    }
    let Some(claim) = read_entry(rest, version) else {
        return Err(BookFault::Line(line));
    };
    if !is_above_last(place.last, &claim) {
        return Err(BookFault::Order(line));
    }
    Ok(claim)
}

// Whether the entry stands above the last one before it.
fn is_above_last(last: Option<Claim>, claim: &Claim) -> bool
    ensures { IsTrue result ↔ IsAboveLast last claim.now }
{
    match last {
        Some(last) => compare(&last.board, &claim.board) == Ordering::Less,
        None => true,
    }
}
