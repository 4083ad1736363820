//! The entry lines and the end line of a book.

ghost use Rattle.std.specs.Prelude.{◌≡◌, ◌≢◌, ◌++◌, ◌<◌, ◌≤◌, ◌^◌, ◌<ℤ◌, ℕ, ℤ, [], List, ◌↔◌, IsTrue, IfSome, IfNone};
ghost use Rattle.std.specs.Prelude.{drop, take, length, unsigned_abs, ◌+◌, neg_ℤ, pos, if◌then◌else◌};
ghost use Rattle.oth_book.specs.Shape.{IsWhole, AreBoundsBytes, IsBoundBytes};
ghost use Rattle.oth_book.specs.Text.{entry_line, end_line, signed, bounds_text, AreBounds};
ghost use Rattle.oth_book.specs.Fault.{IsEntryAt};
ghost use Rattle.oth_rules.specs.Symmetry.{canonical};
ghost use Rattle.oth_book.specs.declared.claim.Claim.{Claim};

use super::cells::read_cells;
use super::numeral::read_numeral;
use super::shape::{Shape, bounds_len};
use crate::claim::Claim;
use crate::version::Version;
use oth_rules::Board;
use oth_search::Interval;

/// The entry of a line that is allowed by place, or None where it is no entry's.
pub fn read_entry(line: &[u8], version: Version) -> Option<Claim>
    requires { IsWhole (Shape.Entry version) line.now }
    ensures some { IfSome result (IsEntryAt version line.now) }
    ensures none { IfNone result ((c : Claim) → IsEntryAt version line.now c → ⊥) }
{
    let len = bounds_len(version);
    let board = read_cells(part(line, 0, 64));
    let Some(bounds) = read_bounds(part(line, 65, len), version) else {
        return None;
    };
    let best = read_numeral(part(line, 66 + len, 16), 16);
    if !is_entry(&board, bounds, best) {
        return None;
    }
    Some(Claim {
        board,
        lower: bounds.lower,
        upper: bounds.upper,
        best,
    })
}

// Whether these are an entry's: a canonical board, and no best moves where the bounds differ.
fn is_entry(board: &Board, bounds: Interval, best: u64) -> bool
    ensures { IsTrue result ↔ ((canonical board.now ≡ board.now) × (bounds.lower <ℤ bounds.upper → best ≡ 0)) }
{
    is_canonical(board) && (bounds.is_exact() || best == 0)
}

// Whether the board is its own canonical image.
fn is_canonical(board: &Board) -> bool
    ensures { IsTrue result ↔ (canonical board.now ≡ board.now) }
{
    let (image, _) = board.canonical();
    image == *board
}

// The bounds that the bytes say, or None where they aren't bounds in order.
fn read_bounds(text: &[u8], version: Version) -> Option<Interval>
    requires { AreBoundsBytes version text.now }
    ensures said { IfSome result (λ b. AreBounds version b.lower b.upper) }
    ensures text { IfSome result (λ b. text.now ≡ bounds_text version b.lower b.upper) }
    ensures none { IfNone result ((lower upper : ℤ) → AreBounds version lower upper
        → text.now ≢ bounds_text version lower upper) }
{
    match version {
        Version::One => {
            let Some(score) = read_bound(text) else {
                return None;
            };
            Interval::of(score, score)
        }
        Version::Two(_) => {
            let Some(lower) = read_bound(part(text, 0, 3)) else {
                return None;
            };
            let Some(upper) = read_bound(part(text, 4, 3)) else {
                return None;
            };
            Interval::of(lower, upper)
        }
    }
}

// The `len` bytes of the line that begin at place `from`.
fn part(line: &[u8], from: usize, len: usize) -> &[u8]
    requires { from + len ≤ length line.now }
    ensures { result.now ≡ take len (drop from line.now) }
{
    &line[from..from + len]
}

// A bound of a sign and two digits, or None where it is `-00`.
fn read_bound(text: &[u8]) -> Option<i8>
    requires { IsBoundBytes text.now }
    ensures text { IfSome result (λ z. text.now ≡ signed z) }
    ensures small { IfSome result (λ z. unsigned_abs z < 100) }
    ensures none { IfNone result ((z : ℤ) → unsigned_abs z < 100 → text.now ≢ signed z) }
{
    let number = read_numeral(part(text, 1, 2), 10);
    let is_negative = text[0] == b'-';
    if is_negative && number == 0 {
        return None;
    }
    Some(bound_of(is_negative, number))
}

// The number with its sign.
fn bound_of(is_negative: bool, number: u64) -> i8
    requires { number < 100 }
    ensures { result ≡ (if is_negative then neg_ℤ (pos number) else pos number) }
{
    let number = number as i8;
    if is_negative { -number } else { number }
}

/// The number of a whole end line.
pub fn read_end(line: &[u8]) -> u64
    requires { IsWhole Shape.End line.now }
    ensures line { line.now ≡ end_line result ++ drop 11 line.now }
    ensures bound { result < 1000000 }
{
    read_numeral(part(line, 4, 6), 10)
}
