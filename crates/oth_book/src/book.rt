//! The verified book.

ghost use Rattle.std.specs.Prelude.{◌≡◌, ◌≢◌, ◌≤◌, ◌<◌, ◌↔◌, ◌++◌, ◌∷◌, [], ℕ, length, Contains, IsTrue, IsSome};
ghost use Rattle.std.specs.Prelude.{IfSome, IfOk, IfErr, OnErr, OnOk};
ghost use Rattle.oth_rules.specs.Position.{IsBoard, empty_count};
ghost use Rattle.oth_rules.specs.Symmetry.{canonical, image};
ghost use Rattle.oth_book.specs.Order.{board_cmp};
ghost use Rattle.oth_book.specs.Contents.{Contents};
ghost use Rattle.oth_book.specs.True.{IsExact};
ghost use Rattle.oth_book.specs.Book.{IsTrueBook, IsBookEntry, IsEntryOf, IsGap, Has, HasExact, HasBoard};
ghost use Rattle.oth_book.specs.Add.{IsAdded, IsRefused, AreAdded, AreRefused, IsAskable, Keeps, SameBounds};
ghost use Rattle.oth_book.specs.Add.{answer_entry, bounds_entry, closer};

use crate::add::{AddError, Added, put_in};
use crate::claim::Claim;
use crate::order::compare;
use oth_rules::{Board, Scoring, Sym, map, unmap};
use oth_search::{Answer, Interval, Kind, MOST_EMPTIES, Solved};
use std::alloc::Global;
use std::cmp::Ordering;
use std::marker::Model;

/// Solved boards under one scoring, each canonical and of at most 30 empty squares, in the order of their cells. Each
/// has true bounds of its value, and all best moves where the bounds are one number. There is no untrue book: whatever
/// makes one is proved to keep this.
#[derive(Drop)]
pub struct Book {
    scoring: Scoring,
    entries: Vec<Claim>,
}

impl Model for Book {
    ghost use Rattle.oth_book.specs.Contents.{Contents};
    ghost use Rattle.oth_book.specs.Book.{IsTrueBook};

    ghost Value = { Contents };

    ghost view = { λ b. record { scoring = b.scoring; entries = b.entries.items } };

    ghost invariant = { λ b. IsTrueBook (record { scoring = b.scoring; entries = b.entries.items }) };
}

impl Book {
    /// The book without entries. It takes no memory.
    pub fn new(alloc: Global, scoring: Scoring) -> Book
        ensures { result ≡ record { scoring = scoring; entries = [] } }
    {
        Book {
            scoring,
            entries: Vec::new(alloc),
        }
    }

    /// The book of these entries.
    pub(crate) fn of(scoring: Scoring, entries: Vec<Claim>) -> Book
        requires { IsTrueBook (record { scoring = scoring; entries = entries.items }) }
        ensures { result ≡ record { scoring = scoring; entries = entries.items } }
    {
        Book { scoring, entries }
    }

    /// By what finished games are counted in this book.
    pub fn scoring(&self) -> Scoring
        ensures { result ≡ self.now.scoring }
    {
        self.scoring
    }

    /// How many entries it has, at most 100,000.
    pub fn len(&self) -> usize
        ensures entries { result ≡ length self.now.entries }
        ensures most { result ≤ 100000 }
    {
        self.entries.len()
    }

    /// Whether it has no entries.
    pub fn is_empty(&self) -> bool
        ensures { IsTrue result ↔ (self.now.entries ≡ []) }
    {
        self.entries.is_empty()
    }

    /// The entries, in order.
    pub(crate) fn entries(&self) -> &[Claim]
        ensures entries { result.now ≡ self.now.entries }
        ensures book { IsTrueBook self.now }
    {
        self.entries.as_slice()
    }

    /// The answer of the board, where its canonical board is there with bounds that are one number.
    pub fn find(&self, board: &Board) -> Option<Answer>
        ensures found { IsSome result ↔ HasExact self.now.entries (canonical board.now) }
        ensures board { IfSome result (λ a. a.board ≡ board.now) }
        ensures scoring { IfSome result (λ a. a.scoring ≡ self.now.scoring) }
    {
        let (image, symmetry) = board.canonical();
        match position(self.entries.as_slice(), self.scoring, &image) {
            Ok(place) => {
                let entry = self.entries[place];
                if !is_exact(&entry) {
                    return None;
                }
                Some(answer_by_entry(board, &entry, symmetry, self.scoring))
            }
            Err(_) => None,
        }
    }

    /// The bounds of the board's value, where its canonical board is there.
    pub fn find_bounds(&self, board: &Board) -> Option<Solved>
        ensures found { IsSome result ↔ HasBoard self.now.entries (canonical board.now) }
        ensures board { IfSome result (λ s. s.board ≡ board.now) }
        ensures scoring { IfSome result (λ s. s.scoring ≡ self.now.scoring) }
        ensures bounds { IfSome result
            (λ s. Has self.now.entries (canonical board.now) s.interval.lower s.interval.upper) }
    {
        let (image, _) = board.canonical();
        match position(self.entries.as_slice(), self.scoring, &image) {
            Ok(place) => {
                let entry = self.entries[place];
                Some(solved_of(board, &entry, self.scoring))
            }
            Err(_) => None,
        }
    }

    /// Puts the answer's canonical board in, or makes its entry exact. What the book said before stands.
    pub fn add(&mut self, answer: &Answer) -> Result<Added, AddError>
        requires { empty_count answer.now.board ≤ 30 }
        ensures scoring { OnOk result (answer.now.scoring ≡ self.old.scoring) }
        ensures added { IfOk result (λ done. IsAdded self.old self.new answer.now done) }
        ensures refused { IfErr result (λ why. IsRefused self.old answer.now why) }
        ensures unchanged { OnErr result (self.new ≡ self.old) }
        ensures kept { Keeps self.old self.new }
        ensures book { IsTrueBook self.new }
    {
        if !agree(answer.scoring, self.scoring) {
            return Err(AddError::Scoring);
        }
        let entry = entry_of(answer);
        match position(self.entries.as_slice(), self.scoring, &entry.board) {
            Ok(place) => {
                let kept = self.entries[place];
                if is_exact(&kept) {
                    return Ok(Added::Present);
                }
                self.entries[place] = entry;
                Ok(Added::Sharper)
            }
            Err(place) => put_in(&mut self.entries, place, entry),
        }
    }

    /// Puts the bounds of the canonical board in, or makes its entry's bounds closer. What the book said before stands.
    pub fn add_bounds(&mut self, solved: &Solved) -> Result<Added, AddError>
        ensures asked { OnOk result (IsAskable self.old solved.now) }
        ensures added { IfOk result (λ done. AreAdded self.old self.new solved.now done) }
        ensures refused { IfErr result (λ why. AreRefused self.old solved.now why) }
        ensures unchanged { OnErr result (self.new ≡ self.old) }
        ensures kept { Keeps self.old self.new }
        ensures book { IsTrueBook self.new }
    {
        self.check_askable(solved)?;
        let entry = bounds_of(solved);
        match position(self.entries.as_slice(), self.scoring, &entry.board) {
            Ok(place) => {
                let kept = self.entries[place];
                let closer = closer_of(&kept, solved);
                if same_bounds(&closer, &kept) {
                    return Ok(Added::Present);
                }
                if is_exact(&closer) {
                    return Err(AddError::OneNumber);
                }
                self.entries[place] = closer;
                Ok(Added::Sharper)
            }
            Err(place) => {
                if is_exact(&entry) {
                    return Err(AddError::OneNumber);
                }
                put_in(&mut self.entries, place, entry)
            }
        }
    }

    // Refuses what is tested before the book is looked into: bounds under the other scoring, or of a board with more
    // than 30 empty squares.
    fn check_askable(&self, solved: &Solved) -> Result<(), AddError>
        ensures ok { OnOk result (IsAskable self.now solved.now) }
        ensures err { IfErr result (AreRefused self.now solved.now) }
    {
        if !agree(solved.scoring, self.scoring) {
            return Err(AddError::Scoring);
        }
        if !has_few_empties(&solved.board) {
            return Err(AddError::Empties);
        }
        Ok(())
    }
}

// Whether both scorings are the same.
fn agree(a: Scoring, b: Scoring) -> bool
    ensures { IsTrue result ↔ (a ≡ b) }
{
    a == b
}

/// Whether the bounds are one number.
pub fn is_exact(claim: &Claim) -> bool
    ensures { IsTrue result ↔ IsExact claim.now }
{
    claim.lower == claim.upper
}

// Whether both have the same bounds.
fn same_bounds(a: &Claim, b: &Claim) -> bool
    ensures { IsTrue result ↔ SameBounds a.now b.now }
{
    a.lower == b.lower && a.upper == b.upper
}

/// Whether a book takes the board: whether it has at most 30 empty squares.
pub fn has_few_empties(board: &Board) -> bool
    ensures { IsTrue result ↔ (empty_count board.now ≤ 30) }
{
    board.empties() <= MOST_EMPTIES
}

// The entry of the canonical board with these bounds.
fn bounds_of(solved: &Solved) -> Claim
    ensures { result ≡ bounds_entry solved.now }
{
    let (image, _) = solved.board.canonical();
    Claim {
        board: image,
        lower: solved.interval.lower,
        upper: solved.interval.upper,
        best: 0,
    }
}

// The entry of an answer's canonical board.
fn entry_of(answer: &Answer) -> Claim
    requires { empty_count answer.now.board ≤ 30 }
    ensures entry { result ≡ answer_entry answer.now }
    ensures holds { IsBookEntry answer.now.scoring result }
{
    let (image, symmetry) = answer.board.canonical();
    Claim {
        board: image,
        lower: answer.score,
        upper: answer.score,
        best: map(answer.best, symmetry),
    }
}

// An entry with the closer ones of its own bounds and the given ones.
fn closer_of(kept: &Claim, solved: &Solved) -> Claim
    ensures { result ≡ closer kept.now solved.now }
{
    Claim {
        board: kept.board,
        lower: kept.lower.max(solved.interval.lower),
        upper: kept.upper.min(solved.interval.upper),
        best: 0,
    }
}

// The answer of a board, by the exact entry of its image along the symmetry.
fn answer_by_entry(board: &Board, entry: &Claim, symmetry: Sym, scoring: Scoring) -> Answer
    requires holds { IsBookEntry scoring entry.now }
    requires exact { IsExact entry.now }
    requires image { entry.now.board ≡ image symmetry board.now }
    requires valid { symmetry < 8 }
    ensures board { result.board ≡ board.now }
    ensures scoring { result.scoring ≡ scoring }
{
    Answer {
        board: *board,
        scoring,
        score: entry.lower,
        best: unmap(entry.best, symmetry),
        kind: Kind::of(board),
    }
}

// The bounds of a board, by the entry of its canonical board.
fn solved_of(board: &Board, entry: &Claim, scoring: Scoring) -> Solved
    requires holds { IsBookEntry scoring entry.now }
    requires board { entry.now.board ≡ canonical board.now }
    ensures board { result.board ≡ board.now }
    ensures scoring { result.scoring ≡ scoring }
    ensures bounds { (result.interval.lower ≡ entry.now.lower) × (result.interval.upper ≡ entry.now.upper) }
{
    Solved {
        board: *board,
        scoring,
        interval: Interval {
            lower: entry.lower,
            upper: entry.upper,
        },
    }
}

// The place of the entry of a canonical board, or the place where it would go.
fn position(entries: &[Claim], scoring: Scoring, board: &Board) -> Result<usize, usize>
    requires book { IsTrueBook (record { scoring = scoring; entries = entries.now }) }
    requires board { IsBoard board.now }
    ensures found { IfOk result (λ i. IsEntryOf entries.now i board.now) }
    ensures absent { IfErr result (λ i. IsGap entries.now i board.now) }
{
    entries.binary_search_by(
        |entry: &Claim| -> Ordering
            ensures { result ≡ board_cmp entry.now.board board.entry.now }
        { compare(&entry.board, board) },
    )
}
