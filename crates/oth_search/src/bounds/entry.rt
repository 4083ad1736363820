//! Entries: canonical boards with true bounds, and the three words that a table keeps of one.
ghost use Rattle.std.specs.Prelude.{◌≡◌, ℕ, ◌≤◌, ℤ, pos, neg_ℤ, ◌-ℤ◌, ◌≤ℤ◌, Some};
ghost use Rattle.oth_rules.specs.Symmetry.{canonical, IsCanonical};
ghost use Rattle.oth_search.specs.Bounds.Entry.{Bounded, IsTrueEntry, raised, words_of, joined};

use super::interval::Interval;
use super::solved::Solved;
use oth_rules::{Board, Scoring};
use std::marker::Model;

/// A canonical board with bounds that enclose its value, as a table keeps it. No untrue entry can be made.
#[derive(Clone, Copy, Debug)]
pub struct Entry {
    board: Board,
    scoring: Scoring,
    lower: i8,
    upper: i8,
}

impl Model for Entry {
    ghost use Rattle.oth_search.specs.Bounds.Entry.{Bounded, IsTrueEntry};

    ghost Value = { Bounded };

    ghost view = { λ e. record { board = e.board; scoring = e.scoring; lower = e.lower; upper = e.upper } };

    ghost invariant = { λ e. IsTrueEntry
        (record { board = e.board; scoring = e.scoring; lower = e.lower; upper = e.upper }) };

    ghost inverse = { λ x. record { board = x.board; scoring = x.scoring; lower = x.lower; upper = x.upper } };
}

impl Entry {
    /// The entry of the board's canonical image.
    pub fn of(solved: &Solved) -> Entry
        ensures board { result.board ≡ canonical solved.now.board }
        ensures scoring { result.scoring ≡ solved.now.scoring }
        ensures lower { result.lower ≡ solved.now.interval.lower }
        ensures upper { result.upper ≡ solved.now.interval.upper }
    {
        Entry {
            board: solved.board.canonical().0,
            scoring: solved.scoring,
            lower: solved.interval.lower,
            upper: solved.interval.upper,
        }
    }

    /// The entry of a canonical board.
    pub fn canonical(solved: &Solved) -> Entry
        requires { IsCanonical solved.now.board }
        ensures board { result.board ≡ solved.now.board }
        ensures scoring { result.scoring ≡ solved.now.scoring }
        ensures lower { result.lower ≡ solved.now.interval.lower }
        ensures upper { result.upper ≡ solved.now.interval.upper }
    {
        Entry {
            board: solved.board,
            scoring: solved.scoring,
            lower: solved.interval.lower,
            upper: solved.interval.upper,
        }
    }

    /// The canonical board.
    pub fn board(&self) -> Board
        ensures { result ≡ self.now.board }
    {
        self.board
    }

    /// Tells a proof that the entry is true: its bounds enclose the value of its canonical board. Does nothing.
    pub fn shows_true(&self)
        ensures { IsTrueEntry self.now }
    {
        let _ = &self.board;
    }

    /// The scoring that its bounds are under.
    pub fn scoring(&self) -> Scoring
        ensures { result ≡ self.now.scoring }
    {
        self.scoring
    }

    /// The bounds of the board's value.
    pub fn interval(&self) -> Interval
        ensures lower { result.lower ≡ self.now.lower }
        ensures upper { result.upper ≡ self.now.upper }
    {
        Interval {
            lower: self.lower,
            upper: self.upper,
        }
    }

    /// The board with its bounds.
    pub fn solved(&self) -> Solved
        ensures board { result.board ≡ self.now.board }
        ensures scoring { result.scoring ≡ self.now.scoring }
        ensures lower { result.interval.lower ≡ self.now.lower }
        ensures upper { result.interval.upper ≡ self.now.upper }
    {
        Solved::between(self.board, self.scoring, self.lower, self.upper)
    }

    /// Own discs, opposing discs, and the packed bounds: `(lower + 64) + 256 * (upper + 64)`.
    pub fn words(&self) -> [u64; 3]
        ensures words { result ≡ words_of self.now }
        ensures truth { IsTrueEntry self.now }
    {
        [
            self.board.own(),
            self.board.opp(),
            raised(self.lower) + 256 * raised(self.upper),
        ]
    }

    /// The entry that has these words. Only a caller who keeps the words of a true entry can call it.
    pub fn of_words(words: [u64; 3], scoring: Scoring) -> Entry
        requires { (x : Bounded) × IsTrueEntry x × (x.scoring ≡ scoring) × (words ≡ words_of x) }
        ensures { (x : Bounded) → IsTrueEntry x → x.scoring ≡ scoring → words ≡ words_of x → result ≡ x }
    {
        let Ok(board) = Board::of(words[0], words[1]) else {
            unreachable!()
        };
        Entry {
            board,
            scoring,
            lower: lowered(words[2] % 256),
            upper: lowered(words[2] / 256),
        }
    }

    /// What a cell that holds this entry keeps when `given` is stored: of one board the closer bounds of both, else
    /// `given`.
    pub fn joined(&self, given: &Entry) -> Entry
        requires { self.now.scoring ≡ given.now.scoring }
        ensures { result ≡ joined (Some self.now) given.now }
    {
        if self.board.own() == given.board.own() && self.board.opp() == given.board.opp() {
            Entry {
                board: given.board,
                scoring: given.scoring,
                lower: self.lower.max(given.lower),
                upper: self.upper.min(given.upper),
            }
        } else {
            *given
        }
    }
}

// A bound as a number from 0 to 128.
fn raised(bound: i8) -> u64
    requires { neg_ℤ (pos 64) ≤ℤ bound }
    ensures { result ≡ raised bound }
{
    (i16::from(bound) + 64) as u64
}

// The bound that `raised` made this number of.
fn lowered(raised: u64) -> i8
    requires { raised ≤ 128 }
    ensures { result ≡ pos raised -ℤ pos 64 }
{
    (raised as i16 - 64) as i8
}
