//! The versions of a book's text.
use oth_rules::Scoring;

/// The two forms of a book's text.
#[derive(Clone, Copy, Debug, PartialEq, Eq)]
pub enum Version {
    /// Each entry has one score, by [`Scoring::Winner`].
    One,
    /// The header names the scoring, and each entry has a lower and an upper bound.
    Two(Scoring),
}
