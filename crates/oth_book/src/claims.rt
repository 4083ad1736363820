//! What the text of a book says.

ghost use Rattle.std.specs.Prelude.{◌≡◌, ◌≢◌, IfOk, IfErr, OnOk, length};
ghost use Rattle.oth_book.specs.Contents.{Contents as Said, IsText, scoring_of};
ghost use Rattle.oth_book.specs.Fault.{IsBookFault};
ghost use Rattle.oth_book.specs.declared.fault.BookFault.TheVariants as faults;

use crate::claim::Claim;
use crate::fault::BookFault;
use crate::text::{check_entries, read_entries, read_header};
use crate::version::Version;
use oth_rules::Scoring;
use std::alloc::Global;
use std::marker::Model;

/// What a book's text says: a scoring, and entries by it. Nothing is known of their truth before [`crate::verify`].
#[derive(Drop)]
pub struct Claims {
    scoring: Scoring,
    entries: Vec<Claim>,
}

impl Model for Claims {
    ghost use Rattle.oth_book.specs.declared.version.Version.{Version};
    ghost use Rattle.oth_book.specs.Text.{AreClaims};
    ghost use Rattle.oth_book.specs.Contents.{Contents};

    ghost Value = { Contents };

    ghost view = { λ c. record { scoring = c.scoring; entries = c.entries.items } };

    ghost invariant = { λ c. (v : Version) × AreClaims v c.entries.items };
}

impl Claims {
    /// The scoring by which the entries are claimed: `Winner` of a text of version 1, else the one that the header
    /// names.
    pub fn scoring(&self) -> Scoring
        ensures { result ≡ self.now.scoring }
    {
        self.scoring
    }

    /// The entries, in order.
    pub fn entries(&self) -> &[Claim]
        ensures { result.now ≡ self.now.entries }
    {
        self.entries.as_slice()
    }
}

/// What the bytes say if they are the text of a book, of version 1 or 2; else their one fault.
pub fn read_claims(alloc: Global, bytes: &[u8]) -> Result<Claims, BookFault>
    ensures text { IfOk result (λ claims. IsText claims bytes.now) }
    ensures fault { IfErr result (λ f. IsBookFault bytes.now f) }
{
    let version = read_header(bytes)?;
    let entries = read_entries(alloc, bytes, version)?;
    Ok(Claims {
        scoring: scoring_of(version),
        entries,
    })
}

/// Tests whether the bytes are the text of a book, of version 1 or 2, and returns their one fault where they aren't. It
/// takes no memory, so its contract shows that any bytes are a book's text or have a fault.
pub fn check_text(bytes: &[u8]) -> Result<(), BookFault>
    ensures text { OnOk result ((said : Said) × IsText said bytes.now) }
    ensures fault { IfErr result (λ f. IsBookFault bytes.now f) }
    ensures memory { IfErr result (λ f. f ≢ faults.Memory) }
{
    let version = read_header(bytes)?;
    check_entries(bytes, version)
}

// The scoring of a text of this version.
fn scoring_of(version: Version) -> Scoring
    ensures { result ≡ scoring_of version }
{
    match version {
        Version::One => Scoring::Winner,
        Version::Two(scoring) => scoring,
    }
}
