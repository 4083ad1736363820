//! Sources that are read one after the other.

ghost use Rattle.std.specs.Prelude.{◌≡◌, ◌++◌, ◌∷◌, ℕ, List, [], Some, false, map, option_map};
ghost use Rattle.std.specs.Prelude.{IsFalse, IsTrue, OnErr, OnOk};
ghost use Rattle.std.specs.List.{flat_map};
ghost use Rattle.oth_main.specs.Joined.{ended, joined};
ghost use Rattle.oth_run.specs.Report.{lines_of, report};

use oth_text::{Failed, Source};
use std::alloc::{AllocError, Global};
use std::collections::VecDeque;

/// Sources that are read as one, the first to its end, then the next. Where the bytes of one end within a line, and
/// another one follows, a byte 10 is put between them, so that no line has bytes of two sources.
#[derive(Drop)]
pub struct Joined<R> {
    // The source that is read, its place among all from 0, and those behind it.
    source: R,
    place: usize,
    later: VecDeque<R>,
    // Whether the last byte of the source so far isn't 10.
    is_begun: bool,
    has_failed: bool,
}

impl<R: Source + Drop> Joined<R> {
    /// The source alone: just its bytes.
    pub fn of(alloc: Global, source: R) -> Self
        ensures source { result.source ≡ source }
        ensures later { result.later.items ≡ [] }
        ensures remaining { ⟦<Joined<R> as Source>⟧.remaining result ≡ R.remaining source }
        ensures works { ⟦<Joined<R> as Source>⟧.failed result ≡ false }
    {
        Joined {
            source,
            place: 0,
            later: VecDeque::new(alloc),
            is_begun: false,
            has_failed: false,
        }
    }

    /// Puts a source behind all others, if there is memory for it; else the others stay as they are.
    pub fn add(&mut self, source: R) -> Result<(), AllocError>
        ensures source { self.new.source ≡ self.old.source }
        ensures place { self.new.place ≡ self.old.place }
        ensures later { OnOk result (self.new.later.items ≡ self.old.later.items ++ source ∷ []) }
        ensures refused { OnErr result (self.new.later.items ≡ self.old.later.items) }
        ensures begun { self.new.is_begun ≡ self.old.is_begun }
        ensures works { ⟦<Joined<R> as Source>⟧.failed self.new ≡ ⟦<Joined<R> as Source>⟧.failed self.old }
    {
        self.later.push_back(source)?;
        Ok(())
    }

    /// The source that is read, or was read last.
    pub fn source(&self) -> &R
        ensures { result.now ≡ self.now.source }
    {
        &self.source
    }

    /// The place of that source among all, counted from 0.
    pub fn place(&self) -> usize
        ensures { result ≡ self.now.place }
    {
        self.place
    }

    // Goes on to the next source, if there is one.
    fn go_on(&mut self) -> bool
        ensures next { IsTrue result → self.old.later.items ≡ self.new.source ∷ self.new.later.items }
        ensures last { IsFalse result → (self.old.later.items ≡ []) × (self.new.later.items ≡ [])
            × (self.new.source ≡ self.old.source) }
        ensures begun { self.new.is_begun ≡ self.old.is_begun }
        ensures works { self.new.has_failed ≡ self.old.has_failed }
    {
        match self.later.pop_front() {
            Some(next) => {
                self.source = next;
                self.place = self.place.saturating_add(1);
                true
            }
            None => false,
        }
    }
}

impl<R: Source + Drop> Source for Joined<R> {
    ghost remaining = { λ s. joined s.is_begun (R.remaining s.source) (map R.remaining s.later.items) };

    ghost failed = { λ s. s.has_failed };

    fn read(&mut self, buffer: &mut [u8]) -> Result<usize, Failed> {
        if buffer.is_empty() {
            return Ok(0);
        }
        for _ in 0..u64::MAX {
            let Ok(count) = self.source.read(buffer) else {
                break;
            };
            if count > 0 {
                self.is_begun = buffer[count - 1] != b'\n';
                return Ok(count);
            }
            if !self.go_on() {
                return Ok(0);
            }
            if self.is_begun {
                self.is_begun = false;
                buffer[0] = b'\n';
                return Ok(1);
            }
        }
        self.has_failed = true;
        Err(Failed)
    }

    fn failed(&self) -> bool {
        self.has_failed
    }
}

/// Laws: the lines of a source that another one follows, and of what follows, are the lines of both, each by
/// themselves; and the report of several sources, whose bytes are known, is the report of each, one after the other,
/// where a reply doesn't look at the number of its line.
pub fn sources_share_no_line()
    ensures lines { (text rest : List ℕ) → lines_of (ended false text ++ rest) ≡ lines_of text ++ lines_of rest }
    ensures report { (reply : List ℕ → List ℕ) (first : List ℕ) (others : List (List ℕ))
        → option_map (report (λ number. reply)) (joined false (Some first) (map (λ text. Some text) others))
        ≡ Some (flat_map (report (λ number. reply)) (first ∷ others)) }
{}
