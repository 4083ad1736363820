//! Devices in memory that fail after a given number of bytes, for tests.

ghost use Rattle.std.specs.Prelude.{◌≡◌, ◌<◌, [], Some, false};

use crate::device::{Failed, Sink, Source};
use arrayvec::ArrayVec;

/// A source over a slice. It fails where it is read again after `until_failure` bytes.
#[derive(Drop)]
pub struct BrokenSource<'a> {
    rest: &'a [u8],
    until_failure: usize,
    step: usize,
    failed: bool,
    calls: u64,
    ghost steps: { 0 < step },
}

impl<'a> BrokenSource<'a> {
    /// A source of these bytes, which gives as many of them at a time as it is asked for.
    pub fn new(bytes: &'a [u8], until_failure: usize) -> Self
        ensures remaining { ⟦<BrokenSource<'a> as Source>⟧.remaining result ≡ Some bytes.entry.now }
        ensures works { ⟦<BrokenSource<'a> as Source>⟧.failed result ≡ false }
    {
        BrokenSource {
            rest: bytes,
            until_failure,
            step: usize::MAX,
            failed: false,
            calls: 0,
        }
    }

    /// Lets the source give at most `step` bytes at a time.
    pub fn in_steps(self, step: usize) -> Self
        requires { 0 < step }
        ensures remaining { ⟦<BrokenSource<'a> as Source>⟧.remaining result
            ≡ ⟦<BrokenSource<'a> as Source>⟧.remaining self.entry }
        ensures failed { ⟦<BrokenSource<'a> as Source>⟧.failed result
            ≡ ⟦<BrokenSource<'a> as Source>⟧.failed self.entry }
    {
        BrokenSource {
            rest: self.rest,
            until_failure: self.until_failure,
            step,
            failed: self.failed,
            calls: self.calls,
        }
    }

    /// How often it was read.
    pub fn calls(&self) -> u64 {
        self.calls
    }
}

impl Source for BrokenSource<'_> {
    ghost remaining = { λ s. Some s.rest.now };

    ghost failed = { λ s. s.failed };

    fn read(&mut self, buffer: &mut [u8]) -> Result<usize, Failed> {
        self.calls = self.calls.saturating_add(1);
        if self.until_failure == 0 {
            self.failed = true;
            return Err(Failed);
        }
        let count = buffer
            .len()
            .min(self.rest.len())
            .min(self.until_failure)
            .min(self.step);
        let (front, rest) = self.rest.split_at(count);
        buffer[..count].copy_from_slice(front);
        self.rest = rest;
        self.until_failure -= count;
        Ok(count)
    }

    fn failed(&self) -> bool {
        self.failed
    }
}

/// A sink that takes one byte at a time, and fails after `until_failure` bytes, or `CAPACITY`.
#[derive(Drop)]
pub struct ByteSink<const CAPACITY: usize> {
    taken: ArrayVec<u8, CAPACITY>,
    until_failure: usize,
    failed: bool,
    flushed: bool,
    calls: u64,
}

impl<const CAPACITY: usize> ByteSink<CAPACITY> {
    /// A sink that has taken nothing yet.
    pub fn new(until_failure: usize) -> Self
        ensures contents { ⟦<ByteSink<CAPACITY> as Sink>⟧.contents result ≡ Some [] }
        ensures works { ⟦<ByteSink<CAPACITY> as Sink>⟧.failed result ≡ false }
        ensures unflushed { ⟦<ByteSink<CAPACITY> as Sink>⟧.flushed result ≡ false }
    {
        ByteSink {
            taken: ArrayVec::new(),
            until_failure,
            failed: false,
            flushed: false,
            calls: 0,
        }
    }

    /// The bytes that it has taken.
    pub fn taken(&self) -> &[u8]
        ensures { ⟦<ByteSink<CAPACITY> as Sink>⟧.contents self.now ≡ Some result.now }
    {
        self.taken.as_slice()
    }

    /// Whether it was flushed, and took no byte since.
    pub fn is_flushed(&self) -> bool
        ensures { result ≡ ⟦<ByteSink<CAPACITY> as Sink>⟧.flushed self.now }
    {
        self.flushed
    }

    /// How often it was written to or flushed.
    pub fn calls(&self) -> u64 {
        self.calls
    }
}

impl<const CAPACITY: usize> Sink for ByteSink<CAPACITY> {
    ghost contents = { λ s. Some s.taken.items };

    ghost failed = { λ s. s.failed };

    ghost flushed = { λ s. s.flushed };

    fn write(&mut self, buffer: &[u8]) -> Result<usize, Failed> {
        self.calls = self.calls.saturating_add(1);
        let [first, ..] = buffer else {
            return Ok(0);
        };
        if self.until_failure == 0 || self.taken.is_full() {
            self.failed = true;
            return Err(Failed);
        }
        self.taken.push(*first);
        self.flushed = false;
        self.until_failure -= 1;
        Ok(1)
    }

    fn flush(&mut self) -> Result<(), Failed> {
        self.calls = self.calls.saturating_add(1);
        self.flushed = true;
        Ok(())
    }

    fn failed(&self) -> bool {
        self.failed
    }
}
