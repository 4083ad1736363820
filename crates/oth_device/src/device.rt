//! Sources and sinks, and how any reader or writer is made one.
//!
//! The laws of devices are the standard library's own words for readers and writers (`ReadConsumes`,
//! `WriteAppends`, `Keeps`, `Appends`), two clauses for the flag (unchanged at `Ok`, true at `Failed`), and of a
//! sink whether it was flushed since it took bytes.

ghost use Rattle.std.specs.Prelude.{◌≡◌, ◌<◌, ℕ, List, Option, Bool, true, false, length, is_some, IfOk, OnOk, OnErr};
ghost use Rattle.std.specs.Io.{ReadsAtMost, WritesAtMost};
ghost use Rattle.oth_device.specs.Device.{AppendsBeginning};
ghost use Rattle.std.specs.Io.KnownBytes.{Appends, ReadConsumes, WriteAppends, Keeps};

use std::io::{Error, ErrorKind, Read, Write};
use thiserror::Error;

/// A device failed, and the bytes that it was asked to move were not moved.
#[derive(Clone, Copy, Debug, PartialEq, Eq, Drop, Error)]
#[error("the device failed")]
pub struct Failed;

/// A device that bytes are read from.
pub trait Source {
    // The bytes that it has left, where it tells them.
    ghost remaining: { Self → Option (List ℕ) };

    // Whether a read has failed.
    ghost failed: { Self → Bool };

    /// Reads some bytes into the front of the buffer. 0 of a buffer that isn't empty is the end of input.
    fn read(&mut self, buffer: &mut [u8]) -> Result<usize, Failed>
        ensures bound { ReadsAtMost result buffer.new }
        ensures bytes { ReadConsumes (remaining self.old) (remaining self.new) result buffer.new }
        ensures works { OnOk result (failed self.new ≡ failed self.old) }
        ensures fails { OnErr result (failed self.new ≡ true) };

    /// Whether a read has failed.
    fn failed(&self) -> bool
        ensures { result ≡ failed self.now };
}

/// A device that bytes are written to.
pub trait Sink {
    // The bytes that it holds, where it tells them.
    ghost contents: { Self → Option (List ℕ) };

    // Whether a write or a flush has failed.
    ghost failed: { Self → Bool };

    // Whether it was flushed, and took no byte since: a flush alone makes it so.
    ghost flushed: { Self → Bool };

    /// Writes some bytes of the front of the buffer, at least one of a buffer that isn't empty.
    fn write(&mut self, buffer: &[u8]) -> Result<usize, Failed>
        ensures bound { WritesAtMost result buffer.now }
        ensures some { 0 < length buffer.now → IfOk result (λ n. 0 < n) }
        ensures bytes { WriteAppends (contents self.old) (contents self.new) result buffer.now }
        ensures unflushed { IfOk result (λ n. 0 < n → flushed self.new ≡ false) }
        ensures idle { IfOk result (λ n. n ≡ 0 → flushed self.new ≡ flushed self.old) }
        ensures kept { OnErr result (flushed self.new ≡ flushed self.old) }
        ensures works { OnOk result (failed self.new ≡ failed self.old) }
        ensures fails { OnErr result (failed self.new ≡ true) };

    /// Sees that what was written has left the program.
    fn flush(&mut self) -> Result<(), Failed>
        ensures bytes { Keeps (contents self.old) (contents self.new) }
        ensures flushed { OnOk result (flushed self.new ≡ true) }
        ensures kept { OnErr result (flushed self.new ≡ flushed self.old) }
        ensures works { OnOk result (failed self.new ≡ failed self.old) }
        ensures fails { OnErr result (failed self.new ≡ true) };

    /// Whether a write or a flush has failed.
    fn failed(&self) -> bool
        ensures { result ≡ failed self.now };
}

/// Writes all of the bytes. Where the sink fails, a front of them was written.
pub fn write_all<W: Sink>(writer: &mut W, bytes: &[u8]) -> Result<(), Failed>
    ensures ok { OnOk result (Appends (W.contents writer.old) (W.contents writer.new) bytes.now) }
    ensures err { OnErr result (AppendsBeginning (W.contents writer.old) (W.contents writer.new) bytes.now) }
    ensures works { OnOk result (W.failed writer.new ≡ W.failed writer.old) }
    ensures fails { OnErr result (W.failed writer.new ≡ true) }
{
    let mut rest = bytes;
    while !rest.is_empty() {
        let count = writer.write(rest)?;
        rest = &rest[count..];
    }
    Ok(())
}

/// Any reader as a source. A read that was interrupted is tried again.
#[derive(Drop)]
pub struct FromRead<R> {
    reader: R,
    read_failure: Option<Error>,
}

impl<R: Read> FromRead<R> {
    /// A source that has what the reader has left.
    pub fn new(reader: R) -> Self
        ensures remaining { ⟦<FromRead<R> as Source>⟧.remaining result ≡ R.remaining reader }
        ensures works { ⟦<FromRead<R> as Source>⟧.failed result ≡ false }
    {
        FromRead {
            reader,
            read_failure: None,
        }
    }

    /// The error at which a read failed, the last one where several did.
    pub fn failure(&self) -> Option<&Error>
        ensures { is_some result ≡ ⟦<FromRead<R> as Source>⟧.failed self.now }
    {
        self.read_failure.as_ref()
    }
}

impl<R: Read> Source for FromRead<R> {
    ghost remaining = { λ s. R.remaining s.reader };

    ghost failed = { λ s. is_some s.read_failure };

    fn read(&mut self, buffer: &mut [u8]) -> Result<usize, Failed> {
        for _ in 0..u64::MAX {
            match self.reader.read(buffer) {
                Err(error) if is_interrupted(&error) => {}
                Err(error) => return Err(keep(&mut self.read_failure, error)),
                Ok(count) => return Ok(count),
            }
        }
        Err(keep(&mut self.read_failure, ErrorKind::Interrupted.into()))
    }

    fn failed(&self) -> bool {
        self.read_failure.is_some()
    }
}

// Whether the call may be tried again.
fn is_interrupted(error: &Error) -> bool {
    error.kind() == ErrorKind::Interrupted
}

// Keeps the error at which a device failed.
fn keep(failure: &mut Option<Error>, error: Error) -> Failed
    ensures { is_some failure.new ≡ true }
{
    *failure = Some(error);
    Failed
}

/// Any writer as a sink. A write that was interrupted is tried again.
#[derive(Drop)]
pub struct ToWrite<W> {
    writer: W,
    write_failure: Option<Error>,
    flushed: bool,
}

impl<W: Write> ToWrite<W> {
    /// A sink that adds to what the writer got.
    pub fn new(writer: W) -> Self
        ensures contents { ⟦<ToWrite<W> as Sink>⟧.contents result ≡ W.contents writer }
        ensures works { ⟦<ToWrite<W> as Sink>⟧.failed result ≡ false }
        ensures unflushed { ⟦<ToWrite<W> as Sink>⟧.flushed result ≡ false }
    {
        ToWrite {
            writer,
            write_failure: None,
            flushed: false,
        }
    }

    /// The error at which a write or a flush failed, the last one where several did. A write that took nothing has
    /// the kind `WriteZero`.
    pub fn failure(&self) -> Option<&Error>
        ensures { is_some result ≡ ⟦<ToWrite<W> as Sink>⟧.failed self.now }
    {
        self.write_failure.as_ref()
    }

    /// The writer, as the writes left it.
    pub fn into_inner(self) -> W
        ensures { W.contents result ≡ ⟦<ToWrite<W> as Sink>⟧.contents self }
    {
        let ToWrite {
            writer,
            write_failure: _,
            flushed: _,
        } = self;
        writer
    }
}

impl<W: Write> Sink for ToWrite<W> {
    ghost contents = { λ s. W.contents s.writer };

    ghost failed = { λ s. is_some s.write_failure };

    ghost flushed = { λ s. s.flushed };

    fn write(&mut self, buffer: &[u8]) -> Result<usize, Failed> {
        for _ in 0..u64::MAX {
            match self.writer.write(buffer) {
                Err(error) if is_interrupted(&error) => {}
                Err(error) => return Err(keep(&mut self.write_failure, error)),
                Ok(0) if !buffer.is_empty() => {
                    return Err(keep(&mut self.write_failure, ErrorKind::WriteZero.into()));
                }
                Ok(count) => {
                    self.flushed = self.flushed && count == 0;
                    return Ok(count);
                }
            }
        }
        Err(keep(&mut self.write_failure, ErrorKind::Interrupted.into()))
    }

    fn flush(&mut self) -> Result<(), Failed> {
        for _ in 0..u64::MAX {
            match self.writer.flush() {
                Err(error) if is_interrupted(&error) => {}
                Err(error) => return Err(keep(&mut self.write_failure, error)),
                Ok(()) => {
                    self.flushed = true;
                    return Ok(());
                }
            }
        }
        Err(keep(&mut self.write_failure, ErrorKind::Interrupted.into()))
    }

    fn failed(&self) -> bool {
        self.write_failure.is_some()
    }
}
