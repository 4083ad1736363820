//! Readers and writers as devices.
use oth_device::fakes::{BrokenSource, ByteSink};
use oth_device::{Failed, FromRead, Sink, Source, ToWrite, write_all};
use std::cell::Cell;
use std::io::{Error, ErrorKind, Read, Write};
use std::process::Abort;

#[test]
fn a_reader_and_a_writer_are_devices(rt: HostRuntime) {
    let mut source = FromRead::new(b"ab".as_slice());
    let mut buffer = [0u8; 4];
    assert!(rt; source.read(&mut buffer) == Ok(2));
    assert!(rt; source.read(&mut buffer) == Ok(0));
    let mut sink = ToWrite::new(Vec::<u8>::new(rt.alloc()));
    assert!(rt; write_all(&mut sink, b"two lines") == Ok(()));
    assert!(rt; sink.flush() == Ok(()));
    assert!(rt; sink.into_inner().as_slice() == b"two lines".as_slice());
}

#[test]
fn a_device_fails_after_so_many_bytes(rt: HostRuntime) {
    let mut source = BrokenSource::new(b"abc", 3).in_steps(2);
    let mut buffer = [0u8; 4];
    assert!(rt; source.read(&mut buffer) == Ok(2));
    assert!(rt; source.read(&mut buffer) == Ok(1));
    assert!(rt; source.read(&mut buffer) == Err(Failed));
    assert!(rt; source.failed());
    assert!(rt; source.calls() == 3);
    let mut sink = ByteSink::<8>::new(2);
    assert!(rt; sink.flush() == Ok(()) && sink.is_flushed());
    assert!(rt; write_all(&mut sink, b"abc") == Err(Failed));
    assert!(rt; sink.taken() == b"ab".as_slice() && !sink.is_flushed());
    assert!(rt; sink.failed());
    assert!(rt; sink.calls() == 4);
}

// A writer that tells nothing of its bytes, and how often it was flushed.
#[derive(Drop)]
struct Flushed {
    times: u8,
}

impl Write for Flushed {
    fn write(&mut self, buffer: &[u8]) -> std::io::Result<usize> {
        Ok(buffer.len())
    }

    fn flush(&mut self) -> std::io::Result<()> {
        self.times = self.times.saturating_add(1);
        Ok(())
    }
}

#[test]
fn a_flush_reaches_the_writer(rt: HostRuntime) {
    let mut sink = ToWrite::new(Flushed { times: 0 });
    assert!(rt; sink.flush() == Ok(()));
    assert!(rt; sink.into_inner().times == 1);
}

// A reader or a writer that answers an error of one kind `errors` times, and then does what it is asked to.
#[derive(Drop)]
struct Halting<'a, D> {
    device: D,
    kind: ErrorKind,
    errors: u8,
    calls: &'a Cell<u8>,
}

impl<D> Halting<'_, D> {
    fn halt(&mut self) -> std::io::Result<()> {
        self.calls.set(self.calls.get().saturating_add(1));
        if self.errors == 0 {
            return Ok(());
        }
        self.errors -= 1;
        Err(Error::from(self.kind))
    }
}

impl<D: Read> Read for Halting<'_, D> {
    fn read(&mut self, buffer: &mut [u8]) -> std::io::Result<usize> {
        self.halt()?;
        self.device.read(buffer)
    }
}

impl<D: Write> Write for Halting<'_, D> {
    fn write(&mut self, buffer: &[u8]) -> std::io::Result<usize> {
        self.halt()?;
        self.device.write(buffer)
    }

    fn flush(&mut self) -> std::io::Result<()> {
        self.halt()?;
        self.device.flush()
    }
}

fn check_interrupted_source(rt: &impl Abort) {
    let calls = Cell::new(0u8);
    let mut source = FromRead::new(Halting {
        device: b"ab".as_slice(),
        kind: ErrorKind::Interrupted,
        errors: 1,
        calls: &calls,
    });
    let mut buffer = [0u8; 4];
    assert!(rt; source.read(&mut buffer) == Ok(2) && buffer == [b'a', b'b', 0, 0]);
    assert!(rt; source.read(&mut buffer) == Ok(0));
    assert!(rt; calls.get() == 3 && !source.failed() && source.failure().is_none());
}

fn check_interrupted_sink(rt: &(impl AllocGlobal + Abort)) {
    let calls = Cell::new(0u8);
    let mut sink = ToWrite::new(Halting {
        device: Vec::<u8>::new(rt.alloc()),
        kind: ErrorKind::Interrupted,
        errors: 1,
        calls: &calls,
    });
    assert!(rt; write_all(&mut sink, b"ab") == Ok(()));
    assert!(rt; calls.get() == 2 && !sink.failed() && sink.failure().is_none());
    assert!(rt; sink.into_inner().device.as_slice() == b"ab".as_slice());
}

// Nothing is lost, and nothing comes twice.
#[test]
fn an_interrupted_call_is_tried_again(rt: HostRuntime) {
    check_interrupted_source(&rt);
    check_interrupted_sink(&rt);
}

#[test]
fn an_interrupted_flush_is_tried_again(rt: HostRuntime) {
    let calls = Cell::new(0u8);
    let mut sink = ToWrite::new(Halting {
        device: Flushed { times: 0 },
        kind: ErrorKind::Interrupted,
        errors: 1,
        calls: &calls,
    });
    assert!(rt; sink.flush() == Ok(()));
    assert!(rt; calls.get() == 2 && !sink.failed());
    assert!(rt; sink.into_inner().device.times == 1);
}

// Whether a device failed, by an error of this kind.
fn failed_by(failure: Option<&Error>, kind: ErrorKind) -> bool {
    match failure {
        Some(error) => error.kind() == kind,
        None => false,
    }
}

fn check_blocked_source(rt: &impl Abort) {
    let calls = Cell::new(0u8);
    let mut source = FromRead::new(Halting {
        device: b"ab".as_slice(),
        kind: ErrorKind::WouldBlock,
        errors: u8::MAX,
        calls: &calls,
    });
    let mut buffer = [0u8; 4];
    assert!(rt; source.read(&mut buffer) == Err(Failed));
    assert!(rt; calls.get() == 1 && source.failed());
    assert!(rt; failed_by(source.failure(), ErrorKind::WouldBlock));
}

fn check_full_sink(rt: &impl Abort) {
    let calls = Cell::new(0u8);
    let mut sink = ToWrite::new(Halting {
        device: Flushed { times: 0 },
        kind: ErrorKind::StorageFull,
        errors: u8::MAX,
        calls: &calls,
    });
    assert!(rt; sink.write(b"ab") == Err(Failed));
    assert!(rt; calls.get() == 1 && sink.failed());
    assert!(rt; sink.flush() == Err(Failed) && calls.get() == 2);
    assert!(rt; failed_by(sink.failure(), ErrorKind::StorageFull));
}

#[test]
fn a_call_that_fails_is_not_tried_again(rt: HostRuntime) {
    check_blocked_source(&rt);
    check_full_sink(&rt);
}

// A writer that takes no byte.
#[derive(Drop)]
struct Closed {}

impl Write for Closed {
    fn write(&mut self, _buffer: &[u8]) -> std::io::Result<usize> {
        Ok(0)
    }

    fn flush(&mut self) -> std::io::Result<()> {
        Ok(())
    }
}

#[test]
fn a_write_that_takes_nothing_fails(rt: HostRuntime) {
    let mut sink = ToWrite::new(Closed {});
    assert!(rt; sink.write(b"") == Ok(0));
    assert!(rt; sink.write(b"ab") == Err(Failed));
    assert!(rt; failed_by(sink.failure(), ErrorKind::WriteZero));
}
