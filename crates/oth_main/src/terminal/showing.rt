//! A line on a terminal that shows how far a long search is.

ghost use Rattle.std.specs.Prelude.{◌≡◌};
ghost use denote.Param.Send.{IsSend, IsSync};

use super::look::Times;
use super::progress::Progress;
use super::row::Row;
use oth_run::ReportSink;
use oth_text::{Failed, Fault, Sink, write_all};
use std::alloc::Global;
use std::fmt;
use std::sync::{Mutex, MutexGuard, Wait};
use std::thread::{Threads, join_mut};
use std::time::Clock;

// A terminal, and what stands in its last row.
#[derive(Drop)]
struct Screen<E> {
    sink: E,
    row: Row,
}

impl<E: Sink> Screen<E> {
    // Puts the text in place of what stands in the row.
    fn draw(&mut self, text: &[u8]) {
        let bytes = self.row.renewed(text);
        self.write(bytes.as_slice());
    }

    // Takes away what stands in the row.
    fn clear(&mut self) {
        let bytes = self.row.cleared();
        self.write(bytes.as_slice());
    }

    // Writes the bytes. A terminal that fails is passed over.
    fn write(&mut self, bytes: &[u8]) {
        if !self.sink.failed() {
            let _ = write_all(&mut self.sink, bytes);
        }
    }
}

/// A terminal, and what a run tells of how far it is: after a second of work a line shows it. Where the device is no
/// terminal, nothing is shown, and a run is as one that nobody watches.
#[derive(Drop)]
pub struct Watch<E> {
    progress: Progress,
    screen: Mutex<Screen<E>>,
}

impl<E: Sink + Send> Watch<E> {
    /// Nothing is shown yet on this device, and nothing will be where it is no terminal. `can_cut`: as a terminal it
    /// cuts a row where it is told to.
    pub fn on(device: E, is_terminal: bool, can_cut: bool) -> Watch<E> {
        Watch {
            progress: Progress::new(is_terminal),
            screen: Mutex::new(Screen {
                sink: device,
                row: Row::new(can_cut),
            }),
        }
    }

    /// The gate by which it hears of the run.
    pub fn gate(&self) -> &Progress {
        &self.progress
    }

    /// Calls `work`, which is one run, in this thread. Beside it a thread shows the line, which is renewed in place and
    /// is gone when `work` has returned. Where there is no thread or no memory for it, it does not come. A terminal
    /// that fails is passed over.
    pub fn beside<R: Threads + Wait + Clock + Sync, W: FnMut() -> X, X>(
        &self,
        rt: &R,
        alloc: Global,
        work: &mut W,
    ) -> X
        requires { W.pre work.old }
        ensures { W.step work.old result work.new }
    {
        if !self.progress.is_shown {
            return work();
        }
        let mut showing = || self.show(rt, alloc);
        let mut working = || -> X
            requires { W.pre work.now }
            ensures { W.step work.entry.now result work.exit.now }
        {
            let done = work();
            self.progress.end(rt);
            done
        };
        let done = join_mut(rt, &mut showing, &mut working).1;
        self.clear(rt);
        done
    }

    // Shows the line until the run is over.
    fn show<R: Wait + Clock>(&self, rt: &R, alloc: Global) {
        let mut times = Times::new();
        for _ in rt.forever() {
            if !self.progress.goes_on_after_a_tick(rt) {
                return;
            }
            self.show_once(rt, alloc, &mut times);
        }
    }

    // Shows how far the run is now, or nothing where it hasn't worked long.
    fn show_once<R: Wait + Clock>(&self, rt: &R, alloc: Global, times: &mut Times) {
        let shown = times.shown(rt, self.progress.look(rt));
        let mut screen = self.screen.lock(rt);
        match shown {
            Some(shown) => {
                if let Ok(text) = format!(in alloc; "{shown}") {
                    screen.draw(text.as_bytes());
                }
            }
            None => screen.clear(),
        }
    }

    // Takes the line away.
    fn clear<R: Wait>(&self, rt: &R) {
        self.screen.lock(rt).clear();
    }
}

/// A faulty line of the input, told as `line`, its number and its fault in words.
#[derive(Clone, Copy, Debug, PartialEq, Eq, Drop)]
pub struct FaultyLine {
    /// The number of the line, counted from 1.
    pub number: u64,
    /// Its fault.
    pub fault: Fault,
}

impl fmt::Display for FaultyLine {
    fn fmt<W: fmt::Write>(&self, f: &mut fmt::Formatter<W>) -> fmt::Result {
        write!(f, "line {}: {}", self.number, self.fault)
    }
}

/// An output of a run that is watched. Where it goes to a terminal, the line is taken away before each write; else no
/// write waits for the terminal that shows the line.
#[derive(Drop)]
pub struct Report<'w, R, W, E> {
    rt: &'w R,
    watch: &'w Watch<E>,
    writer: W,
    is_terminal: bool,
    explains: bool,
}

impl<'w, R: Wait + AllocGlobal, W: Sink, E: Sink> Report<'w, R, W, E> {
    /// A sink that hands all on to the writer, which is a terminal or not. `explains`: the faults that it hears of are
    /// told in words where the line is shown, on a terminal or not.
    pub fn of(rt: &'w R, watch: &'w Watch<E>, writer: W, is_terminal: bool, explains: bool) -> Self
        ensures contents { ⟦<Report<'w, R, W, E> as Sink>⟧.contents result ≡ W.contents writer }
        ensures failed { ⟦<Report<'w, R, W, E> as Sink>⟧.failed result ≡ W.failed writer }
        ensures flushed { ⟦<Report<'w, R, W, E> as Sink>⟧.flushed result ≡ W.flushed writer }
    {
        Report {
            rt,
            watch,
            writer,
            is_terminal,
            explains,
        }
    }

    /// The writer.
    pub fn writer(&self) -> &W
        ensures { result.now ≡ self.now.writer }
    {
        &self.writer
    }

    // Takes the line away where the writer writes to a terminal, and keeps the screen.
    fn cleared(&self) -> Option<MutexGuard<'w, Screen<E>>> {
        if !self.is_terminal || !self.watch.progress.is_shown {
            return None;
        }
        let mut screen = self.watch.screen.lock(self.rt);
        screen.clear();
        Some(screen)
    }

    // Writes the fault of a line in words in place of the line that shows how far the run is.
    fn tell(&self, faulty: &FaultyLine) {
        if let Ok(text) = format!(in self.rt.alloc(); "{faulty}\n") {
            let mut screen = self.watch.screen.lock(self.rt);
            screen.clear();
            screen.write(text.as_bytes());
        }
    }
}

impl<'w, R: Wait + AllocGlobal, W: Sink, E: Sink> Sink for Report<'w, R, W, E> {
    ghost contents = { λ s. W.contents s.writer };

    ghost failed = { λ s. W.failed s.writer };

    ghost flushed = { λ s. W.flushed s.writer };

    fn write(&mut self, buffer: &[u8]) -> Result<usize, Failed> {
        let _screen = self.cleared();
        self.writer.write(buffer)
    }

    fn flush(&mut self) -> Result<(), Failed> {
        self.writer.flush()
    }

    fn failed(&self) -> bool {
        self.writer.failed()
    }
}

impl<'w, R: Wait + AllocGlobal, W: Sink, E: Sink> ReportSink for Report<'w, R, W, E> {
    fn tells_faults(&self) -> bool {
        self.explains
    }

    fn answered(&mut self, number: u64, fault: Option<Fault>) {
        if self.watch.progress.is_shown {
            self.watch.progress.counts.answered(number);
        }
        match fault {
            Some(fault) if self.explains => self.tell(&FaultyLine { number, fault }),
            _ => {}
        }
    }
}
