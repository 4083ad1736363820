//! A sink of a report, which hears of each line that is answered.

ghost use Rattle.std.specs.Prelude.{◌≡◌};

use oth_text::fakes::ByteSink;
use oth_text::{Fault, Sink, ToWrite};
use std::io::Write;

/// A sink of a report, which hears of each line that is answered. By default it makes nothing of that. No clause says
/// which faults it hears of: those are the ones of the lines (tested).
pub trait ReportSink: Sink {
    /// Whether it tells faults. Then the reply to a faulty line is written before it hears of that line.
    fn tells_faults(&self) -> bool {
        false
    }

    /// A line is answered: its number, from 1, and its fault, if it has one. The reply may still wait to be written.
    fn answered(&mut self, _number: u64, _fault: Option<Fault>)
        ensures contents { Self.contents self.new ≡ Self.contents self.old }
        ensures failed { Self.failed self.new ≡ Self.failed self.old }
        ensures flushed { Self.flushed self.new ≡ Self.flushed self.old }
    {}
}

impl<W: Write> ReportSink for ToWrite<W> {}

impl<const CAPACITY: usize> ReportSink for ByteSink<CAPACITY> {}
