//! Bytes that wait to be written, so that a sink is called a few times for many lines.

ghost use Rattle.std.specs.Prelude.{◌≡◌, ◌≤◌, [], ◌∷◌, ◌++◌, length, true, OnOk, OnErr};
ghost use Rattle.oth_text.specs.Report.{report_line_of};
ghost use Rattle.oth_run.specs.Gathered.{Gathers, KeepsGathered, StopsInText, StopsInWaiting, WritesOut};

use crate::tuning::WAITING_LEN;
use arrayvec::ArrayVec;
use oth_search::Answer;
use oth_text::{Failed, REPORT_LINE_LEN, Sink, push_report_line, write_all};

/// Bytes that wait to be written.
#[derive(Drop)]
pub struct Waiting {
    bytes: ArrayVec<u8, WAITING_LEN>,
}

impl Waiting {
    /// No bytes.
    pub fn new() -> Self
        ensures { result.bytes.items ≡ [] }
    {
        Waiting {
            bytes: ArrayVec::new(),
        }
    }

    /// Adds the text, and writes those before it where there is no room for it.
    pub fn push_text<W: Sink>(&mut self, writer: &mut W, text: &[u8]) -> Result<(), Failed>
        requires { length text.now ≤ WAITING_LEN }
        ensures ok { OnOk result (Gathers (W.contents writer.old) (W.contents writer.new)
            self.old.bytes.items self.new.bytes.items text.now) }
        ensures err { OnErr result
            (StopsInWaiting (W.contents writer.old) (W.contents writer.new) self.old.bytes.items) }
        ensures works { OnOk result (W.failed writer.new ≡ W.failed writer.old) }
        ensures fails { OnErr result (W.failed writer.new ≡ true) }
    {
        if self.bytes.remaining_capacity() < text.len() {
            self.write_to(writer)?;
        }
        self.bytes.try_extend_from_slice(text).unwrap();
        Ok(())
    }

    /// Adds the report line of the answer, as `push_text` does.
    pub fn push_report_line<W: Sink>(
        &mut self,
        writer: &mut W,
        answer: &Answer,
    ) -> Result<(), Failed>
        ensures ok { OnOk result (Gathers (W.contents writer.old) (W.contents writer.new)
            self.old.bytes.items self.new.bytes.items (report_line_of answer.now.scoring answer.now.board)) }
        ensures err { OnErr result
            (StopsInWaiting (W.contents writer.old) (W.contents writer.new) self.old.bytes.items) }
        ensures works { OnOk result (W.failed writer.new ≡ W.failed writer.old) }
        ensures fails { OnErr result (W.failed writer.new ≡ true) }
    {
        if self.bytes.remaining_capacity() < REPORT_LINE_LEN {
            self.write_to(writer)?;
        }
        push_report_line(&mut self.bytes, answer);
        Ok(())
    }

    /// Adds byte 10, as `push_text` does.
    pub fn push_end<W: Sink>(&mut self, writer: &mut W) -> Result<(), Failed>
        ensures ok { OnOk result (Gathers (W.contents writer.old) (W.contents writer.new)
            self.old.bytes.items self.new.bytes.items (10 ∷ [])) }
        ensures err { OnErr result
            (StopsInWaiting (W.contents writer.old) (W.contents writer.new) self.old.bytes.items) }
        ensures works { OnOk result (W.failed writer.new ≡ W.failed writer.old) }
        ensures fails { OnErr result (W.failed writer.new ≡ true) }
    {
        if self.bytes.remaining_capacity() == 0 {
            self.write_to(writer)?;
        }
        self.bytes.push(b'\n');
        Ok(())
    }

    /// Adds the text and byte 10, as `push_text` does.
    pub fn push_line<W: Sink>(&mut self, writer: &mut W, text: &[u8]) -> Result<(), Failed>
        requires { length text.now ≤ WAITING_LEN }
        ensures ok { OnOk result (Gathers (W.contents writer.old) (W.contents writer.new)
            self.old.bytes.items self.new.bytes.items (text.now ++ 10 ∷ [])) }
        ensures err { OnErr result (StopsInText (W.contents writer.old) (W.contents writer.new)
            self.old.bytes.items (text.now ++ 10 ∷ [])) }
        ensures works { OnOk result (W.failed writer.new ≡ W.failed writer.old) }
        ensures fails { OnErr result (W.failed writer.new ≡ true) }
    {
        self.push_text(writer, text)?;
        self.push_end(writer)?;
        Ok(())
    }

    /// Writes all of the bytes. Where the sink fails, a front of them was written.
    pub fn write_to<W: Sink>(&mut self, writer: &mut W) -> Result<(), Failed>
        ensures empty { OnOk result (self.new.bytes.items ≡ []) }
        ensures ok { OnOk result (WritesOut (W.contents writer.old) (W.contents writer.new) self.old.bytes.items) }
        ensures err { OnErr result
            (StopsInWaiting (W.contents writer.old) (W.contents writer.new) self.old.bytes.items) }
        ensures works { OnOk result (W.failed writer.new ≡ W.failed writer.old) }
        ensures fails { OnErr result (W.failed writer.new ≡ true) }
    {
        write_all(writer, self.bytes.as_slice())?;
        self.bytes.clear();
        Ok(())
    }

    /// As `write_to` where `is_asked`; else does nothing.
    pub fn write_if<W: Sink>(&mut self, is_asked: bool, writer: &mut W) -> Result<(), Failed>
        ensures ok { OnOk result (KeepsGathered (W.contents writer.old) (W.contents writer.new)
            self.old.bytes.items self.new.bytes.items) }
        ensures err { OnErr result
            (StopsInWaiting (W.contents writer.old) (W.contents writer.new) self.old.bytes.items) }
        ensures works { OnOk result (W.failed writer.new ≡ W.failed writer.old) }
        ensures fails { OnErr result (W.failed writer.new ≡ true) }
    {
        if !is_asked {
            return Ok(());
        }
        self.write_to(writer)?;
        Ok(())
    }
}
