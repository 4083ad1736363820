//! A sink of one's own: it keeps in memory what is written to it.

ghost use Rattle.std.specs.Prelude.{◌≡◌, [], Some, IfOk};
ghost use Rattle.oth_text.specs.Report.{report_line_of};

use oth_search::Answer;
use oth_text::{Failed, Sink, report_line, write_all};
use std::alloc::Global;

/// The bytes that were written. Where there is no memory for more, it has failed.
#[derive(Drop)]
pub struct KeptText {
    pub text: Vec<u8>,
    pub failed: bool,
    pub flushed: bool,
}

impl Sink for KeptText {
    ghost contents = { λ s. Some s.text.items };

    ghost failed = { λ s. s.failed };

    ghost flushed = { λ s. s.flushed };

    fn write(&mut self, buffer: &[u8]) -> Result<usize, Failed> {
        if self.text.extend_from_slice(buffer).is_err() {
            self.failed = true;
            return Err(Failed);
        }
        self.flushed = self.flushed && buffer.is_empty();
        Ok(buffer.len())
    }

    fn flush(&mut self) -> Result<(), Failed> {
        self.flushed = true;
        Ok(())
    }

    fn failed(&self) -> bool {
        self.failed
    }
}

/// The report line of an answer, in memory of its own.
pub fn kept_report(alloc: Global, answer: &Answer) -> Result<Vec<u8>, Failed>
    ensures { IfOk result (λ v. v.items ≡ report_line_of answer.now.scoring answer.now.board) }
{
    let mut kept = KeptText {
        text: Vec::new(alloc),
        failed: false,
        flushed: false,
    };
    write_all(&mut kept, report_line(answer).as_slice())?;
    Ok(kept.text)
}
