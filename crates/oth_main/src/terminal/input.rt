//! The input of a run that is watched.

ghost use Rattle.std.specs.Prelude.{◌≡◌};

use super::progress::Progress;
use oth_text::{Failed, Source};

/// A source that hands on what it reads, and counts its lines where the run's progress is shown.
#[derive(Drop)]
pub struct Input<'w, R> {
    progress: &'w Progress,
    source: R,
    // Whether the last byte so far isn't 10.
    is_begun: bool,
}

impl<'w, R: Source> Input<'w, R> {
    /// The source, from which nothing was read.
    pub fn of(progress: &'w Progress, source: R) -> Self
        ensures remaining { ⟦<Input<'w, R> as Source>⟧.remaining result ≡ R.remaining source }
        ensures failed { ⟦<Input<'w, R> as Source>⟧.failed result ≡ R.failed source }
    {
        Input {
            progress,
            source,
            is_begun: false,
        }
    }

    /// The source.
    pub fn source(&self) -> &R
        ensures { result.now ≡ self.now.source }
    {
        &self.source
    }

    // Counts the lines that these bytes end, or the end of input.
    fn count(&mut self, bytes: &[u8])
        ensures { self.new.source ≡ self.old.source }
    {
        if !self.progress.is_shown {
            return;
        }
        let mut lines = lines_in(bytes);
        match bytes.last() {
            Some(byte) => self.is_begun = *byte != b'\n',
            None => {
                lines = u64::from(self.is_begun);
                self.is_begun = false;
            }
        }
        self.progress.has_read(lines);
    }
}

impl<'w, R: Source> Source for Input<'w, R> {
    ghost remaining = { λ s. R.remaining s.source };

    ghost failed = { λ s. R.failed s.source };

    fn read(&mut self, buffer: &mut [u8]) -> Result<usize, Failed> {
        self.progress.counts.rest();
        let taken = self.source.read(buffer);
        if let Ok(count) = taken {
            self.count(&buffer[..count]);
        }
        taken
    }

    fn failed(&self) -> bool {
        self.source.failed()
    }
}

// The number of lines that end within the bytes.
fn lines_in(bytes: &[u8]) -> u64 {
    let mut lines = 0u64;
    for byte in bytes {
        if *byte == b'\n' {
            lines = lines.saturating_add(1);
        }
    }
    lines
}
