//! Why a run ends before its input does.

ghost use Rattle.std.specs.Prelude.{◌≡◌};

use thiserror::Error;

/// Why a run ended before its input did.
#[derive(Clone, Copy, Debug, PartialEq, Eq, Error)]
pub enum RunFault {
    /// The reader failed. The report of the lines that byte 10 had ended was written.
    #[error("a read failed")]
    Read,
    /// The writer failed. A beginning of the report was written.
    #[error("a write failed")]
    Write,
    /// The number of workers isn't 1 to 16. Nothing was read or written.
    #[error("there can be 1 to 16 workers")]
    Workers,
    /// The number of cells is neither 0 nor a power of two of at most 262,144. Nothing was read or written.
    #[error("a table has 0 cells, or a power of two of at most 262144")]
    Cells,
}

impl RunFault {
    ghost use Rattle.oth_run.specs.Run.{number_of};

    /// The number that `run error` is printed with.
    pub fn number(self) -> u8
        ensures { result ≡ number_of self }
    {
        match self {
            RunFault::Read => 1,
            RunFault::Write => 2,
            RunFault::Workers => 3,
            RunFault::Cells => 4,
        }
    }
}
