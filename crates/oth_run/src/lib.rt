//! The engine over bytes: it reads lines, and writes a report of each. Workers, tables, a book and the sizes of
//! `tuning` affect speed only: the report depends on the command, the scoring and the input alone.
//!
//! `running` has the run over all of an input: `Engine` (`engine`) goes through it in chunks of at most 262,144 bytes
//! (`buffer`), with the line that has begun (`line`: a line of any length in fixed space, taken in parts by the
//! readers of `oth_text`) and the bytes that wait to be written (`waiting`, at most 16,384). A line that ends is read
//! once, and its `Reading` (`reading`) tells its fault, whether its answer may take time, and its reply. `game` has the
//! reading of a game that is analysed, whose reply has several lines. What waits is written before each read, and
//! before and after each line whose answer may take time. A `ReportSink` (`report_sink`) hears of each line that is
//! answered. `lines` cuts bytes into lines. `checking` has settings that were tested, `Lawful`, so the pool's refusals
//! of workers and of cells are shown not to come, and no function of the engine asks for more.
//!
//! `Solver` (`solver`) is what boards are solved with, and how. Where there is more than one worker, the boards of the
//! whole lines in the chunk are the jobs of other workers (`ahead`), who stay from chunk to chunk, while the engine, or
//! `book-add`, answers these lines in their order: by an answer, or scores, of just this board and scoring, as soon as
//! it is there, else by `Solver`. So the report's proof knows nothing of workers but that an `Answer` is true.
#![tactic(auto)]

mod ahead;
mod buffer;
mod checking;
mod engine;
mod fault;
mod game;
mod line;
mod lines;
mod reading;
mod report_sink;
mod running;
mod solvable;
mod solver;
mod tuning;
mod waiting;

pub use ahead::jobs_of_new_boards;
pub use buffer::{long_buffer, longer};
pub use checking::{Lawful, check_settings};
pub use fault::RunFault;
pub use lines::split_line;
pub use report_sink::ReportSink;
pub use running::{run, run_judged};
pub use solver::Solver;
pub use tuning::STACK_CHUNK;
