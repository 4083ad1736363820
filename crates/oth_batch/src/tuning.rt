//! The numbers that choose how boards are shared out among workers. What each was measured to bring stands in
//! docs/TUNING.md.

/// Boards or games whose jobs are made at once, at the most: enough that each of 16 workers has many, and so few that a
/// wrong entry of a book is soon met.
pub const MOST_JOBS: usize = 4_096;

/// Empty squares: up to here a board may have one worker for itself. All workers solve a larger one together, so that
/// the answers behind it do not wait long.
pub const ONE_WORKER_MAX_EMPTIES: u8 = 18;

/// Empty squares of the first board of a game's last turns: up to here one worker analyses them while others analyse
/// other games. The turns that are told where no number is given begin here.
pub(crate) const GAME_MAX_EMPTIES: u8 = 20;

/// Units of some 40 nanoseconds: the work that pays for a further thread, which takes some 0.3 milliseconds to start.
pub(crate) const EFFORT_OF_A_THREAD: u64 = 1 << 13;

/// Units of some 40 nanoseconds: a board that takes more isn't begun by a worker that waits for the answer of another
/// one, which would come as much later.
pub(crate) const EFFORT_IN_PASSING: u64 = 1 << 15;

/// Empty squares: the scores of all moves of a board take about as long as the answer of a board with this many more.
pub(crate) const EMPTIES_FOR_SCORES: u8 = 2;

/// Empty squares: from here on a board's search takes longer than its part of a job.
pub(crate) const JOB_MIN_EMPTIES: u8 = 4;

/// Boards of few empty squares in one job: to take a job and to leave what was found takes as long as the search of one
/// board of 5.
pub(crate) const BUNDLE_LEN: usize = 8;

/// How long a board of `empties` empty squares takes, in units of some 40 nanoseconds: 5.7 times as long with two more,
/// and nothing where a job doesn't pay.
pub(crate) fn effort_of(empties: u8) -> u64 {
    if empties < JOB_MIN_EMPTIES {
        return 0;
    }
    1 << (u32::from(empties) * 5 / 4).min(40)
}

/// Empty squares: from here on all workers together solve a board that no batch has. Below it the caller's thread does,
/// since starting others takes longer.
pub(crate) const ALL_WORKERS_MIN_EMPTIES: u8 = 13;

/// Empty squares of a board whose answer takes as long as what is asked: from here on what was found is kept for a
/// board that comes again, and where answers are asked is found for its images too. Below it to make a key and look it
/// up takes as long as the search.
pub(crate) const RECENT_MIN_EMPTIES: u8 = 9;

/// Boards of a run of which at least is kept what was found, the last ones: more than lines are read at once.
pub(crate) const RECENT_BOARDS: usize = 4_096;
