//! How boards are shared out among workers, by how long they take to solve.

ghost use Rattle.std.specs.Prelude.{◌≡◌, ◌≤◌};
ghost use Rattle.oth_rules.specs.Position.{empty_count};

use crate::asked::Asked;
use crate::tuning::{
    ALL_WORKERS_MIN_EMPTIES, EFFORT_OF_A_THREAD, EMPTIES_FOR_SCORES, GAME_MAX_EMPTIES,
    ONE_WORKER_MAX_EMPTIES, RECENT_MIN_EMPTIES, effort_of,
};
use oth_rules::Board;

/// How long it takes to find what is asked of a board, in units of some 40 nanoseconds; 0 where a job doesn't pay.
pub fn effort(asked: Asked, board: &Board) -> u64 {
    effort_of(empties_to_search(asked, board))
}

/// Returns how many of `workers` workers pay for a board that is no job: all of them from `ALL_WORKERS_MIN_EMPTIES`
/// empty squares on, and 1 below, where a search takes less time than the start of a further thread.
pub fn workers_for(asked: Asked, board: &Board, workers: u8) -> u8
    ensures few { result ≤ workers }
    ensures some { 1 ≤ workers → 1 ≤ result }
    ensures all { ALL_WORKERS_MIN_EMPTIES ≤ empty_count board.now → result ≡ workers }
{
    if empties_to_search(asked, board) < ALL_WORKERS_MIN_EMPTIES {
        workers.min(1)
    } else {
        workers
    }
}

/// The empty squares of a board whose answer takes as long as what is asked of this one.
pub(crate) fn empties_to_search(asked: Asked, board: &Board) -> u8
    ensures { empty_count board.now ≤ result }
{
    match asked {
        Asked::Answer | Asked::Game => board.empties(),
        Asked::Scores => board.empties() + EMPTIES_FOR_SCORES,
    }
}

/// Whether it takes longer to find what is asked of the board than to make its key and look that up.
pub(crate) fn is_worth_a_key(asked: Asked, board: &Board) -> bool {
    empties_to_search(asked, board) >= RECENT_MIN_EMPTIES
}

/// Whether what is found of the board is told in its turn, and not by a key. Each such board is asked for, since
/// nothing that was found of it lately is kept.
pub(crate) fn is_asked_in_turn(asked: Asked, board: &Board) -> bool {
    asked != Asked::Game && !is_worth_a_key(asked, board)
}

/// The most empty squares of a board of which one worker finds what is asked.
pub(crate) fn max_empties(asked: Asked) -> u8 {
    match asked {
        Asked::Answer | Asked::Scores => ONE_WORKER_MAX_EMPTIES,
        Asked::Game => GAME_MAX_EMPTIES,
    }
}

/// Who solves which boards of a batch.
#[derive(Clone, Copy)]
pub struct Split {
    /// The number of workers for which there is work.
    pub crew: usize,
    asked: Asked,
    most: u64,
}

impl Split {
    /// Splits the boards among as many workers as pay: at most `workers`, and no more than there are boards for one
    /// worker.
    pub fn of(asked: Asked, boards: &[Board], workers: u8) -> Split
        ensures { result.crew ≤ workers }
    {
        let mut total = 0u64;
        for board in boards {
            total = total.saturating_add(effort(asked, board));
        }
        let crew = (total / EFFORT_OF_A_THREAD).min(workers as u64);
        let most = total / crew.max(1);
        let crew = crew as usize;
        let split = Split { crew, asked, most };
        Split {
            crew: split.count(boards).min(crew),
            ..split
        }
    }

    /// Whether one worker solves this board as a job. One that takes longer than a worker's share of the batch is left
    /// to all of them, and one of few empty squares to whoever asks for it.
    pub fn is_for_one(&self, board: &Board) -> bool {
        let effort = effort(self.asked, board);
        effort > 0 && effort <= self.most
    }

    // The number of boards that one worker solves as jobs.
    fn count(&self, boards: &[Board]) -> usize {
        let mut count = 0usize;
        for board in boards {
            if self.is_for_one(board) {
                count = count.saturating_add(1);
            }
        }
        count
    }
}
