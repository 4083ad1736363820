//! Helpers that stay from one batch of jobs to the next.

ghost use Rattle.std.specs.Prelude.{◌≡◌, IfSome};
ghost use Rattle.std.specs.Thread.{IsSync};

use crate::batch::Batch;
use crate::beside::beside;
use crate::found::matching_answer;
use crate::jobs::Jobs;
use oth_pool::Gate;
use oth_rules::Board;
use oth_search::Answer;
use std::sync::{Condvar, Mutex, RwLock, RwLockReadGuard, Wait};
use std::thread::Threads;

// How many batches of jobs were given, and whether no further one comes.
#[derive(Clone, Copy, Drop)]
struct Given {
    batches: u64,
    is_over: bool,
}

/// Threads that do the jobs of one batch after the other, and wait in between: a thread that is started for each batch
/// often begins when the batch is half done.
#[derive(Drop)]
pub struct Crew<'b, R, G> {
    batch: &'b Batch<'b, R, G>,
    // How many threads are asked for.
    helpers: usize,
    // Those that were given last, if some were.
    jobs: RwLock<Option<Jobs<'b, R, G>>>,
    given: Mutex<Given>,
    changed: Condvar,
}

impl<'b, R: Wait + Threads + Sync, G: Gate> Crew<'b, R, G> {
    /// A crew of as many threads as pay for these jobs, the first ones that it is given; of none where there are none.
    pub fn of(batch: &'b Batch<'b, R, G>, jobs: Option<Jobs<'b, R, G>>) -> Self {
        let helpers = match &jobs {
            Some(jobs) => jobs.helpers(),
            None => 0,
        };
        Crew {
            batch,
            helpers,
            jobs: RwLock::new(jobs),
            given: Mutex::new(Given {
                batches: 1,
                is_over: false,
            }),
            changed: Condvar::new(),
        }
    }

    /// What boards are solved with.
    pub fn batch(&self) -> &'b Batch<'b, R, G> {
        self.batch
    }

    /// Gives the crew these jobs, or none. Waits until it is done with those before.
    pub fn give(&self, jobs: Option<Jobs<'b, R, G>>) {
        let rt = self.batch.rt;
        let has_jobs = jobs.is_some();
        *self.jobs.write(rt) = jobs;
        if has_jobs {
            let mut given = self.given.lock(rt);
            given.batches = given.batches.wrapping_add(1);
            drop(given);
            self.changed.notify_all();
        }
    }

    /// The jobs that were given last, if some were. While they are held no others can be given.
    pub fn jobs(&self) -> RwLockReadGuard<'_, Option<Jobs<'b, R, G>>> {
        self.jobs.read(self.batch.rt)
    }

    /// The answer of a board that is one of these jobs, if answers are asked. Waits as [`Jobs::answer_of`] does.
    pub fn answer_of(&self, board: &Board) -> Option<Answer>
        ensures board { IfSome result (λ a. a.board ≡ board.now) }
        ensures scoring { IfSome result (λ a. a.scoring ≡ self.now.batch.now.scoring) }
    {
        let given = self.jobs();
        let Some(jobs) = &*given else {
            return None;
        };
        let answer = jobs.answer_of(self.batch.rt, board)?;
        matching_answer(&answer, board, self.batch.scoring)
    }

    /// How many threads are asked for. Where some could not be made, fewer do the jobs, of later batches too.
    pub fn helpers(&self) -> usize {
        self.helpers
    }

    /// Calls `work`, which gives jobs and asks for what is found, in this thread, while the crew does them, where its
    /// threads can be made. Stops the jobs when `work` has returned, and waits for the threads.
    pub fn beside<W: FnMut() -> X, X>(&self, work: &mut W) -> X
        requires { W.pre work.old }
        ensures { W.step work.old result work.new }
    {
        let mut work_and_end = || -> X
            requires { IsSync R.row × IsSync G.row × W.pre work.now }
            ensures { W.step work.entry.now result work.exit.now }
        {
            let done = work();
            self.end();
            done
        };
        let rt = self.batch.rt;
        beside(rt, self.helpers, &|| self.help(), &mut work_and_end)
    }

    // Does the jobs of each batch, until no further one comes.
    fn help(&self) {
        let mut seen = 0;
        for _ in self.batch.rt.forever() {
            let given = self.next_given(seen);
            if given.is_over {
                break;
            }
            seen = given.batches;
            if let Some(jobs) = &*self.jobs() {
                jobs.work();
            }
        }
    }

    // Waits for a further batch than those that were `seen`, or until none comes.
    fn next_given(&self, seen: u64) -> Given {
        let rt = self.batch.rt;
        let given = self.given.lock(rt);
        *self
            .changed
            .wait_while(rt, given, |given: &mut Given| -> bool {
                given.batches == seen && !given.is_over
            })
    }

    // Stops the jobs, and tells the helpers that no further batch comes.
    fn end(&self) {
        if let Some(jobs) = &*self.jobs() {
            jobs.stop();
        }
        let mut given = self.given.lock(self.batch.rt);
        given.is_over = true;
        drop(given);
        self.changed.notify_all();
    }
}
