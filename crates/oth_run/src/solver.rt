//! What the boards of a run are solved with: the batch, lawful settings, and what was found of the last boards.

ghost use Rattle.std.specs.Prelude.{◌≡◌, ◌≤◌, ◌<◌, ◌↔◌, IsErr, IfErr, IfOk};
ghost use Rattle.std.specs.Thread.{IsSync};
ghost use Rattle.oth_rules.specs.Position.{empty_count};
ghost use Rattle.oth_text.specs.Analysis.{HasFewEmpties};
ghost use Rattle.oth_text.specs.Ranking.{scores_line_of};

use crate::ahead::asked_by;
use crate::checking::Lawful;
use arrayvec::ArrayVec;
use oth_batch::{Asked, Batch, Crew, Jobs, Recent, known_by, workers_for};
use oth_book::Book;
use oth_pool::Gate;
use oth_rules::Board;
use oth_search::{Answer, MOST_EMPTIES, Scores, TooManyEmpties};
use oth_text::{JudgedTurn, SCORES_LINE_LEN, Turn, scores_line};
use std::alloc::Global;
use std::sync::Wait;
use std::thread::Threads;

/// What boards are solved with, and how.
#[derive(Drop)]
pub struct Solver<'s, T, G> {
    /// What boards are solved with, one by one or side by side.
    pub batch: Batch<'s, T, G>,
    /// The command, the scoring, and the lawful numbers of workers and cells.
    pub settings: Lawful,
    /// What was found of the last boards.
    pub recent: Recent,
    pub ghost workers: { batch.workers ≡ settings.workers },
    pub ghost cells: { batch.cells ≡ settings.cells },
    pub ghost scoring: { batch.scoring ≡ settings.scoring },
}

impl<'s, T: Threads + Sync, G: Gate> Solver<'s, T, G> {
    /// No jobs, with the lifetimes of some.
    pub fn no_jobs(&self) -> Option<&Jobs<'s, T, G>> {
        None
    }

    /// No crew, with the lifetimes of one.
    pub fn no_crew(&self) -> Option<&Crew<'s, T, G>> {
        None
    }

    /// Solves as the settings say, with threads of `rt`, memory of `alloc`, and a gate that hears of each part of each
    /// search. A book that is given is asked for each board before it is searched. Nothing was found yet.
    pub fn of(
        rt: &'s T,
        alloc: Global,
        gate: &'s G,
        book: Option<&'s Book>,
        settings: Lawful,
    ) -> Self
        ensures { result.settings ≡ settings }
    {
        let asked = settings.get();
        Solver {
            batch: Batch {
                rt,
                alloc,
                gate,
                book,
                workers: asked.workers,
                cells: asked.cells,
                scoring: asked.scoring,
            },
            recent: Recent::new(alloc, asked_by(asked.command).unwrap_or(Asked::Answer)),
            settings,
        }
    }

    /// Tells the gate that a board is awaited, unless no search takes it.
    pub(crate) fn awaits(&self, board: &Board) -> Result<(), TooManyEmpties>
        ensures refused { IsErr result ↔ (30 < empty_count board.now) }
        ensures counted { IfErr result (λ e. e.empties ≡ empty_count board.now) }
    {
        let empties = board.empties();
        if empties > MOST_EMPTIES {
            return Err(TooManyEmpties { empties });
        }
        self.batch.gate.awaits(board);
        Ok(())
    }

    /// The value and all best moves of a board, by this book and as many workers as pay for one board. What was found
    /// lately is not searched again.
    pub(crate) fn answer_by(&self, board: &Board, book: Option<&Book>) -> Answer
        requires { empty_count board.now ≤ 30 }
        ensures board { result.board ≡ board.now }
        ensures scoring { result.scoring ≡ self.now.settings.scoring }
    {
        if let Some(answer) = self.recent.answer_of(board, self.batch.scoring) {
            return answer;
        }
        let lawful = self.settings.get();
        let workers = workers_for(Asked::Answer, board, lawful.workers);
        match self.batch.solve(board, workers, book) {
            Ok(answer) => {
                self.recent.keep_answer(&answer);
                answer
            }
            Err(_) => unreachable!(),
        }
    }

    /// The turn with what it is worth, by this book.
    pub fn judged(&self, turn: &Turn, known: &Book) -> JudgedTurn
        requires { HasFewEmpties turn.now }
        ensures turn { result.turn ≡ turn.now }
        ensures scoring { result.answer.scoring ≡ self.now.settings.scoring }
    {
        let answer = self.answer_by(&turn.before.board, Some(known));
        let after = self.answer_by(&turn.after, Some(known));
        JudgedTurn::of(*turn, answer, &after)
    }

    // The scores of a board's moves, by as many workers as pay for one board.
    fn scores_of(&self, board: &Board) -> Scores
        requires { empty_count board.now ≤ 30 }
        ensures board { result.answer.board ≡ board.now }
        ensures scoring { result.answer.scoring ≡ self.now.settings.scoring }
    {
        let lawful = self.settings.get();
        let workers = workers_for(Asked::Scores, board, lawful.workers);
        match self.batch.scores(board, workers) {
            Ok(scores) => scores,
            Err(_) => unreachable!(),
        }
    }
}

impl<'s, T: Wait + Threads + Sync, G: Gate> Solver<'s, T, G> {
    /// The answers of the boards before and after these turns, as a book, found from the last turn to the first. If a
    /// job begins with their first board, waits for the worker that has it, or takes the job. A board of which that
    /// tells no answer is solved here. One for which there is no memory is left out.
    pub fn known_of(&self, jobs: Option<&Jobs<'_, T, G>>, turns: &[Turn]) -> Book {
        if let Some(turn) = turns.first() {
            self.batch.gate.awaits(&turn.before.board);
        }
        let found = match jobs {
            Some(jobs) => jobs.known_of(self.batch.rt, turns),
            None => None,
        };
        let nothing = Book::new(self.batch.alloc, self.batch.scoring);
        known_by(
            nothing,
            turns,
            |board: &Board, known: &Book| -> Option<Answer>
                requires { IsSync T.row × IsSync G.row }
            {
                self.awaits(board).ok()?;
                let book = match found {
                    Some(found) if found.find(board).is_some() => found,
                    _ => known,
                };
                Some(self.answer_by(board, Some(book)))
            },
        )
    }

    /// The value and all best moves of a board: those that its job found, where it is one, and else found here.
    pub fn find_answer(
        &self,
        jobs: Option<&Jobs<'_, T, G>>,
        board: &Board,
    ) -> Result<Answer, TooManyEmpties>
        ensures refused { IsErr result ↔ (30 < empty_count board.now) }
        ensures counted { IfErr result (λ e. e.empties ≡ empty_count board.now) }
        ensures board { IfOk result (λ a. a.board ≡ board.now) }
        ensures scoring { IfOk result (λ a. a.scoring ≡ self.now.settings.scoring) }
    {
        self.awaits(board)?;
        Ok(self.awaited_answer(jobs, board))
    }

    /// Returns the board's answer. If the board is a job, waits for the worker that has it, or takes the job; else
    /// solves the board here.
    pub(crate) fn awaited_answer(&self, jobs: Option<&Jobs<'_, T, G>>, board: &Board) -> Answer
        requires { empty_count board.now ≤ 30 }
        ensures board { result.board ≡ board.now }
        ensures scoring { result.scoring ≡ self.now.settings.scoring }
    {
        let found = match jobs {
            Some(jobs) => jobs.answer_of(self.batch.rt, board),
            None => None,
        };
        match found {
            Some(answer) if answer.scoring == self.batch.scoring => {
                self.recent.keep_answer(&answer);
                answer
            }
            _ => self.answer_by(board, self.batch.book),
        }
    }

    /// Returns the board's scores line. If the board is a job, waits for the worker that has it, or takes the job; else
    /// scores its moves here.
    pub(crate) fn awaited_scores_line(
        &self,
        jobs: Option<&Jobs<'_, T, G>>,
        board: &Board,
    ) -> ArrayVec<u8, SCORES_LINE_LEN>
        requires { empty_count board.now ≤ 30 }
        ensures { result.items ≡ scores_line_of self.now.settings.scoring board.now }
    {
        let scoring = self.batch.scoring;
        if let Some(scores) = self.recent.scores_of(board, scoring) {
            return scores_line(&scores);
        }
        let found = match jobs {
            Some(jobs) => jobs.scores_of(self.batch.rt, board),
            None => None,
        };
        match found {
            Some(scores) if scores.answer.scoring == scoring => {
                self.recent.keep_scores(scores);
                scores_line(scores)
            }
            _ => {
                let scores = self.scores_of(board);
                self.recent.keep_scores(&scores);
                scores_line(&scores)
            }
        }
    }
}
