//! What boards are solved with: threads, memory, gate, book, workers, cells, scoring.

ghost use Rattle.std.specs.Prelude.{◌≡◌, IfErr, IfOk};
ghost use Rattle.std.specs.Thread.{IsSync};
ghost use Rattle.oth_pool.specs.Solving.{Refuses};

use crate::asked::{Asked, Found};
use crate::games::known_by;
use oth_book::Book;
use oth_pool::{Gate, SolveError, scores, solve};
use oth_rules::{Board, Scoring};
use oth_search::{Answer, Scores};
use oth_text::Turn;
use std::alloc::Global;
use std::thread::Threads;

/// What the boards of a batch are solved with. Answers depend on the scoring alone.
#[derive(Clone, Copy)]
pub struct Batch<'b, R, G> {
    /// Where the workers' threads come from.
    pub rt: &'b R,
    /// Where the tables and the lists come from.
    pub alloc: Global,
    /// Hears of each part of each search, from several boards at once.
    pub gate: &'b G,
    /// Is asked for each board before it is searched.
    pub book: Option<&'b Book>,
    /// The most workers that do jobs at once. Who asks for an answer meanwhile may solve that board itself.
    pub workers: u8,
    /// The most cells of each worker's table.
    pub cells: u32,
    /// The scoring of all boards.
    pub scoring: Scoring,
}

impl<'b, R: Threads + Sync, G: Gate> Batch<'b, R, G> {
    /// The answer of the board by `workers` workers, who ask `book` first, or the refusal of [`oth_pool::solve`].
    pub fn solve(
        &self,
        board: &Board,
        workers: u8,
        book: Option<&Book>,
    ) -> Result<Answer, SolveError>
        ensures board { IfOk result (λ a. a.board ≡ board.now) }
        ensures scoring { IfOk result (λ a. a.scoring ≡ self.now.scoring) }
        ensures err { IfErr result (Refuses board.now workers self.now.cells) }
    {
        let (rt, alloc, cells, scoring) = (self.rt, self.alloc, self.cells, self.scoring);
        solve(rt, alloc, board, workers, cells, self.gate, book, scoring)
    }

    /// The scores of the board's moves by `workers` workers, or the refusal of [`oth_pool::scores`].
    pub fn scores(&self, board: &Board, workers: u8) -> Result<Scores, SolveError>
        ensures board { IfOk result (λ s. s.answer.board ≡ board.now) }
        ensures scoring { IfOk result (λ s. s.answer.scoring ≡ self.now.scoring) }
        ensures err { IfErr result (Refuses board.now workers self.now.cells) }
    {
        let (rt, alloc, gate) = (self.rt, self.alloc, self.gate);
        let (cells, book, scoring) = (self.cells, self.book, self.scoring);
        scores(rt, alloc, board, workers, cells, gate, book, scoring)
    }

    // The answers of the boards of these turns, by one worker.
    fn known_of(&self, turns: &[Turn]) -> Book {
        let nothing = Book::new(self.alloc, self.scoring);
        known_by(
            nothing,
            turns,
            |board: &Board, known: &Book| -> Option<Answer>
                requires { IsSync R.row × IsSync G.row }
            { self.solve(board, 1, Some(known)).ok() },
        )
    }

    // What is asked of the board, by one worker; of a game, whose turns these are, of all of its boards.
    pub(crate) fn find(&self, asked: Asked, board: &Board, turns: &[Turn]) -> Option<Found> {
        match asked {
            Asked::Answer => Some(Found::Answer(self.solve(board, 1, self.book).ok()?)),
            Asked::Scores => Some(Found::Scores(self.scores(board, 1).ok()?)),
            Asked::Game => Some(Found::Known(self.known_of(turns))),
        }
    }
}
