//! A job of several boards of few empty squares.

use crate::asked::Asked;
use crate::batch::Batch;
use crate::tuning::BUNDLE_LEN;
use arrayvec::ArrayVec;
use oth_pool::{Gate, claim};
use oth_rules::Board;
use oth_search::{Answer, Scores};
use std::sync::atomic::AtomicU64;
use std::sync::{OnceLock, Wait};
use std::thread::Threads;

/// The boards of a bundle.
pub(crate) type BundleBoards = ArrayVec<Board, BUNDLE_LEN>;

/// What was found of the boards of a bundle, in their order. Answers have their room here; where there is no memory for
/// scores, fewer are there.
#[derive(Drop)]
pub(crate) enum BundleFound {
    Answers(ArrayVec<Option<Answer>, BUNDLE_LEN>),
    Scores(Vec<Option<Scores>>),
}

impl BundleFound {
    /// The answer of the board at this place, if answers were asked.
    pub fn answer(&self, place: usize) -> Option<&Answer> {
        match self {
            BundleFound::Answers(answers) => answers.as_slice().get(place)?.as_ref(),
            BundleFound::Scores(_) => None,
        }
    }

    /// The scores of the board at this place, if scores were asked.
    pub fn scores(&self, place: usize) -> Option<&Scores> {
        match self {
            BundleFound::Answers(_) => None,
            BundleFound::Scores(scores) => scores.as_slice().get(place)?.as_ref(),
        }
    }
}

/// Boards that one worker searches one after the other, and what it finds of them: to take a job, and to leave what
/// was found, takes as long as the search of one.
#[derive(Drop)]
pub(crate) struct Bundle {
    boards: BundleBoards,
    // A word whose lowest bit says whether a worker has taken the bundle.
    taken: AtomicU64,
    found: OnceLock<BundleFound>,
}

impl Bundle {
    /// A bundle of these boards that nobody has taken.
    pub fn of(boards: BundleBoards) -> Bundle {
        Bundle {
            boards,
            taken: AtomicU64::new(0),
            found: OnceLock::new(),
        }
    }

    /// Whether this board is at this place of the bundle.
    pub fn has_at(&self, place: usize, board: &Board) -> bool {
        match self.boards.as_slice().get(place) {
            Some(there) => *there == *board,
            None => false,
        }
    }

    /// Takes the bundle and finds what is asked of its boards, unless it is taken. Whether it did.
    pub fn search<R: Threads + Sync, G: Gate>(
        &self,
        batch: &Batch<'_, R, G>,
        asked: Asked,
    ) -> bool {
        if !claim(&self.taken, 1) {
            return false;
        }
        let found = match asked {
            Asked::Scores => BundleFound::Scores(self.scores_by(batch)),
            Asked::Answer | Asked::Game => BundleFound::Answers(self.answers_by(batch)),
        };
        let _ = self.found.try_set(found);
        true
    }

    // The answers of the boards.
    fn answers_by<R: Threads + Sync, G: Gate>(
        &self,
        batch: &Batch<'_, R, G>,
    ) -> ArrayVec<Option<Answer>, BUNDLE_LEN> {
        let mut answers = ArrayVec::new();
        for board in self.boards.as_slice() {
            let _ = answers.try_push(batch.solve(board, 1, batch.book).ok());
        }
        answers
    }

    // The scores of the boards' moves.
    fn scores_by<R: Threads + Sync, G: Gate>(
        &self,
        batch: &Batch<'_, R, G>,
    ) -> Vec<Option<Scores>> {
        let mut scores = Vec::new(batch.alloc);
        for board in self.boards.as_slice() {
            let _ = scores.push(batch.scores(board, 1).ok());
        }
        scores
    }

    /// What was found, if it is there.
    pub fn found(&self) -> Option<&BundleFound> {
        self.found.get()
    }

    /// Waits until what was found is there, and returns it.
    pub fn awaited<T: Wait>(&self, rt: &T) -> &BundleFound {
        self.found.wait(rt)
    }
}
