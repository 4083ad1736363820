//! What was found of the last boards of a run, for boards that come again.

ghost use Rattle.std.specs.Prelude.{◌≡◌, IfSome};

use crate::asked::{Asked, Found, key_of};
use crate::found::copied;
use crate::split::is_worth_a_key;
use crate::tuning::RECENT_BOARDS;
use oth_rules::{Board, Scoring};
use oth_search::{Answer, Scores};
use std::alloc::Global;
use std::collections::HashMap;
use std::mem;
use std::sync::Mutex;

/// What was found of the last boards of which a run asked one thing, so that a board that comes again is not searched
/// again. An answer serves all eight images of its board. Boards of few empty squares are left out, since their search
/// takes no longer than a look. It is locked inside, so that `&self` can add. Where memory is refused, less is kept.
#[derive(Drop)]
pub struct Recent {
    alloc: Global,
    asked: Asked,
    kept: Mutex<Kept>,
}

// What was found, by the key of its board: of the last `RECENT_BOARDS` boards at least, and of no more than twice as
// many. Two generations: a full young map becomes the old one.
#[derive(Drop)]
struct Kept {
    young: HashMap<(u64, u64), Found>,
    old: HashMap<(u64, u64), Found>,
}

impl Kept {
    // What was found of the board of this key.
    fn get(&self, key: (u64, u64)) -> Option<&Found> {
        match self.young.get(&key) {
            Some(found) => Some(found),
            None => self.old.get(&key),
        }
    }

    // Keeps what was found of the board of this key.
    fn put(&mut self, alloc: Global, key: (u64, u64), found: Found) {
        if self.young.len() >= RECENT_BOARDS {
            self.old = mem::replace(&mut self.young, HashMap::new(alloc));
        }
        let _ = self.young.insert(key, found);
    }
}

impl Recent {
    /// Nothing was found yet of what is asked. It takes no memory.
    pub fn new(alloc: Global, asked: Asked) -> Recent {
        Recent {
            alloc,
            asked,
            kept: Mutex::new(Kept {
                young: HashMap::new(alloc),
                old: HashMap::new(alloc),
            }),
        }
    }

    /// Whether something was found of the board, or of an image of it where answers are asked.
    pub fn has(&self, board: &Board) -> bool {
        if !is_worth_a_key(self.asked, board) {
            return false;
        }
        match self.kept.try_lock() {
            Some(kept) => kept.get(key_of(self.asked, board)).is_some(),
            None => false,
        }
    }

    /// The answer of the board, if it was found, or that of an image.
    pub fn answer_of(&self, board: &Board, scoring: Scoring) -> Option<Answer>
        ensures board { IfSome result (λ a. a.board ≡ board.now) }
        ensures scoring { IfSome result (λ a. a.scoring ≡ scoring) }
    {
        if !is_worth_a_key(self.asked, board) {
            return None;
        }
        let kept = self.kept.try_lock()?;
        kept.get(key_of(self.asked, board))?
            .answer(self.alloc, board, scoring)
    }

    /// The scores of the board's moves, if they were found.
    pub fn scores_of(&self, board: &Board, scoring: Scoring) -> Option<Scores>
        ensures board { IfSome result (λ s. s.answer.board ≡ board.now) }
        ensures scoring { IfSome result (λ s. s.answer.scoring ≡ scoring) }
    {
        if !is_worth_a_key(self.asked, board) {
            return None;
        }
        let kept = self.kept.try_lock()?;
        copied(kept.get(key_of(self.asked, board))?.scores(board, scoring)?)
    }

    /// Keeps the answer.
    pub fn keep_answer(&self, answer: &Answer) {
        if is_worth_a_key(self.asked, &answer.board) {
            self.keep(&answer.board, Found::Answer(*answer));
        }
    }

    /// Keeps the scores.
    pub fn keep_scores(&self, scores: &Scores) {
        if !is_worth_a_key(self.asked, &scores.answer.board) {
            return;
        }
        if let Some(copy) = copied(scores) {
            self.keep(&scores.answer.board, Found::Scores(copy));
        }
    }

    // Keeps what was found of the board.
    fn keep(&self, board: &Board, found: Found) {
        if let Some(mut kept) = self.kept.try_lock() {
            kept.put(self.alloc, key_of(self.asked, board), found);
        }
    }
}
