//! What a search that was ended had come to, for a further search of the same root. No answer rests on it, but for the
//! bounds of the root's moves, which are true by their type.
ghost use Rattle.std.specs.Prelude.{◌≡◌, IfSome};
ghost use Rattle.oth_rules.specs.Laws.{IsScore};
ghost use Rattle.oth_search.specs.Bounds.Interval.{IsThreshold};

use super::orders::Orders;
use crate::bounds::board_hash;
use crate::root::{RootMoves, Round};
use arrayvec::ArrayVec;
use oth_rules::{Board, Scoring, Square};
use std::alloc::Global;

// Words, each for what one board seemed to have.
const SEEMING_WORDS: usize = 1024;

// The place of a word is taken from the bits of its key above this one.
const PLACE_SHIFT: u32 = 54;

// The bits of a word that tell a score.
const SCORE_BITS: u64 = 0xff;

/// What a search that was ended had come to, by which a further one goes on with little done twice: what boards seemed
/// to have in its guess, the order of moves on its way, and what it knew of the root's moves. It takes 11 KB of the
/// heap, or none and forgets the first two.
#[derive(Drop)]
pub struct Resume {
    words: Option<Vec<u64>>,
    orders: Orders,
    begun: Option<Begun>,
}

/// How far the root's moves were asked, once the guess was made.
#[derive(Drop)]
pub(crate) struct Begun {
    pub(crate) moves: RootMoves,
    pub(crate) round: Round,
}

impl Begun {
    // A copy.
    fn another(&self) -> Begun
        ensures { result.moves ≡ self.now.moves }
    {
        Begun {
            moves: self.moves.another(),
            round: self.round,
        }
    }
}

impl Resume {
    /// Of no search. Where memory is refused, it forgets what the guess saw and the orders.
    pub fn new(alloc: Global) -> Resume {
        Resume {
            words: vec![in alloc; 0u64; SEEMING_WORDS].ok(),
            orders: Orders::new(alloc),
            begun: None,
        }
    }

    /// Of no search, without memory for what a guess sees and for orders.
    pub fn none() -> Resume {
        Resume {
            words: None,
            orders: Orders::none(),
            begun: None,
        }
    }

    /// What the board seemed to have when it was asked at `alpha`, if that was told.
    pub(crate) fn told(&self, board: &Board, alpha: i8, scoring: Scoring) -> Option<i8>
        requires { IsThreshold alpha }
        ensures { IfSome result IsScore }
    {
        let key = key_of(board, alpha, scoring);
        let words = self.words.as_ref()?;
        let word = *words.get(place_of(key))?;
        score_of(word ^ key)
    }

    /// Tells what the board seems to have, asked at `alpha`.
    pub(crate) fn tell(&mut self, board: &Board, alpha: i8, scoring: Scoring, found: i8)
        requires threshold { IsThreshold alpha }
        requires score { IsScore found }
    {
        let key = key_of(board, alpha, scoring);
        if let Some(words) = &mut self.words {
            if let Some(word) = words.get_mut(place_of(key)) {
                *word = key ^ code_of(found);
            }
        }
    }

    /// The moves of the board in move order.
    pub(crate) fn kept_order(&mut self, board: &Board) -> ArrayVec<Square, 64> {
        self.orders.of(board)
    }

    /// Keeps how far a search of a root had come, in place of what was kept before.
    pub(crate) fn keep(&mut self, begun: Begun) {
        self.begun = Some(begun);
    }

    /// How far the last search that was kept had come, if it was of this root.
    pub(crate) fn begun(&self, board: &Board, scoring: Scoring) -> Option<Begun>
        ensures board { IfSome result (λ b. b.moves.board ≡ board.now) }
        ensures scoring { IfSome result (λ b. b.moves.scoring ≡ scoring) }
    {
        let begun = self.begun.as_ref()?;
        let root = begun.moves.root();
        if root.board == *board && root.scoring == scoring {
            return Some(begun.another());
        }
        None
    }
}

// A number that tells the board, the threshold and the scoring from most others, above the bits of a score.
fn key_of(board: &Board, alpha: i8, scoring: Scoring) -> u64
    requires { IsThreshold alpha }
{
    let asked = (i16::from(alpha) + 64) as u64;
    let told = match scoring {
        Scoring::Winner => asked,
        Scoring::Discs => asked + 128,
    };
    let key = board_hash(board).wrapping_add(told.wrapping_mul(0xd6e8_feb8_6659_fd93));
    // A word that was never told, 0, is the word of no key.
    (key & !SCORE_BITS) | (SCORE_BITS + 1)
}

// A score as a number from 0 to 128.
fn code_of(found: i8) -> u64
    requires { IsScore found }
{
    (i16::from(found) + 64) as u64
}

// The score of this number, if it is one of a score.
fn score_of(code: u64) -> Option<i8>
    ensures { IfSome result IsScore }
{
    if code > 128 {
        return None;
    }
    Some((code as i16 - 64) as i8)
}

// The place of the word with this key.
fn place_of(key: u64) -> usize {
    (key >> PLACE_SHIFT) as usize
}
