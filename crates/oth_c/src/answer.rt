//! Answers as C has them.

ghost use Rattle.std.specs.Prelude.{◌≡◌};
ghost use Rattle.oth_c.specs.Answers.{kind_number};

use oth_search::{Answer, Kind};

/// The value of a board for its mover, -64 to 64; all its best moves, bit `n` for square `n`; and what the mover does:
/// 0 moves, 1 passes, 2 the game is over.
#[repr(C)]
#[derive(Clone, Copy, PartialEq, Eq, Debug)]
pub struct OthAnswer {
    pub best: u64,
    pub score: i8,
    pub kind: u8,
}

impl OthAnswer {
    /// The numbers of an answer.
    pub fn of(answer: &Answer) -> OthAnswer
        ensures best { result.best ≡ answer.now.best }
        ensures score { result.score ≡ answer.now.score }
        ensures kind { result.kind ≡ kind_number answer.now.kind }
    {
        OthAnswer {
            best: answer.best,
            score: answer.score,
            kind: kind_number(answer.kind),
        }
    }
}

// The number of the kind in C: 0 a move, 1 a pass, 2 the end.
fn kind_number(kind: Kind) -> u8
    ensures { result ≡ kind_number kind }
{
    match kind {
        Kind::Move => 0,
        Kind::Pass => 1,
        Kind::End => 2,
    }
}
