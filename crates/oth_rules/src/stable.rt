//! Stable discs: discs that no move ever flips, and what they leave to be won.
//!
//! `specs/Stable` says what stable means by all continuations of the game, passes among them. The code finds such
//! discs by rounds: a disc is stable where along each of its four lines no empty square is in line with it, or the
//! edge of the board is beside it, or a disc of its side that is stable by an earlier round. `proofs/Shelters`
//! proves of one move that it can't flip such a disc, and that what keeps it stays; `proofs/StableValues` that each
//! stable disc takes two from the most that the mover can win.
ghost use Rattle.std.specs.Prelude.{◌≡◌, ◌<◌, pos, ◌-ℤ◌, ◌*◌, ◌≤ℤ◌, count_ones};
ghost use Rattle.oth_rules.specs.Square.{has, word_of, Direction, Back, Stay, Forth};
ghost use Rattle.oth_rules.specs.Score.{score_of};
ghost use Rattle.oth_rules.specs.Value.{value};
ghost use Rattle.oth_rules.specs.Laws.{IsScore};
ghost use Rattle.oth_rules.specs.Line.{direction_of};
ghost use Rattle.oth_rules.specs.Stable.{AreStable, IsLeftByStableDiscs, Adds, IsReach, is_backed};
ghost use Rattle.oth_rules.specs.declared.scoring.Scoring.{Scoring};

use crate::board::Board;
use crate::direction::Compass;
use crate::square::Square;

// The most rounds in which stable discs are found beside those of the rounds before.
const ROUNDS: u32 = 10;

impl Board {
    /// The most that the mover can still win, -64 to 64 under either scoring: what the opponent's stable discs leave. A
    /// disc is stable where no move ever flips it, whatever is played; those are counted that are found by the lines
    /// through them, and there may be more.
    pub fn most_by_stable_discs(&self) -> i8
        ensures value { (g : Scoring) → value (score_of g) self.now ≤ℤ result }
        ensures discs { IsLeftByStableDiscs self.now result }
        ensures score { IsScore result }
    {
        let stable = self.stable_discs().count_ones() as i8;
        64 - stable - stable
    }

    // Discs of the opponent that are stable.
    fn stable_discs(&self) -> u64
        ensures { AreStable self.now result }
    {
        let reach = Reach::of(self);
        let mut stable = 0;
        for _ in 0..ROUNDS {
            let more = reach.more_stable(self, stable);
            if more == stable {
                return stable;
            }
            stable = more;
        }
        stable
    }
}

// The squares in line with an empty one, along its row, its falling diagonal, its column and its rising diagonal.
#[derive(Clone, Copy)]
struct Reach {
    row: u64,
    falling: u64,
    column: u64,
    rising: u64,
}

impl Reach {
    // The reach of the empty squares of a board.
    fn of(board: &Board) -> Reach
        ensures { IsReach board.now result.row result.falling result.column result.rising }
    {
        let mut reach = Reach {
            row: 0,
            falling: 0,
            column: 0,
            rising: 0,
        };
        let mut rest = board.empty_squares();
        while rest != 0 {
            let square = Square::first_of(rest);
            rest &= !square.word();
            reach = reach.with(square);
        }
        reach
    }

    // The reach with one more empty square.
    fn with(self, square: Square) -> Reach
        ensures row { Adds (record { columns = Forth; rows = Stay }) square self.row result.row }
        ensures falling { Adds (record { columns = Forth; rows = Forth }) square self.falling result.falling }
        ensures column { Adds (record { columns = Stay; rows = Forth }) square self.column result.column }
        ensures rising { Adds (record { columns = Back; rows = Forth }) square self.rising result.rising }
    {
        let [row, falling, column, rising] = *square.line_masks();
        Reach {
            row: self.row | row,
            falling: self.falling | falling,
            column: self.column | column,
            rising: self.rising | rising,
        }
    }

    // The discs of the opponent that stable ones, and the edges of the board, keep from being flipped along each line.
    fn more_stable(&self, board: &Board, stable: u64) -> u64
        requires reach { IsReach board.now self.now.row self.now.falling self.now.column self.now.rising }
        requires stable { AreStable board.now stable }
        ensures { AreStable board.now result }
    {
        board.opp()
            & backed(Compass::East, self.row, stable)
            & backed(Compass::SouthEast, self.falling, stable)
            & backed(Compass::South, self.column, stable)
            & backed(Compass::SouthWest, self.rising, stable)
    }
}

// The squares at which nothing can be flipped along this line: no empty square reaches them, or they have no square
// beside them on one side, or one that is stable.
fn backed(line: Compass, reached: u64, stable: u64) -> u64
    ensures { result ≡ word_of (is_backed (direction_of line) (has reached) (has stable)) }
{
    let back = line.reversed();
    let inner = line.shifted(u64::MAX) & back.shifted(u64::MAX);
    !(reached & inner) | (line.shifted(stable) | back.shifted(stable))
}
