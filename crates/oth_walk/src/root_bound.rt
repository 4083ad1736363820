//! The floor as one worker sees it.
ghost use Rattle.std.specs.Prelude.{◌≡◌, pos, negsuc, ◌≤ℤ◌};
ghost use Rattle.oth_pieces.specs.Watch.{IsSeatOf};

use oth_pieces::{Floor, FloorSeat};
use oth_rules::{Board, Scoring};
use oth_search::{Interval, Solved};

/// The greatest score that the root is known to reach, which workers read and raise: their floor, with one worker's
/// seat of it.
#[derive(Drop)]
pub struct RootBound<'f> {
    floor: &'f Floor,
    seat: FloorSeat,
    ghost sits: { IsSeatOf floor.now seat },
}

impl<'f> RootBound<'f> {
    /// The floor by this seat of it.
    pub fn of(floor: &'f Floor, seat: FloorSeat) -> RootBound<'f>
        requires { IsSeatOf floor.now seat }
    {
        RootBound { floor, seat }
    }

    /// The greatest score that the root is known to reach by now: the floor.
    pub(crate) fn floor(&mut self) -> i8
        ensures low { negsuc 63 ≤ℤ result }
        ensures high { result ≤ℤ pos 64 }
    {
        self.floor.read(&mut self.seat)
    }

    /// The root.
    pub(crate) fn board(&self) -> Board {
        self.floor.board()
    }

    /// The scoring of the root's values.
    pub(crate) fn scoring(&self) -> Scoring {
        self.floor.scoring()
    }

    /// The root with the floor as its lower bound.
    pub fn root(&mut self) -> Solved {
        above(self.floor, &mut self.seat)
    }

    /// Raises the floor by these bounds of the root. Where they are of another board they change nothing.
    pub(crate) fn raise(&mut self, bound: &Solved) {
        let _ = self.floor.raise(&mut self.seat, bound);
    }
}

// The root with the floor as its lower bound.
fn above(floor: &Floor, seat: &mut FloorSeat) -> Solved
    requires { IsSeatOf floor.now seat.old }
    ensures seat { IsSeatOf floor.now seat.new }
{
    let root = floor.board();
    let lower = floor.read(seat);
    Solved::of(&root, Interval { lower, upper: 64 }, floor.scoring())
}
