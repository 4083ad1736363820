//! The solver for a caller who can't wait: a search that may be ended before it is done, by a limit or from another
//! thread.

ghost use Rattle.std.specs.Prelude.{◌≡◌, ◌≢◌, IfOk, IfErr};
ghost use Rattle.oth_c.specs.Codes.{code_of};
ghost use Rattle.oth_c.specs.Seats.{Solves, SolvesFully, EnclosesIn, EnclosesFully, IsKept};
ghost use Rattle.oth_c.specs.Seats.{RefusesBoard, seat_code};
ghost use Rattle.oth_c.specs.Scores.{AreKnown, AreTold, IsToldAt, IsFirstOf, TellsKnown};
ghost use Rattle.oth_c.specs.declared.refusal.Refusal.{Refusal as RefusedBy};

use crate::answer::OthAnswer;
use crate::board::OthBoard;
use crate::refusal::{DONE, Refusal, STOPPED};
use crate::scores::NO_SCORE;
use crate::seat::OthSeat;
use crate::sharing::search_over;
use oth_search::{Answer, Interval, RootMove, Stopped, surest_of};
use std::alloc::Global;

/// Bounds of the value of a board for its mover, -64 to 64.
#[repr(C)]
#[derive(Clone, Copy, PartialEq, Eq, Debug)]
pub struct OthBounds {
    pub lower: i8,
    pub upper: i8,
}

impl OthBounds {
    /// The numbers of bounds.
    pub fn of(interval: Interval) -> OthBounds
        ensures lower { result.lower ≡ interval.lower }
        ensures upper { result.upper ≡ interval.upper }
    {
        let Interval { lower, upper } = interval;
        OthBounds { lower, upper }
    }
}

/// What is known of a board and of its moves: bounds of its value; the square of a move that is known to give as much
/// as any is known to give, of several the one that seemed best, or 64 exactly where there is no move; its legal
/// squares; and bounds of what each move gives, seen from who moves, at its square. At a square that is no legal move
/// stands -128.
#[repr(C)]
#[derive(Clone, Copy, PartialEq, Eq, Debug)]
pub struct OthKnown {
    pub bounds: OthBounds,
    pub first: u8,
    pub moves: u64,
    pub lower: [i8; 64],
    pub upper: [i8; 64],
}

impl OthKnown {
    // The numbers of what was known when a search ended.
    fn of(stopped: &Stopped) -> OthKnown
        requires board { stopped.now.moves.board ≡ stopped.now.known.board }
        requires scoring { stopped.now.moves.scoring ≡ stopped.now.known.scoring }
        ensures lower { result.bounds.lower ≡ stopped.now.known.interval.lower }
        ensures upper { result.bounds.upper ≡ stopped.now.known.interval.upper }
        ensures known { AreKnown stopped.now.known.board stopped.now.known.scoring result }
    {
        let moves = stopped.moves.as_slice();
        let (lower, upper) = by_square(moves);
        OthKnown {
            bounds: OthBounds::of(stopped.known.interval),
            first: first_of(moves),
            moves: stopped.known.board.moves(),
            lower,
            upper,
        }
    }
}

// What stands in place of a square where there is none.
const NO_SQUARE: u8 = 64;

// The square of the surest of these moves, if there is one.
fn first_of(moves: &[RootMove]) -> u8
    ensures { IsFirstOf moves.now result }
{
    match surest_of(moves) {
        Some(root_move) => root_move.square.number(),
        None => NO_SQUARE,
    }
}

// The lower bounds that stand at each square, and the upper ones.
fn by_square(moves: &[RootMove]) -> ([i8; 64], [i8; 64])
    ensures { AreTold moves.now result.0 result.1 }
{
    let mut lower = [NO_SCORE; 64];
    let mut upper = [NO_SCORE; 64];
    for number in 0..64 {
        let bounds = bounds_at(moves, number);
        lower[number] = bounds.lower;
        upper[number] = bounds.upper;
    }
    (lower, upper)
}

// The bounds that stand at the square of this number.
fn bounds_at(moves: &[RootMove], number: usize) -> OthBounds
    ensures { IsToldAt moves.now number result.lower result.upper }
{
    for root_move in moves {
        if usize::from(root_move.square.number()) == number {
            return OthBounds::of(root_move.child.interval.turned());
        }
    }
    OthBounds {
        lower: NO_SCORE,
        upper: NO_SCORE,
    }
}

/// As `oth_solve_over`, by a search that looks up at most about `most` boards, and ends too once `oth_stop_set` has set
/// the table's flag. Where it has no answer by then it gives 41, and true bounds of the board's value in its place.
/// Refusals 1, 5 and 31, tested in this order; they leave the seat as it was.
#[unsafe(no_mangle)]
pub extern "C" fn oth_solve_within(
    alloc: Global,
    seat: &mut OthSeat,
    board: OthBoard,
    most: u64,
    answer: &mut OthAnswer,
    bounds: &mut OthBounds,
) -> u32
    ensures answered { result ≡ DONE → Solves seat.old.held board answer.new }
    ensures stopped { result ≡ STOPPED → EnclosesIn seat.old.held board bounds.new.lower bounds.new.upper }
    ensures same { IsKept seat.old.held seat.new.held }
    ensures refused { result ≢ DONE → result ≢ STOPPED
        → (r : RefusedBy) × (result ≡ code_of r) × RefusesBoard seat.old.held board r }
    ensures unanswered { result ≢ DONE → answer.new ≡ answer.old }
    ensures unbounded { result ≢ STOPPED → bounds.new ≡ bounds.old }
    ensures kept { result ≢ DONE → result ≢ STOPPED → seat.new.held ≡ seat.old.held }
{
    match found_within(alloc, seat, board, most) {
        Ok(Ok(found)) => {
            *answer = OthAnswer::of(&found);
            DONE
        }
        Ok(Err(stopped)) => {
            *bounds = OthBounds::of(stopped.known.interval);
            STOPPED
        }
        Err(refusal) => refusal.code(),
    }
}

/// As `oth_solve_within`, and where it gives 41 it writes true bounds of each move too, and which one to play. Refusals
/// 1, 5 and 31, tested in this order; they leave the seat as it was.
#[unsafe(no_mangle)]
pub extern "C" fn oth_solve_until(
    alloc: Global,
    seat: &mut OthSeat,
    board: OthBoard,
    most: u64,
    answer: &mut OthAnswer,
    known: &mut OthKnown,
) -> u32
    ensures answered { result ≡ DONE → Solves seat.old.held board answer.new }
    ensures stopped { result ≡ STOPPED → TellsKnown seat.old.held board known.new }
    ensures same { IsKept seat.old.held seat.new.held }
    ensures refused { result ≢ DONE → result ≢ STOPPED
        → (r : RefusedBy) × (result ≡ code_of r) × RefusesBoard seat.old.held board r }
    ensures unanswered { result ≢ DONE → answer.new ≡ answer.old }
    ensures untold { result ≢ STOPPED → known.new ≡ known.old }
    ensures kept { result ≢ DONE → result ≢ STOPPED → seat.new.held ≡ seat.old.held }
{
    match found_within(alloc, seat, board, most) {
        Ok(Ok(found)) => {
            *answer = OthAnswer::of(&found);
            DONE
        }
        Ok(Err(stopped)) => {
            *known = OthKnown::of(&stopped);
            STOPPED
        }
        Err(refusal) => refusal.code(),
    }
}

// The answer or what is known by then, or the first refusal.
fn found_within(
    alloc: Global,
    seat: &mut OthSeat,
    board: OthBoard,
    most: u64,
) -> Result<Result<Answer, Stopped>, Refusal>
    ensures full { IfOk result (λ f. IfOk f (SolvesFully seat.old.held board)) }
    ensures known { IfOk result (λ f. IfErr f (EnclosesFully seat.old.held board)) }
    ensures same { IsKept seat.old.held seat.new.held }
    ensures err { IfErr result (λ r. RefusesBoard seat.old.held board r × (seat.new.held ≡ seat.old.held)) }
{
    search_over(alloc, seat, board, |seated, board| {
        seated.solve_within(alloc, board, most)
    })
}

/// Sets the flag of the seat's table: calls of `oth_solve_within` over that table end, those that are under way and
/// those that begin before `oth_stop_clear`. Refusal 31.
#[unsafe(no_mangle)]
pub extern "C" fn oth_stop_set(alloc: Global, seat: &mut OthSeat) -> u32
    ensures code { result ≡ seat_code seat.old.held }
    ensures kept { seat.new.held ≡ seat.old.held }
{
    tell_all(alloc, seat, true)
}

/// Clears the flag of the seat's table. Refusal 31.
#[unsafe(no_mangle)]
pub extern "C" fn oth_stop_clear(alloc: Global, seat: &mut OthSeat) -> u32
    ensures code { result ≡ seat_code seat.old.held }
    ensures kept { seat.new.held ≡ seat.old.held }
{
    tell_all(alloc, seat, false)
}

// Tells all seats of the table whether their searches are to end.
fn tell_all(alloc: Global, seat: &mut OthSeat, are_to_end: bool) -> u32
    ensures code { result ≡ seat_code seat.old.held }
    ensures kept { seat.new.held ≡ seat.old.held }
{
    let Some(place) = seat.take(alloc) else {
        return Refusal::NoSeat.code();
    };
    let code = match &place.seated {
        Some(seated) => {
            seated.tell_all(are_to_end);
            DONE
        }
        None => Refusal::NoSeat.code(),
    };
    seat.put(place);
    code
}
