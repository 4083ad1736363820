//! The solver for several threads over one table. Each has a seat of it, and makes its calls by itself.

ghost use Rattle.std.specs.Prelude.{◌≡◌, ◌≢◌, IfOk, IfErr, None};
ghost use Rattle.oth_table.specs.Sizes.{IsSize};
ghost use Rattle.oth_c.specs.Codes.{code_of};
ghost use Rattle.oth_c.specs.Seats.{is_held, IsOpenedAt, Opens, Joins, Solves, IsKept};
ghost use Rattle.oth_c.specs.Seats.{DecidesIn, Leaves, RefusesCells, RefusesTable, RefusesSeat, RefusesBoard};
ghost use Rattle.oth_c.specs.declared.refusal.Refusal.{Refusal as RefusedBy};

use crate::answer::OthAnswer;
use crate::board::OthBoard;
use crate::refusal::{DONE, Refusal, deliver};
use crate::seat::OthSeat;
use crate::seated::{SeatSlot, Seated};
use crate::solving::scoring_of;
use crate::within::OthBounds;
use oth_rules::{Board, Scoring};
use oth_search::MOST_EMPTIES;
use std::alloc::Global;

/// Makes a table of `cells` cells, 1, 2, 4 .. 262,144, for boards under the scoring of this number, 0 or 1, and its
/// first seat where there was none. Refusals 32, 4, 6 and 33, tested in this order; they leave the seat as it was.
#[unsafe(no_mangle)]
pub extern "C" fn oth_table_new(alloc: Global, cells: u32, scoring: u8, seat: &mut OthSeat) -> u32
    ensures opened { result ≡ DONE → Opens scoring cells seat.old.held seat.new.held }
    ensures refused { result ≢ DONE
        → (r : RefusedBy) × (result ≡ code_of r) × RefusesTable seat.old.held scoring cells r }
    ensures kept { result ≢ DONE → seat.new.held ≡ seat.old.held }
{
    match opened(alloc, cells, scoring, seat) {
        Ok(()) => DONE,
        Err(refusal) => refusal.code(),
    }
}

// Makes the table and the seat, or gives the first refusal.
fn opened(alloc: Global, cells: u32, scoring: u8, seat: &mut OthSeat) -> Result<(), Refusal>
    ensures ok { IfOk result (λ u. Opens scoring cells seat.old.held seat.new.held) }
    ensures err { IfErr result (λ r. RefusesTable seat.old.held scoring cells r × (seat.new.held ≡ seat.old.held)) }
{
    if is_held(alloc, seat) {
        return Err(Refusal::Taken);
    }
    let scoring = scoring_of(scoring)?;
    seat.put(first_place(alloc, cells, scoring)?);
    Ok(())
}

// The first seat of a new table, at a place of its own.
fn first_place(alloc: Global, cells: u32, scoring: Scoring) -> Result<Box<SeatSlot>, Refusal>
    ensures ok { IfOk result (λ b. IsSize cells × IsOpenedAt cells scoring b.value.seated) }
    ensures err { IfErr result (RefusesCells cells) }
{
    let seated = Seated::new(alloc, cells, scoring)?;
    let place = SeatSlot {
        seated: Some(seated),
    };
    match Box::new(alloc, place) {
        Ok(place) => Ok(place),
        Err(_) => Err(Refusal::Memory),
    }
}

// Whether there is a seat, which stays.
fn is_held(alloc: Global, seat: &mut OthSeat) -> bool
    ensures held { result ≡ is_held seat.old.held }
    ensures kept { seat.new.held ≡ seat.old.held }
{
    let Some(place) = seat.take(alloc) else {
        return false;
    };
    let is_held = place.seated.is_some();
    seat.put(place);
    is_held
}

/// Makes a further seat of the table of `seat`, where there was none: each thread has one of its own. Refusals 31, 32
/// and 33, tested in this order; they leave both seats as they were.
#[unsafe(no_mangle)]
pub extern "C" fn oth_seat_new(alloc: Global, seat: &mut OthSeat, more: &mut OthSeat) -> u32
    ensures joined { result ≡ DONE → Joins seat.old.held seat.new.held more.old.held more.new.held }
    ensures refused { result ≢ DONE
        → (r : RefusedBy) × (result ≡ code_of r) × RefusesSeat seat.old.held more.old.held r }
    ensures kept { result ≢ DONE → (seat.new.held ≡ seat.old.held) × (more.new.held ≡ more.old.held) }
{
    match joined(alloc, seat, more) {
        Ok(()) => DONE,
        Err(refusal) => refusal.code(),
    }
}

// Makes the further seat, or gives the first refusal.
fn joined(alloc: Global, seat: &mut OthSeat, more: &mut OthSeat) -> Result<(), Refusal>
    ensures ok { IfOk result (λ u. Joins seat.old.held seat.new.held more.old.held more.new.held) }
    ensures err { IfErr result (λ r. RefusesSeat seat.old.held more.old.held r
        × (seat.new.held ≡ seat.old.held) × (more.new.held ≡ more.old.held)) }
{
    let Some(mut place) = seat.take(alloc) else {
        return Err(Refusal::NoSeat);
    };
    let result = joined_at(alloc, &mut place.seated, more);
    seat.put(place);
    result
}

// As `joined`, of what is at the place of the first seat.
fn joined_at(alloc: Global, seated: &mut Option<Seated>, more: &mut OthSeat) -> Result<(), Refusal>
    ensures ok { IfOk result (λ u. Joins seated.old seated.new more.old.held more.new.held) }
    ensures err { IfErr result (λ r. RefusesSeat seated.old more.old.held r
        × (seated.new ≡ seated.old) × (more.new.held ≡ more.old.held)) }
{
    let Some(seated) = seated else {
        return Err(Refusal::NoSeat);
    };
    if is_held(alloc, more) {
        return Err(Refusal::Taken);
    }
    let Ok(mut place) = Box::new(alloc, SeatSlot { seated: None }) else {
        return Err(Refusal::Memory);
    };
    let another = seated.another(alloc)?;
    place.seated = Some(another);
    more.put(place);
    Ok(())
}

/// Searches the board by `search`, which takes what is at the seat and gives it back. Returns what it found, or the
/// first refusal.
pub fn search_over<R, F: FnOnce(Seated, Board) -> (Seated, R)>(
    alloc: Global,
    seat: &mut OthSeat,
    board: OthBoard,
    search: F,
) -> Result<R, Refusal>
    requires { F.IsAlwaysCallable search }
    ensures found { IfOk result (Leaves R (F.post search) seat.old.held seat.new.held board) }
    ensures err { IfErr result (λ r. RefusesBoard seat.old.held board r × (seat.new.held ≡ seat.old.held)) }
{
    let board = board.board()?;
    if board.empties() > MOST_EMPTIES {
        return Err(Refusal::Empties);
    }
    let Some(mut place) = seat.take(alloc) else {
        return Err(Refusal::NoSeat);
    };
    match place.seated.take() {
        Some(seated) => {
            let (seated, found) = search(seated, board);
            place.seated = Some(seated);
            seat.put(place);
            Ok(found)
        }
        None => Err(Refusal::NoSeat),
    }
}

/// Writes the score and all best moves of a board of at most 30 empty squares by full minimax and the table's scoring,
/// and what its mover does: exact, whatever other threads do over the table meanwhile. Refusals 1, 5 and 31, tested in
/// this order; they leave the seat as it was.
#[unsafe(no_mangle)]
pub extern "C" fn oth_solve_over(
    alloc: Global,
    seat: &mut OthSeat,
    board: OthBoard,
    answer: &mut OthAnswer,
) -> u32
    ensures answered { result ≡ DONE → Solves seat.old.held board answer.new }
    ensures same { IsKept seat.old.held seat.new.held }
    ensures refused { result ≢ DONE → (r : RefusedBy) × (result ≡ code_of r) × RefusesBoard seat.old.held board r }
    ensures kept { result ≢ DONE → (seat.new.held ≡ seat.old.held) × (answer.new ≡ answer.old) }
{
    let found = search_over(alloc, seat, board, |seated, board| {
        seated.solve(alloc, board)
    });
    deliver(found.map(|found| OthAnswer::of(&found)), answer)
}

/// Writes true bounds of the value of a board of at most 30 empty squares, under the table's scoring, that tell whether
/// it is above `alpha`: the lower one is above it, or the upper one isn't. Refusals 1, 5 and 31, tested in this order;
/// they leave the seat as it was.
#[unsafe(no_mangle)]
pub extern "C" fn oth_null_window(
    alloc: Global,
    seat: &mut OthSeat,
    board: OthBoard,
    alpha: i8,
    bounds: &mut OthBounds,
) -> u32
    ensures decided { result ≡ DONE → DecidesIn seat.old.held board alpha bounds.new.lower bounds.new.upper }
    ensures same { IsKept seat.old.held seat.new.held }
    ensures refused { result ≢ DONE → (r : RefusedBy) × (result ≡ code_of r) × RefusesBoard seat.old.held board r }
    ensures kept { result ≢ DONE → (seat.new.held ≡ seat.old.held) × (bounds.new ≡ bounds.old) }
{
    let found = search_over(alloc, seat, board, |seated, board| {
        seated.null_window(alloc, board, alpha)
    });
    deliver(found.map(|found| OthBounds::of(found.interval)), bounds)
}

/// Frees a seat, and with the last seat its table. Where there is none nothing is done.
#[unsafe(no_mangle)]
pub extern "C" fn oth_seat_free(alloc: Global, seat: &mut OthSeat)
    ensures { seat.new.held ≡ None }
{
    let _gone = seat.take(alloc);
}
