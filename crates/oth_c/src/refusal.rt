//! The refusals, and the numbers by which C knows them.

ghost use Rattle.std.specs.Prelude.{◌≡◌, ◌≢◌, IfErr, IfOk};
ghost use Rattle.oth_c.specs.Codes.{code_of};

/// What an export answers where it did what it was asked for.
pub const DONE: u32 = 0;

/// What an export answers where its search was ended before it was done: no refusal, and no answer yet.
pub const STOPPED: u32 = 41;

/// Why an export refuses. A reader's own faults have numbers beside these.
#[derive(Clone, Copy, PartialEq, Eq, Debug)]
pub enum Refusal {
    /// 1: a square has discs of both sides.
    Overlap,
    /// 2: the number of a square is 64 or more.
    Square,
    /// 3: the move is illegal.
    Illegal,
    /// 4: the scoring is neither 0 nor 1.
    Scoring,
    /// 5: more than 30 squares are empty.
    Empties,
    /// 6: the cells are neither 0 nor one of 1, 2, 4 .. 262,144.
    Cells,
    /// 7: the buffer is too short.
    Room,
    /// 8: the mover is neither 0 nor 1.
    Mover,
    /// 31: there is no seat.
    NoSeat,
    /// 32: there is a seat already.
    Taken,
    /// 33: there is no memory for it.
    Memory,
}

impl Refusal {
    /// The number by which C knows the refusal: 1 to 8, and of the calls of a seat 31 to 33.
    pub fn code(self) -> u32
        ensures { result ≡ code_of self }
    {
        match self {
            Refusal::Overlap => 1,
            Refusal::Square => 2,
            Refusal::Illegal => 3,
            Refusal::Scoring => 4,
            Refusal::Empties => 5,
            Refusal::Cells => 6,
            Refusal::Room => 7,
            Refusal::Mover => 8,
            Refusal::NoSeat => 31,
            Refusal::Taken => 32,
            Refusal::Memory => 33,
        }
    }
}

/// Writes what a call found, and gives `DONE`; or gives the number of its refusal, and writes nothing.
pub fn deliver<T: Copy>(found: Result<T, Refusal>, place: &mut T) -> u32
    ensures ok { IfOk found (λ x. (result ≡ DONE) × (place.new ≡ x)) }
    ensures err { IfErr found (λ r. (result ≡ code_of r) × (result ≢ DONE) × (place.new ≡ place.old)) }
{
    match found {
        Ok(found) => {
            *place = found;
            DONE
        }
        Err(refusal) => refusal.code(),
    }
}
