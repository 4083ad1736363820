//! The lines that are printed of faults.

ghost use Rattle.std.specs.Prelude.{◌≡◌, ◌+◌, ◌≤◌, ◌++◌, length, decimal};
ghost use Rattle.arrayvec.specs.ArrayVec.{array_vec_len};
ghost use Rattle.oth_text.specs.OneLine.{IsOneLine};
ghost use Rattle.oth_text.specs.FaultLine.{any_fault_line_of, fault_line_of, game_fault_line_of};
ghost use Rattle.oth_text.specs.FaultLine.{moves_fault_line_of, transcript_fault_line_of};

use crate::fault::{Fault, GameFault, LineFault, TranscriptFault};
use crate::report::push_text;
use arrayvec::ArrayVec;
use itoa::Buffer;

/// The most bytes of a fault line.
pub const FAULT_LINE_LEN: usize = 24;

/// The fault as `game_fault_line` or `transcript_fault_line` has it.
pub fn any_fault_line(fault: &Fault) -> ArrayVec<u8, FAULT_LINE_LEN>
    ensures text { result.items ≡ any_fault_line_of fault.now }
    ensures one_line { IsOneLine result.items }
{
    match fault {
        Fault::Game(fault) => game_fault_line(fault),
        Fault::Transcript(fault) => transcript_fault_line(fault),
    }
}

/// `error` and the number of the fault, then ` at` and the place of a bad cell, or the number of empty squares.
pub fn fault_line(fault: &LineFault) -> ArrayVec<u8, FAULT_LINE_LEN>
    ensures text { result.items ≡ fault_line_of fault.now }
    ensures one_line { IsOneLine result.items }
{
    match fault {
        LineFault::Length => plain_line(b"error 1"),
        LineFault::BadCell(place) => numbered_line(b"error 2 at ", *place),
        LineFault::Space => plain_line(b"error 3"),
        LineFault::Mover => plain_line(b"error 4"),
        LineFault::Empties(count) => numbered_line(b"error 5 ", *count),
    }
}

/// `error` and the number of the fault, then ` at` and the number of the pair, save for an odd length.
pub fn transcript_fault_line(fault: &TranscriptFault) -> ArrayVec<u8, FAULT_LINE_LEN>
    ensures text { result.items ≡ transcript_fault_line_of fault.now }
    ensures one_line { IsOneLine result.items }
{
    match fault {
        TranscriptFault::OddLength => plain_line(b"error 1"),
        TranscriptFault::BadPair(pair) => numbered_line(b"error 2 at ", *pair),
        TranscriptFault::Illegal(pair) => numbered_line(b"error 3 at ", *pair),
        TranscriptFault::Over(pair) => numbered_line(b"error 4 at ", *pair),
    }
}

/// The board's fault as `fault_line` has it, and a fault of the moves with 20 more than `transcript_fault_line` has, as
/// the C library numbers it.
pub fn game_fault_line(fault: &GameFault) -> ArrayVec<u8, FAULT_LINE_LEN>
    ensures text { result.items ≡ game_fault_line_of fault.now }
    ensures one_line { IsOneLine result.items }
{
    match fault {
        GameFault::Board(fault) => fault_line(fault),
        GameFault::Moves(fault) => moves_fault_line(fault),
    }
}

// The fault line of the moves behind a board line.
fn moves_fault_line(fault: &TranscriptFault) -> ArrayVec<u8, FAULT_LINE_LEN>
    ensures text { result.items ≡ moves_fault_line_of fault.now }
    ensures one_line { IsOneLine result.items }
{
    match fault {
        TranscriptFault::OddLength => plain_line(b"error 21"),
        TranscriptFault::BadPair(pair) => numbered_line(b"error 22 at ", *pair),
        TranscriptFault::Illegal(pair) => numbered_line(b"error 23 at ", *pair),
        TranscriptFault::Over(pair) => numbered_line(b"error 24 at ", *pair),
    }
}

// A fault line that names no place.
fn plain_line(text: &[u8]) -> ArrayVec<u8, FAULT_LINE_LEN>
    requires short { length text.now ≤ 24 }
    requires one_line { IsOneLine text.now }
    ensures text { result.items ≡ text.now }
    ensures one_line { IsOneLine result.items }
{
    let mut line = ArrayVec::new();
    push_text(&mut line, text);
    line
}

// A fault line that ends with a number.
fn numbered_line(text: &[u8], number: u8) -> ArrayVec<u8, FAULT_LINE_LEN>
    requires short { length text.now ≤ 12 }
    requires one_line { IsOneLine text.now }
    ensures text { result.items ≡ text.now ++ decimal number }
    ensures one_line { IsOneLine result.items }
{
    let mut line = ArrayVec::new();
    push_text(&mut line, text);
    push_text(&mut line, Buffer::new().format(number).as_bytes());
    line
}
