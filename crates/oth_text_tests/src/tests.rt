//! Board lines, games and reports; what several of these tests take.
mod boards;
mod games;
mod turns;

use oth_text::{GameFault, LineFault, Position, TranscriptFault, read_board, write_board};
use std::process::Abort;

// The start of a game.
const START: &[u8] = b"---------------------------OX------XO--------------------------- X";

// After a1 in the corner of a board of discs there is more to come than after the other move.
const CORNERS: &[u8] = b"--OXOOO-OOOOOOOOOOOOOOOOOOOOOOOOOOOOOOOOOOOOOOOOOOOOOOOOOOOOOOOO X";

const CORNERS_TURNED: &[u8] = b"--OXOOO-OOOOOOOOOOOOOOOOOOOOOOOOOOOOOOOOOOOOOOOOOOOOOOOOOOOOOOOO O";

const TWO_BEST: &[u8] = b"-OXXXXO-XXXXXXXXXXXXXXXXXXXXXXXXXXXXXXXXXXXXXXXXXXXXXXXXXXXXXXXX X";

const FULL: &[u8] = b"XXXXXXXXXXXXXXXXXXXXXXXXXXXXXXXXXXXXXXXXXXXXXXXXXXXXXXXXXXXXXXXX O";

const DRAWN: &[u8] = b"-XXXXXXXXOOOOOOXXOOOOOOXXOOOOOOXXOOOOOOXXOOOOOOXXXXXXXOXXXXXXXX- X";

const PASSING: &[u8] = b"-OXXXXXXXXXXXXXXXXXXXXXXXXXXXXXXXXXXXXXXXXXXXXXXXXXXXXXXXXXXXXXX O";

// The first board of `CORNERS` after h1, which turns e1, f1 and g1. White has no move there, and Black has b1.
const CORNER_TAKEN: &[u8] = b"--OXXXXXOOOOOOOOOOOOOOOOOOOOOOOOOOOOOOOOOOOOOOOOOOOOOOOOOOOOOOOO X";

const CORNER_TAKEN_TURNED: &[u8] =
    b"--OXXXXXOOOOOOOOOOOOOOOOOOOOOOOOOOOOOOOOOOOOOOOOOOOOOOOOOOOOOOOO O";

// After b1, which turns c1. Nobody has a move, and Black has moved.
const CORNERS_OVER: &[u8] = b"-XXXXXXXOOOOOOOOOOOOOOOOOOOOOOOOOOOOOOOOOOOOOOOOOOOOOOOOOOOOOOOO O";

// Whether this is the position of the board line.
fn is_position(position: Option<Position>, line: &[u8]) -> bool {
    match position {
        Some(position) => write_board(&position).as_slice() == line,
        None => false,
    }
}

// The position of a board line.
fn shown(rt: &impl Abort, line: &[u8]) -> Position {
    read_board(line).expect(rt, "a board line")
}

#[test]
fn each_refusal_has_its_words(rt: HostRuntime) -> Result<(), std::test::Fail> {
    let fault = LineFault::Empties(31);
    let text = format!(in rt.alloc(); "{fault}")?;
    assert!(rt; text.as_str() == "the board has 31 empty squares, and at most 30 are solved");
    let fault = TranscriptFault::Illegal(2);
    let text = format!(in rt.alloc(); "{fault}")?;
    assert!(rt; text.as_str() == "move 2 is illegal");
    let text = format!(in rt.alloc(); "{}", GameFault::Moves(fault))?;
    assert!(rt; text.as_str() == "move 2 is illegal");
    Ok(())
}
