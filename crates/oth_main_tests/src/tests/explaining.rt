//! A faulty line in words: each fault, and the number of the line.

use oth_main::FaultyLine;
use oth_text::{Fault, GameFault, LineFault, TranscriptFault};
use std::test::Fail;

// The faults of a board line, of the moves behind one, and of a transcript.
const BOARD: [(LineFault, &str); 6] = [
    (LineFault::Length, "a board line has 66 bytes"),
    (LineFault::BadCell(1), "byte 1 is none of 'X', 'O' and '-'"),
    (
        LineFault::BadCell(64),
        "byte 64 is none of 'X', 'O' and '-'",
    ),
    (LineFault::Space, "byte 65 is not a space"),
    (LineFault::Mover, "byte 66 is neither 'X' nor 'O'"),
    (
        LineFault::Empties(31),
        "the board has 31 empty squares, and at most 30 are solved",
    ),
];

const MOVES: [(TranscriptFault, &str); 4] = [
    (
        TranscriptFault::OddLength,
        "a transcript has an even number of bytes",
    ),
    (TranscriptFault::BadPair(1), "pair 1 is no square"),
    (TranscriptFault::Illegal(60), "move 60 is illegal"),
    (TranscriptFault::Over(9), "the game is over before move 9"),
];

#[test]
fn each_fault_is_told_with_the_number_of_its_line(rt: HostRuntime) -> Result<(), Fail> {
    for (fault, words) in BOARD {
        let fault = Fault::Game(GameFault::Board(fault));
        let told = format!(in rt.alloc(); "{}", FaultyLine { number: 7, fault })?;
        assert!(rt; told.as_str() == format!(in rt.alloc(); "line 7: {words}")?.as_str());
    }
    for (fault, words) in MOVES {
        let wanted = format!(in rt.alloc(); "line 40: {words}")?;
        for fault in [
            Fault::Game(GameFault::Moves(fault)),
            Fault::Transcript(fault),
        ] {
            let told = format!(in rt.alloc(); "{}", FaultyLine { number: 40, fault })?;
            assert!(rt; told.as_str() == wanted.as_str());
        }
    }
    Ok(())
}
