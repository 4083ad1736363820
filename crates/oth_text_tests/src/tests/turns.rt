//! Games that are analysed.
use oth_rules::Scoring;
use oth_search::solve_alone;
use oth_text::{AnalysisReader, JudgedTurn, Losses, game_line, lost_line, turn_line};
use std::process::Abort;

// The first game of examples/games.txt up to its move of disc 52, after which White has to pass.
const FRONT: &[u8] =
    b"f5f6c4f4g7b4f3h8e6f7e7d6c5f2c3d2b2a1g4e8g6b5e2g5a4d7e1b3a3e3g2c2h6f1b1h1f8h3h5g3h2d8g1a2d1c1c6b7c8h7h4a5";

// Black has h1, White passes, and Black has b1.
const CORNERS: &[u8] = b"--OXOOO-OOOOOOOOOOOOOOOOOOOOOOOOOOOOOOOOOOOOOOOOOOOOOOOOOOOOOOOO X";

// A line that was read in two parts.
fn read(front: &[u8], back: &[u8]) -> AnalysisReader {
    let mut reader = AnalysisReader::new();
    reader.push(front);
    reader.push(back);
    reader
}

// Whether this is the line of the turn at `place` among those from `last` empty squares on, where the game's line is
// the seventh.
fn is_turn(reader: &AnalysisReader, last: u8, place: usize, scoring: Scoring, line: &[u8]) -> bool {
    let turns = reader.turns(last);
    let Some(turn) = turns.as_slice().get(place) else {
        return false;
    };
    let Ok(answer) = solve_alone(&turn.before.board, scoring) else {
        return false;
    };
    match solve_alone(&turn.after, scoring) {
        Ok(after) => turn_line(7, &JudgedTurn::of(*turn, answer, &after)).as_slice() == line,
        Err(_) => false,
    }
}

// Whether the line has this fault, or none.
fn has_fault(front: &[u8], back: &[u8], fault: &[u8]) -> bool {
    match read(front, back).fault() {
        Some(found) => game_line(7, &found).as_slice() == fault,
        None => fault.is_empty(),
    }
}

// The lines are those of a solver that is no part of the program.
#[test]
fn a_turn_has_its_score_and_what_solve_reports(rt: HostRuntime) {
    let game = read(FRONT, b"d3c7b6a8a7g8b8a6");
    assert!(rt; is_turn(&game, 8, 0, Scoring::Winner, b"7 53 X d3 +12 +12 d3"));
    assert!(rt; is_turn(&game, 8, 1, Scoring::Winner, b"7 54 O pass -12 -12 pass"));
    assert!(rt; is_turn(&game, 8, 2, Scoring::Winner, b"7 54 X c7 +4 +12 a8"));
    assert!(rt; is_turn(&game, 8, 8, Scoring::Winner, b"7 60 X a6 -6 -6 a6"));
    assert!(rt; !is_turn(&game, 8, 9, Scoring::Winner, b""));
    assert!(rt; is_turn(&game, 1, 0, Scoring::Winner, b"7 60 X a6 -6 -6 a6"));
}

#[test]
fn a_board_line_has_turns_behind_it(rt: HostRuntime) {
    let game = read(CORNERS, b" h1b1");
    assert!(rt; is_turn(&game, 20, 0, Scoring::Winner, b"7 58 X h1 -50 -50 h1"));
    assert!(rt; is_turn(&game, 20, 1, Scoring::Winner, b"7 59 O pass +50 +50 pass"));
    assert!(rt; is_turn(&game, 20, 2, Scoring::Winner, b"7 59 X b1 -50 -50 b1"));
    assert!(rt; is_turn(&game, 20, 0, Scoring::Discs, b"7 58 X h1 -49 -49 h1"));
}

#[test]
fn a_game_has_the_fault_of_its_form(rt: HostRuntime) {
    assert!(rt; has_fault(FRONT, b"d3", b""));
    assert!(rt; has_fault(b"", b"", b""));
    assert!(rt; has_fault(FRONT, b"d3a1", b"7 error 3 at 54"));
    assert!(rt; has_fault(FRONT, b"d", b"7 error 1"));
    assert!(rt; has_fault(CORNERS, b"", b""));
    assert!(rt; has_fault(CORNERS, b" h1a1", b"7 error 23 at 2"));
    assert!(rt; has_fault(b"-", b"", b"7 error 1"));
}

#[test]
fn moves_stand_up_to_the_fault(rt: HostRuntime) {
    let game = read(FRONT, b"d3c7a1b6");
    assert!(rt; game.turns(8).as_slice().len() == 3);
    let game = read(b"-", FRONT);
    assert!(rt; game.turns(60).as_slice().is_empty());
    let game = read(FRONT, b"d3c7b6a8a7g8b8a6");
    assert!(rt; game.turns(60).as_slice().len() == 31);
}

#[test]
fn what_both_lost_is_told(rt: HostRuntime) {
    let lost = Losses {
        black: 18,
        white: 0,
    };
    assert!(rt; lost_line(7, &lost).as_slice() == b"7 lost X 18 O 0".as_slice());
    let lost = Losses {
        black: 0,
        white: 128,
    };
    assert!(rt;
        lost_line(u64::MAX, &lost).as_slice() == b"18446744073709551615 lost X 0 O 128".as_slice()
    );
}
