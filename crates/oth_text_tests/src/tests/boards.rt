//! Board lines, reports and scores lines.
use super::{CORNERS, CORNERS_TURNED, DRAWN, FULL, PASSING, START, TWO_BEST, shown};
use oth_rules::Scoring;
use oth_search::{NoCells, scores_with, solve_alone};
use oth_text::{
    BoardReader, LineFault, Position, TranscriptFault, TranscriptReader, fault_line, moves_line,
    read_board, read_solvable, read_transcript, report_line, scores_line, write_board,
};
use std::process::Abort;

// Whether the report of the board line is this text.
fn is_reported(rt: &impl Abort, line: &[u8], scoring: Scoring, report: &[u8]) -> bool {
    let answer = solve_alone(&shown(rt, line).board, scoring);
    match answer {
        Ok(answer) => report_line(&answer).as_slice() == report,
        Err(_) => false,
    }
}

// Whether the scores line of the board line is this text.
fn is_scored(rt: &impl Abort, line: &[u8], scoring: Scoring, text: &[u8]) -> bool {
    let scores = scores_with(shown(rt, line).board, &mut NoCells, scoring);
    scores_line(&scores).as_slice() == text
}

// Whether the moves line of the board line is this text.
fn has_moves(rt: &impl Abort, line: &[u8], moves: &[u8]) -> bool {
    moves_line(&shown(rt, line).board).as_slice() == moves
}

// Whether the line is refused with this fault line.
fn is_refused(line: &[u8], refusal: &[u8]) -> bool {
    match read_solvable(line) {
        Ok(_) => false,
        Err(fault) => fault_line(&fault).as_slice() == refusal,
    }
}

#[test]
fn a_board_line_is_written_back_as_it_was(rt: HostRuntime) {
    assert!(rt; write_board(&Position::start()).as_slice() == START);
    assert!(rt; shown(&rt, START) == Position::start());
    assert!(rt; write_board(&shown(&rt, CORNERS_TURNED)).as_slice() == CORNERS_TURNED);
}

#[test]
fn all_legal_moves_are_listed(rt: HostRuntime) {
    assert!(rt; has_moves(&rt, START, b"d3 c4 f5 e6"));
    assert!(rt; has_moves(&rt, CORNERS, b"b1 h1"));
    assert!(rt; has_moves(&rt, CORNERS_TURNED, b"pass"));
    assert!(rt; has_moves(&rt, FULL, b"end"));
}

#[test]
fn a_report_has_the_score_and_all_best_moves(rt: HostRuntime) {
    assert!(rt; is_reported(&rt, TWO_BEST, Scoring::Winner, b"+64 a1 h1"));
    assert!(rt; is_reported(&rt, DRAWN, Scoring::Winner, b"+0 end"));
    assert!(rt; is_reported(&rt, PASSING, Scoring::Winner, b"-64 pass"));
    assert!(rt; is_reported(&rt, CORNERS, Scoring::Discs, b"-49 h1"));
}

// The scores of the last board are those of an independent solver: c7 (square 50) comes before a8 (square 56).
#[test]
fn a_scores_line_has_every_move_the_best_first(rt: HostRuntime) {
    assert!(rt; is_scored(&rt, CORNERS, Scoring::Winner, b"-50 h1 -64 b1"));
    assert!(rt; is_scored(&rt, CORNERS, Scoring::Discs, b"-49 h1 -63 b1"));
    assert!(rt; is_scored(&rt, TWO_BEST, Scoring::Winner, b"+64 a1 +64 h1"));
    assert!(rt; is_scored(&rt, CORNERS_TURNED, Scoring::Winner, b"+50 pass"));
    assert!(rt; is_scored(&rt, DRAWN, Scoring::Winner, b"+0 end"));
    assert!(rt; is_scored(&rt, FULL, Scoring::Winner, b"-64 end"));
    assert!(rt;
        is_scored(
            &rt,
            b"OOOOOOOOOOOOXXOXOXO-OOXXOOXXXXXXOOOOXOXX--OXOXOX-O-OXOOO--XXXX-O X",
            Scoring::Winner,
            b"+12 d3 -6 b6 -8 c7 -8 a8 -12 g8 -14 a6"
        )
    );
}

#[test]
fn a_refused_line_has_its_first_fault(rt: HostRuntime) {
    assert!(rt; is_refused(b"", b"error 1"));
    assert!(rt;
        is_refused(
            b"x--------------------------OX------XO--------------------------- X",
            b"error 2 at 1"
        )
    );
    assert!(rt;
        is_refused(
            b"--------------------?------OX------XO---?-----------------------.X",
            b"error 2 at 21"
        )
    );
    assert!(rt;
        is_refused(
            b"---------------------------OX------XO---------------------------.x",
            b"error 3"
        )
    );
    assert!(rt;
        is_refused(
            b"---------------------------OX------XO--------------------------- x",
            b"error 4"
        )
    );
    assert!(rt; is_refused(START, b"error 5 60"));
    assert!(rt;
        is_refused(
            b"-------------------------------XXXXXXXXXXXXXXXXXXXXXXXXXXXXXXXXX X",
            b"error 5 31"
        )
    );
    assert!(rt;
        read_solvable(b"------------------------------XXXXXXXXXXXXXXXXXXXXXXXXXXXXXXXXXX X").is_ok()
    );
}

#[test]
fn a_line_in_parts_is_read_as_a_whole_one(rt: HostRuntime) {
    let mut line = BoardReader::new();
    assert!(rt; line.is_empty());
    line.push(&START[..20]);
    line.push(&START[20..]);
    assert!(rt; line.read() == Ok(Position::start()));
    assert!(rt; line.read_solvable() == Err(LineFault::Empties(60)));
    line.push(b"\r");
    line.push(START);
    assert!(rt; line.read() == Err(LineFault::Length));
    line.clear();
    assert!(rt; line.is_empty());
    let mut line = TranscriptReader::new();
    assert!(rt; line.is_empty());
    line.push(b"f");
    assert!(rt; line.read() == Err(TranscriptFault::OddLength));
    line.push(b"5d6");
    line.push(b"c3d3c4");
    assert!(rt; line.read() == read_transcript(b"f5d6c3d3c4"));
    line.clear();
    assert!(rt; line.read() == Ok(Position::start()));
}
