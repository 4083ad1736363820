//! Transcripts, and boards with moves behind them.
use super::{CORNER_TAKEN, CORNER_TAKEN_TURNED, CORNERS, CORNERS_OVER, START, is_position, shown};
use oth_text::{
    GameFault, GameReader, LineFault, TranscriptFault, game_fault_line, play_transcript,
    read_board, read_game, read_transcript, transcript_fault_line,
};
use std::process::Abort;

// Whether the transcript leads to the board line.
fn leads_to(transcript: &[u8], line: &[u8]) -> bool {
    is_position(read_transcript(transcript).ok(), line)
}

// Whether the transcript is refused with this fault line.
fn fails(transcript: &[u8], refusal: &[u8]) -> bool {
    match read_transcript(transcript) {
        Ok(_) => false,
        Err(fault) => transcript_fault_line(&fault).as_slice() == refusal,
    }
}

// Whether the line of a board and moves leads to the board line.
fn plays_to(line: &[u8], reached: &[u8]) -> bool {
    is_position(read_game(line).ok(), reached)
}

// Whether such a line is refused with this fault line.
fn is_no_game(line: &[u8], refusal: &[u8]) -> bool {
    match read_game(line) {
        Ok(_) => false,
        Err(fault) => game_fault_line(&fault).as_slice() == refusal,
    }
}

#[test]
fn a_transcript_leads_to_its_position(rt: HostRuntime) {
    assert!(rt; leads_to(b"", START));
    assert!(rt;
        leads_to(
            b"f5d6c3d3c4",
            b"------------------XO------XXX------OXX-----O-------------------- O"
        )
    );
    assert!(rt;
        leads_to(
            b"c4c3f5b4a4a5c2a3",
            b"----------X-----O-X-----OOXXX---O--XXX-------------------------- O"
        )
    );
    assert!(rt;
        leads_to(
            b"e6f4e3f6g5d6e7f5c5",
            b"--------------------X------XXX----XXXXX----XXX------X----------- O"
        )
    );
    assert!(rt; fails(b"f5d", b"error 1"));
    assert!(rt; fails(b"F5", b"error 2 at 1"));
    assert!(rt; fails(b"f5f5", b"error 3 at 2"));
    assert!(rt; fails(b"e6f4e3f6g5d6e7f5c5a1", b"error 4 at 10"));
    assert!(rt; fails(b"e6f4e3f6g5d6e7f5c5a9", b"error 2 at 10"));
}

#[test]
fn moves_on_a_board_lead_to_its_position(rt: HostRuntime) {
    assert!(rt; plays_to(START, START));
    assert!(rt;
        plays_to(
            b"---------------------------OX------XO--------------------------- X f5d6c3d3c4",
            b"------------------XO------XXX------OXX-----O-------------------- O"
        )
    );
    // A pass behind the last move, before the first one, and between two.
    assert!(rt;
        plays_to(
            b"--OXOOO-OOOOOOOOOOOOOOOOOOOOOOOOOOOOOOOOOOOOOOOOOOOOOOOOOOOOOOOO X h1",
            CORNER_TAKEN
        )
    );
    assert!(rt; plays_to(CORNER_TAKEN_TURNED, CORNER_TAKEN));
    assert!(rt;
        plays_to(
            b"--OXXXXXOOOOOOOOOOOOOOOOOOOOOOOOOOOOOOOOOOOOOOOOOOOOOOOOOOOOOOOO O ",
            CORNER_TAKEN
        )
    );
    assert!(rt;
        plays_to(
            b"--OXXXXXOOOOOOOOOOOOOOOOOOOOOOOOOOOOOOOOOOOOOOOOOOOOOOOOOOOOOOOO O b1",
            CORNERS_OVER
        )
    );
    assert!(rt;
        plays_to(
            b"--OXOOO-OOOOOOOOOOOOOOOOOOOOOOOOOOOOOOOOOOOOOOOOOOOOOOOOOOOOOOOO X h1b1",
            CORNERS_OVER
        )
    );
    // A game that is over has no pass.
    assert!(rt; plays_to(CORNERS_OVER, CORNERS_OVER));
}

#[test]
fn a_refused_game_has_its_first_fault(rt: HostRuntime) {
    assert!(rt; is_no_game(b"", b"error 1"));
    assert!(rt; is_no_game(b"f5d6", b"error 1"));
    assert!(rt;
        is_no_game(
            b"x--------------------------OX------XO--------------------------- Xf5",
            b"error 1"
        )
    );
    assert!(rt;
        is_no_game(
            b"x--------------------------OX------XO--------------------------- X f5d",
            b"error 2 at 1"
        )
    );
    assert!(rt;
        is_no_game(
            b"---------------------------OX------XO---------------------------.X f5f5",
            b"error 3"
        )
    );
    assert!(rt;
        is_no_game(
            b"---------------------------OX------XO--------------------------- x ",
            b"error 4"
        )
    );
    assert!(rt;
        is_no_game(
            b"---------------------------OX------XO--------------------------- X F5d",
            b"error 21"
        )
    );
    assert!(rt;
        is_no_game(
            b"---------------------------OX------XO--------------------------- X f5D6",
            b"error 22 at 2"
        )
    );
    assert!(rt;
        is_no_game(
            b"---------------------------OX------XO--------------------------- X f5f5",
            b"error 23 at 2"
        )
    );
    assert!(rt;
        is_no_game(
            b"--OXOOO-OOOOOOOOOOOOOOOOOOOOOOOOOOOOOOOOOOOOOOOOOOOOOOOOOOOOOOOO X h1b1a1",
            b"error 24 at 3"
        )
    );
    assert!(rt;
        is_no_game(
            b"-XXXXXXXOOOOOOOOOOOOOOOOOOOOOOOOOOOOOOOOOOOOOOOOOOOOOOOOOOOOOOOO O a1",
            b"error 24 at 1"
        )
    );
}

// Whether what was pushed is read as this board line with its moves.
fn is_read_as(line: &GameReader, board_line: &[u8]) -> bool {
    line.read() == read_board(board_line).map_err(GameFault::Board)
}

// Whether what was pushed has this fault.
fn has_fault(line: &GameReader, fault: GameFault) -> bool {
    line.read() == Err(fault)
}

fn check_cleared(rt: &impl Abort, line: &mut GameReader) {
    line.clear();
    assert!(rt; line.is_empty());
    line.push(START);
    line.push(b"\r");
    line.push(b" f5");
    assert!(rt; has_fault(line, GameFault::Board(LineFault::Length)));
}

#[test]
fn a_game_in_parts_is_read_as_a_whole_one(rt: HostRuntime) {
    let mut line = GameReader::new();
    assert!(rt; line.is_empty());
    line.push(&CORNERS[..20]);
    assert!(rt; has_fault(&line, GameFault::Board(LineFault::Length)));
    line.push(&CORNERS[20..]);
    assert!(rt; is_read_as(&line, CORNERS));
    line.push(b" h");
    assert!(rt; has_fault(&line, GameFault::Moves(TranscriptFault::OddLength)));
    line.push(b"1");
    assert!(rt; is_read_as(&line, CORNER_TAKEN));
    check_cleared(&rt, &mut line);
    let corner_taken = shown(&rt, CORNER_TAKEN);
    assert!(rt; play_transcript(shown(&rt, CORNERS), b"h1") == Ok(corner_taken));
}
