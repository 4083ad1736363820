//! What is told of a line. Each export puts the reply of one command, without byte 10, into the front of the room, if
//! there is room for all of it, and gives the number of its bytes. No reply has more than 16,640 bytes, none but that
//! of `oth_web_analyse` more than 512.

ghost use Rattle.std.specs.Prelude.{◌≡◌, length};
ghost use Rattle.oth_text.specs.Analysis.{analysis_of};
ghost use Rattle.oth_text.specs.BoardLine.{reading, solvable_reading};
ghost use Rattle.oth_text.specs.Game.{game_reading};
ghost use Rattle.oth_text.specs.Ranking.{scores_line_of};
ghost use Rattle.oth_text.specs.Reply.{board_reply, play_reply, transcript_reply};
ghost use Rattle.oth_text.specs.Report.{moves_line_of, report_line_of};
ghost use Rattle.oth_text.specs.Transcript.{transcript_reading};
ghost use Rattle.oth_web.specs.Room.{written};
ghost use Rattle.oth_web.specs.Scorings.{scoring_of};

use crate::analysing::analysis;
use crate::room::put;
use crate::solving::{answered, scored};
use oth_rules::Scoring;
use oth_text::{
    fault_line, game_fault_line, moves_line, read_board, read_game, read_solvable, read_transcript,
    report_line, scores_line, transcript_fault_line, write_board,
};

// The scoring of this number.
fn scoring_of(number: u8) -> Scoring
    ensures { result ≡ scoring_of number }
{
    if number == 0 {
        Scoring::Winner
    } else {
        Scoring::Discs
    }
}

/// Tells the value of a board of at most 30 empty squares and all its best moves, as the command `solve`. Scoring 0:
/// the squares that stay empty go to the winner; else to nobody.
#[unsafe(no_mangle)]
pub extern "C" fn oth_web_solve(scoring: u8, line: &[u8], room: &mut [u8]) -> usize
    ensures length { result ≡ length
        (board_reply (report_line_of (scoring_of scoring)) (solvable_reading line.now)) }
    ensures written { room.new ≡ written
        (board_reply (report_line_of (scoring_of scoring)) (solvable_reading line.now)) room.old }
{
    match read_solvable(line) {
        Ok(position) => {
            let answer = answered(position.board, scoring_of(scoring));
            put(report_line(&answer).as_slice(), room)
        }
        Err(fault) => put(fault_line(&fault).as_slice(), room),
    }
}

/// Tells the score of every move of a board of at most 30 empty squares, as the command `scores`.
#[unsafe(no_mangle)]
pub extern "C" fn oth_web_scores(scoring: u8, line: &[u8], room: &mut [u8]) -> usize
    ensures length { result ≡ length
        (board_reply (scores_line_of (scoring_of scoring)) (solvable_reading line.now)) }
    ensures written { room.new ≡ written
        (board_reply (scores_line_of (scoring_of scoring)) (solvable_reading line.now)) room.old }
{
    match read_solvable(line) {
        Ok(position) => {
            let scores = scored(position.board, scoring_of(scoring));
            put(scores_line(&scores).as_slice(), room)
        }
        Err(fault) => put(fault_line(&fault).as_slice(), room),
    }
}

/// Tells all legal moves of a board, as the command `moves`.
#[unsafe(no_mangle)]
pub extern "C" fn oth_web_moves(line: &[u8], room: &mut [u8]) -> usize
    ensures length { result ≡ length (board_reply moves_line_of (reading line.now)) }
    ensures written { room.new ≡ written (board_reply moves_line_of (reading line.now)) room.old }
{
    match read_board(line) {
        Ok(position) => put(moves_line(&position.board).as_slice(), room),
        Err(fault) => put(fault_line(&fault).as_slice(), room),
    }
}

/// Tells the board that a transcript leads to, as the command `transcript`.
#[unsafe(no_mangle)]
pub extern "C" fn oth_web_transcript(line: &[u8], room: &mut [u8]) -> usize
    ensures length { result ≡ length (transcript_reply (transcript_reading line.now)) }
    ensures written { room.new ≡ written (transcript_reply (transcript_reading line.now)) room.old }
{
    match read_transcript(line) {
        Ok(position) => put(write_board(&position).as_slice(), room),
        Err(fault) => put(transcript_fault_line(&fault).as_slice(), room),
    }
}

/// Tells the board that moves lead to from another board, as the command `play`.
#[unsafe(no_mangle)]
pub extern "C" fn oth_web_play(line: &[u8], room: &mut [u8]) -> usize
    ensures length { result ≡ length (play_reply (game_reading line.now)) }
    ensures written { room.new ≡ written (play_reply (game_reading line.now)) room.old }
{
    match read_game(line) {
        Ok(position) => put(write_board(&position).as_slice(), room),
        Err(fault) => put(game_fault_line(&fault).as_slice(), room),
    }
}

/// Tells the turns of a game from `last` empty squares on, each beside the best ones, and what both sides lost by them,
/// as the command `analyse`. The reply names its line by the number, and has a byte 10 between two of its lines.
#[unsafe(no_mangle)]
pub extern "C" fn oth_web_analyse(
    scoring: u8,
    number: u64,
    last: u8,
    line: &[u8],
    room: &mut [u8],
) -> usize
    ensures length { result ≡ length (analysis_of number (scoring_of scoring) last line.now) }
    ensures written { room.new ≡ written (analysis_of number (scoring_of scoring) last line.now) room.old }
{
    let text = analysis(scoring_of(scoring), number, last, line);
    put(text.as_slice(), room)
}
