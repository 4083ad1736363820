//! Board lines, transcripts and moves lines.

ghost use Rattle.std.specs.Prelude.{◌≡◌, ◌≢◌, ◌<◌, ◌≤◌, ◌++◌, drop, length, Ok, Err, IfOk, IfErr};
ghost use Rattle.oth_text.specs.declared.position.Position.{Position as PositionShown};
ghost use Rattle.oth_text.specs.declared.fault.LineFault.{LineFault as FaultOfLine};
ghost use Rattle.oth_text.specs.declared.fault.TranscriptFault.{TranscriptFault as FaultOfTranscript};
ghost use Rattle.oth_text.specs.BoardLine.{board_line, reading};
ghost use Rattle.oth_text.specs.Transcript.{transcript_reading};
ghost use Rattle.oth_text.specs.Report.{moves_line_of};
ghost use Rattle.oth_c.specs.Boards.{position};
ghost use Rattle.oth_c.specs.Codes.{code_of};
ghost use Rattle.oth_c.specs.Positions.{shown, words_of};
ghost use Rattle.oth_c.specs.declared.refusal.Refusal.TheVariants as refusal;
ghost use Rattle.oth_c.specs.Texts.{game_code, game_place, game_reading, line_code, line_place};
ghost use Rattle.oth_c.specs.Texts.{moves_line_code, print_code, transcript_code, transcript_place};

use super::position::OthPosition;
use crate::board::OthBoard;
use crate::refusal::{DONE, Refusal, deliver};
use oth_text::{
    LineFault, Position, TranscriptFault, moves_line, play_transcript, read_board, read_transcript,
    write_board,
};

/// Writes the position of a board line of 66 bytes. `place` gets the place, from 1, of the byte of refusal 12, and else
/// 0. Refusals 11 to 14: the length, a cell, byte 65, byte 66.
#[unsafe(no_mangle)]
pub extern "C" fn oth_read_board(text: &[u8], position: &mut OthPosition, place: &mut u8) -> u32
    ensures code { result ≡ line_code (reading text.now) }
    ensures place { place.new ≡ line_place (reading text.now) }
    ensures shown { (p : PositionShown) → reading text.now ≡ Ok p → position.new ≡ words_of p }
    ensures kept { (f : FaultOfLine) → reading text.now ≡ Err f → position.new ≡ position.old }
{
    written(read_board(text).map_err(line_fault), position, place)
}

// What C is told of a fault of a text: its number, and the place of the faulty byte or pair, or else 0.
#[derive(Drop)]
struct TextFault {
    code: u32,
    place: u8,
}

impl TextFault {
    // A fault that is told with no place.
    fn of(code: u32) -> TextFault
        ensures { result ≡ record { code = code; place = 0 } }
    {
        TextFault { code, place: 0 }
    }
}

// What C is told of a fault of a board line, with the place of a bad cell.
fn line_fault(fault: LineFault) -> TextFault
    ensures code { result.code ≡ line_code (Err fault) }
    ensures place { result.place ≡ line_place (Err fault) }
{
    match fault {
        LineFault::Length => TextFault::of(11),
        LineFault::BadCell(place) => TextFault { code: 12, place },
        LineFault::Space => TextFault::of(13),
        LineFault::Mover => TextFault::of(14),
        LineFault::Empties(_) => TextFault::of(Refusal::Empties.code()),
    }
}

// Writes the position that was read, or the place of its fault, and gives the number of what it was.
fn written(read: Result<Position, TextFault>, position: &mut OthPosition, place: &mut u8) -> u32
    ensures ok { IfOk read (λ p. (result ≡ DONE) × (place.new ≡ 0) × (position.new ≡ words_of p)) }
    ensures err { IfErr read (λ f. (result ≡ f.code) × (place.new ≡ f.place) × (position.new ≡ position.old)) }
{
    match read {
        Ok(read) => {
            *position = OthPosition::of(&read);
            *place = 0;
            DONE
        }
        Err(fault) => {
            *place = fault.place;
            fault.code
        }
    }
}

/// Writes the position that a transcript leads to. `place` gets the number, from 1, of the pair of refusals 22 to 24,
/// and else 0. Refusals 21 to 24: an odd length, a pair that is no square, an illegal move, the game is over before the
/// pair.
#[unsafe(no_mangle)]
pub extern "C" fn oth_read_transcript(
    text: &[u8],
    position: &mut OthPosition,
    place: &mut u8,
) -> u32
    ensures code { result ≡ transcript_code (transcript_reading text.now) }
    ensures place { place.new ≡ transcript_place (transcript_reading text.now) }
    ensures shown { (p : PositionShown) → transcript_reading text.now ≡ Ok p → position.new ≡ words_of p }
    ensures kept { (f : FaultOfTranscript) → transcript_reading text.now ≡ Err f → position.new ≡ position.old }
{
    written(
        read_transcript(text).map_err(transcript_fault),
        position,
        place,
    )
}

/// Writes the position that a transcript leads to from another one, whose mover moves first, or passes where it must.
/// `place` gets the number, from 1, of the pair of refusals 22 to 24, and else 0. Refusals 1 and 8 of the position,
/// then 21 to 24 of the text, as for a transcript from the start.
#[unsafe(no_mangle)]
pub extern "C" fn oth_play_game(
    position: OthPosition,
    text: &[u8],
    next: &mut OthPosition,
    place: &mut u8,
) -> u32
    ensures code { result ≡ game_code position text.now }
    ensures place { place.new ≡ game_place position text.now }
    ensures shown { (p : PositionShown) → result ≡ DONE → game_reading position text.now ≡ Ok p
        → next.new ≡ words_of p }
    ensures kept { result ≢ DONE → next.new ≡ next.old }
{
    written(game_read(position, text), next, place)
}

// The position that a transcript leads to from another one, or the fault of that one or of the moves.
fn game_read(position: OthPosition, text: &[u8]) -> Result<Position, TextFault>
    ensures ok { IfOk result (λ p. (game_code position text.now ≡ DONE) × (game_place position text.now ≡ 0)
        × (game_reading position text.now ≡ Ok p)) }
    ensures err { IfErr result (λ f. (f.code ≡ game_code position text.now) × (f.place ≡ game_place position text.now)
        × (f.code ≢ DONE)) }
{
    let from = position
        .position()
        .map_err(|refusal| TextFault::of(refusal.code()))?;
    play_transcript(from, text).map_err(transcript_fault)
}

// What C is told of a fault of a transcript, with the number of the faulty pair.
fn transcript_fault(fault: TranscriptFault) -> TextFault
    ensures code { result.code ≡ transcript_code (Err fault) }
    ensures place { result.place ≡ transcript_place (Err fault) }
    ensures some { result.code ≢ DONE }
{
    match fault {
        TranscriptFault::OddLength => TextFault::of(21),
        TranscriptFault::BadPair(place) => TextFault { code: 22, place },
        TranscriptFault::Illegal(place) => TextFault { code: 23, place },
        TranscriptFault::Over(place) => TextFault { code: 24, place },
    }
}

/// Prints the board line of a position, 66 bytes, into the front of a buffer. Refusals 1, 8 and 7, tested in this
/// order.
#[unsafe(no_mangle)]
pub extern "C" fn oth_print_board(position: OthPosition, line: &mut [u8]) -> u32
    ensures code { result ≡ print_code position (length line.old) }
    ensures line { result ≡ DONE → line.new ≡ board_line (shown position) ++ drop 66 line.old }
    ensures kept { result ≢ DONE → line.new ≡ line.old }
{
    match printed(position, line) {
        Ok(()) => DONE,
        Err(refusal) => refusal.code(),
    }
}

// Writes the position's line into the buffer, or gives the first refusal.
fn printed(position: OthPosition, line: &mut [u8]) -> Result<(), Refusal>
    ensures ok { IfOk result (λ u. (print_code position (length line.old) ≡ DONE)
        × (line.new ≡ board_line (shown position) ++ drop 66 line.old)) }
    ensures err { IfErr result (λ r. (print_code position (length line.old) ≡ code_of r) × (line.new ≡ line.old)) }
{
    let position = position.position()?;
    put(write_board(&position).as_slice(), line)
}

/// Copies the text into the front of the buffer; refused where it is too short.
pub fn put(text: &[u8], buffer: &mut [u8]) -> Result<(), Refusal>
    ensures ok { IfOk result (λ u. (length text.now ≤ length buffer.old)
        × (buffer.new ≡ text.now ++ drop (length text.now) buffer.old)) }
    ensures err { IfErr result (λ r. (length buffer.old < length text.now) × (r ≡ refusal.Room)
        × (buffer.new ≡ buffer.old)) }
{
    if buffer.len() < text.len() {
        return Err(Refusal::Room);
    }
    buffer[..text.len()].copy_from_slice(text);
    Ok(())
}

/// Prints a board's moves line, at most 191 bytes, into the front of a buffer, and writes its length. Refusals 1 and 7,
/// tested in this order.
#[unsafe(no_mangle)]
pub extern "C" fn oth_print_moves(board: OthBoard, line: &mut [u8], written: &mut usize) -> u32
    ensures code { result ≡ moves_line_code board (length line.old) }
    ensures line { result ≡ DONE → line.new ≡ moves_line_of (position board) ++ drop written.new line.old }
    ensures written { result ≡ DONE → written.new ≡ length (moves_line_of (position board)) }
    ensures kept { result ≢ DONE → (line.new ≡ line.old) × (written.new ≡ written.old) }
{
    deliver(moves_printed(board, line), written)
}

// Writes the moves line into the buffer and gives its length, or the first refusal.
fn moves_printed(board: OthBoard, line: &mut [u8]) -> Result<usize, Refusal>
    ensures ok { IfOk result (λ n. (moves_line_code board (length line.old) ≡ DONE)
        × (n ≡ length (moves_line_of (position board)))
        × (line.new ≡ moves_line_of (position board) ++ drop n line.old)) }
    ensures err { IfErr result (λ r. (moves_line_code board (length line.old) ≡ code_of r) × (line.new ≡ line.old)) }
{
    let board = board.board()?;
    let text = moves_line(&board);
    put(text.as_slice(), line)?;
    Ok(text.len())
}
