//! A game's transcript leads to its board.

ghost use Rattle.std.specs.Prelude.{◌≡◌, ◌↔◌, Err, IfOk};
ghost use Rattle.oth_text.specs.declared.fault.TranscriptFault.{TranscriptFault as Fault};
ghost use Rattle.oth_text.specs.declared.position.Position.{Position as Reached};
ghost use Rattle.oth_text.specs.BoardLine.{IsBoardLine};
ghost use Rattle.oth_text.specs.Transcript.{IsTranscript, IsTranscriptFault};

use arrayvec::ArrayVec;
use oth_text::{BOARD_LINE_LEN, TranscriptFault, read_transcript, write_board};

/// The board line of the position that the moves lead to, as `f5d6c3`; else the first fault of the text.
pub fn board_after(moves: &[u8]) -> Result<ArrayVec<u8, BOARD_LINE_LEN>, TranscriptFault>
    ensures reached { IfOk result (λ line. (p : Reached) × IsTranscript moves.now p × IsBoardLine line.items p) }
    ensures fault { (f : Fault) → (result ≡ Err f) ↔ IsTranscriptFault moves.now f }
{
    let position = read_transcript(moves)?;
    Ok(write_board(&position))
}
