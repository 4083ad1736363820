//! Board lines, transcripts and reports. The devices that they are read from and written to are those of `oth_device`,
//! handed on.
//!
//! Each format is said twice and proved to be one thing: by a relation that a reader can hold against the format's
//! text (`IsBoardLine`, `IsFirstFault`, `IsTranscript`, `IsTranscriptFault`, `IsGame`, `IsGameFault`: what stands
//! at which place, which moves the names are), and by a function of the whole text, which the report of an input is
//! made of. The clauses of `read_board`, `read_transcript` and `read_game` carry both. A report line's contract
//! names the board and the scoring only: the truth of the answer comes from the type `Answer`, that of a scores
//! line from `Scores`.
#![tactic(auto)]

mod analysis;
mod analysis_reader;
mod board_line;
mod board_reader;
mod fault;
mod fault_text;
mod game;
mod position;
mod ranking;
mod report;
mod transcript;

pub use analysis::{
    JudgedTurn, LOST_LINE_LEN, Losses, TURN_LINE_LEN, Turn, game_line, lost_line, turn_line,
};
pub use analysis_reader::{AnalysisReader, Turns};
pub use board_line::{BOARD_LINE_LEN, read_board, read_solvable, write_board};
pub use board_reader::BoardReader;
pub use fault::{Fault, GameFault, LineFault, TranscriptFault};
pub use fault_text::{
    FAULT_LINE_LEN, any_fault_line, fault_line, game_fault_line, transcript_fault_line,
};
pub use game::{GameReader, read_game};
pub use oth_device::{Failed, FromRead, Sink, Source, ToWrite, fakes, write_all};
pub use position::{Position, Side};
pub use ranking::{SCORES_LINE_LEN, ranked, scores_line};
pub use report::{MOVES_LINE_LEN, REPORT_LINE_LEN, moves_line, push_report_line, report_line};
pub use transcript::{TranscriptReader, play_transcript, read_transcript};
