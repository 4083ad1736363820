//! The analysis of a game.

ghost use Rattle.std.specs.Prelude.{◌≡◌, ◌+◌, ◌≤◌, ◌++◌, ◌∷◌, [], IsTrue, length};
ghost use Rattle.std.specs.List.{flat_map};
ghost use Rattle.arrayvec.specs.ArrayVec.{array_vec_len};
ghost use Rattle.oth_text.specs.Analysis.{analysis_of, fault_part, lost_by, turn_part};
ghost use Rattle.oth_text.specs.declared.position.Side.TheVariants.{Black, White};

use crate::memory::{FEW, MORE, Memory, blank};
use arrayvec::ArrayVec;
use oth_rules::{Board, Scoring};
use oth_search::{Answer, solve_with};
use oth_text::{AnalysisReader, Fault, JudgedTurn, Losses, Turn, game_line, lost_line, turn_line};

/// The most bytes of an analysis: 64 turns of 257 bytes, a fault and what was lost.
pub const ANALYSIS_LEN: usize = 16_640;

/// The text of an analysis.
pub type Analysis = ArrayVec<u8, ANALYSIS_LEN>;

/// The analysis of a game, from `last` empty squares on. Its line has this number.
pub fn analysis(scoring: Scoring, number: u64, last: u8, line: &[u8]) -> Analysis
    ensures { result.items ≡ analysis_of number scoring last line.now }
{
    let mut reader = AnalysisReader::new();
    reader.push(line);
    let turns = reader.turns(last);
    let mut text = ArrayVec::new();
    let lost = push_turns(&mut text, number, scoring, turns.as_slice());
    push_fault(&mut text, number, reader.fault());
    push(&mut text, lost_line(number, &lost).as_slice());
    text
}

// Adds the lines of the turns to an empty text, and gives what both sides lost by them.
fn push_turns(text: &mut Analysis, number: u64, scoring: Scoring, turns: &[Turn]) -> Losses
    requires empty { text.old.items ≡ [] }
    requires count { length turns.now ≤ 64 }
    ensures told { text.new.items ≡ flat_map (turn_part number scoring) turns.now }
    ensures len { array_vec_len text.new ≤ 16448 }
    ensures black { result.black ≡ lost_by Black scoring turns.now }
    ensures white { result.white ≡ lost_by White scoring turns.now }
{
    let (mut few, mut more) = ([blank(); FEW], [blank(); MORE]);
    let mut memory = Memory::over(&mut few, &mut more);
    let mut known = None;
    let mut lost = Losses { black: 0, white: 0 };
    for turn in turns {
        let answer = answer_of(&turn.before.board, scoring, &mut memory, known);
        let after = solve_with(turn.after, &mut memory, scoring);
        let judged = JudgedTurn::of(*turn, answer, &after);
        lost.add(&judged);
        push_line(text, turn_line(number, &judged).as_slice());
        known = Some(after);
    }
    lost
}

// The answer of a board: the last one that was found, where it is of this board, else by a search.
fn answer_of(
    board: &Board,
    scoring: Scoring,
    memory: &mut Memory<'_>,
    known: Option<Answer>,
) -> Answer
    ensures board { result.board ≡ board.now }
    ensures scoring { result.scoring ≡ scoring }
{
    match known {
        Some(answer) if is_of(&answer, board, scoring) => answer,
        _ => solve_with(*board, memory, scoring),
    }
}

// Whether this is the answer of the board under the scoring.
fn is_of(answer: &Answer, board: &Board, scoring: Scoring) -> bool
    ensures { IsTrue result → (answer.now.board ≡ board.now) × (answer.now.scoring ≡ scoring) }
{
    answer.board == *board && answer.scoring == scoring
}

// Adds the line of the game's fault, if it has one.
fn push_fault(text: &mut Analysis, number: u64, fault: Option<Fault>)
    requires room { array_vec_len text.old ≤ 16448 }
    ensures told { text.new.items ≡ text.old.items ++ fault_part number fault }
    ensures len { array_vec_len text.new ≤ array_vec_len text.old + 65 }
{
    if let Some(fault) = fault {
        push_line(text, game_line(number, &fault).as_slice());
    }
}

// Adds a line, with byte 10.
fn push_line(text: &mut Analysis, line: &[u8])
    requires room { array_vec_len text.old + length line.now + 1 ≤ 16640 }
    ensures told { text.new.items ≡ text.old.items ++ (line.now ++ 10 ∷ []) }
    ensures len { array_vec_len text.new ≡ array_vec_len text.old + length line.now + 1 }
{
    push(text, line);
    text.push(b'\n');
}

// Adds these bytes.
fn push(text: &mut Analysis, bytes: &[u8])
    requires room { array_vec_len text.old + length bytes.now ≤ 16640 }
    ensures told { text.new.items ≡ text.old.items ++ bytes.now }
    ensures len { array_vec_len text.new ≡ array_vec_len text.old + length bytes.now }
{
    text.try_extend_from_slice(bytes).unwrap();
}
