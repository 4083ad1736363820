//! Transcripts: the names of moves, one after the other, from the start of a game or from another position.
//!
//! `IsTranscriptFrom`, `transcript_reading_from` and `StandsFrom` name where the moves begin; `IsTranscript`,
//! `transcript_reading` and `StandsFor` are these at the start of a game. In parts, `StandsFrom from kept text`
//! says what any further pairs lead to. The number of the next pair and the empty squares are at most 65 together,
//! so the number of a pair is a `u8`; after a fault only the parity of the length counts.

ghost use Rattle.std.specs.Prelude.{◌≡◌, ◌+◌, ◌≤◌, ◌<◌, ◌↔◌, ℕ, List, [], ◌∷◌, ◌++◌, Option, None, Some, Ok, Err, IfOk};
ghost use Rattle.std.specs.Prelude.{IfErr, SomeIff, IsTrue};
ghost use Rattle.oth_rules.specs.Move.{after};
ghost use Rattle.oth_rules.specs.Position.{empty_count};
ghost use Rattle.oth_text.specs.declared.position.Position.{Position as PositionReached};
ghost use Rattle.oth_text.specs.declared.fault.TranscriptFault.{TranscriptFault as Fault};
ghost use Rattle.oth_text.specs.Transcript.{IsTranscript, IsTranscriptFault, MovesUnlessOver, Reached, StandsFor};
ghost use Rattle.oth_text.specs.Transcript.{IsTranscriptFaultFrom, IsTranscriptFrom, StandsFrom};
ghost use Rattle.oth_text.specs.Transcript.{after_move, is_nil, is_square_name, pair_fault, square_of};
ghost use Rattle.oth_text.specs.Transcript.{transcript_reading, transcript_reading_from, with_forced_pass};

use crate::fault::TranscriptFault;
use crate::position::Position;
use oth_rules::{Board, Square};
use std::marker::Model;

/// A transcript that is read in parts, of any length and in a fixed space. It keeps the position that the pairs so far
/// lead to, or their first fault.
#[derive(Clone, Copy, Debug, PartialEq, Eq)]
pub struct TranscriptReader {
    position: Position,
    next_pair: u8,
    fault: Option<TranscriptFault>,
    pending: Option<u8>,
    is_empty: bool,
}

impl Model for TranscriptReader {
    ghost use Rattle.std.specs.Prelude.{◌+◌, ◌≤◌};
    ghost use Rattle.oth_rules.specs.Position.{empty_count};
    ghost use Rattle.oth_text.specs.Transcript.{Reached};

    ghost Value = { Reached };

    ghost view = { λ r. record {
      position = r.position;
      next_pair = r.next_pair;
      fault = r.fault;
      pending = r.pending;
      is_empty = r.is_empty;
    } };

    // Each move takes an empty square.
    ghost invariant = { λ r. r.next_pair + empty_count r.position.board ≤ 65 };

    ghost inverse = { λ v. record {
      position = v.position;
      next_pair = v.next_pair;
      fault = v.fault;
      pending = v.pending;
      is_empty = v.is_empty;
    } };
}

impl TranscriptReader {
    /// The reader before the first byte of a transcript from the start of a game.
    pub fn new() -> Self
        ensures { StandsFor result [] }
    {
        Self::starting_at(Position::start())
    }

    /// The reader before the first byte of a transcript from this position, whose mover moves first.
    pub fn starting_at(position: Position) -> Self
        ensures { StandsFrom position result [] }
    {
        TranscriptReader {
            position,
            next_pair: 1,
            fault: None,
            pending: None,
            is_empty: true,
        }
    }

    /// Forgets what was read: another transcript begins, from the start of a game.
    pub fn clear(&mut self)
        ensures { StandsFor self.new [] }
    {
        *self = Self::new();
    }

    /// Takes the next bytes of the transcript.
    pub fn push(&mut self, bytes: &[u8])
        ensures { (from : PositionReached) (text : List ℕ) → StandsFrom from self.old text
            → StandsFrom from self.new (text ++ bytes.now) }
    {
        for byte in bytes {
            self.push_byte(*byte);
        }
    }

    /// Whether no byte was taken.
    pub fn is_empty(&self) -> bool
        ensures { (from : PositionReached) (text : List ℕ) → StandsFrom from self.now text → result ≡ is_nil text }
    {
        self.is_empty
    }

    /// The reading of the transcript; from the start of a game it is that of `read_transcript`.
    pub fn read(&self) -> Result<Position, TranscriptFault>
        ensures { (from : PositionReached) (text : List ℕ) → StandsFrom from self.now text
            → result ≡ transcript_reading_from from text }
    {
        if self.pending.is_some() {
            return Err(TranscriptFault::OddLength);
        }
        match self.fault {
            Some(fault) => Err(fault),
            None => Ok(self.position),
        }
    }

    // One more byte: the first of a pair waits for the second.
    fn push_byte(&mut self, byte: u8)
        ensures { (from : PositionReached) (text : List ℕ) → StandsFrom from self.old text
            → StandsFrom from self.new (text ++ byte ∷ []) }
    {
        self.is_empty = false;
        match self.pending {
            None => self.pending = Some(byte),
            Some(letter) => {
                self.pending = None;
                if self.fault.is_none() {
                    self.play_pair(letter, byte);
                }
            }
        }
    }

    // Plays the next pair.
    fn play_pair(&mut self, letter: u8, digit: u8)
        ensures fault { self.new.fault ≡ pair_fault self.old.next_pair self.old.position letter digit }
        ensures played { self.new.fault ≡ None → (self.new.next_pair ≡ self.old.next_pair + 1)
            × (self.new.position ≡ after_move self.old.position (square_of letter digit)) }
        ensures pending { self.new.pending ≡ self.old.pending }
        ensures is_empty { self.new.is_empty ≡ self.old.is_empty }
    {
        match after_pair(&self.position, self.next_pair, letter, digit) {
            Ok(position) => {
                self.position = position;
                self.next_pair += 1;
                self.fault = None;
            }
            Err(fault) => self.fault = Some(fault),
        }
    }
}

// The position after pair `k`, or its fault.
fn after_pair(
    position: &Position,
    k: u8,
    letter: u8,
    digit: u8,
) -> Result<Position, TranscriptFault>
    ensures ok { IfOk result (λ p. (pair_fault k position.now letter digit ≡ None)
        × (p ≡ after_move position.now (square_of letter digit))) }
    ensures fewer { IfOk result (λ p. empty_count p.board + 1 ≡ empty_count position.now.board) }
    ensures err { IfErr result (λ f. pair_fault k position.now letter digit ≡ Some f) }
{
    match move_of_pair(position, k, letter, digit) {
        Ok((_, board)) => Ok(with_forced_pass(Position {
            board,
            mover: position.mover.opponent(),
        })),
        Err(fault) => Err(fault),
    }
}

/// The square of pair `k` and the board after the move to it, or the pair's fault.
pub(crate) fn move_of_pair(
    position: &Position,
    k: u8,
    letter: u8,
    digit: u8,
) -> Result<(Square, Board), TranscriptFault>
    ensures ok { IfOk result (λ m. (pair_fault k position.now letter digit ≡ None)
        × (m.0 ≡ square_of letter digit) × (m.1 ≡ after position.now.board (square_of letter digit))) }
    ensures fewer { IfOk result (λ m. empty_count m.1 + 1 ≡ empty_count position.now.board) }
    ensures err { IfErr result (λ f. pair_fault k position.now letter digit ≡ Some f) }
{
    let Some(square) = square_named(letter, digit) else {
        return Err(TranscriptFault::BadPair(k));
    };
    if position.board.is_over() {
        return Err(TranscriptFault::Over(k));
    }
    match position.board.play(square) {
        Some(board) => Ok((square, board)),
        None => Err(TranscriptFault::Illegal(k)),
    }
}

// The square of a letter from a to h and a digit from 1 to 8.
fn square_named(letter: u8, digit: u8) -> Option<Square>
    ensures { SomeIff result (IsTrue (is_square_name letter digit)) (square_of letter digit) }
{
    if !(b'a'..=b'h').contains(&letter) || !(b'1'..=b'8').contains(&digit) {
        return None;
    }
    Square::of(8 * (digit - b'1') + (letter - b'a'))
}

// The position after a pass, where the mover has to pass and the other side can move.
pub(crate) fn with_forced_pass(position: Position) -> Position
    ensures passed { result ≡ with_forced_pass position }
    ensures empties { empty_count result.board ≡ empty_count position.board }
{
    if position.board.moves() != 0 {
        return position;
    }
    let board = position.board.pass();
    if board.moves() == 0 {
        return position;
    }
    Position {
        board,
        mover: position.mover.opponent(),
    }
}

/// The position that a transcript leads to: pairs of a letter from a to h and a digit from 1 to 8, each a legal move,
/// from the start on. A forced pass isn't written; it is put in. The mover of the position can move unless the game is
/// over, and then it is the opponent of the last player. Another text is refused with its first fault: an odd length,
/// and else the fault of its first faulty pair, counted from 1: no square, the game is over, or an illegal move.
pub fn read_transcript(text: &[u8]) -> Result<Position, TranscriptFault>
    ensures reading { result ≡ transcript_reading text.now }
    ensures position { (p : PositionReached) → (result ≡ Ok p) ↔ IsTranscript text.now p }
    ensures fault { (f : Fault) → (result ≡ Err f) ↔ IsTranscriptFault text.now f }
    ensures mover { IfOk result (λ p. MovesUnlessOver p) }
{
    read_from(Position::start(), text)
}

/// The position that a transcript leads to from this position, as `read_transcript` reads it from the start of a game.
/// A forced pass is put in before the first move too, so the mover of the answer can move unless the game is over.
pub fn play_transcript(from: Position, text: &[u8]) -> Result<Position, TranscriptFault>
    ensures reading { result ≡ transcript_reading_from (with_forced_pass from) text.now }
    ensures position { (p : PositionReached) → (result ≡ Ok p) ↔ IsTranscriptFrom (with_forced_pass from) text.now p }
    ensures fault { (f : Fault) → (result ≡ Err f) ↔ IsTranscriptFaultFrom (with_forced_pass from) text.now f }
    ensures mover { IfOk result (λ p. MovesUnlessOver p) }
{
    read_from(with_forced_pass(from), text)
}

// The position that a transcript leads to from this position, where the mover moves first.
fn read_from(from: Position, text: &[u8]) -> Result<Position, TranscriptFault>
    ensures { result ≡ transcript_reading_from from text.now }
{
    let mut reader = TranscriptReader::starting_at(from);
    reader.push(text);
    reader.read()
}
