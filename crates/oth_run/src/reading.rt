//! What a line that has ended is read as, and what it is answered with.

ghost use Rattle.std.specs.Prelude.{◌≡◌, ℕ, List, true, OnOk, OnErr};
ghost use Rattle.oth_text.specs.BoardLine.{board_line};
ghost use Rattle.oth_text.specs.Ranking.{scores_line_of};
ghost use Rattle.oth_text.specs.Report.{moves_line_of, report_line_of};
ghost use Rattle.oth_words.specs.declared.settings.Command.{Command as CommandGiven};
ghost use Rattle.oth_run.specs.Faulty.{first_fault};
ghost use Rattle.oth_run.specs.Gathered.{Gathers, StopsInText};
ghost use Rattle.oth_run.specs.Line.{Reads};
ghost use Rattle.oth_run.specs.Reply.{reply};

use crate::game::Game;
use crate::solvable::Solvable;
use crate::solver::Solver;
use crate::tuning::{HELD_ANSWER_MAX_EMPTIES, HELD_SCORES_MAX_EMPTIES};
use crate::waiting::Waiting;
use oth_batch::Jobs;
use oth_pool::Gate;
use oth_rules::Board;
use oth_text::{Failed, Fault, Position, Sink, any_fault_line, moves_line, write_board};
use std::sync::Wait;
use std::thread::Threads;

/// What a line is read as, once, when it ends: what its reply is found from.
#[derive(Drop)]
pub enum Reading<'l> {
    /// The score and all best moves are asked.
    Solve(Solvable),
    /// The score of every move is asked.
    Scores(Solvable),
    /// All legal moves are asked.
    Moves(Position),
    /// Moves lead to this position.
    Reached(Position),
    /// A game is analysed, faulty or not.
    Analyse(Game<'l>),
    /// The line, no game that is analysed, has this fault.
    Faulty(Fault),
}

impl<'l> Reading<'l> {
    /// The fault with which the line is answered, if it has one.
    pub fn fault(&self) -> Option<Fault>
        ensures { (command : CommandGiven) (number : ℕ) (line : List ℕ) → Reads command number line self.now
            → result ≡ first_fault command line }
    {
        match self {
            Reading::Faulty(fault) => Some(*fault),
            Reading::Analyse(game) => game.fault,
            Reading::Solve(_) | Reading::Scores(_) | Reading::Moves(_) | Reading::Reached(_) =>
                None,
        }
    }

    /// Whether its answer may take time: that of a board of many empty squares, or of a game.
    pub fn takes_time(&self) -> bool {
        match self {
            Reading::Solve(asked) => asked.position.board.empties() > HELD_ANSWER_MAX_EMPTIES,
            Reading::Scores(asked) => asked.position.board.empties() > HELD_SCORES_MAX_EMPTIES,
            Reading::Analyse(_) => true,
            Reading::Moves(_) | Reading::Reached(_) | Reading::Faulty(_) => false,
        }
    }

    /// Adds what is written of the line to what waits, without its last byte 10. What is found of a board that is one
    /// of the jobs is awaited.
    pub fn tell<T: Wait + Threads + Sync, W: Sink, G: Gate>(
        &self,
        solver: &Solver<'_, T, G>,
        jobs: Option<&Jobs<'_, T, G>>,
        waiting: &mut Waiting,
        writer: &mut W,
    ) -> Result<(), Failed>
        ensures ok { OnOk result ((number : ℕ) (line : List ℕ)
            → Reads solver.now.settings.command number line self.now
            → Gathers (W.contents writer.old) (W.contents writer.new) waiting.old.bytes.items waiting.new.bytes.items
            (reply solver.now.settings number line)) }
        ensures err { OnErr result ((number : ℕ) (line : List ℕ)
            → Reads solver.now.settings.command number line self.now
            → StopsInText (W.contents writer.old) (W.contents writer.new) waiting.old.bytes.items
            (reply solver.now.settings number line)) }
        ensures works { OnOk result (W.failed writer.new ≡ W.failed writer.old) }
        ensures fails { OnErr result (W.failed writer.new ≡ true) }
    {
        match self {
            Reading::Solve(asked) => tell_answer(asked, solver, jobs, waiting, writer),
            Reading::Scores(asked) => tell_scores(asked, solver, jobs, waiting, writer),
            Reading::Moves(position) => tell_moves(&position.board, waiting, writer),
            Reading::Reached(position) => tell_position(position, waiting, writer),
            Reading::Analyse(game) => game.tell(solver, jobs, waiting, writer),
            Reading::Faulty(fault) => waiting.push_text(writer, any_fault_line(fault).as_slice()),
        }
    }
}

// Adds the score and all best moves. Never inlined, nor are those below: each clears room for its own reply alone.
#[inline(never)]
fn tell_answer<T: Wait + Threads + Sync, W: Sink, G: Gate>(
    asked: &Solvable,
    solver: &Solver<'_, T, G>,
    jobs: Option<&Jobs<'_, T, G>>,
    waiting: &mut Waiting,
    writer: &mut W,
) -> Result<(), Failed>
    ensures ok { OnOk result (Gathers (W.contents writer.old) (W.contents writer.new) waiting.old.bytes.items
        waiting.new.bytes.items (report_line_of solver.now.settings.scoring asked.now.position.board)) }
    ensures err { OnErr result (StopsInText (W.contents writer.old) (W.contents writer.new) waiting.old.bytes.items
        (report_line_of solver.now.settings.scoring asked.now.position.board)) }
    ensures works { OnOk result (W.failed writer.new ≡ W.failed writer.old) }
    ensures fails { OnErr result (W.failed writer.new ≡ true) }
{
    let board = &asked.position.board;
    solver.batch.gate.awaits(board);
    let answer = solver.awaited_answer(jobs, board);
    waiting.push_report_line(writer, &answer)
}

// Adds the score of every move, the best first.
#[inline(never)]
fn tell_scores<T: Wait + Threads + Sync, W: Sink, G: Gate>(
    asked: &Solvable,
    solver: &Solver<'_, T, G>,
    jobs: Option<&Jobs<'_, T, G>>,
    waiting: &mut Waiting,
    writer: &mut W,
) -> Result<(), Failed>
    ensures ok { OnOk result (Gathers (W.contents writer.old) (W.contents writer.new) waiting.old.bytes.items
        waiting.new.bytes.items (scores_line_of solver.now.settings.scoring asked.now.position.board)) }
    ensures err { OnErr result (StopsInText (W.contents writer.old) (W.contents writer.new) waiting.old.bytes.items
        (scores_line_of solver.now.settings.scoring asked.now.position.board)) }
    ensures works { OnOk result (W.failed writer.new ≡ W.failed writer.old) }
    ensures fails { OnErr result (W.failed writer.new ≡ true) }
{
    let board = &asked.position.board;
    solver.batch.gate.awaits(board);
    let line = solver.awaited_scores_line(jobs, board);
    waiting.push_text(writer, line.as_slice())
}

// Adds all legal moves.
#[inline(never)]
fn tell_moves<W: Sink>(board: &Board, waiting: &mut Waiting, writer: &mut W) -> Result<(), Failed>
    ensures ok { OnOk result (Gathers (W.contents writer.old) (W.contents writer.new) waiting.old.bytes.items
        waiting.new.bytes.items (moves_line_of board.now)) }
    ensures err { OnErr result (StopsInText (W.contents writer.old) (W.contents writer.new) waiting.old.bytes.items
        (moves_line_of board.now)) }
    ensures works { OnOk result (W.failed writer.new ≡ W.failed writer.old) }
    ensures fails { OnErr result (W.failed writer.new ≡ true) }
{
    waiting.push_text(writer, moves_line(board).as_slice())
}

// Adds the board line of a position.
#[inline(never)]
fn tell_position<W: Sink>(
    position: &Position,
    waiting: &mut Waiting,
    writer: &mut W,
) -> Result<(), Failed>
    ensures ok { OnOk result (Gathers (W.contents writer.old) (W.contents writer.new) waiting.old.bytes.items
        waiting.new.bytes.items (board_line position.now)) }
    ensures err { OnErr result (StopsInText (W.contents writer.old) (W.contents writer.new) waiting.old.bytes.items
        (board_line position.now)) }
    ensures works { OnOk result (W.failed writer.new ≡ W.failed writer.old) }
    ensures fails { OnErr result (W.failed writer.new ≡ true) }
{
    waiting.push_text(writer, write_board(position).as_slice())
}
