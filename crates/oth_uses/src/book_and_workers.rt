//! A board is solved by four workers over a table, where a book may know the answer.

ghost use Rattle.std.specs.Prelude.{◌≡◌, Err, IfOk};
ghost use Rattle.oth_search.specs.Bounds.Full.{IsFullMinimax};
ghost use Rattle.oth_book.specs.Contents.{Contents, IsText};
ghost use Rattle.oth_book.specs.Fault.{IsBookFault};
ghost use Rattle.oth_book.specs.True.{IsWrong};
ghost use Rattle.oth_book.specs.declared.fault.BookFault.{BookFault as FaultOfBook};
ghost use Rattle.oth_book.specs.declared.wrong.Wrong.{Wrong as WrongClaim};
ghost use Rattle.oth_pool.specs.Solving.{Refuses};
ghost use Rattle.oth_pool.specs.declared.solving.SolveError.{SolveError as Refusal};

use oth_book::{BookFault, Wrong, read_claims, verify};
use oth_pool::{Open, SolveError, solve};
use oth_rules::Board;
use oth_search::Answer;
use std::alloc::Global;
use std::thread::Threads;

/// Why there is no answer.
#[derive(Clone, Copy, PartialEq, Eq, Debug)]
pub enum NoAnswer {
    Text(BookFault),
    Claim(Wrong),
    Board(SolveError),
}

/// The answer of the board under the scoring of the book of this text. Neither the book nor the workers change it.
pub fn solve_by_book<R: Threads + Sync>(
    rt: &R,
    alloc: Global,
    text: &[u8],
    board: &Board,
) -> Result<Answer, NoAnswer>
    ensures full { IfOk result (λ a. (c : Contents) × IsText c text.now × IsFullMinimax board.now c.scoring a) }
    ensures text { (f : FaultOfBook) → result ≡ Err (NoAnswer.Text f) → IsBookFault text.now f }
    ensures claim { (w : WrongClaim) → result ≡ Err (NoAnswer.Claim w)
        → (c : Contents) × IsText c text.now × IsWrong c w }
    ensures board { (e : Refusal) → result ≡ Err (NoAnswer.Board e) → Refuses board.now 4 65536 e }
{
    let claims = read_claims(alloc, text).map_err(NoAnswer::Text)?;
    let book = verify(alloc, claims).map_err(NoAnswer::Claim)?;
    let scoring = book.scoring();
    solve(rt, alloc, board, 4, 65_536, &Open, Some(&book), scoring).map_err(NoAnswer::Board)
}
