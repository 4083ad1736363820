//! A seat with the table that it is at, and the flag that ends searches over that table.

ghost use Rattle.std.specs.Prelude.{◌≡◌, ◌↔◌, ◌+ℤ◌, pos, IsSome, IsErr, IfOk, IfErr};
ghost use Rattle.oth_search.specs.Bounds.Full.{IsFullMinimax};
ghost use Rattle.oth_search.specs.Bounds.Interval.{Decides};
ghost use Rattle.oth_table.specs.SharedTable.{IsSeatOf, IsSame, Makes};
ghost use Rattle.oth_table.specs.Sizes.{IsSize};
ghost use Rattle.oth_table.specs.Parts.{fixed_of};
ghost use Rattle.oth_c.specs.Seats.{IsOpened, RefusesCells};
ghost use Rattle.oth_c.specs.declared.refusal.Refusal.TheVariants as refusal;

use crate::refusal::Refusal;
use crate::solving::cells_over;
use oth_rules::{Board, Scoring};
use oth_search::{
    Answer, Limited, LocalTables, Resume, Scores, Solved, StopFlag, Stopped, WithLocal,
    scores_with, solve_until, solve_with,
};
use oth_table::{SharedTable, TableCells, TableError, TableSeat};
use std::alloc::Global;
use std::marker::Model;
use std::sync::Arc;

/// A seat of a table, and a part in the table and in its flag: the last seat that goes frees both.
#[derive(Drop)]
pub struct Seated {
    table: Arc<SharedTable>,
    seat: TableSeat,
    stop: Arc<StopFlag>,
    kept: Kept,
}

// What a search that was ended leaves for a further one: what it had come to, and its local tables.
#[derive(Drop)]
struct Kept {
    resume: Resume,
    memories: Option<LocalTables>,
}

impl Kept {
    // Nothing by now.
    fn new(alloc: Global) -> Kept {
        Kept {
            resume: Resume::new(alloc),
            memories: None,
        }
    }

    // What a search leaves: what it had come to, and its local tables where it was ended.
    fn after(found: &Result<Answer, Stopped>, resume: Resume, memories: LocalTables) -> Kept
        ensures { IsSome result.memories ↔ IsErr found.now }
    {
        let memories = if found.is_err() { Some(memories) } else { None };
        Kept { resume, memories }
    }

    // What it had come to, and local tables for a search of this board: those that are kept, if they are of its size.
    fn taken_up(self, alloc: Global, board: &Board) -> (Resume, LocalTables) {
        let Kept { resume, memories } = self;
        let empties = board.empties();
        match memories {
            Some(memories) if memories.are_for(empties) => (resume, memories),
            _ => (resume, LocalTables::of(alloc, empties, false)),
        }
    }
}

impl Model for Seated {
    ghost use Rattle.oth_table.specs.Parts.{Use};
    ghost use Rattle.oth_table.specs.SharedTable.{IsSeatOf};

    ghost Value = { Use };

    ghost view = { λ s. record { table = s.table.value; seat = s.seat } };

    ghost invariant = { λ s. IsSeatOf s.table.value s.seat };
}

/// The place of a `Seated`, empty while a call has it.
#[derive(Drop)]
pub struct SeatSlot {
    pub seated: Option<Seated>,
}

impl Seated {
    /// The first seat of a new table of `cells` cells: 1, 2, 4 .. 262,144.
    pub fn new(alloc: Global, cells: u32, scoring: Scoring) -> Result<Seated, Refusal>
        ensures ok { IfOk result (λ s. IsSize cells × IsOpened cells scoring s) }
        ensures err { IfErr result (RefusesCells cells) }
    {
        match SharedTable::new(alloc, cells, scoring) {
            Ok((table, seat)) => {
                let Ok(table) = Arc::new(alloc, table) else {
                    return Err(Refusal::Memory);
                };
                let Ok(stop) = Arc::new(alloc, StopFlag::new()) else {
                    return Err(Refusal::Memory);
                };
                let kept = Kept::new(alloc);
                Ok(Seated {
                    table,
                    seat,
                    stop,
                    kept,
                })
            }
            Err(TableError::Cells) => Err(Refusal::Cells),
            Err(_) => Err(Refusal::Memory),
        }
    }

    /// A further seat of the same table. The only refusal is out of memory, which leaves this one as it was.
    pub fn another(&mut self, alloc: Global) -> Result<Seated, Refusal>
        ensures table { self.new.table ≡ self.old.table }
        ensures same { IsSame self.old.seat self.new.seat }
        ensures made { IfOk result (λ s. (s.table ≡ self.old.table) × Makes self.old.seat self.new.seat s.seat) }
        ensures err { IfErr result (λ r. (r ≡ refusal.Memory) × (self.new ≡ self.old)) }
    {
        let Seated {
            table,
            seat,
            stop,
            ..
        } = self;
        let Ok(part) = Arc::try_clone(table) else {
            return Err(Refusal::Memory);
        };
        let Ok(stop) = Arc::try_clone(stop) else {
            return Err(Refusal::Memory);
        };
        match table.seat(alloc, seat) {
            Ok(seat) => Ok(Seated {
                table: part,
                seat,
                stop,
                kept: Kept::new(alloc),
            }),
            Err(_) => Err(Refusal::Memory),
        }
    }

    /// The answer of a board under the table's scoring, and the seat, as it then is.
    pub fn solve(mut self, alloc: Global, board: Board) -> (Seated, Answer)
        ensures kept { fixed_of result.0 ≡ fixed_of self }
        ensures full { IsFullMinimax board self.table.terms.scoring result.1 }
    {
        let seat = self.seat;
        let mut cells = cells_over(alloc, &board, &self.table, seat, false);
        let answer = solve_with(board, &mut cells, self.table.scoring());
        self.seat = cells.into_cells().into_seat();
        (self, answer)
    }

    /// The scores of a board's moves under the table's scoring, and the seat, as it then is.
    pub fn scores(mut self, alloc: Global, board: Board) -> (Seated, Scores)
        ensures kept { fixed_of result.0 ≡ fixed_of self }
        ensures board { result.1.answer.board ≡ board }
        ensures scoring { result.1.answer.scoring ≡ self.table.terms.scoring }
    {
        let seat = self.seat;
        let mut cells = cells_over(alloc, &board, &self.table, seat, false);
        let scores = scores_with(board, &mut cells, self.table.scoring());
        self.seat = cells.into_cells().into_seat();
        (self, scores)
    }

    /// Returns the answer of a board under the table's scoring, or the bounds that are known when about `most` boards
    /// were looked up, or once the table's flag is set; and the seat, as it then is.
    pub fn solve_within(
        mut self,
        alloc: Global,
        board: Board,
        most: u64,
    ) -> (Seated, Result<Answer, Stopped>)
        ensures kept { fixed_of result.0 ≡ fixed_of self }
        ensures full { IfOk result.1 (IsFullMinimax board self.table.terms.scoring) }
        ensures known { IfErr result.1 (λ s. (s.known.board ≡ board)
            × (s.known.scoring ≡ self.table.terms.scoring)) }
        ensures moves { IfErr result.1 (λ s. (s.moves.board ≡ board)
            × (s.moves.scoring ≡ self.table.terms.scoring)) }
    {
        let (seat, kept) = (self.seat, self.kept);
        let (resume, memories) = kept.taken_up(alloc, &board);
        let cells = WithLocal::of(TableCells::of(&self.table, seat), memories);
        let mut limited = Limited::going_on(cells, most, resume);
        let found = solve_until(&board, &mut limited, self.table.scoring(), &self.stop);
        let (cells, resume) = limited.into_parts();
        let (cells, memories) = cells.into_parts();
        self.seat = cells.into_seat();
        self.kept = Kept::after(&found, resume, memories);
        (self, found)
    }

    /// Returns bounds that tell whether the board's value is above `alpha` under the table's scoring, and the seat, as
    /// it then is. A threshold that no value is above, or every one, takes no search.
    pub fn null_window(mut self, alloc: Global, board: Board, alpha: i8) -> (Seated, Solved)
        ensures kept { fixed_of result.0 ≡ fixed_of self }
        ensures board { result.1.board ≡ board }
        ensures scoring { result.1.scoring ≡ self.table.terms.scoring }
        ensures decides { Decides result.1.interval.lower result.1.interval.upper alpha (alpha +ℤ pos 1) }
    {
        let scoring = self.table.scoring();
        let seat = self.seat;
        let mut cells = cells_over(alloc, &board, &self.table, seat, false);
        let found = if -64 <= alpha && alpha <= 63 {
            Solved::by_null_window(&board, alpha, &mut cells, scoring)
        } else {
            Solved::unknown(board, scoring)
        };
        self.seat = cells.into_cells().into_seat();
        (self, found)
    }

    /// Tells all seats of the table whether searches that may be ended are to end.
    pub fn tell_all(&self, are_to_end: bool) {
        if are_to_end {
            self.stop.set();
        } else {
            self.stop.clear();
        }
    }
}
