//! A table as a search uses it: two cells for each board.
ghost use Rattle.std.specs.Prelude.{◌≡◌, ◌≢◌, ◌<◌, IfSome, IsNone, None};
ghost use Rattle.oth_rules.specs.Symmetry.{IsCanonical};
ghost use Rattle.oth_table.specs.Sizes.{IsSize};
ghost use Rattle.oth_table.specs.SharedTable.{IsSame, IsSeatOf, IsFoundBy, Makes};
ghost use Rattle.oth_table.specs.Pairs.{LooksAt, PutsAt, LooksBoth, LooksFor, PutsFor};
ghost use Rattle.oth_table.specs.Parts.{fixed_of};

use crate::choice::{entry_in, picked, place, second};
use crate::table::{Look, Put, SharedTable, TableSeat};
use oth_rules::{Board, Scoring};
use oth_search::{Cells, Entry, Solved};
use std::alloc::Global;
use std::marker::Model;

/// A table and a seat at it, as the cells in which a search keeps what it found.
/// It works under the table's scoring only: for the other one it finds nothing and keeps nothing.
#[derive(Drop)]
pub struct TableCells<'a> {
    table: &'a SharedTable,
    seat: TableSeat,
}

impl<'a> Model for TableCells<'a> {
    ghost use Rattle.oth_table.specs.Parts.{Use};
    ghost use Rattle.oth_table.specs.SharedTable.{IsSeatOf};

    ghost Value = { Use };

    ghost view = { λ c. record { table = c.table.now; seat = c.seat } };

    ghost invariant = { λ c. IsSeatOf c.table.now c.seat };
}

impl<'a> TableCells<'a> {
    /// The cells of this table, used from this seat of it.
    pub fn of(table: &'a SharedTable, seat: TableSeat) -> TableCells<'a>
        requires { IsSeatOf table.now seat }
        ensures table { result.table ≡ table.now }
        ensures seat { result.seat ≡ seat }
    {
        TableCells { table, seat }
    }

    /// The seat, as it then is.
    pub fn into_seat(self) -> TableSeat
        ensures seat { result ≡ self.entry.seat }
        ensures home { IsSeatOf self.entry.table result }
    {
        let TableCells { table: _, seat } = self;
        seat
    }

    /// Cells of the same table by a further seat of it; none where there is no memory for one. Its making stands in the
    /// history that both seats have then seen. It takes two atomic steps.
    pub fn another(&mut self, alloc: Global) -> Option<TableCells<'a>>
        ensures table { self.new.table ≡ self.old.table }
        ensures same { IsSame self.old.seat self.new.seat }
        ensures made { IfSome result (λ cells. (cells.table ≡ self.old.table)
            × Makes self.old.seat self.new.seat cells.seat) }
        ensures none { IsNone result → self.new ≡ self.old }
    {
        let Ok(seat) = self.table.seat(alloc, &mut self.seat) else {
            return None;
        };
        Some(TableCells::of(self.table, seat))
    }

    /// The number of the table's cells.
    pub fn count(&self) -> u32
        ensures count { result ≡ self.now.table.cells }
        ensures lawful { IsSize result }
        ensures some { 0 < result }
    {
        self.table.cells()
    }

    // The table's scoring.
    fn scoring(&self) -> Scoring
        ensures { result ≡ self.now.table.terms.scoring }
    {
        self.table.scoring()
    }

    // Looks at both cells of the board. In a table of one cell one look counts as both.
    fn look_both(&mut self, board: &Board) -> (Look, Look)
        requires { IsCanonical board.now }
        ensures fixed { fixed_of self.new ≡ fixed_of self.old }
        ensures looks { LooksBoth self.old self.new.seat.seen board.now result.0 result.1 }
        ensures first { IsFoundBy self.old.table.terms.scoring result.0 }
        ensures other { IsFoundBy self.old.table.terms.scoring result.1 }
    {
        let cells = self.count();
        let first = self.look_at(place(board, cells));
        if cells == 1 {
            let other = first;
            return (first, other);
        }
        let other = self.look_at(second(board, cells));
        (first, other)
    }

    // The looks and the put of an entry under the table's scoring.
    fn put_own(&mut self, entry: &Entry)
        requires { entry.now.scoring ≡ self.old.table.terms.scoring }
        ensures fixed { fixed_of self.new ≡ fixed_of self.old }
        ensures put { PutsFor self.old self.new entry.now }
    {
        entry.shows_true();
        let board = entry.board();
        let (first, other) = self.look_both(&board);
        let cell = picked(&first, &other, &board, self.count());
        self.put_at(cell, entry);
    }

    // A look at one cell.
    fn look_at(&mut self, cell: u32) -> Look
        requires { cell < self.old.table.cells }
        ensures fixed { fixed_of self.new ≡ fixed_of self.old }
        ensures look { LooksAt self.old cell self.old.seat.seen self.new.seat.seen result }
        ensures scoring { IsFoundBy self.old.table.terms.scoring result }
    {
        self.table.look(&mut self.seat, cell)
    }

    // A put at one cell.
    fn put_at(&mut self, cell: u32, entry: &Entry) -> Put
        requires cell { cell < self.old.table.cells }
        requires scoring { entry.now.scoring ≡ self.old.table.terms.scoring }
        ensures fixed { fixed_of self.new ≡ fixed_of self.old }
        ensures put { PutsAt self.old cell self.old.seat.seen self.new.seat.seen entry.now result }
    {
        self.table.put(&mut self.seat, cell, entry)
    }
}

impl<'a> Cells for TableCells<'a> {
    ghost use Rattle.oth_table.specs.Parts.{Fixed};

    ghost Fixed = { Fixed };

    ghost fixed = { λ c. fixed_of c };

    /// Looks at both cells of the board, and gives its entry if one holds it, the first cell's if both do. At most
    /// ten atomic steps.
    fn look(&mut self, board: &Board, scoring: Scoring) -> Option<Entry>
        requires { IsCanonical board.now }
        ensures asked { IfSome result (λ e. (e.board ≡ board.now) × (e.scoring ≡ scoring)) }
        ensures fixed { fixed_of self.new ≡ fixed_of self.old }
        ensures looks { scoring ≡ self.old.table.terms.scoring → LooksFor self.old self.new board.now result }
        ensures other { scoring ≢ self.old.table.terms.scoring → (result ≡ None) × (self.new ≡ self.old) }
    {
        if scoring != self.scoring() {
            return None;
        }
        let (first, other) = self.look_both(board);
        entry_in(&first, board).or(entry_in(&other, board))
    }

    /// Looks at both cells of the board, picks one, and makes one store there. At most nineteen atomic steps.
    fn put(&mut self, entry: &Entry)
        ensures fixed { fixed_of self.new ≡ fixed_of self.old }
        ensures put { entry.now.scoring ≡ self.old.table.terms.scoring → PutsFor self.old self.new entry.now }
        ensures other { entry.now.scoring ≢ self.old.table.terms.scoring → self.new ≡ self.old }
    {
        if entry.scoring() == self.scoring() {
            self.put_own(entry);
        }
    }

    /// Returns nothing, without a step: for boards of few empty squares a search has a local table.
    fn probe_local(&mut self, _board: &Board, _scoring: Scoring) -> Option<Solved>
        ensures asked { IfSome result (λ s. (s.board ≡ _board.now) × (s.scoring ≡ _scoring)) }
        ensures fixed { fixed_of self.new ≡ fixed_of self.old }
        ensures none { result ≡ None }
        ensures unchanged { self.new ≡ self.old }
    {
        None
    }

    /// Drops it, without a step.
    fn store_local(&mut self, _solved: &Solved)
        ensures fixed { fixed_of self.new ≡ fixed_of self.old }
        ensures unchanged { self.new ≡ self.old }
    {}
}
