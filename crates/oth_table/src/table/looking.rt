//! A look at one cell. It loads the version, the three words of the entry, and the version again. If both loads of the
//! version give one even number, nobody claimed the cell between them, so the three words are those of one publish: no
//! look ever gives words of two stores. Else it answers `Busy`.
ghost use Rattle.std.specs.Prelude.{◌≡◌, ◌<◌};
ghost use Rattle.oth_table.specs.Steps.{glanced, read, checked, IsSameSeat, IsReading};
ghost use Rattle.oth_table.specs.SharedTable.{IsSeatOf, IsSame, IsFoundBy, Looks};
ghost use Rattle.oth_table.specs.declared.history.Stage.TheVariants.{Idle};

use super::{Look, SharedTable, TableSeat, word_at};
use crate::history::View;
use crate::rule::{LoadVersionToLook, LoadWord, ReloadVersion};
use atomic_table::Seat;
use oth_search::Entry;

impl SharedTable {
    /// The entry of a cell, or why there is none. `cell` is below `cells`. At most five atomic steps: it loads the
    /// version, the three words of the entry, and the version again. It doesn't try twice.
    pub fn look(&self, seat: &mut TableSeat, cell: u32) -> Look
        requires seat { IsSeatOf self.now seat.old }
        requires cell { cell < self.now.cells }
        ensures seat { IsSame seat.old seat.new }
        ensures place { Looks seat.old.terms seat.old.name seat.old.seen seat.new.seen cell result }
        ensures scoring { IsFoundBy self.now.terms.scoring result }
    {
        self.look_by(&mut seat.seat, cell)
    }

    // A look by a seat at rest.
    fn look_by(&self, seat: &mut Seat<Entry, View>, cell: u32) -> Look
        requires table { (seat.old.table_id ≡ self.now.id) × (seat.old.me.0.terms ≡ self.now.terms) }
        requires cell { cell < self.now.cells }
        requires idle { seat.old.me.0.stage ≡ Idle }
        ensures table { seat.new.table_id ≡ seat.old.table_id }
        ensures same { IsSameSeat seat.old.me.0 seat.new.me.0 }
        ensures idle { seat.new.me.0.stage ≡ Idle }
        ensures place { let v = seat.old.me.0 in Looks v.terms v.name v.seen seat.new.me.0.seen cell result }
    {
        let version = self.glance(seat, cell);
        if version == 0 {
            return Look::Empty;
        }
        if version % 2 == 1 {
            return Look::Busy;
        }
        let own = self.read(seat, cell, 0);
        let opp = self.read(seat, cell, 1);
        let bounds = self.read(seat, cell, 2);
        if self.check(seat, cell) != version {
            return Look::Busy;
        }
        Look::Whole(Entry::of_words([own, opp, bounds], self.scoring()))
    }

    // The first load of a look.
    fn glance(&self, seat: &mut Seat<Entry, View>, cell: u32) -> u64
        requires table { seat.old.table_id ≡ self.now.id }
        requires cell { cell < self.now.cells }
        requires idle { seat.old.me.0.stage ≡ Idle }
        ensures table { seat.new.table_id ≡ seat.old.table_id }
        ensures told { glanced cell seat.old.me.0 result seat.new.me.0 }
    {
        self.table
            .shared
            .load::<LoadVersionToLook>(seat, word_at(cell, 0))
    }

    // The load of the entry's word `i`.
    fn read(&self, seat: &mut Seat<Entry, View>, cell: u32, i: usize) -> u64
        requires table { seat.old.table_id ≡ self.now.id }
        requires cell { cell < self.now.cells }
        requires word { i < 3 }
        requires reads { IsReading cell seat.old.me.0.stage }
        ensures table { seat.new.table_id ≡ seat.old.table_id }
        ensures told { read i seat.old.me.0 seat.old.me.0.stage result seat.new.me.0 }
    {
        self.table
            .shared
            .load::<LoadWord>(seat, word_at(cell, 1 + i))
    }

    // The second load of the version.
    fn check(&self, seat: &mut Seat<Entry, View>, cell: u32) -> u64
        requires table { seat.old.table_id ≡ self.now.id }
        requires cell { cell < self.now.cells }
        requires reads { IsReading cell seat.old.me.0.stage }
        ensures table { seat.new.table_id ≡ seat.old.table_id }
        ensures told { checked seat.old.me.0 seat.old.me.0.stage result seat.new.me.0 }
    {
        self.table
            .shared
            .load::<ReloadVersion>(seat, word_at(cell, 0))
    }
}
