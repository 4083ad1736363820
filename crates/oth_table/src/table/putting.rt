//! A put in one cell. A seat claims the cell by one compare-and-exchange of an even version `v` for `v + 1`; only the
//! seat with the claim writes the cell's three words, and it publishes them by storing `v + 2`. Under its claim it
//! loads the old words: if they are those of its own board, it keeps the greater lower and the lesser upper bound, else
//! the given entry. A cell that was published as often as the table's wear allows is never claimed again.
ghost use Rattle.std.specs.Prelude.{◌≡◌, ℕ, MatchBool, Option, ◌+◌, ◌/◌, ◌%◌, ◌^◌, ◌<◌};
ghost use Rattle.oth_search.specs.Bounds.Entry.{Bounded};
ghost use Rattle.oth_table.specs.Steps.{aimed, claimed, found_under, stored, published};
ghost use Rattle.oth_table.specs.Steps.{IsSameSeat, IsClaimed, Stays, Did, WentAway, Claims, WillKeep};
ghost use Rattle.oth_table.specs.Steps.{MayReadClaimed, MayStore, MayPublish};
ghost use Rattle.oth_table.specs.SharedTable.{IsSeatOf, IsSame, Puts};
ghost use Rattle.oth_table.specs.declared.history.Stage.TheVariants.{Idle, Reading};
ghost use Rattle.oth_table.specs.declared.history.Event.TheVariants as event;
ghost use Rattle.oth_table.specs.declared.history.Why.TheVariants as why;

use super::{Put, SharedTable, TableSeat, word_at};
use crate::history::View;
use crate::rule::{Claim, LoadVersionToPut, LoadWordUnderClaim, Publish, StoreWordUnderClaim};
use atomic_table::Seat;
use oth_search::Entry;

impl SharedTable {
    /// Stores an entry in a cell. If the cell holds the same board, the greater lower and the lesser upper bound
    /// are kept, else the given entry. `cell` is below `cells`, and the entry is under the table's scoring. `Skipped`
    /// and `Worn` change no entry. At most nine atomic steps: it loads the version, claims the cell, loads the
    /// three old words, stores the three new ones and publishes. It doesn't try twice.
    pub fn put(&self, seat: &mut TableSeat, cell: u32, entry: &Entry) -> Put
        requires seat { IsSeatOf self.now seat.old }
        requires scoring { entry.now.scoring ≡ self.now.terms.scoring }
        requires cell { cell < self.now.cells }
        ensures seat { IsSame seat.old seat.new }
        ensures place { Puts seat.old.terms seat.old.name seat.old.seen seat.new.seen cell entry.now result }
    {
        self.put_by(&mut seat.seat, cell, entry)
    }

    // A put by a seat at rest.
    fn put_by(&self, seat: &mut Seat<Entry, View>, cell: u32, entry: &Entry) -> Put
        requires table { (seat.old.table_id ≡ self.now.id) × (seat.old.me.0.terms ≡ self.now.terms) }
        requires scoring { entry.now.scoring ≡ self.now.terms.scoring }
        requires cell { cell < self.now.cells }
        requires idle { seat.old.me.0.stage ≡ Idle }
        ensures table { seat.new.table_id ≡ seat.old.table_id }
        ensures same { IsSameSeat seat.old.me.0 seat.new.me.0 }
        ensures idle { seat.new.me.0.stage ≡ Idle }
        ensures place { let v = seat.old.me.0 in Puts v.terms v.name v.seen seat.new.me.0.seen cell entry.now result }
    {
        let version = self.aim(seat, cell);
        if version % 2 == 1 {
            return Put::Skipped;
        }
        if version / 2 >= self.terms.wear {
            return Put::Worn;
        }
        if !self.claim(seat, cell, version, entry) {
            return Put::Skipped;
        }
        self.fill(seat, cell, version, entry);
        Put::Stored
    }

    // The first load of a put.
    fn aim(&self, seat: &mut Seat<Entry, View>, cell: u32) -> u64
        requires table { seat.old.table_id ≡ self.now.id }
        requires cell { cell < self.now.cells }
        requires idle { seat.old.me.0.stage ≡ Idle }
        ensures table { seat.new.table_id ≡ seat.old.table_id }
        ensures told { aimed cell seat.old.me.0 result seat.new.me.0 }
    {
        self.table
            .shared
            .load::<LoadVersionToPut>(seat, word_at(cell, 0))
    }

    // One attempt to claim the cell at this version: whether the seat has the claim now.
    fn claim(&self, seat: &mut Seat<Entry, View>, cell: u32, version: u64, entry: &Entry) -> bool
        requires table { (seat.old.table_id ≡ self.now.id) × (seat.old.me.0.terms ≡ self.now.terms) }
        requires scoring { entry.now.scoring ≡ self.now.terms.scoring }
        requires cell { cell < self.now.cells }
        requires fresh { (version % 2 ≡ 0) × (version / 2 < self.now.terms.wear) }
        requires reads { (last : ℕ) × (x : Option Bounded) × (seat.old.me.0.stage ≡ Reading cell version last x) }
        ensures table { seat.new.table_id ≡ seat.old.table_id }
        ensures told { MatchBool result
            (Claims cell version entry.now seat.old.me.0 seat.new.me.0)
            (WentAway cell why.Skipped seat.old.me.0 seat.new.me.0) }
    {
        entry.shows_true();
        self.table
            .shared
            .compare_exchange_with::<Claim>(seat, word_at(cell, 0), version, version + 1, entry)
            == version
    }

    // Stores the entry under the claim, joined with what the cell has, and publishes it.
    fn fill(&self, seat: &mut Seat<Entry, View>, cell: u32, version: u64, entry: &Entry)
        requires table { (seat.old.table_id ≡ self.now.id) × (seat.old.me.0.terms ≡ self.now.terms) }
        requires cell { cell < self.now.cells }
        requires room { version + 2 < 2 ^ 64 }
        requires claimed { IsClaimed seat.old.me.0.terms.scoring cell version entry.now seat.old.me.0.stage }
        ensures table { seat.new.table_id ≡ seat.old.table_id }
        ensures told { let v = seat.old.me.0 in
            (kept : Bounded) × Did v seat.new.me.0 (event.Publish v.name cell entry.now kept) }
    {
        let kept = self.kept(seat, cell, version, entry);
        let [own, opp, bounds] = kept.words();
        self.store(seat, cell, 0, own);
        self.store(seat, cell, 1, opp);
        self.store(seat, cell, 2, bounds);
        self.publish(seat, cell, version + 2);
    }

    // What the claimed cell will keep.
    fn kept(&self, seat: &mut Seat<Entry, View>, cell: u32, version: u64, entry: &Entry) -> Entry
        requires table { (seat.old.table_id ≡ self.now.id) × (seat.old.me.0.terms ≡ self.now.terms) }
        requires cell { cell < self.now.cells }
        requires claimed { IsClaimed seat.old.me.0.terms.scoring cell version entry.now seat.old.me.0.stage }
        ensures table { seat.new.table_id ≡ seat.old.table_id }
        ensures same { Stays seat.old.me.0 seat.new.me.0 × (seat.new.me.0.stage ≡ seat.old.me.0.stage) }
        ensures kept { WillKeep seat.old.me.0.stage result }
    {
        if version == 0 {
            return *entry;
        }
        let own = self.read_claimed(seat, cell, 0);
        let opp = self.read_claimed(seat, cell, 1);
        let bounds = self.read_claimed(seat, cell, 2);
        Entry::of_words([own, opp, bounds], self.terms.scoring).joined(entry)
    }

    // The load of the entry's word `i` under the claim.
    fn read_claimed(&self, seat: &mut Seat<Entry, View>, cell: u32, i: usize) -> u64
        requires table { seat.old.table_id ≡ self.now.id }
        requires cell { cell < self.now.cells }
        requires word { i < 3 }
        requires claimed { MayReadClaimed cell seat.old.me.0.stage }
        ensures table { seat.new.table_id ≡ seat.old.table_id }
        ensures told { found_under i seat.old.me.0 seat.old.me.0.stage result seat.new.me.0 }
    {
        self.table
            .shared
            .load::<LoadWordUnderClaim>(seat, word_at(cell, 1 + i))
    }

    // The store of the entry's word `i` under the claim.
    fn store(&self, seat: &mut Seat<Entry, View>, cell: u32, i: usize, bits: u64)
        requires table { seat.old.table_id ≡ self.now.id }
        requires cell { cell < self.now.cells }
        requires word { i < 3 }
        requires claimed { MayStore cell i bits seat.old.me.0.stage }
        ensures table { seat.new.table_id ≡ seat.old.table_id }
        ensures told { stored seat.old.me.0 seat.old.me.0.stage seat.new.me.0 }
    {
        self.table
            .shared
            .store::<StoreWordUnderClaim>(seat, word_at(cell, 1 + i), bits);
    }

    // The store of the next version, which ends the claim.
    fn publish(&self, seat: &mut Seat<Entry, View>, cell: u32, version: u64)
        requires table { seat.old.table_id ≡ self.now.id }
        requires cell { cell < self.now.cells }
        requires claimed { MayPublish seat.old.me.0.terms.scoring cell version seat.old.me.0.stage }
        ensures table { seat.new.table_id ≡ seat.old.table_id }
        ensures told { published seat.old.me.0 seat.old.me.0.stage seat.new.me.0 }
    {
        self.table
            .shared
            .store::<Publish>(seat, word_at(cell, 0), version);
    }
}
