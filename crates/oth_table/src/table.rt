//! The table, which threads share, and the seats through which they use it. Each cell is a seqlock: a version, odd
//! while a writer is at it, and the words of an entry (Boehm, Can seqlocks get along with programming language memory
//! models?, 2012).
//!
//! Version 0 was never written, an odd version is being written, and an even version above 0 is published; half of
//! it says how often. Versions only grow, and at most one seat writes in a cell at a time. `looking` has what a seat
//! reads, `putting` what it writes.
//!
//! Six words stand in front of the cells, so that a board's two cells, its bucket, lie in one cache line of 64
//! bytes where the memory of the table begins 16 bytes behind one, as glibc's large blocks do.
ghost use Rattle.std.specs.Prelude.{◌≡◌, ◌+◌, ◌-◌, ◌^◌, ◌<◌, [], IfOk, IfErr};
ghost use Rattle.oth_history.specs.History.{Since};
ghost use Rattle.oth_table.specs.Cells.{first_word};
ghost use Rattle.oth_table.specs.History.{author, IsLegal, publishes};
ghost use Rattle.oth_table.specs.Sizes.{IsSize};
ghost use Rattle.oth_table.specs.SharedTable.{IsWear, Refuses, Opens, IsSeatOf, IsSame, Makes, Meet};
ghost use Rattle.oth_table.specs.declared.history.Stage.TheVariants.{Idle};
ghost use Rattle.oth_table.specs.declared.table.TableError.TheVariants as refusal;

mod looking;
mod putting;

use crate::history::{Limits, Terms, View};
use crate::rule::{
    CountPublishes, LoadVersionToMake, OneHistory, SeeAll, SeeTold, SendSeen, SplitSeat, TakeSeen,
};
use crate::size::is_size;
use atomic_table::{Seat, Table};
use oth_rules::Scoring;
use oth_search::Entry;
use std::alloc::{AllocError, Global};
use std::marker::Model;
use thiserror::Error;

// The words of a cell. They lie side by side, so that a cell is 32 bytes.
const WORDS: usize = 4;

// The words in front of the cells, where nothing is ever stored. glibc begins a large block 16 bytes behind a page:
// behind these 48 bytes the two cells of a board are then one line of 64 bytes.
const WORDS_IN_FRONT: usize = 6;

// With it the last version of a cell is 2^64 - 2.
const MOST_WEAR: u64 = 0x7fff_ffff_ffff_ffff;

/// A table of 1, 2, 4 .. 262,144 cells, each with room for one entry. Threads share it by reference, and no call
/// locks or waits. A cell is four words: its version, and the three words of its entry.
/// Contracts see its identity, its number of cells and its terms.
#[derive(Drop)]
pub struct SharedTable {
    table: Table<Entry, View, Limits, OneHistory, Global>,
    cells: u32,
    terms: Terms,
}

impl Model for SharedTable {
    ghost use Rattle.std.specs.Prelude.{◌≡◌, ◌^◌, ◌<◌};
    ghost use Rattle.oth_table.specs.Cells.{first_word};
    ghost use Rattle.oth_table.specs.Sizes.{IsSize};
    ghost use Rattle.oth_table.specs.Parts.{Shape};

    ghost Value = { Shape };

    ghost view = { λ t. record { id = t.table.shared.table_id; cells = t.cells; terms = t.terms } };

    ghost invariant = { λ t.
        (t.table.shared.key ≡ record { cells = t.cells; terms = t.terms })
        × (t.table.shared.table_id.words ≡ first_word t.cells)
        × (0 < t.cells) × IsSize t.cells × (t.terms.wear < 2 ^ 63) };
}

/// A seat at one table, through which one thread at a time uses it. Between calls it holds no claim, so it may be
/// dropped there. Contracts see its table, its name and the history that it has seen.
#[derive(Drop)]
pub struct TableSeat {
    seat: Seat<Entry, View>,
    // A place of its own in memory, by which a further seat can be refused.
    mark: Box<u64>,
}

impl Model for TableSeat {
    ghost use Rattle.std.specs.Prelude.{◌≡◌};
    ghost use Rattle.oth_table.specs.Parts.{Sitting};
    ghost use Rattle.oth_table.specs.declared.history.Stage.TheVariants.{Idle};

    ghost Value = { Sitting };

    ghost view = { λ s. record {
      table = s.seat.table_id;
      terms = s.seat.me.0.terms;
      name = s.seat.me.0.name;
      seen = s.seat.me.0.seen;
    } };

    ghost invariant = { λ s. s.seat.me.0.stage ≡ Idle };
}

/// What a look found in a cell.
#[derive(Clone, Copy, Debug)]
pub enum Look {
    /// Nothing was ever stored there.
    Empty,
    /// The entry that the cell holds, whole. Its bounds enclose its board's value.
    Whole(Entry),
    /// Another seat was storing an entry there.
    Busy,
}

/// What a put did.
#[derive(Clone, Copy, PartialEq, Eq, Debug)]
pub enum Put {
    /// The entry was stored, joined with what the cell had of the same board.
    Stored,
    /// Another seat was storing an entry there, and this one wasn't stored.
    Skipped,
    /// The cell was published as often as it may be, and takes no further entry.
    Worn,
}

/// Why a table or a seat is refused. The number of cells is tested first, then the wear, then memory is asked
/// for.
#[derive(Clone, Copy, PartialEq, Eq, Debug, Error)]
pub enum TableError {
    /// Refusal 1: the number of cells isn't one of 1, 2, 4 .. 262,144.
    #[error("the number of cells is not a power of two up to 262144")]
    Cells,
    /// Refusal 2: there was no memory.
    #[error("there is no memory for the table or the seat")]
    Memory,
    /// Refusal 3: the wear isn't in 1 to 2^63 - 1.
    #[error("the wear is not from 1 to 2^63 - 1")]
    Wear,
}

// The number of a cell's word: its version first, then the words of its entry.
fn word_at(cell: u32, word: usize) -> usize
    requires { word < 4 }
    ensures { result ≡ first_word cell + word }
{
    WORDS_IN_FRONT + WORDS * cell as usize + word
}

impl SharedTable {
    /// Makes an empty table of `cells` cells for entries under this scoring, and its first seat, which has seen
    /// nothing. `cells` is 1, 2, 4 .. 262,144; else refusal 1. Refusal 2 comes when out of memory. A cell may be
    /// published 2^63 - 1 times.
    pub fn new(
        alloc: Global,
        cells: u32,
        scoring: Scoring,
    ) -> Result<(SharedTable, TableSeat), TableError>
        ensures ok { IfOk result (λ t. Opens cells (2 ^ 63 - 1) scoring t.0 t.1) }
        ensures err { IfErr result (Refuses cells (2 ^ 63 - 1)) }
    {
        SharedTable::with_wear(alloc, cells, MOST_WEAR, scoring)
    }

    /// As [`SharedTable::new`], but a cell that was published `wear` times takes no further entry. It is still looked
    /// at. `wear` is 1 to 2^63 - 1; else refusal 3, which is tested after refusal 1 and before refusal 2.
    pub fn with_wear(
        alloc: Global,
        cells: u32,
        wear: u64,
        scoring: Scoring,
    ) -> Result<(SharedTable, TableSeat), TableError>
        ensures ok { IfOk result (λ t. Opens cells wear scoring t.0 t.1) }
        ensures err { IfErr result (Refuses cells wear) }
    {
        if !is_size(cells) {
            return Err(TableError::Cells);
        }
        if wear == 0 || wear > MOST_WEAR {
            return Err(TableError::Wear);
        }
        match SharedTable::with_terms(alloc, cells, Terms { wear, scoring }) {
            Ok(made) => Ok(made),
            Err(_) => Err(TableError::Memory),
        }
    }

    // The table in memory, all words zero, and its first seat.
    fn with_terms(
        alloc: Global,
        cells: u32,
        terms: Terms,
    ) -> Result<(SharedTable, TableSeat), AllocError>
        requires some { 0 < cells }
        requires cells { IsSize cells }
        requires wear { IsWear terms.wear }
        ensures table { IfOk result (λ t. (t.0.cells ≡ cells) × (t.0.terms ≡ terms)) }
        ensures seat { IfOk result (λ t. IsSeatOf t.0 t.1 × (t.1.name ≡ 0) × (t.1.seen ≡ [])) }
    {
        let mark = Box::new(alloc, 0)?;
        // As many words as stand before a cell that would come next.
        let words = vec![in alloc; 0u64; word_at(cells, 0)]?;
        let limits = Limits {
            cells: u64::from(cells),
            terms,
        };
        let (table, seat) = Table::of_words(alloc, words.as_slice(), &limits)?;
        Ok((
            SharedTable {
                table,
                cells,
                terms,
            },
            TableSeat { seat, mark },
        ))
    }

    /// The scoring of all its entries.
    pub fn scoring(&self) -> Scoring
        ensures { result ≡ self.now.terms.scoring }
    {
        self.terms.scoring
    }

    /// The number of its cells: 1, 2, 4 .. 262,144.
    pub fn cells(&self) -> u32
        ensures count { result ≡ self.now.cells }
        ensures lawful { IsSize result }
        ensures some { 0 < result }
    {
        self.cells
    }

    /// A further seat at this table. Its making stands in the history that both have then seen.
    /// The only refusal is 2, out of memory, and the given seat is then unchanged. It takes two atomic
    /// steps.
    pub fn seat(&self, alloc: Global, seat: &mut TableSeat) -> Result<TableSeat, TableError>
        requires { IsSeatOf self.now seat.old }
        ensures same { IsSame seat.old seat.new }
        ensures made { IfOk result (Makes seat.old seat.new) }
        ensures err { IfErr result (λ e. (e ≡ refusal.Memory) × (seat.new ≡ seat.old)) }
    {
        let Ok(mark) = Box::new(alloc, 0) else {
            return Err(TableError::Memory);
        };
        let seat = self.make(seat);
        Ok(TableSeat { seat, mark })
    }

    // The seat that this one makes, whose making is the last event that both have seen.
    fn make(&self, seat: &mut TableSeat) -> Seat<Entry, View>
        requires { IsSeatOf self.now seat.old }
        ensures same { IsSame seat.old seat.new }
        ensures made { (result.me.0.stage ≡ Idle)
            × Makes seat.old seat.new (record {
              table = result.table_id;
              terms = result.me.0.terms;
              name = result.me.0.name;
              seen = result.me.0.seen;
            }) }
    {
        let seat = &mut seat.seat;
        let shared = &self.table.shared;
        shared.load::<LoadVersionToMake>(seat, word_at(0, 0));
        shared.split_seat::<SplitSeat>(seat)
    }

    /// Afterwards both seats have seen the same legal history, which begins with what each had seen and adds no
    /// event of theirs. It takes six atomic steps.
    pub fn meet(&self, first: &mut TableSeat, second: &mut TableSeat)
        requires first { IsSeatOf self.now first.old }
        requires second { IsSeatOf self.now second.old }
        ensures first { IsSame first.old first.new }
        ensures second { IsSame second.old second.new }
        ensures meet { Meet first.old first.new second.old second.new }
    {
        let first = &mut first.seat;
        let second = &mut second.seat;
        let shared = &self.table.shared;
        shared.join_seat::<TakeSeen>(first, shared.split_seat::<SendSeen>(second));
        shared.load::<SeeAll>(first, word_at(0, 0));
        shared.join_seat::<TakeSeen>(second, shared.split_seat::<SendSeen>(first));
        shared.load::<SeeTold>(second, word_at(0, 0));
    }

    /// How often the cell was published, in the legal history that the seat has then seen. `cell` is below
    /// `cells`. It is one atomic step.
    pub fn published(&self, seat: &mut TableSeat, cell: u32) -> u64
        requires seat { IsSeatOf self.now seat.old }
        requires cell { cell < self.now.cells }
        ensures seat { IsSame seat.old seat.new }
        ensures history { IsLegal seat.old.terms seat.new.seen
            × Since author seat.old.name seat.old.seen seat.new.seen }
        ensures count { publishes cell seat.new.seen ≡ result }
    {
        self.table
            .shared
            .load::<CountPublishes>(&mut seat.seat, word_at(cell, 0))
            / 2
    }
}
