//! Threads that share a cell at once.
ghost use Rattle.std.specs.Prelude.{◌≡◌, ◌+◌, ◌<◌};
ghost use Rattle.std.specs.Thread.{IsSync};
ghost use Rattle.oth_table.specs.SharedTable.{IsSeatOf};
ghost use Rattle.oth_rules.specs.declared.scoring.Scoring.TheVariants.{Winner};

use super::{A, C, Three, bounds, check_bounds, check_put, table_of, three_entries};
use oth_rules::Scoring;
use oth_table::{Look, Put, SharedTable, TableSeat};
use std::alloc::Global;
use std::process::Abort;
use std::thread::{Threads, join};

// Whether one of the stored boards was found, with bounds that enclose its value, or no entry at all.
fn is_right(found: &Look) -> bool {
    match found {
        Look::Empty => false,
        Look::Busy => true,
        Look::Whole(_) => {
            let first = bounds(found, A);
            first == Some(3584)
                || first == Some(32782)
                || first == Some(3598)
                || bounds(found, C) == Some(32896)
        }
    }
}

// Puts A from above, A from below and C into the cell, and looks there.
fn makes_a_round(table: &SharedTable, seat: &mut TableSeat, three: &Three) -> bool
    requires seat { IsSeatOf table.now seat.old }
    requires cell { 0 < table.now.cells }
    requires scoring { table.now.terms.scoring ≡ Winner }
    ensures { IsSeatOf table.now seat.new }
{
    table.put(seat, 0, &three.low);
    table.put(seat, 0, &three.high);
    table.put(seat, 0, &three.other);
    is_right(&table.look(seat, 0))
}

// Whether all these rounds found what is right. The seat is dropped after them.
fn makes_rounds(table: &SharedTable, mut seat: TableSeat, three: &Three, rounds: u32) -> bool
    requires seat { IsSeatOf table.now seat }
    requires cell { 0 < table.now.cells }
    requires scoring { table.now.terms.scoring ≡ Winner }
{
    let mut all_right = true;
    for _ in 0..rounds {
        all_right = makes_a_round(table, &mut seat, three) && all_right;
    }
    all_right
}

// The numbers of some threads.
#[derive(Clone, Copy)]
struct Numbers {
    first: u32,
    count: u32,
}

// Sixteen threads.
const ALL: Numbers = Numbers {
    first: 0,
    count: 16,
};

// Rounds by the threads of these numbers at once, each with a seat of its own. Every fourth thread drops its seat in
// the middle.
fn crowd<R: Threads + Sync>(
    rt: &R,
    alloc: Global,
    table: &SharedTable,
    seat: TableSeat,
    three: &Three,
    numbers: Numbers,
) -> bool
    requires seat { IsSeatOf table.now seat }
    requires cell { 0 < table.now.cells }
    requires scoring { table.now.terms.scoring ≡ Winner }
    requires few { numbers.first + numbers.count < 100 }
{
    let mut seat = seat;
    let Numbers { first, count } = numbers;
    let rounds = if first % 4 == 3 { 500 } else { 1000 };
    if count <= 1 {
        return makes_rounds(table, seat, three, rounds);
    }
    let Ok(other) = table.seat(alloc, &mut seat) else {
        return makes_rounds(table, seat, three, rounds);
    };
    let half = count / 2;
    let left = Numbers { first, count: half };
    let right = Numbers {
        first: first + half,
        count: count - half,
    };
    let (first_half, second_half) = join(
        rt,
        || -> bool
            requires sync { IsSync R.row }
            requires seat { IsSeatOf table.now seat }
            requires cell { 0 < table.now.cells }
            requires scoring { table.now.terms.scoring ≡ Winner }
            requires few { left.first + left.count < 100 }
        { crowd(rt, alloc, table, seat, three, left) },
        || -> bool
            requires sync { IsSync R.row }
            requires seat { IsSeatOf table.now other }
            requires cell { 0 < table.now.cells }
            requires scoring { table.now.terms.scoring ≡ Winner }
            requires few { right.first + right.count < 100 }
        { crowd(rt, alloc, table, other, three, right) },
    );
    first_half && second_half
}

#[test]
fn threads_share_a_cell(rt: HostRuntime) {
    let (table, mut seat) = table_of(&rt, 1, Scoring::Winner);
    let three = three_entries(&rt);
    let other = table.seat(rt.alloc(), &mut seat).expect(&rt, "a seat");
    assert!(rt; crowd(&rt, rt.alloc(), &table, other, &three, ALL));
    check_put(&rt, &table, &mut seat, &three.other, Put::Stored);
    check_bounds(&rt, &table, &mut seat, C, Some(32896));
}

// The cell is worn out: it takes no further entry and is still looked at.
fn check_worn(rt: &impl Abort, table: &SharedTable, seat: &mut TableSeat, three: &Three)
    requires seat { IsSeatOf table.now seat.old }
    requires cell { 0 < table.now.cells }
    requires scoring { table.now.terms.scoring ≡ Winner }
{
    check_put(rt, table, seat, &three.low, Put::Worn);
    check_put(rt, table, seat, &three.other, Put::Worn);
    assert!(rt; matches!(table.look(seat, 0), Look::Whole(_)));
}

fn check_wear<R: Threads + Sync + AllocGlobal + Abort>(rt: &R, three: &Three, wear: u64) {
    let made = SharedTable::with_wear(rt.alloc(), 1, wear, Scoring::Winner);
    let (table, mut seat) = made.expect(rt, "a table");
    let other = table.seat(rt.alloc(), &mut seat).expect(rt, "a seat");
    assert!(rt; crowd(rt, rt.alloc(), &table, other, three, ALL));
    let published = table.published(&mut seat, 0);
    assert!(rt; published <= wear);
    if published == wear {
        check_worn(rt, &table, &mut seat, three);
    }
}

#[test]
fn threads_wear_out_a_cell(rt: HostRuntime) {
    let three = three_entries(&rt);
    for wear in [1, 2, 3] {
        check_wear(&rt, &three, wear);
    }
}
