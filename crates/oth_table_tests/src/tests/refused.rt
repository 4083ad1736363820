//! Out of memory. Each of these tests holds whichever one of its requests for memory is refused; `hostile/refusals.py`
//! runs each of them once for each request.

ghost use Rattle.std.specs.Prelude.{◌≡◌};
ghost use Rattle.oth_table.specs.SharedTable.{IsSeatOf};
ghost use Rattle.oth_rules.specs.declared.scoring.Scoring.TheVariants.{Winner};

use super::{A, Three, bounds, check_bounds, check_put, three_entries};
use oth_rules::Scoring;
use oth_table::{Look, Put, SharedTable, TableError, TableSeat};
use std::alloc::Global;
use std::process::Abort;

// Whether a further seat finds what this one stored in cell 5, or memory is wanting for it.
fn is_seat_refused_or_whole(alloc: Global, table: &SharedTable, seat: &mut TableSeat) -> bool
    requires seat { IsSeatOf table.now seat.old }
    requires cells { table.now.cells ≡ 64 }
    ensures { IsSeatOf table.now seat.new }
{
    match table.seat(alloc, seat) {
        Err(refusal) => refusal == TableError::Memory,
        Ok(mut other) => bounds(&table.look(&mut other, 5), A) == Some(3584),
    }
}

// The seat finds what it stored in cell 5, stores and looks as before.
fn check_seat(rt: &impl Abort, table: &SharedTable, seat: &mut TableSeat, three: &Three)
    requires seat { IsSeatOf table.now seat.old }
    requires cells { table.now.cells ≡ 64 }
    requires scoring { table.now.terms.scoring ≡ Winner }
{
    assert!(rt; bounds(&table.look(seat, 5), A) == Some(3584));
    assert!(rt; table.put(seat, 5, &three.high) == Put::Stored);
    assert!(rt; bounds(&table.look(seat, 5), A) == Some(3598));
    assert!(rt; matches!(table.look(seat, 6), Look::Empty));
}

// Where a further seat is refused, the seat that was there goes on as before.
#[test]
fn a_table_and_a_seat_are_refused_or_whole(rt: HostRuntime) {
    let three = three_entries(&rt);
    match SharedTable::new(rt.alloc(), 64, Scoring::Winner) {
        Err(refusal) => assert!(rt; refusal == TableError::Memory),
        Ok((table, mut seat)) => {
            assert!(rt; table.put(&mut seat, 5, &three.low) == Put::Stored);
            assert!(rt; is_seat_refused_or_whole(rt.alloc(), &table, &mut seat));
            check_seat(&rt, &table, &mut seat, &three);
        }
    }
}

// A table with a wear too.
#[test]
fn a_table_with_a_wear_is_refused_or_whole(rt: HostRuntime) {
    let three = three_entries(&rt);
    match SharedTable::with_wear(rt.alloc(), 1, 1, Scoring::Winner) {
        Err(refusal) => assert!(rt; refusal == TableError::Memory),
        Ok((table, mut seat)) => {
            check_put(&rt, &table, &mut seat, &three.low, Put::Stored);
            check_put(&rt, &table, &mut seat, &three.high, Put::Worn);
            check_bounds(&rt, &table, &mut seat, A, Some(3584));
        }
    }
}
