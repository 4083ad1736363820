//! The worked boards at a table. Under `Winner` A's value is -50, C's and D's are 64.
//! Under `Discs` A's value is -49.

mod refused;
mod threads;

ghost use Rattle.std.specs.Prelude.{◌≡◌, ◌<◌, IfSome};
ghost use Rattle.oth_table.specs.SharedTable.{IsSeatOf};
ghost use Rattle.oth_rules.specs.declared.scoring.Scoring.TheVariants.{Winner};

use oth_rules::{Board, Scoring};
use oth_search::{Cells, Entry, NoCells, Solved, search};
use oth_table::{Look, Put, SharedTable, TableCells, TableError, TableSeat};
use std::process::Abort;

// Each board by its own and opposing discs.
const A: [u64; 2] = [0x8, 0xffff_ffff_ffff_ff74];

const C: [u64; 2] = [0x3cff_ffff_ffff_ffff, 0x4200_0000_0000_0000];

const D: [u64; 2] = [0x3fff_ffff_ffff_ffff, 0x4000_0000_0000_0000];

const MOST_WEAR: u64 = 0x7fff_ffff_ffff_ffff;

// The entry of the board of these words with these bounds of its value.
fn entry(words: [u64; 2], lower: i8, upper: i8, scoring: Scoring) -> Option<Entry>
    ensures { IfSome result (λ e. e.scoring ≡ scoring) }
{
    let board = Board::of(words[0], words[1]).ok()?;
    let solved = Solved::by_search(&board, -65, 65, &mut NoCells, scoring);
    Some(Entry::of(&solved.widen(lower, upper)?))
}

/// Entries under `Winner`.
#[derive(Clone, Copy)]
struct Three {
    /// A with -64..-50.
    low: Entry,
    /// A with -50..64.
    high: Entry,
    /// C with 64..64.
    other: Entry,
    ghost low_by: { low.scoring ≡ Winner },
    ghost high_by: { high.scoring ≡ Winner },
    ghost other_by: { other.scoring ≡ Winner },
}

fn stored_entries() -> Option<Three> {
    let low = entry(A, -64, -50, Scoring::Winner)?;
    let high = entry(A, -50, 64, Scoring::Winner)?;
    let other = entry(C, 64, 64, Scoring::Winner)?;
    Some(Three { low, high, other })
}

fn three_entries(rt: &impl Abort) -> Three {
    stored_entries().expect(rt, "entries")
}

// A table with its first seat.
fn table_of(
    rt: &(impl AllocGlobal + Abort),
    cells: u32,
    scoring: Scoring,
) -> (SharedTable, TableSeat)
    ensures seat { IsSeatOf result.0 result.1 }
    ensures cells { result.0.cells ≡ cells }
    ensures scoring { result.0.terms.scoring ≡ scoring }
{
    SharedTable::new(rt.alloc(), cells, scoring).expect(rt, "a table")
}

// The bounds that were found of the board of these words.
fn bounds(found: &Look, words: [u64; 2]) -> Option<u64> {
    let Look::Whole(entry) = found else {
        return None;
    };
    let [own, opp, packed] = entry.words();
    if own == words[0] && opp == words[1] {
        Some(packed)
    } else {
        None
    }
}

// What the table says where the entry is put into its first cell.
fn check_put(rt: &impl Abort, table: &SharedTable, seat: &mut TableSeat, entry: &Entry, said: Put)
    requires seat { IsSeatOf table.now seat.old }
    requires scoring { entry.now.scoring ≡ table.now.terms.scoring }
    requires cell { 0 < table.now.cells }
    ensures { IsSeatOf table.now seat.new }
{
    assert!(rt; table.put(seat, 0, entry) == said);
}

// The bounds that the first cell has of the board of these words.
fn check_bounds(
    rt: &impl Abort,
    table: &SharedTable,
    seat: &mut TableSeat,
    words: [u64; 2],
    packed: Option<u64>,
)
    requires seat { IsSeatOf table.now seat.old }
    requires cell { 0 < table.now.cells }
    ensures { IsSeatOf table.now seat.new }
{
    assert!(rt; bounds(&table.look(seat, 0), words) == packed);
}

#[test]
fn keeps_the_closer_bounds(rt: HostRuntime) {
    let (table, mut seat) = table_of(&rt, 1, Scoring::Winner);
    let three = three_entries(&rt);
    assert!(rt; table.cells() == 1 && table.scoring() == Scoring::Winner);
    assert!(rt; matches!(table.look(&mut seat, 0), Look::Empty));
    check_put(&rt, &table, &mut seat, &three.low, Put::Stored);
    check_bounds(&rt, &table, &mut seat, A, Some(3584));
    check_put(&rt, &table, &mut seat, &three.high, Put::Stored);
    check_bounds(&rt, &table, &mut seat, A, Some(3598));
    check_put(&rt, &table, &mut seat, &three.other, Put::Stored);
    check_bounds(&rt, &table, &mut seat, A, None);
    check_bounds(&rt, &table, &mut seat, C, Some(32896));
}

#[test]
fn wears_out(rt: HostRuntime) {
    let Ok((table, mut seat)) = SharedTable::with_wear(rt.alloc(), 1, 2, Scoring::Winner) else {
        panic!(rt; "no table")
    };
    let three = three_entries(&rt);
    check_put(&rt, &table, &mut seat, &three.low, Put::Stored);
    check_put(&rt, &table, &mut seat, &three.high, Put::Stored);
    check_put(&rt, &table, &mut seat, &three.other, Put::Worn);
    check_bounds(&rt, &table, &mut seat, A, Some(3598));
    assert!(rt; table.published(&mut seat, 0) == 2);
}

#[test]
fn refuses_in_order(rt: HostRuntime) {
    for (cells, wear, refusal) in [
        (0, MOST_WEAR, TableError::Cells),
        (3, MOST_WEAR, TableError::Cells),
        (524_288, MOST_WEAR, TableError::Cells),
        (3, 0, TableError::Cells),
        (1, 0, TableError::Wear),
        (1, MOST_WEAR + 1, TableError::Wear),
    ] {
        let found = SharedTable::with_wear(rt.alloc(), cells, wear, Scoring::Winner).err();
        assert!(rt; found == Some(refusal), "{cells} cells with wear {wear}");
    }
}

#[test]
fn two_seats_meet(rt: HostRuntime) {
    let (table, mut first) = table_of(&rt, 1, Scoring::Winner);
    let mut second = table.seat(rt.alloc(), &mut first).expect(&rt, "a seat");
    let three = three_entries(&rt);
    check_put(&rt, &table, &mut first, &three.low, Put::Stored);
    check_put(&rt, &table, &mut second, &three.high, Put::Stored);
    table.meet(&mut first, &mut second);
    check_bounds(&rt, &table, &mut first, A, Some(3598));
    check_bounds(&rt, &table, &mut second, A, Some(3598));
}

#[test]
fn keeps_scores_by_discs(rt: HostRuntime) {
    let (table, mut seat) = table_of(&rt, 1, Scoring::Discs);
    let exact = entry(A, -49, -49, Scoring::Discs).expect(&rt, "an entry");
    check_put(&rt, &table, &mut seat, &exact, Put::Stored);
    check_bounds(&rt, &table, &mut seat, A, Some(3855));
}

#[test]
fn a_search_finds_what_it_kept(rt: HostRuntime) {
    let (table, seat) = table_of(&rt, 1, Scoring::Winner);
    let Ok(board) = Board::of(A[0], A[1]) else {
        panic!(rt; "no board")
    };
    let mut cells = TableCells::of(&table, seat);
    let found = search(&board, -65, 65, &mut cells, Scoring::Winner);
    assert!(rt; found.lower == -50 && found.upper == -50);
    let again = search(&board, -65, 65, &mut cells, Scoring::Winner);
    assert!(rt; again.lower == -50 && again.upper == -50);
    let mut seat = cells.into_seat();
    check_bounds(&rt, &table, &mut seat, A, Some(3598));
}

// The bounds that a search would find of the entry's board.
fn found_of(cells: &mut TableCells<'_>, entry: &Entry, scoring: Scoring) -> Option<u64> {
    entry.shows_true();
    let found = cells.look(&entry.board(), scoring)?;
    let [_, _, packed] = found.words();
    Some(packed)
}

// The bounds that a search would find of the entry's board are these.
fn check_found(
    rt: &impl Abort,
    cells: &mut TableCells<'_>,
    entry: &Entry,
    scoring: Scoring,
    packed: Option<u64>,
) {
    assert!(rt; found_of(cells, entry, scoring) == packed);
}

// The values of A, of C and of D, and of A by discs.
fn exact_entries() -> Option<[Entry; 4]> {
    Some([
        entry(A, -50, -50, Scoring::Winner)?,
        entry(C, 64, 64, Scoring::Winner)?,
        entry(D, 64, 64, Scoring::Winner)?,
        entry(A, -49, -49, Scoring::Discs)?,
    ])
}

#[test]
fn gives_each_board_two_cells(rt: HostRuntime) {
    let (table, seat) = table_of(&rt, 2, Scoring::Winner);
    let [a, c, d, by_discs] = exact_entries().expect(&rt, "entries");
    let mut cells = TableCells::of(&table, seat);
    cells.put(&a);
    cells.put(&by_discs);
    cells.put(&c);
    check_found(&rt, &mut cells, &a, Scoring::Winner, Some(3598));
    check_found(&rt, &mut cells, &c, Scoring::Winner, Some(32896));
    check_found(&rt, &mut cells, &a, Scoring::Discs, None);
    cells.put(&d);
    check_found(&rt, &mut cells, &d, Scoring::Winner, Some(32896));
    check_found(&rt, &mut cells, &a, Scoring::Winner, Some(3598));
    check_found(&rt, &mut cells, &c, Scoring::Winner, None);
}
