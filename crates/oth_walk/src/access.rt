//! The cells that one worker has of the table.
ghost use Rattle.oth_walk.specs.Lending.{LendsTable};

use crate::shared::Sharing;
use oth_search::{LocalTables, WithLocal};
use oth_table::TableCells;
use std::alloc::Global;

/// What one worker keeps entries in: cells of the table where there is one, and local tables of its own.
pub type WorkerCells<'t> = WithLocal<Option<TableCells<'t>>>;

/// Cells of the caller's table, where there is one and a seat of it can be had, for the search of a root of `empties`
/// empty squares.
pub fn worker_cells<'t>(
    alloc: Global,
    empties: u8,
    sharing: Sharing,
    table: &mut Option<TableCells<'t>>,
) -> WorkerCells<'t>
    ensures lends { LendsTable table.old table.new }
{
    let memories = LocalTables::of(alloc, empties, !sharing.is_over_table());
    match table {
        Some(table) => WithLocal::of(table.another(alloc), memories),
        None => WithLocal::of(None, memories),
    }
}
