//! The numbers of cells that a table can have.
ghost use Rattle.std.specs.Prelude.{◌↔◌, IsTrue};
ghost use Rattle.oth_table.specs.Sizes.{IsSize};

/// Whether a table can have `cells` cells: 1, 2, 4 .. 262,144.
pub fn is_size(cells: u32) -> bool
    ensures { IsTrue result ↔ IsSize cells }
{
    for k in 0..19u32 {
        if cells == 1 << k {
            return true;
        }
    }
    false
}
