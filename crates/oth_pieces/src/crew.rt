//! The numbers of workers that may search one board.
ghost use Rattle.std.specs.Prelude.{◌↔◌, IsTrue};
ghost use Rattle.oth_pieces.specs.Hands.{IsCrew};

/// Whether `workers` workers may search one board: 1 to 16.
pub fn is_crew(workers: u8) -> bool
    ensures { IsTrue result ↔ IsCrew workers }
{
    (1..=16).contains(&workers)
}
