//! Positions that a search takes.

ghost use Rattle.std.specs.Prelude.{◌≤◌};
ghost use Rattle.oth_rules.specs.Position.{empty_count};

use oth_text::Position;

/// A position of at most 30 empty squares.
#[derive(Drop)]
pub struct Solvable {
    pub position: Position,
    pub ghost few: { empty_count position.board ≤ 30 },
}
