//! What holds of each legal history of a floor.
ghost use Rattle.std.specs.Prelude.{List, ◌≤ℤ◌};
ghost use Rattle.oth_history.specs.History.{Name as SeatName, Begins, HasNone, IsSeat};
ghost use Rattle.oth_pieces.specs.History.{IsLegal, author, floor_after, makes, root_value};
ghost use Rattle.oth_pieces.specs.declared.floor.event.Event.{Event as AnyEvent};
ghost use Rattle.oth_pieces.specs.declared.floor.root.Root.{Root as AnyRoot};

/// What a legal history of a floor begins with is legal.
pub fn a_past_is_legal()
    ensures { (root : AnyRoot) (earlier later : List AnyEvent) → Begins earlier later → IsLegal root later
        → IsLegal root earlier }
{}

/// In a legal history of a floor whoever is no seat has no event.
pub fn a_stranger_did_nothing()
    ensures { (root : AnyRoot) (h : List AnyEvent) (s : SeatName) → IsLegal root h → ¬ IsSeat makes h s
        → HasNone author s h }
{}

/// The floor after a legal history is never above the root's value.
pub fn the_floor_is_true()
    ensures { (root : AnyRoot) (h : List AnyEvent) → IsLegal root h → floor_after h ≤ℤ root_value root }
{}
