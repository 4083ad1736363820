//! What follows from the contracts of the table's calls.
ghost use Rattle.std.specs.Prelude.{[], List, ◌≤◌, ℕ};
ghost use Rattle.oth_history.specs.History.{Name as SeatName, Begins, HasNone, IsSeat};
ghost use Rattle.oth_table.specs.Alone.{IsAlone, LooksAlone, PutsAlone, CountsAlone, SearchesAlone, StoresAlone};
ghost use Rattle.oth_table.specs.History.{IsLegal, author, makes, publishes};
ghost use Rattle.oth_table.specs.declared.history.Event.{Event as AnyEvent};
ghost use Rattle.oth_table.specs.declared.history.Terms.{Terms as AnyTerms};

/// A caller that never asked for a further seat meets no `Busy` and no `Skipped`: its history is its own, from the
/// empty one on, with which a new table begins. So it is with a search over [`crate::TableCells`] by that seat.
pub fn alone()
    ensures begins { IsAlone [] }
    ensures looks { LooksAlone }
    ensures puts { PutsAlone }
    ensures counts { CountsAlone }
    ensures searches { SearchesAlone }
    ensures stores { StoresAlone }
{}

/// No cell was published more often than the table's wear says: what [`crate::SharedTable::published`] tells is at most
/// the wear.
pub fn published_within_the_wear()
    ensures { (terms : AnyTerms) (c : ℕ) (h : List AnyEvent) → IsLegal terms h → publishes c h ≤ terms.wear }
{}

/// What a legal history of a table begins with is legal.
pub fn a_past_is_legal()
    ensures { (terms : AnyTerms) (earlier later : List AnyEvent) → Begins earlier later → IsLegal terms later
        → IsLegal terms earlier }
{}

/// In a legal history of a table whoever is no seat has no event.
pub fn a_stranger_did_nothing()
    ensures { (terms : AnyTerms) (h : List AnyEvent) (s : SeatName) → IsLegal terms h → ¬ IsSeat makes h s
        → HasNone author s h }
{}
