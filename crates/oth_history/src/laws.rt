//! Laws of histories, each the contract of a function that does nothing: the layers above may rest on them, and the
//! check proves them. They hold of events of any type, whoever is their author and whatever seat they make.
ghost use Rattle.std.specs.Prelude.{◌≡◌, ◌↔◌, Bool, IsTrue, List, Option};
ghost use Rattle.oth_history.specs.History.{Name as SeatName, Begins, HasNone, Since, events_of, IsSeat, IsLegalBy};

/// Each history begins with itself, beginning with goes on, and two histories that begin with each other are the same.
pub fn beginning_is_an_order<E>()
    ensures itself { (h : List E) → Begins h h }
    ensures on { (a b c : List E) → Begins a b → Begins b c → Begins a c }
    ensures same { (a b : List E) → Begins a b → Begins b a → a ≡ b }
{}

/// A history goes on with no further event of a seat exactly if it begins with the earlier one and has the same events
/// of that seat.
pub fn no_further_event_means_the_same_events<E>()
    ensures { (author : E → SeatName) (s : SeatName) (earlier later : List E) → Since author s earlier later
        ↔ (Begins earlier later × (events_of author s later ≡ events_of author s earlier)) }
{}

/// What a legal history begins with is legal, whatever test each event has to pass.
pub fn a_past_is_legal<E>()
    ensures { (author : E → SeatName) (makes : E → Option SeatName) (fits : List E → E → Bool) (earlier later : List E)
        → Begins earlier later → IsLegalBy author makes (λ h e. IsTrue (fits h e)) later
        → IsLegalBy author makes (λ h e. IsTrue (fits h e)) earlier }
{}

/// In a legal history whoever is no seat has no event.
pub fn a_stranger_did_nothing<E>()
    ensures { (author : E → SeatName) (makes : E → Option SeatName) (fits : List E → E → Bool) (h : List E)
        (s : SeatName) → IsLegalBy author makes (λ h e. IsTrue (fits h e)) h → ¬ IsSeat makes h s → HasNone author s h }
{}
