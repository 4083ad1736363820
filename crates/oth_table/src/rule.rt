//! The rule of the table, and what each kind of step tells.
use crate::history::{Limits, View};
use atomic_table::{Join, Play, Split, TableRule};
use oth_search::Entry;

/// The words of a table are those of one legal history, which every seat's view begins.
pub struct OneHistory;

impl TableRule<Entry, View, Limits> for OneHistory {
    ghost use Rattle.oth_table.specs.Cells.{IsKept, newcomer};

    ghost holds = { IsKept };

    ghost first = { λ about. newcomer about.terms };
}

/// The first load of a look.
pub(crate) struct LoadVersionToLook;

impl Play<Entry, View> for LoadVersionToLook {
    ghost use Rattle.oth_table.specs.Steps.{glance};

    ghost then = { glance };
}

/// The load of an entry's word.
pub(crate) struct LoadWord;

impl Play<Entry, View> for LoadWord {
    ghost use Rattle.oth_table.specs.Steps.{read_word};

    ghost then = { read_word };
}

/// The second load of the version.
pub(crate) struct ReloadVersion;

impl Play<Entry, View> for ReloadVersion {
    ghost use Rattle.oth_table.specs.Steps.{check};

    ghost then = { check };
}

/// The first load of a put.
pub(crate) struct LoadVersionToPut;

impl Play<Entry, View> for LoadVersionToPut {
    ghost use Rattle.oth_table.specs.Steps.{aim};

    ghost then = { aim };
}

/// The compare-and-exchange that claims a cell.
pub(crate) struct Claim;

impl Play<Entry, View> for Claim {
    ghost use Rattle.oth_table.specs.Steps.{claim};

    ghost then = { claim };
}

/// The load of an entry's word under the claim.
pub(crate) struct LoadWordUnderClaim;

impl Play<Entry, View> for LoadWordUnderClaim {
    ghost use Rattle.oth_table.specs.Steps.{read_under};

    ghost then = { read_under };
}

/// The store of an entry's word under the claim.
pub(crate) struct StoreWordUnderClaim;

impl Play<Entry, View> for StoreWordUnderClaim {
    ghost use Rattle.oth_table.specs.Steps.{store_word};

    ghost then = { store_word };
}

/// The store of the version that publishes a cell.
pub(crate) struct Publish;

impl Play<Entry, View> for Publish {
    ghost use Rattle.oth_table.specs.Steps.{publish};

    ghost then = { publish };
}

/// The load before a seat is made.
pub(crate) struct LoadVersionToMake;

impl Play<Entry, View> for LoadVersionToMake {
    ghost use Rattle.oth_table.specs.Steps.{make};

    ghost then = { make };
}

/// A load that sees all events so far.
pub(crate) struct SeeAll;

impl Play<Entry, View> for SeeAll {
    ghost use Rattle.oth_table.specs.Steps.{catch_up};

    ghost then = { catch_up };
}

/// A load that sees just what the seat was told of.
pub(crate) struct SeeTold;

impl Play<Entry, View> for SeeTold {
    ghost use Rattle.oth_table.specs.Steps.{follow};

    ghost then = { follow };
}

/// A load that sees how often a cell was published.
pub(crate) struct CountPublishes;

impl Play<Entry, View> for CountPublishes {
    ghost use Rattle.oth_table.specs.Steps.{count};

    ghost then = { count };
}

/// Gives the seat that is about to be made its own view.
pub(crate) struct SplitSeat;

impl Split<View> for SplitSeat {
    ghost use Rattle.oth_table.specs.Cells.{resting, new_seat};

    ghost left = { resting };

    ghost right = { λ v. new_seat v v.stage };
}

/// Writes down what a seat has seen.
pub(crate) struct SendSeen;

impl Split<View> for SendSeen {
    ghost use Rattle.oth_table.specs.Cells.{note_of};

    ghost left = { λ v. v };

    ghost right = { λ v. note_of v.seen };
}

/// Reads what another seat has seen.
pub(crate) struct TakeSeen;

impl Join<View> for TakeSeen {
    ghost use Rattle.std.specs.Prelude.{[]};
    ghost use Rattle.oth_table.specs.Cells.{hearing, note_of};

    ghost both = { hearing };

    ghost spent = { note_of [] };
}
