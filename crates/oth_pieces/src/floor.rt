//! The shared lower bound of a search: the greatest score that is known of a root, which threads raise together. Its
//! calls stand in one sequential history (Herlihy and Wing, Linearizability, 1990).
//!
//! Its words, of an `atomic_table`: the root's own and opposing discs, the floor plus 64, the scoring. There are
//! two kinds of step, load and fetch_max. The rule: there is one legal history; the third word is the floor after
//! it plus 64; what each seat has seen begins it and has all events of that seat.
ghost use Rattle.std.specs.Prelude.{◌≡◌, ◌↔◌, OnOk, IfOk, OnErr, IsOk, [], ◌≤◌, pos, negsuc, ◌-ℤ◌, ◌≤ℤ◌};
ghost use Rattle.oth_history.specs.History.{Begins};
ghost use Rattle.oth_pieces.specs.History.{floor_after, root_value};
ghost use Rattle.oth_pieces.specs.Floor.{longer, code_of};
ghost use Rattle.oth_pieces.specs.declared.floor.event.Event.TheVariants.{Raise};
ghost use Rattle.oth_pieces.specs.Watch.{IsSeatOf, Goes, Adds, IsMadeBy, first_seat};

mod event;
mod root;
mod rule;
mod view;

use atomic_table::{Seat, Table};
pub use event::Event;
use oth_rules::{Board, Scoring};
use oth_search::Solved;
pub use root::Root;
use rule::{Children, Learning, Looking, Messengers, Naming, Raising, Tellings, TheFloor};
use std::alloc::{AllocError, Global};
use std::marker::Model;
use thiserror::Error;
pub use view::View;

// The place of the height among the floor's words: the floor, plus 64.
const HEIGHT: usize = 2;

/// A floor of a root, which is a board and a scoring: the greatest lower bound of its value that was raised. Threads
/// share it without a lock, each through a seat of its own.
#[derive(Drop)]
pub struct Floor {
    table: Table<u8, View, Root, TheFloor, Global>,
    root: Root,
}

impl Model for Floor {
    ghost use Rattle.std.specs.Prelude.{◌≡◌};
    ghost use Rattle.oth_pieces.specs.Watch.{Place};

    ghost Value = { Place };

    ghost view = { λ f. record { id = f.table.shared.table_id; root = f.root } };

    ghost invariant = { λ f. (f.table.shared.table_id.words ≡ 4) × (f.table.shared.key ≡ f.root) };
}

/// What one thread knows of a floor, and its right to raise it.
#[derive(Drop)]
pub struct FloorSeat {
    seat: Seat<u8, View>,
    // Its own place in memory.
    mark: Box<u64>,
}

impl Model for FloorSeat {
    ghost use Rattle.std.specs.Prelude.{◌≡◌, true, []};
    ghost use Rattle.oth_pieces.specs.Watch.{Watcher};

    ghost Value = { Watcher };

    ghost view = { λ s. let v = s.seat.me.0 in
        record { floor = s.seat.table_id; root = v.root; name = v.name; seen = v.seen } };

    ghost invariant = { λ s. (s.seat.me.0.live ≡ true) × (s.seat.me.1 ≡ []) };
}

// Carries a history from one seat to another.
struct Messenger {
    seat: Seat<u8, View>,
    ghost empty: { seat.me.1 ≡ [] },
}

// The word that tells a scoring.
fn code_of(scoring: Scoring) -> u64
    ensures { result ≡ code_of scoring }
{
    match scoring {
        Scoring::Winner => 0,
        Scoring::Discs => 1,
    }
}

// The word of a floor at this number.
fn height_of(number: i8) -> u64
    requires low { negsuc 63 ≤ℤ number }
    requires high { number ≤ℤ pos 64 }
    ensures number { pos result -ℤ pos 64 ≡ number }
    ensures bound { result ≤ 128 }
{
    (number as i16 + 64) as u64
}

/// There was no memory.
#[derive(Debug, Drop, Error)]
#[error("there is no memory for the floor or the seat")]
pub struct FloorError;

/// The solved board isn't the floor's root, or it was solved under the other scoring.
#[derive(Debug, Drop, Error)]
#[error("the solved board is not the floor's root, or it was solved by the other scoring")]
pub struct Stranger;

impl Floor {
    /// A floor of the board under this scoring, not yet raised, and its first seat. Refused where there is no memory.
    pub fn new(
        alloc: Global,
        board: &Board,
        scoring: Scoring,
    ) -> Result<(Floor, FloorSeat), FloorError>
        ensures root { IfOk result (λ made. made.0.root ≡ record { board = board.now; scoring = scoring }) }
        ensures seat { IfOk result (λ made. made.1 ≡ first_seat made.0) }
    {
        let Ok(mark) = Box::new(alloc, 0) else {
            return Err(FloorError);
        };
        let root = Root {
            board: *board,
            scoring,
        };
        let words = [board.own(), board.opp(), 0, code_of(scoring)];
        let Ok((table, seat)) = Table::of_words(alloc, &words, &root) else {
            return Err(FloorError);
        };
        Ok((Floor { table, root }, FloorSeat { seat, mark }))
    }

    /// The board that it is a floor of.
    pub fn board(&self) -> Board
        ensures { result ≡ self.now.root.board }
    {
        self.root.board
    }

    /// The scoring by which it is a floor.
    pub fn scoring(&self) -> Scoring
        ensures { result ≡ self.now.root.scoring }
    {
        self.root.scoring
    }

    /// A further seat, for another thread. Refused where there is no memory.
    pub fn seat(&self, alloc: Global, seat: &mut FloorSeat) -> Result<FloorSeat, FloorError>
        requires { IsSeatOf self.now seat.old }
        ensures made { IfOk result (λ made. IsMadeBy seat.old seat.new made) }
        ensures err { OnErr result (seat.new ≡ seat.old) }
    {
        let Ok(mark) = Box::new(alloc, 0) else {
            return Err(FloorError);
        };
        self.table.shared.load::<Naming>(&mut seat.seat, HEIGHT);
        let seat = self.table.shared.split_seat::<Children>(&mut seat.seat);
        Ok(FloorSeat { seat, mark })
    }

    /// The greatest number that was raised in the history so far, or -64. It is never above the root's value.
    pub fn read(&self, seat: &mut FloorSeat) -> i8
        requires { IsSeatOf self.now seat.old }
        ensures floor { result ≡ floor_after seat.new.seen }
        ensures bound { result ≤ℤ root_value self.now.root }
        ensures low { negsuc 63 ≤ℤ result }
        ensures high { result ≤ℤ pos 64 }
        ensures goes { Goes seat.old seat.new }
    {
        let found = self.table.shared.load::<Looking>(&mut seat.seat, HEIGHT);
        (found as i16 - 64) as i8
    }

    /// Raises the floor to the solved lower bound, by one atomic step. Refused, with the floor unchanged, where the
    /// solved board isn't the root or was solved under the other scoring.
    pub fn raise(&self, seat: &mut FloorSeat, solved: &Solved) -> Result<(), Stranger>
        requires { IsSeatOf self.now seat.old }
        ensures variant { IsOk result ↔ ((solved.now.board ≡ self.now.root.board)
            × (solved.now.scoring ≡ self.now.root.scoring)) }
        ensures ok { OnOk result (Adds seat.old seat.new (Raise seat.old.name solved.now.interval.lower)) }
        ensures err { OnErr result (seat.new ≡ seat.old) }
    {
        if solved.board != self.root.board || solved.scoring != self.root.scoring {
            return Err(Stranger);
        }
        self.raise_to(seat, solved.interval.lower);
        Ok(())
    }

    // Raises the floor to a lower bound of the root's value, where it isn't as high.
    fn raise_to(&self, seat: &mut FloorSeat, number: i8)
        requires seat { IsSeatOf self.now seat.old }
        requires low { negsuc 63 ≤ℤ number }
        requires high { number ≤ℤ pos 64 }
        requires true_bound { number ≤ℤ root_value self.now.root }
        ensures { Adds seat.old seat.new (Raise seat.old.name number) }
    {
        let height = height_of(number);
        self.table
            .shared
            .fetch_max::<Raising>(&mut seat.seat, HEIGHT, height);
    }

    /// Afterwards both seats have seen one and the same history, which begins with what each of them had seen.
    pub fn meet(&self, one: &mut FloorSeat, other: &mut FloorSeat)
        requires one { IsSeatOf self.now one.old }
        requires other { IsSeatOf self.now other.old }
        ensures same { one.new.seen ≡ other.new.seen }
        ensures one { Goes one.old one.new }
        ensures other { Goes other.old other.new }
    {
        let from_one = self.messenger(one);
        let from_other = self.messenger(other);
        self.learn(one, from_other);
        self.learn(other, from_one);
    }

    // Carries what the seat has seen.
    fn messenger(&self, seat: &mut FloorSeat) -> Messenger
        requires { IsSeatOf self.now seat.old }
        ensures same { seat.new ≡ seat.old }
        ensures messenger { (result.seat.table_id ≡ self.now.id) × (result.seat.me.0.seen ≡ seat.old.seen) }
    {
        let seat = self.table.shared.split_seat::<Messengers>(&mut seat.seat);
        Messenger { seat }
    }

    // The seat sees what the messenger tells.
    fn learn(&self, seat: &mut FloorSeat, messenger: Messenger)
        requires { IsSeatOf self.now seat.old × (messenger.seat.table_id ≡ self.now.id) }
        ensures seen { seat.new.seen ≡ longer seat.old.seen messenger.seat.me.0.seen }
        ensures told { Begins messenger.seat.me.0.seen seat.new.seen }
        ensures goes { Goes seat.old seat.new }
    {
        let Messenger { seat: other } = messenger;
        self.table
            .shared
            .join_seat::<Tellings>(&mut seat.seat, other);
        self.table.shared.load::<Learning>(&mut seat.seat, HEIGHT);
    }
}
