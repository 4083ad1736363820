//! What the workers of a search know of the boards after the root's moves: true bounds, whoever found them. A worker
//! leaves a move alone by these or by its own bounds. They are there with and without a table, and no table is too
//! small to keep them.
//!
//! They stand in 128 words of an `atomic_table`, two for each square: the greatest lower bound that was told of the
//! board after the root's move there, plus 64, and 64 less the least upper bound. The steps are load and fetch_max. The
//! rule (`move_bounds/rule`): no word tells more than is true.
ghost use Rattle.std.specs.Prelude.{◌≡◌, ◌<◌, ◌≤ℤ◌, ◌-ℤ◌, pos, negsuc, None, IfSome, option_map};
ghost use Rattle.oth_walk.specs.MoveBounds.{limit, IsOfMove};

mod rule;

use atomic_table::{Seat, Table};
use oth_pieces::floor::Root;
use oth_rules::Square;
use oth_search::{Interval, Solved};
use rule::{Step, TrueBounds};
use std::alloc::Global;
use std::marker::Model;

// The first word of the upper bounds, one for each square's move. As many stand before it, for the lower bounds.
const UPPER: usize = 64;

/// True bounds of the boards after a root's moves, which workers tell and hear.
#[derive(Drop)]
pub struct MoveBounds {
    table: Table<u8, Root, Root, TrueBounds, Global>,
    root: Root,
    ghost words: { table.shared.table_id.words ≡ 128 },
    ghost key: { table.shared.key ≡ root },
}

impl MoveBounds {
    /// Bounds of the boards after the moves of this root, which tell nothing yet; `None` if there is no memory.
    pub fn new(alloc: Global, root: Root) -> Option<MoveBounds>
        ensures root { IfSome result (λ b. b.root ≡ root) }
    {
        let words = [0u64; 2 * UPPER];
        match Table::of_words(alloc, &words, &root) {
            Ok((table, _)) => Some(MoveBounds { table, root }),
            Err(_) => None,
        }
    }
}

// The word that tells this number.
fn height_of(number: i8) -> u64
    requires { negsuc 63 ≤ℤ number }
    ensures { pos result -ℤ pos 64 ≡ number }
{
    (number as i16 + 64) as u64
}

// The number that this word tells.
fn number_at(height: u64) -> i8
    requires { (pos height -ℤ pos 64) ≤ℤ pos 64 }
    ensures { result ≡ pos height -ℤ pos 64 }
{
    (height as i16 - 64) as i8
}

// A worker's seat of the words.
#[derive(Drop)]
struct BoundWords<'b> {
    bounds: &'b MoveBounds,
    seat: Seat<u8, Root>,
    ghost sits: { (seat.table_id ≡ bounds.now.table.shared.table_id) × (seat.me.0 ≡ bounds.now.root) },
}

impl<'b> BoundWords<'b> {
    // A further seat. It takes no memory.
    fn of(bounds: &'b MoveBounds) -> BoundWords<'b>
        ensures { result.bounds.now ≡ bounds.now }
    {
        let (_, seat) = bounds.table.shared.load_new_seat::<Step>(0);
        BoundWords { bounds, seat }
    }

    // The word at this place, less 64.
    fn height(&mut self, word: usize) -> i8
        requires { word < 128 }
        ensures low { negsuc 63 ≤ℤ result }
        ensures bound { result ≤ℤ limit self.old.bounds.now.root word }
        ensures same { self.new.bounds ≡ self.old.bounds }
    {
        let bounds = self.bounds;
        let height = bounds.table.shared.load::<Step>(&mut self.seat, word);
        number_at(height)
    }

    // Raises the word at this place to what tells this number.
    fn raise(&mut self, word: usize, number: i8)
        requires place { word < 128 }
        requires low { negsuc 63 ≤ℤ number }
        requires bound { number ≤ℤ limit self.old.bounds.now.root word }
        ensures same { self.new.bounds ≡ self.old.bounds }
    {
        let bounds = self.bounds;
        let height = height_of(number);
        bounds
            .table
            .shared
            .fetch_max::<Step>(&mut self.seat, word, height);
    }
}

/// A worker's access to the bounds, or to none: then nobody has told anything, and what it tells is forgotten.
#[derive(Drop)]
pub struct BoundsSeat<'b> {
    place: Option<BoundWords<'b>>,
}

impl<'b> Model for BoundsSeat<'b> {
    ghost use Rattle.std.specs.Prelude.{Option, option_map};
    ghost use Rattle.oth_pieces.specs.declared.floor.root.Root.{Root};

    // The root whose moves it tells of, where there are bounds.
    ghost Value = { Option Root };

    ghost view = { λ s. option_map (λ p. p.bounds.now.root) s.place };
}

impl<'b> BoundsSeat<'b> {
    /// A further access to the bounds, if there are any. It takes no memory.
    pub fn of(bounds: &'b Option<MoveBounds>) -> BoundsSeat<'b>
        ensures { result ≡ option_map (λ b. b.root) bounds.now }
    {
        BoundsSeat {
            place: match bounds {
                Some(bounds) => Some(BoundWords::of(bounds)),
                None => None,
            },
        }
    }

    /// No bounds.
    pub fn none() -> BoundsSeat<'b>
        ensures { result ≡ None }
    {
        BoundsSeat { place: None }
    }

    /// Tells what is known of the board after the root's move to this square. Bounds of another board, or under the
    /// other scoring, are passed over.
    pub fn tell(&mut self, square: Square, child: &Solved)
        ensures { self.new ≡ self.old }
    {
        if let Some(place) = &mut self.place {
            let bounds = place.bounds;
            let Root { board, scoring } = bounds.root;
            if scoring == child.scoring && board.play(square) == Some(child.board) {
                let number = square.number() as usize;
                place.raise(number, child.interval.lower);
                place.raise(UPPER + number, -child.interval.upper);
            }
        }
    }

    /// What was told of the board after the root's move to this square, if the move is legal.
    pub fn hear(&mut self, square: Square) -> Option<Solved>
        ensures told { IfSome result (IsOfMove self.old square) }
        ensures same { self.new ≡ self.old }
    {
        let place = self.place.as_mut()?;
        let bounds = place.bounds;
        let Root { board, scoring } = bounds.root;
        let child = board.play(square)?;
        let number = square.number() as usize;
        let lower = place.height(number);
        let upper = -place.height(UPPER + number);
        Some(Solved::of(&child, Interval { lower, upper }, scoring))
    }
}
