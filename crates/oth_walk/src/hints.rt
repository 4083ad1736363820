//! What the workers of a search tell each other besides bounds: which boards somebody is searching, which of the root's
//! moves need no further search, what score the root seems to have and by which move, whether a board seems to reach a
//! score, and in which order a board's moves are best searched. These are hints. They save time, and every answer is
//! right whatever they say.
//!
//! They stand in words of an `atomic_table` whose rule (`hints/rule`) allows everything. Each step is a load, a store
//! or a compare-and-exchange of one word. Orders of moves are kept of boards from 12 empty squares on, the first ten
//! moves in one word (`move_order`).
ghost use Rattle.std.specs.Prelude.{◌≡◌, ◌<◌, ◌≤ℤ◌, negsuc, IfSome};

mod rule;

use crate::guess::Guess;
use crate::tuning::{MARK_COUNT, SEEN_COUNT};
use atomic_table::{Seat, Table};
use oth_rules::{Board, Square};
use oth_search::{MoveOrder, board_hash};
use rule::{Anything, Step};
use std::alloc::Global;
use std::marker::Model;

// The words: which of the root's moves are settled, a guess, the marks, what boards seem to have, and the orders.
const SETTLED: usize = 0;

// A guess of the root's score, raised by `GUESS_RAISED`, and above it the number of the move's square; 0 for none.
const GUESS: usize = 1;

// What is added to a guess, so that 0 says that there is none.
const GUESS_RAISED: i16 = 65;

// The square stands above this many bits of the word.
const GUESS_BITS: u32 = 8;

// The first place of a mark.
const MARKS: usize = 2;

// The first place of what a board seems to have.
const SEEN: usize = MARKS + MARK_COUNT;

// The first place of a kept order.
const ORDERS: usize = SEEN + SEEN_COUNT;

/// The hints of workers that search one board.
#[derive(Drop)]
pub struct Hints {
    table: Table<u8, (), (), Anything, Global>,
    // How many orders there is room for, of two words each.
    orders: u16,
}

impl Model for Hints {
    ghost use Rattle.atomic_table.specs.Seated.{TableId};

    ghost Value = { TableId };

    ghost view = { λ h. h.table.shared.table_id };
}

impl Hints {
    /// Hints that tell nothing yet, with room for `orders` orders; `None` if there is no memory.
    pub fn new(alloc: Global, orders: u16) -> Option<Hints> {
        let words = zeros(alloc, ORDERS + 2 * usize::from(orders))?;
        match Table::of_words(alloc, words.as_slice(), &()) {
            Ok((table, _)) => Some(Hints { table, orders }),
            Err(_) => None,
        }
    }
}

// `count` words of 0, if there is memory for them.
fn zeros(alloc: Global, count: usize) -> Option<Vec<u64>> {
    vec![in alloc; 0u64; count].ok()
}

// A worker's seat of the words.
#[derive(Drop)]
struct HintWords<'h> {
    hints: &'h Hints,
    seat: Seat<u8, ()>,
    ghost sits: { seat.table_id ≡ hints.now },
}

impl<'h> HintWords<'h> {
    // A further seat. It takes no memory.
    fn of(hints: &'h Hints) -> Option<HintWords<'h>> {
        if hints.table.word_count() == 0 {
            return None;
        }
        let (_, seat) = hints.table.shared.load_new_seat::<Step>(0);
        Some(HintWords { hints, seat })
    }
}

/// A worker's access to the hints, or to none: then nobody has told anything, and what it tells is forgotten.
#[derive(Drop)]
pub struct HintSeat<'h> {
    place: Option<HintWords<'h>>,
}

impl<'h> HintSeat<'h> {
    /// A further access to the hints, if there are any. It takes no memory.
    pub fn of(hints: &'h Option<Hints>) -> HintSeat<'h> {
        HintSeat {
            place: match hints {
                Some(hints) => HintWords::of(hints),
                None => None,
            },
        }
    }

    /// No hints.
    pub fn none() -> HintSeat<'h> {
        HintSeat { place: None }
    }

    // The word at this place, or 0 if there is none.
    fn load(&mut self, word: usize) -> u64 {
        let Some(place) = &mut self.place else {
            return 0;
        };
        let hints = place.hints;
        if word >= hints.table.word_count() {
            return 0;
        }
        hints.table.shared.load::<Step>(&mut place.seat, word)
    }

    // Stores a word, if its place is there.
    fn store(&mut self, word: usize, value: u64) {
        if let Some(place) = &mut self.place {
            let hints = place.hints;
            if word < hints.table.word_count() {
                let words = &hints.table.shared;
                words.store::<Step>(&mut place.seat, word, value);
            }
        }
    }

    // Writes the new value where the old one stands.
    fn exchange(&mut self, word: usize, old: u64, new: u64) {
        if let Some(place) = &mut self.place {
            let hints = place.hints;
            if word < hints.table.word_count() {
                let words = &hints.table.shared;
                words.compare_exchange::<Step>(&mut place.seat, word, old, new);
            }
        }
    }

    /// Whether the root's move needs no further search.
    pub fn seems_settled(&mut self, square: Square) -> bool {
        self.settled() & square.word() != 0
    }

    /// Tells that the root's move needs no further search. Tries again where another worker settles a move at the same
    /// time, at most once for each square.
    pub fn note_settled(&mut self, square: Square) {
        for _ in 0..64 {
            let settled = self.settled();
            if settled & square.word() != 0 {
                return;
            }
            self.exchange(SETTLED, settled, settled | square.word());
        }
    }

    /// The squares of the root's moves that need no further search.
    pub fn settled(&mut self) -> u64 {
        self.load(SETTLED)
    }

    /// A guess of the root's score and move, if one was told.
    pub(crate) fn guess(&mut self) -> Option<Guess> {
        let word = self.load(GUESS);
        let raised = word & 255;
        if raised == 0 || raised > 129 {
            return None;
        }
        let score = (raised as i16 - GUESS_RAISED) as i8;
        let square = Square::numbered(((word >> GUESS_BITS) & 63) as u8);
        Some(Guess::of(score, square))
    }

    /// Tells a guess of the root's score and move.
    pub(crate) fn tell_guess(&mut self, guess: &Guess) {
        let raised = (i16::from(guess.score) + GUESS_RAISED) as u64;
        let square = u64::from(guess.square.number());
        self.store(GUESS, raised | (square << GUESS_BITS));
    }

    /// Whether the board seems to have at least this score, if that was told.
    pub(crate) fn seen(&mut self, board: &Board, score: i8) -> Option<bool> {
        let key = scored_key_of(board, score);
        let word = self.load(seen_of(key));
        if word | 1 == key {
            Some(word == key)
        } else {
            None
        }
    }

    /// Tells whether the board seems to have at least this score.
    pub(crate) fn tell_seen(&mut self, board: &Board, score: i8, is_reached: bool) {
        let key = scored_key_of(board, score);
        let word = if is_reached { key } else { key ^ 1 };
        self.store(seen_of(key), word);
    }

    /// Whether a worker seems to search the board.
    pub fn is_searched(&mut self, board: &Board) -> bool {
        let key = key_of(board);
        self.load(mark_of(key)) == key
    }

    /// Marks the board as one that is being searched.
    pub fn begin(&mut self, board: &Board) {
        let key = key_of(board);
        self.store(mark_of(key), key);
    }

    /// Takes the mark of the board away.
    pub fn end(&mut self, board: &Board) {
        let key = key_of(board);
        self.exchange(mark_of(key), key, 0);
    }

    /// The order that was kept of the board's moves, if one was.
    pub fn order_of(&mut self, board: &Board) -> Option<MoveOrder> {
        let key = key_of(board);
        let place = self.order_place(key)?;
        let order = self.load(place);
        let check = self.load(place + 1);
        if order ^ check == key {
            Some(MoveOrder::of_word(order))
        } else {
            None
        }
    }

    /// Keeps an order of the board's moves.
    pub fn keep_order(&mut self, board: &Board, order: MoveOrder) {
        let key = key_of(board);
        if let Some(place) = self.order_place(key) {
            let word = order.word();
            self.store(place, word);
            self.store(place + 1, word ^ key);
        }
    }

    // How many orders there is room for.
    fn orders(&self) -> u16 {
        let Some(place) = &self.place else {
            return 0;
        };
        let hints = place.hints;
        hints.orders
    }

    // The first of the two words for the order of a board with this key, if orders are kept.
    fn order_place(&self, key: u64) -> Option<usize>
        ensures { IfSome result (λ place. place < 200000) }
    {
        let orders = self.orders();
        if orders == 0 {
            return None;
        }
        let slot = (key >> 16) % u64::from(orders);
        Some(ORDERS + 2 * slot as usize)
    }
}

// A number that tells the board from most others, and is not 0.
fn key_of(board: &Board) -> u64 {
    board_hash(board) | 1
}

// An odd number that tells the board and the score from most others.
fn scored_key_of(board: &Board, score: i8) -> u64 {
    let scored = u64::from(score.unsigned_abs()).wrapping_mul(0xd6e8_feb8_6659_fd93);
    let turned = if score < 0 { !scored } else { scored };
    key_of(board).wrapping_add(turned) | 1
}

// The word for what a board with this key seems to have.
fn seen_of(key: u64) -> usize {
    SEEN + (key >> 56) as usize
}

// The word for the mark of a board with this key.
fn mark_of(key: u64) -> usize {
    MARKS + (key >> 54) as usize
}
