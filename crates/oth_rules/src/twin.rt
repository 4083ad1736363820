//! Words of squares beside themselves turned by half a turn, a lane for each: a ray along which square numbers fall is
//! in the other lane one along which they rise.
//!
//! The invariants of the types say what the second lane is, so contracts speak of one board. Both lanes stay right
//! through a move, so a chain of moves makes the twin once. `flips` asks four rays of both lanes at once
//! (`twin_rays`, which the check computes to be the rays of the definition), without a branch.
//!
//! `moves` follows three lines by shifts of whole words: within the inner columns a plain shift is a step, and a
//! line of n + 2 squares is a line of two, or a pair past a line of n. Along the row a sum carries from the first
//! square of a line to the one past it, and says nothing of opposing squares, which `& empty` takes away. What the
//! second lane found is turned back. `proofs/HalfTurns` and `proofs/Twins` have what half a turn does to words, rays
//! and moves.
ghost use Rattle.std.specs.Prelude.{◌≡◌, ◌<◌, ◌^◌, ◌*◌, ◌%◌, ◌↔◌, ℕ, IsTrue, IfSome, IsSome, SomeIff};
ghost use Rattle.std.specs.Prelude.{bit_and, bit_or, length, map, slice_index_or, [], ◌∷◌};
ghost use Rattle.oth_rules.specs.Square.{Direction, has, word_of, is_in};
ghost use Rattle.oth_rules.specs.Position.{is_empty, pass};
ghost use Rattle.oth_rules.specs.Move.{outflanked, is_flipped, is_legal, after};
ghost use Rattle.oth_rules.specs.Laws.{IsLegal};
ghost use Rattle.oth_rules.specs.Symmetry.{image};
ghost use Rattle.oth_rules.specs.Line.{rising, is_next, is_on_line, Rises};
ghost use Rattle.oth_rules.specs.Exchange.{exchanged_square};
ghost use Rattle.oth_rules.specs.HalfTurn.{half_turned, twin};

use crate::board::Board;
use crate::masks::INNER;
use crate::square::Square;
use crate::tables::{TWIN_RAYS, TWIN_SQUARES};
use std::marker::Model;
use std::simd::prelude::*;

/// A set of squares, and beside it the same turned by half a turn.
#[derive(Clone, Copy)]
pub struct TwinWord {
    lanes: u64x2,
}

impl Model for TwinWord {
    ghost use Rattle.std.specs.Prelude.{ℕ, ◌≡◌, slice_index_or};
    ghost use Rattle.std.proofs.Common.{ap, sym};
    ghost use Rattle.oth_rules.specs.HalfTurn.{twin};

    ghost Value = { ℕ };

    ghost view = { λ t. slice_index_or t.lanes 0 0 };

    ghost invariant = { λ t. t.lanes ≡ twin (slice_index_or t.lanes 0 0) };

    ghost inverse = { λ w. record { lanes = twin w } };

    ghost inverse_ok = { λ a h. ap (λ xs. record { lanes = xs }) (sym h) };
}

impl TwinWord {
    /// The word that is not turned.
    #[inline(always)]
    pub fn word(self) -> u64
        ensures { result ≡ self }
    {
        self.lanes.to_array()[0]
    }

    // The word, and the same turned.
    #[inline(always)]
    fn lanes(self) -> u64x2
        ensures { result ≡ twin self }
    {
        self.lanes
    }

    // Two lanes of which the second is the first, turned.
    #[inline(always)]
    fn of_lanes(lanes: u64x2) -> TwinWord
        requires { lanes ≡ twin (slice_index_or lanes 0 0) }
        ensures { result ≡ slice_index_or lanes 0 0 }
    {
        TwinWord { lanes }
    }

    // The squares of the first lane, and those of the second, turned.
    #[inline(always)]
    fn joined(lanes: u64x2) -> TwinWord
        ensures { result ≡ bit_or (slice_index_or lanes 0 0) (half_turned (slice_index_or lanes 1 0)) }
    {
        TwinWord::of_lanes(lanes | turned(lanes))
    }
}

/// A board, and beside it the same turned by half a turn, which saves a chain of moves the rays along which square
/// numbers fall. Made once for all moves of a board.
#[derive(Clone, Copy)]
pub struct Twin {
    own: TwinWord,
    opp: TwinWord,
}

impl Model for Twin {
    ghost use Rattle.oth_rules.specs.Position.{Position, IsBoard};

    ghost Value = { Position };

    ghost view = { λ t. record { own = t.own; opp = t.opp } };

    ghost invariant = { λ t. IsBoard (record { own = t.own; opp = t.opp }) };

    ghost inverse = { λ p. record { own = p.own; opp = p.opp } };
}

impl Twin {
    /// The board, and beside it the same turned.
    #[inline(always)]
    pub fn of(board: &Board) -> Twin
        ensures { result ≡ board.now }
    {
        let [turned_opp, turned_own] = turned(u64x2::from_array([
            board.own(),
            board.opp(),
        ])).to_array();
        Twin {
            own: TwinWord::of_lanes(u64x2::from_array([board.own(), turned_own])),
            opp: TwinWord::of_lanes(u64x2::from_array([board.opp(), turned_opp])),
        }
    }

    /// The board that is not turned.
    #[inline(always)]
    pub fn board(self) -> Board
        ensures { result ≡ self }
    {
        Board::of_words(self.own.word(), self.opp.word())
    }

    /// The squares where the mover has a legal move.
    #[inline(always)]
    pub fn moves(self) -> u64
        ensures { result ≡ word_of (is_legal self) }
    {
        let own = self.own.lanes();
        let opp = self.opp.lanes();
        let inner = opp & u64x2::splat(INNER);
        let row = inner + (inner & (own << u64x2::splat(1)));
        let part = row | past(own, inner, 7) | past(own, opp, 8) | past(own, inner, 9);
        let reached = part | turned(part);
        (reached & !(own | opp)).to_array()[0]
    }

    /// The discs that a move to an empty square flips; none where the move is illegal.
    #[inline(always)]
    pub fn flips(self, square: Square) -> TwinWord
        requires { IsTrue (is_empty self square) }
        ensures { result ≡ word_of (is_flipped self square) }
    {
        TwinWord::joined(self.risen(square))
    }

    /// The discs that a move to an empty square flips, if the move is legal.
    #[inline(always)]
    pub fn legal_flips(self, square: Square) -> Option<TwinWord>
        requires { IsTrue (is_empty self square) }
        ensures flips { IfSome result (λ f. f ≡ word_of (is_flipped self square)) }
        ensures legal { IsSome result ↔ IsLegal self square }
    {
        let risen = self.risen(square);
        let [first, second] = risen.to_array();
        if first | second == 0 {
            return None;
        }
        Some(TwinWord::joined(risen))
    }

    /// The board after the roles change, as after a pass.
    #[inline(always)]
    pub fn pass(self) -> Twin
        ensures { result ≡ pass self }
    {
        Twin {
            own: self.opp,
            opp: self.own,
        }
    }

    /// The board after a move, seen by the other side; `None` exactly if the move is illegal.
    #[inline(always)]
    pub fn play(self, square: Square) -> Option<Twin>
        ensures { SomeIff result (IsTrue (is_legal self square)) (after self square) }
    {
        if square.word() & self.board().empty_squares() == 0 {
            return None;
        }
        let flips = self.legal_flips(square)?;
        Some(self.play_flipped(square, flips))
    }

    /// The board after a legal move whose flips are known, seen by the other side.
    #[inline(always)]
    pub fn play_flipped(self, square: Square, flips: TwinWord) -> Twin
        requires legal { IsTrue (is_legal self square) }
        requires flips { flips ≡ word_of (is_flipped self square) }
        ensures { result ≡ after self square }
    {
        let played = u64x2::from_array(TWIN_SQUARES[square.number() as usize]);
        Twin {
            own: TwinWord::of_lanes(self.opp.lanes() & !flips.lanes()),
            opp: TwinWord::of_lanes(self.own.lanes() | flips.lanes() | played),
        }
    }

    /// The board after a legal move, seen by the other side.
    #[inline(always)]
    pub fn play_legal(self, square: Square) -> Twin
        requires { IsLegal self square }
        ensures { result ≡ after self square }
    {
        self.play_flipped(square, self.flips(square))
    }

    // What a move to an empty square flips along rays of rising squares: on the board, and on the turned one.
    #[inline(always)]
    fn risen(self, square: Square) -> u64x2
        requires { IsTrue (is_empty self square) }
        ensures on_board { square < 64 }
        ensures fits { slice_index_or result 1 0 < 2 ^ 64 }
        ensures flips { bit_or (slice_index_or result 0 0) (half_turned (slice_index_or result 1 0))
            ≡ word_of (is_flipped self square) }
    {
        let [east, south_east, south, south_west] = TWIN_RAYS[square.number() as usize];
        self.outflanked(u64x2::from_array(east))
            | self.outflanked(u64x2::from_array(south_east))
            | self.outflanked(u64x2::from_array(south))
            | self.outflanked(u64x2::from_array(south_west))
    }

    // What is outflanked along these rays of rising squares: on the board, and on the turned one.
    #[inline(always)]
    fn outflanked(self, rays: u64x2) -> u64x2
        ensures { result ≡ word_of (is_in (outflanked self (rising (slice_index_or rays 0 0))))
            ∷ word_of (is_in (outflanked (image 3 self) (rising (slice_index_or rays 1 0)))) ∷ [] }
    {
        let free = rays & !self.opp.lanes();
        let nearest = free & !(free - u64x2::splat(1));
        let closing = nearest & self.own.lanes();
        let none = closing.simd_eq(u64x2::splat(0));
        (closing - u64x2::splat(1) - none.select(u64x2::splat(u64::MAX), u64x2::splat(0))) & rays
    }
}

// The squares just past a line of at most six squares of `through`, the first of them one step from a square of
// `source`, where each step adds `by`: in both lanes.
#[inline(always)]
fn past(source: u64x2, through: u64x2, by: u64) -> u64x2
    requires { by < 32 }
    ensures two { length result ≡ 2 }
    ensures past { (d : Direction) (i : ℕ) → i < 2 → Rises d by (has (slice_index_or through i 0)) →
        slice_index_or result i 0
        ≡ word_of (is_next d (is_on_line 6 d (has (slice_index_or source i 0)) (has (slice_index_or through i 0)))) }
{
    let twice = u64x2::splat(2 * by);
    let by = u64x2::splat(by);
    let one = through & (source << by);
    let two = one | through & (one << by);
    let pairs = through & (through << by);
    let four = two | pairs & (two << twice);
    (two | pairs & (four << twice)) << by
}

// In both words exchanges each square of the mask with the one that lies `shift` further.
#[inline(always)]
fn exchanged(words: u64x2, mask: u64, shift: u64) -> u64x2
    requires short { shift < 64 }
    requires apart { bit_and mask (mask * 2 ^ shift % 2 ^ 64) ≡ 0 }
    ensures { result ≡ map (λ w. word_of (λ q. has w (exchanged_square mask shift q))) words }
{
    let kept = u64x2::splat(!(mask | mask << shift));
    let mask = u64x2::splat(mask);
    let by = u64x2::splat(shift);
    words & kept | (words >> by & mask) | (words & mask) << by
}

// The two words, each turned by half a turn, in the lane of the other: the columns are turned round, then the rows. The
// compiler knows these exchanges as the reversal of a word's bits, and has a few instructions for it on each processor.
#[inline(always)]
fn turned(words: u64x2) -> u64x2
    ensures { result ≡ half_turned (slice_index_or words 1 0) ∷ half_turned (slice_index_or words 0 0) ∷ [] }
{
    let words = exchanged(words, 0x5555_5555_5555_5555, 1);
    let words = exchanged(words, 0x3333_3333_3333_3333, 2);
    let words = exchanged(words, 0x0f0f_0f0f_0f0f_0f0f, 4);
    let words = exchanged(words, 0x00ff_00ff_00ff_00ff, 8);
    let words = exchanged(words, 0x0000_ffff_0000_ffff, 16);
    exchanged(words, 0x0000_0000_ffff_ffff, 32).reverse()
}
