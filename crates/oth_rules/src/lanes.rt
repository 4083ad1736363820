//! Moves and flips over vectors of four words: four directions of one sense at a time, a lane for each.
//!
//! The rays of a square (`masks`) are a table of 64 times 8 masks, which the check computes to be the rays of the
//! definition. Along a ray of rising squares the disc that closes the line is the lowest square that is not the
//! opponent's, along a falling one the highest.
ghost use Rattle.std.specs.Prelude.{◌≡◌, ◌↔◌, IsTrue, false};
ghost use Rattle.std.specs.List.{list_any};
ghost use Rattle.oth_rules.specs.Square.{word_of, is_in};
ghost use Rattle.oth_rules.specs.Position.{is_empty};
ghost use Rattle.oth_rules.specs.Move.{flipped_along, is_flipped, is_legal};
ghost use Rattle.oth_rules.specs.Line.{outflanks, rising_directions, falling_directions};

use crate::board::Board;
use crate::masks::INNER;
use crate::square::Square;
use std::simd::prelude::*;

impl Board {
    /// The squares where the mover has a legal move: four directions of one sense at a time. Inner loops take
    /// [`Board::moves_by_lines`].
    pub fn moves(&self) -> u64
        ensures { result ≡ word_of (is_legal self.now) }
    {
        (self.outflanking_upwards() | self.outflanking_downwards()) & self.empty_squares()
    }

    // The squares where a disc of the mover would outflank something in a direction where square numbers fall: those
    // just past a rising line of opposing discs.
    fn outflanking_downwards(&self) -> u64
        ensures { result ≡ word_of (λ s. list_any (outflanks self.now s) falling_directions) }
    {
        let own = u64x4::splat(self.own());
        let opp = self.opp();
        let inner = opp & INNER;
        let through = u64x4::from_array([opp, inner, inner, inner]);
        let step = u64x4::from_array([8, 7, 1, 9]);
        let two_steps = u64x4::from_array([16, 14, 2, 18]);
        let one = through & (own << step);
        let two = one | through & (one << step);
        let pairs = through & (through << step);
        let four = two | pairs & (two << two_steps);
        let six = two | pairs & (four << two_steps);
        (six << step).reduce_or()
    }

    // The squares where a disc of the mover would outflank something in a direction where square numbers rise: those
    // just past a falling line of opposing discs.
    fn outflanking_upwards(&self) -> u64
        ensures { result ≡ word_of (λ s. list_any (outflanks self.now s) rising_directions) }
    {
        let own = u64x4::splat(self.own());
        let opp = self.opp();
        let inner = opp & INNER;
        let through = u64x4::from_array([inner, inner, opp, inner]);
        let step = u64x4::from_array([1, 9, 8, 7]);
        let two_steps = u64x4::from_array([2, 18, 16, 14]);
        let one = through & (own >> step);
        let two = one | through & (one >> step);
        let pairs = through & (through >> step);
        let four = two | pairs & (two >> two_steps);
        let six = two | pairs & (four >> two_steps);
        (six >> step).reduce_or()
    }

    /// The discs that a move to this square flips: along four rays of one sense at a time. 0 exactly where the square
    /// is occupied or the move illegal. Inner loops, which know that the square is empty, take
    /// [`Board::flips_of_empty`].
    pub fn flips(&self, square: Square) -> u64
        ensures value { result ≡ word_of (is_flipped self.now square) }
        ensures none { (result ≡ 0) ↔ (is_legal self.now square ≡ false) }
    {
        if square.word() & self.empty_squares() == 0 {
            return 0;
        }
        self.flipped_upwards(square) | self.flipped_downwards(square)
    }

    // What is outflanked along the rays of rising squares.
    fn flipped_upwards(&self, square: Square) -> u64
        ensures { result ≡ word_of (λ q. list_any (λ d. is_in (flipped_along self.now square d) q) rising_directions) }
    {
        let [east, south_east, south, south_west] = *square.rising_rays();
        let rays = u64x4::from_array([east, south_east, south, south_west]);
        let free = rays & u64x4::splat(!self.opp());
        let nearest = free & !(free - u64x4::splat(1));
        let closing = nearest & u64x4::splat(self.own());
        (closing.saturating_sub(u64x4::splat(1)) & rays).reduce_or()
    }

    // What is outflanked along the rays of falling squares.
    fn flipped_downwards(&self, square: Square) -> u64
        ensures { result ≡ word_of (λ q. list_any (λ d. is_in (flipped_along self.now square d) q) falling_directions) }
    {
        let [north, north_east, west, north_west] = *square.falling_rays();
        let rays = u64x4::from_array([north, north_east, west, north_west]);
        let free = rays & u64x4::splat(!self.opp());
        let lead = (free | u64x4::splat(1)).leading_zeros();
        let nearest = (u64x4::splat(1 << 63) >> lead) & free;
        let closing = nearest & u64x4::splat(self.own());
        ((closing << u64x4::splat(1)).wrapping_neg() & rays).reduce_or()
    }
}
