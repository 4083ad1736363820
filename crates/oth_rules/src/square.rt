//! One of the 64 squares.
ghost use Rattle.std.specs.Prelude.{◌≡◌, ◌≢◌, ◌<◌, ◌↔◌, ◌^◌, ℕ, true, false, IsSome, IfSome, slice_index_or, []};
ghost use Rattle.oth_rules.specs.Square.{has};

use crate::masks::{FALLING, RISING};
use crate::tables::{LINE_FACTORS, LINE_MASKS, LINE_STARTS};
use std::marker::Model;

/// A square by its number 0 to 63, which is `8 * row + column`: a1 is 0, h1 is 7, a8 is 56, h8 is 63.
#[derive(Clone, Copy, PartialEq, Eq, PartialOrd, Ord, Debug, Default)]
pub struct Square {
    number: u8,
}

impl Model for Square {
    ghost use Rattle.std.specs.Prelude.{ℕ, ◌<◌};

    ghost Value = { ℕ };

    ghost view = { λ s. s.number };

    ghost invariant = { λ s. s.number < 64 };

    ghost inverse = { λ n. record { number = n } };
}

impl Square {
    /// The square of this number; `None` exactly for 64 and above.
    pub fn of(number: u8) -> Option<Square>
        ensures valid { IsSome result ↔ (number < 64) }
        ensures value { IfSome result (λ s. s ≡ number) }
    {
        if number < 64 {
            Some(Square { number })
        } else {
            None
        }
    }

    /// The square of a number that is known to be below 64.
    pub fn numbered(number: u8) -> Square
        requires { number < 64 }
        ensures { result ≡ number }
    {
        Square { number }
    }

    /// The least square of a set of squares that is not empty.
    pub fn first_of(set: u64) -> Square
        requires { set ≢ 0 }
        ensures below { result < 64 }
        ensures member { has set result ≡ true }
        ensures least { (s : ℕ) → s < result → has set s ≡ false }
    {
        Square::numbered(set.trailing_zeros() as u8)
    }

    /// The number, 0 to 63.
    pub fn number(self) -> u8
        ensures value { result ≡ self }
        ensures below { result < 64 }
    {
        self.number
    }

    /// The word of this square alone: the bit of its number.
    pub fn word(self) -> u64
        ensures value { result ≡ 2 ^ self }
        ensures below { self < 64 }
    {
        1 << self.number
    }

    /// The rays along which square numbers rise.
    pub(crate) fn rising_rays(self) -> &'static [u64; 4]
        ensures value { result.now ≡ slice_index_or RISING self [] }
        ensures below { self < 64 }
    {
        &RISING[self.number as usize]
    }

    /// The rays along which square numbers fall.
    pub(crate) fn falling_rays(self) -> &'static [u64; 4]
        ensures value { result.now ≡ slice_index_or FALLING self [] }
        ensures below { self < 64 }
    {
        &FALLING[self.number as usize]
    }

    // The squares in line with it, along its row, its falling diagonal, its column and its rising diagonal.
    pub(crate) fn line_masks(self) -> &'static [u64; 4]
        ensures value { result.now ≡ slice_index_or LINE_MASKS self [] }
        ensures below { self < 64 }
    {
        &LINE_MASKS[self.number as usize]
    }

    // What gathers the discs on these squares in eight bits.
    pub(crate) fn line_factors(self) -> &'static [u64; 4]
        ensures value { result.now ≡ slice_index_or LINE_FACTORS self [] }
        ensures below { self < 64 }
    {
        &LINE_FACTORS[self.number as usize]
    }

    // Where the counts of these lines begin.
    pub(crate) fn line_starts(self) -> &'static [u16; 4]
        ensures value { result.now ≡ slice_index_or LINE_STARTS self [] }
        ensures below { self < 64 }
    {
        &LINE_STARTS[self.number as usize]
    }
}
