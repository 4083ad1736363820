//! The eight symmetries of the board, and words carried along them.
ghost use Rattle.std.specs.Prelude.{◌≡◌, ◌<◌, ◌↔◌, ◌^◌, ◌*◌, ◌%◌, IsSome, IfSome, bit_and, if◌then◌else◌};
ghost use Rattle.oth_rules.specs.Square.{has, word_of};
ghost use Rattle.oth_rules.specs.Symmetry.{map_word, unmap_word};
ghost use Rattle.oth_rules.specs.Exchange.{exchanged_square, mirrored_square, flipped_square, transposed_square};

use std::marker::Model;

/// A symmetry of the board by its number 0 to 7. In this order: where bit 2 is set, columns and rows change places;
/// where bit 0 is set, the columns are turned round; where bit 1 is set, the rows. So 0 is the identity, 1 left to
/// right, 2 top to bottom, 3 the half turn, 4 the main diagonal, 5 and 6 the quarter turns, 7 the other diagonal.
#[derive(Clone, Copy, PartialEq, Eq, Debug, Default)]
pub struct Sym {
    number: u8,
}

impl Model for Sym {
    ghost use Rattle.std.specs.Prelude.{ℕ, ◌<◌};

    ghost Value = { ℕ };

    ghost view = { λ s. s.number };

    ghost invariant = { λ s. s.number < 8 };

    ghost inverse = { λ n. record { number = n } };
}

impl Sym {
    /// The symmetry of this number; `None` exactly for 8 and above.
    pub fn of(number: u8) -> Option<Sym>
        ensures valid { IsSome result ↔ (number < 8) }
        ensures value { IfSome result (λ s. s ≡ number) }
    {
        if number < 8 {
            Some(Sym { number })
        } else {
            None
        }
    }

    /// The symmetry of a number that is known to be below 8.
    pub fn numbered(number: u8) -> Sym
        requires { number < 8 }
        ensures { result ≡ number }
    {
        Sym { number }
    }

    /// The number, 0 to 7.
    pub fn number(self) -> u8
        ensures value { result ≡ self }
        ensures below { result < 8 }
    {
        self.number
    }

    // Whether this symmetry has the part of this bit.
    fn has(self, bit: u32) -> bool
        requires { bit < 8 }
        ensures value { result ≡ has self bit }
        ensures below { self < 8 }
    {
        self.number >> bit & 1 == 1
    }
}

// Exchanges each square of the mask with the one that lies `shift` further.
fn exchanged(word: u64, mask: u64, shift: u32) -> u64
    requires short { shift < 64 }
    requires apart { bit_and mask (mask * 2 ^ shift % 2 ^ 64) ≡ 0 }
    ensures { result ≡ word_of (λ q. has word (exchanged_square mask shift q)) }
{
    let kept = word & !(mask | mask << shift);
    kept | (word >> shift & mask) | (word & mask) << shift
}

// The columns turned round.
fn mirrored(word: u64) -> u64
    ensures { result ≡ word_of (λ q. has word (mirrored_square q)) }
{
    let word = exchanged(word, 0x5555_5555_5555_5555, 1);
    let word = exchanged(word, 0x3333_3333_3333_3333, 2);
    exchanged(word, 0x0f0f_0f0f_0f0f_0f0f, 4)
}

// The rows turned round.
fn flipped(word: u64) -> u64
    ensures { result ≡ word_of (λ q. has word (flipped_square q)) }
{
    let word = exchanged(word, 0x00ff_00ff_00ff_00ff, 8);
    let word = exchanged(word, 0x0000_ffff_0000_ffff, 16);
    exchanged(word, 0x0000_0000_ffff_ffff, 32)
}

// Columns and rows changed.
fn transposed(word: u64) -> u64
    ensures { result ≡ word_of (λ q. has word (transposed_square q)) }
{
    let word = exchanged(word, 0x00aa_00aa_00aa_00aa, 7);
    let word = exchanged(word, 0x0000_cccc_0000_cccc, 14);
    exchanged(word, 0x0000_0000_f0f0_f0f0, 28)
}

// The word, mirrored left to right if so asked.
fn mirrored_if(word: u64, yes: bool) -> u64
    ensures { result ≡ word_of (λ q. has word (if yes then mirrored_square q else q)) }
{
    if yes { mirrored(word) } else { word }
}

// The word, turned top to bottom if so asked.
fn flipped_if(word: u64, yes: bool) -> u64
    ensures { result ≡ word_of (λ q. has word (if yes then flipped_square q else q)) }
{
    if yes { flipped(word) } else { word }
}

// The word, its columns and rows exchanged if so asked.
fn transposed_if(word: u64, yes: bool) -> u64
    ensures { result ≡ word_of (λ q. has word (if yes then transposed_square q else q)) }
{
    if yes { transposed(word) } else { word }
}

/// The set of squares with each carried along the symmetry. [`unmap`] carries it back.
pub fn map(word: u64, sym: Sym) -> u64
    ensures value { result ≡ map_word sym word }
    ensures back { unmap_word sym result ≡ word }
    ensures below { sym < 8 }
{
    let word = transposed_if(word, sym.has(2));
    let word = mirrored_if(word, sym.has(0));
    flipped_if(word, sym.has(1))
}

/// The set of squares whose images along the symmetry are the given ones.
pub fn unmap(word: u64, sym: Sym) -> u64
    ensures value { result ≡ unmap_word sym word }
{
    let word = flipped_if(word, sym.has(1));
    let word = mirrored_if(word, sym.has(0));
    transposed_if(word, sym.has(2))
}
