//! The bracket of the first guess: between which scores the value seems to lie, and the threshold of the next null
//! window.
ghost use Rattle.std.specs.Prelude.{◌≡◌, pos, ◌≤ℤ◌};
ghost use Rattle.oth_rules.specs.Laws.{IsScore};
ghost use Rattle.oth_search.specs.Bounds.Interval.{IsThreshold};

use crate::bounds::{greater, lesser};
use crate::tuning::{FIRST_GUESS_STEP, GUESS_CLOSE};

/// The bounds, -64 to 64, that a value seems to have after some null windows of the selective search, and `at`, the
/// threshold of the next one.
#[derive(Clone, Copy)]
pub struct Bracket {
    pub at: i8,
    low: i8,
    high: i8,
    // How far from the only known bound the next null window lies.
    step: i8,
    ghost threshold: { IsThreshold at },
    ghost range: { IsScore low × IsScore high },
    ghost wide: { (pos 0 ≤ℤ step) × (step ≤ℤ pos 64) },
}

impl Bracket {
    /// The bracket before the first null window: no bound is known, and `at` is its threshold.
    pub fn from(at: i8) -> Bracket
        requires { IsThreshold at }
        ensures { result.at ≡ at }
    {
        Bracket {
            at,
            low: -64,
            high: 64,
            step: FIRST_GUESS_STEP,
        }
    }

    /// The bracket after a null window by which the value seems to be at most `most`.
    pub fn at_most(self, most: i8) -> Bracket
        requires { IsScore most }
    {
        self.between(self.low, most)
    }

    /// The bracket after a null window by which the value seems to be at least `least`.
    pub fn at_least(self, least: i8) -> Bracket
        requires { IsScore least }
    {
        self.between(least, self.high)
    }

    // The bracket with these bounds, the threshold that follows from them, and twice the step.
    fn between(self, low: i8, high: i8) -> Bracket
        requires low { IsScore low }
        requires high { IsScore high }
    {
        Bracket {
            at: asked(low, high, self.step),
            low,
            high,
            step: doubled(self.step),
        }
    }

    /// Whether the bounds are at most `GUESS_CLOSE` discs apart, where the guess ends.
    pub fn is_close(self) -> bool {
        self.high <= lesser(self.low, 61) + GUESS_CLOSE
    }

    /// The upper bound that the value seems to have.
    pub fn most(self) -> i8
        ensures { IsScore result }
    {
        self.high
    }
}

// The threshold of the next null window, -64 to 63: the middle where both bounds are known, else `step` below the upper
// one or `step - 2` above the lower one.
fn asked(low: i8, high: i8, step: i8) -> i8
    requires low { IsScore low }
    requires high { IsScore high }
    requires shortest { pos 0 ≤ℤ step }
    requires longest { step ≤ℤ pos 64 }
    ensures { IsThreshold result }
{
    let at = if low > -64 && high < 64 {
        low / 2 + high / 2
    } else if high < 64 {
        high - step
    } else {
        low - 2 + step
    };
    lesser(63, greater(-64, at))
}

// Twice the step, up to 64.
fn doubled(step: i8) -> i8
    requires low { pos 0 ≤ℤ step }
    requires high { step ≤ℤ pos 64 }
    ensures low { pos 0 ≤ℤ result }
    ensures high { result ≤ℤ pos 64 }
{
    if step < 32 { 2 * step } else { 64 }
}
