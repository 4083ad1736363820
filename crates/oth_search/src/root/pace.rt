//! How far from a known bound of a value the next null window lies.
ghost use Rattle.std.specs.Prelude.{pos, ◌≤ℤ◌, ◌<ℤ◌};
ghost use Rattle.oth_search.specs.Bounds.Interval.{IsThreshold};

use crate::bounds::{Interval, greater, lesser};
use crate::tuning::WIDEST_STEP;

/// The step from a bound of a value to the next threshold, in discs: 1, 3, 7, 15, 31, 63.
#[derive(Clone, Copy)]
pub struct Pace {
    pub step: i8,
    ghost range: { (pos 1 ≤ℤ step) × (step ≤ℤ pos 63) },
}

impl Pace {
    /// The first step, 1.
    pub fn new() -> Pace {
        Pace { step: 1 }
    }

    /// The step after a null window: the next wider one if that led on, else 1.
    pub fn after(self, leads_on: bool) -> Pace {
        let step = self.step;
        if !leads_on {
            return Pace { step: 1 };
        }
        if step > 30 {
            return Pace { step: WIDEST_STEP };
        }
        Pace { step: 2 * step + 1 }
    }

    /// The pace of workers who share what they find, and ask at one threshold while they know one pair of bounds: 1
    /// once both bounds are known, and until then 1 more than the value has turned out to be off `start`.
    pub fn by_bounds(bounds: Interval, start: i8) -> Pace {
        let Interval { lower, upper } = bounds;
        if upper == 64 {
            return Pace::beyond(lower.saturating_sub(start));
        }
        if lower == -64 {
            return Pace::beyond(start.saturating_sub(upper));
        }
        Pace::new()
    }

    // A step of 1 more than `off`, from 1 up to the widest.
    fn beyond(off: i8) -> Pace {
        Pace {
            step: lesser(WIDEST_STEP - 1, greater(0, off)) + 1,
        }
    }

    /// The threshold that is a step below the upper bound, or the lower bound where that is nearer.
    pub fn below(self, bounds: Interval) -> i8
        ensures low { bounds.lower ≤ℤ result }
        ensures high { bounds.lower <ℤ bounds.upper → result <ℤ bounds.upper }
        ensures most { result ≤ℤ bounds.upper }
    {
        greater(bounds.lower, bounds.upper - self.step)
    }

    /// As `below`. While the upper bound is 64: `start`, or a step above the lower bound if that is above `start`.
    pub fn onward(self, bounds: Interval, start: i8) -> i8
        requires { IsThreshold start }
        ensures threshold { IsThreshold result }
        ensures low { bounds.lower <ℤ bounds.upper → bounds.lower ≤ℤ result }
        ensures high { bounds.lower <ℤ bounds.upper → result <ℤ bounds.upper }
    {
        if bounds.upper < 64 {
            self.below(bounds)
        } else if bounds.lower <= start {
            start
        } else {
            lesser(63, bounds.lower + self.step)
        }
    }
}
