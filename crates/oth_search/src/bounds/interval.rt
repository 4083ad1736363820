//! Intervals of scores, and which of two scores is the greater.
ghost use Rattle.std.specs.Prelude.{◌≡◌, ◌⊎◌, ℤ, ◌↔◌, IsSome, IfSome, IsTrue, IsFalse, ◌≤ℤ◌, ◌<ℤ◌, neg_ℤ, pos};
ghost use Rattle.oth_rules.specs.Laws.{IsScore};
ghost use Rattle.oth_search.specs.Bounds.Interval.{IsInterval, Decides, IsOpen};

/// A lower and an upper bound of a score, `-64 <= lower <= upper <= 64`.
#[derive(Clone, Copy, PartialEq, Eq, Debug)]
pub struct Interval {
    pub lower: i8,
    pub upper: i8,
    pub ghost is_interval: { IsInterval lower upper },
}

impl Interval {
    /// All scores, -64 to 64.
    pub fn all() -> Interval
        ensures lower { result.lower ≡ neg_ℤ (pos 64) }
        ensures upper { result.upper ≡ pos 64 }
    {
        Interval {
            lower: -64,
            upper: 64,
        }
    }

    /// One score: both bounds are that number.
    pub fn exactly(score: i8) -> Interval
        requires { IsScore score }
        ensures lower { result.lower ≡ score }
        ensures upper { result.upper ≡ score }
    {
        Interval {
            lower: score,
            upper: score,
        }
    }

    /// The interval with these bounds; `None` exactly if they leave -64..64 or are out of order.
    pub fn of(lower: i8, upper: i8) -> Option<Interval>
        ensures variant { IsSome result ↔ IsInterval lower upper }
        ensures bounds { IfSome result (λ i. (i.lower ≡ lower) × (i.upper ≡ upper)) }
    {
        if -64 <= lower && lower <= upper && upper <= 64 {
            Some(Interval { lower, upper })
        } else {
            None
        }
    }

    /// Whether the bounds are one number.
    pub fn is_exact(self) -> bool
        ensures { IsTrue result ↔ (self.lower ≡ self.upper) }
    {
        self.lower == self.upper
    }

    /// Whether the bounds are one number, or both on one side of the window.
    pub fn decides(self, alpha: i8, beta: i8) -> bool
        ensures decided { IsTrue result → Decides self.lower self.upper alpha beta }
        ensures open { IsFalse result → IsOpen self.lower self.upper alpha beta }
    {
        self.is_exact() || self.lower >= beta || self.upper <= alpha
    }

    /// The bounds as the opponent sees them.
    pub fn turned(self) -> Interval
        ensures lower { result.lower ≡ neg_ℤ self.upper }
        ensures upper { result.upper ≡ neg_ℤ self.lower }
    {
        Interval {
            lower: -self.upper,
            upper: -self.lower,
        }
    }
}

/// The greater of two scores.
pub fn greater(a: i8, b: i8) -> i8
    ensures left { a ≤ℤ result }
    ensures right { b ≤ℤ result }
    ensures one { (result ≡ a) ⊎ (result ≡ b) }
    ensures least { (z : ℤ) → a <ℤ z → b <ℤ z → result <ℤ z }
{
    if a > b { a } else { b }
}

/// The lesser of two scores.
pub fn lesser(a: i8, b: i8) -> i8
    ensures left { result ≤ℤ a }
    ensures right { result ≤ℤ b }
    ensures one { (result ≡ a) ⊎ (result ≡ b) }
    ensures greatest { (z : ℤ) → z <ℤ a → z <ℤ b → z <ℤ result }
{
    if a < b { a } else { b }
}
