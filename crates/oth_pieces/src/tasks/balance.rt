//! What the hands took, compared.
ghost use Rattle.std.specs.Prelude.{◌≡◌, ℕ, ◌+◌, ◌-◌, ◌≤◌, true, sum_by, take, vec_len};
ghost use Rattle.crossbeam_deque.specs.Handles.{worker_view};
ghost use Rattle.oth_pieces.specs.Dealing.{IsFair};
ghost use Rattle.oth_pieces.specs.Settling.{pile_sum, owner_taken, owner_sum, CanSettle, LastAreOf, LastIsOf};
ghost use Rattle.oth_pieces.specs.Settling.{SameOwner, Shortens};
ghost use Rattle.oth_pieces.specs.Hands.{taken_with};

use super::rule::{Fair, Gathers};
use super::state::{Owner, Token};

/// However often a number was taken with these owners and passes together, it is at most once.
pub fn balance(mut owners: Vec<Owner>, piles: &mut [Vec<Token>])
    requires { CanSettle owners.items piles.old }
    ensures { (x : ℕ) → owner_sum x owners.items + pile_sum x piles.old ≤ 1 }
{
    while let Some(mut owner) = owners.pop() {
        collect_passes(&mut owner, piles);
    }
}

// The owner gets what each pile's last pass has taken, and learns that nothing was taken more often than it was put.
fn collect_passes(owner: &mut Owner, piles: &mut [Vec<Token>])
    requires knows { (worker_view owner.old).knows ≡ true }
    requires last { LastAreOf owner.old piles.old }
    ensures put { (worker_view owner.new).put ≡ (worker_view owner.old).put }
    ensures fair { IsFair (worker_view owner.new) }
    ensures sum { (x : ℕ) → owner_taken x owner.new + pile_sum x piles.new
        ≡ owner_taken x owner.old + pile_sum x piles.old }
    ensures shorter { Shortens piles.old piles.new }
{
    for i in 0..piles.len() {
        take_in(owner, &mut piles[i]);
    }
    owner.len_as::<Fair>();
}

// The owner gets what the pile's last pass has taken.
fn take_in(owner: &mut Owner, pile: &mut Vec<Token>)
    requires knows { (worker_view owner.old).knows ≡ true }
    requires last { LastIsOf owner.old pile.old }
    ensures same { SameOwner owner.old owner.new }
    ensures sum { (x : ℕ) → owner_taken x owner.new + sum_by (taken_with x) pile.new.items
        ≡ owner_taken x owner.old + sum_by (taken_with x) pile.old.items }
    ensures shorter { pile.new.items ≡ take (vec_len pile.old - 1) pile.old.items }
{
    if let Some(pass) = pile.pop() {
        owner.absorb::<Gathers>(pass);
    }
}
