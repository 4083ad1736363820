//! What all hands hold, when they are closed, and the numbers that none of them drew.
ghost use Rattle.std.specs.Prelude.{◌≡◌, ◌+◌, ◌<◌, ◌≤◌, true, false, map, length, slice_index_or, vec_len, ℕ};
ghost use Rattle.oth_pieces.specs.Hands.{HasRoom, HasPlace};
ghost use Rattle.oth_pieces.specs.Drawn.{times_in_all, left_of};

use super::state::{Hand, Parts};
use crate::frontier::MOST_ITEMS;
use arrayvec::ArrayVec;

/// What all hands hold, in the room of the last one.
pub fn parts_of(mut hands: Vec<Hand>) -> Parts
    requires rooms { (i : ℕ) (h : Hand) → i < length hands.items
        → HasRoom (vec_len hands) (slice_index_or hands.items i h).room }
    requires some { 0 < vec_len hands }
    ensures owners { result.owners.items ≡ map (λ h. h.owner) hands.items }
    ensures piles { result.piles.items ≡ map (λ h. h.passes) hands.items }
    ensures lists { result.lists.items ≡ map (λ h. h.list) hands.items }
{
    let Some(last) = hands.pop() else {
        unreachable!()
    };
    let Hand {
        owner,
        passes,
        list,
        room,
        ..
    } = last;
    let mut parts = gathered(room, hands);
    parts.owners.push_reserved(owner);
    parts.piles.push_reserved(passes);
    parts.lists.push_reserved(list);
    parts
}

// Moves what these hands hold into the room, which has place for one more.
fn gathered(room: Parts, hands: Vec<Hand>) -> Parts
    requires { HasRoom (vec_len hands + 1) room }
    ensures owners { result.owners.items ≡ map (λ h. h.owner) hands.items }
    ensures piles { result.piles.items ≡ map (λ h. h.passes) hands.items }
    ensures lists { result.lists.items ≡ map (λ h. h.list) hands.items }
    ensures place { HasPlace result }
{
    let Parts {
        mut owners,
        mut piles,
        mut lists,
    } = room;
    for hand in hands {
        let Hand {
            owner,
            passes,
            list,
            ..
        } = hand;
        owners.push_reserved(owner);
        piles.push_reserved(passes);
        lists.push_reserved(list);
    }
    Parts {
        owners,
        piles,
        lists,
    }
}

// Whether one of the lists has the number.
fn is_drawn(lists: &[Vec<u32>], number: u32) -> bool
    ensures drawn { result ≡ true → 0 < times_in_all number lists.now }
    ensures left { result ≡ false → times_in_all number lists.now ≡ 0 }
{
    for list in lists {
        if list.contains(&number) {
            return true;
        }
    }
    false
}

/// The numbers below the count that are in no list, rising.
pub fn left_of(count: u32, lists: &[Vec<u32>]) -> ArrayVec<u32, MOST_ITEMS>
    requires { count ≤ MOST_ITEMS }
    ensures { result.items ≡ left_of count lists.now }
{
    let mut left = ArrayVec::new();
    for number in 0..count {
        if is_drawn(lists, number) {
            continue;
        }
        left.push(number);
    }
    left
}
