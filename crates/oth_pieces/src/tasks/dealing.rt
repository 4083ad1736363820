//! How tasks are made: the deques with their numbers, and a hand for each.
ghost use Rattle.std.specs.Prelude.{◌≡◌, ◌<◌, ◌≤◌, IfOk, All, length, vec_len};
ghost use Rattle.oth_pieces.specs.Hands.{IsDealt, AreDealt, AreThievesOf, AreTokensOf, StayOwners, KnowTheirs};
ghost use Rattle.oth_pieces.specs.Hands.{OwnerFits, OwnersFit, PileFits, IsNewHand, AreHandsOf, HasRoom, count_of};

use super::deal_order::DealOrder;
use super::rule::{Puts, Thieves};
use super::state::{Hand, Owner, Parts, Tasks, Thief, Token};
use crate::frontier::MOST_ITEMS;
use std::alloc::{AllocError, Global};

/// Tasks of the numbers, dealt in the order of their turns, and their hands.
pub fn dealt(
    alloc: Global,
    turns: &DealOrder,
    hands: usize,
) -> Result<(Tasks, Vec<Hand>), AllocError>
    requires { length turns.now.numbers.items ≤ MOST_ITEMS }
    ensures hands { IfOk result (λ made. AreHandsOf made.0 hands made.1.items) }
    ensures count { IfOk result (λ made. count_of made.0 ≡ length turns.now.numbers.items) }
{
    let mut owners = deques(alloc, turns, hands)?;
    let thieves = thieves_of(alloc, owners.as_slice())?;
    let count = turns.numbers.len() as u32;
    let tasks = Tasks { thieves, count };
    let piles = piles_of(alloc, &tasks, owners.as_mut_slice())?;
    let made = hands_of(alloc, &tasks, owners, piles)?;
    Ok((tasks, made))
}

// Room for what `hands` hands hold.
fn room_of(alloc: Global, hands: usize) -> Result<Parts, AllocError>
    ensures { IfOk result (λ room. HasRoom hands room) }
{
    Ok(Parts {
        owners: Vec::with_capacity(alloc, hands)?,
        piles: Vec::with_capacity(alloc, hands)?,
        lists: Vec::with_capacity(alloc, hands)?,
    })
}

// The deques of `hands` hands, with the numbers in the order of their turns.
fn deques(alloc: Global, turns: &DealOrder, hands: usize) -> Result<Vec<Owner>, AllocError>
    ensures { IfOk result (λ owners. (length owners.items ≡ hands)
        × AreDealt hands (length turns.now.numbers.items) owners.items) }
{
    let mut owners = Vec::with_capacity(alloc, hands)?;
    for deque in 0..hands {
        owners.push_reserved(deal(alloc, turns, deque, hands)?);
    }
    Ok(owners)
}

// A handle of each deque, for those who steal from it.
fn thieves_of(alloc: Global, owners: &[Owner]) -> Result<Vec<Thief>, AllocError>
    ensures { IfOk result (λ thieves. AreThievesOf owners.now thieves) }
{
    let mut thieves = Vec::with_capacity(alloc, owners.len())?;
    for owner in owners {
        thieves.push_reserved(owner.stealer()?);
    }
    Ok(thieves)
}

// A pass for each deque. From then on nobody pushes.
fn passes_of(alloc: Global, owners: &mut [Owner]) -> Result<Vec<Token>, AllocError>
    requires { KnowTheirs owners.old }
    ensures owners { StayOwners owners.old owners.new }
    ensures passes { IfOk result (λ passes. AreTokensOf owners.old passes) }
{
    let mut passes = Vec::with_capacity(alloc, owners.len())?;
    for i in 0..owners.len() {
        passes.push_reserved(owners[i].another::<Thieves>());
    }
    Ok(passes)
}

// The passes of each hand.
fn piles_of(
    alloc: Global,
    tasks: &Tasks,
    owners: &mut [Owner],
) -> Result<Vec<Vec<Token>>, AllocError>
    requires { OwnersFit tasks.now owners.old }
    ensures owners { OwnersFit tasks.now owners.new }
    ensures piles { IfOk result (λ piles. (vec_len piles ≡ length owners.old) × All (PileFits tasks.now) piles.items) }
{
    let mut piles = Vec::with_capacity(alloc, owners.len())?;
    for _ in 0..owners.len() {
        piles.push_reserved(pile_of(alloc, tasks, owners)?);
    }
    Ok(piles)
}

// A pass of each deque, for one hand.
fn pile_of(alloc: Global, _tasks: &Tasks, owners: &mut [Owner]) -> Result<Vec<Token>, AllocError>
    requires { OwnersFit _tasks.now owners.old }
    ensures owners { OwnersFit _tasks.now owners.new }
    ensures pile { IfOk result (λ pile. PileFits _tasks.now pile) }
{
    passes_of(alloc, owners)
}

// The hands: each has its deque and its pile of passes.
fn hands_of(
    alloc: Global,
    tasks: &Tasks,
    mut owners: Vec<Owner>,
    mut piles: Vec<Vec<Token>>,
) -> Result<Vec<Hand>, AllocError>
    requires owners { OwnersFit tasks.now owners.items }
    requires piles { (vec_len piles ≡ vec_len owners) × All (PileFits tasks.now) piles.items }
    ensures { IfOk result (λ hands. AreHandsOf tasks.now (vec_len owners) hands.items) }
{
    let mut hands = Vec::with_capacity(alloc, owners.len())?;
    while let Some(owner) = owners.pop() {
        let Some(passes) = piles.pop() else {
            break;
        };
        let number = owners.len();
        let hand = hand_of(alloc, tasks, number, owner, passes)?;
        hands.insert(0, hand)?;
    }
    Ok(hands)
}

// The hand of this number, with room for all that hands hold.
fn hand_of(
    alloc: Global,
    tasks: &Tasks,
    number: usize,
    owner: Owner,
    passes: Vec<Token>,
) -> Result<Hand, AllocError>
    requires number { number < vec_len tasks.now.thieves }
    requires owner { OwnerFits tasks.now number owner }
    requires pile { PileFits tasks.now passes }
    ensures { IfOk result (λ hand. IsNewHand tasks.now number hand) }
{
    let list = Vec::with_capacity(alloc, MOST_ITEMS)?;
    let room = room_of(alloc, tasks.thieves.len())?;
    Ok(Hand {
        number,
        owner,
        passes,
        list,
        ended: false,
        room,
    })
}

// The deque of all numbers with this remainder, in the order of their turns. It has room for all numbers, so that no
// push is refused.
fn deal(alloc: Global, turns: &DealOrder, deque: usize, hands: usize) -> Result<Owner, AllocError>
    requires { deque < hands }
    ensures { IfOk result (λ owner. IsDealt hands (length turns.now.numbers.items) deque owner) }
{
    let mut owner = Owner::fifo_as(alloc, turns.numbers.len())?;
    for number in turns.numbers.as_slice() {
        if *number as usize % hands == deque {
            let _ = owner.push_as::<Puts>(*number);
        }
    }
    Ok(owner)
}
