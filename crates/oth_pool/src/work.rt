//! What one worker of a run has of its own, and the duties of all of them.
ghost use Rattle.std.specs.Prelude.{◌≡◌, ◌≤◌, ℕ, List, map, vec_len, vec_capacity, All, []};
ghost use Rattle.oth_rules.specs.declared.scoring.Scoring.{Scoring};
ghost use Rattle.oth_pieces.specs.declared.frontier.item.Item.{Item};
ghost use Rattle.oth_pieces.specs.Hands.{AreAllHands};
ghost use Rattle.oth_pieces.specs.Dealing.{times};
ghost use Rattle.oth_pool.specs.Working.{Holds, IsReplyOf, numbers_of, times_by};

use crate::means::Means;
use crate::workers::work_all;
use oth_pieces::{Hand, Reply, Tasks};
use oth_search::Cells;
use oth_walk::{Gate, Search, Worker};
use std::alloc::Global;
use std::thread::Threads;

/// What a worker draws with, and its replies.
#[derive(Drop)]
pub struct Work {
    pub(crate) hand: Hand,
    pub(crate) replies: Vec<Reply>,
}

/// A worker's work, and what it searches with.
#[derive(Drop)]
pub(crate) struct Duty<'w, C, G> {
    pub work: Work,
    pub worker: Worker<'w, C, G>,
}

/// Makes a duty of each hand and a worker. A duty for whose replies there is no memory gets no room for them.
pub(crate) fn duties_of<'w, G, C: Drop>(
    alloc: Global,
    search: &Search,
    hands: Vec<Hand>,
    mut workers: Vec<Worker<'w, C, G>>,
    mut duties: Vec<Duty<'w, C, G>>,
) -> Vec<Duty<'w, C, G>>
    requires many { vec_len workers ≡ vec_len hands }
    requires room { (vec_len duties ≡ 0) × (vec_len hands ≤ vec_capacity duties) }
    ensures hands { map (λ j. j.work.hand) result.items ≡ hands.items }
    ensures each { All (λ j. Holds search.now.frontier.now search.now.scoring j.work) result.items }
    ensures many { vec_len result ≡ vec_len hands }
{
    for hand in hands {
        let Some(worker) = workers.pop() else {
            unreachable!()
        };
        let replies = room_for(alloc, search.frontier.len());
        let work = Work { hand, replies };
        duties.push_reserved(Duty { work, worker });
    }
    duties
}

/// Returns the duties after each has searched until nothing was left.
pub(crate) fn run_duties<'w, R: Threads + Sync, G: Gate, C: Cells + Send + Drop>(
    means: &Means<R, G>,
    search: &Search,
    tasks: &Tasks,
    mut duties: Vec<Duty<'w, C, G>>,
) -> Vec<Duty<'w, C, G>>
    requires hands { AreAllHands tasks.now (map (λ j. j.work.hand) duties.items) }
    requires each { All (λ j. Holds search.now.frontier.now search.now.scoring j.work) duties.items }
    ensures hands { AreAllHands tasks.now (map (λ j. j.work.hand) result.items) }
    ensures each { All (λ j. Holds search.now.frontier.now search.now.scoring j.work) result.items }
    ensures many { vec_len result ≡ vec_len duties.entry }
{
    work_all(means.rt, search, tasks, duties.as_mut_slice());
    duties
}

/// Returns an empty list with room for `count` elements, or without room where there is no memory.
pub(crate) fn room_for<T: Drop>(alloc: Global, count: u32) -> Vec<T>
    ensures { result.items ≡ [] }
{
    match Vec::with_capacity(alloc, count as usize) {
        Ok(room) => room,
        Err(_) => Vec::new(alloc),
    }
}

/// Returns all replies of the duties, as far as there is room for them.
pub(crate) fn collect_replies<'w, C, G>(duties: &[Duty<'w, C, G>], room: Vec<Reply>) -> Vec<Reply>
    requires { room.items ≡ [] }
    ensures replies { (items : List Item) (scoring : Scoring) → All (λ j. Holds items scoring j.work) duties.now
        → All (IsReplyOf items scoring) result.items }
    ensures once { (items : List Item) (scoring : Scoring) → All (λ j. Holds items scoring j.work) duties.now
        → (x : ℕ) → times x (numbers_of result.items) ≤ times_by x (map (λ j. j.work) duties.now) }
{
    let mut replies = room;
    for duty in duties {
        let _ = replies.extend_from_slice(duty.work.replies.as_slice());
    }
    replies
}

/// Returns these replies with what any of the workers found of their items, as far as there is room for them: the
/// worker that drew an item need not be the one that searched it.
pub(crate) fn told_by_all<'w, G: Gate, C: Cells>(
    duties: &[Duty<'w, C, G>],
    replies: &[Reply],
    room: Vec<Reply>,
) -> Vec<Reply>
    requires { room.items ≡ [] }
    ensures replies { (items : List Item) (scoring : Scoring) → All (IsReplyOf items scoring) replies.now
        → All (IsReplyOf items scoring) result.items }
    ensures once { (x : ℕ) → times x (numbers_of result.items) ≤ times x (numbers_of replies.now) }
{
    let mut told = room;
    for reply in replies {
        let _ = told.push(told_of(duties, reply));
    }
    told
}

// Returns the reply with what any of the workers found of its item.
fn told_of<'w, G: Gate, C: Cells>(duties: &[Duty<'w, C, G>], reply: &Reply) -> Reply
    ensures number { result.number ≡ reply.now.number }
    ensures board { result.solved.board ≡ reply.now.solved.board }
    ensures scoring { result.solved.scoring ≡ reply.now.solved.scoring }
{
    let mut solved = reply.solved;
    for duty in duties {
        solved = duty.worker.known_of_item(reply.number, &solved);
    }
    Reply {
        number: reply.number,
        solved,
    }
}

/// Moves the hands of the duties into `room`.
pub(crate) fn hands_in<'w, G, C: Drop>(
    mut room: Vec<Hand>,
    duties: Vec<Duty<'w, C, G>>,
) -> Vec<Hand>
    requires { (vec_len room ≡ 0) × (vec_len duties ≤ vec_capacity room) }
    ensures { result.items ≡ map (λ j. j.work.hand) duties.entry.items }
{
    for duty in duties {
        let Duty { work, worker: _ } = duty;
        let Work { hand, replies: _ } = work;
        room.push_reserved(hand);
    }
    room
}
