//! What was found of the items of a frontier.
ghost use Rattle.std.specs.Prelude.{◌≡◌, Some, OnOk, OnErr, slice_get};
ghost use Rattle.oth_pieces.specs.Collector.{is_winner, same_scoring, nothing_of, refusal, with_reply, joined, err_of};

use crate::frontier::{Frontier, MOST_ITEMS};
use crate::reply::{Refusal, Reply};
use arrayvec::ArrayVec;
use oth_rules::Scoring;
use oth_search::Solved;
use std::marker::Model;

/// The replies for the items of a frontier, each once, under one scoring. It takes no memory.
#[derive(Drop)]
pub struct Collector<'f> {
    frontier: &'f Frontier,
    scoring: Scoring,
    found: ArrayVec<Option<Solved>, MOST_ITEMS>,
}

impl<'f> Model for Collector<'f> {
    ghost use Rattle.std.specs.Prelude.{◌≡◌, length};
    ghost use Rattle.oth_pieces.specs.Collector.{Collected};

    ghost Value = { Collected };

    ghost view = { λ c. record { items = c.frontier.now; scoring = c.scoring; found = c.found.items } };

    ghost invariant = { λ c. length c.found.items ≡ length c.frontier.now };
}

// Whether the empty squares go to the winner.
fn is_winner(scoring: Scoring) -> bool
    ensures { result ≡ is_winner scoring }
{
    match scoring {
        Scoring::Winner => true,
        Scoring::Discs => false,
    }
}

// Whether both scorings are one.
fn same_scoring(one: Scoring, other: Scoring) -> bool
    ensures { result ≡ same_scoring one other }
{
    match one {
        Scoring::Winner => is_winner(other),
        Scoring::Discs => !is_winner(other),
    }
}

impl<'f> Collector<'f> {
    /// A collector with no reply yet.
    pub fn new(frontier: &'f Frontier, scoring: Scoring) -> Collector<'f>
        ensures { result ≡ nothing_of frontier.now scoring }
    {
        let mut found = ArrayVec::new();
        for _ in 0..frontier.len() {
            found.push(None);
        }
        Collector {
            frontier,
            scoring,
            found,
        }
    }

    /// Takes the reply of a known item that has none yet, where it is of the item's board and under the
    /// collector's scoring. The collector is unchanged after each refusal.
    pub fn take(&mut self, reply: Reply) -> Result<(), Refusal>
        ensures variant { refusal self.old reply ≡ err_of result }
        ensures ok { OnOk result (self.new ≡ with_reply self.old reply) }
        ensures err { OnErr result (self.new ≡ self.old) }
    {
        let Some(item) = self.frontier.entry(reply.number) else {
            return Err(Refusal::Stranger);
        };
        let at = reply.number as usize;
        if self.found[at].is_some() {
            return Err(Refusal::Double);
        }
        if item.board != reply.solved.board {
            return Err(Refusal::OtherBoard);
        }
        if !same_scoring(self.scoring, reply.solved.scoring) {
            return Err(Refusal::OtherScoring);
        }
        self.found[at] = Some(reply.solved);
        Ok(())
    }

    /// What was found of the item of this number, if it has a reply.
    pub fn solved(&self, number: u32) -> Option<Solved>
        ensures { result ≡ joined (slice_get self.now.found number) }
    {
        match self.found.get(number as usize) {
            Some(found) => *found,
            None => None,
        }
    }
}
