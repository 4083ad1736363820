//! The root driver. Keeps bounds of each root move, and narrows them by null windows until every move is exact or known
//! to be worse than the best. The moves are asked at a first guess until one reaches it. That one is searched to its
//! value by null windows ever further below its upper bound, as in MTD(f) (Plaat, Schaeffer, Pijls and de Bruin,
//! Best-first fixed-depth minimax algorithms, 1996). Each other one is asked whether it is worse, and leads from then
//! on where it is better. One worker and several search by these functions: what workers tell each other goes through
//! `RootPeers`.
ghost use Rattle.std.specs.Prelude.{◌≡◌, ◌≤ℤ◌, ◌<ℤ◌, pos, negsuc};
ghost use Rattle.oth_rules.specs.Laws.{IsScore};
ghost use Rattle.oth_search.specs.Bounds.Interval.{IsThreshold};

use super::guess::guess;
use super::moves::{RootMove, RootMoves};
use super::pace::Pace;
use super::root_peers::RootPeers;
use crate::bounds::{Cells, Interval, lesser};
use crate::tuning::{FIRST_BOUND_ROUNDS, GUESS_MIN_EMPTIES, MOST_FRUITLESS};

// Null windows of one search for a value, at the most: each leaves fewer of the 129 scores.
const MOST_QUESTIONS: u8 = 128;

/// What the search of the boards after a root's moves is to find.
#[derive(Clone, Copy)]
pub struct RootGoal {
    /// The threshold that they are first asked at.
    pub start: i8,
    /// Whether each move that is as good as the best is told from the rest. Without it only the best value is wanted.
    pub tells_ties: bool,
    pub ghost range: { IsThreshold start },
}

impl RootGoal {
    // A child whose value is above this needs no more search, where one is known to have at most `best`: `best` itself
    // if ties are wanted, else one less.
    fn threshold(self, best: i8) -> i8
        requires { IsScore best }
        ensures low { negsuc 64 ≤ℤ result }
        ensures high { result ≤ℤ pos 64 }
    {
        if self.tells_ties { best } else { best - 1 }
    }
}

/// Narrows the bounds of the boards after the root's moves: one with the best score is searched to its value, and each
/// other until it is exact or worse, unless the peers end the search. A board of which as much is known is not
/// searched. The peers hear of each search of such a board by `before` and `after`. The first guess, which comes
/// before them where many squares are empty, calls neither.
pub fn settle_moves<C: Cells, O: RootPeers<C>>(moves: &mut RootMoves, cells: &mut C, peers: &mut O)
    ensures root { moves.new ≡ moves.old }
    ensures fixed { C.fixed cells.new ≡ C.fixed cells.old }
{
    let mut round = Round::first(first_threshold(moves, cells, peers));
    settle(moves, true, &mut round, cells, peers);
}

/// The threshold of the first null window: the best known bound if there is one, else a guess from 12 empty squares on,
/// else 0. Of the guess the peers hear only what guesses tell each other.
pub fn first_threshold<C: Cells, O: RootPeers<C>>(
    moves: &mut RootMoves,
    cells: &mut C,
    peers: &mut O,
) -> i8
    ensures threshold { IsThreshold result }
    ensures root { moves.new ≡ moves.old }
    ensures fixed { C.fixed cells.new ≡ C.fixed cells.old }
{
    let least = -moves.best();
    if least < 64 {
        return least;
    }
    if moves.root().board.empties() < GUESS_MIN_EMPTIES {
        return 0;
    }
    lesser(63, guess(moves, 0, cells, peers))
}

/// Narrows the bounds of the boards after the moves, which are asked from this `round` on: of the leader first, then of
/// each other. `tells_ties` as a `RootGoal` has it, whose start is the threshold of the first round.
pub(crate) fn settle<C: Cells, O: RootPeers<C>>(
    moves: &mut RootMoves,
    tells_ties: bool,
    round: &mut Round,
    cells: &mut C,
    peers: &mut O,
)
    ensures root { moves.new ≡ moves.old }
    ensures fixed { C.fixed cells.new ≡ C.fixed cells.old }
{
    ask_in_rounds(moves, round, cells, peers);
    let goal = RootGoal {
        start: round.first,
        tells_ties,
    };
    let leader = moves.leader();
    settle_at(moves, leader, goal, cells, peers);
    for place in 0..moves.len() {
        settle_at(moves, place, goal, cells, peers);
    }
}

/// Asks the boards after the moves at the threshold of this round, and while all are above it in further rounds at
/// higher ones, until an upper bound below 64 is known of one or the search is over. `round` is then the last one
/// asked, or the next if none of `FIRST_BOUND_ROUNDS` rounds gave a bound.
pub fn ask_in_rounds<C: Cells, O: RootPeers<C>>(
    moves: &mut RootMoves,
    round: &mut Round,
    cells: &mut C,
    peers: &mut O,
)
    ensures root { moves.new ≡ moves.old }
    ensures fixed { C.fixed cells.new ≡ C.fixed cells.old }
{
    for _ in 0..FIRST_BOUND_ROUNDS {
        for place in 0..moves.len() {
            if is_bounded(moves, cells, peers) {
                return;
            }
            refreshed(moves, place, cells, peers);
            ask_at(moves, place, round.at, cells, peers);
        }
        if is_bounded(moves, cells, peers) {
            return;
        }
        *round = round.after(least_lower(moves));
    }
}

// Whether an upper bound below 64 is known of a board after a move, or the search is over.
fn is_bounded<C: Cells, O: RootPeers<C>>(moves: &RootMoves, cells: &C, peers: &mut O) -> bool {
    best(moves, peers) < 64 || peers.is_over(cells)
}

/// A round in which the boards after a root's moves are asked at one threshold.
#[derive(Clone, Copy)]
pub struct Round {
    /// The threshold of the first round, and of this one.
    pub first: i8,
    pub at: i8,
    // How far beyond what this one finds the next one asks.
    pace: Pace,
    ghost start: { IsThreshold first },
    ghost threshold: { IsThreshold at },
}

impl Round {
    /// The first round, at this threshold.
    pub fn first(start: i8) -> Round
        requires { IsThreshold start }
    {
        Round {
            first: start,
            at: start,
            pace: Pace::new(),
        }
    }

    // The round after this one, by which each of the boards has at least `least`.
    fn after(self, least: i8) -> Round
        requires { IsScore least }
    {
        Round {
            first: self.first,
            at: lesser(63, least + (self.pace.step - 1)),
            pace: self.pace.after(true),
        }
    }
}

/// Asks whether the board after the move at `place` has at most `most`, unless it is known to have more. Returns
/// whether it has. The peers hear of the search.
pub fn ask_at<C: Cells, O: RootPeers<C>>(
    moves: &mut RootMoves,
    place: usize,
    most: i8,
    cells: &mut C,
    peers: &mut O,
) -> bool
    requires { IsThreshold most }
    ensures root { moves.new ≡ moves.old }
    ensures fixed { C.fixed cells.new ≡ C.fixed cells.old }
{
    let Some(known) = moves.get(place) else {
        return false;
    };
    if known.child.interval.lower > most {
        return false;
    }
    peers.begin_move(&known);
    let found = peers.decide(&known, most, cells);
    moves.narrow(place, &found);
    peers.end_move(&known, &*moves);
    found.interval.upper <= most
}

// The move at `place`, if there is one, with what is known of the board after it by now, whoever found it.
fn refreshed<C: Cells, O: RootPeers<C>>(
    moves: &mut RootMoves,
    place: usize,
    cells: &mut C,
    peers: &mut O,
) -> Option<RootMove>
    ensures root { moves.new ≡ moves.old }
    ensures fixed { C.fixed cells.new ≡ C.fixed cells.old }
{
    let known = moves.get(place)?;
    let told = peers.known_by_now(&known.child, cells);
    moves.narrow(place, &told);
    moves.get(place)
}

/// Narrows the bounds of the board after the move at `place` until it is exact or worse than the best, or nobody needs
/// it. The peers hear of it, unless nothing is to be searched.
pub fn settle_at<C: Cells, O: RootPeers<C>>(
    moves: &mut RootMoves,
    place: usize,
    goal: RootGoal,
    cells: &mut C,
    peers: &mut O,
)
    ensures root { moves.new ≡ moves.old }
    ensures fixed { C.fixed cells.new ≡ C.fixed cells.old }
{
    if peers.is_over(cells) {
        return;
    }
    let Some(known) = refreshed(moves, place, cells, peers) else {
        return;
    };
    let best = best(moves, peers);
    if known.child.is_settled(goal.threshold(best)) || peers.is_done(known.square) {
        return;
    }
    peers.begin_move(&known);
    let mut course = Course::to(goal);
    for _ in 0..MOST_QUESTIONS {
        if !course.ask(moves, place, cells, peers) {
            break;
        }
    }
    peers.end_move(&known, &*moves);
}

// The null windows by which a board after a move is settled.
#[derive(Drop)]
struct Course {
    goal: RootGoal,
    pace: Pace,
    // The best upper bound of the others when the board was last compared with it. Steps widen only below it.
    others_best: i8,
    // Null windows so far that told nothing new.
    fruitless: u8,
}

impl Course {
    // The course to this goal, at its start.
    fn to(goal: RootGoal) -> Course {
        Course {
            goal,
            pace: Pace::new(),
            others_best: 65,
            fruitless: 0,
        }
    }

    // Narrows the bounds of the board after the move at `place` by the next null window. Returns whether another one
    // may follow: none does where the board is settled, the search is over, or `MOST_FRUITLESS` told nothing new.
    fn ask<C: Cells, O: RootPeers<C>>(
        &mut self,
        moves: &mut RootMoves,
        place: usize,
        cells: &mut C,
        peers: &mut O,
    ) -> bool
        ensures root { moves.new ≡ moves.old }
        ensures fixed { C.fixed cells.new ≡ C.fixed cells.old }
    {
        let Some(known) = moves.get(place) else {
            return false;
        };
        let bounds = known.child.interval;
        let best = best(moves, peers);
        let threshold = self.goal.threshold(best);
        if self.fruitless == MOST_FRUITLESS
            || known.child.is_settled(threshold)
            || peers.is_done(known.square)
        {
            return false;
        }
        let is_behind = bounds.upper > best;
        let alpha = if is_behind {
            threshold
        } else {
            peers.next(bounds, self.goal.start, self.pace)
        };
        let found = peers.decide(&known, alpha, cells);
        moves.narrow(place, &found);
        if is_behind {
            self.others_best = best;
        } else if bounds.upper < self.others_best {
            self.pace = self.pace.after(leads_on(bounds, found.interval));
        }
        if found.interval == bounds {
            self.fruitless = self.fruitless.saturating_add(1);
        }
        !peers.is_over(cells)
    }
}

// Whether a null window led on: the upper bound is lower than before, or still 64.
fn leads_on(before: Interval, after: Interval) -> bool {
    after.upper < before.upper || after.upper == 64
}

// The least upper bound that is known of a board after a move, whoever searched it, or that the root's bound gives.
fn best<C: Cells, O: RootPeers<C>>(moves: &RootMoves, peers: &mut O) -> i8
    ensures { IsScore result }
{
    peers.best(-moves.best())
}

// The least lower bound of the boards after the moves.
fn least_lower(moves: &RootMoves) -> i8
    ensures { IsScore result }
{
    let mut least = 64;
    for root_move in moves.as_slice() {
        least = lesser(least, root_move.child.interval.lower);
    }
    least
}
