//! One worker of a search: what it searches over, what it knows of the root, and what it has found.
ghost use Rattle.std.specs.Prelude.{◌≡◌, pos, negsuc, ◌≤ℤ◌};
ghost use Rattle.oth_search.specs.Bounds.Interval.{IsThreshold};

use crate::announcing::Gate;
use crate::guess::Guess;
use crate::peers::Peers;
use crate::shared::{Search, Seats};
use oth_rules::Square;
use oth_search::{
    Cells, RootGoal, RootMove, RootMoves, RootPeers, Round, Solved, ask_in_rounds, first_threshold,
    settle_at,
};
use std::alloc::Global;

/// One worker: its cells, its view of the others, and its bounds of the root's moves.
#[derive(Drop)]
pub struct Worker<'w, C, G> {
    pub(crate) cells: C,
    pub(crate) peers: Peers<'w, G>,
    // The score that the root seems to have, and the move by which it seems to, once it was guessed.
    guess: Option<Guess>,
    /// The root's moves, with the bounds that it knows, in the order in which they are searched.
    pub moves: RootMoves,
}

impl<'w, C: Cells, G: Gate> Worker<'w, C, G> {
    /// A worker that has searched nothing yet. Its lists take memory as they grow; if there is none they keep less.
    pub fn of(
        search: &Search,
        alloc: Global,
        cells: C,
        seats: Seats<'w>,
        gate: &'w G,
    ) -> Worker<'w, C, G> {
        Worker {
            cells,
            peers: Peers::of(alloc, search, seats, gate),
            guess: None,
            moves: search.moves.another(),
        }
    }

    /// The greatest score that the root is known to reach by now.
    pub fn floor(&mut self) -> i8
        ensures low { negsuc 63 ≤ℤ result }
        ensures high { result ≤ℤ pos 64 }
    {
        self.peers.root_bound.floor()
    }

    /// The root with the floor as its lower bound.
    pub fn root(&mut self) -> Solved {
        self.peers.root_bound.root()
    }

    /// Whether bounds settle the root's move: this worker's, or those that another one told.
    pub fn is_settled(&mut self, square: Square) -> bool {
        self.peers.is_settled(square)
    }

    /// What this worker has found of the item of this number, and `known`.
    pub fn known_of_item(&self, number: u32, known: &Solved) -> Solved
        ensures board { result.board ≡ known.now.board }
        ensures scoring { result.scoring ≡ known.now.scoring }
    {
        self.peers.announcer.known_of_item(number, known)
    }

    /// The move at this place, if there is one, with what this worker, the others and the table know of the board after
    /// it.
    pub(crate) fn heard(&mut self, place: usize) -> Option<RootMove> {
        let known = self.moves.get(place)?;
        let told = self.peers.with_told(&known);
        let told = self.look_up(&told);
        self.moves.narrow(place, &told);
        self.moves.get(place)
    }

    /// Tells the gate how far the search is, if it follows that and has heard of an item.
    pub(crate) fn tell(&mut self) {
        let gate = self.peers.gate;
        if gate.follows() && self.peers.announcer.has_begun() {
            let root = self.known_of_root();
            let settled = self.settled();
            gate.goes_on(&root, settled);
        }
    }

    /// How many of the root's moves need no further search.
    pub fn settled(&mut self) -> u64 {
        self.peers.settled()
    }

    /// Takes in bounds of the board after the root's move to this square: raises the floor by them, and tells the
    /// others if the move needs no further search.
    pub fn update(&mut self, square: Square, found: &Solved) {
        let place = self.moves.place_of(square);
        self.moves.narrow(place, found);
        if let Some(known) = self.moves.get(place) {
            self.peers.raise_by(&known);
            self.peers.note_if_settled(&known);
        }
    }

    /// What is known of the board, and what the table has of it.
    pub(crate) fn look_up(&mut self, known: &Solved) -> Solved
        ensures board { result.board ≡ known.now.board }
        ensures scoring { result.scoring ≡ known.now.scoring }
    {
        self.peers.known_by_now(known, &mut self.cells)
    }

    /// Asks the root's moves at the guessed score until there is a floor, the move that seems best first. Where no move
    /// reaches it, asks at lower scores.
    pub(crate) fn find_first_bound(&mut self) {
        if self.floor() > -64 {
            return;
        }
        let guess = self.guess();
        let mut round = Round::first(first_asked(guess.score));
        ask_in_rounds(
            &mut self.moves,
            &mut round,
            &mut self.cells,
            &mut self.peers,
        );
        self.guess = Some(Guess::of(-round.at, guess.square));
    }

    /// Searches the move at this place until its value is exact, or is known to give the root less than the floor.
    pub(crate) fn settle_at(&mut self, place: usize) {
        let _ = self.heard(place);
        let goal = self.goal();
        let moves = &mut self.moves;
        settle_at(moves, place, goal, &mut self.cells, &mut self.peers);
        if let Some(known) = self.moves.get(place) {
            self.peers.note_if_settled(&known);
        }
    }

    /// Searches this move of the root at the guessed score, unless it is known to fall short. Returns whether it may
    /// reach the guess.
    pub(crate) fn ask(&mut self, known: &RootMove) -> bool {
        let most = first_asked(self.guess().score);
        let RootMove { square, child } = *known;
        let hints = &mut self.peers.hints;
        if child.interval.lower > most || hints.seen(&child.board, most + 1) == Some(true) {
            return false;
        }
        self.peers.hints.begin(&child.board);
        let found = self.peers.decide(known, most, &mut self.cells);
        self.peers.hints.end(&child.board);
        self.update(square, &found);
        if found.interval.lower > most {
            self.peers.hints.tell_seen(&child.board, most + 1, true);
        }
        found.interval.lower <= most
    }

    // The goal for the root's moves: it starts at the guessed score, or without a guess at the floor.
    fn goal(&mut self) -> RootGoal {
        let score = match self.known_guess() {
            Some(guess) => guess.score,
            None => self.tested_score(),
        };
        RootGoal {
            start: first_asked(score),
            tells_ties: true,
        }
    }

    /// The score that root moves are tested against: the floor, or the guess where there is none.
    pub(crate) fn tested_score(&mut self) -> i8
        ensures low { negsuc 62 ≤ℤ result }
        ensures high { result ≤ℤ pos 64 }
    {
        let floor = self.floor();
        if floor > -64 {
            return floor;
        }
        self.guess().score
    }

    // The guess that this worker made, or else what another one told.
    fn known_guess(&mut self) -> Option<Guess> {
        match self.guess {
            Some(guess) => Some(guess),
            None => self.peers.hints.guess(),
        }
    }

    // The score that the root seems to have, and its move: the guess made before or told by another worker, or else one
    // that is made now.
    fn guess(&mut self) -> Guess {
        match self.known_guess() {
            Some(guess) => guess,
            None => self.make_guess(),
        }
    }

    // Makes the guess, together with the others where that pays, and then tells them. Where workers share the search
    // but the root is too small for that, the guess is a draw.
    fn make_guess(&mut self) -> Guess {
        let is_shared = self.peers.guesses();
        let asked = if self.peers.shares() && !is_shared {
            0
        } else {
            first_threshold(&mut self.moves, &mut self.cells, &mut self.peers)
        };
        let first = match self.moves.get(0) {
            Some(root_move) => root_move.square,
            None => Square::numbered(0),
        };
        let guess = Guess::of(-asked, first);
        self.guess = Some(guess);
        if is_shared {
            self.peers.hints.tell_guess(&guess);
        }
        guess
    }

    /// Moves the guessed move to the front of the moves, if there is a guess.
    pub(crate) fn move_to_front(&mut self) {
        if let Some(guess) = self.known_guess() {
            let place = self.moves.place_of(guess.square);
            self.moves.move_to_front(place);
        }
    }

    // Bounds of the root: by the floor, and by what the table and this worker's own searches tell of the boards after
    // its moves.
    fn known_of_root(&mut self) -> Solved {
        for place in 0..self.moves.len() {
            self.heard(place);
        }
        self.root().joined(&self.moves.backed_up())
    }
}

// The threshold at which a root is asked first that seems to reach this score.
fn first_asked(score: i8) -> i8
    requires low { negsuc 63 ≤ℤ score }
    requires high { score ≤ℤ pos 64 }
    ensures { IsThreshold result }
{
    -score.max(-63)
}
