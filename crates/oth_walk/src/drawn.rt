//! The search of drawn items, and of the root moves that they leave open. The first reply to a move is searched before
//! the others are shared out: young brothers wait (Feldmann, Monien, Mysliwietz and Vornberger, Distributed game-tree
//! search, 1989).
//!
//! Until the root has a floor a worker helps to find one (`find_first_bound`). Then it helps with the root's first
//! move until that is settled, searches the first reply (the elder brother) if its item isn't that one, then its item
//! with a null window at the floor, and then what is left open of the move (`settle_at`). Without a table, or over a
//! small one, nothing could be looked up, so a worker takes the item's whole move of the root, unless another one is at
//! it; until there is a floor it asks the move just once for what the root seems to reach (`Worker::ask`), so that none
//! but a move that may reach it is searched to its value.
ghost use Rattle.std.specs.Prelude.{◌≡◌};

use crate::announcing::Gate;
use crate::reply::search_reply;
use crate::shared::Search;
use crate::tuning::{FINAL_ROUNDS, LAST_FINAL_ROUND, MOVES_BEFORE, MOVES_TOGETHER};
use crate::worker::Worker;
use oth_pieces::{Item, awake};
use oth_rules::Square;
use oth_search::{Cells, RootMove, Solved};

/// Searches the item of this number, if nobody did and no bounds settle its move of the root, and what it leaves open
/// of that move. Returns what is known of the item's board then.
pub fn search_item<G: Gate, C: Cells>(
    search: &Search,
    number: u32,
    item: &Item,
    worker: &mut Worker<C, G>,
) -> Solved
    ensures board { result.board ≡ item.now.board }
    ensures scoring { result.scoring ≡ search.now.scoring }
{
    let unknown = Solved::unknown(item.board, search.scoring);
    search_below(search, number, item, worker);
    worker.tell();
    let known = worker.known_of_item(number, &unknown);
    worker.look_up(&known)
}

// Searches the item, and settles its root move.
fn search_below<G: Gate, C: Cells>(
    search: &Search,
    number: u32,
    item: &Item,
    worker: &mut Worker<C, G>,
) {
    worker.move_to_front();
    if !worker.peers.shares() {
        settle_alone(item.square, worker);
        return;
    }
    worker.find_first_bound();
    worker.tell();
    settle_before(item.square, worker);
    worker.tell();
    let place = worker.moves.place_of(item.square);
    let Some(root_move) = worker.heard(place) else {
        return;
    };
    if root_move.child.is_settled(-worker.floor()) {
        return;
    }
    search_elder_brother(search, number, &root_move, worker);
    if !is_move(item, &root_move) {
        let unknown = Solved::unknown(item.board, search.scoring);
        search_reply(number, item, &unknown, worker);
    }
    worker.settle_at(place);
}

// Whether the item is the board after the move itself, and not one after a reply.
fn is_move(item: &Item, root_move: &RootMove) -> bool {
    item.board == awake(root_move.child.board).0
}

// Takes the whole move, unless another worker has it, from whom nothing could be learnt
// on the way. Before there is a floor it asks once at the guess, and goes on only if the move may reach it.
fn settle_alone<G: Gate, C: Cells>(square: Square, worker: &mut Worker<C, G>) {
    let place = worker.moves.place_of(square);
    let Some(root_move) = worker.heard(place) else {
        return;
    };
    if worker.peers.hints.is_searched(&root_move.child.board) {
        return;
    }
    if worker.floor() > -64 || worker.ask(&root_move) {
        worker.settle_at(place);
    }
}

// Helps to settle the first `MOVES_BEFORE` root moves, as far as they come before the one to this square.
fn settle_before<G: Gate, C: Cells>(square: Square, worker: &mut Worker<C, G>) {
    let places = worker.moves.place_of(square).min(MOVES_BEFORE);
    for place in 0..places {
        worker.settle_at(place);
    }
}

// Helps with the first reply to the move, unless that is the item of this number.
fn search_elder_brother<G: Gate, C: Cells>(
    search: &Search,
    number: u32,
    root_move: &RootMove,
    worker: &mut Worker<C, G>,
) {
    let Some(elder) = elder_brother(root_move, worker) else {
        return;
    };
    if elder == number {
        return;
    }
    if let Some(item) = search.frontier.entry(elder) {
        let unknown = Solved::unknown(item.board, search.scoring);
        search_reply(elder, &item, &unknown, worker);
    }
}

// The number of the item after the first reply to the move, if it is an item.
fn elder_brother<G: Gate, C: Cells>(
    root_move: &RootMove,
    worker: &mut Worker<C, G>,
) -> Option<u32> {
    let (child, _) = awake(root_move.child.board);
    let squares = worker.peers.order_of(&child);
    let board = child.play(*squares.first()?)?;
    worker
        .peers
        .announcer
        .number_below(root_move.square, &board)
}

/// Settles the root moves that are still open, when no item is left.
pub fn settle_all<G: Gate, C: Cells>(worker: &mut Worker<C, G>) {
    let rounds = if worker.peers.shares() {
        FINAL_ROUNDS
    } else {
        1
    };
    worker.move_to_front();
    for round in 0..rounds {
        for place in 0..worker.moves.len() {
            settle_in_round(place, round, worker);
            worker.tell();
        }
    }
}

// Settles the move at this place, unless it is deferred in this round.
fn settle_in_round<G: Gate, C: Cells>(place: usize, round: u32, worker: &mut Worker<C, G>) {
    let Some(known) = worker.moves.get(place) else {
        return;
    };
    let together = worker.peers.shares() && worker.settled() < MOVES_TOGETHER;
    if together
        || round == LAST_FINAL_ROUND
        || !worker.peers.hints.is_searched(&known.child.board)
    {
        worker.settle_at(place);
    }
}
