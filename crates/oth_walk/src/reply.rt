//! The search of one item, the board after a reply to a move of the root, and what it tells.
ghost use Rattle.std.specs.Prelude.{◌≡◌, negsuc, pos, ◌≤ℤ◌};

use crate::announcing::Gate;
use crate::worker::Worker;
use oth_pieces::Item;
use oth_search::{Cells, Interval, NullWindow, RootMove, Solved, backed_up_from, put};

/// Searches the item of this number, of whose board this is known, unless bounds settle its move of the root, and tells
/// the others what follows from it alone. Returns what is known of the board then.
pub(crate) fn search_reply<G: Gate, C: Cells>(
    number: u32,
    item: &Item,
    known: &Solved,
    worker: &mut Worker<C, G>,
) -> Solved
    ensures board { result.board ≡ known.now.board }
    ensures scoring { result.scoring ≡ known.now.scoring }
{
    let place = worker.moves.place_of(item.square);
    let Some(root_move) = worker.heard(place) else {
        return *known;
    };
    let floor = worker.floor();
    let child = root_move.child;
    if child.is_settled(-floor) {
        return *known;
    }
    let score = asked(worker.tested_score(), child.interval);
    begin(number, &root_move, known, worker);
    let window = window_of(item, score);
    let found = known.narrowed_by_abdada(window, &mut worker.cells, &mut worker.peers);
    end(number, &found, worker);
    share(&root_move, &found, worker);
    found
}

// The search of the item of this number begins: marks its board, and announces it if nobody did.
fn begin<G: Gate, C: Cells>(
    number: u32,
    root_move: &RootMove,
    item: &Solved,
    worker: &mut Worker<C, G>,
) {
    let peers = &mut worker.peers;
    peers.begin_below(root_move);
    peers.hints.begin(&item.board);
    if let Some((number, known)) = peers.announcer.begin_item(number, item, &mut worker.cells) {
        peers.gate.known_before(number, &known);
        peers.gate.before(number);
        peers.announcer.tell(number);
    }
}

// That search has ended, and found these bounds.
fn end<G: Gate, C: Cells>(number: u32, found: &Solved, worker: &mut Worker<C, G>) {
    let peers = &mut worker.peers;
    if let Some(number) = peers.announcer.end_item(number, found) {
        peers.gate.known_after(number, &found.awake());
        peers.gate.after(number);
    }
    peers.hints.end(&found.board);
}

// The score that the item is to be tested against: the one that root moves are tested against, or the greatest that
// these bounds of the board after its move leave to the root, where that is less.
fn asked(score: i8, child: Interval) -> i8
    requires low { negsuc 62 ≤ℤ score }
    requires high { score ≤ℤ pos 64 }
    ensures low { negsuc 62 ≤ℤ result }
    ensures high { result ≤ℤ pos 64 }
{
    let most = -child.lower;
    if most < score && most > -64 {
        most
    } else {
        score
    }
}

// The null window that tells whether the item gives the root at least this score.
fn window_of(item: &Item, score: i8) -> NullWindow
    requires low { negsuc 62 ≤ℤ score }
    requires high { score ≤ℤ pos 64 }
{
    let window = NullWindow::at(score);
    if item.same_mover {
        window
    } else {
        window.turned()
    }
}

// Tells the others what follows from the bounds of this board alone, one ply below the root's move: bounds of the board
// after the move by the cells, and of the root by the floor.
fn share<G: Gate, C: Cells>(root_move: &RootMove, found: &Solved, worker: &mut Worker<C, G>) {
    if found.interval == Interval::all() {
        return;
    }
    let known = backed_up_from(root_move.child.board, 1, &[*found], found.scoring);
    put(&known, &mut worker.cells);
    worker.update(root_move.square, &known);
}
