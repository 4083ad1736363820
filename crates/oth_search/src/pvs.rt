//! Principal variation search: a window of any width and one threshold, over a table. The first child gets the whole
//! window; a later one a null window, and a search again from what that found upwards only if it lies inside the
//! window. `WithinAt v alpha beta r` says that `r < beta` gives `v <= r` and `alpha < r` gives `r <= v`; at a width
//! of one it is `BoundsAt`.
ghost use Rattle.std.specs.Prelude.{◌≡◌, ℤ, ◌<◌, ◌≤ℤ◌, ◌<ℤ◌, ◌+ℤ◌, neg_ℤ, pos, true};
ghost use Rattle.oth_rules.specs.Position.{empty_count};
ghost use Rattle.oth_rules.specs.Move.{can_move};
ghost use Rattle.oth_rules.specs.Score.{score_of};
ghost use Rattle.oth_rules.specs.Value.{value};
ghost use Rattle.oth_rules.specs.Symmetry.{canonical};
ghost use Rattle.oth_search.specs.Bounds.Interval.{IsThreshold, IsWindow, Encloses, Decides, IsOpen, WithinAt, IsInner};

use crate::bounds::{Cells, Entry, Interval, Solved, greater, lesser};
use crate::nws::{by_table, nws_with};
use crate::ordering::order;
use oth_rules::{Board, Scoring};

/// Bounds of the value of the board that decide the window `alpha..beta`, `-65 <= alpha < beta <= 65`: they are one
/// number, or the lower is at least `beta`, or the upper at most `alpha`. Unless the board is over, it is first looked
/// up in its canonical form, and if the entry doesn't decide, what a search finds is stored.
pub fn search<C: Cells>(
    board: &Board,
    alpha: i8,
    beta: i8,
    cells: &mut C,
    scoring: Scoring,
) -> Interval
    requires { IsWindow alpha beta }
    ensures encloses { Encloses result.lower result.upper (value (score_of scoring) board.now) }
    ensures decides { Decides result.lower result.upper alpha beta }
    ensures fixed { C.fixed cells.new ≡ C.fixed cells.old }
{
    if board.is_over() {
        return Interval::exactly(board.final_score(scoring));
    }
    let found = by_table(&board.canonical().0, cells, scoring);
    if found.interval.decides(alpha, beta) {
        return found.interval;
    }
    let solved = narrow(*board, found, alpha, beta, cells);
    let interval = solved.interval;
    cells.put(&Entry::canonical(&solved));
    interval
}

impl Solved {
    /// The board with the bounds that `search` finds.
    pub fn by_search<C: Cells>(
        board: &Board,
        alpha: i8,
        beta: i8,
        cells: &mut C,
        scoring: Scoring,
    ) -> Solved
        requires { IsWindow alpha beta }
        ensures board { result.board ≡ board.now }
        ensures scoring { result.scoring ≡ scoring }
        ensures decides { Decides result.interval.lower result.interval.upper alpha beta }
        ensures fixed { C.fixed cells.new ≡ C.fixed cells.old }
    {
        let interval = search(board, alpha, beta, cells, scoring);
        Solved {
            board: *board,
            scoring,
            interval,
        }
    }

    /// The board with bounds that decide whether its value is above `alpha`, by one null-window search.
    pub fn by_null_window<C: Cells>(
        board: &Board,
        alpha: i8,
        cells: &mut C,
        scoring: Scoring,
    ) -> Solved
        requires { IsThreshold alpha }
        ensures board { result.board ≡ board.now }
        ensures scoring { result.scoring ≡ scoring }
        ensures decides { Decides result.interval.lower result.interval.upper alpha (alpha +ℤ pos 1) }
        ensures fixed { C.fixed cells.new ≡ C.fixed cells.old }
    {
        let found = nws_with(*board, alpha, cells, scoring);
        Solved::unknown(*board, scoring).narrowed(alpha, found)
    }

    /// What the cells tell of the board, by its canonical image. Nothing where they have no table.
    pub fn looked_up<C: Cells>(board: &Board, cells: &mut C, scoring: Scoring) -> Solved
        ensures board { result.board ≡ board.now }
        ensures scoring { result.scoring ≡ scoring }
        ensures fixed { C.fixed cells.new ≡ C.fixed cells.old }
    {
        if !cells.has_table() {
            return Solved::unknown(*board, scoring);
        }
        let found = by_table(&board.canonical().0, cells, scoring);
        Solved {
            board: *board,
            scoring,
            interval: found.interval,
        }
    }
}

// Narrows `known`, the bounds of the canonical image, until they decide the window, by a search of the board. What that
// finds is a bound at both edges: what a null window at `low` could find, and one just below `high`.
fn narrow<C: Cells>(board: Board, known: Solved, alpha: i8, beta: i8, cells: &mut C) -> Solved
    requires window { IsWindow alpha beta }
    requires open { IsOpen known.interval.lower known.interval.upper alpha beta }
    requires image { known.board ≡ canonical board }
    ensures board { result.board ≡ known.board }
    ensures scoring { result.scoring ≡ known.scoring }
    ensures decides { Decides result.interval.lower result.interval.upper alpha beta }
    ensures fixed { C.fixed cells.new ≡ C.fixed cells.old }
{
    let low = greater(alpha, known.interval.lower);
    let high = lesser(beta, known.interval.upper);
    let found = search_window(board, low, high, cells, known.scoring);
    known.narrowed(low, found).narrowed(high - 1, found)
}

/// Returns the value if it lies inside the window, else a bound of it on its side of the window.
#[cycle(window)]
pub fn search_window<C: Cells>(
    board: Board,
    alpha: i8,
    beta: i8,
    cells: &mut C,
    scoring: Scoring,
) -> i8
    requires { IsInner alpha beta }
    ensures value { WithinAt (value (score_of scoring) board) alpha beta result }
    ensures fixed { C.fixed cells.new ≡ C.fixed cells.old }
{
    if board.moves() != 0 {
        return search_moves(board, alpha, beta, cells, scoring);
    }
    let passed = board.pass();
    if passed.moves() != 0 {
        return -search_moves(passed, -beta, -alpha, cells, scoring);
    }
    board.final_score(scoring)
}

// As `search_window`, of a board whose mover has a move.
#[cycle(window)]
fn search_moves<C: Cells>(board: Board, alpha: i8, beta: i8, cells: &mut C, scoring: Scoring) -> i8
    requires window { IsInner alpha beta }
    requires some { can_move board ≡ true }
    ensures value { WithinAt (value (score_of scoring) board) alpha beta result }
    ensures fixed { C.fixed cells.new ≡ C.fixed cells.old }
{
    let mut best = -64;
    let squares = order(&board);
    for square in squares.as_slice() {
        let low = greater(alpha, best);
        let is_first = best == -64;
        let score = search_child(
            board.play_legal(*square),
            low,
            beta,
            is_first,
            cells,
            scoring,
        );
        if score >= beta {
            return score;
        }
        best = greater(best, score);
    }
    best
}

// The score of the move to `child`. The first move is searched with the whole window, each later one with a null
// window, and again only if what that finds lies inside the window.
#[cycle(window)]
fn search_child<C: Cells>(
    child: Board,
    alpha: i8,
    beta: i8,
    is_first: bool,
    cells: &mut C,
    scoring: Scoring,
) -> i8
    requires { IsInner alpha beta }
    ensures value { WithinAt (neg_ℤ (value (score_of scoring) child)) alpha beta result }
    ensures fixed { C.fixed cells.new ≡ C.fixed cells.old }
{
    if is_first && beta - 1 != alpha {
        return -search_window(child, -beta, -alpha, cells, scoring);
    }
    let found = -nws_with(child, -alpha - 1, cells, scoring);
    if found <= alpha {
        return found;
    }
    if found >= beta {
        return found;
    }
    greater(found, -search_window(child, -beta, -found, cells, scoring))
}
