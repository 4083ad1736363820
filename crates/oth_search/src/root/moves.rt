//! The moves of a root, each with its square, the board after it, and what is known of that.
ghost use Rattle.std.specs.Prelude.{◌≡◌, ◌≤◌, ◌↔◌, IsSome, IfSome, true, List, [], length};
ghost use Rattle.std.specs.List.{push};
ghost use Rattle.std.specs.List.Sorted.{IsPermutation};
ghost use Rattle.std.specs.Option.{MatchOption};
ghost use Rattle.oth_rules.specs.Laws.{IsLegal, IsScore};
ghost use Rattle.oth_rules.specs.Move.{after, can_move, legal_squares};
ghost use Rattle.oth_search.specs.Root.Moves.{IsRootMove, AreRootMoves, IsSurest};

use crate::bounds::{Interval, Solved, bounds_among, greater};
use crate::ordering::{order, order_by_parity};
use arrayvec::ArrayVec;
use oth_rules::{Board, Square};
use std::marker::Model;

/// A move of a root, and the board after it with bounds of its value.
#[derive(Clone, Copy, PartialEq, Eq, Debug, Default)]
pub struct RootMove {
    pub square: Square,
    pub child: Solved,
}

/// A root with bounds of its value, and each of its legal moves once with the board after it. Which move comes first,
/// and how close the bounds are, affects speed only.
#[derive(Drop, Debug)]
pub struct RootMoves {
    root: Solved,
    list: ArrayVec<RootMove, 64>,
}

impl Model for RootMoves {
    ghost use Rattle.oth_search.specs.Root.Moves.{Root, AreRootMoves};

    ghost Value = { Root };

    ghost view = { λ m. record { board = m.root.board; scoring = m.root.scoring } };

    ghost invariant = { λ m. AreRootMoves (record { board = m.root.board; scoring = m.root.scoring }) m.list.items };
}

impl RootMoves {
    /// The moves of the root in move order, with what is `known` of the boards after them.
    pub fn of(root: &Solved, known: &[Solved]) -> RootMoves
        ensures board { result.board ≡ root.now.board }
        ensures scoring { result.scoring ≡ root.now.scoring }
    {
        RootMoves::listed(root, known, order(&root.board))
    }

    /// As `of`, in an order that takes no look at what a move leaves, for moves of which all that is asked is known.
    pub fn unranked(root: &Solved, known: &[Solved]) -> RootMoves
        ensures board { result.board ≡ root.now.board }
        ensures scoring { result.scoring ≡ root.now.scoring }
    {
        RootMoves::listed(root, known, order_by_parity(&root.board))
    }

    // The moves of the root in the order of these squares.
    fn listed(root: &Solved, known: &[Solved], squares: ArrayVec<Square, 64>) -> RootMoves
        requires { IsPermutation (legal_squares root.now.board) squares.items }
        ensures board { result.board ≡ root.now.board }
        ensures scoring { result.scoring ≡ root.now.scoring }
    {
        let mut list = ArrayVec::new();
        for square in squares.as_slice() {
            let board = root.board.play_legal(*square);
            list.push(RootMove {
                square: *square,
                child: bounds_among(board, known, root.scoring),
            });
        }
        RootMoves { root: *root, list }
    }

    /// A copy of these moves and their bounds.
    pub fn another(&self) -> RootMoves
        ensures { result ≡ self.now }
    {
        self.copied_to(self.root)
    }

    /// These moves with what is known of the most that each gives: of the boards after them the lower bounds alone, and
    /// of the root nothing.
    pub fn without_least(&self) -> RootMoves
        ensures { result ≡ self.now }
    {
        let mut moves = self.copied_to(Solved::unknown(self.root.board, self.root.scoring));
        for place in 0..moves.len() {
            moves.forget_least(place);
        }
        moves
    }

    // A copy of these moves, with other bounds of the root.
    fn copied_to(&self, root: Solved) -> RootMoves
        requires board { root.board ≡ self.now.board }
        requires scoring { root.scoring ≡ self.now.scoring }
        ensures { result ≡ self.now }
    {
        let mut list = ArrayVec::new();
        for root_move in self.list.as_slice() {
            list.push(*root_move);
        }
        RootMoves { root, list }
    }

    // Forgets what the move at this place is known to give at least.
    fn forget_least(&mut self, place: usize)
        ensures { self.new ≡ self.old }
    {
        if place < self.list.len() {
            let known = self.list[place];
            self.list[place] = RootMove {
                square: known.square,
                child: with_lower(&known.child),
            };
        }
    }

    /// The root with its bounds.
    pub fn root(&self) -> Solved
        ensures board { result.board ≡ self.now.board }
        ensures scoring { result.scoring ≡ self.now.scoring }
    {
        self.root
    }

    /// The number of moves, 0 to 64.
    pub fn len(&self) -> usize
        ensures { result ≤ 64 }
    {
        self.list.len()
    }

    /// Each legal move once.
    pub fn as_slice(&self) -> &[RootMove]
        ensures moves { AreRootMoves self.now result.now }
        ensures fits { length result.now ≤ 64 }
    {
        self.list.as_slice()
    }

    /// The move at this place, from 0 on, if there is one.
    pub fn get(&self, place: usize) -> Option<RootMove>
        ensures { IfSome result (IsRootMove self.now) }
    {
        self.list.get(place).copied()
    }

    /// The board after the move to this square with what is known of it; `None` exactly if the move is illegal.
    pub fn known_after(&self, square: Square) -> Option<Solved>
        ensures variant { IsSome result ↔ IsLegal self.now.board square }
        ensures board { IfSome result (λ s. s.board ≡ after self.now.board square) }
        ensures scoring { IfSome result (λ s. s.scoring ≡ self.now.scoring) }
    {
        let child = self.root.board.play(square)?;
        Some(self.known(child))
    }

    // What is known of this board, if it is one after a move.
    fn known(&self, board: Board) -> Solved
        ensures board { result.board ≡ board }
        ensures scoring { result.scoring ≡ self.now.scoring }
    {
        let scoring = self.root.scoring;
        for root_move in self.list.as_slice() {
            let child = root_move.child;
            if child.board == board && child.scoring == scoring {
                return child;
            }
        }
        Solved::unknown(board, scoring)
    }

    /// The square of the move that `surest_of` tells. There is none exactly if there is no move.
    pub fn surest(&self) -> Option<Square>
        ensures variant { IsSome result ↔ (can_move self.now.board ≡ true) }
        ensures legal { IfSome result (IsLegal self.now.board) }
    {
        let root_move = surest_of(self.as_slice())?;
        Some(root_move.square)
    }

    /// The place of that move, 0 if there is no move.
    pub(crate) fn leader(&self) -> usize {
        match self.surest() {
            Some(square) => self.place_of(square),
            None => 0,
        }
    }

    /// The place of the move to this square, or the number of moves if it isn't legal: 0 to 64.
    pub fn place_of(&self, square: Square) -> usize
        ensures { result ≤ 64 }
    {
        for (place, root_move) in self.list.as_slice().iter().enumerate() {
            if root_move.square == square {
                return place;
            }
        }
        self.list.len()
    }

    /// Moves the move at this place to the front, if there is one.
    pub fn move_to_front(&mut self, place: usize)
        ensures { self.new ≡ self.old }
    {
        if place < self.list.len() {
            self.list.as_mut_slice().swap(0, place);
        }
    }

    /// Narrows the bounds of the board after the move at this place to what `found` tells of it. Bounds of another
    /// board, or under the other scoring, change nothing.
    pub fn narrow(&mut self, place: usize, found: &Solved)
        ensures { self.new ≡ self.old }
    {
        if place < self.list.len() {
            let known = self.list[place];
            self.list[place] = RootMove {
                square: known.square,
                child: known.child.joined(found),
            };
        }
    }

    /// Narrows the bounds of the boards after these moves to what the others tell of them.
    pub fn take_in(&mut self, others: &[RootMove])
        ensures { self.new ≡ self.old }
    {
        for other in others {
            let place = self.place_of(other.square);
            self.narrow(place, &other.child);
        }
    }

    /// Narrows the bounds of the root to what `found` tells of it. Bounds of another board, or under the other scoring,
    /// change nothing.
    pub fn narrow_root(&mut self, found: &Solved)
        ensures { self.new ≡ self.old }
    {
        self.root = self.root.joined(found);
    }

    /// The root with the bounds that its own and those of the boards after its moves tell together.
    pub fn backed_up(&self) -> Solved
        ensures board { result.board ≡ self.now.board }
        ensures scoring { result.scoring ≡ self.now.scoring }
    {
        if self.list.is_empty() {
            return self.root;
        }
        let mut lower = -64;
        let mut upper = -64;
        for root_move in self.list.as_slice() {
            let reply = root_move.child.interval;
            lower = greater(lower, -reply.upper);
            upper = greater(upper, -reply.lower);
        }
        let Solved { board, scoring, .. } = self.root;
        self.root.joined(&Solved {
            board,
            scoring,
            interval: Interval { lower, upper },
        })
    }

    /// The greatest score that the root is known to reach, -64 to 64.
    pub fn best(&self) -> i8
        ensures { IsScore result }
    {
        self.backed_up().interval.lower
    }
}

/// The first of these moves that are known to give the most, which are those after which the board has the least upper
/// bound. There is none exactly if there is no move.
pub fn surest_of(moves: &[RootMove]) -> Option<RootMove>
    ensures { MatchOption result (moves.now ≡ []) (IsSurest moves.now) }
{
    let mut surest = None;
    for root_move in moves {
        surest = Some(surer(surest, *root_move));
    }
    surest
}

// The board with the lower one of its bounds alone.
fn with_lower(known: &Solved) -> Solved
    ensures board { result.board ≡ known.now.board }
    ensures scoring { result.scoring ≡ known.now.scoring }
{
    match known.widen(known.interval.lower, 64) {
        Some(wider) => wider,
        None => *known,
    }
}

// The surest of some moves and the one behind them, by the surest of these moves.
fn surer(surest: Option<RootMove>, next: RootMove) -> RootMove
    ensures { (ms : List RootMove) → MatchOption surest (ms ≡ []) (IsSurest ms) → IsSurest (push ms next) result }
{
    let Some(root_move) = surest else {
        return next;
    };
    if next.child.interval.upper < root_move.child.interval.upper {
        next
    } else {
        root_move
    }
}
