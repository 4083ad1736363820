//! A board as its mover sees it. `symmetry` has its images.
ghost use Rattle.std.specs.Prelude.{◌≡◌, ◌<◌, ◌≤◌, ◌↔◌, bit_and, IsErr, IfOk, IsTrue, SomeIff, false};
ghost use Rattle.oth_rules.specs.Square.{word_of, is_in};
ghost use Rattle.oth_rules.specs.Position.{Position, IsBoard, empty_count, is_empty, pass};
ghost use Rattle.oth_rules.specs.Move.{flipped_along, is_flipped, is_legal, can_move, is_over, after};
ghost use Rattle.oth_rules.specs.Score.{winner_score, disc_difference, score_of};
ghost use Rattle.oth_rules.specs.Value.{value};
ghost use Rattle.oth_rules.specs.Laws.{IsLegal};
ghost use Rattle.oth_rules.specs.Line.{direction_of, outflanks};

mod symmetry;

use crate::direction::Compass;
use crate::scoring::Scoring;
use crate::square::Square;
use crate::twin::Twin;
use std::marker::Model;
use thiserror::Error;

/// A position as its mover sees it: the mover's discs and the opponent's, bit `n` of each word for square `n`. No
/// square has a disc of both.
///
/// Every such board is a board, whether or not a game reaches it.
#[derive(Clone, Copy, PartialEq, Eq, Debug, Default)]
pub struct Board {
    own: u64,
    opp: u64,
}

/// Refusal 1 of [`Board::of`]: the two words share a square.
#[derive(Clone, Copy, PartialEq, Eq, Debug, Error)]
#[error("a square has discs of both")]
pub struct Overlap;

impl Model for Board {
    ghost use Rattle.oth_rules.specs.Position.{Position, IsBoard};

    ghost Value = { Position };

    ghost view = { λ b. record { own = b.own; opp = b.opp } };

    ghost invariant = { λ b. IsBoard (record { own = b.own; opp = b.opp }) };

    ghost inverse = { λ p. record { own = p.own; opp = p.opp } };
}

impl Board {
    /// The board of these discs of the mover and of the opponent; refused exactly if a square is in both words.
    pub fn of(own: u64, opp: u64) -> Result<Board, Overlap>
        ensures refused { IsErr result ↔ (0 < bit_and own opp) }
        ensures value { IfOk result (λ b. b ≡ record { own = own; opp = opp }) }
        ensures board { IfOk result (λ b. IsBoard b) }
    {
        if own & opp != 0 {
            return Err(Overlap);
        }
        Ok(Board { own, opp })
    }

    // The board of two words that share no square.
    pub(crate) fn of_words(own: u64, opp: u64) -> Board
        requires { IsBoard (record { own = own; opp = opp }) }
        ensures { result ≡ record { own = own; opp = opp } }
    {
        Board { own, opp }
    }

    /// The mover's discs.
    pub fn own(&self) -> u64
        ensures value { result ≡ self.now.own }
        ensures board { IsBoard self.now }
    {
        self.own
    }

    /// The opponent's discs.
    pub fn opp(&self) -> u64
        ensures value { result ≡ self.now.opp }
        ensures board { IsBoard self.now }
    {
        self.opp
    }

    /// The squares with no disc.
    pub fn empty_squares(&self) -> u64
        ensures { result ≡ word_of (is_empty self.now) }
    {
        !(self.own | self.opp)
    }

    /// How many squares have no disc, 0 to 64.
    pub fn empties(&self) -> u8
        ensures value { result ≡ empty_count self.now }
        ensures most { result ≤ 64 }
    {
        self.empty_squares().count_ones() as u8
    }

    /// The board after the roles change, as after a pass. It doesn't test whether the mover must pass.
    pub fn pass(&self) -> Board
        ensures { result ≡ pass self.now }
    {
        Board {
            own: self.opp,
            opp: self.own,
        }
    }

    /// As [`Board::moves`], by lines on the board and on the board turned by half a turn: the fastest form for one
    /// board, for inner loops. A chain of moves makes its [`Twin`] once.
    #[inline(always)]
    pub fn moves_by_lines(&self) -> u64
        ensures { result ≡ word_of (is_legal self.now) }
    {
        Twin::of(self).moves()
    }

    /// As [`Board::moves`], a step at a time along each of the eight directions: to compare the other forms with.
    pub fn moves_by_shifts(&self) -> u64
        ensures { result ≡ word_of (is_legal self.now) }
    {
        let mut outflanking = 0;
        for direction in Compass::ALL {
            outflanking |= self.outflanking(direction);
        }
        outflanking & self.empty_squares()
    }

    // The squares where a disc of the mover would outflank something in this direction.
    fn outflanking(&self, direction: Compass) -> u64
        ensures { result ≡ word_of (λ s. outflanks self.now s (direction_of direction)) }
    {
        let back = direction.reversed();
        back.shifted(back.line(self.own, self.opp))
    }

    /// As [`Board::flips`], by the eight rays of the square.
    pub fn flips_by_rays(&self, square: Square) -> u64
        ensures value { result ≡ word_of (is_flipped self.now square) }
        ensures none { (result ≡ 0) ↔ (is_legal self.now square ≡ false) }
    {
        if square.word() & self.empty_squares() == 0 {
            return 0;
        }
        self.flips_of_empty(square)
    }

    /// The discs that a move to an empty square flips, by its rays on the board and on the board turned by half a turn;
    /// 0 if the move is illegal. The fastest form for one move, for inner loops.
    #[inline(always)]
    pub fn flips_of_empty(&self, square: Square) -> u64
        requires { IsTrue (is_empty self.now square) }
        ensures { result ≡ word_of (is_flipped self.now square) }
    {
        Twin::of(self).flips(square).word()
    }

    /// As [`Board::flips`], a step at a time along each of the eight directions: to compare the other forms with.
    pub fn flips_by_shifts(&self, square: Square) -> u64
        ensures value { result ≡ word_of (is_flipped self.now square) }
        ensures none { (result ≡ 0) ↔ (is_legal self.now square ≡ false) }
    {
        if square.word() & self.empty_squares() == 0 {
            return 0;
        }
        let mut flipped = 0;
        for direction in Compass::ALL {
            flipped |= self.outflanked(square, direction);
        }
        flipped
    }

    // What a disc of the mover on this square would outflank in this direction.
    fn outflanked(&self, square: Square, direction: Compass) -> u64
        ensures { result ≡ word_of (is_in (flipped_along self.now square (direction_of direction))) }
    {
        let line = direction.line(square.word(), self.opp);
        if direction.shifted(line) & self.own == 0 {
            0
        } else {
            line
        }
    }

    /// The board after a move, seen by the other side; `None` exactly if the move is illegal.
    pub fn play(&self, square: Square) -> Option<Board>
        ensures moved { SomeIff result (IsTrue (is_legal self.now square)) (after self.now square) }
        ensures valid { square < 64 }
    {
        let flipped = self.flips_by_rays(square);
        if flipped == 0 {
            return None;
        }
        Some(self.play_flipped(square, flipped))
    }

    /// The board after a legal move whose flips are known, for loops that ask for the flips first.
    #[inline(always)]
    pub fn play_flipped(&self, square: Square, flipped: u64) -> Board
        requires legal { IsTrue (is_legal self.now square) }
        requires flips { flipped ≡ word_of (is_flipped self.now square) }
        ensures { result ≡ after self.now square }
    {
        Board {
            own: self.opp & !flipped,
            opp: self.own | flipped | square.word(),
        }
    }

    /// The board after a move that is known to be legal.
    #[inline(always)]
    pub fn play_legal(&self, square: Square) -> Board
        requires { IsLegal self.now square }
        ensures { result ≡ after self.now square }
    {
        self.play_flipped(square, self.flips_of_empty(square))
    }

    /// Whether the mover has a legal move.
    pub fn can_move(&self) -> bool
        ensures { result ≡ can_move self.now }
    {
        self.moves() != 0
    }

    /// Whether neither side has a legal move.
    pub fn is_over(&self) -> bool
        ensures { result ≡ is_over self.now }
    {
        self.moves_by_lines() == 0 && self.pass().moves_by_lines() == 0
    }

    /// The score for the mover if the game ends here, -64 to 64.
    #[tactic(auto, unfolding(crate::specs::Score::score_of))]
    pub fn final_score(&self, scoring: Scoring) -> i8
        ensures { result ≡ score_of scoring self.now }
    {
        match scoring {
            Scoring::Winner => self.winner_score(),
            Scoring::Discs => self.disc_difference(),
        }
    }

    // Own discs less opposing ones.
    fn disc_difference(&self) -> i8
        ensures { result ≡ disc_difference self.now }
    {
        self.own.count_ones() as i8 - self.opp.count_ones() as i8
    }

    // The disc difference, with the empty squares given to the winner.
    fn winner_score(&self) -> i8
        ensures { result ≡ winner_score self.now }
    {
        let own = self.own.count_ones() as i8;
        let opp = self.opp.count_ones() as i8;
        let empty = 64 - own - opp;
        if own > opp {
            own - opp + empty
        } else if own < opp {
            own - opp - empty
        } else {
            0
        }
    }

    /// The value for the mover under full minimax, -64 to 64, by the whole tree without windows. For few
    /// empties only: its time is the tree's size.
    pub fn plain_score(&self, scoring: Scoring) -> i8
        ensures { result ≡ value (score_of scoring) self.now }
    {
        if self.is_over() {
            return self.final_score(scoring);
        }
        if self.moves() == 0 {
            return -self.pass().plain_score(scoring);
        }
        let mut best = -64;
        for number in 0..64 {
            if let Some(child) = self.child(number) {
                best = best.max(-child.plain_score(scoring));
            }
        }
        best
    }

    // The board after the move to the square of this number, if it is legal.
    fn child(&self, number: u8) -> Option<Board>
        requires { number < 64 }
        ensures { SomeIff result (IsTrue (is_legal self.now number)) (after self.now number) }
    {
        self.play(Square::numbered(number))
    }
}
