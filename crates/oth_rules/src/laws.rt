//! Laws of the definitions, each the contract of a function that does nothing: the layers above may rest on them,
//! and the check proves them.
ghost use Rattle.std.specs.Prelude.{◌≡◌, ◌<◌, ◌≤◌, ◌+◌, ℕ, suc, true};
ghost use Rattle.oth_rules.specs.Position.{Position, is_empty, empty_count, pass};
ghost use Rattle.oth_rules.specs.Move.{after};
ghost use Rattle.oth_rules.specs.Score.{score_of};
ghost use Rattle.oth_rules.specs.Value.{value};
ghost use Rattle.oth_rules.specs.Symmetry.{canonical};
ghost use Rattle.oth_rules.specs.Laws.{IsLegal, IsScore, IsEven, IsValueByMoves, IsValueByPass, IsValueAtEnd};
ghost use Rattle.oth_rules.specs.Laws.{IsValueOfImages};
ghost use Rattle.oth_rules.specs.declared.scoring.Scoring.{Scoring};
ghost use Rattle.oth_rules.specs.declared.scoring.Scoring.TheVariants.{Winner};

/// The value is the greatest negated value after a move where the mover can move; the negated value after a pass where
/// only the other side can; the score where the game is over.
pub fn value_by_the_rules()
    ensures moves { (g : Scoring) → IsValueByMoves (score_of g) }
    ensures pass { (g : Scoring) → IsValueByPass (score_of g) }
    ensures end { (g : Scoring) → IsValueAtEnd (score_of g) }
{}

/// Every value lies in -64 to 64, and is even by [`crate::Scoring::Winner`].
pub fn value_is_a_score()
    ensures range { (g : Scoring) (p : Position) → IsScore (value (score_of g) p) }
    ensures even { (p : Position) → IsEven (value (score_of Winner) p) }
{}

/// An image along any of the eight symmetries has the same value, and its best moves are the images of the best
/// moves. So has the canonical board.
pub fn symmetries_keep_the_value()
    ensures images { (g : Scoring) → IsValueOfImages (score_of g) }
    ensures canonical { (g : Scoring) (p : Position) → value (score_of g) (canonical p) ≡ value (score_of g) p }
    ensures once { (p : Position) → canonical (canonical p) ≡ canonical p }
{}

/// A legal square is empty; a move takes one empty square away, and a pass none.
pub fn moves_fill_the_board()
    ensures empty { (p : Position) (s : ℕ) → IsLegal p s → is_empty p s ≡ true }
    ensures move_takes_one { (p : Position) (s : ℕ) → IsLegal p s → empty_count p ≡ suc (empty_count (after p s)) }
    ensures pass_takes_none { (p : Position) → empty_count (pass p) ≡ empty_count p }
{}
