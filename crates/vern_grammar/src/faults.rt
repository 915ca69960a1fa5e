//! The laws of faults.
ghost use Rattle.std.specs.Prelude.{◌≡◌, ◌⊎◌, ℕ, List};
ghost use Rattle.vern_grammar.specs.Trees.{Expression, Shape};
ghost use Rattle.vern_grammar.specs.Kinds.{Lexeme};
ghost use Rattle.vern_grammar.specs.Grammar.{IsExpression, IsShape, IsFault};

/// A list of tokens is an expression, or has a fault; not both, and no two faults.
pub fn each_expression_has_a_tree_or_a_fault()
    ensures either { (ts : List Lexeme) → ((t : Expression) × IsExpression ts t) ⊎ ((p : ℕ) × IsFault IsExpression ts p) }
    ensures not_both { (ts : List Lexeme) (p : ℕ) (t : Expression) → IsFault IsExpression ts p → IsExpression ts t → ⊥ }
    ensures one { (ts : List Lexeme) (p q : ℕ) → IsFault IsExpression ts p → IsFault IsExpression ts q → p ≡ q }
{}

/// A list of tokens is a shape, or has a fault; not both, and no two faults.
pub fn each_shape_has_a_tree_or_a_fault()
    ensures either { (ts : List Lexeme) → ((t : Shape) × IsShape ts t) ⊎ ((p : ℕ) × IsFault IsShape ts p) }
    ensures not_both { (ts : List Lexeme) (p : ℕ) (t : Shape) → IsFault IsShape ts p → IsShape ts t → ⊥ }
    ensures one { (ts : List Lexeme) (p q : ℕ) → IsFault IsShape ts p → IsFault IsShape ts q → p ≡ q }
{}
