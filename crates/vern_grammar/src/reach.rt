//! The law of a quantifier's reach.
ghost use Rattle.std.specs.Prelude.{◌≡◌, ◌≤◌, ℕ, List};
ghost use Rattle.vern_grammar.specs.Trees.{Expression, Operator};
ghost use Rattle.vern_grammar.specs.Kinds.{Lexeme};
ghost use Rattle.vern_grammar.specs.Levels.{left_at_most};
ghost use Rattle.vern_grammar.specs.Grammar.{EndsBare, IsOperand, TakesItself, before};

/// Before `->`, `\/` and `/\` stands an operand that the operator takes on its left, and none that ends in a
/// quantifier without parentheses: such a quantifier takes the operator into its body.
pub fn quantifiers_reach_far()
    ensures taken { (op : Operator) (n o from to : ℕ) (ts : List Lexeme) (t : Expression) → TakesItself op
        → IsOperand n (before op) o ts from to t → n ≤ left_at_most op }
    ensures closed { (op : Operator) (n o from to : ℕ) (ts : List Lexeme) (t : Expression) → TakesItself op
        → EndsBare n (before op) o ts from to t → ⊥ }
{}
