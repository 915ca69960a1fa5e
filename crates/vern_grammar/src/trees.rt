//! The law of one tree.
ghost use Rattle.std.specs.Prelude.{◌≡◌, List};
ghost use Rattle.vern_grammar.specs.Trees.{Expression, Shape};
ghost use Rattle.vern_grammar.specs.Kinds.{Lexeme};
ghost use Rattle.vern_grammar.specs.Grammar.{IsExpression, IsShape};

/// The grammar gives a list of tokens, of any length, one tree at the most.
pub fn each_has_one_tree()
    ensures expression { (ts : List Lexeme) (t u : Expression) → IsExpression ts t → IsExpression ts u → t ≡ u }
    ensures shape { (ts : List Lexeme) (t u : Shape) → IsShape ts t → IsShape ts u → t ≡ u }
{}
