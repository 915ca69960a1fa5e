//! The law of the machine.
ghost use Rattle.std.specs.Prelude.{◌≡◌, ℕ, List, [], ◌∷◌, Some};
ghost use Rattle.vern_grammar.specs.Trees.{Expression, Shape};
ghost use Rattle.vern_grammar.specs.Kinds.{Lexeme};
ghost use Rattle.vern_grammar.specs.Grammar.{IsExpression, IsShape, IsFault};
ghost use Rattle.vern_grammar.specs.Machine.{Fails, Phrase, a_shape, an_expression, outline, parsed};

/// The machine gives a list of tokens the tree that the grammar gives it, and no other; where it stops, there
/// is the grammar's fault. It begins behind no frame for an expression, and behind `outline` for a shape.
pub fn the_machine_reads_the_grammar()
    ensures expression_read { (ts : List Lexeme) (t : Expression) → IsExpression ts t → parsed [] ts ≡ Some (an_expression t) }
    ensures expression_given { (ts : List Lexeme) (p : Phrase) → parsed [] ts ≡ Some p
        → (t : Expression) × (p ≡ an_expression t) × IsExpression ts t }
    ensures expression_fault { (ts : List Lexeme) (p : ℕ) → Fails [] ts p → IsFault IsExpression ts p }
    ensures shape_read { (ts : List Lexeme) (t : Shape) → IsShape ts t → parsed (outline ∷ []) ts ≡ Some (a_shape t) }
    ensures shape_given { (ts : List Lexeme) (p : Phrase) → parsed (outline ∷ []) ts ≡ Some p
        → (t : Shape) × (p ≡ a_shape t) × IsShape ts t }
    ensures shape_fault { (ts : List Lexeme) (p : ℕ) → Fails (outline ∷ []) ts p → IsFault IsShape ts p }
{}
