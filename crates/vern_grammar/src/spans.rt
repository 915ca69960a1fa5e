//! The law of spans.
ghost use Rattle.std.specs.Prelude.{◌≡◌, ◌⊎◌, ℕ, List};
ghost use Rattle.vern_grammar.specs.Trees.{Expression};
ghost use Rattle.vern_grammar.specs.Kinds.{Lexeme};
ghost use Rattle.vern_grammar.specs.Grammar.{IsEnclosed, IsOperand, Next, first_byte, last_end, span, span_of};

/// An operand runs from the first byte of its tokens to behind their last, and that is the span of its tree,
/// or it is an operand of the same tree in parentheses.
pub fn spans_are_those_of_the_tokens()
    ensures first { (n o from to : ℕ) (g : Next) (ts : List Lexeme) (t : Expression) → IsOperand n g o ts from to t → from ≡ first_byte ts }
    ensures last { (n o from to : ℕ) (g : Next) (ts : List Lexeme) (t : Expression) → IsOperand n g o ts from to t → to ≡ last_end ts }
    ensures tree { (n o from to : ℕ) (g : Next) (ts : List Lexeme) (t : Expression) → IsOperand n g o ts from to t
        → (span_of t ≡ span from to) ⊎ IsEnclosed o ts t }
{}
