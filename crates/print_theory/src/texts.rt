//! The laws of printed texts.
ghost use Rattle.std.specs.Prelude.{◌≡◌, ◌≤◌, ℕ, List, length};
ghost use Rattle.std.specs.List.{All};
ghost use Rattle.vern_lex.specs.Tokens.{tokens_of};
ghost use Rattle.vern_grammar.specs.Trees.{Expression};
ghost use Rattle.vern_grammar.specs.Kinds.{Kind, lexemes};
ghost use Rattle.vern_grammar.specs.Levels.{limit};
ghost use Rattle.vern_sentence.specs.Names.{IsFreeName};
ghost use Rattle.fol_theory.specs.Syntax.{Formula, Term};
ghost use Rattle.print_theory.specs.Printing.{IsPrintable, IsPrintableTerm, formula_openings, quantifier_level, term_openings};
ghost use Rattle.print_theory.specs.Spelling.{IsWritten, formula_text, spell, stand, term_text};
ghost use Rattle.print_theory.specs.Reading.{ReadsAs};
ghost use Rattle.print_theory.specs.Trees.{formula_tree, term_tree};

/// The tokens of a spelled list of tokens are the list, each where it stands, and so a text is the spelling of one list.
pub fn spelled_text_has_its_tokens()
    ensures tokens { (ks : List Kind) → IsWritten ks → lexemes (spell ks) (tokens_of (spell ks)) ≡ stand ks }
    ensures once { (ks ls : List Kind) → IsWritten ks → IsWritten ls → spell ks ≡ spell ls → ks ≡ ls }
{}

/// The text of a formula or a term, at no token of which more openings are open than may be, is an expression with
/// the tree of the formula or the term, and with no other. A text at a token of which more are open is no expression.
pub fn printed_text_reads_back()
    ensures formula { (names taken : List (List ℕ)) (a : Formula) → All IsFreeName names → IsPrintable (length names) a
        → formula_openings quantifier_level a ≤ limit → ReadsAs (formula_text names taken a) (formula_tree names taken a) }
    ensures term { (names : List (List ℕ)) (t : Term) → All IsFreeName names → IsPrintableTerm (length names) t
        → term_openings quantifier_level t ≤ limit → ReadsAs (term_text names t) (term_tree names t) }
    ensures formula_limit { (names taken : List (List ℕ)) (a : Formula) (r : Expression) → All IsFreeName names
        → IsPrintable (length names) a → ReadsAs (formula_text names taken a) r → formula_openings quantifier_level a ≤ limit }
    ensures term_limit { (names : List (List ℕ)) (t : Term) (r : Expression) → All IsFreeName names
        → IsPrintableTerm (length names) t → ReadsAs (term_text names t) r → term_openings quantifier_level t ≤ limit }
    ensures once { (text : List ℕ) (r q : Expression) → ReadsAs text r → ReadsAs text q → r ≡ q }
{}
