//! The laws of sentences with a printed text.
ghost use Rattle.std.specs.Prelude.{ℕ, List, codes};
ghost use Rattle.vern_sentence.specs.Names.{IsFreeName};
ghost use Rattle.fol_theory.specs.Syntax.{Formula};
ghost use Rattle.print_theory.specs.Spelling.{formula_text};
ghost use Rattle.print_theory.specs.Reading.{BeginsWith, DeclaresAs, IsShown, sentence_of};
ghost use Rattle.print_theory.specs.Trees.{formula_shape, formula_tree};

/// The text of a formula, at no token of which more openings are open than may be, reads back in a sentence: behind
/// `Lemma x : ` and `Theorem x : ` as the formula's tree, and behind `Parameter x : ` and `Axiom x : ` as the shape
/// whose arrows are those of the formula at its outer level. That a sentence has no other tree is a law of
/// vern_sentence.
pub fn printed_sentences_read_back()
    ensures lemma { (names taken : List (List ℕ)) (x : List ℕ) (a : Formula) → IsFreeName x → IsShown names a
        → BeginsWith (sentence_of (codes "Lemma") x (formula_text names taken a)) x (formula_tree names taken a) }
    ensures theorem { (names taken : List (List ℕ)) (x : List ℕ) (a : Formula) → IsFreeName x → IsShown names a
        → BeginsWith (sentence_of (codes "Theorem") x (formula_text names taken a)) x (formula_tree names taken a) }
    ensures parameter { (names taken : List (List ℕ)) (x : List ℕ) (a : Formula) → IsFreeName x → IsShown names a
        → DeclaresAs (sentence_of (codes "Parameter") x (formula_text names taken a)) x (formula_shape names taken a) }
    ensures axiom { (names taken : List (List ℕ)) (x : List ℕ) (a : Formula) → IsFreeName x → IsShown names a
        → DeclaresAs (sentence_of (codes "Axiom") x (formula_text names taken a)) x (formula_shape names taken a) }
{}
