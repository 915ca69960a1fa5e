//! The law of faults.
ghost use Rattle.std.specs.Prelude.{◌≡◌, ◌⊎◌, ℕ, List};
ghost use Rattle.vern_grammar.specs.Kinds.{Lexeme};
ghost use Rattle.vern_grammar.specs.Grammar.{IsFault};
ghost use Rattle.vern_sentence.specs.Trees.{Sentence};
ghost use Rattle.vern_sentence.specs.Sentences.{IsSentence};

/// A list of tokens is a sentence, or has a fault; not both, and no two faults.
pub fn each_sentence_has_a_tree_or_a_fault()
    ensures either { (text : List ℕ) (ts : List Lexeme)
        → ((t : Sentence) × IsSentence text ts t) ⊎ ((p : ℕ) × IsFault (IsSentence text) ts p) }
    ensures not_both { (text : List ℕ) (ts : List Lexeme) (p : ℕ) (t : Sentence) → IsFault (IsSentence text) ts p → IsSentence text ts t
        → ⊥ }
    ensures one { (text : List ℕ) (ts : List Lexeme) (p q : ℕ) → IsFault (IsSentence text) ts p → IsFault (IsSentence text) ts q → p ≡ q }
{}
