//! The law of one tree.
ghost use Rattle.std.specs.Prelude.{◌≡◌, ℕ, List};
ghost use Rattle.vern_grammar.specs.Kinds.{Lexeme};
ghost use Rattle.vern_sentence.specs.Trees.{Sentence};
ghost use Rattle.vern_sentence.specs.Sentences.{IsSentence};

/// The grammar gives a list of tokens, of any length, one tree at the most.
pub fn each_sentence_has_one_tree()
    ensures { (text : List ℕ) (ts : List Lexeme) (t u : Sentence) → IsSentence text ts t → IsSentence text ts u → t ≡ u }
{}
