//! The law of the function that reads sentences.
ghost use Rattle.std.specs.Prelude.{◌≡◌, ℕ, List, drop, Ok, Err};
ghost use Rattle.vern_grammar.specs.Kinds.{Lexeme};
ghost use Rattle.vern_grammar.specs.Grammar.{IsFault};
ghost use Rattle.vern_sentence.specs.Trees.{Sentence};
ghost use Rattle.vern_sentence.specs.Sentences.{IsSentence};
ghost use Rattle.vern_sentence.specs.Reading.{sentence_reading};

/// The function gives a list of tokens the tree that the grammar gives it, and no other; where it has none, it
/// gives the tokens from the grammar's fault on.
pub fn the_function_reads_the_grammar()
    ensures accepted { (text : List ℕ) (ts : List Lexeme) (t : Sentence) → IsSentence text ts t → sentence_reading text ts ≡ Ok t }
    ensures given { (text : List ℕ) (ts : List Lexeme) (t : Sentence) → sentence_reading text ts ≡ Ok t → IsSentence text ts t }
    ensures faulty { (text : List ℕ) (ts rest : List Lexeme) → sentence_reading text ts ≡ Err rest
        → (p : ℕ) × IsFault (IsSentence text) ts p × (rest ≡ drop p ts) }
    ensures found { (text : List ℕ) (ts : List Lexeme) (p : ℕ) → IsFault (IsSentence text) ts p
        → sentence_reading text ts ≡ Err (drop p ts) }
{}
