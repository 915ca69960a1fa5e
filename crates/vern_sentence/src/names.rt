//! The law of names.
ghost use Rattle.std.specs.Prelude.{◌≡◌, ℕ, List};
ghost use Rattle.std.specs.List.{All, Contains};
ghost use Rattle.vern_lex.specs.declared.token.Token.{Token};
ghost use Rattle.vern_lex.specs.Tokens.{tokens_of};
ghost use Rattle.vern_grammar.specs.Kinds.{Lexeme, lexemes};
ghost use Rattle.vern_sentence.specs.Trees.{Sentence};
ghost use Rattle.vern_sentence.specs.Sentences.{IsSentence, spelled};
ghost use Rattle.vern_sentence.specs.Names.{names_of_sentence, IsFreeName, IsNameOf};

/// Each name in a sentence's tree, with its text and its span, is a name among the tokens: no reserved word and no
/// sign. Of vern_lex's tokens it is one of the kind `Name`, and where they are all tokens of the text, its bytes are
/// one whole name of the language.
pub fn names_are_names_of_the_tokens()
    ensures lexemes { (text : List ℕ) (ts : List Lexeme) (t : Sentence) → IsSentence text ts t
        → All (λ x. Contains ts (spelled x)) (names_of_sentence t) }
    ensures tokens { (text : List ℕ) (tokens : List Token) (t : Sentence) → IsSentence text (lexemes text tokens) t
        → All (λ x. IsNameOf text tokens x) (names_of_sentence t) }
    ensures free { (text : List ℕ) (t : Sentence) → IsSentence text (lexemes text (tokens_of text)) t
        → All (λ x. IsFreeName x.text) (names_of_sentence t) }
{}
