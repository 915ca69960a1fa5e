//! The words that sentences begin with, and the signs that stand in them. None of the words is reserved:
//! elsewhere they are names.
ghost use Rattle.std.specs.Prelude.{◌≡◌, ℕ, List, drop, option_map};
ghost use Rattle.vern_grammar.specs.Kinds.{kind_of};
ghost use Rattle.vern_sentence.specs.Words.{is_sign, outer_words, refinement_words, word_among};
ghost use Rattle.vern_parse.specs.Sentences.{command_word, sign_of, tactic_word};

use vern_lex::TokenKind;

/// The words of sentences that are no refinement.
#[derive(Clone, Copy, Debug, PartialEq, Eq)]
pub enum Command {
    Parameter,
    Axiom,
    Definition,
    Lemma,
    Theorem,
    Proof,
    Qed,
    Defined,
    Admitted,
    Abort,
}

/// The words of refinements, but `exists`.
#[derive(Clone, Copy, Debug, PartialEq, Eq)]
pub enum Tactic {
    Intro,
    Intros,
    Exact,
    Assumption,
    Apply,
    Split,
    Left,
    Right,
    Destruct,
    Exfalso,
    Assert,
    Clear,
    Reflexivity,
    Symmetry,
    Rewrite,
    Unfold,
}

/// The signs and reserved words of sentences that stand outside of expressions.
#[derive(Clone, Copy, Debug, PartialEq, Eq)]
pub enum Sign {
    FullStop,
    Define,
    As,
    In,
    LeftBracket,
    RightBracket,
    Bar,
    BackArrow,
    Arrow,
    Colon,
    LeftParenthesis,
    Prop,
}

/// The word of a sentence that is no refinement.
pub fn command_of(word: &[u8]) -> Option<Command>
    ensures { option_map command_word result ≡ word_among word.now outer_words }
{
    if word == b"Parameter".as_slice() {
        Some(Command::Parameter)
    } else if word == b"Axiom".as_slice() {
        Some(Command::Axiom)
    } else if word == b"Definition".as_slice() {
        Some(Command::Definition)
    } else if word == b"Lemma".as_slice() {
        Some(Command::Lemma)
    } else if word == b"Theorem".as_slice() {
        Some(Command::Theorem)
    } else if word == b"Proof".as_slice() {
        Some(Command::Proof)
    } else if word == b"Qed".as_slice() {
        Some(Command::Qed)
    } else if word == b"Defined".as_slice() {
        Some(Command::Defined)
    } else if word == b"Admitted".as_slice() {
        Some(Command::Admitted)
    } else if word == b"Abort".as_slice() {
        Some(Command::Abort)
    } else {
        None
    }
}

/// The word of a refinement.
pub fn tactic_of(word: &[u8]) -> Option<Tactic>
    ensures { option_map tactic_word result ≡ word_among word.now refinement_words }
{
    if word == b"intro".as_slice() {
        Some(Tactic::Intro)
    } else if word == b"intros".as_slice() {
        Some(Tactic::Intros)
    } else if word == b"exact".as_slice() {
        Some(Tactic::Exact)
    } else if word == b"assumption".as_slice() {
        Some(Tactic::Assumption)
    } else if word == b"apply".as_slice() {
        Some(Tactic::Apply)
    } else if word == b"split".as_slice() {
        Some(Tactic::Split)
    } else if word == b"left".as_slice() {
        Some(Tactic::Left)
    } else if word == b"right".as_slice() {
        Some(Tactic::Right)
    } else {
        later_tactic_of(word)
    }
}

/// The word of a refinement of the second half.
fn later_tactic_of(word: &[u8]) -> Option<Tactic>
    ensures { option_map tactic_word result ≡ word_among word.now (drop 8 refinement_words) }
{
    if word == b"destruct".as_slice() {
        Some(Tactic::Destruct)
    } else if word == b"exfalso".as_slice() {
        Some(Tactic::Exfalso)
    } else if word == b"assert".as_slice() {
        Some(Tactic::Assert)
    } else if word == b"clear".as_slice() {
        Some(Tactic::Clear)
    } else if word == b"reflexivity".as_slice() {
        Some(Tactic::Reflexivity)
    } else if word == b"symmetry".as_slice() {
        Some(Tactic::Symmetry)
    } else if word == b"rewrite".as_slice() {
        Some(Tactic::Rewrite)
    } else if word == b"unfold".as_slice() {
        Some(Tactic::Unfold)
    } else {
        None
    }
}

impl Sign {
    /// Whether a token of the kind is the sign.
    pub fn is(self, kind: TokenKind) -> bool
        ensures { (text : List ℕ) → is_sign (sign_of self) (kind_of kind text) ≡ result }
    {
        match self {
            Sign::FullStop => kind == TokenKind::FullStop,
            Sign::Define => kind == TokenKind::Define,
            Sign::As => kind == TokenKind::As,
            Sign::In => kind == TokenKind::In,
            Sign::LeftBracket => kind == TokenKind::LeftBracket,
            Sign::RightBracket => kind == TokenKind::RightBracket,
            Sign::Bar => kind == TokenKind::Bar,
            Sign::BackArrow => kind == TokenKind::BackArrow,
            Sign::Arrow => kind == TokenKind::Arrow,
            Sign::Colon => kind == TokenKind::Colon,
            Sign::LeftParenthesis => kind == TokenKind::LeftParenthesis,
            Sign::Prop => kind == TokenKind::Prop,
        }
    }
}
