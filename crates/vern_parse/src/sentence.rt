//! Reading whole sentences.
ghost use Rattle.std.specs.Prelude.{◌≡◌, ◌≤◌, ℕ, ◌∷◌, All, IfErr, IfOk, length};
ghost use Rattle.vern_lex.specs.declared.span.Span.{Span};
ghost use Rattle.vern_lex.specs.Tokens.{IsTokenOf, tokens_of};
ghost use Rattle.vern_grammar.specs.Grammar.{IsFault, tok};
ghost use Rattle.vern_grammar.specs.Kinds as kind;
ghost use Rattle.vern_grammar.specs.Kinds.{lexeme, lexemes, slice};
ghost use Rattle.vern_sentence.specs.Sentences.{IsSentence, bullet_at};
ghost use Rattle.vern_sentence.specs.Words as word;
ghost use Rattle.vern_sentence.specs.Words.{word_of};
ghost use Rattle.vern_sentence.specs.Trees.{Sentence};
ghost use Rattle.vern_sentence.specs.Patterns.{reading};
ghost use Rattle.vern_sentence.specs.Reading.{behind_word, declaring, defining, following, sentence_reading, stating};
ghost use Rattle.vern_sentence.specs.Names.{IsFreeName, names_of_sentence};
ghost use Rattle.vern_parse.specs.Meaning.{name as name_of};
ghost use Rattle.vern_parse.specs.Answers.{IsFaultOf, IsRead, IsRefused, offset};
ghost use Rattle.vern_parse.specs.Sentences.{command_word, groups_of, maybe_name, sentence as sentence_of};
ghost use Rattle.vern_parse.specs.Sources.{Gives, no_span, rest};

use crate::fault::ParseFault;
use crate::groups::groups_at;
use crate::kind::bytes_of;
use crate::raw::{Closer, Raw, RawGroups, RawName};
use crate::refine::{refinement_behind, witness};
use crate::slot::{expression_at, shape_at};
use crate::source::Source;
use crate::words::{Command, Sign, command_of, tactic_of};
use std::alloc::Global;
use vern_lex::{Span, Token, TokenKind, Tokens, tokens_are_slices};

/// The tree of a sentence. The fault is at the first token with which the tokens so far begin no sentence, or at
/// the sentence's length where all of them begin one and are none. Its work grows with the tokens, and it doesn't
/// recurse.
pub fn parse(alloc: Global, tokens: &Tokens, sentence: &[u8]) -> Result<Raw, ParseFault>
    requires { tokens.now ≡ tokens_of sentence.now }
    ensures tree { IfOk result (λ r. IsSentence sentence.now (lexemes sentence.now tokens.now) (sentence_of r)) }
    ensures fault { IfErr result (λ e. IsFaultOf (IsSentence sentence.now) sentence.now tokens.now e) }
    ensures read { (t : Sentence) → IsSentence sentence.now (lexemes sentence.now tokens.now) t → IsRead sentence_of result t }
    ensures refused { (p : ℕ) → IsFault (IsSentence sentence.now) (lexemes sentence.now tokens.now) p
        → IsRefused result (offset sentence.now tokens.now p) }
    ensures names { IfOk result (λ r. All (λ x. IsFreeName x.text) (names_of_sentence (sentence_of r))) }
{
    tokens_are_slices();
    sentence_from(alloc, &Source::new(tokens.as_slice(), sentence))
}

/// The sentence that the tokens are.
fn sentence_from(alloc: Global, source: &Source<'_>) -> Result<Raw, ParseFault>
    ensures { Gives sentence_of source.now result (sentence_reading source.now.1 (rest source.now 0)) }
{
    match source.token_at(0) {
        Some(first) => behind_first(alloc, source, first),
        None => Err(source.fault_at(0)),
    }
}

/// The sentence that begins with a token.
fn behind_first(alloc: Global, source: &Source<'_>, first: Token) -> Result<Raw, ParseFault>
    requires first { rest source.now 0 ≡ lexeme source.now.1 first ∷ rest source.now 1 }
    requires slice { IsTokenOf source.now.1 first }
    ensures { Gives sentence_of source.now result (sentence_reading source.now.1 (rest source.now 0)) }
{
    match first.kind {
        TokenKind::Name => behind_name(alloc, source, first.span),
        TokenKind::Exists => witness(alloc, source, 1),
        TokenKind::Bullet => source.end(1, bullet(first.span, source.sentence())),
        TokenKind::LeftBrace => source.end(1, Raw::BraceIn),
        TokenKind::RightBrace => source.end(1, Raw::BraceOut),
        _ => Err(ParseFault::At(first.span.from)),
    }
}

/// A bullet's byte and length.
fn bullet(span: Span, sentence: &[u8]) -> Raw
    requires { span.from ≤ span.to }
    ensures { sentence_of result ≡ bullet_at sentence.now span }
{
    let byte = sentence.get(span.from as usize).copied().unwrap_or(0);
    Raw::Bullet(byte, span.to - span.from)
}

/// The sentence that begins with a name.
fn behind_name(alloc: Global, source: &Source<'_>, span: Span) -> Result<Raw, ParseFault>
    requires ordered { span.from ≤ span.to }
    requires within { span.to ≤ length source.now.1 }
    ensures { Gives sentence_of source.now result (behind_word source.now.1 (tok (kind.name (slice source.now.1 span)) span)
        (rest source.now 1) (word_of (kind.name (slice source.now.1 span)))) }
{
    let word = bytes_of(span, source.sentence());
    if let Some(command) = command_of(word) {
        return command_behind(alloc, source, command, 1);
    }
    match tactic_of(word) {
        Some(tactic) => refinement_behind(alloc, source, tactic, 1),
        None => Err(ParseFault::At(span.from)),
    }
}

/// A sentence that is no refinement, behind its word.
fn command_behind(
    alloc: Global,
    source: &Source<'_>,
    command: Command,
    at: usize,
) -> Result<Raw, ParseFault>
    ensures { (c : Span) → Gives sentence_of source.now result
        (reading (following source.now.1 c (command_word command)) (rest source.now at)) }
{
    match command {
        Command::Parameter | Command::Axiom => declaration(alloc, source, at),
        Command::Definition => definition(alloc, source, at),
        Command::Lemma | Command::Theorem => beginning(alloc, source, at),
        Command::Proof => source.finish(at, Raw::ProofWord),
        Command::Qed => source.finish(at, Raw::Close(Closer::Qed)),
        Command::Defined => source.finish(at, Raw::Close(Closer::Defined)),
        Command::Admitted => source.finish(at, Raw::Close(Closer::Admitted)),
        Command::Abort => source.finish(at, Raw::Close(Closer::Abort)),
    }
}

/// Behind `Parameter` or `Axiom`: a name and its shape.
fn declaration(alloc: Global, source: &Source<'_>, at: usize) -> Result<Raw, ParseFault>
    ensures { Gives sentence_of source.now result (reading declaring (rest source.now at)) }
{
    let (name, at) = source.name_at(alloc, at)?;
    let at = source.expect(at, Sign::Colon)?;
    let (shape, at) = shape_at(alloc, source, at)?;
    source.finish(at, Raw::Declare(name, shape))
}

/// Behind `Definition`: a name, groups, a sort or `Prop`, and a body.
fn definition(alloc: Global, source: &Source<'_>, at: usize) -> Result<Raw, ParseFault>
    ensures { Gives sentence_of source.now result (reading (following source.now.1 no_span word.definition) (rest source.now at)) }
{
    let (name, at) = source.name_at(alloc, at)?;
    let (groups, at) = groups_at(alloc, source, at)?;
    let at = source.expect(at, Sign::Colon)?;
    if let Some(at) = source.skip(at, Sign::Prop) {
        return defined(alloc, source, name, groups, None, at);
    }
    let (sort, at) = source.name_at(alloc, at)?;
    defined(alloc, source, name, groups, Some(sort), at)
}

/// Behind the sort of a definition: its body.
fn defined(
    alloc: Global,
    source: &Source<'_>,
    name: RawName,
    groups: RawGroups,
    sort: Option<RawName>,
    at: usize,
) -> Result<Raw, ParseFault>
    ensures { Gives sentence_of source.now result (reading (defining (name_of name) (groups_of groups) (maybe_name sort))
        (rest source.now at)) }
{
    let at = source.expect(at, Sign::Define)?;
    let (body, at) = expression_at(alloc, source, at)?;
    source.finish(at, Raw::Define(name, groups, sort, body))
}

/// Behind `Lemma` or `Theorem`: a name and what it says.
fn beginning(alloc: Global, source: &Source<'_>, at: usize) -> Result<Raw, ParseFault>
    ensures { Gives sentence_of source.now result (reading stating (rest source.now at)) }
{
    let (name, at) = source.name_at(alloc, at)?;
    let at = source.expect(at, Sign::Colon)?;
    let (formula, at) = expression_at(alloc, source, at)?;
    source.finish(at, Raw::Begin(name, formula))
}
