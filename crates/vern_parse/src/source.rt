//! A sentence with tokens of it, and the pieces that stand there.
ghost use Rattle.std.specs.Prelude.{◌≡◌, ◌+◌, ◌<◌, ◌≤◌, ◌^◌, [], ◌∷◌, All, Err, IfOk, IfSome, MatchOption, Ok, drop, false, length, true};
ghost use Rattle.vern_lex.specs.Tokens.{IsTokenOf};
ghost use Rattle.vern_grammar.specs.Kinds.{lexeme};
ghost use Rattle.vern_sentence.specs.Patterns.{done, is_next, name_front, part_front, reading, sign_front};
ghost use Rattle.vern_sentence.specs.Reading.{ends_as};
ghost use Rattle.vern_sentence.specs.Slots.{names as names_slot};
ghost use Rattle.vern_parse.specs.Meaning.{name};
ghost use Rattle.vern_parse.specs.Pieces.{closes, some_names};
ghost use Rattle.vern_parse.specs.Sentences.{names_of, sentence as sentence_of, sign_of};
ghost use Rattle.vern_parse.specs.Sources.{Gives, first_offset, rest, with_rest};

use crate::fault::ParseFault;
use crate::kind::text;
use crate::raw::{Raw, RawName, RawNames};
use crate::words::Sign;
use base_core::NoMemory;
use std::alloc::Global;
use std::marker::Model;
use vern_lex::{Token, TokenKind};

/// Tokens of a sentence, numbered from 0. Contracts see the list of them and the sentence's bytes.
#[derive(Drop)]
pub struct Source<'a> {
    tokens: &'a [Token],
    sentence: &'a [u8],
}

impl<'a> Model for Source<'a> {
    ghost use Rattle.std.specs.Prelude.{◌<◌, ◌^◌, List, ℕ, All, length};
    ghost use Rattle.vern_lex.specs.declared.token.Token.{Token};
    ghost use Rattle.vern_lex.specs.Tokens.{IsTokenOf};

    ghost Value = { List Token × List ℕ };

    ghost view = { λ s. (s.tokens.now, s.sentence.now) };

    ghost invariant = { λ s. All (IsTokenOf s.sentence.now) s.tokens.now × (length s.tokens.now < 2 ^ 63) };
}

impl<'a> Source<'a> {
    pub fn new(tokens: &'a [Token], sentence: &'a [u8]) -> Source<'a>
        requires { All (IsTokenOf sentence.now) tokens.now }
        ensures { result ≡ (tokens.now, sentence.now) }
    {
        Source { tokens, sentence }
    }

    /// The bytes of the sentence.
    pub fn sentence(&self) -> &[u8]
        ensures { result.now ≡ self.now.1 }
    {
        self.sentence
    }

    /// The token of a number, if there is one.
    pub fn token_at(&self, at: usize) -> Option<Token>
        ensures next { MatchOption result (rest self.now at ≡ []) (λ t. rest self.now at ≡ lexeme self.now.1 t ∷ rest self.now (at + 1)) }
        ensures own { MatchOption result (Unit {0}) (λ t. IsTokenOf self.now.1 t × (at < length self.now.0) × (at < 2 ^ 63)) }
    {
        self.tokens.get(at).copied()
    }

    /// The fault at the token of a number, or at the sentence's length where there is no such token.
    pub fn fault_at(&self, at: usize) -> ParseFault
        ensures { result ≡ ParseFault.At (first_offset self.now.1 (rest self.now at)) }
    {
        match self.token_at(at) {
            Some(token) => ParseFault::At(token.span.from),
            None => ParseFault::At(self.sentence.len() as u64),
        }
    }

    /// The number of the token behind a sign, or none where the sign isn't there.
    pub fn skip(&self, at: usize, sign: Sign) -> Option<usize>
        ensures exact { MatchOption result
            (sign_front (sign_of sign) (rest self.now at) ≡ Err (rest self.now at))
            (λ n. sign_front (sign_of sign) (rest self.now at) ≡ Ok (rest self.now n)) }
        ensures next { MatchOption result (is_next (sign_of sign) (rest self.now at) ≡ false)
            (λ n. (is_next (sign_of sign) (rest self.now at) ≡ true) × (drop 1 (rest self.now at) ≡ rest self.now n)) }
        ensures further { IfSome result (λ n. (at < length self.now.0) × (n ≡ at + 1)) }
    {
        match self.token_at(at) {
            Some(token) if sign.is(token.kind) => Some(at + 1),
            _ => None,
        }
    }

    /// The number of the token behind a sign, which must be there.
    pub fn expect(&self, at: usize, sign: Sign) -> Result<usize, ParseFault>
        ensures exact { Gives (rest self.now) self.now result (sign_front (sign_of sign) (rest self.now at)) }
        ensures further { IfOk result (λ n. n ≡ at + 1) }
    {
        match self.skip(at, sign) {
            Some(behind) => Ok(behind),
            None => Err(self.fault_at(at)),
        }
    }

    /// The number of the token behind a `)`, which must be there.
    pub fn close_at(&self, at: usize) -> Result<usize, ParseFault>
        ensures exact { Gives (rest self.now) self.now result (closes (rest self.now at)) }
        ensures further { IfOk result (λ n. n ≡ at + 1) }
    {
        match self.token_at(at) {
            Some(token) if token.kind == TokenKind::RightParenthesis => Ok(at + 1),
            _ => Err(self.fault_at(at)),
        }
    }

    /// The name that the token of a number is, if it is one.
    fn next_name(&self, alloc: Global, at: usize) -> Result<Option<RawName>, NoMemory>
        ensures next { IfOk result (λ r. MatchOption r
            (name_front (rest self.now at) ≡ Err (rest self.now at))
            (λ x. name_front (rest self.now at) ≡ Ok (name x, rest self.now (at + 1)))) }
        ensures within { IfOk result (λ r. MatchOption r (Unit {0}) (λ x. (at < length self.now.0) × (at < 2 ^ 63))) }
    {
        match self.token_at(at) {
            Some(token) if token.kind == TokenKind::Name => {
                let text = text(alloc, token.span, self.sentence)?;
                let span = token.span;
                Ok(Some(RawName { text, span }))
            }
            _ => Ok(None),
        }
    }

    /// A name, and the number of the token behind it.
    pub fn name_at(&self, alloc: Global, at: usize) -> Result<(RawName, usize), ParseFault>
        ensures exact { Gives (with_rest name self.now) self.now result (name_front (rest self.now at)) }
        ensures further { IfOk result (λ r. r.1 ≡ at + 1) }
    {
        match self.next_name(alloc, at)? {
            Some(name) => Ok((name, at + 1)),
            None => Err(self.fault_at(at)),
        }
    }

    /// As many names as stand there.
    #[tactic(auto, using(crate::proofs::Steps::names_laws))]
    pub fn names_at(&self, alloc: Global, at: usize) -> Result<(RawNames, usize), ParseFault>
        ensures exact { Gives (with_rest names_of self.now) self.now result (part_front names_slot (rest self.now at)) }
        ensures further { IfOk result (λ r. at ≤ r.1) }
    {
        let mut names = Vec::new(alloc);
        let mut at = at;
        'names: while let Some(name) = self.next_name(alloc, at)? {
            names.push(name)?;
            at += 1;
        }
        Ok((names, at))
    }

    /// A name or more.
    pub fn some_names_at(&self, alloc: Global, at: usize) -> Result<(RawNames, usize), ParseFault>
        ensures exact { Gives (with_rest names_of self.now) self.now result (some_names (rest self.now at)) }
        ensures further { IfOk result (λ r. at ≤ r.1) }
    {
        let (names, at) = self.names_at(alloc, at)?;
        if names.is_empty() {
            return Err(self.fault_at(at));
        }
        Ok((names, at))
    }

    /// The sentence, where its full stop and nothing more stands there.
    pub fn finish(&self, at: usize, raw: Raw) -> Result<Raw, ParseFault>
        ensures { Gives sentence_of self.now result (reading (ends_as (sentence_of raw)) (rest self.now at)) }
    {
        let at = self.expect(at, Sign::FullStop)?;
        self.end(at, raw)
    }

    /// The sentence, where nothing more stands there.
    pub fn end(&self, at: usize, raw: Raw) -> Result<Raw, ParseFault>
        ensures { Gives sentence_of self.now result (reading (done (sentence_of raw)) (rest self.now at)) }
    {
        match self.token_at(at) {
            Some(token) => Err(ParseFault::At(token.span.from)),
            None => Ok(raw),
        }
    }
}
