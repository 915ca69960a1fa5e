//! The kinds of tokens as the grammar sees them.
ghost use Rattle.std.specs.Prelude.{◌≡◌, ◌≤◌, length, IfOk};
ghost use Rattle.vern_lex.specs.Tokens.{IsTokenOf};
ghost use Rattle.vern_grammar.specs.Kinds.{kind_of, slice};
ghost use Rattle.vern_parse.specs.Meaning.{kind};

use crate::raw::RawOp;
use base_core::{NoMemory, SharedBytes};
use std::alloc::Global;
use vern_lex::{Span, Token, TokenKind};

/// A token's kind, with the text of a name. The flag is true for `True` and for `forall`.
#[derive(Drop)]
pub enum Kind {
    Name(SharedBytes),
    Constant(bool),
    Sign(RawOp),
    Quantifier(bool),
    Tilde,
    Opening,
    Closing,
    Colon,
    Comma,
    Set,
    Prop,
    Other(TokenKind),
}

impl Kind {
    /// The kind of a token of a sentence.
    pub fn of(alloc: Global, token: Token, sentence: &[u8]) -> Result<Kind, NoMemory>
        requires { IsTokenOf sentence.now token }
        ensures { IfOk result (λ k. kind k ≡ kind_of token.kind (slice sentence.now token.span)) }
    {
        match token.kind {
            TokenKind::Name => Ok(Kind::Name(text(alloc, token.span, sentence)?)),
            TokenKind::True => Ok(Kind::Constant(true)),
            TokenKind::False => Ok(Kind::Constant(false)),
            TokenKind::Arrow => Ok(Kind::Sign(RawOp::Imp)),
            TokenKind::Iff => Ok(Kind::Sign(RawOp::Iff)),
            TokenKind::Or => Ok(Kind::Sign(RawOp::Or)),
            TokenKind::And => Ok(Kind::Sign(RawOp::And)),
            TokenKind::Equal => Ok(Kind::Sign(RawOp::Eq)),
            TokenKind::NotEqual => Ok(Kind::Sign(RawOp::Ne)),
            TokenKind::Forall => Ok(Kind::Quantifier(true)),
            TokenKind::Exists => Ok(Kind::Quantifier(false)),
            TokenKind::Not => Ok(Kind::Tilde),
            TokenKind::LeftParenthesis => Ok(Kind::Opening),
            TokenKind::RightParenthesis => Ok(Kind::Closing),
            TokenKind::Colon => Ok(Kind::Colon),
            TokenKind::Comma => Ok(Kind::Comma),
            TokenKind::Set => Ok(Kind::Set),
            TokenKind::Prop => Ok(Kind::Prop),
            other => Ok(Kind::Other(other)),
        }
    }
}

/// A copy of the bytes of a span.
pub fn text(alloc: Global, span: Span, sentence: &[u8]) -> Result<SharedBytes, NoMemory>
    requires ordered { span.from ≤ span.to }
    requires within { span.to ≤ length sentence.now }
    ensures { IfOk result (λ bytes. bytes ≡ slice sentence.now span) }
{
    SharedBytes::from_slice(alloc, bytes_of(span, sentence))
}

/// The bytes of a span.
pub fn bytes_of(span: Span, sentence: &[u8]) -> &[u8]
    requires ordered { span.from ≤ span.to }
    requires within { span.to ≤ length sentence.now }
    ensures { result.now ≡ slice sentence.now span }
{
    let (_, rest) = sentence.split_at(span.from as usize);
    rest.split_at((span.to - span.from) as usize).0
}
