//! Tokens of a sentence.

use crate::span::Span;
use base_core::Sequence;

/// What a token is. The words are reserved, and never names.
#[derive(Clone, Copy, Debug, PartialEq, Eq)]
pub enum TokenKind {
    Name,
    Forall,
    Exists,
    Prop,
    Set,
    True,
    False,
    As,
    In,
    /// `<->`
    Iff,
    /// `:=`
    Define,
    /// `->`
    Arrow,
    /// `<-`
    BackArrow,
    /// `<>`
    NotEqual,
    /// `/\`
    And,
    /// `\/`
    Or,
    LeftParenthesis,
    RightParenthesis,
    LeftBracket,
    RightBracket,
    Colon,
    Comma,
    /// `~`
    Not,
    Equal,
    Bar,
    /// The `.` that is the sentence's last byte.
    FullStop,
    /// A bullet, which is a sentence alone.
    Bullet,
    /// A `{`, which is a sentence alone.
    LeftBrace,
    /// A `}`, which is a sentence alone.
    RightBrace,
    /// A byte that begins no other token.
    Stray,
}

/// A token: its kind and the bytes of the sentence that it is.
#[derive(Clone, Copy, Debug, PartialEq, Eq)]
pub struct Token {
    pub kind: TokenKind,
    pub span: Span,
}

/// A list of tokens.
pub type Tokens = Sequence<Token>;
