//! Operators, brackets and the closing full stop.
ghost use Rattle.std.specs.Prelude.{◌≡◌, ◌+◌, ◌<◌, ◌≤◌, ◌^◌, length, slice_index};
ghost use Rattle.vern_lex.specs.Tokens.{pair_kind, sign_at, sign_of, single_kind, token_of};

use crate::span::Span;
use crate::token::{Token, TokenKind};

/// A token of a kind and so many bytes, from an offset.
pub fn token_of(at: usize, kind: TokenKind, length: usize) -> Token
    requires { at + length < 2 ^ 64 }
    ensures { result ≡ token_of at kind length }
{
    Token {
        kind,
        span: Span {
            from: at as u64,
            to: (at + length) as u64,
        },
    }
}

/// The sign with a first byte and what stands behind that byte.
pub fn sign_at(at: usize, first: u8, rest: &[u8]) -> Token
    requires { at < 2 ^ 63 }
    ensures { result ≡ sign_at at first rest.now }
{
    if first == b'.' && rest.is_empty() {
        token_of(at, TokenKind::FullStop, 1)
    } else {
        sign_of(at, first, byte_at(rest, 0), byte_at(rest, 1))
    }
}

/// A byte of a text, or 0 behind its end.
fn byte_at(text: &[u8], place: usize) -> u8
    ensures { result ≡ slice_index text.now place }
{
    text.get(place).copied().unwrap_or(0)
}

/// The longest sign that three bytes begin with.
fn sign_of(at: usize, first: u8, second: u8, third: u8) -> Token
    requires { at < 2 ^ 63 }
    ensures { result ≡ sign_of at first second third }
{
    if third == b'>' && second == b'-' && first == b'<' {
        return token_of(at, TokenKind::Iff, 3);
    }
    match pair_kind(first, second) {
        Some(kind) => token_of(at, kind, 2),
        None => token_of(at, single_kind(first), 1),
    }
}

fn pair_kind(first: u8, second: u8) -> Option<TokenKind>
    ensures { result ≡ pair_kind first second }
{
    match (first, second) {
        (b':', b'=') => Some(TokenKind::Define),
        (b'-', b'>') => Some(TokenKind::Arrow),
        (b'<', b'-') => Some(TokenKind::BackArrow),
        (b'<', b'>') => Some(TokenKind::NotEqual),
        (b'/', b'\\') => Some(TokenKind::And),
        (b'\\', b'/') => Some(TokenKind::Or),
        _ => None,
    }
}

fn single_kind(byte: u8) -> TokenKind
    ensures { result ≡ single_kind byte }
{
    match byte {
        b'(' => TokenKind::LeftParenthesis,
        b')' => TokenKind::RightParenthesis,
        b'[' => TokenKind::LeftBracket,
        b']' => TokenKind::RightBracket,
        b':' => TokenKind::Colon,
        b',' => TokenKind::Comma,
        b'~' => TokenKind::Not,
        b'=' => TokenKind::Equal,
        b'|' => TokenKind::Bar,
        _ => TokenKind::Stray,
    }
}
