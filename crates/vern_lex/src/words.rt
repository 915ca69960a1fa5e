//! Names and reserved words.
ghost use Rattle.std.specs.Prelude.{◌≡◌, ◌≤◌, length};
ghost use Rattle.std.specs.List.{prefix_len};
ghost use Rattle.vern_lex.specs.Tokens.{begins_name, continues_name, first_name, word_kind};

use crate::token::TokenKind;

/// The longest name that a text begins with, which is nothing where none does.
pub fn first_name(text: &[u8]) -> &[u8]
    ensures name { result.now ≡ first_name text.now }
    ensures within { length result.now ≤ length text.now }
{
    match text {
        [first, rest @ ..] if begins_name(*first) => text.split_at(1 + continued(rest)).0,
        _ => text.split_at(0).0,
    }
}

/// How many bytes at the front of a text continue a name.
fn continued(text: &[u8]) -> usize
    ensures within { result ≤ length text.now }
    ensures count { result ≡ prefix_len continues_name text.now }
{
    text.iter()
        .take_while(|byte| continues_name(**byte))
        .count()
}

/// The kind of a word: reserved, or a name.
pub fn word_kind(word: &[u8]) -> TokenKind
    ensures { result ≡ word_kind word.now }
{
    if word == b"forall".as_slice() {
        TokenKind::Forall
    } else if word == b"exists".as_slice() {
        TokenKind::Exists
    } else if word == b"Prop".as_slice() {
        TokenKind::Prop
    } else if word == b"Set".as_slice() {
        TokenKind::Set
    } else if word == b"True".as_slice() {
        TokenKind::True
    } else if word == b"False".as_slice() {
        TokenKind::False
    } else if word == b"as".as_slice() {
        TokenKind::As
    } else if word == b"in".as_slice() {
        TokenKind::In
    } else {
        TokenKind::Name
    }
}

/// Whether a byte is an ASCII letter or `_`.
pub fn begins_name(byte: u8) -> bool
    ensures { result ≡ begins_name byte }
{
    byte.is_ascii_alphabetic() || byte == b'_'
}

fn continues_name(byte: u8) -> bool
    ensures { result ≡ continues_name byte }
{
    begins_name(byte) || byte.is_ascii_digit() || byte == b'\''
}
