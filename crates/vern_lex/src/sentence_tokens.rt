//! The tokens of a sentence, one after the other.
ghost use Rattle.std.specs.Prelude.{◌≡◌, ℕ, ◌+◌, ◌<◌, ◌==◌, ◌^◌, List, [], ◌∷◌, All, length, drop, IfOk, MatchOption};
ghost use Rattle.std.specs.List.{list_all};
ghost use Rattle.vern_lex.specs.Closers.{IsTable};
ghost use Rattle.vern_lex.specs.Comments.{opens_comment};
ghost use Rattle.vern_lex.specs.Tokens.{HasOnlyGaps, IsSpelled, IsTokenOf, TokensRise, lone_kind, next_token, token_at, token_of};
ghost use Rattle.vern_lex.specs.Tokens.{tokens_behind, tokens_of, word_kind};

use crate::comments::{closers_table, gap_length, opens_comment, table_of};
use crate::sentences::is_bullet;
use crate::signs::{sign_at, token_of};
use crate::token::{Token, TokenKind, Tokens};
use crate::words::{begins_name, first_name, word_kind};
use base_core::NoMemory;
use std::alloc::Global;

/// The tokens of a sentence, whatever its bytes are. Its work grows with the sentence's length, also where
/// comments don't end.
pub fn tokens(alloc: Global, sentence: &[u8]) -> Result<Tokens, NoMemory>
    ensures { IfOk result (λ found. found ≡ tokens_of sentence.now) }
{
    match lone_kind(sentence) {
        Some(kind) => lone_token(alloc, kind, sentence.len()),
        None => other_tokens(alloc, sentence),
    }
}

/// The one token of a brace or a bullet alone.
fn lone_token(alloc: Global, kind: TokenKind, length: usize) -> Result<Tokens, NoMemory>
    ensures { IfOk result (λ found. found ≡ token_of 0 kind length ∷ []) }
{
    let mut found = Vec::new(alloc);
    found.push(token_of(0, kind, length))?;
    Ok(Tokens::from_vec(found))
}

/// The tokens of a sentence that is no brace or bullet alone. Once it has met a comment that doesn't end, it
/// keeps the table of the sentence's closers.
fn other_tokens(alloc: Global, sentence: &[u8]) -> Result<Tokens, NoMemory>
    ensures { IfOk result (λ found. found ≡ tokens_behind (length sentence.now) sentence.now 0) }
{
    let mut found = Vec::new(alloc);
    let mut kept = None;
    let mut at = 0;
    'tokens: while let Some(token) = next_token(sentence.split_at(at).1, at, table_of(&kept)) {
        found.push(token)?;
        at = token.span.to as usize;
        if kept.is_none() && opens_comment_at(sentence, token.span.from) {
            kept = Some(closers_table(alloc, sentence)?);
        }
    }
    Ok(Tokens::from_vec(found))
}

/// Whether `(*` stands at an offset. Where a token begins, it opens a comment that doesn't end.
fn opens_comment_at(text: &[u8], at: u64) -> bool
    ensures { result ≡ opens_comment (drop at text.now) }
{
    match text.get(at as usize..) {
        Some(rest) => opens_comment(rest),
        None => false,
    }
}

/// The laws of tokens: they rise and don't overlap, each is a slice of its sentence, its kind is that of its bytes
/// and the byte behind it makes no longer one, and what stands between them is blanks and whole comments.
pub fn tokens_are_slices()
    ensures rise { (sentence : List ℕ) → TokensRise 0 (tokens_of sentence) }
    ensures each { (sentence : List ℕ) → All (IsTokenOf sentence) (tokens_of sentence) }
    ensures spelled { (sentence : List ℕ) → All (IsSpelled sentence) (tokens_of sentence) }
    ensures between { (sentence : List ℕ) → All (λ b. b < 256) sentence → HasOnlyGaps sentence 0 (tokens_of sentence) }
{}

/// The kind of a brace or a bullet that is a sentence alone.
fn lone_kind(sentence: &[u8]) -> Option<TokenKind>
    ensures { result ≡ lone_kind sentence.now }
{
    match sentence {
        [first, rest @ ..] if is_bullet(*first) && is_run(*first, rest) => Some(TokenKind::Bullet),
        [b'{'] => Some(TokenKind::LeftBrace),
        [b'}'] => Some(TokenKind::RightBrace),
        _ => None,
    }
}

/// Whether a text is one byte over and over.
fn is_run(byte: u8, text: &[u8]) -> bool
    ensures { result ≡ list_all (λ c. c == byte) text.now }
{
    text.iter().all(|c| *c == byte)
}

/// The first token of a text that begins at an offset.
fn next_token(text: &[u8], at: usize, table: Option<&[usize]>) -> Option<Token>
    requires room { at + length text.now < 2 ^ 63 }
    requires table { MatchOption table (Unit {0}) (λ t. IsTable text.now t.now) }
    ensures { result ≡ next_token at text.now }
{
    let gap = gap_length(text, table);
    token_at(text.split_at(gap).1, at + gap)
}

/// The token that a text begins with, which begins at an offset.
fn token_at(text: &[u8], at: usize) -> Option<Token>
    requires { at + length text.now < 2 ^ 63 }
    ensures { result ≡ token_at at text.now }
{
    match text {
        [] => None,
        [first, ..] if begins_name(*first) => Some(word_at(first_name(text), at)),
        [first, rest @ ..] => Some(sign_at(at, *first, rest)),
    }
}

/// The token that a word is, which begins at an offset.
fn word_at(word: &[u8], at: usize) -> Token
    requires { at + length word.now < 2 ^ 63 }
    ensures { result ≡ token_of at (word_kind word.now) (length word.now) }
{
    token_of(at, word_kind(word), word.len())
}

#[cfg(test)]
mod tests {
    use super::TokenKind::*;
    use super::*;
    use std::alloc::AllocGlobal;
    use std::process::Abort;
    use std::test::Fail;

    /// A kind of token, and where it begins and ends.
    type Row = (TokenKind, u64, u64);

    /// Sentences with their tokens.
    const CASES: [(&[u8], &[Row]); 25] = [
        (b"", &[]),
        (b" (* x *) ", &[]),
        (b"Qed.", &[(Name, 0, 3), (FullStop, 3, 4)]),
        (
            b"Parameter : Prop.",
            &[
                (Name, 0, 9),
                (Colon, 10, 11),
                (Prop, 12, 16),
                (FullStop, 16, 17),
            ],
        ),
        (
            b"Axiom a : A -> B /\\ .",
            &[
                (Name, 0, 5),
                (Name, 6, 7),
                (Colon, 8, 9),
                (Name, 10, 11),
                (Arrow, 12, 14),
                (Name, 15, 16),
                (And, 17, 19),
                (FullStop, 20, 21),
            ],
        ),
        (b"--", &[(Bullet, 0, 2)]),
        (b"*", &[(Bullet, 0, 1)]),
        (b"-+", &[(Stray, 0, 1), (Stray, 1, 2)]),
        (b"- ", &[(Stray, 0, 1)]),
        (b"{", &[(LeftBrace, 0, 1)]),
        (b"}", &[(RightBrace, 0, 1)]),
        (b"{}", &[(Stray, 0, 1), (Stray, 1, 2)]),
        (b"a'9_b", &[(Name, 0, 5)]),
        (b"_ 9a", &[(Name, 0, 1), (Stray, 2, 3), (Name, 3, 4)]),
        (b"'a", &[(Stray, 0, 1), (Name, 1, 2)]),
        (
            b"forall exists Prop Set True False as in",
            &[
                (Forall, 0, 6),
                (Exists, 7, 13),
                (Prop, 14, 18),
                (Set, 19, 22),
                (True, 23, 27),
                (False, 28, 33),
                (As, 34, 36),
                (In, 37, 39),
            ],
        ),
        (
            b"foralls intro Lemma prop",
            &[(Name, 0, 7), (Name, 8, 13), (Name, 14, 19), (Name, 20, 24)],
        ),
        (
            b"<->:=-><-<>/\\\\/",
            &[
                (Iff, 0, 3),
                (Define, 3, 5),
                (Arrow, 5, 7),
                (BackArrow, 7, 9),
                (NotEqual, 9, 11),
                (And, 11, 13),
                (Or, 13, 15),
            ],
        ),
        (
            b"()[]:,~=|",
            &[
                (LeftParenthesis, 0, 1),
                (RightParenthesis, 1, 2),
                (LeftBracket, 2, 3),
                (RightBracket, 3, 4),
                (Colon, 4, 5),
                (Comma, 5, 6),
                (Not, 6, 7),
                (Equal, 7, 8),
                (Bar, 8, 9),
            ],
        ),
        (b"<(* *)-", &[(Stray, 0, 1), (Stray, 6, 7)]),
        (
            b"a.b (*.*) .",
            &[
                (Name, 0, 1),
                (Stray, 1, 2),
                (Name, 2, 3),
                (FullStop, 10, 11),
            ],
        ),
        (b"a.(* c *)", &[(Name, 0, 1), (Stray, 1, 2)]),
        (
            b"(* (* x *) y",
            &[(LeftParenthesis, 0, 1), (Stray, 1, 2), (Name, 11, 12)],
        ),
        (
            b"(* (* x *) (* y (* z *)",
            &[
                (LeftParenthesis, 0, 1),
                (Stray, 1, 2),
                (LeftParenthesis, 11, 12),
                (Stray, 12, 13),
                (Name, 14, 15),
            ],
        ),
        (
            b"(*)",
            &[
                (LeftParenthesis, 0, 1),
                (Stray, 1, 2),
                (RightParenthesis, 2, 3),
            ],
        ),
    ];

    fn assert_tokens(
        rt: &(impl Abort + AllocGlobal),
        sentence: &[u8],
        rows: &[Row],
    ) -> Result<(), Fail> {
        let found = tokens(rt.alloc(), sentence)?;
        assert_eq!(rt; found.len(), rows.len(), "at {sentence:?}");
        for (token, (kind, from, to)) in found.as_slice().iter().zip(rows) {
            assert_eq!(rt; token.kind, *kind, "at {sentence:?}");
            assert_eq!(rt; token.span.from, *from, "at {sentence:?}");
            assert_eq!(rt; token.span.to, *to, "at {sentence:?}");
        }
        Ok(())
    }

    #[test]
    fn a_megabyte_has_its_tokens_at_once(rt: HostRuntime) -> Result<(), Fail> {
        let mut comments = Vec::new(rt.alloc());
        let mut bullet = Vec::new(rt.alloc());
        for _ in 0..524288 {
            comments.extend_from_slice(b"(*")?;
            bullet.extend_from_slice(b"--")?;
        }
        assert_eq!(rt; tokens(rt.alloc(), &comments)?.len(), 1048576);
        assert_tokens(&rt, &bullet, &[(Bullet, 0, 1048576)])?;
        bullet.push(b'.')?;
        assert_eq!(rt; tokens(rt.alloc(), &bullet)?.len(), 1048577);
        Ok(())
    }

    #[test]
    fn each_sentence_has_the_tokens_of_the_table(rt: HostRuntime) -> Result<(), Fail> {
        for (sentence, rows) in CASES {
            assert_tokens(&rt, sentence, rows)?;
        }
        Ok(())
    }
}
