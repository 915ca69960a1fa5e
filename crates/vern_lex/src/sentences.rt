//! The sentences of a text.
ghost use Rattle.std.specs.Prelude.{◌≡◌, ℕ, List, All, ◌+◌, ◌<◌, ◌≤◌, ◌==◌, ◌^◌, length, drop, IfOk, Some, None};
ghost use Rattle.std.specs.List.{prefix_len};
ghost use Rattle.vern_lex.specs.Comments.{IsGap, comment_length, first_place, outside};
ghost use Rattle.vern_lex.specs.declared.sentences.CutFault.{CutFault};
ghost use Rattle.vern_lex.specs.Sentences.{HasGapsBefore, IsCutAlone, IsFaultOf, IsSentenceSpan, IsWholeSentence, Rise, last_end, place_of};
ghost use Rattle.vern_lex.specs.Sentences.{is_brace, is_bullet, next_sentence, sentence_at, sentence_length, sentences_of};
ghost use Rattle.vern_lex.specs.Sentences.{length_to_full_stop, stops, is_blank_or_end, within_limit};

use crate::comments::{comment_length, gap_length, is_blank, opens_comment};
use crate::span::{Span, Spans};
use base_core::NoMemory;
use std::alloc::Global;
use thiserror::Error;

/// The longest sentence, in bytes.
const SENTENCE_LIMIT: usize = 65536;

/// Why cutting ended before the text did.
#[derive(Clone, Copy, Debug, PartialEq, Eq, Error)]
pub enum CutFault {
    /// The sentence that begins at this offset has no full stop, or the comment that begins there doesn't end.
    #[error("the sentence or comment at byte {0} has no end")]
    Unclosed(u64),
    /// The sentence that begins at this offset has more than 65,536 bytes.
    #[error("the sentence at byte {0} has more than 65,536 bytes")]
    TooLong(u64),
}

/// The sentences of a text up to the first fault.
#[derive(Debug, Drop)]
pub struct SentenceCut {
    /// Where each sentence stands.
    pub spans: Spans,
    /// The offset behind the last sentence, or 0 where there is none.
    pub rest: u64,
    /// What ended the cutting, where the text's end didn't.
    pub fault: Option<CutFault>,
}

/// Cuts a text into its sentences. It goes over the text once.
pub fn cut_sentences(alloc: Global, text: &[u8]) -> Result<SentenceCut, NoMemory>
    ensures { IfOk result (λ cut. cut ≡ sentences_of text.now) }
{
    let mut spans = Vec::new(alloc);
    let mut at = 0;
    'sentences: while let Some(found) = next_sentence(text.split_at(at).1, at) {
        match found {
            Ok(span) => {
                spans.push(span)?;
                at = span.to as usize;
            }
            Err(fault) => return Ok(cut_up_to(spans, at, Some(fault))),
        }
    }
    Ok(cut_up_to(spans, at, None))
}

/// The laws of cutting: spans rise and don't overlap, each is of a sentence, goes as far as its first byte says, and
/// its bytes cut alone are that sentence; `rest` is where the last ends; blanks and comments before a sentence don't
/// belong to it, and they alone are left where there is no fault; a fault isn't before `rest`, and at its offset
/// stands what it says.
pub fn spans_are_of_sentences()
    ensures rise { (text : List ℕ) → Rise 0 (sentences_of text).spans }
    ensures each { (text : List ℕ) → All (IsSentenceSpan text) (sentences_of text).spans }
    ensures whole { (text : List ℕ) → All (IsWholeSentence text) (sentences_of text).spans }
    ensures alone { (text : List ℕ) → All (IsCutAlone text) (sentences_of text).spans }
    ensures rest { (text : List ℕ) → (sentences_of text).rest ≡ last_end 0 (sentences_of text).spans }
    ensures between { (text : List ℕ) → All (λ b. b < 256) text → HasGapsBefore text 0 (sentences_of text).spans }
    ensures left { (text : List ℕ) → All (λ b. b < 256) text → (sentences_of text).fault ≡ None
        → IsGap (drop (sentences_of text).rest text) }
    ensures faulted { (text : List ℕ) (fault : CutFault) → (sentences_of text).fault ≡ Some fault
        → ((sentences_of text).rest ≤ place_of fault) × IsFaultOf (outside text) fault }
{}

/// What was cut up to an offset where nothing more is.
fn cut_up_to(spans: Vec<Span>, at: usize, fault: Option<CutFault>) -> SentenceCut
    ensures { result ≡ record { spans = spans.items; rest = at; fault = fault } }
{
    SentenceCut {
        spans: Spans::from_vec(spans),
        rest: at as u64,
        fault,
    }
}

/// The first sentence of a text that begins at an offset.
fn next_sentence(text: &[u8], at: usize) -> Option<Result<Span, CutFault>>
    requires { at + length text.now < 2 ^ 64 }
    ensures { result ≡ next_sentence at (outside text.now) }
{
    let gap = gap_length(text, None);
    sentence_at(text.split_at(gap).1, at + gap)
}

/// The sentence that a text begins with, which begins at an offset.
fn sentence_at(text: &[u8], at: usize) -> Option<Result<Span, CutFault>>
    requires room { at + length text.now < 2 ^ 64 }
    requires begun { comment_length text.now ≡ 0 }
    ensures { result ≡ sentence_at at (outside text.now) }
{
    match text {
        [] => None,
        _ if opens_comment(text) => Some(Err(CutFault::Unclosed(at as u64))),
        _ => Some(within_limit(sentence_length(text, at), at)),
    }
}

/// The span of so many bytes from an offset, as far as a sentence may be that long.
fn within_limit(length: Result<usize, CutFault>, at: usize) -> Result<Span, CutFault>
    requires { IfOk length (λ n. at + n < 2 ^ 64) }
    ensures { result ≡ within_limit at length }
{
    let length = length?;
    if length > SENTENCE_LIMIT {
        return Err(CutFault::TooLong(at as u64));
    }
    Ok(Span {
        from: at as u64,
        to: (at + length) as u64,
    })
}

/// The length of the sentence that a text begins with, by its first byte.
fn sentence_length(text: &[u8], at: usize) -> Result<usize, CutFault>
    requires room { at + length text.now < 2 ^ 64 }
    requires begun { comment_length text.now ≡ 0 }
    ensures value { result ≡ sentence_length at (outside text.now) }
    ensures within { IfOk result (λ n. n ≤ length text.now) }
{
    match text {
        [first, ..] if is_brace(*first) => Ok(1),
        [first, ..] if is_bullet(*first) => Ok(run_length(text, *first)),
        _ => length_to_full_stop(text, at),
    }
}

fn is_brace(byte: u8) -> bool
    ensures { result ≡ is_brace byte }
{
    matches!(byte, b'{' | b'}')
}

/// Whether a byte makes bullets.
pub fn is_bullet(byte: u8) -> bool
    ensures { result ≡ is_bullet byte }
{
    matches!(byte, b'-' | b'+' | b'*')
}

/// How often a byte stands at the front of a text.
fn run_length(text: &[u8], byte: u8) -> usize
    ensures within { result ≤ length text.now }
    ensures count { result ≡ prefix_len (λ b. b == byte) text.now }
{
    text.iter().take_while(|b| **b == byte).count()
}

/// The length of a sentence that ends with a full stop, in a text that begins at an offset.
fn length_to_full_stop(text: &[u8], at: usize) -> Result<usize, CutFault>
    requires { at + length text.now < 2 ^ 64 }
    ensures value { result ≡ length_to_full_stop at (first_place stops (outside text.now))
        (drop (first_place stops (outside text.now)) (outside text.now)) }
    ensures within { IfOk result (λ n. n ≤ length text.now) }
{
    let place = stop_place(text);
    match text.split_at(place).1 {
        [] => Err(CutFault::Unclosed(at as u64)),
        [b'.', ..] => Ok(place + 1),
        _ => Err(CutFault::Unclosed((at + place) as u64)),
    }
}

/// Where the first full stop stands that ends a sentence, or the first comment that doesn't end.
fn stop_place(text: &[u8]) -> usize
    ensures value { result ≡ first_place stops (outside text.now) }
    ensures within { result ≤ length text.now }
{
    let mut at = 0;
    'bytes: loop {
        let (_, rest) = text.split_at(at);
        let passed = unstopped_length(rest);
        if passed == 0 {
            return at;
        }
        at += passed;
    }
}

/// The length of the byte or the whole comment that a text begins with, or 0 where it stops.
fn unstopped_length(text: &[u8]) -> usize
    ensures within { result ≤ length text.now }
    ensures place { first_place stops (outside text.now) ≡ result + first_place stops (outside (drop result text.now)) }
    ensures stop { result ≡ 0 → first_place stops (outside text.now) ≡ 0 }
{
    match text {
        [] => 0,
        [b'.', rest @ ..] if is_blank_or_end(rest) => 0,
        _ if opens_comment(text) => comment_length(text),
        _ => 1,
    }
}

/// Whether a blank follows, or the end.
fn is_blank_or_end(text: &[u8]) -> bool
    ensures { result ≡ is_blank_or_end text.now }
{
    match text {
        [] => true,
        [next, ..] => is_blank(*next),
    }
}

#[cfg(test)]
mod tests {
    use super::*;
    use std::alloc::{AllocError, AllocGlobal};
    use std::process::Abort;
    use std::test::Fail;

    type Fault = Option<CutFault>;

    /// Texts with the spans of their sentences, one after the other, and the fault.
    const CASES: [(&[u8], &[u64], Fault); 36] = [
        (
            b"split. - exact b. - exact a. Qed.",
            &[0, 6, 7, 8, 9, 17, 18, 19, 20, 28, 29, 33],
            None,
        ),
        (
            b"Parameter A : Prop. Lemma c : A -> A. Proof. intro h. exact h. Qed.",
            &[0, 19, 20, 37, 38, 44, 45, 53, 54, 62, 63, 67],
            None,
        ),
        (
            b"Parameter A : Prop. Parameter : Prop. Parameter B : Prop.",
            &[0, 19, 20, 37, 38, 57],
            None,
        ),
        (b"", &[], None),
        (b" \t\n\r\x0c", &[], None),
        (b"(* a. *) ", &[], None),
        (b"a.", &[0, 2], None),
        (b"a.\x0b", &[], Some(CutFault::Unclosed(0))),
        (b"a.\x0c", &[0, 2], None),
        (b"a.b", &[], Some(CutFault::Unclosed(0))),
        (b"a.b. c", &[0, 4], Some(CutFault::Unclosed(5))),
        (b"a .b . c.", &[0, 6, 7, 9], None),
        (b". a.", &[0, 1, 2, 4], None),
        (b"..", &[0, 2], None),
        (b" (* x *)a.", &[8, 10], None),
        (b"(* (* . *) . *) a.", &[16, 18], None),
        (b"(* (* . *) a.", &[], Some(CutFault::Unclosed(0))),
        (b"a (* . *) b.", &[0, 12], None),
        (b"a.(* x *) b.", &[0, 12], None),
        (b"Qed.(* c *)", &[], Some(CutFault::Unclosed(0))),
        (b"a (* b. ", &[], Some(CutFault::Unclosed(2))),
        (b"a. (* b. ", &[0, 2], Some(CutFault::Unclosed(3))),
        (b"a. b (*", &[0, 2], Some(CutFault::Unclosed(5))),
        (b"(*)", &[], Some(CutFault::Unclosed(0))),
        (b"(*)*) a.", &[6, 8], None),
        (b"(**) a.", &[5, 7], None),
        (b"(***) a.", &[6, 8], None),
        (b"(*(*)*) a.", &[], Some(CutFault::Unclosed(0))),
        (b"{ a. }", &[0, 1, 2, 4, 5, 6], None),
        (b"{{}}", &[0, 1, 1, 2, 2, 3, 3, 4], None),
        (b"--+a.", &[0, 2, 2, 3, 3, 5], None),
        (b"***) b.", &[0, 3, 3, 7], None),
        (b"-.", &[0, 1, 1, 2], None),
        (b"a-b.", &[0, 4], None),
        (b"( a.", &[0, 4], None),
        (b"a. )", &[0, 2], Some(CutFault::Unclosed(3))),
    ];

    fn assert_cut(
        rt: &(impl Abort + AllocGlobal),
        text: &[u8],
        ends: &[u64],
        fault: Fault,
    ) -> Result<(), Fail> {
        let cut = cut_sentences(rt.alloc(), text)?;
        let mut found = Vec::new(rt.alloc());
        for span in cut.spans.as_slice() {
            found.push(span.from)?;
            found.push(span.to)?;
        }
        assert_eq!(rt; found.as_slice(), ends, "at {text:?}");
        assert_eq!(rt; cut.rest, ends.last().copied().unwrap_or(0), "at {text:?}");
        assert_eq!(rt; cut.fault, fault, "at {text:?}");
        Ok(())
    }

    /// A piece, another so many times, and a third.
    fn repeated(
        alloc: Global,
        front: &[u8],
        piece: &[u8],
        count: usize,
        back: &[u8],
    ) -> Result<Vec<u8>, AllocError> {
        let mut text = front.to_vec(alloc)?;
        for _ in 0..count {
            text.extend_from_slice(piece)?;
        }
        text.extend_from_slice(back)?;
        Ok(text)
    }

    #[test]
    fn each_text_is_cut_by_the_rules(rt: HostRuntime) -> Result<(), Fail> {
        for (text, ends, fault) in CASES {
            assert_cut(&rt, text, ends, fault)?;
        }
        Ok(())
    }

    #[test]
    fn long_sentences_are_too_long(rt: HostRuntime) -> Result<(), Fail> {
        let alloc = rt.alloc();
        for (front, count, back, ends, fault) in [
            (
                b"".as_slice(),
                65535,
                b".".as_slice(),
                [0, 65536].as_slice(),
                None,
            ),
            (
                b"a. ",
                65535,
                b". b.",
                &[0, 2, 3, 65539, 65540, 65542],
                None,
            ),
            (b"a. ", 65536, b". b.", &[0, 2], Some(CutFault::TooLong(3))),
            (b" ", 65537, b"", &[], Some(CutFault::Unclosed(1))),
        ] {
            let text = repeated(alloc, front, b"a", count, back)?;
            assert_cut(&rt, &text, ends, fault)?;
        }
        let bullet = repeated(alloc, b"", b"-", 65536, b"")?;
        assert_cut(&rt, &bullet, &[0, 65536], None)?;
        let longer = repeated(alloc, b"", b"-", 65537, b"")?;
        assert_cut(&rt, &longer, &[], Some(CutFault::TooLong(0)))
    }

    #[test]
    fn a_megabyte_is_cut_at_once(rt: HostRuntime) -> Result<(), Fail> {
        let comments = repeated(rt.alloc(), b"", b"(*", 524288, b"")?;
        assert_cut(&rt, &comments, &[], Some(CutFault::Unclosed(0)))?;
        let bullet = repeated(rt.alloc(), b"", b"-", 1048576, b"")?;
        assert_cut(&rt, &bullet, &[], Some(CutFault::TooLong(0)))
    }
}
