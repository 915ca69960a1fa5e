//! What an Add of a text does.
ghost use Rattle.std.specs.Prelude.{◌≡◌, ◌≤◌, length};
ghost use Rattle.vern_lex.specs.Sentences.{IsSentenceSpan};
ghost use Rattle.vern_grammar.specs.Kinds.{slice};
ghost use Rattle.doc_core.specs.Pieces.{piece_of, pieces_of, place_in_proofs};
ghost use Rattle.doc_core.specs.Answers.{is_plain};
ghost use Rattle.doc_core.specs.Kept.{refusal_of, Adds, AddsOne, IsReadAs};

use crate::script::Script;
use base_core::{NoMemory, SharedBytes, SparedSequence};
use serapi_ans::{Exn, Line};
use std::alloc::Global;
use vern_lex::{CutFault, Span, cut_sentences, spans_are_of_sentences};
use vern_step::{Kind, ParseFault, Sentence};

/// Adds the sentences of a text one after the other, each with its line, up to the first refusal, which is answered. With
/// `Err` the sentences before stay added.
pub fn add_text(
    alloc: Global,
    script: &mut Script,
    tag: &SharedBytes,
    text: &[u8],
    lines: &mut SparedSequence<Line>,
) -> Result<Option<Exn>, NoMemory>
    requires { 2 ≤ lines.old.spare }
    ensures room { 2 ≤ lines.new.spare }
    ensures limit { script.new.limit ≡ script.old.limit }
    ensures adds { Adds result tag.now (pieces_of text.now) script.old lines.old.items script.new lines.new.items }
{
    spans_are_of_sentences();
    let cut = cut_sentences(alloc, text)?;
    for span in cut.spans.as_slice() {
        match add_span(alloc, script, tag, text, *span, lines) {
            Ok(None) => {}
            Ok(Some(refusal)) => return Ok(Some(refusal)),
            Err(_) => return Err(NoMemory),
        }
    }
    Ok(refusal_of(cut.fault))
}

/// How it is refused that a text can't be cut further.
fn refusal_of(fault: Option<CutFault>) -> Option<Exn>
    ensures { result ≡ refusal_of fault }
{
    match fault {
        None => None,
        Some(CutFault::Unclosed(at) | CutFault::TooLong(at)) => Some(Exn::Parse(at)),
    }
}

/// Adds the sentence of a span, with its line, or answers its refusal.
fn add_span(
    alloc: Global,
    script: &mut Script,
    tag: &SharedBytes,
    text: &[u8],
    span: Span,
    lines: &mut SparedSequence<Line>,
) -> Result<Option<Exn>, NoMemory>
    requires span { IsSentenceSpan text.now span }
    requires room { 2 ≤ lines.old.spare }
    ensures room { 2 ≤ lines.new.spare }
    ensures limit { script.new.limit ≡ script.old.limit }
    ensures adds { AddsOne result tag.now script.old (piece_of text.now span) lines.old.items script.new lines.new.items }
{
    let sentence = match read_span(alloc, text, span) {
        Ok(sentence) => sentence,
        Err(ParseFault::At(offset)) => return Ok(Some(Exn::Parse(offset))),
        Err(ParseFault::NoMemory) => return Err(NoMemory),
    };
    if !is_plain(sentence.kind()) {
        return Ok(Some(Exn::Unsupported));
    }
    if script.is_full() {
        return Ok(Some(Exn::TooMany(span.from)));
    }
    let tag = tag.share()?;
    lines.reserve(3)?;
    let id = script.add(sentence)?;
    lines.push_reserved(Line::Added(tag, id, span.from, span.to, None));
    Ok(None)
}

/// Whether such a sentence is built.
fn is_plain(kind: Kind) -> bool
    ensures { result ≡ is_plain (place_in_proofs kind) }
{
    match kind {
        Kind::Plain => true,
        _ => false,
    }
}

/// Reads the sentence of a span. A fault's offset counts from the first byte of the text.
fn read_span(alloc: Global, text: &[u8], span: Span) -> Result<Sentence, ParseFault>
    requires { IsSentenceSpan text.now span }
    ensures { IsReadAs result (piece_of text.now span) span }
{
    match Sentence::read(alloc, bytes_of(text, span)) {
        Ok(sentence) => Ok(sentence),
        Err(ParseFault::At(offset)) => Err(ParseFault::At(span.from + offset)),
        Err(ParseFault::NoMemory) => Err(ParseFault::NoMemory),
    }
}

/// The bytes of a span.
fn bytes_of(text: &[u8], span: Span) -> &[u8]
    requires ordered { span.from ≤ span.to }
    requires within { span.to ≤ length text.now }
    ensures { result.now ≡ slice text.now span }
{
    let (_, rest) = text.split_at(span.from as usize);
    rest.split_at((span.to - span.from) as usize).0
}
