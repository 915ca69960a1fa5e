//! The sentence of a span.
ghost use Rattle.std.specs.Prelude.{◌≡◌, ◌≤◌, length};
ghost use Rattle.vern_lex.specs.Sentences.{IsSentenceSpan};
ghost use Rattle.vern_grammar.specs.Kinds.{slice};
ghost use Rattle.batch_check.specs.Batch.{piece_of};
ghost use Rattle.batch_check.specs.Run.{IsReadAs};

use std::alloc::Global;
use vern_lex::Span;
use vern_step::{ParseFault, Sentence};

/// Reads the sentence of a span. A fault's offset counts from the first byte of the text.
pub(crate) fn read_span(alloc: Global, text: &[u8], span: Span) -> Result<Sentence, ParseFault>
    requires { IsSentenceSpan text.now span }
    ensures { IsReadAs result (piece_of text.now span) span }
{
    match Sentence::read(alloc, bytes_of(text, span)) {
        Ok(sentence) => Ok(sentence),
        Err(ParseFault::At(offset)) => Err(ParseFault::At(span.from + offset)),
        Err(ParseFault::NoMemory) => Err(ParseFault::NoMemory),
    }
}

/// The bytes of a span.
fn bytes_of(text: &[u8], span: Span) -> &[u8]
    requires ordered { span.from ≤ span.to }
    requires within { span.to ≤ length text.now }
    ensures { result.now ≡ slice text.now span }
{
    let (_, rest) = text.split_at(span.from as usize);
    rest.split_at((span.to - span.from) as usize).0
}
