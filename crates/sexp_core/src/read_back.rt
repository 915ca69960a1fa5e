//! Written values, read back.
ghost use Rattle.std.specs.Prelude.{◌≡◌, ◌↔◌, ◌≤◌, IfOk, IsTrue, MatchOption};
ghost use Rattle.sexp_theory.specs.Values.{Value, nesting};
ghost use Rattle.sexp_theory.specs.Writing.{text};
ghost use Rattle.sexp_theory.specs.Written.{IsTextOf};
ghost use Rattle.sexp_theory.specs.Places.{most_lists};
ghost use Rattle.sexp_core.specs.Sexp.{meaning};
ghost use Rattle.sexp_core.specs.Candidates.{IsCandidate};

use crate::{Item, Reader, Sexp, write};
use base_core::NoMemory;
use std::alloc::Global;
use stm_base::{MemSink, Out};

/// The value whose text the bytes are, however many they are; None exactly where they are the text of no value with at
/// most 256 lists inside one another. A value that is spelled otherwise than `write` does, as `( a )` or `"a"`, has
/// another text, so it is None.
pub fn read_text(alloc: Global, bytes: &[u8]) -> Result<Option<Sexp>, NoMemory>
    ensures { IfOk result (λ read. MatchOption read ((v : Value) → IsTextOf bytes.now v → ⊥) (λ sexp. IsTextOf bytes.now (meaning sexp))) }
{
    let Some(sexp) = only_candidate(alloc, bytes)? else {
        return Ok(None);
    };
    if is_text_of(alloc, bytes, &sexp)? {
        Ok(Some(sexp))
    } else {
        Ok(None)
    }
}

/// The value that the bytes begin with, which alone they may be the text of.
fn only_candidate(alloc: Global, bytes: &[u8]) -> Result<Option<Sexp>, NoMemory>
    ensures { IfOk result (λ first. MatchOption first ((v : Value) → IsTextOf bytes.now v → ⊥)
        (λ sexp. IsCandidate bytes.now (meaning sexp))) }
{
    let mut reader = Reader::with_limit(alloc, u64::MAX)?;
    reader.feed(bytes)?;
    reader.feed(b"\n")?;
    match reader.next()? {
        Some(Item::Value(sexp, _, _)) => Ok(Some(sexp)),
        Some(Item::Bad(_, _)) => Ok(None),
        None => Ok(None),
    }
}

/// Whether the value is written as these bytes.
fn is_text_of(alloc: Global, bytes: &[u8], sexp: &Sexp) -> Result<bool, NoMemory>
    requires { nesting (meaning sexp.now) ≤ most_lists }
    ensures { IfOk result (λ same. IsTrue same ↔ (text (meaning sexp.now) ≡ bytes.now)) }
{
    let mut out = Out::new(MemSink::new(Vec::new(alloc), usize::MAX, Vec::new(alloc)));
    write(sexp, &mut out);
    let failed = out.failed();
    let sink = out.into_sink();
    if failed {
        return Err(NoMemory);
    }
    Ok(sink.bytes() == bytes)
}
