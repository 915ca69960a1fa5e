//! What is found about a sentence.
ghost use Rattle.std.specs.Prelude.{◌≡◌, ◌++◌, OnOk, IfOk};
ghost use Rattle.std.specs.Fmt.{decimal};
ghost use Rattle.step_core.specs.Verdicts.{fault_of, verdict_of};
ghost use Rattle.step_theory.specs.Texts.{at_span, fault_text, size_text, verdict_text};

use base_core::{Bytes, NoMemory};
use itoa::Buffer;
use std::alloc::Global;
use vern_lex::Span;

/// Why a sentence isn't good. A span is of bytes of the sentence, from its first byte on.
#[derive(Clone, Copy, Debug, PartialEq, Eq)]
pub enum Fault {
    /// Nothing has the name that stands here.
    UnknownName(Span),
    /// What stands here is of another kind (sort, term, formula) than the one that is asked.
    WrongKind(Span),
    /// A term of another sort than the one that is asked.
    WrongSort(Span),
    /// A name with another number of arguments than it takes.
    WrongArity(Span),
    /// The name that is declared here has been declared before, or stands twice among the parameters.
    AlreadyDeclared(Span),
    /// What is declared, or its normal form, has so many nodes and is so high, one of them too much; 2^32 stands for that
    /// and more.
    TooLarge(u64, u64),
    /// No goal is focused.
    NoGoal,
    /// No hypothesis has the name.
    NoSuchHyp,
    /// A formula isn't of the form that is asked.
    NotOfForm,
    /// What is shown is another formula, or no instance is found.
    CannotMatch,
    /// The name is taken.
    NameTaken,
    /// A bullet or a brace that can't stand here.
    BadBullet,
    /// So many goals are left.
    Unfinished(u64),
}

/// What is found about a sentence.
#[derive(Clone, Copy, Debug, PartialEq, Eq)]
pub enum Verdict {
    Good,
    Fault(Fault),
    /// The first fault of its proof is at the sentence with this id.
    Blocked(u64),
}

/// The text of a verdict, as results and answers tell it; of `Good` there is none. The texts are those of
/// docs/LANGUAGE.md, "Texts of verdicts".
pub fn verdict_text(alloc: Global, verdict: &Verdict) -> Result<Bytes, NoMemory>
    ensures { IfOk result (λ text. text ≡ verdict_text (verdict_of verdict.now)) }
{
    let mut text = Vec::new(alloc);
    match verdict {
        Verdict::Good => {}
        Verdict::Fault(fault) => put_fault(&mut text, fault)?,
        Verdict::Blocked(id) => {
            put(&mut text, b"blocked by ")?;
            put_number(&mut text, *id)?;
        }
    }
    Ok(Bytes::from_vec(text))
}

/// The text of a fault more.
fn put_fault(text: &mut Vec<u8>, fault: &Fault) -> Result<(), NoMemory>
    ensures { OnOk result (text.new.items ≡ text.old.items ++ fault_text (fault_of fault.now)) }
{
    match fault {
        Fault::UnknownName(span) => put_at(text, b"unknown name", span),
        Fault::WrongKind(span) => put_at(text, b"wrong kind", span),
        Fault::WrongSort(span) => put_at(text, b"wrong sort", span),
        Fault::WrongArity(span) => put_at(text, b"wrong arity", span),
        Fault::AlreadyDeclared(span) => put_at(text, b"already declared", span),
        Fault::TooLarge(nodes, height) => put_size(text, *nodes, *height),
        Fault::NoGoal => put(text, b"no goal"),
        Fault::NoSuchHyp => put(text, b"no such hypothesis"),
        Fault::NotOfForm => put(text, b"not of this form"),
        Fault::CannotMatch => put(text, b"cannot match"),
        Fault::NameTaken => put(text, b"name taken"),
        Fault::BadBullet => put(text, b"wrong bullet"),
        Fault::Unfinished(count) => {
            put_number(text, *count)?;
            put(text, b" goals left")
        }
    }
}

/// What is wrong, and where.
fn put_at(text: &mut Vec<u8>, what: &[u8], span: &Span) -> Result<(), NoMemory>
    ensures { OnOk result (text.new.items ≡ text.old.items ++ at_span what.now span.now) }
{
    put(text, what)?;
    put(text, b" at ")?;
    put_number(text, span.from)?;
    put(text, b"-")?;
    put_number(text, span.to)
}

/// What is too large.
fn put_size(text: &mut Vec<u8>, nodes: u64, height: u64) -> Result<(), NoMemory>
    ensures { OnOk result (text.new.items ≡ text.old.items ++ size_text nodes height) }
{
    put(text, b"too large: ")?;
    put_number(text, nodes)?;
    put(text, b" nodes, height ")?;
    put_number(text, height)
}

/// Bytes more.
pub(crate) fn put(text: &mut Vec<u8>, bytes: &[u8]) -> Result<(), NoMemory>
    ensures { OnOk result (text.new.items ≡ text.old.items ++ bytes.now) }
{
    text.extend_from_slice(bytes)?;
    Ok(())
}

/// A number more, in decimal.
fn put_number(text: &mut Vec<u8>, value: u64) -> Result<(), NoMemory>
    ensures { OnOk result (text.new.items ≡ text.old.items ++ decimal value) }
{
    put(text, Buffer::new().format(value).as_bytes())
}
