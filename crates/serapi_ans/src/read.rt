//! Lines, read back.
ghost use Rattle.std.specs.Prelude.{◌≡◌, ◌↔◌, ◌≢◌, ◌++◌, ◌∷◌, [], IfOk, IsTrue, map};
ghost use Rattle.sexp_theory.specs.Values.{values};
ghost use Rattle.sexp_theory.specs.Writing.{text};
ghost use Rattle.sexp_core.specs.Sexp.{meaning};
ghost use Rattle.serapi_ans.specs.Lines.{line_value};
ghost use Rattle.serapi_ans.specs.Fitting.{IsLine};
ghost use Rattle.serapi_ans.specs.ReadBack.{
  value_in,
  text_in,
  number_from,
  number_in,
  with_digit,
  rest_of,
  first_of,
  all_of,
  at0,
  at1,
  at2,
  at3,
  has_word,
  numbers_in,
  strings_in,
  faults_in,
  tip_of,
  edit_of,
  exn_of,
  list_exn_of,
  numbered_exn_of,
  verdict_of,
  kind_of,
  plain_of,
  answer_of,
  list_answer_of,
  added_of,
  feedback_of,
  line_of,
  IsRead,
  ReadsEach,
};

use crate::{BadText, EditLine, Exn, FaultTexts, Line, Texts, lines_fit, write_line};
use base_core::{Bytes, Ids, NoMemory, Sequence, SharedBytes};
use sexp_core::{Sexp, read_text};
use std::alloc::Global;
use stm_base::{MemSink, Out};
use thiserror::Error;

/// Why no line was read.
#[derive(Clone, Copy, Debug, PartialEq, Eq, Error)]
pub enum LineFault {
    /// No line has this text.
    #[error("not the text of a line")]
    NotALine,
    /// Memory was wanting; the bytes may be a line.
    #[error("out of memory")]
    NoMemory,
}

impl From<NoMemory> for LineFault {
    ghost use Rattle.std.specs.Prelude.{◌≡◌};
    ghost use Rattle.serapi_ans.specs.declared.read.LineFault.TheVariants.{NoMemory};

    ghost from_gives = { λ _ fault. fault ≡ NoMemory };

    fn from(_: NoMemory) -> LineFault {
        LineFault::NoMemory
    }
}

/// Reads a line back from its text without the byte 10, however long it is: the text of each line is answered by that
/// line, or by want of memory (`each`). NotALine exactly where no line has this text; a text with a blank more, or a
/// number with a zero before it, is no line's.
#[tactic(auto, using(crate::proofs::Readings::no_value, crate::proofs::Readings::other_line))]
pub fn read_line(alloc: Global, bytes: &[u8]) -> Result<Line, LineFault>
    ensures read { IsRead bytes.now result }
    ensures is_line { IfOk result (λ line. IsLine line) }
    ensures each { ReadsEach bytes.now result }
{
    let Some(sexp) = read_text(alloc, bytes)? else {
        return Err(LineFault::NotALine);
    };
    let line = read_value(alloc, Some(&sexp))?;
    if is_text_of(alloc, bytes, &line)? {
        lines_fit(&line);
        Ok(line)
    } else {
        Err(LineFault::NotALine)
    }
}

/// Whether the line has this text, the byte 10 aside.
#[tactic(auto, using(crate::proofs::Readings::before_end))]
fn is_text_of(alloc: Global, bytes: &[u8], line: &Line) -> Result<bool, NoMemory>
    ensures { IfOk result (λ same. IsTrue same ↔ (text (line_value line.now) ≡ bytes.now)) }
{
    let mut out = Out::new(MemSink::new(Vec::new(alloc), usize::MAX, Vec::new(alloc)));
    write_line(line, &mut out);
    let failed = out.failed();
    let sink = out.into_sink();
    if failed {
        return Err(NoMemory);
    }
    Ok(is_line_of(sink.bytes(), bytes))
}

/// Whether the first is the second with a byte 10 behind it.
fn is_line_of(line: &[u8], bytes: &[u8]) -> bool
    ensures { IsTrue result ↔ (line.now ≡ bytes.now ++ 10 ∷ []) }
{
    match line.split_last() {
        Some((last, front)) => *last == 10 && are_same(front, bytes),
        None => false,
    }
}

fn are_same(front: &[u8], bytes: &[u8]) -> bool
    ensures { IsTrue result ↔ (front.now ≡ bytes.now) }
{
    front == bytes
}

// ---- parts of a value; what has none has nothing in its place

fn all(part: Option<&Sexp>) -> &[Sexp]
    ensures { values (map meaning result.now) ≡ all_of (value_in part.entry) }
{
    match part {
        Some(Sexp::List(values)) => values.as_slice(),
        _ => &[],
    }
}

fn rest(each: &[Sexp]) -> &[Sexp]
    ensures { values (map meaning result.now) ≡ rest_of (values (map meaning each.now)) }
{
    match each.split_first() {
        Some((_, rest)) => rest,
        None => &[],
    }
}

fn first(each: &[Sexp]) -> Option<&Sexp>
    ensures { value_in result ≡ first_of (values (map meaning each.now)) }
{
    each.first()
}

fn at0(part: Option<&Sexp>) -> Option<&Sexp>
    ensures { value_in result ≡ at0 (value_in part.entry) }
{
    first(all(part))
}

fn at1(part: Option<&Sexp>) -> Option<&Sexp>
    ensures { value_in result ≡ at1 (value_in part.entry) }
{
    first(rest(all(part)))
}

fn at2(part: Option<&Sexp>) -> Option<&Sexp>
    ensures { value_in result ≡ at2 (value_in part.entry) }
{
    first(rest(rest(all(part))))
}

fn at3(part: Option<&Sexp>) -> Option<&Sexp>
    ensures { value_in result ≡ at3 (value_in part.entry) }
{
    first(rest(rest(rest(all(part)))))
}

fn text_in(part: Option<&Sexp>) -> &[u8]
    ensures { result.now ≡ text_in (value_in part.entry) }
{
    match part {
        Some(Sexp::Atom(bytes)) => bytes.as_slice(),
        _ => &[],
    }
}

fn number_in(part: Option<&Sexp>) -> u64
    ensures { result ≡ number_in (value_in part.entry) }
{
    number_from(text_in(part))
}

fn number_from(digits: &[u8]) -> u64
    ensures { result ≡ number_from 0 digits.now }
{
    let mut number: u64 = 0;
    for digit in digits {
        number = with_digit(number, *digit);
    }
    number
}

/// The number with one digit more, or 0 where that is no digit or the number is too large.
fn with_digit(number: u64, digit: u8) -> u64
    ensures { result ≡ with_digit number digit }
{
    if !digit.is_ascii_digit() {
        return 0;
    }
    let Some(tens) = number.checked_mul(10) else {
        return 0;
    };
    tens.checked_add(u64::from(digit - b'0')).unwrap_or(0)
}

fn has_word(part: Option<&Sexp>, word: &[u8]) -> bool
    ensures { result ≡ has_word (value_in part.entry) word.now }
{
    text_in(at0(part)) == word
}

fn copy_text(alloc: Global, part: Option<&Sexp>) -> Result<Bytes, NoMemory>
    ensures { IfOk result (λ copy. copy ≡ text_in (value_in part.entry)) }
{
    Bytes::from_slice(alloc, text_in(part))
}

fn read_numbers(alloc: Global, each: &[Sexp]) -> Result<Ids, NoMemory>
    ensures { IfOk result (λ ids. ids ≡ numbers_in (values (map meaning each.now))) }
{
    let mut ids = Ids::new(alloc);
    for value in each {
        ids.push(number_in(Some(value)))?;
    }
    Ok(ids)
}

fn read_strings(alloc: Global, each: &[Sexp]) -> Result<Texts, NoMemory>
    ensures { IfOk result (λ texts. texts ≡ strings_in (values (map meaning each.now))) }
{
    let mut texts = Sequence::new(alloc);
    for value in each {
        let text = copy_text(alloc, at1(Some(value)))?;
        texts.push(text)?;
    }
    Ok(texts)
}

fn read_faults(alloc: Global, each: &[Sexp]) -> Result<FaultTexts, NoMemory>
    ensures { IfOk result (λ faults. faults ≡ faults_in (values (map meaning each.now))) }
{
    let mut faults = Sequence::new(alloc);
    for value in each {
        let id = number_in(at0(Some(value)));
        let text = copy_text(alloc, at1(Some(value)))?;
        faults.push((id, text))?;
    }
    Ok(faults)
}

// ---- lines

fn read_tip(part: Option<&Sexp>) -> Option<u64>
    ensures { result ≡ tip_of (value_in part.entry) }
{
    match part {
        Some(Sexp::List(_)) => Some(number_in(at1(part))),
        _ => None,
    }
}

fn read_edit(part: Option<&Sexp>) -> EditLine
    ensures { result ≡ edit_of (value_in part.entry) }
{
    let inner = at1(part);
    if has_word(part, b"NewTip") {
        EditLine::NewTip(number_in(inner))
    } else {
        EditLine::Focus(
            number_in(at1(at0(inner))),
            number_in(at1(at1(inner))),
            number_in(at1(at2(inner))),
        )
    }
}

fn read_exn(alloc: Global, part: Option<&Sexp>) -> Result<Exn, NoMemory>
    ensures { IfOk result (λ exn. exn ≡ exn_of (value_in part.entry)) }
{
    match part {
        Some(Sexp::List(_)) => read_list_exn(alloc, part),
        _ => Ok(Exn::Unsupported),
    }
}

fn read_list_exn(alloc: Global, part: Option<&Sexp>) -> Result<Exn, NoMemory>
    ensures { IfOk result (λ exn. exn ≡ list_exn_of (value_in part.entry)) }
{
    if has_word(part, b"Check") {
        let text = copy_text(alloc, at2(part))?;
        return Ok(Exn::Check(number_in(at1(part)), text));
    }
    if has_word(part, b"UnknownName") {
        return Ok(Exn::UnknownName(copy_text(alloc, at1(part))?));
    }
    Ok(numbered_exn(part, number_in(at1(part)), number_in(at2(part))))
}

fn numbered_exn(part: Option<&Sexp>, first: u64, second: u64) -> Exn
    ensures { result ≡ numbered_exn_of (value_in part.entry) first second }
{
    if has_word(part, b"Parse") {
        Exn::Parse(first)
    } else if has_word(part, b"NoOpenProof") {
        Exn::NoOpenProof(first)
    } else if has_word(part, b"ProofOpen") {
        Exn::ProofOpen(first, second)
    } else if has_word(part, b"BadCloser") {
        Exn::BadCloser(first, second)
    } else if has_word(part, b"NotTip") {
        Exn::NotTip(first)
    } else if has_word(part, b"NoSuchState") {
        Exn::NoSuchState(first)
    } else if has_word(part, b"ZoneOpen") {
        Exn::ZoneOpen(first, second)
    } else {
        Exn::TooMany(first)
    }
}

fn read_verdict(alloc: Global, part: Option<&Sexp>) -> Result<Option<Bytes>, NoMemory>
    ensures { IfOk result (λ verdict. verdict ≡ verdict_of (value_in part.entry)) }
{
    match part {
        Some(Sexp::List(_)) => Ok(Some(copy_text(alloc, at1(at1(at1(part))))?)),
        _ => Ok(None),
    }
}

fn read_kind(alloc: Global, part: Option<&Sexp>) -> Result<BadText, NoMemory>
    ensures { IfOk result (λ kind. kind ≡ kind_of (value_in part.entry)) }
{
    match part {
        Some(Sexp::List(_)) => Ok(BadText::BadField(copy_text(alloc, at1(part))?)),
        _ => Ok(BadText::Word(copy_text(alloc, part)?)),
    }
}

fn read_plain(tag: SharedBytes, word: &[u8]) -> Line
    ensures { result ≡ plain_of tag word.now }
{
    if word == b"Ack".as_slice() {
        Line::Ack(tag)
    } else if word == b"OutOfMemory".as_slice() {
        Line::OutOfMemory(tag)
    } else {
        Line::Completed(tag)
    }
}

fn read_answer(alloc: Global, tag: SharedBytes, part: Option<&Sexp>) -> Result<Line, NoMemory>
    ensures { IfOk result (λ line. line ≡ answer_of tag (value_in part.entry)) }
{
    match part {
        Some(Sexp::List(_)) => read_list_answer(alloc, tag, part),
        _ => Ok(read_plain(tag, text_in(part))),
    }
}

fn read_list_answer(alloc: Global, tag: SharedBytes, part: Option<&Sexp>) -> Result<Line, NoMemory>
    ensures { IfOk result (λ line. line ≡ list_answer_of tag (value_in part.entry)) }
{
    if has_word(part, b"Added") {
        Ok(read_added(tag, part))
    } else if has_word(part, b"Canceled") {
        Ok(Line::Canceled(tag, read_numbers(alloc, all(at1(part)))?))
    } else if has_word(part, b"EditAt") {
        Ok(Line::EditAt(tag, read_edit(at1(part))))
    } else if has_word(part, b"ObjList") {
        Ok(Line::ObjList(tag, read_strings(alloc, all(at1(part)))?))
    } else if has_word(part, b"Joined") {
        let faults = read_faults(alloc, all(at1(at2(part))))?;
        Ok(Line::Joined(tag, number_in(at1(at1(part))), faults))
    } else {
        Ok(Line::CoqExn(tag, read_exn(alloc, at1(part))?))
    }
}

fn read_added(tag: SharedBytes, part: Option<&Sexp>) -> Line
    ensures { result ≡ added_of tag (value_in part.entry) }
{
    let range = at2(part);
    Line::Added(
        tag,
        number_in(at1(part)),
        number_in(at1(at0(range))),
        number_in(at1(at1(range))),
        read_tip(at3(part)),
    )
}

/// The line whose value this is, if it is one's; else any line.
fn read_value(alloc: Global, part: Option<&Sexp>) -> Result<Line, NoMemory>
    ensures { IfOk result (λ line. line ≡ line_of (value_in part.entry)) }
{
    if has_word(part, b"Answer") {
        let tag = SharedBytes::from_slice(alloc, text_in(at1(part)))?;
        read_answer(alloc, tag, at2(part))
    } else if has_word(part, b"Feedback") {
        read_feedback(alloc, at1(part))
    } else {
        let kind = read_kind(alloc, at2(part))?;
        Ok(Line::BadInput(number_in(at1(part)), kind, number_in(at3(part))))
    }
}

fn read_feedback(alloc: Global, part: Option<&Sexp>) -> Result<Line, NoMemory>
    ensures { IfOk result (λ line. line ≡ feedback_of (value_in part.entry)) }
{
    let verdict = read_verdict(alloc, at1(at3(part)))?;
    Ok(Line::Feedback(
        number_in(at1(at1(part))),
        number_in(at1(at2(part))),
        verdict,
    ))
}
