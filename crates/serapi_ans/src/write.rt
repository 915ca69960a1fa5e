//! Lines, written.
ghost use Rattle.std.specs.Prelude.{[], ◌∷◌, ◌++◌, map, codes};
ghost use Rattle.std.specs.Option.{option_copied};
ghost use Rattle.stm_base.specs.Output.{IsPut};
ghost use Rattle.sexp_theory.specs.Values.{atom, values};
ghost use Rattle.sexp_theory.specs.Writing.{between, text, texts};
ghost use Rattle.serapi_ans.specs.Lines.{answer_value, number, pair, list_of, range_value, added_value, focus_value, edit_value};
ghost use Rattle.serapi_ans.specs.Lines.{exn_value, bad_value, string_value, fault_value, message_value, verdict_value, line_text};
ghost use Rattle.serapi_ans.specs.Lines.{lines_text, last_lines};
ghost use Rattle.serapi_ans.specs.declared.line.Line.TheVariants as lines;
ghost use Rattle.serapi_ans.specs.Joined.{joined_head, fault_texts, joined_end};
ghost use Rattle.serapi_ans.specs.Pieces.{tip_text, numbers_behind, string_texts};

use crate::pieces::{
    begin_answer, end_answer, open, put_named, put_number, put_numbered, put_numbered_text,
    put_numbered_twice,
};
use crate::{BadText, EditLine, Exn, Line};
use base_core::Bytes;
use sexp_core::put_atom;
use stm_base::{Out, Sink};

/// Writes the text of a line, the byte 10 at its end with it. It takes no memory.
pub fn write_line<K: Sink>(line: &Line, out: &mut Out<K>)
    ensures { IsPut out.old (line_text line.now) out.new }
{
    match line {
        Line::Ack(tag) => write_word(tag.as_slice(), b"Ack", out),
        Line::Added(tag, id, from, to, tip) => {
            begin_answer(tag.as_slice(), out);
            put_added(*id, *from, *to, *tip, out);
            end_answer(out);
        }
        Line::Canceled(tag, ids) => {
            begin_answer(tag.as_slice(), out);
            put_canceled(ids.as_slice(), out);
            end_answer(out);
        }
        Line::EditAt(tag, edit) => {
            begin_answer(tag.as_slice(), out);
            put_edit_at(*edit, out);
            end_answer(out);
        }
        Line::ObjList(tag, texts) => {
            begin_answer(tag.as_slice(), out);
            put_texts(texts.as_slice(), out);
            end_answer(out);
        }
        Line::Joined(tag, sentences, faults) => {
            write_joined(tag.as_slice(), *sentences, faults.as_slice(), out);
        }
        Line::CoqExn(tag, exn) => {
            begin_answer(tag.as_slice(), out);
            put_refusal(exn, out);
            end_answer(out);
        }
        Line::OutOfMemory(tag) => write_word(tag.as_slice(), b"OutOfMemory", out),
        Line::Completed(tag) => write_word(tag.as_slice(), b"Completed", out),
        Line::Feedback(id, route, verdict) => write_verdict(*id, *route, verdict, out),
        Line::BadInput(item, kind, offset) => write_bad(*item, kind, *offset, out),
    }
}

/// Writes the line that answers the command with a tag by a word.
fn write_word<K: Sink>(tag: &[u8], word: &[u8], out: &mut Out<K>)
    ensures { IsPut out.old (text (answer_value tag.now (atom word.now)) ++ 10 ∷ []) out.new }
{
    begin_answer(tag, out);
    put_atom(word, out);
    end_answer(out);
}

/// Writes what tells that a sentence was added.
fn put_added<K: Sink>(id: u64, from: u64, to: u64, tip: Option<u64>, out: &mut Out<K>)
    ensures { IsPut out.old (text (added_value id from to tip)) out.new }
{
    open(b"Added", out);
    put_number(id, out);
    out.put(b" ");
    put_range(from, to, out);
    put_tip(tip, out);
    out.put(b")");
}

/// Writes the offsets of a sentence.
fn put_range<K: Sink>(from: u64, to: u64, out: &mut Out<K>)
    ensures { IsPut out.old (text (range_value from to)) out.new }
{
    out.put(b"(");
    put_numbered(b"bp", from, out);
    put_numbered(b"ep", to, out);
    out.put(b")");
}

/// Writes the tip behind the offsets, with the blank that stands before a word.
fn put_tip<K: Sink>(tip: Option<u64>, out: &mut Out<K>)
    ensures { IsPut out.old (tip_text tip) out.new }
{
    match tip {
        None => out.put(b" NewTip"),
        Some(tip) => put_numbered(b"Unfocus", tip, out),
    }
}

/// Writes what tells that sentences were removed.
fn put_canceled<K: Sink>(ids: &[u64], out: &mut Out<K>)
    ensures { IsPut out.old (text (pair (codes "Canceled") (list_of (map number ids.now)))) out.new }
{
    open(b"Canceled", out);
    put_ids(ids, out);
    out.put(b")");
}

/// Writes a list of numbers.
fn put_ids<K: Sink>(ids: &[u64], out: &mut Out<K>)
    ensures { IsPut out.old (text (list_of (map number ids.now))) out.new }
{
    out.put(b"(");
    put_numbers(ids, out);
    out.put(b")");
}

/// Writes numbers with a blank between each two.
fn put_numbers<K: Sink>(ids: &[u64], out: &mut Out<K>)
    ensures { IsPut out.old (texts (values (map number ids.now))) out.new }
{
    if let Some((first, behind)) = ids.split_first() {
        put_number(*first, out);
        put_behind(behind, out);
    }
}

/// Writes numbers, each with a blank before it.
fn put_behind<K: Sink>(ids: &[u64], out: &mut Out<K>)
    ensures { IsPut out.old (numbers_behind ids.now) out.new }
{
    for id in ids {
        out.put(b" ");
        put_number(*id, out);
    }
}

/// Writes what tells that a sentence was reopened.
fn put_edit_at<K: Sink>(edit: EditLine, out: &mut Out<K>)
    ensures { IsPut out.old (text (pair (codes "EditAt") (edit_value edit))) out.new }
{
    open(b"EditAt", out);
    put_edit(edit, out);
    out.put(b")");
}

fn put_edit<K: Sink>(edit: EditLine, out: &mut Out<K>)
    ensures { IsPut out.old (text (edit_value edit)) out.new }
{
    match edit {
        EditLine::NewTip(id) => put_numbered(b"NewTip", id, out),
        EditLine::Focus(start, stop, tip) => put_focus(start, stop, tip, out),
    }
}

fn put_focus<K: Sink>(start: u64, stop: u64, tip: u64, out: &mut Out<K>)
    ensures { IsPut out.old (text (focus_value start stop tip)) out.new }
{
    out.put(b"(Focus (");
    put_numbered(b"start", start, out);
    put_numbered(b"stop", stop, out);
    put_numbered(b"tip", tip, out);
    out.put(b"))");
}

/// Writes what a Query asked for.
fn put_texts<K: Sink>(texts: &[Bytes], out: &mut Out<K>)
    ensures { IsPut out.old (text (pair (codes "ObjList") (list_of (map string_value texts.now)))) out.new }
{
    out.put(b"(ObjList (");
    put_strings(texts, out);
    out.put(b"))");
}

fn put_strings<K: Sink>(texts: &[Bytes], out: &mut Out<K>)
    ensures { IsPut out.old (string_texts texts.now) out.new }
{
    for text in texts {
        put_named(b"CoqString", text.as_slice(), out);
    }
}

/// Writes why a command is refused.
fn put_refusal<K: Sink>(exn: &Exn, out: &mut Out<K>)
    ensures { IsPut out.old (text (pair (codes "CoqExn") (exn_value exn.now))) out.new }
{
    open(b"CoqExn", out);
    put_exn(exn, out);
    out.put(b")");
}

fn put_exn<K: Sink>(exn: &Exn, out: &mut Out<K>)
    ensures { IsPut out.old (text (exn_value exn.now)) out.new }
{
    match exn {
        Exn::Parse(offset) => put_numbered(b"Parse", *offset, out),
        Exn::NoOpenProof(offset) => put_numbered(b"NoOpenProof", *offset, out),
        Exn::ProofOpen(offset, lemma) => put_numbered_twice(b"ProofOpen", *offset, *lemma, out),
        Exn::BadCloser(offset, closer) => put_numbered_twice(b"BadCloser", *offset, *closer, out),
        Exn::NotTip(id) => put_numbered(b"NotTip", *id, out),
        Exn::NoSuchState(id) => put_numbered(b"NoSuchState", *id, out),
        Exn::ZoneOpen(id, closer) => put_numbered_twice(b"ZoneOpen", *id, *closer, out),
        Exn::TooMany(offset) => put_numbered(b"TooMany", *offset, out),
        Exn::Check(id, text) => put_numbered_text(b"Check", *id, text.as_slice(), out),
        Exn::UnknownName(name) => put_named(b"UnknownName", name.as_slice(), out),
        Exn::Unsupported => out.put(b"Unsupported"),
    }
}

fn write_joined<K: Sink>(tag: &[u8], sentences: u64, faults: &[(u64, Bytes)], out: &mut Out<K>)
    ensures { IsPut out.old (line_text (lines.Joined tag.now sentences faults.now)) out.new }
{
    write_joined_head(tag, sentences, out);
    put_faults(faults, out);
    write_joined_end(out);
}

fn put_faults<K: Sink>(faults: &[(u64, Bytes)], out: &mut Out<K>)
    ensures { IsPut out.old (fault_texts faults.now) out.new }
{
    for fault in faults {
        write_joined_fault(fault.0, fault.1.as_slice(), out);
    }
}

/// Writes the front of the line of a Join's end, up to its faults: the tag, and how many sentences there are. Each
/// fault is then put by `write_joined_fault`, and the rest by `write_joined_end`. It takes no memory.
pub fn write_joined_head<K: Sink>(tag: &[u8], sentences: u64, out: &mut Out<K>)
    ensures { IsPut out.old (joined_head tag.now sentences) out.new }
{
    out.put(b"(Answer ");
    put_atom(tag, out);
    out.put(b" (Joined ");
    put_numbered(b"sentences", sentences, out);
    out.put(b"(faults (");
}

/// Writes a fault of the line of a Join's end: the id of a sentence and the text of its verdict. It takes no memory.
pub fn write_joined_fault<K: Sink>(id: u64, verdict: &[u8], out: &mut Out<K>)
    ensures { IsPut out.old (text (fault_value (id, verdict.now))) out.new }
{
    out.put(b"(");
    put_number(id, out);
    out.put(b" ");
    put_atom(verdict, out);
    out.put(b")");
}

/// Writes the end of the line of a Join's end, the byte 10 with it. It takes no memory.
pub fn write_joined_end<K: Sink>(out: &mut Out<K>)
    ensures { IsPut out.old joined_end out.new }
{
    out.put(b"))))\n");
}

fn write_verdict<K: Sink>(id: u64, route: u64, verdict: &Option<Bytes>, out: &mut Out<K>)
    ensures { IsPut out.old (line_text (lines.Feedback id route verdict.now)) out.new }
{
    match verdict {
        None => write_feedback(id, route, None, out),
        Some(text) => write_feedback(id, route, Some(text.as_slice()), out),
    }
}

/// Writes the line of a verdict: the id of the sentence, the route (0 for a command's own telling, 1 for a result),
/// and the text of the verdict, None where it is Good. It takes no memory.
pub fn write_feedback<K: Sink>(id: u64, route: u64, verdict: Option<&[u8]>, out: &mut Out<K>)
    ensures { IsPut out.old (line_text (lines.Feedback id route (option_copied verdict.entry))) out.new }
{
    out.put(b"(Feedback ((doc_id 0)");
    put_numbered(b"span_id", id, out);
    put_numbered(b"route", route, out);
    put_contents(verdict, out);
    out.put(b"))\n");
}

fn put_contents<K: Sink>(verdict: Option<&[u8]>, out: &mut Out<K>)
    ensures { IsPut out.old (text (pair (codes "contents") (verdict_value (option_copied verdict.entry)))) out.new }
{
    open(b"contents", out);
    put_verdict(verdict, out);
    out.put(b")");
}

fn put_verdict<K: Sink>(verdict: Option<&[u8]>, out: &mut Out<K>)
    ensures { IsPut out.old (text (verdict_value (option_copied verdict.entry))) out.new }
{
    match verdict {
        None => out.put(b"Processed"),
        Some(message) => put_message(message, out),
    }
}

fn put_message<K: Sink>(message: &[u8], out: &mut Out<K>)
    ensures { IsPut out.old (text (message_value message.now)) out.new }
{
    out.put(b"(Message ((level Error)");
    put_named(b"text", message, out);
    out.put(b"))");
}

/// Writes the line of the item with a number that is no command.
fn write_bad<K: Sink>(item: u64, kind: &BadText, offset: u64, out: &mut Out<K>)
    ensures { IsPut out.old (line_text (lines.BadInput item kind.now offset)) out.new }
{
    open(b"BadInput", out);
    put_number(item, out);
    out.put(b" ");
    put_bad(kind, out);
    out.put(b" ");
    put_number(offset, out);
    out.put(b")\n");
}

fn put_bad<K: Sink>(kind: &BadText, out: &mut Out<K>)
    ensures { IsPut out.old (text (bad_value kind.now)) out.new }
{
    match kind {
        BadText::Word(word) => put_atom(word.as_slice(), out),
        BadText::BadField(name) => put_named(b"BadField", name.as_slice(), out),
    }
}

/// Writes the lines that end what a command is answered: OutOfMemory where memory was short, then Completed. It takes
/// no memory.
pub fn write_last<K: Sink>(tag: &[u8], short: bool, out: &mut Out<K>)
    ensures { IsPut out.old (lines_text (last_lines tag.now short)) out.new }
{
    if short {
        write_word(tag, b"OutOfMemory", out);
        write_word(tag, b"Completed", out);
    } else {
        write_word(tag, b"Completed", out);
    }
}
