//! What the type of a line says of its numbers and texts.
ghost use Rattle.serapi_ans.specs.Fitting.{AreSmall, AreTexts, HaveTexts, Fits, FitsEdit, FitsExn, FitsFaults, FitsTip, HasTexts};
ghost use Rattle.serapi_ans.specs.Fitting.{HasExnTexts, IsLine, IsSmall, IsText};

use crate::{BadText, EditLine, Exn, Line};
use base_core::Bytes;

/// Every line of this type is one that the laws of lines speak of: its numbers are below 2^64 and its texts are bytes.
/// The call does nothing but walk through the line; it is made where a proof wants the fact.
#[tactic(auto, using(crate::proofs::Fitted::is_line))]
pub fn lines_fit(line: &Line)
    ensures { IsLine line.now }
{
    numbers_fit(line);
    texts_fit(line);
}

fn numbers_fit(line: &Line)
    ensures { Fits line.now }
{
    match line {
        Line::Ack(_) => {}
        Line::Added(_, id, from, to, tip) => {
            number_fits(*id);
            number_fits(*from);
            number_fits(*to);
            tip_fits(*tip);
        }
        Line::Canceled(_, ids) => ids_fit(ids.as_slice()),
        Line::EditAt(_, edit) => edit_fits(*edit),
        Line::ObjList(_, _) => {}
        Line::Joined(_, sentences, faults) => {
            number_fits(*sentences);
            faults_fit(faults.as_slice());
        }
        Line::CoqExn(_, exn) => exn_fits(exn),
        Line::OutOfMemory(_) => {}
        Line::Completed(_) => {}
        Line::Feedback(id, route, _) => {
            number_fits(*id);
            number_fits(*route);
        }
        Line::BadInput(number, _, offset) => {
            number_fits(*number);
            number_fits(*offset);
        }
    }
}

fn number_fits(_number: u64)
    ensures { IsSmall _number }
{}

fn tip_fits(tip: Option<u64>)
    ensures { FitsTip tip }
{
    if let Some(tip) = tip {
        number_fits(tip);
    }
}

fn ids_fit(ids: &[u64])
    ensures { AreSmall ids.now }
{
    for id in ids {
        number_fits(*id);
    }
}

fn edit_fits(edit: EditLine)
    ensures { FitsEdit edit }
{
    match edit {
        EditLine::NewTip(id) => number_fits(id),
        EditLine::Focus(start, stop, tip) => {
            number_fits(start);
            number_fits(stop);
            number_fits(tip);
        }
    }
}

fn faults_fit(faults: &[(u64, Bytes)])
    ensures { FitsFaults faults.now }
{
    for (id, _) in faults {
        number_fits(*id);
    }
}

fn exn_fits(exn: &Exn)
    ensures { FitsExn exn.now }
{
    match exn {
        Exn::Parse(offset) => number_fits(*offset),
        Exn::NoOpenProof(offset) => number_fits(*offset),
        Exn::ProofOpen(offset, lemma) => {
            number_fits(*offset);
            number_fits(*lemma);
        }
        Exn::BadCloser(offset, closer) => {
            number_fits(*offset);
            number_fits(*closer);
        }
        Exn::NotTip(id) => number_fits(*id),
        Exn::NoSuchState(id) => number_fits(*id),
        Exn::ZoneOpen(id, closer) => {
            number_fits(*id);
            number_fits(*closer);
        }
        Exn::TooMany(offset) => number_fits(*offset),
        Exn::Check(id, _) => number_fits(*id),
        Exn::UnknownName(_) => {}
        Exn::Unsupported => {}
    }
}

fn texts_fit(line: &Line)
    ensures { HasTexts line.now }
{
    match line {
        Line::Ack(tag) => bytes_fit(tag.as_slice()),
        Line::Added(tag, _, _, _, _) => bytes_fit(tag.as_slice()),
        Line::Canceled(tag, _) => bytes_fit(tag.as_slice()),
        Line::EditAt(tag, _) => bytes_fit(tag.as_slice()),
        Line::ObjList(tag, texts) => {
            bytes_fit(tag.as_slice());
            all_fit(texts.as_slice());
        }
        Line::Joined(tag, _, faults) => {
            bytes_fit(tag.as_slice());
            fault_texts_fit(faults.as_slice());
        }
        Line::CoqExn(tag, exn) => {
            bytes_fit(tag.as_slice());
            exn_texts_fit(exn);
        }
        Line::OutOfMemory(tag) => bytes_fit(tag.as_slice()),
        Line::Completed(tag) => bytes_fit(tag.as_slice()),
        Line::Feedback(_, _, None) => {}
        Line::Feedback(_, _, Some(text)) => text_fits(text),
        Line::BadInput(_, BadText::Word(word), _) => text_fits(word),
        Line::BadInput(_, BadText::BadField(name), _) => text_fits(name),
    }
}

fn text_fits(text: &Bytes)
    ensures { IsText text.now }
{
    bytes_fit(text.as_slice());
}

fn bytes_fit(bytes: &[u8])
    ensures { IsText bytes.now }
{}

fn all_fit(texts: &[Bytes])
    ensures { AreTexts texts.now }
{
    for text in texts {
        text_fits(text);
    }
}

fn fault_texts_fit(faults: &[(u64, Bytes)])
    ensures { HaveTexts faults.now }
{
    for (_, text) in faults {
        text_fits(text);
    }
}

fn exn_texts_fit(exn: &Exn)
    ensures { HasExnTexts exn.now }
{
    match exn {
        Exn::Check(_, text) => text_fits(text),
        Exn::UnknownName(name) => text_fits(name),
        _ => {}
    }
}
