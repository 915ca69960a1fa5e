//! Lines with the texts that they are written as, typed from the table of lines.

use crate::*;
use base_core::{Bytes, Ids, NoMemory, Sequence, SharedBytes};
use std::alloc::Global;
use std::process::Abort;
use std::test::Fail;
use stm_base::{MemSink, Out};

const MOST: u64 = 18446744073709551615;

/// An Out to memory that takes at most so many bytes a write.
fn memory(alloc: Global, most: usize) -> Out<MemSink> {
    Out::new(MemSink::new(Vec::new(alloc), most, Vec::new(alloc)))
}

/// Compares what was put.
fn put(rt: &impl Abort, out: Out<MemSink>, want: &str) {
    assert!(rt; !out.failed());
    assert_eq!(rt; out.into_sink().bytes(), want.as_bytes());
}

/// Writes the line and compares its text, in one piece and byte by byte. Then reads the text back and writes what was
/// read.
fn check(rt: &(impl Abort + AllocGlobal), line: Line, want: &str) {
    let mut out = memory(rt.alloc(), 1000);
    write_line(&line, &mut out);
    put(rt, out, want);
    let mut out = memory(rt.alloc(), 1000);
    match read_line(rt.alloc(), want.trim_end().as_bytes()) {
        Ok(read) => write_line(&read, &mut out),
        Err(fault) => panic!(rt; "{fault}: {want}"),
    }
    put(rt, out, want);
    let mut out = memory(rt.alloc(), 1);
    write_line(&line, &mut out);
    put(rt, out, want);
}

fn text(alloc: Global, bytes: &str) -> Result<Bytes, NoMemory> {
    Bytes::from_slice(alloc, bytes.as_bytes())
}

fn texts(alloc: Global, each: &[&str]) -> Result<Texts, NoMemory> {
    let mut texts = Sequence::new(alloc);
    for bytes in each {
        texts.push(text(alloc, bytes)?)?;
    }
    Ok(texts)
}

fn faults(alloc: Global, each: &[(u64, &str)]) -> Result<FaultTexts, NoMemory> {
    let mut faults = Sequence::new(alloc);
    for (id, bytes) in each {
        faults.push((*id, text(alloc, bytes)?))?;
    }
    Ok(faults)
}

#[test]
fn each_answer_has_its_text(rt: HostRuntime) -> Result<(), Fail> {
    let alloc = rt.alloc();
    let tag = || SharedBytes::from_slice(alloc, b"7");
    check(&rt, Line::Ack(tag()?), "(Answer 7 Ack)\n");
    check(
        &rt,
        Line::Completed(SharedBytes::from_slice(alloc, b"")?),
        "(Answer \"\" Completed)\n",
    );
    check(
        &rt,
        Line::OutOfMemory(SharedBytes::from_slice(alloc, b"a b")?),
        "(Answer \"a b\" OutOfMemory)\n",
    );
    check(
        &rt,
        Line::Added(tag()?, 2, 0, 12, None),
        "(Answer 7 (Added 2 ((bp 0)(ep 12)) NewTip))\n",
    );
    check(
        &rt,
        Line::Added(tag()?, 9, 3, MOST, Some(4)),
        "(Answer 7 (Added 9 ((bp 3)(ep 18446744073709551615))(Unfocus 4)))\n",
    );
    check(
        &rt,
        Line::Canceled(tag()?, Ids::new(alloc)),
        "(Answer 7 (Canceled ()))\n",
    );
    check(
        &rt,
        Line::Canceled(tag()?, Ids::from_vec(vec![in alloc; 3, 10, 4]?)),
        "(Answer 7 (Canceled (3 10 4)))\n",
    );
    check(
        &rt,
        Line::EditAt(tag()?, EditLine::NewTip(1)),
        "(Answer 7 (EditAt (NewTip 1)))\n",
    );
    check(
        &rt,
        Line::EditAt(tag()?, EditLine::Focus(2, 5, 3)),
        "(Answer 7 (EditAt (Focus ((start 2)(stop 5)(tip 3)))))\n",
    );
    check(
        &rt,
        Line::ObjList(tag()?, texts(alloc, &[])?),
        "(Answer 7 (ObjList ()))\n",
    );
    check(
        &rt,
        Line::ObjList(tag()?, texts(alloc, &["A", "x : A"])?),
        "(Answer 7 (ObjList ((CoqString A)(CoqString \"x : A\"))))\n",
    );
    check(
        &rt,
        Line::Joined(tag()?, 4, faults(alloc, &[])?),
        "(Answer 7 (Joined (sentences 4)(faults ())))\n",
    );
    check(
        &rt,
        Line::Joined(tag()?, 4, faults(alloc, &[(3, "no"), (4, "not so")])?),
        "(Answer 7 (Joined (sentences 4)(faults ((3 no)(4 \"not so\")))))\n",
    );
    Ok(())
}

#[test]
fn each_refusal_has_its_text(rt: HostRuntime) -> Result<(), Fail> {
    let alloc = rt.alloc();
    for (exn, want) in [
        (Exn::Parse(11), "(Answer 0 (CoqExn (Parse 11)))\n"),
        (Exn::NoOpenProof(0), "(Answer 0 (CoqExn (NoOpenProof 0)))\n"),
        (
            Exn::ProofOpen(5, 2),
            "(Answer 0 (CoqExn (ProofOpen 5 2)))\n",
        ),
        (
            Exn::BadCloser(5, 2),
            "(Answer 0 (CoqExn (BadCloser 5 2)))\n",
        ),
        (Exn::NotTip(6), "(Answer 0 (CoqExn (NotTip 6)))\n"),
        (
            Exn::NoSuchState(99),
            "(Answer 0 (CoqExn (NoSuchState 99)))\n",
        ),
        (Exn::ZoneOpen(8, 5), "(Answer 0 (CoqExn (ZoneOpen 8 5)))\n"),
        (Exn::TooMany(17), "(Answer 0 (CoqExn (TooMany 17)))\n"),
        (
            Exn::Check(3, text(alloc, "no")?),
            "(Answer 0 (CoqExn (Check 3 no)))\n",
        ),
        (
            Exn::UnknownName(text(alloc, "p'")?),
            "(Answer 0 (CoqExn (UnknownName p')))\n",
        ),
        (Exn::Unsupported, "(Answer 0 (CoqExn Unsupported))\n"),
    ] {
        let tag = SharedBytes::from_slice(alloc, b"0")?;
        check(&rt, Line::CoqExn(tag, exn), want);
    }
    Ok(())
}

#[test]
fn other_lines_have_their_texts(rt: HostRuntime) -> Result<(), Fail> {
    let alloc = rt.alloc();
    check(
        &rt,
        Line::Feedback(5, 1, None),
        "(Feedback ((doc_id 0)(span_id 5)(route 1)(contents Processed)))\n",
    );
    check(
        &rt,
        Line::Feedback(5, 0, Some(text(alloc, "not so")?)),
        "(Feedback ((doc_id 0)(span_id 5)(route 0)(contents (Message ((level Error)(text \"not so\"))))))\n",
    );
    check(
        &rt,
        Line::BadInput(0, BadText::Word(text(alloc, "StrayClose")?), 12),
        "(BadInput 0 StrayClose 12)\n",
    );
    check(
        &rt,
        Line::BadInput(3, BadText::BadField(text(alloc, "lim")?), 0),
        "(BadInput 3 (BadField lim) 0)\n",
    );
    Ok(())
}

#[test]
fn borrowed_parts_make_the_same_lines(rt: HostRuntime) -> Result<(), Fail> {
    let mut out = memory(rt.alloc(), 1000);
    write_joined_head(b"q", 2, &mut out);
    write_joined_fault(1, b"no", &mut out);
    write_joined_fault(2, b"", &mut out);
    write_joined_end(&mut out);
    write_feedback(2, 1, Some(b"a b"), &mut out);
    write_feedback(1, 0, None, &mut out);
    write_last(b"q", true, &mut out);
    write_last(b"q", false, &mut out);
    put(
        &rt,
        out,
        "(Answer q (Joined (sentences 2)(faults ((1 no)(2 \"\")))))\n\
         (Feedback ((doc_id 0)(span_id 2)(route 1)(contents (Message ((level Error)(text \"a b\"))))))\n\
         (Feedback ((doc_id 0)(span_id 1)(route 0)(contents Processed)))\n\
         (Answer q OutOfMemory)\n(Answer q Completed)\n(Answer q Completed)\n",
    );
    Ok(())
}

#[test]
fn texts_of_no_line_are_refused(rt: HostRuntime) -> Result<(), Fail> {
    for text in [
        "(Answer 0)",
        "(Answer 0 Ack",
        "(Answer 0  Ack)",
        "(Answer 0 Ack) ",
        "(Answer 0 Ack)\n",
        " (Answer 0 Ack)",
        "(Answer \"0\" Ack)",
        "(Answer 0 ack)",
        "(Answer (0) Ack)",
        "(Answer 0 Ack Ack)",
        "(BadInput 00 X 0)",
        "(BadInput 0 X -1)",
        "(BadInput 0 X 18446744073709551616)",
        "(BadInput 0 (BadField) 0)",
        "(Answer 0 (Canceled (1  2)))",
        "(Answer 0 (Canceled (01)))",
        "(Answer 0 (Joined (sentences 1)(faults ((1 a) (2 b)))))",
        "(Answer 0 (Added 2 ((bp 0)(ep 1))NewTip))",
        "(Feedback ((doc_id 1)(span_id 5)(route 1)(contents Processed)))",
        "Ack",
        "()",
        "",
    ] {
        match read_line(rt.alloc(), text.as_bytes()) {
            Err(LineFault::NotALine) => (),
            _ => panic!(rt; "taken: {text}"),
        }
    }
    Ok(())
}
