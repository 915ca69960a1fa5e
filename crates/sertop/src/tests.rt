//! Whole sessions over memory, with what they write typed from docs/PROTOCOL.md.
ghost use Rattle.std.specs.Prelude.{◌≡◌, ◌⊎◌, ◌++◌, take};
ghost use Rattle.doc_theory.specs.Histories.{requests};
ghost use Rattle.session_run.specs.Closing.{rendered};
ghost use Rattle.session_run.specs.Items.{requests_in};

use crate::top::sertop_main;
use session_run::{DONE, Ended, READ_FAULT, TRUNCATED, WRITE_FAULT, serve_alone};
use std::alloc::{AllocGlobal, Global};
use std::process::Abort;
use std::test::Fail;
use stm_base::{MemSink, MemSource, Source, SureSink, SureSource};

/// Over a source and a sink that never fail there is no fault.
fn run_sure(alloc: Global, bytes: &[u8]) -> u8
    ensures { (result ≡ 0) ⊎ ((result ≡ 5) ⊎ ((result ≡ 6) ⊎ (result ≡ 7))) }
{
    serve_alone(alloc, &mut SureSource::new(bytes), SureSink).status
}

/// Over memory the clauses tell the bytes.
fn run_memory(alloc: Global, source: &mut MemSource, sink: MemSink) -> Ended<MemSink>
    ensures written { result.status ≡ 0 → result.sink.written ≡ sink.written ++ rendered result.history.items }
    ensures read { result.status ≡ 0 → requests result.history.items ≡ requests_in (take result.taken source.old.left) result.at_end }
{
    serve_alone(alloc, source, sink)
}

const PARAMETER: &[u8] = b"(Add () \"Parameter A : Prop.\")\nQuit\n";

const PARAMETER_LINES: &[u8] = b"(Answer 0 Ack)\n(Answer 0 (Added 2 ((bp 0)(ep 19)) NewTip))\n\
(Answer 0 Completed)\n(Answer 1 Ack)\n(Answer 1 Completed)\n";

/// Input, and how it is given and taken: the most bytes of each read and of each write, and the numbers of the
/// reads and writes that fail.
#[derive(Drop)]
struct Case<'a> {
    input: &'a [u8],
    cuts: &'a [usize],
    most: usize,
    failing_reads: &'a [u64],
    failing_writes: &'a [u64],
}

impl<'a> Case<'a> {
    fn of(input: &'a [u8]) -> Case<'a> {
        Case {
            input,
            cuts: &[],
            most: 1000,
            failing_reads: &[],
            failing_writes: &[],
        }
    }

    fn run(&self, alloc: Global, words: &[String]) -> Result<(Ended<MemSink>, MemSource), Fail> {
        let mut source = MemSource::new(
            self.input.to_vec(alloc)?,
            self.cuts.to_vec(alloc)?,
            self.failing_reads.to_vec(alloc)?,
        );
        let sink = MemSink::new(
            Vec::new(alloc),
            self.most,
            self.failing_writes.to_vec(alloc)?,
        );
        let ended = sertop_main(alloc, words, &mut source, sink);
        Ok((ended, source))
    }
}

/// How a session ends, and what it writes.
#[derive(Clone, Copy)]
struct Wanted<'a> {
    status: u8,
    taken: u64,
    written: &'a [u8],
}

fn assert_session(
    rt: &(impl Abort + AllocGlobal),
    case: &Case<'_>,
    wanted: Wanted<'_>,
) -> Result<(), Fail> {
    let (ended, _) = case.run(rt.alloc(), &[])?;
    assert_eq!(rt; ended.sink.bytes(), wanted.written, "of {:?}", case.input);
    assert_eq!(rt;
        (ended.status, ended.taken),
        (wanted.status, wanted.taken),
        "of {:?}",
        case.input
    );
    Ok(())
}

/// The input in one piece, and in pieces of one byte with each write taking one byte.
fn assert_in_pieces(
    rt: &(impl Abort + AllocGlobal),
    input: &[u8],
    wanted: Wanted<'_>,
) -> Result<(), Fail> {
    assert_session(rt, &Case::of(input), wanted)?;
    let in_bytes = Case {
        cuts: &[1; 200],
        most: 1,
        ..Case::of(input)
    };
    let (ended, _) = in_bytes.run(rt.alloc(), &[])?;
    assert_eq!(rt;
        ended.sink.bytes(),
        wanted.written,
        "of {:?} in bytes",
        input
    );
    assert_eq!(rt; ended.status, wanted.status, "of {:?} in bytes", input);
    Ok(())
}

#[test]
fn each_request_is_answered(rt: HostRuntime) -> Result<(), Fail> {
    let cases: [(&[u8], &[u8]); 14] = [
        (PARAMETER, PARAMETER_LINES),
        (b"", b""),
        (
            b"(Add () \"Parameter : Prop.\")\n",
            b"(Answer 0 Ack)\n(Answer 0 (CoqExn (Parse 10)))\n(Answer 0 Completed)\n",
        ),
        (
            b"Join\n",
            b"(Answer 0 Ack)\n(Answer 0 (CoqExn Unsupported))\n(Answer 0 Completed)\n",
        ),
        (
            b"(Add () \"Lemma a : A.\")\n",
            b"(Answer 0 Ack)\n(Answer 0 (CoqExn Unsupported))\n(Answer 0 Completed)\n",
        ),
        // Blanks and comments have no number, and a last atom needs no end.
        (
            b"\n   ; one\n(Add () \"Parameter A : Prop.\")\n (Add () \"Parameter B : Prop.\")Quit",
            b"(Answer 0 Ack)\n(Answer 0 (Added 2 ((bp 0)(ep 19)) NewTip))\n(Answer 0 Completed)\n\
(Answer 1 Ack)\n(Answer 1 (Added 3 ((bp 0)(ep 19)) NewTip))\n(Answer 1 Completed)\n\
(Answer 2 Ack)\n(Answer 2 Completed)\n",
        ),
        (b"   ; nothing", b""),
        // A command has its number as its tag, or the tag that it is given.
        (
            b"(Quit)\n(q Quit)\n",
            b"(BadInput 0 (BadField Quit) 0)\n(Answer q Ack)\n(Answer q Completed)\n",
        ),
        // An escape stands for its byte.
        (
            b"(Add () \"Parameter\\032A : Prop.\")\nQuit\n",
            PARAMETER_LINES,
        ),
        (b"(a (b Quit))\n", b"(BadInput 0 UnknownCommand 0)\n"),
        (
            b")\n\"\\q\"\n",
            b"(BadInput 0 StrayClose 0)\n(BadInput 1 BadEscape 3)\n",
        ),
        // A text may have a quote, which begins no name, and a line end, which is a blank.
        (
            b"(Add () \"Parameter \\\" : Prop.\")",
            b"(Answer 0 Ack)\n(Answer 0 (CoqExn (Parse 10)))\n(Answer 0 Completed)\n",
        ),
        (
            b"(Add () \"Parameter \\n : Prop.\")",
            b"(Answer 0 Ack)\n(Answer 0 (CoqExn (Parse 12)))\n(Answer 0 Completed)\n",
        ),
        (
            b"(Add ((lim 1)) \"Parameter A : Prop.\")",
            b"(Answer 0 Ack)\n(Answer 0 (CoqExn Unsupported))\n(Answer 0 Completed)\n",
        ),
    ];
    for (input, written) in cases {
        let wanted = Wanted {
            status: DONE,
            taken: input.len() as u64,
            written,
        };
        assert_in_pieces(&rt, input, wanted)?;
    }
    Ok(())
}

#[test]
fn nothing_is_read_behind_quit(rt: HostRuntime) -> Result<(), Fail> {
    let case = Case {
        cuts: &[5],
        failing_reads: &[1],
        ..Case::of(b"Quit\nJoin\n")
    };
    let wanted = Wanted {
        status: DONE,
        taken: 5,
        written: b"(Answer 0 Ack)\n(Answer 0 Completed)\n",
    };
    assert_session(&rt, &case, wanted)
}

#[test]
fn an_input_that_ends_inside_of_an_item_is_truncated(rt: HostRuntime) -> Result<(), Fail> {
    let cases: [(&[u8], &[u8]); 4] = [
        (b"(Exec 2", b""),
        (b"\"Quit", b""),
        (
            b"Join\n(q Quit",
            b"(Answer 0 Ack)\n(Answer 0 (CoqExn Unsupported))\n(Answer 0 Completed)\n",
        ),
        (b"(; )", b""),
    ];
    for (input, written) in cases {
        let wanted = Wanted {
            status: TRUNCATED,
            taken: input.len() as u64,
            written,
        };
        assert_in_pieces(&rt, input, wanted)?;
    }
    let (ended, _) = Case::of(b"(Exec 2").run(rt.alloc(), &[])?;
    assert_eq!(rt; (ended.history.len(), ended.at_end), (1, true));
    Ok(())
}

#[test]
fn words_are_refused_and_nothing_is_touched(rt: HostRuntime) -> Result<(), Fail> {
    let alloc = rt.alloc();
    for word in ["--workers", "--help", ""] {
        let words = [
            String::from_str(alloc, word)?,
            String::from_str(alloc, "65")?,
        ];
        for words in [words.as_slice(), &words[..1]] {
            let (ended, mut source) = Case::of(PARAMETER).run(alloc, words)?;
            assert_eq!(rt; (ended.status, ended.taken, ended.at_end), (2, 0, false));
            assert_eq!(rt; ended.sink.bytes(), b"".as_slice());
            assert_eq!(rt; ended.history.len(), 0);
            let mut buf = [0u8; 64];
            assert_eq!(rt; source.read(&mut buf), Ok(PARAMETER.len()));
        }
    }
    Ok(())
}

/// The reads of a session give its first line, then `Quit`, and no more.
#[test]
fn each_read_fails_in_turn(rt: HostRuntime) -> Result<(), Fail> {
    let table: [(&[usize], u64, u8, u64, usize); 7] = [
        (&[31], 0, READ_FAULT, 0, 0),
        (&[31], 1, READ_FAULT, 31, 80),
        (&[31], 2, DONE, 36, 116),
        // An item is answered as soon as it is whole, and a last atom only at its end.
        (&[29], 1, READ_FAULT, 29, 0),
        (&[30], 1, READ_FAULT, 30, 80),
        (&[35], 1, READ_FAULT, 35, 80),
        (&[36], 1, DONE, 36, 116),
    ];
    for (cuts, failing, status, taken, written) in table {
        let case = Case {
            cuts,
            failing_reads: &[failing],
            ..Case::of(PARAMETER)
        };
        let (front, _) = PARAMETER_LINES.split_at_checked(written).ok_or("too long")?;
        let wanted = Wanted {
            status,
            taken,
            written: front,
        };
        assert_session(&rt, &case, wanted)?;
    }
    Ok(())
}

/// Each write of a session that is written in pieces fails in turn, until none is left that could; what stands then
/// is a prefix of the lines.
#[test]
fn each_write_fails_in_turn(rt: HostRuntime) -> Result<(), Fail> {
    for failing in 0..80 {
        let case = Case {
            most: 16,
            failing_writes: &[failing],
            ..Case::of(PARAMETER)
        };
        let (ended, _) = case.run(rt.alloc(), &[])?;
        let written = ended.sink.bytes();
        assert!(rt; PARAMETER_LINES.starts_with(written), "at {failing}");
        let whole = written.len() == PARAMETER_LINES.len();
        assert_eq!(rt;
            ended.status,
            if whole { DONE } else { WRITE_FAULT },
            "at {failing}"
        );
    }
    Ok(())
}

/// A write fault ends the session before more is read.
#[test]
fn a_write_fault_comes_before_a_read_fault(rt: HostRuntime) -> Result<(), Fail> {
    let case = Case {
        cuts: &[31],
        failing_reads: &[1],
        failing_writes: &[0],
        ..Case::of(PARAMETER)
    };
    let wanted = Wanted {
        status: WRITE_FAULT,
        taken: 31,
        written: b"",
    };
    assert_session(&rt, &case, wanted)
}

#[test]
fn the_clauses_tell_the_bytes(rt: HostRuntime) -> Result<(), Fail> {
    let alloc = rt.alloc();
    assert_eq!(rt; run_sure(alloc, PARAMETER), DONE);
    let mut source = MemSource::new(PARAMETER.to_vec(alloc)?, Vec::new(alloc), Vec::new(alloc));
    let ended = run_memory(
        alloc,
        &mut source,
        MemSink::new(Vec::new(alloc), 7, Vec::new(alloc)),
    );
    assert_eq!(rt; ended.sink.bytes(), PARAMETER_LINES);
    Ok(())
}
