//! Whole texts over memory, with what is found in them typed from docs/LANGUAGE.md.
ghost use Rattle.std.specs.Prelude.{◌≡◌, ◌⊎◌, ◌++◌, take, true, false};
ghost use Rattle.batch_check.specs.Batch.{batch, is_clean};
ghost use Rattle.batch_check.specs.Report.{owed};

use batch_check::{BAD_WORDS, BatchEnd, CLEAN, FAULTY, READ_FAULT, WRITE_FAULT, vcheck_main};
use std::alloc::{AllocGlobal, Global};
use std::process::Abort;
use std::test::Fail;
use stm_base::{MemSink, MemSource, Source, SureSink, SureSource};

/// Over a source and a sink that never fail there is no fault.
fn run_sure(alloc: Global, text: &[u8]) -> u8
    ensures { (result ≡ 0) ⊎ ((result ≡ 1) ⊎ ((result ≡ 5) ⊎ (result ≡ 7))) }
{
    vcheck_main(alloc, &[], &mut SureSource::new(text), SureSink).status
}

/// Over memory the clauses tell the bytes.
fn run_memory(alloc: Global, source: &mut MemSource, sink: MemSink) -> BatchEnd<MemSink>
    ensures written { result.status ≡ 0 → result.sink.written ≡ sink.written ++ owed (take result.taken source.old.left) }
    ensures clean { result.status ≡ 0 → is_clean (batch (take result.taken source.old.left)) ≡ true }
    ensures faulty { result.status ≡ 1 → is_clean (batch (take result.taken source.old.left)) ≡ false }
{
    vcheck_main(alloc, &[], source, sink)
}

const SWAP: &[u8] = b"Parameter A : Prop. Parameter B : Prop. Lemma c : A /\\ B -> B /\\ A. \
Proof. intro h. destruct h as [a b]. split. exact b. exact a. Qed.";

const SWAP_LINES: &[u8] = b"A : Prop\nB : Prop\nc : A /\\ B -> B /\\ A\n";

/// A text, and how it is given and what is found taken: the most bytes of each read and of each write, and the numbers of the
/// reads and writes that fail.
#[derive(Drop)]
struct Case<'a> {
    text: &'a [u8],
    cuts: &'a [usize],
    most: usize,
    failing_reads: &'a [u64],
    failing_writes: &'a [u64],
}

impl<'a> Case<'a> {
    fn of(text: &'a [u8]) -> Case<'a> {
        Case {
            text,
            cuts: &[],
            most: 1000,
            failing_reads: &[],
            failing_writes: &[],
        }
    }

    fn run(&self, alloc: Global, words: &[String]) -> Result<(BatchEnd<MemSink>, MemSource), Fail> {
        let mut source = MemSource::new(
            self.text.to_vec(alloc)?,
            self.cuts.to_vec(alloc)?,
            self.failing_reads.to_vec(alloc)?,
        );
        let sink = MemSink::new(
            Vec::new(alloc),
            self.most,
            self.failing_writes.to_vec(alloc)?,
        );
        let end = vcheck_main(alloc, words, &mut source, sink);
        Ok((end, source))
    }
}

/// What is found in a text; the last line says with which status.
fn assert_found(
    rt: &(impl Abort + AllocGlobal),
    text: &[u8],
    status: u8,
    written: &[u8],
) -> Result<(), Fail> {
    let in_bytes = Case {
        cuts: &[1; 100],
        most: 1,
        ..Case::of(text)
    };
    for case in [Case::of(text), in_bytes] {
        let (end, _) = case.run(rt.alloc(), &[])?;
        assert_eq!(rt; end.sink.bytes(), written, "of {:?}", text);
        assert_eq!(rt;
            (end.status, end.taken, end.at_end),
            (status, text.len() as u64, true),
            "of {:?}",
            text
        );
    }
    Ok(())
}

#[test]
fn what_is_found_is_told(rt: HostRuntime) -> Result<(), Fail> {
    let cases: [(&[u8], u8, &[u8]); 18] = [
        (b"", CLEAN, b""),
        (b" (* nothing *) ", CLEAN, b""),
        (SWAP, CLEAN, SWAP_LINES),
        // A failed Qed adds its statement, and a failed Defined adds none.
        (
            b"Parameter A : Prop. Parameter B : Prop. Lemma c : A /\\ B -> B /\\ A. \
Proof. intro h. destruct h as [a b]. split. exact a. exact a. Qed.",
            FAULTY,
            b"A : Prop\nB : Prop\nc : A /\\ B -> B /\\ A\n\
fault 9: cannot match\nfault 10: blocked by 9\nfault 11: blocked by 9\n",
        ),
        (
            b"Parameter A : Prop. Parameter B : Prop. Lemma c : A /\\ B -> B /\\ A. \
Proof. intro h. destruct h as [a b]. split. exact a. exact a. Qed. \
Lemma d : A /\\ B -> B /\\ A. Proof. apply c. Qed.",
            FAULTY,
            b"A : Prop\nB : Prop\nc : A /\\ B -> B /\\ A\nd : A /\\ B -> B /\\ A\n\
fault 9: cannot match\nfault 10: blocked by 9\nfault 11: blocked by 9\n",
        ),
        (
            b"Parameter A : Prop. Parameter B : Prop. Lemma c : A /\\ B -> B /\\ A. \
Proof. intro h. destruct h as [a b]. split. exact a. exact a. Defined. \
Lemma d : A /\\ B -> B /\\ A. Proof. exact c. Qed.",
            FAULTY,
            b"A : Prop\nB : Prop\nd : A /\\ B -> B /\\ A\n\
fault 9: cannot match\nfault 10: blocked by 9\nfault 11: blocked by 9\n\
fault 14: unknown name at 6-7\nfault 15: blocked by 14\n",
        ),
        // Bullets: another one finds nothing focused, and the same one the next goal.
        (
            b"Parameter A : Prop. Parameter B : Prop. Lemma c : A /\\ B -> B /\\ A. \
intro h. destruct h as [a b]. split. - exact b. + exact a. Qed.",
            FAULTY,
            b"A : Prop\nB : Prop\nc : A /\\ B -> B /\\ A\n\
fault 10: no goal\nfault 11: blocked by 10\nfault 12: blocked by 10\n",
        ),
        (
            b"Parameter A : Prop. Parameter B : Prop. Lemma c : A /\\ B -> B /\\ A. \
intro h. destruct h as [a b]. split. - exact b. - exact a. Qed.",
            CLEAN,
            SWAP_LINES,
        ),
        // Where a rewrite begins, and where it ends.
        (
            b"Parameter T : Set. Parameter f : T -> T. Parameter k : T. \
Axiom q : forall x : T, f x = x. Lemma e : f (f k) = k. rewrite q. rewrite q. reflexivity. Qed.",
            CLEAN,
            b"T : Set\nf : T -> T\nk : T\nq : forall x : T, f x = x\ne : f (f k) = k\n",
        ),
        // The least number of premises is stripped, and a variable that nothing fixes is no match.
        (
            b"Parameter T : Set. Parameter P : T -> Prop. Parameter Q : Prop. Parameter k : T. \
Axiom a : forall x : T, P x -> P x. Axiom b : forall x : T, P x -> Q. \
Lemma d : P k. apply a. Qed. Lemma e : P k -> P k. apply a. Qed. \
Lemma f : P k -> Q. apply b. Qed. Lemma g : Q. apply b. Qed.",
            FAULTY,
            b"T : Set\nP : T -> Prop\nQ : Prop\nk : T\na : forall x : T, P x -> P x\n\
b : forall x : T, P x -> Q\nd : P k\ne : P k -> P k\nf : P k -> Q\ng : Q\n\
fault 10: 1 goals left\nfault 18: cannot match\nfault 19: blocked by 18\n",
        ),
        // Each kind of stop, behind what was found before it.
        (
            b"Parameter A : Prop. Parameter : Prop. Parameter B : Prop.",
            FAULTY,
            b"A : Prop\nstopped at 30: Parse\n",
        ),
        (
            b"Parameter A : Prop. Parameter B : Prop",
            FAULTY,
            b"A : Prop\nstopped at 20: Parse\n",
        ),
        (
            b"Parameter A : Prop. (* Parameter B : Prop.",
            FAULTY,
            b"A : Prop\nstopped at 20: Parse\n",
        ),
        (
            b"Parameter A : Prop. Axiom x : B. Qed. Parameter B : Prop.",
            FAULTY,
            b"A : Prop\nfault 3: unknown name at 10-11\nstopped at 33: NoOpenProof\n",
        ),
        (
            b"Parameter A : Prop. split.",
            FAULTY,
            b"A : Prop\nstopped at 20: NoOpenProof\n",
        ),
        (
            b"Parameter A : Prop. Lemma a : A -> A. Lemma b : A. Qed.",
            FAULTY,
            b"A : Prop\nstopped at 38: ProofOpen\n",
        ),
        // Admitted states what isn't proved; Abort and a proof that isn't closed state nothing.
        (
            b"Parameter A : Prop. Lemma a : A. Admitted. Lemma b : A. Abort.",
            CLEAN,
            b"A : Prop\na : A\n",
        ),
        (
            b"Parameter A : Prop. Lemma a : A. Proof.",
            CLEAN,
            b"A : Prop\n",
        ),
    ];
    for (text, status, written) in cases {
        assert_found(&rt, text, status, written)?;
    }
    Ok(())
}

#[test]
fn words_are_refused_and_nothing_is_touched(rt: HostRuntime) -> Result<(), Fail> {
    let alloc = rt.alloc();
    for word in ["--help", ""] {
        let words = [String::from_str(alloc, word)?];
        let (end, mut source) = Case::of(SWAP).run(alloc, &words)?;
        assert_eq!(rt; (end.status, end.taken, end.at_end), (BAD_WORDS, 0, false));
        assert_eq!(rt; end.sink.bytes(), b"".as_slice());
        let mut buf = [0u8; 200];
        assert_eq!(rt; source.read(&mut buf), Ok(SWAP.len()));
    }
    Ok(())
}

/// The text is read in three pieces, and a fourth read finds its end. Nothing is written before that.
#[test]
fn each_read_fails_in_turn(rt: HostRuntime) -> Result<(), Fail> {
    let table: [(u64, u8, u64, &[u8]); 5] = [
        (0, READ_FAULT, 0, b""),
        (1, READ_FAULT, 7, b""),
        (2, READ_FAULT, 15, b""),
        (3, READ_FAULT, 19, b""),
        (4, CLEAN, 19, b"A : Prop\n"),
    ];
    for (failing, status, taken, written) in table {
        let case = Case {
            cuts: &[7, 8],
            failing_reads: &[failing],
            ..Case::of(b"Parameter A : Prop.")
        };
        let (end, _) = case.run(rt.alloc(), &[])?;
        assert_eq!(rt; (end.status, end.taken), (status, taken), "at {failing}");
        assert_eq!(rt; end.sink.bytes(), written, "at {failing}");
    }
    Ok(())
}

/// Each write of what is found fails in turn, until none is left that could; what stands then is a prefix.
#[test]
fn each_write_fails_in_turn(rt: HostRuntime) -> Result<(), Fail> {
    for failing in 0..40 {
        let case = Case {
            most: 4,
            failing_writes: &[failing],
            ..Case::of(SWAP)
        };
        let (end, _) = case.run(rt.alloc(), &[])?;
        let written = end.sink.bytes();
        assert!(rt; SWAP_LINES.starts_with(written), "at {failing}");
        let whole = written.len() == SWAP_LINES.len();
        assert_eq!(rt;
            end.status,
            if whole { CLEAN } else { WRITE_FAULT },
            "at {failing}"
        );
    }
    Ok(())
}

#[test]
fn the_clauses_tell_the_bytes(rt: HostRuntime) -> Result<(), Fail> {
    let alloc = rt.alloc();
    assert_eq!(rt; run_sure(alloc, SWAP), CLEAN);
    let mut source = MemSource::new(SWAP.to_vec(alloc)?, Vec::new(alloc), Vec::new(alloc));
    let end = run_memory(
        alloc,
        &mut source,
        MemSink::new(Vec::new(alloc), 7, Vec::new(alloc)),
    );
    assert_eq!(rt; end.sink.bytes(), SWAP_LINES);
    Ok(())
}
