//! One sentence after another.
ghost use Rattle.std.specs.Prelude.{◌≡◌, ◌<◌, ◌∷◌, ◌++◌, ℕ, List, None, map, IfOk};
ghost use Rattle.vern_lex.specs.Sentences.{IsSentenceSpan};
ghost use Rattle.vern_sentence.specs.Trees.{Sentence as Tree};
ghost use Rattle.vern_step.specs.Parsed.{parsed, kind_in};
ghost use Rattle.script_theory.specs.Sentences.{Verdict as Found};
ghost use Rattle.step_core.specs.Standing.{Finds, is_open, is_within, state_of};
ghost use Rattle.step_core.specs.Verdicts.{verdict_of};
ghost use Rattle.batch_check.specs.Batch.{Piece, piece, piece_of, refusal_of, with_verdict};
ghost use Rattle.batch_check.specs.Run.{Takes, begun, fault_in, found, progress_of};

use crate::checked::FaultLine;
use crate::span::read_span;
use crate::stop::{Stop, StopKind};
use base_core::{NoMemory, Steps};
use std::alloc::Global;
use std::marker::Brand;
use std::sync::ledger::{Blank, Ledger};
use step_core::{Standing0, Verdict, one};
use vern_lex::Span;
use vern_step::{Kind, ParseFault, Sentence};

/// At most so many sentences are checked.
pub const SENTENCE_LIMIT: u64 = 1_048_576;

/// The id of the first sentence.
const FIRST_ID: u64 = 2;

/// A check between two sentences: the state behind those that were checked, their faults, and how many they are.
#[derive(Drop)]
pub(crate) struct Run {
    pub(crate) state: Standing0,
    pub(crate) faults: Vec<FaultLine>,
    pub(crate) count: u64,
}

/// What taking a piece of a text comes to.
#[derive(Drop)]
pub(crate) enum Step {
    /// Its sentence was checked.
    On(Run),
    /// It was refused.
    Stopped(Run, Stop),
}

impl Run {
    /// Before the first sentence.
    pub(crate) fn start(alloc: Global) -> Run
        ensures { progress_of result ≡ begun }
    {
        Run {
            state: Standing0::start(alloc),
            faults: Vec::new(alloc),
            count: 0,
        }
    }

    /// Takes a span: its sentence is checked, or the first of these refuses it: it is no sentence; it can't stand where a
    /// proof is open, or where none is; so many were checked before it as are checked at most.
    pub(crate) fn take(self, alloc: Global, text: &[u8], span: Span) -> Result<Step, NoMemory>
        requires { IsSentenceSpan text.now span }
        ensures { IfOk result (λ step. Takes self (piece_of text.now span) step) }
    {
        let sentence = match read_span(alloc, text, span) {
            Ok(sentence) => sentence,
            Err(ParseFault::At(at)) => {
                let kind = StopKind::Parse;
                return Ok(Step::Stopped(self, Stop { at, kind }));
            }
            Err(ParseFault::NoMemory) => return Err(NoMemory),
        };
        match refusal_of(self.state.is_open(), sentence.kind(), self.count) {
            Some(kind) => {
                let at = span.from;
                Ok(Step::Stopped(self, Stop { at, kind }))
            }
            None => Ok(Step::On(self.check(alloc, &sentence)?)),
        }
    }

    /// Checks a sentence that isn't refused.
    fn check(self, alloc: Global, sentence: &Sentence) -> Result<Run, NoMemory>
        requires { refusal_of (is_open (state_of self.state)) (kind_in sentence.now) self.count ≡ None }
        ensures { IfOk result (λ after. (at : ℕ) (x : Tree) (ps : List Piece) → parsed sentence.now ≡ Ok x
            → found (progress_of self) (piece at x ∷ ps) ≡ found (progress_of after) ps) }
    {
        let Run {
            state,
            faults,
            count,
        } = self;
        let id = FIRST_ID + count;
        let count = count + 1;
        let (state, verdict) = check_one::<Brand>(alloc, state, id, sentence, Blank::new(1))?;
        let faults = with_verdict(faults, id, verdict)?;
        Ok(Run {
            state,
            faults,
            count,
        })
    }
}

/// Why a sentence of a kind is refused, where a proof is open or not, behind so many sentences.
fn refusal_of(proof_open: bool, kind: Kind, count: u64) -> Option<StopKind>
    ensures { result ≡ refusal_of proof_open kind count }
{
    match (proof_open, is_within(kind)) {
        (true, false) => Some(StopKind::ProofOpen),
        (false, true) => Some(StopKind::NoOpenProof),
        _ if count >= SENTENCE_LIMIT => Some(StopKind::TooMany),
        _ => None,
    }
}

/// Whether a sentence of a kind stands within a proof or ends it.
fn is_within(kind: Kind) -> bool
    ensures { result ≡ is_within kind }
{
    match kind {
        Kind::Plain | Kind::Begin => false,
        Kind::Inner | Kind::Close(_) => true,
    }
}

/// Checks a sentence with a counter of its own.
fn check_one<L: Ledger>(
    alloc: Global,
    state: Standing0,
    id: u64,
    sentence: &Sentence,
    blank: Blank,
) -> Result<(Standing0, Verdict), NoMemory>
    requires name { blank.name ≡ L.name }
    requires parts { blank.parts ≡ L.parts }
    requires whole { 0 < L.parts }
    requires placed { is_open (state_of state) ≡ is_within (kind_in sentence.now) }
    ensures { IfOk result (λ r. Finds state id sentence.now r.0 r.1) }
{
    let mut steps: Steps<L> = Steps::new(blank);
    match one(alloc, state, id, sentence, &mut steps) {
        Ok(found) => Ok(found),
        Err(_) => Err(NoMemory),
    }
}

/// The faults with those of one sentence more: its verdict, unless it is good.
fn with_verdict(
    faults: Vec<FaultLine>,
    id: u64,
    verdict: Verdict,
) -> Result<Vec<FaultLine>, NoMemory>
    ensures { IfOk result (λ after. (vs : List (ℕ × Found))
        → map fault_in after.items ++ vs ≡ map fault_in faults.items ++ with_verdict id (verdict_of verdict) vs) }
{
    let mut faults = faults;
    match verdict {
        Verdict::Good => {}
        Verdict::Fault(_) | Verdict::Blocked(_) => faults.push(FaultLine { id, verdict })?,
    }
    Ok(faults)
}
