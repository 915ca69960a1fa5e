//! One sentence.
ghost use Rattle.std.specs.Prelude.{◌≡◌, ◌+◌, ℕ, None, true, false, IfErr, IfOk};
ghost use Rattle.base_core.specs.Answers.{Answers};
ghost use Rattle.vern_sentence.specs.Trees.{close};
ghost use Rattle.vern_parse.specs.Sentences.{closing, sentence as sentence_of};
ghost use Rattle.vern_step.specs.Parsed.{kind_in, kind_of};
ghost use Rattle.vern_step.specs.declared.kind.Kind.TheVariants as kind;
ghost use Rattle.script_theory.specs.Sentences as script;
ghost use Rattle.script_theory.specs.Kept.{Delegates};
ghost use Rattle.proof_state.specs.States as part;
ghost use Rattle.step_core.specs.Proofs.{IsNext};
ghost use Rattle.step_core.specs.Refusals.{refused};
ghost use Rattle.step_core.specs.Standing.{Finds, first_fault, is_open, is_within, state_of};
ghost use Rattle.step_core.specs.Steps.{closing_in, next};
ghost use Rattle.step_core.specs.Verdicts.{verdict_of};

use crate::closer::{adds, verdict_on};
use crate::declare::declared_by;
use crate::inner::step;
use crate::lemma::begun_by;
use crate::proof::OpenProof;
use crate::refusal::Refusal;
use crate::standing::{Short, Standing0};
use crate::verdict::Verdict;
use base_core::{NoMemory, Steps};
use proof_state::State;
use std::alloc::Global;
use std::sync::ledger::Ledger;
use vern_step::{Closer, Kind, Raw, Sentence};

/// Checks a sentence, whose id is `id`, in a state: its verdict, and the state behind it. It is one step, which is ticked
/// also where memory is wanting; then the state comes back as it was. A sentence within a proof or at its end is asked for
/// exactly where a proof is open (`Sentence::kind`, `Standing0::is_open`).
pub fn one<L: Ledger>(
    alloc: Global,
    state: Standing0,
    id: u64,
    sentence: &Sentence,
    steps: &mut Steps<L>,
) -> Result<(Standing0, Verdict), Short>
    requires { is_open (state_of state) ≡ is_within (kind_in sentence.now) }
    ensures finds { IfOk result (λ r. Finds state id sentence.now r.0 r.1) }
    ensures short { IfErr result (λ short. state_of short.state ≡ state_of state) }
    ensures steps { steps.new ≡ steps.old + 1 }
{
    steps.tick();
    check(alloc, state, id, sentence.tree())
}

/// The same of its tree.
#[tactic(auto, using(crate::proofs::Checking::closers))]
fn check(
    alloc: Global,
    state: Standing0,
    id: u64,
    tree: &Raw,
) -> Result<(Standing0, Verdict), Short>
    requires { is_open (state_of state) ≡ is_within (kind_of (sentence_of tree.now)) }
    ensures finds { IfOk result (λ r. script.one (state_of state) id (sentence_of tree.now) ≡ (state_of r.0, verdict_of r.1)) }
    ensures short { IfErr result (λ short. state_of short.state ≡ state_of state) }
{
    match Kind::of(tree) {
        Kind::Plain => declare(alloc, state, tree),
        Kind::Begin => begin(alloc, state, id, tree),
        Kind::Inner => inner(alloc, state, id, tree),
        Kind::Close(closer) => close(alloc, state, closer),
    }
}

/// A declaration or a definition: what it declares is added exactly where it is good. No verdict on it depends on its id.
#[tactic(auto, using(crate::proofs::Checking::declaring))]
fn declare(alloc: Global, state: Standing0, tree: &Raw) -> Result<(Standing0, Verdict), Short>
    requires plain { kind_of (sentence_of tree.now) ≡ kind.Plain }
    requires closed { is_open (state_of state) ≡ false }
    ensures finds { IfOk result (λ r. (id : ℕ) → script.one (state_of state) id (sentence_of tree.now) ≡ (state_of r.0, verdict_of r.1)) }
    ensures short { IfErr result (λ short. state_of short.state ≡ state_of state) }
{
    match declared_by(alloc, state.env(), tree) {
        Ok(decl) => match state.with(decl) {
            Ok(state) => Ok((state, Verdict::Good)),
            Err(short) => Err(short),
        },
        Err(Refusal::Fault(fault)) => Ok((state, Verdict::Fault(fault))),
        Err(Refusal::NoMemory) => Err(Short { state }),
    }
}

/// A lemma: its proof is open behind it, also where the lemma failed.
#[tactic(auto, using(crate::proofs::Checking::beginning))]
fn begin(
    alloc: Global,
    state: Standing0,
    id: u64,
    tree: &Raw,
) -> Result<(Standing0, Verdict), Short>
    requires begin { kind_of (sentence_of tree.now) ≡ kind.Begin }
    requires closed { is_open (state_of state) ≡ false }
    ensures finds { IfOk result (λ r. script.one (state_of state) id (sentence_of tree.now) ≡ (state_of r.0, verdict_of r.1)) }
    ensures short { IfErr result (λ short. state_of short.state ≡ state_of state) }
{
    match begun_by(alloc, state.env(), tree) {
        Ok(lemma) => Ok((state.begun(OpenProof::Of(lemma)), Verdict::Good)),
        Err(Refusal::Fault(fault)) => Ok((
            state.begun(OpenProof::Failed(id)),
            Verdict::Fault(fault),
        )),
        Err(Refusal::NoMemory) => Err(Short { state }),
    }
}

/// A sentence within a proof: it is blocked where the proof has a fault.
#[tactic(auto, using(crate::proofs::Checking::blocking))]
fn inner(
    alloc: Global,
    state: Standing0,
    id: u64,
    tree: &Raw,
) -> Result<(Standing0, Verdict), Short>
    requires inner { kind_of (sentence_of tree.now) ≡ kind.Inner }
    requires open { is_open (state_of state) ≡ true }
    ensures finds { IfOk result (λ r. script.one (state_of state) id (sentence_of tree.now) ≡ (state_of r.0, verdict_of r.1)) }
    ensures short { IfErr result (λ short. state_of short.state ≡ state_of state) }
{
    match state.first_fault() {
        Some(first) => Ok((state, Verdict::Blocked(first))),
        None => unblocked(alloc, state, id, tree),
    }
}

/// The same where the proof has none: the goals change, or they stay at a fault.
#[tactic(auto, using(crate::proofs::Checking::stepping))]
fn unblocked(
    alloc: Global,
    state: Standing0,
    id: u64,
    tree: &Raw,
) -> Result<(Standing0, Verdict), Short>
    requires inner { kind_of (sentence_of tree.now) ≡ kind.Inner }
    requires open { is_open (state_of state) ≡ true }
    requires whole { first_fault (state_of state) ≡ None }
    ensures finds { IfOk result (λ r. script.one (state_of state) id (sentence_of tree.now) ≡ (state_of r.0, verdict_of r.1)) }
    ensures short { IfErr result (λ short. state_of short.state ≡ state_of state) }
{
    match next(alloc, &state, tree) {
        Ok(goals) => Ok((state.with_goals(goals), Verdict::Good)),
        Err(Refusal::Fault(fault)) => Ok((state.with_fault(id), Verdict::Fault(fault))),
        Err(Refusal::NoMemory) => Err(Short { state }),
    }
}

/// The goals behind a sentence within a proof that has no fault.
fn next(alloc: Global, state: &Standing0, tree: &Raw) -> Result<State, Refusal>
    requires inner { kind_of (sentence_of tree.now) ≡ kind.Inner }
    requires open { is_open (state_of state.now) ≡ true }
    requires whole { first_fault (state_of state.now) ≡ None }
    ensures goals { Answers part.state_of refused result (next (state_of state.now) (sentence_of tree.now)) }
    ensures next { IfOk result (λ s. IsNext (state_of state.now).env state.now.proof s) }
{
    match state.proof() {
        Some(OpenProof::Of(lemma)) => step(alloc, state.env(), &lemma.state, tree),
        _ => unreachable!(),
    }
}

/// A closer: no proof is open behind it. No verdict on it depends on its id.
#[tactic(auto, using(crate::proofs::Checking::closing_rules))]
fn close(alloc: Global, state: Standing0, closer: Closer) -> Result<(Standing0, Verdict), Short>
    requires { is_open (state_of state) ≡ true }
    ensures finds { IfOk result (λ r. (id : ℕ) → script.one (state_of state) id (close (closing closer)) ≡ (state_of r.0, verdict_of r.1)) }
    ensures short { IfErr result (λ short. state_of short.state ≡ state_of state) }
{
    match found(alloc, &state, closer) {
        Err(_) => Err(Short { state }),
        Ok(verdict) => match state.ended(adds(closer, verdict)) {
            Ok(state) => Ok((state, verdict)),
            Err(short) => Err(short),
        },
    }
}

/// What is found about a closer of the open proof.
fn found(alloc: Global, state: &Standing0, closer: Closer) -> Result<Verdict, NoMemory>
    requires { is_open (state_of state.now) ≡ true }
    ensures { IfOk result (λ v. verdict_of v ≡ closing_in (closing closer) (state_of state.now).proof) }
{
    match state.proof() {
        None => unreachable!(),
        Some(proof) => verdict_on(alloc, state.env(), proof, closer),
    }
}

impl Standing0 {
    /// The state behind a closer whose proof isn't checked: the statement is added as if all had gone well. It is no step.
    #[tactic(auto, using(crate::proofs::Checking::skipping))]
    pub fn skip(self, closer: Closer) -> Result<Standing0, Short>
        requires open { is_open (state_of self) ≡ true }
        requires delegates { Delegates (closing closer) }
        ensures ok { IfOk result (λ s. state_of s ≡ script.skip (state_of self) (closing closer)) }
        ensures err { IfErr result (λ short. state_of short.state ≡ state_of self) }
    {
        self.ended(adds(closer, Verdict::Good))
    }
}
