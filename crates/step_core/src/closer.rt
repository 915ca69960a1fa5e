//! The end of a proof.
ghost use Rattle.std.specs.Prelude.{◌≡◌, [], IfOk};
ghost use Rattle.term_core.specs.Formula.{meaning};
ghost use Rattle.env_core.specs.Meaning.{declarations};
ghost use Rattle.logic_theory.specs.Derivations.{Derives};
ghost use Rattle.vern_parse.specs.Sentences.{closing};
ghost use Rattle.tactic_theory.specs.States.{goals_of, qed};
ghost use Rattle.script_theory.specs.Sentences.{closing_verdict, qed_verdict};
ghost use Rattle.proof_state.specs.States as part;
ghost use Rattle.step_core.specs.Proofs.{IsKept, IsLemma, open_of};
ghost use Rattle.step_core.specs.Steps.{adds};
ghost use Rattle.step_core.specs.Verdicts.{verdict_of};

use crate::proof::{Lemma, OpenProof};
use crate::verdict::{Fault, Verdict};
use base_core::NoMemory;
use env_core::Env;
use kernel_core::check;
use std::alloc::Global;
use term_core::{Context, Sequent};
use vern_step::Closer;

/// What is found about a closer. Where it says that the proof is whole, the kernel has checked the proof's tree.
pub(crate) fn verdict_on(
    alloc: Global,
    env: &Env,
    proof: &OpenProof,
    closer: Closer,
) -> Result<Verdict, NoMemory>
    requires { IsKept (declarations env.now) proof.now }
    ensures { IfOk result (λ v. verdict_of v ≡ closing_verdict (closing closer) (open_of proof.now).goals (open_of proof.now).fault) }
{
    match proof {
        OpenProof::Failed(first) => Ok(Verdict::Blocked(*first)),
        OpenProof::Of(lemma) => match lemma.fault {
            Some(first) => Ok(Verdict::Blocked(first)),
            None => match closer {
                Closer::Qed | Closer::Defined => end(alloc, env, lemma),
                Closer::Admitted | Closer::Abort => Ok(Verdict::Good),
            },
        },
    }
}

/// What is found about a Qed where the proof has no fault.
fn end(alloc: Global, env: &Env, lemma: &Lemma) -> Result<Verdict, NoMemory>
    requires { IsLemma (declarations env.now) lemma.now }
    ensures { IfOk result (λ v. verdict_of v ≡ qed_verdict (qed (part.state_of lemma.now.state))) }
{
    let left = lemma.state.left();
    if left > 0 {
        return Ok(Verdict::Fault(Fault::Unfinished(left)));
    }
    if lemma.state.in_brace() {
        return Ok(Verdict::Fault(Fault::BadBullet));
    }
    check_tree(alloc, env, lemma)?;
    Ok(Verdict::Good)
}

/// Checks the tree of a finished proof by the kernel, which is known to say yes.
fn check_tree(alloc: Global, env: &Env, lemma: &Lemma) -> Result<(), NoMemory>
    requires lemma { IsLemma (declarations env.now) lemma.now }
    requires finished { goals_of (part.state_of lemma.now.state) ≡ [] }
    ensures { IfOk result (λ _. Derives (declarations env.now) [] [] (meaning lemma.now.formula)) }
{
    let sequent = Sequent {
        context: Context::Empty,
        goal: lemma.formula.copy()?,
    };
    if check(alloc, env, &sequent, lemma.state.tree())? {
        Ok(())
    } else {
        unreachable!()
    }
}

/// Whether a closer of which this is found adds the statement.
pub(crate) fn adds(closer: Closer, verdict: Verdict) -> bool
    ensures { result ≡ adds (closing closer) (verdict_of verdict) }
{
    match closer {
        Closer::Qed | Closer::Admitted => true,
        Closer::Defined => verdict == Verdict::Good,
        Closer::Abort => false,
    }
}
