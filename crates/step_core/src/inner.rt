//! Sentences within a proof.
ghost use Rattle.std.specs.Prelude.{◌≡◌, IfOk, MatchBool};
ghost use Rattle.base_core.specs.Answers.{Answers};
ghost use Rattle.env_core.specs.Meaning.{declarations};
ghost use Rattle.logic_theory.specs.Goals.{Goal};
ghost use Rattle.vern_parse.specs.Sentences.{refinement, sentence as sentence_of};
ghost use Rattle.vern_step.specs.Parsed.{kind_of};
ghost use Rattle.vern_step.specs.declared.kind.Kind.TheVariants.{Inner};
ghost use Rattle.tactic_theory.specs.States.{inner_of, run_one};
ghost use Rattle.tactic_theory.specs.Typing.{typed};
ghost use Rattle.script_theory.specs.Sizes.{large};
ghost use Rattle.proof_state.specs.States as part;
ghost use Rattle.tac_base.specs.Sites.{FirstFormed};
ghost use Rattle.tac_core.specs.Own.{IsLogical};
ghost use Rattle.tac_eq.specs.Own.{IsOfEquality};
ghost use Rattle.step_core.specs.Refusals.{refused};
ghost use Rattle.step_core.specs.Steps.{stepped};

use crate::refusal::Refusal;
use env_core::Env;
use proof_state::{Bullet, State};
use std::alloc::Global;
use vern_parse::RawTac;
use vern_step::Raw;

/// The state of a proof behind an inner sentence, or the sentence's fault. The state that is given stays as it is.
pub(crate) fn step(alloc: Global, env: &Env, state: &State, tree: &Raw) -> Result<State, Refusal>
    requires inner { kind_of (sentence_of tree.now) ≡ Inner }
    requires formed { FirstFormed (declarations env.now) (part.state_of state.now).focused }
    ensures state { Answers part.state_of refused result (stepped (declarations env.now) (sentence_of tree.now) (part.state_of state.now)) }
    ensures fits { IfOk result (λ s. (g : Goal) → part.Fits (declarations env.now) g state.now → part.Fits (declarations env.now) g s) }
{
    match tree {
        Raw::ProofWord => Ok(state.copy()?),
        Raw::Refinement(tac) => refine(alloc, env, state, tac),
        Raw::Bullet(byte, length) => Ok(state.bullet(
            alloc,
            Bullet {
                byte: *byte,
                length: *length,
            },
        )?),
        Raw::BraceIn => Ok(state.brace_in(alloc)?),
        Raw::BraceOut => Ok(state.brace_out()?),
        _ => unreachable!(),
    }
}

/// The same of a refinement.
fn refine(alloc: Global, env: &Env, state: &State, tac: &RawTac) -> Result<State, Refusal>
    requires { FirstFormed (declarations env.now) (part.state_of state.now).focused }
    ensures state { Answers part.state_of refused result (run_one (large (declarations env.now)) (typed (declarations env.now))
        (declarations env.now) (inner_of (refinement tac.now)) (part.state_of state.now)) }
    ensures fits { IfOk result (λ s. (g : Goal) → part.Fits (declarations env.now) g state.now → part.Fits (declarations env.now) g s) }
{
    if is_of_equality(tac) {
        Ok(tac_eq::run(alloc, tac, env, state)?)
    } else {
        Ok(tac_core::run(alloc, tac, env, state)?)
    }
}

/// Whether a refinement is of equality or an unfolding.
fn is_of_equality(tac: &RawTac) -> bool
    ensures { MatchBool result (IsOfEquality (refinement tac.now)) (IsLogical (refinement tac.now)) }
{
    match tac {
        RawTac::Reflexivity | RawTac::Symmetry | RawTac::Rewrite(_, _) | RawTac::Unfold(_, _) => {
            true
        }
        _ => false,
    }
}
