//! A refinement of the first focused goal of a state.
ghost use Rattle.env_core.specs.Meaning.{declarations};
ghost use Rattle.vern_parse.specs.Sentences.{refinement};
ghost use Rattle.tactic_theory.specs.States.{inner_of, row_fault, run_one};
ghost use Rattle.tactic_theory.specs.Typing.{typed};
ghost use Rattle.script_theory.specs.Sizes.{large};
ghost use Rattle.proof_state.specs.States.{state_of};
ghost use Rattle.tac_base.specs.Faults.{Gives};
ghost use Rattle.tac_base.specs.Sites.{env_of, goal_at, FirstFormed, IsReady};
ghost use Rattle.tac_base.specs.Steps.{KeepsFit, Makes};
ghost use Rattle.tac_eq.specs.Own.{IsOfEquality};

use crate::equation::{reflexivity, symmetry};
use crate::rewrite::rewrite;
use crate::unfold::{unfold_goal, unfold_in};
use env_core::Env;
use proof_state::State;
use std::alloc::Global;
use tac_base::{Opening, Site, TacFault, refine_by};
use vern_parse::RawTac;

/// The state behind a refinement of its first focused goal, or the refinement's first fault. The state that is given stays as
/// it is.
pub fn run(alloc: Global, tac: &RawTac, env: &Env, state: &State) -> Result<State, TacFault>
    requires own { IsOfEquality (refinement tac.now) }
    requires formed { FirstFormed (declarations env.now) (state_of state.now).focused }
    ensures state { Gives state_of row_fault result (run_one (large (declarations env.now)) (typed (declarations env.now))
        (declarations env.now) (inner_of (refinement tac.now)) (state_of state.now)) }
    ensures fits { KeepsFit (declarations env.now) state.now result }
{
    match state.first() {
        None => Err(TacFault::NoGoal),
        Some(goal) => {
            let site = Site::of(alloc, env, goal)?;
            let made = row(&site, tac);
            refine_by(&site, state, made)
        }
    }
}

/// What a refinement makes of the goal at a site.
fn row(site: &Site<'_>, tac: &RawTac) -> Result<Opening, TacFault>
    requires ready { IsReady site.now }
    requires own { IsOfEquality (refinement tac.now) }
    ensures { Makes (env_of site.now) (goal_at site.now) (refinement tac.now) result }
{
    match tac {
        RawTac::Reflexivity => reflexivity(site),
        RawTac::Symmetry => symmetry(site),
        RawTac::Rewrite(raw, back) => rewrite(site, raw, *back),
        RawTac::Unfold(definition, place) => match place {
            None => unfold_goal(site, definition),
            Some(hypothesis) => unfold_in(site, definition, hypothesis),
        },
        _ => unreachable!(),
    }
}
