//! Introductions under given names.
ghost use Rattle.std.specs.Prelude.{◌≡◌, ◌∷◌, List, map};
ghost use Rattle.env_core.specs.Meaning.{declarations};
ghost use Rattle.logic_theory.specs.Goals.{Goal};
ghost use Rattle.vern_parse.specs.Meaning.{name};
ghost use Rattle.tactic_theory.specs.States.{name_first, row_fault};
ghost use Rattle.tactic_theory.specs.Typing.{texts};
ghost use Rattle.script_theory.specs.Sizes.{large};
ghost use Rattle.proof_state.specs.States.{state_of};
ghost use Rattle.tac_base.specs.Faults.{Gives};
ghost use Rattle.tac_base.specs.Sites.{FirstFormed};
ghost use Rattle.tac_base.specs.Steps.{KeepsFit};
ghost use Rattle.tac_core.specs.Introduced.{Introduces};

use crate::intro::intro;
use env_core::Env;
use proof_state::State;
use std::alloc::Global;
use tac_base::{Site, TacFault, refine_with};
use vern_parse::RawName;

/// `intros x y.`: `intro x.` and then `intro y.`, with the first fault that one of them meets; all or none.
pub(crate) fn intros_as(
    alloc: Global,
    names: &[RawName],
    env: &Env,
    state: &State,
) -> Result<State, TacFault>
    requires first { (g : Goal) × (gs : List Goal) × ((state_of state.now).focused ≡ g ∷ gs) }
    requires formed { FirstFormed (declarations env.now) (state_of state.now).focused }
    ensures state { Gives state_of row_fault result (name_first (large (declarations env.now)) (declarations env.now)
        (state_of state.now).focused (state_of state.now).frames (texts (map name names.now))) }
    ensures fits { KeepsFit (declarations env.now) state.now result }
{
    let mut at = state.copy()?;
    for given in names {
        at = intro_as(alloc, given, env, &at)?;
    }
    Ok(at)
}

/// `intro x.` at the first focused goal.
fn intro_as(alloc: Global, given: &RawName, env: &Env, state: &State) -> Result<State, TacFault>
    requires first { (g : Goal) × (gs : List Goal) × ((state_of state.now).focused ≡ g ∷ gs) }
    requires formed { FirstFormed (declarations env.now) (state_of state.now).focused }
    ensures state { (g : Goal) (gs : List Goal) → (state_of state.now).focused ≡ g ∷ gs
        → Introduces (declarations env.now) g gs (state_of state.now).frames given.now.text result }
    ensures fits { KeepsFit (declarations env.now) state.now result }
{
    match state.first() {
        None => unreachable!(),
        Some(goal) => {
            let site = Site::of(alloc, env, goal)?;
            match intro(&site, Some(given)) {
                Ok(opening) => refine_with(&site, state, opening),
                Err(fault) => Err(fault),
            }
        }
    }
}
