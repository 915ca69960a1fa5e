//! What is made of the first goal, put into a state.
ghost use Rattle.std.specs.Prelude.{◌≡◌, [], ◌∷◌, List, IfOk};
ghost use Rattle.logic_theory.specs.Goals.{Goal, sequent};
ghost use Rattle.logic_theory.specs.Rules.{Follows};
ghost use Rattle.vern_sentence.specs.Trees.{Refinement as Sentence};
ghost use Rattle.tactic_theory.specs.Refinements.{Part};
ghost use Rattle.tac_base.specs.Steps.{KeepsFit, Makes, Refines};
ghost use Rattle.tactic_theory.specs.States as theory;
ghost use Rattle.proof_tree.specs.Meaning.{meanings};
ghost use Rattle.proof_state.specs.States.{state_of, refined, Fits};
ghost use Rattle.tac_base.specs.Faults.{Gives};
ghost use Rattle.tac_base.specs.Openings.{left_by, opening as made_by, Opens};
ghost use Rattle.tac_base.specs.Sites.{env_of, goal_at, IsReady};

use crate::fault::TacFault;
use crate::indices::indices_fit;
use crate::opening::Opening;
use crate::site::Site;
use crate::sizes::first_large;
use base_core::NoMemory;
use proof_state::State;
use proof_tree::Tree;

/// The state with what an opening leaves open in the place of the first focused goal, unless a formula that it puts in is
/// too large.
pub fn refine_with(site: &Site<'_>, state: &State, opening: Opening) -> Result<State, TacFault>
    requires ready { IsReady site.now }
    requires first { (gs : List Goal) × ((state_of state.now).focused ≡ goal_at site.now ∷ gs) }
    requires opens { (ps : List Part) × Opens (env_of site.now) (goal_at site.now) ps (made_by opening) }
    ensures state { (gs : List Goal) → (state_of state.now).focused ≡ goal_at site.now ∷ gs → Gives state_of theory.row_fault result
        (theory.refined gs (state_of state.now).frames (left_by (env_of site.now) (goal_at site.now) (made_by opening))) }
    ensures fits { IfOk result (λ s. (root : Goal) → Fits (env_of site.now) root state.now → Fits (env_of site.now) root s) }
{
    match first_large(site.env, &opening.put_in) {
        Some((nodes, height)) => Err(TacFault::TooLarge(nodes, height)),
        None => {
            let Opening { tree, .. } = opening;
            let next = replaced(site, state, tree)?;
            Ok(next)
        }
    }
}

/// The state behind what a row answers.
pub fn refine_by(
    site: &Site<'_>,
    state: &State,
    made: Result<Opening, TacFault>,
) -> Result<State, TacFault>
    requires ready { IsReady site.now }
    requires first { (gs : List Goal) × ((state_of state.now).focused ≡ goal_at site.now ∷ gs) }
    requires answers { (x : Sentence) × Makes (env_of site.now) (goal_at site.now) x made }
    ensures state { (x : Sentence) → Makes (env_of site.now) (goal_at site.now) x made
        → Refines (env_of site.now) (goal_at site.now) state.now x result }
    ensures fits { KeepsFit (env_of site.now) state.now result }
{
    match made {
        Err(fault) => Err(fault),
        Ok(opening) => refine_with(site, state, opening),
    }
}

/// The state with what a tree leaves open of its first focused goal in that goal's place.
fn replaced(site: &Site<'_>, state: &State, tree: Tree) -> Result<State, NoMemory>
    requires ready { IsReady site.now }
    requires first { (gs : List Goal) × ((state_of state.now).focused ≡ goal_at site.now ∷ gs) }
    requires follows { Follows (env_of site.now) (meanings tree) (sequent (goal_at site.now) ∷ []) }
    ensures state { IfOk result (λ s. state_of s
        ≡ theory.state (refined (meanings tree) (state_of state.now).focused) (state_of state.now).frames) }
    ensures fits { IfOk result (λ s. (root : Goal) → Fits (env_of site.now) root state.now → Fits (env_of site.now) root s) }
{
    indices_fit(site.alloc, site.variables, &site.goal.goal, &tree)?;
    let next = state.refine(site.alloc, tree)?;
    Ok(next)
}
