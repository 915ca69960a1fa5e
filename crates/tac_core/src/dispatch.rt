//! A refinement of the first focused goal of a state.
ghost use Rattle.std.specs.Prelude.{◌≡◌, ◌∷◌, List};
ghost use Rattle.env_core.specs.Meaning.{declarations};
ghost use Rattle.logic_theory.specs.Goals.{Goal};
ghost use Rattle.vern_parse.specs.Sentences.{refinement};
ghost use Rattle.tactic_theory.specs.States.{by_refinement, inner_of, row_fault, run_one};
ghost use Rattle.tactic_theory.specs.Typing.{typed};
ghost use Rattle.script_theory.specs.Sizes.{large};
ghost use Rattle.proof_state.specs.States.{state_of};
ghost use Rattle.proof_tree.specs.Places.{goal_of};
ghost use Rattle.tac_base.specs.Faults.{Gives};
ghost use Rattle.tac_base.specs.Sites.{env_of, goal_at, FirstFormed, IsReady};
ghost use Rattle.tac_base.specs.Steps.{KeepsFit, Makes};
ghost use Rattle.tac_core.specs.Own.{IsLogical};

use crate::apply::apply;
use crate::assert::{assert, clear};
use crate::destruct::{destruct_both, destruct_either, destruct_none};
use crate::exact::{by_hypothesis, exact};
use crate::form::{exfalso, exists, left, right, split};
use crate::intro::intro;
use crate::intros::intros;
use crate::named::intros_as;
use env_core::Env;
use proof_state::State;
use std::alloc::Global;
use tac_base::{Opening, Site, TacFault, refine_by};
use term_core::Sequent;
use vern_parse::RawTac;

/// The state behind a refinement of its first focused goal, or the refinement's first fault: `NoGoal`, then those of its
/// arguments, then `NotOfForm` and `NoSuchHyp`, `NameTaken`, `CannotMatch` and `TooLarge`. That the term of `exists` has another
/// sort than the goal asks for is looked at behind `NotOfForm`. The state that is given stays as it is.
pub fn run(alloc: Global, tac: &RawTac, env: &Env, state: &State) -> Result<State, TacFault>
    requires own { IsLogical (refinement tac.now) }
    requires formed { FirstFormed (declarations env.now) (state_of state.now).focused }
    ensures state { Gives state_of row_fault result (run_one (large (declarations env.now)) (typed (declarations env.now))
        (declarations env.now) (inner_of (refinement tac.now)) (state_of state.now)) }
    ensures fits { KeepsFit (declarations env.now) state.now result }
{
    match state.first() {
        None => Err(TacFault::NoGoal),
        Some(goal) => run_at(alloc, tac, env, state, goal),
    }
}

/// The same with the first focused goal at hand.
fn run_at(
    alloc: Global,
    tac: &RawTac,
    env: &Env,
    state: &State,
    goal: &Sequent,
) -> Result<State, TacFault>
    requires own { IsLogical (refinement tac.now) }
    requires first { (gs : List Goal) × ((state_of state.now).focused ≡ goal_of goal.now ∷ gs) }
    requires formed { FirstFormed (declarations env.now) (state_of state.now).focused }
    ensures state { Gives state_of row_fault result (run_one (large (declarations env.now)) (typed (declarations env.now))
        (declarations env.now) (inner_of (refinement tac.now)) (state_of state.now)) }
    ensures fits { KeepsFit (declarations env.now) state.now result }
{
    match tac {
        RawTac::Intros(names) => {
            if names.is_empty() {
                run_row(alloc, tac, env, state, goal)
            } else {
                intros_as(alloc, names, env, state)
            }
        }
        _ => run_row(alloc, tac, env, state, goal),
    }
}

/// The same of a refinement that is one row of the table.
fn run_row(
    alloc: Global,
    tac: &RawTac,
    env: &Env,
    state: &State,
    goal: &Sequent,
) -> Result<State, TacFault>
    requires own { IsLogical (refinement tac.now) }
    requires one { inner_of (refinement tac.now) ≡ by_refinement (refinement tac.now) }
    requires first { (gs : List Goal) × ((state_of state.now).focused ≡ goal_of goal.now ∷ gs) }
    requires formed { FirstFormed (declarations env.now) (state_of state.now).focused }
    ensures state { Gives state_of row_fault result (run_one (large (declarations env.now)) (typed (declarations env.now))
        (declarations env.now) (inner_of (refinement tac.now)) (state_of state.now)) }
    ensures fits { KeepsFit (declarations env.now) state.now result }
{
    let site = Site::of(alloc, env, goal)?;
    refine_by(&site, state, row(&site, tac))
}

/// What the row of a refinement makes of a goal. Where `intros` has names, none of them is looked at.
fn row(site: &Site<'_>, tac: &RawTac) -> Result<Opening, TacFault>
    requires ready { IsReady site.now }
    requires own { IsLogical (refinement tac.now) }
    ensures { Makes (env_of site.now) (goal_at site.now) (refinement tac.now) result }
{
    match tac {
        RawTac::Intro(x) => intro(site, x.as_ref()),
        RawTac::Intros(_) => intros(site),
        RawTac::Exact(raw) => exact(site, raw),
        RawTac::Assumption => by_hypothesis(site),
        RawTac::Apply(raw) => apply(site, raw),
        RawTac::Split => split(site),
        RawTac::Left => left(site),
        RawTac::Right => right(site),
        RawTac::Exists(raw) => exists(site, raw),
        RawTac::DestructAnd(raw, x, y) => destruct_both(site, raw, x, y),
        RawTac::DestructOr(raw, x, y) => destruct_either(site, raw, x, y),
        RawTac::DestructFalse(raw) => destruct_none(site, raw),
        RawTac::Exfalso => exfalso(site),
        RawTac::Assert(x, raw) => assert(site, x, raw),
        RawTac::Clear(x) => clear(site, x),
        RawTac::Reflexivity | RawTac::Symmetry => unreachable!(),
        RawTac::Rewrite(_, _) | RawTac::Unfold(_, _) => unreachable!(),
    }
}
