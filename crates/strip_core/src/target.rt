//! What a formula is matched with.
ghost use Rattle.std.specs.Prelude.{◌≡◌, ◌<◌, ◌≤◌, ◌⊎◌, ℕ, List, length, map, option_map, IfOk, IsTrue};
ghost use Rattle.env_core.specs.Meaning.{declarations};
ghost use Rattle.env_theory.specs.Normal as theory;
ghost use Rattle.env_theory.specs.Typing.{WellFormed};
ghost use Rattle.match_theory.specs.Matching as matching;
ghost use Rattle.term_core.specs.Formula.{meaning};
ghost use Rattle.term_core.specs.Term as term;
ghost use Rattle.strip_core.specs.Drafts.{drafted, IsMeasured, Stands};

use crate::draft::Draft;
use base_core::NoMemory;
use conv_core::normal;
use env_core::{Env, Tally};
use form_core::normal_fits;
use match_core::{Instance, matches};
use std::alloc::Global;
use term_core::Formula;

/// The normal form of a goal, with how large it is.
#[derive(Drop)]
pub(crate) struct Target {
    pub(crate) formula: Formula,
    pub(crate) size: Tally,
}

/// The normal form of a formula under so many variables. `NoMemory` also where it passes a limit.
fn normal_form(alloc: Global, env: &Env, variables: u64, a: &Formula) -> Result<Formula, NoMemory>
    requires { (V : List (List ℕ)) × WellFormed (declarations env.now) V (meaning a.now) × (length V ≤ variables) }
    ensures { IfOk result (λ n. meaning n ≡ theory.normal (declarations env.now) (meaning a.now)) }
{
    normal_fits(env, variables, a)?;
    match normal(alloc, env, a) {
        Ok(made) => Ok(made),
        Err(_) => Err(NoMemory),
    }
}

/// Whether there are more nodes, or more of them one on top of another.
fn is_larger(size: Tally, than: Tally) -> bool
    ensures { IsTrue result → (than.nodes < size.nodes) ⊎ (than.height < size.height) }
{
    size.nodes > than.nodes || size.height > than.height
}

impl Target {
    /// The normal form of a goal. `NoMemory` also where it passes a limit.
    pub(crate) fn of(
        alloc: Global,
        env: &Env,
        variables: u64,
        goal: &Formula,
    ) -> Result<Target, NoMemory>
        requires { (V : List (List ℕ)) × WellFormed (declarations env.now) V (meaning goal.now) × (length V ≤ variables) }
        ensures normal { IfOk result (λ t. meaning t.formula ≡ theory.normal (declarations env.now) (meaning goal.now)) }
        ensures measured { IfOk result (λ t. IsMeasured t) }
    {
        let formula = normal_form(alloc, env, variables, goal)?;
        Ok(Target {
            formula,
            size: env.formula_size(goal),
        })
    }

    /// The terms with which what is left fits, from the newest open variable on. What has more nodes or is higher than the
    /// target has no instance that is the target, and its normal form isn't made; else that is within the limits too.
    pub(crate) fn terms(
        &self,
        alloc: Global,
        env: &Env,
        variables: u64,
        draft: &Draft,
    ) -> Result<Option<Instance>, NoMemory>
        requires measured { IsMeasured self.now }
        requires stands { Stands (declarations env.now) variables (drafted draft.now) }
        ensures { IfOk result (λ r. option_map (λ ts. map term.meaning ts.items) r
            ≡ matching.matches (length (drafted draft.now).sorts) (theory.normal (declarations env.now) (drafted draft.now).rest)
            (meaning self.now.formula)) }
    {
        let size = env.formula_size(&draft.rest);
        if is_larger(size, self.size) {
            return Ok(None);
        }
        let open = draft.open();
        let all = draft.all_variables(variables)?;
        let pattern = normal_form(alloc, env, all, &draft.rest)?;
        matches(alloc, &pattern, open, &self.formula)
    }
}
