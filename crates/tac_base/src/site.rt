//! Where a goal is refined.
ghost use Rattle.std.specs.Prelude.{◌≡◌, IfOk};
ghost use Rattle.env_theory.specs.Heads.{head_form};
ghost use Rattle.env_core.specs.Meaning.{declarations};
ghost use Rattle.logic_theory.specs.Goals.{sequent};
ghost use Rattle.logic_theory.specs.Rules.{Formed};
ghost use Rattle.proof_tree.specs.Places.{goal_of};
ghost use Rattle.term_core.specs.Formula.{meaning};
ghost use Rattle.tac_base.specs.Sites.{env_of, goal_at, IsReady};

use base_core::NoMemory;
use env_core::Env;
use form_core::count_variables;
use std::alloc::Global;
use term_core::{Formula, Sequent};

/// A goal over an environment, and a number that the number of its variables doesn't pass.
#[derive(Clone, Copy)]
pub struct Site<'a> {
    pub alloc: Global,
    pub env: &'a Env,
    pub goal: &'a Sequent,
    pub variables: u64,
}

impl<'a> Site<'a> {
    /// The site of a goal.
    pub fn of(alloc: Global, env: &'a Env, goal: &'a Sequent) -> Result<Site<'a>, NoMemory>
        requires { Formed (declarations env.now) (sequent (goal_of goal.now)) }
        ensures env { IfOk result (λ s. env_of s ≡ declarations env.now) }
        ensures goal { IfOk result (λ s. goal_at s ≡ goal_of goal.now) }
        ensures ready { IfOk result (λ s. IsReady s) }
    {
        env.environment();
        let variables = count_variables(&goal.context)?;
        Ok(Site {
            alloc,
            env,
            goal,
            variables,
        })
    }

    /// The head form of the goal.
    pub fn head(&self) -> Result<Formula, NoMemory>
        ensures { IfOk result (λ h. meaning h ≡ head_form (env_of self.now) (goal_at self.now).shown) }
    {
        self.env.head_form(&self.goal.goal)
    }
}
