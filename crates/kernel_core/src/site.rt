//! Where a rule is used, and what is asked of formulas there.
ghost use Rattle.std.specs.Prelude.{◌≡◌, ◌↔◌, ◌≤◌, ℕ, List, [], ◌∷◌, length, Some, IfOk, IsTrue, MatchOption};
ghost use Rattle.fol_theory.specs.Contexts.{IsHypothesis};
ghost use Rattle.fol_theory.specs.Syntax as theory_syntax;
ghost use Rattle.fol_theory.specs.Substitution as theory;
ghost use Rattle.term_core.specs.Formula.{meaning};
ghost use Rattle.term_core.specs.Term as term;
ghost use Rattle.env_theory.specs.Declarations.{find, stated};
ghost use Rattle.env_theory.specs.Typing.{HasSort, IsSort, WellFormed};
ghost use Rattle.env_theory.specs.Normal.{Same};
ghost use Rattle.kernel_core.specs.Sites.{context_at, environment, goal_at, sorts_at, IsReadyAt};

use base_core::NoMemory;
use conv_core::same;
use env_core::{Decl, Env};
use form_core::{has_sort, instantiate, normal_fits, shifted, well_formed, well_formed_body};
use std::alloc::Global;
use term_core::{Formula, Name, Sequent, Term};

/// A sequent that is to be shown over an environment, and a number that the number of its variables doesn't pass.
#[derive(Clone, Copy)]
pub(crate) struct Site<'a> {
    pub(crate) alloc: Global,
    pub(crate) env: &'a Env,
    pub(crate) place: &'a Sequent,
    pub(crate) most: u64,
}

impl<'a> Site<'a> {
    /// Whether a term has the sort here.
    pub(crate) fn has_sort(&self, t: &Term, sort: &Name) -> bool
        ensures { IsTrue result ↔ HasSort (environment self.now) (sorts_at self.now) (term.meaning t.now) sort.now }
    {
        has_sort(t, self.env, &self.place.context, sort)
    }

    /// Whether a formula is well formed here.
    pub(crate) fn is_formed(&self, a: &Formula) -> Result<bool, NoMemory>
        ensures { IfOk result (λ r. IsTrue r ↔ WellFormed (environment self.now) (sorts_at self.now) (meaning a.now)) }
    {
        well_formed(a, self.alloc, self.env, &self.place.context)
    }

    /// Whether two formulas are well formed here.
    pub(crate) fn are_formed(&self, a: &Formula, b: &Formula) -> Result<bool, NoMemory>
        ensures { IfOk result (λ r. IsTrue r ↔ (WellFormed (environment self.now) (sorts_at self.now) (meaning a.now)
            × WellFormed (environment self.now) (sorts_at self.now) (meaning b.now))) }
    {
        if !self.is_formed(a)? {
            return Ok(false);
        }
        self.is_formed(b)
    }

    /// Whether a name is declared as a sort, and a formula well formed under a further variable of that sort.
    pub(crate) fn is_body(&self, sort: &Name, body: &Formula) -> Result<bool, NoMemory>
        ensures { IfOk result (λ r. IsTrue r ↔ (IsSort (find (environment self.now) sort.now)
            × WellFormed (environment self.now) (sort.now ∷ sorts_at self.now) (meaning body.now))) }
    {
        well_formed_body(body, self.alloc, self.env, &self.place.context, sort)
    }

    /// Whether a formula is the same as the goal.
    pub(crate) fn is_goal(&self, a: &Formula) -> Result<bool, NoMemory>
        requires ready { IsReadyAt self.now }
        requires formed { (V : List (List ℕ)) × WellFormed (environment self.now) V (meaning a.now)
            × (length V ≤ self.now.most) }
        ensures { IfOk result (λ r. IsTrue r ↔ Same (environment self.now) (meaning a.now) (goal_at self.now)) }
    {
        normal_fits(self.env, self.most, a)?;
        normal_fits(self.env, self.most, &self.place.goal)?;
        same(self.alloc, self.env, a, &self.place.goal)
    }

    /// Whether a formula is well formed here, and the same as the goal.
    pub(crate) fn shows(&self, a: &Formula) -> Result<bool, NoMemory>
        requires { IsReadyAt self.now }
        ensures { IfOk result (λ r. IsTrue r ↔ (WellFormed (environment self.now) (sorts_at self.now) (meaning a.now)
            × Same (environment self.now) (meaning a.now) (goal_at self.now))) }
    {
        if !self.is_formed(a)? {
            return Ok(false);
        }
        self.is_goal(a)
    }

    /// Whether the body of a quantifier with a term for its variable is the same as the goal.
    pub(crate) fn shows_instance(&self, body: &Formula, t: &Term) -> Result<bool, NoMemory>
        requires ready { IsReadyAt self.now }
        requires formed { (s : List ℕ) × WellFormed (environment self.now) (s ∷ sorts_at self.now) (meaning body.now)
            × HasSort (environment self.now) (sorts_at self.now) (term.meaning t.now) s }
        ensures { IfOk result (λ r. IsTrue r ↔ Same (environment self.now)
            (theory.instantiate (meaning body.now) (term.meaning t.now)) (goal_at self.now)) }
    {
        let made = instantiate(self.alloc, self.most, body, t)?;
        self.is_goal(&made)
    }

    /// The hypothesis with this number from the oldest, as it stands under all variables, or None exactly where there is
    /// none.
    pub(crate) fn hypothesis(&self, number: u64) -> Result<Option<Formula>, NoMemory>
        requires { IsReadyAt self.now }
        ensures { IfOk result (λ r. MatchOption r ((a : theory_syntax.Formula) → IsHypothesis (context_at self.now) number a → ⊥)
            (λ a. IsHypothesis (context_at self.now) number (meaning a))) }
    {
        match self.place.context.hypothesis(number)? {
            None => Ok(None),
            Some((a, newer)) => Ok(Some(shifted(self.alloc, self.most, a, newer)?)),
        }
    }

    /// Whether there is a hypothesis with this number from the oldest.
    pub(crate) fn has_hypothesis(&self, number: u64) -> Result<bool, NoMemory>
        ensures { IfOk result (λ r. IsTrue r ↔ ((a : theory_syntax.Formula) × IsHypothesis (context_at self.now) number a)) }
    {
        Ok(number < self.place.context.count())
    }

    /// The formula that is stated under a name, or None exactly where none is.
    pub(crate) fn stated(&self, name: &Name) -> Option<&'a Formula>
        ensures { MatchOption result ((a : theory_syntax.Formula) → find (environment self.now) name.now ≡ Some (stated name.now a) → ⊥)
            (λ a. (find (environment self.now) name.now ≡ Some (stated name.now (meaning a.now)))
            × WellFormed (environment self.now) [] (meaning a.now)) }
    {
        self.env.environment();
        match self.env.find(name) {
            Some(Decl::Stated { formula, .. }) => Some(formula),
            _ => None,
        }
    }
}
