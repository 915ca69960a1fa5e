//! The least number of strips.
ghost use Rattle.std.specs.Prelude.{◌≡◌, ◌≤◌, ℕ, List, Some, None, length, map, option_map, if◌then◌else◌, IfOk, OnOk};
ghost use Rattle.fol_theory.specs.Syntax.{Formula as Meaning};
ghost use Rattle.env_core.specs.Meaning.{declarations};
ghost use Rattle.env_theory.specs.Declarations.{Declaration};
ghost use Rattle.env_theory.specs.Normal.{normal};
ghost use Rattle.env_theory.specs.Typing.{WellFormed};
ghost use Rattle.tactic_theory.specs.Strips as theory;
ghost use Rattle.term_core.specs.Formula.{meaning};
ghost use Rattle.term_core.specs.Term as term;
ghost use Rattle.strip_core.specs.Drafts.{drafted, AreOlder, Comes, IsMeasured, Stands};
ghost use Rattle.strip_core.specs.Meaning.{fitted, strip_of};

use crate::draft::{Draft, Head};
use crate::strip::Strip;
use crate::target::Target;
use base_core::NoMemory;
use env_core::Env;
use match_core::Instance;
use std::alloc::Global;
use term_core::Formula;

/// What is left of `a` behind the least number of strips, from 0 on, for which its normal form, with terms for its open variables,
/// is that of the goal; and these terms, from the newest variable on. None exactly where there is no such number. Both formulas
/// are over the same variables, of which there are at most so many. `NoMemory` also where the goal's normal form
/// passes a limit.
pub fn fitting(
    alloc: Global,
    env: &Env,
    variables: u64,
    a: &Formula,
    goal: &Formula,
) -> Result<Option<(Strip, Instance)>, NoMemory>
    requires { (V : List (List ℕ)) × WellFormed (declarations env.now) V (meaning a.now)
        × WellFormed (declarations env.now) V (meaning goal.now) × (length V ≤ variables) }
    ensures { IfOk result (λ r. option_map fitted r
        ≡ theory.fitting (declarations env.now) (meaning goal.now) (theory.all_strips (declarations env.now) (meaning a.now))) }
{
    env.environment();
    let target = Target::of(alloc, env, variables, goal)?;
    fit(alloc, env, variables, a, &target)
}

/// The same with what is matched at hand.
fn fit(
    alloc: Global,
    env: &Env,
    variables: u64,
    a: &Formula,
    target: &Target,
) -> Result<Option<(Strip, Instance)>, NoMemory>
    requires formed { (V : List (List ℕ)) × WellFormed (declarations env.now) V (meaning a.now) × (length V ≤ variables) }
    requires measured { IsMeasured target.now }
    ensures { IfOk result (λ r. (g : Meaning) → meaning target.now.formula ≡ normal (declarations env.now) g → option_map fitted r
        ≡ theory.fitting (declarations env.now) g (theory.all_strips (declarations env.now) (meaning a.now))) }
{
    let mut draft = Draft::of(alloc, a)?;
    match strip_to_fit(alloc, env, variables, target, &mut draft)? {
        None => Ok(None),
        Some(terms) => Ok(Some(with_terms(alloc, variables, draft, terms)?)),
    }
}

/// What is left, with the terms.
fn with_terms(
    alloc: Global,
    variables: u64,
    draft: Draft,
    terms: Instance,
) -> Result<(Strip, Instance), NoMemory>
    requires older { AreOlder draft }
    requires stands { (E : List Declaration) × Stands E variables (drafted draft) }
    ensures { IfOk result (λ p. fitted p ≡ (drafted draft, map term.meaning terms.items)) }
{
    let strip = draft.finish(alloc, variables)?;
    Ok((strip, terms))
}

/// Strips until what is left fits the target, and the terms with which it does.
fn strip_to_fit(
    alloc: Global,
    env: &Env,
    variables: u64,
    target: &Target,
    draft: &mut Draft,
) -> Result<Option<Instance>, NoMemory>
    requires measured { IsMeasured target.now }
    requires older { AreOlder draft.old }
    requires stands { Stands (declarations env.now) variables (drafted draft.old) }
    ensures fits { IfOk result (λ r. (g a : Meaning) → meaning target.now.formula ≡ normal (declarations env.now) g
        → Comes (theory.fitting (declarations env.now) g) (declarations env.now) a (drafted draft.old)
        → option_map (λ ts. (drafted draft.new, map term.meaning ts.items)) r
        ≡ theory.fitting (declarations env.now) g (theory.all_strips (declarations env.now) a)) }
    ensures older { OnOk result (AreOlder draft.new) }
    ensures stands { OnOk result (Stands (declarations env.now) variables (drafted draft.new)) }
{
    env.environment();
    loop {
        match target.terms(alloc, env, variables, draft)? {
            Some(terms) => return Ok(Some(terms)),
            None => {}
        }
        match draft.advance(env)? {
            Head::Strip => {}
            _ => return Ok(None),
        }
    }
}

/// What is left of `a` behind the least number of strips, from 0 on, for which its head form is an equation. None exactly
/// where there is no such number.
pub fn equation(
    alloc: Global,
    env: &Env,
    variables: u64,
    a: &Formula,
) -> Result<Option<Strip>, NoMemory>
    requires { (V : List (List ℕ)) × WellFormed (declarations env.now) V (meaning a.now) × (length V ≤ variables) }
    ensures { IfOk result (λ r. option_map strip_of r
        ≡ theory.equation (declarations env.now) (theory.all_strips (declarations env.now) (meaning a.now))) }
{
    env.environment();
    let mut draft = Draft::of(alloc, a)?;
    if strip_to_equation(env, &mut draft)? {
        Ok(Some(draft.finish(alloc, variables)?))
    } else {
        Ok(None)
    }
}

/// Strips until what is left is an equation, and whether it is one.
fn strip_to_equation(env: &Env, draft: &mut Draft) -> Result<bool, NoMemory>
    requires older { AreOlder draft.old }
    requires stands { (n : ℕ) × Stands (declarations env.now) n (drafted draft.old) }
    ensures equates { IfOk result (λ r. (a : Meaning)
        → Comes (theory.equation (declarations env.now)) (declarations env.now) a (drafted draft.old)
        → (if r then Some (drafted draft.new) else None) ≡ theory.equation (declarations env.now) (theory.all_strips (declarations env.now) a)) }
    ensures older { OnOk result (AreOlder draft.new) }
    ensures stands { (n : ℕ) → Stands (declarations env.now) n (drafted draft.old)
        → OnOk result (Stands (declarations env.now) n (drafted draft.new)) }
{
    env.environment();
    loop {
        match draft.advance(env)? {
            Head::Strip => {}
            Head::Equation => return Ok(true),
            Head::Other => return Ok(false),
        }
    }
}
