//! Normal forms within the limits.
ghost use Rattle.std.specs.Prelude.{◌≡◌, ℕ, List, ◌≤◌, ◌^◌};
ghost use Rattle.fol_theory.specs.Measures.{reach, term_reach};
ghost use Rattle.term_core.specs.Formula as formula;
ghost use Rattle.term_core.specs.Term as term;
ghost use Rattle.env_theory.specs.Typing.{HasSort, WellFormed};
ghost use Rattle.env_theory.specs.Normal as theory;
ghost use Rattle.env_core.specs.Meaning.{declarations};
ghost use Rattle.conv_core.specs.Outcomes.{IsNormal, IsNormalTerm};

use crate::fault::NormalFault;
use crate::formula::read_formula;
use crate::read::read_term;
use env_core::Env;
use std::alloc::Global;
use term_core::{Formula, Term};

/// The normal form of a formula, all definitions put in. It is counted first, and nothing but the result is made. Each
/// index of it is to be below 2^64.
#[tactic(auto, using(crate::proofs::Limits::limits))]
pub fn normal(alloc: Global, env: &Env, a: &Formula) -> Result<Formula, NormalFault>
    requires formed { (V : List (List ℕ)) × WellFormed (declarations env.now) V (formula.meaning a.now) }
    requires indices { reach (theory.normal (declarations env.now) (formula.meaning a.now)) ≤ 2 ^ 64 }
    ensures { IsNormal (declarations env.now) (formula.meaning a.now) result }
{
    env.environment();
    let size = env.formula_size(a);
    if size.passes() {
        return Err(NormalFault::TooLarge(size.nodes, size.height));
    }
    let mut frames = Vec::new(alloc);
    let made = read_formula(alloc, env, &mut frames, 0, a)?;
    Ok(made)
}

/// The normal form of a term, in the same way.
#[tactic(auto, using(crate::proofs::Limits::limits))]
pub fn normal_term(alloc: Global, env: &Env, t: &Term) -> Result<Term, NormalFault>
    requires sort { (V : List (List ℕ)) × (s : List ℕ) × HasSort (declarations env.now) V (term.meaning t.now) s }
    requires indices { term_reach (theory.normal_term (declarations env.now) (term.meaning t.now)) ≤ 2 ^ 64 }
    ensures { IsNormalTerm (declarations env.now) (term.meaning t.now) result }
{
    env.environment();
    let size = env.term_size(t);
    if size.passes() {
        return Err(NormalFault::TooLarge(size.nodes, size.height));
    }
    let mut frames = Vec::new(alloc);
    let made = read_term(alloc, env, &mut frames, 0, 0, t)?;
    Ok(made)
}
