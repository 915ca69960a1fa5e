//! Sameness, without making a normal form.
ghost use Rattle.std.specs.Prelude.{◌≡◌, ◌↔◌, ◌≤◌, ◌^◌, ℕ, List, IfOk, IsTrue};
ghost use Rattle.fol_theory.specs.Measures.{reach, term_reach};
ghost use Rattle.term_core.specs.Formula as formula;
ghost use Rattle.term_core.specs.Term as term;
ghost use Rattle.env_theory.specs.Typing.{Environment, HasSort, WellFormed};
ghost use Rattle.env_theory.specs.Normal.{Same, normal, normal_term};
ghost use Rattle.env_theory.specs.Compare.{Agree};
ghost use Rattle.env_core.specs.Meaning.{declarations};
ghost use Rattle.conv_core.specs.Frames.{Ordered, Extends};
ghost use Rattle.conv_core.specs.Pairs.{StandingPair, pair_of, Split};

use crate::frame::Frame;
use crate::pair::{FormulaPair, Pair, TermPair};
use crate::parts::split_formulas;
use crate::terms::split_terms;
use base_core::NoMemory;
use env_core::Env;
use std::alloc::Global;
use term_core::{Formula, Term};

/// Whether two formulas have one normal form but for the names that are printed, of any size. Neither is made, and
/// comparing doesn't recurse. Sizes are compared first, by a recursion as deep as the formulas are as written, so that
/// with one side within the limits at most as many heads are compared as it has nodes.
#[tactic(auto, using(crate::proofs::Compares::formula_sizes))]
pub fn same<'a>(
    alloc: Global,
    env: &'a Env,
    a: &'a Formula,
    b: &'a Formula,
) -> Result<bool, NoMemory>
    requires first { (V : List (List ℕ)) × WellFormed (declarations env.now) V (formula.meaning a.now) }
    requires second { (V : List (List ℕ)) × WellFormed (declarations env.now) V (formula.meaning b.now) }
    requires first_indices { reach (normal (declarations env.now) (formula.meaning a.now)) ≤ 2 ^ 64 }
    requires second_indices { reach (normal (declarations env.now) (formula.meaning b.now)) ≤ 2 ^ 64 }
    ensures { IfOk result (λ r. IsTrue r ↔ Same (declarations env.now) (formula.meaning a.now) (formula.meaning b.now)) }
{
    env.environment();
    let (size, other) = (env.formula_size(a), env.formula_size(b));
    if size.nodes != other.nodes || size.height != other.height {
        return Ok(false);
    }
    let mut frames = Vec::new(alloc);
    let start = Pair::Formulas(FormulaPair {
        first_scope: 0,
        first: a,
        second_scope: 0,
        second: b,
    });
    agree(alloc, env, &mut frames, start)
}

/// Whether two terms have one normal form, of any size, in the same way.
#[tactic(auto, using(crate::proofs::Compares::sizes))]
pub fn same_terms<'a>(
    alloc: Global,
    env: &'a Env,
    t: &'a Term,
    u: &'a Term,
) -> Result<bool, NoMemory>
    requires first { (V : List (List ℕ)) × (s : List ℕ) × HasSort (declarations env.now) V (term.meaning t.now) s }
    requires second { (V : List (List ℕ)) × (s : List ℕ) × HasSort (declarations env.now) V (term.meaning u.now) s }
    requires first_indices { term_reach (normal_term (declarations env.now) (term.meaning t.now)) ≤ 2 ^ 64 }
    requires second_indices { term_reach (normal_term (declarations env.now) (term.meaning u.now)) ≤ 2 ^ 64 }
    ensures { IfOk result (λ r. IsTrue r ↔ (normal_term (declarations env.now) (term.meaning t.now)
        ≡ normal_term (declarations env.now) (term.meaning u.now))) }
{
    env.environment();
    let (size, other) = (env.term_size(t), env.term_size(u));
    if size.nodes != other.nodes || size.height != other.height {
        return Ok(false);
    }
    let mut frames = Vec::new(alloc);
    let start = Pair::Terms(TermPair {
        first_scope: 0,
        first_by: 0,
        first: t,
        second_scope: 0,
        second_by: 0,
        second: u,
    });
    agree(alloc, env, &mut frames, start)
}

/// Whether the two sides of a pair have one normal form, but for the names that are printed.
fn agree<'a>(
    alloc: Global,
    env: &'a Env,
    frames: &mut Vec<Frame<'a>>,
    start: Pair<'a>,
) -> Result<bool, NoMemory>
    requires environment { Environment (declarations env.now) }
    requires standing { StandingPair (declarations env.now) frames.old.items start }
    ensures { IfOk result (λ r. IsTrue r ↔ Agree (declarations env.now) (pair_of frames.old.items start.entry)) }
{
    let mut stack = Vec::new(alloc);
    stack.push(start)?;
    while let Some(pair) = stack.pop() {
        if !split(env, frames, &mut stack, pair)? {
            return Ok(false);
        }
    }
    Ok(true)
}

/// Compares the heads of a pair, and leaves what is to be compared below them.
fn split<'a>(
    env: &'a Env,
    frames: &mut Vec<Frame<'a>>,
    stack: &mut Vec<Pair<'a>>,
    pair: Pair<'a>,
) -> Result<bool, NoMemory>
    requires environment { Environment (declarations env.now) }
    requires standing { StandingPair (declarations env.now) frames.old.items pair }
    ensures ordered { IfOk result (λ r. Ordered frames.new.items) }
    ensures extends { IfOk result (λ r. Extends frames.old.items frames.new.items) }
    ensures split { IfOk result (Split (declarations env.now) (pair_of frames.old.items pair.entry) frames.new.items
        stack.old.items stack.new.items) }
{
    match pair {
        Pair::Terms(terms) => split_terms(env, frames, stack, &terms),
        Pair::Formulas(formulas) => split_formulas(env, frames, stack, &formulas),
    }
}
