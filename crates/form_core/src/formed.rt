//! Formulas that are well formed.
ghost use Rattle.std.specs.Prelude.{◌↔◌, ◌∷◌, IsTrue, IfOk};
ghost use Rattle.fol_theory.specs.Contexts.{variables};
ghost use Rattle.fol_theory.specs.Slots.{entries};
ghost use Rattle.term_core.specs.Context.{slots};
ghost use Rattle.term_core.specs.Formula.{meaning};
ghost use Rattle.env_theory.specs.Declarations.{find};
ghost use Rattle.env_theory.specs.Typing.{IsSort, WellFormed};
ghost use Rattle.env_core.specs.Meaning.{declarations};

use crate::entry::with_variable;
use crate::sorts::{has_sort, have_sorts, is_sort, predicate_of};
use base_core::NoMemory;
use env_core::Env;
use std::alloc::Global;
use term_core::{Context, Formula, Name};

/// Whether a formula is well formed over the environment and the variables of the context.
#[cycle(formed)]
pub fn well_formed(
    a: &Formula,
    alloc: Global,
    env: &Env,
    context: &Context,
) -> Result<bool, NoMemory>
    ensures { IfOk result (λ r. IsTrue r
        ↔ WellFormed (declarations env.now) (variables (entries (slots context.now))) (meaning a.now)) }
{
    match a {
        Formula::True | Formula::False => Ok(true),
        Formula::Pred(p, ts) => Ok(match predicate_of(env, p) {
            None => false,
            Some(sorts) => have_sorts(ts.as_slice(), env, context, sorts),
        }),
        Formula::Eq(s, t, u) => Ok(
            is_sort(env, s) && has_sort(t, env, context, s) && has_sort(u, env, context, s),
        ),
        Formula::And(a, b) | Formula::Or(a, b) | Formula::Imp(a, b) => {
            if !well_formed(a, alloc, env, context)? {
                return Ok(false);
            }
            well_formed(b, alloc, env, context)
        }
        Formula::All(s, _, a) | Formula::Ex(s, _, a) => {
            well_formed_body(a, alloc, env, context, s)
        }
    }
}

/// Whether a name is declared as a sort, and a formula well formed under one variable more of that sort. So a
/// quantifier over the sort with this body is well formed.
#[cycle(formed)]
pub fn well_formed_body(
    body: &Formula,
    alloc: Global,
    env: &Env,
    context: &Context,
    sort: &Name,
) -> Result<bool, NoMemory>
    ensures { IfOk result (λ r. IsTrue r ↔ (IsSort (find (declarations env.now) sort.now)
        × WellFormed (declarations env.now) (sort.now ∷ variables (entries (slots context.now))) (meaning body.now))) }
{
    if !is_sort(env, sort) {
        return Ok(false);
    }
    let context = with_variable(alloc, context, sort)?;
    well_formed(body, alloc, env, &context)
}
