//! Rows of normal forms and of sameness.
ghost use Rattle.std.specs.Prelude.{◌≤◌, ◌^◌, [], IsTrue};
ghost use Rattle.fol_theory.specs.Measures.{term_reach};
ghost use Rattle.term_core.specs.Term.{meaning};
ghost use Rattle.env_theory.specs.Typing.{HasSort};
ghost use Rattle.env_theory.specs.Normal.{normal_term};
ghost use Rattle.env_core.specs.Meaning.{declarations};

use crate::rows::Told;
use crate::spell::{Unread, formula_at, name_at, term_at, word_at};
use conv_core::{NormalFault, normal, normal_term, same, same_terms};
use env_core::Env;
use form_core::{has_sort, normal_fits, well_formed};
use sexp_core::Sexp;
use std::alloc::Global;
use term_core::{Context, Formula, Name, Term};

/// What a row comes to whose first atom tells what is asked of two formulas, or of two terms of a sort. None has a free
/// variable.
pub fn compared(alloc: Global, env: &Env, parts: &[Sexp]) -> Result<Told, Unread> {
    match word_at(parts, 0)? {
        b"normal" => {
            let a = formula_at(alloc, parts, 1)?;
            let form = formula_at(alloc, parts, 2)?;
            normal_form(alloc, env, &a, &form)
        }
        b"same" => {
            let a = formula_at(alloc, parts, 1)?;
            let b = formula_at(alloc, parts, 2)?;
            same_formulas(alloc, env, &a, &b)
        }
        b"normal_term" => {
            let sort = name_at(alloc, parts, 1)?;
            let t = term_at(alloc, parts, 2)?;
            let form = term_at(alloc, parts, 3)?;
            normal_form_of_term(alloc, env, &sort, &t, &form)
        }
        b"same_terms" => {
            let sort = name_at(alloc, parts, 1)?;
            let t = term_at(alloc, parts, 2)?;
            let u = term_at(alloc, parts, 3)?;
            same_two_terms(alloc, env, &sort, &t, &u)
        }
        _ => Err(Unread::Misspelled),
    }
}

/// What making a normal form comes to, where it is or isn't the one that the row has.
fn told_of(expected: bool) -> Told {
    if expected {
        Told::NormalForm
    } else {
        Told::OtherForm
    }
}

/// Whether the second formula is the first one's normal form.
fn normal_form(alloc: Global, env: &Env, a: &Formula, form: &Formula) -> Result<Told, Unread> {
    if !well_formed(a, alloc, env, &Context::Empty)? {
        return Ok(Told::IllFormed);
    }
    normal_fits(env, 0, a)?;
    match normal(alloc, env, a) {
        Ok(made) => Ok(told_of(made.same(form))),
        Err(NormalFault::TooLarge(_, _)) => Ok(Told::TooLarge),
        Err(NormalFault::NoMemory) => Ok(Told::NoMemory),
    }
}

/// Whether two formulas have one normal form.
fn same_formulas(alloc: Global, env: &Env, a: &Formula, b: &Formula) -> Result<Told, Unread> {
    if !well_formed(a, alloc, env, &Context::Empty)? {
        return Ok(Told::IllFormed);
    }
    if !well_formed(b, alloc, env, &Context::Empty)? {
        return Ok(Told::IllFormed);
    }
    normal_fits(env, 0, a)?;
    normal_fits(env, 0, b)?;
    let alike = same(alloc, env, a, b)?;
    Ok(if alike { Told::Same } else { Told::Different })
}

/// Whether a term without free variables has the sort.
fn is_closed(env: &Env, sort: &Name, t: &Term) -> bool
    ensures { IsTrue result → HasSort (declarations env.now) [] (meaning t.now) sort.now
        × (term_reach (normal_term (declarations env.now) (meaning t.now)) ≤ 2 ^ 64) }
{
    env.environment();
    has_sort(t, env, &Context::Empty, sort)
}

/// Whether the second term is the first one's normal form.
fn normal_form_of_term(
    alloc: Global,
    env: &Env,
    sort: &Name,
    t: &Term,
    form: &Term,
) -> Result<Told, Unread> {
    if !is_closed(env, sort, t) {
        return Ok(Told::IllFormed);
    }
    match normal_term(alloc, env, t) {
        Ok(made) => Ok(told_of(made.same(form))),
        Err(NormalFault::TooLarge(_, _)) => Ok(Told::TooLarge),
        Err(NormalFault::NoMemory) => Ok(Told::NoMemory),
    }
}

/// Whether two terms have one normal form.
fn same_two_terms(
    alloc: Global,
    env: &Env,
    sort: &Name,
    t: &Term,
    u: &Term,
) -> Result<Told, Unread> {
    if !is_closed(env, sort, t) {
        return Ok(Told::IllFormed);
    }
    if !is_closed(env, sort, u) {
        return Ok(Told::IllFormed);
    }
    let alike = same_terms(alloc, env, t, u)?;
    Ok(if alike { Told::Same } else { Told::Different })
}
