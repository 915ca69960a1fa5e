//! Head forms: the definitions at the head are gone along first, and their arguments put in once, at the end.
ghost use Rattle.std.specs.Prelude.{◌≡◌, ◌+◌, [], IfOk};
ghost use Rattle.std.specs.Option.{option_map_or};
ghost use Rattle.std.specs.Arc.{arc_value, arc_slice_items};
ghost use Rattle.fol_theory.specs.Syntax.{var, app, nil};
ghost use Rattle.term_core.specs.Term.{meaning, list_meaning};
ghost use Rattle.term_core.specs.Formula as formula;
ghost use Rattle.env_theory.specs.Typing.{Environment};
ghost use Rattle.env_theory.specs.Normal.{argument};
ghost use Rattle.env_theory.specs.Heads.{head_form};
ghost use Rattle.env_core.specs.Meaning.{declarations};
ghost use Rattle.env_core.specs.Filled.{scope_of, filled, all_filled, formula_filled};

use crate::env::Env;
use base_core::NoMemory;
use std::alloc::Global;
use std::sync::{Arc, ArcSlice};
use term_core::{Formula, Name, Term, Terms};

/// The arguments for a definition's body. Their variables are those of the body before, or of the whole.
#[derive(Clone, Copy)]
pub struct Frame<'a> {
    pub arguments: &'a [Term],
}

/// Goes along the definitions at the head to the first formula without one. The arguments for each body are left
/// in frames.
pub fn head_of<'a>(
    env: &'a Env,
    frames: &mut Vec<Frame<'a>>,
    a: &'a Formula,
) -> Result<&'a Formula, NoMemory>
    requires { Environment (declarations env.now) }
    ensures { IfOk result (λ h. formula_filled (scope_of frames.new.items) 0 (formula.meaning h.now)
        ≡ formula_filled (scope_of frames.old.items) 0 (head_form (declarations env.now) (formula.meaning a.now))) }
{
    let mut head = a;
    loop {
        match head {
            Formula::Pred(p, ts) => match env.predicate_body(p) {
                None => return Ok(head),
                Some(body) => {
                    frames.push(Frame {
                        arguments: ts.as_slice(),
                    })?;
                    head = body;
                }
            },
            _ => return Ok(head),
        }
    }
}

/// A formula under so many quantifiers, with the arguments put in. Nothing but the result is made.
#[cycle(fill)]
pub fn fill(
    alloc: Global,
    frames: &[Frame<'_>],
    binders: u64,
    a: &Formula,
) -> Result<Formula, NoMemory>
    ensures { IfOk result (λ r. formula.meaning r ≡ formula_filled (scope_of frames.now) binders (formula.meaning a.now)) }
{
    match a {
        Formula::True => Ok(Formula::True),
        Formula::False => Ok(Formula::False),
        Formula::Pred(p, ts) => {
            let made = fill_terms(alloc, frames, binders, 0, ts.as_slice())?;
            Ok(Formula::Pred(p.copy()?, made))
        }
        Formula::Eq(s, t, u) => {
            let first = fill_term(alloc, frames, binders, 0, t)?;
            let second = fill_term(alloc, frames, binders, 0, u)?;
            Ok(Formula::Eq(s.copy()?, first, second))
        }
        Formula::And(b, d) => {
            let first = fill_part(alloc, frames, binders, b)?;
            let second = fill_part(alloc, frames, binders, d)?;
            Ok(Formula::And(first, second))
        }
        Formula::Or(b, d) => {
            let first = fill_part(alloc, frames, binders, b)?;
            let second = fill_part(alloc, frames, binders, d)?;
            Ok(Formula::Or(first, second))
        }
        Formula::Imp(b, d) => {
            let first = fill_part(alloc, frames, binders, b)?;
            let second = fill_part(alloc, frames, binders, d)?;
            Ok(Formula::Imp(first, second))
        }
        Formula::All(s, x, b) => {
            let inner = fill_below(alloc, frames, binders, b)?;
            Ok(Formula::All(s.copy()?, x.copy()?, inner))
        }
        Formula::Ex(s, x, b) => {
            let inner = fill_below(alloc, frames, binders, b)?;
            Ok(Formula::Ex(s.copy()?, x.copy()?, inner))
        }
    }
}

/// A part.
#[cycle(fill)]
fn fill_part(
    alloc: Global,
    frames: &[Frame<'_>],
    binders: u64,
    a: &Arc<Formula>,
) -> Result<Arc<Formula>, NoMemory>
    ensures { IfOk result (λ r. formula.meaning (arc_value r)
        ≡ formula_filled (scope_of frames.now) binders (formula.meaning (arc_value a.now))) }
{
    let made = fill(alloc, frames, binders, a)?;
    Ok(Arc::new(alloc, made)?)
}

/// The body of a quantifier. `NoMemory` where 2^64 stand around.
#[cycle(fill)]
fn fill_below(
    alloc: Global,
    frames: &[Frame<'_>],
    binders: u64,
    a: &Arc<Formula>,
) -> Result<Arc<Formula>, NoMemory>
    ensures { IfOk result (λ r. formula.meaning (arc_value r)
        ≡ formula_filled (scope_of frames.now) (binders + 1) (formula.meaning (arc_value a.now))) }
{
    if binders == u64::MAX {
        return Err(NoMemory);
    }
    fill_part(alloc, frames, binders + 1, a)
}

/// A term under so many quantifiers of a formula, and `by` further ones that it has to pass.
#[cycle(fill_term)]
fn fill_term(
    alloc: Global,
    frames: &[Frame<'_>],
    binders: u64,
    by: u64,
    t: &Term,
) -> Result<Term, NoMemory>
    ensures { IfOk result (λ r. meaning r ≡ filled (scope_of frames.now) binders by (meaning t.now)) }
{
    match t {
        Term::Var(i) => {
            if *i < binders {
                return raised(*i, by);
            }
            match by.checked_add(binders) {
                None => Err(NoMemory),
                Some(around) => fill_variable(alloc, frames, around, *i - binders),
            }
        }
        Term::App(f, ts) => fill_application(alloc, frames, binders, by, f, ts),
    }
}

/// A function with its arguments.
#[cycle(fill_term)]
fn fill_application(
    alloc: Global,
    frames: &[Frame<'_>],
    binders: u64,
    by: u64,
    f: &Name,
    ts: &Terms,
) -> Result<Term, NoMemory>
    ensures { IfOk result (λ r. meaning r
        ≡ app f.now (all_filled (scope_of frames.now) binders by (list_meaning (arc_slice_items ts.now)))) }
{
    let made = fill_terms(alloc, frames, binders, by, ts.as_slice())?;
    Ok(Term::App(f.copy()?, made))
}

/// Terms, in order.
#[cycle(fill_term)]
fn fill_terms(
    alloc: Global,
    frames: &[Frame<'_>],
    binders: u64,
    by: u64,
    ts: &[Term],
) -> Result<Terms, NoMemory>
    ensures { IfOk result (λ r. list_meaning (arc_slice_items r) ≡ all_filled (scope_of frames.now) binders by (list_meaning ts.now)) }
{
    let mut made = Vec::with_capacity(alloc, ts.len())?;
    for t in ts {
        made.push(fill_term(alloc, frames, binders, by, t)?)?;
    }
    Ok(ArcSlice::from_vec(made)?)
}

/// What a variable of the last body stands for: from argument to argument, while these are variables.
#[cycle(fill_term)]
fn fill_variable(alloc: Global, frames: &[Frame<'_>], by: u64, index: u64) -> Result<Term, NoMemory>
    ensures { IfOk result (λ r. meaning r ≡ filled (scope_of frames.now) 0 by (var index)) }
{
    let mut left = frames.len();
    let mut i = index;
    while left > 0 {
        left -= 1;
        match argument_of(frames[left].arguments, i) {
            None => return closed(alloc),
            Some(t) => match t {
                Term::Var(j) => i = *j,
                Term::App(f, ts) => {
                    return fill_application(alloc, &frames[..left], 0, by, f, ts);
                }
            },
        }
    }
    raised(i, by)
}

/// The argument for a variable: the last is for the variable 0.
fn argument_of<'a>(ts: &'a [Term], index: u64) -> Option<&'a Term>
    ensures { option_map_or (λ t. meaning t.now) result (app [] nil) ≡ argument (list_meaning ts.now) index }
{
    let len = ts.len();
    if index < len as u64 {
        Some(&ts[len - 1 - index as usize])
    } else {
        None
    }
}

/// A variable. `NoMemory` where its index isn't below 2^64, for no context is as long.
fn raised(index: u64, by: u64) -> Result<Term, NoMemory>
    ensures { IfOk result (λ r. meaning r ≡ var (index + by)) }
{
    match index.checked_add(by) {
        None => Err(NoMemory),
        Some(i) => Ok(Term::Var(i)),
    }
}

/// What stands for a variable beyond the parameters, which no body has.
fn closed(alloc: Global) -> Result<Term, NoMemory>
    ensures { IfOk result (λ r. meaning r ≡ app [] nil) }
{
    let none = ArcSlice::from_vec(Vec::new(alloc))?;
    Ok(Term::App(Name::from_slice(alloc, b"")?, none))
}
