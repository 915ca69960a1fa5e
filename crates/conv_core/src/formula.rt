//! Normal forms of formulas.
ghost use Rattle.std.specs.Prelude.{◌≡◌, ℕ, IfOk, MatchOption, Some, List};
ghost use Rattle.fol_theory.specs.Syntax.{pred};
ghost use Rattle.term_core.specs.Term.{list_meaning};
ghost use Rattle.term_core.specs.Formula.{meaning};
ghost use Rattle.std.specs.Arc.{arc_value};
ghost use Rattle.env_theory.specs.Declarations.{find};
ghost use Rattle.env_theory.specs.Typing.{Environment};
ghost use Rattle.env_theory.specs.Scopes.{under, formula_value};
ghost use Rattle.env_theory.specs.Machine.{formula_body};
ghost use Rattle.env_core.specs.Meaning.{declarations};
ghost use Rattle.conv_core.specs.Frames.{scope_of, Ordered, Extends};
ghost use Rattle.conv_core.specs.Formulas.{Rigid, StandingFormula, StandingBelow, HeadedFormula};

use crate::frame::Frame;
use crate::read::{read_term, read_terms};
use base_core::NoMemory;
use env_core::Env;
use std::alloc::Global;
use std::sync::Arc;
use term_core::{Formula, Term};

/// A predicate's definition: the arguments for it, and its body.
#[derive(Clone, Copy)]
pub struct Opened<'a> {
    pub arguments: &'a [Term],
    pub body: &'a Formula,
}

/// A formula in a scope.
#[derive(Clone, Copy)]
pub struct Place<'a> {
    pub scope: usize,
    pub formula: &'a Formula,
}

/// The definition of a formula's predicate.
#[tactic(auto, using(crate::proofs::Tops::rigid_other))]
pub fn open<'a>(env: &'a Env, a: &'a Formula) -> Option<Opened<'a>>
    ensures { MatchOption result
        (Rigid (declarations env.now) (meaning a.now))
        (λ o. (p : List ℕ) × (meaning a.now ≡ pred p (list_meaning o.arguments.now)) × (formula_body (find (declarations env.now) p)
        ≡ Some (meaning o.body.now))) }
{
    match a {
        Formula::Pred(p, ts) => match env.predicate_body(p) {
            None => None,
            Some(b) => Some(Opened {
                arguments: ts.as_slice(),
                body: b,
            }),
        },
        _ => None,
    }
}

/// The place of the same value where no definition is left to put in at the head.
pub fn formula_head<'a>(
    env: &'a Env,
    frames: &mut Vec<Frame<'a>>,
    mut scope: usize,
    formula: &'a Formula,
) -> Result<Place<'a>, NoMemory>
    requires environment { Environment (declarations env.now) }
    requires standing { StandingFormula (declarations env.now) frames.old.items scope (meaning formula.now) }
    ensures ordered { Ordered frames.new.items }
    ensures extends { Extends frames.old.items frames.new.items }
    ensures head { IfOk result (λ h. HeadedFormula (declarations env.now) frames.new.items (scope_of frames.old.items scope)
        (meaning formula.now) h) }
{
    let mut a = formula;
    while let Some(opened) = open(env, a) {
        frames.push(Frame::Body(opened.arguments, scope))?;
        scope = frames.len();
        a = opened.body;
    }
    Ok(Place { scope, formula: a })
}

/// The normal form of a formula in a scope. Nothing else is made.
#[cycle(formula)]
pub fn read_formula<'a>(
    alloc: Global,
    env: &'a Env,
    frames: &mut Vec<Frame<'a>>,
    scope: usize,
    a: &'a Formula,
) -> Result<Formula, NoMemory>
    requires environment { Environment (declarations env.now) }
    requires standing { StandingFormula (declarations env.now) frames.old.items scope (meaning a.now) }
    ensures value { IfOk result (λ n. meaning n ≡ formula_value (declarations env.now) (scope_of frames.old.items scope) (meaning a.now)) }
    ensures frames { IfOk result (λ n. frames.new.items ≡ frames.old.items) }
{
    let kept = frames.len();
    let place = formula_head(env, frames, scope, a)?;
    let made = read_top(alloc, env, frames, place.scope, place.formula)?;
    frames.truncate(kept);
    Ok(made)
}

/// The same where no definition is left at the head.
#[cycle(formula)]
fn read_top<'a>(
    alloc: Global,
    env: &'a Env,
    frames: &mut Vec<Frame<'a>>,
    scope: usize,
    a: &'a Formula,
) -> Result<Formula, NoMemory>
    requires environment { Environment (declarations env.now) }
    requires standing { StandingFormula (declarations env.now) frames.old.items scope (meaning a.now) }
    requires rigid { Rigid (declarations env.now) (meaning a.now) }
    ensures value { IfOk result (λ n. meaning n ≡ formula_value (declarations env.now) (scope_of frames.old.items scope) (meaning a.now)) }
    ensures frames { IfOk result (λ n. frames.new.items ≡ frames.old.items) }
{
    match a {
        Formula::True => Ok(Formula::True),
        Formula::False => Ok(Formula::False),
        Formula::Pred(p, ts) => {
            let made = read_terms(alloc, env, frames, scope, 0, ts.as_slice())?;
            Ok(Formula::Pred(p.copy()?, made))
        }
        Formula::Eq(s, t, u) => {
            let first = read_term(alloc, env, frames, scope, 0, t)?;
            let second = read_term(alloc, env, frames, scope, 0, u)?;
            Ok(Formula::Eq(s.copy()?, first, second))
        }
        Formula::And(b, d) => {
            let first = read_boxed(alloc, env, frames, scope, b)?;
            let second = read_boxed(alloc, env, frames, scope, d)?;
            Ok(Formula::And(first, second))
        }
        Formula::Or(b, d) => {
            let first = read_boxed(alloc, env, frames, scope, b)?;
            let second = read_boxed(alloc, env, frames, scope, d)?;
            Ok(Formula::Or(first, second))
        }
        Formula::Imp(b, d) => {
            let first = read_boxed(alloc, env, frames, scope, b)?;
            let second = read_boxed(alloc, env, frames, scope, d)?;
            Ok(Formula::Imp(first, second))
        }
        Formula::All(s, x, b) => {
            let inner = read_below(alloc, env, frames, scope, b)?;
            Ok(Formula::All(s.copy()?, x.copy()?, inner))
        }
        Formula::Ex(s, x, b) => {
            let inner = read_below(alloc, env, frames, scope, b)?;
            Ok(Formula::Ex(s.copy()?, x.copy()?, inner))
        }
    }
}

#[cycle(formula)]
fn read_boxed<'a>(
    alloc: Global,
    env: &'a Env,
    frames: &mut Vec<Frame<'a>>,
    scope: usize,
    a: &'a Arc<Formula>,
) -> Result<Arc<Formula>, NoMemory>
    requires environment { Environment (declarations env.now) }
    requires standing { StandingFormula (declarations env.now) frames.old.items scope (meaning (arc_value a.now)) }
    ensures value { IfOk result (λ n. meaning (arc_value n) ≡ formula_value (declarations env.now) (scope_of frames.old.items scope)
        (meaning (arc_value a.now))) }
    ensures frames { IfOk result (λ n. frames.new.items ≡ frames.old.items) }
{
    let made = read_formula(alloc, env, frames, scope, a)?;
    Ok(Arc::new(alloc, made)?)
}

/// The body of a quantifier.
#[cycle(formula)]
fn read_below<'a>(
    alloc: Global,
    env: &'a Env,
    frames: &mut Vec<Frame<'a>>,
    scope: usize,
    a: &'a Arc<Formula>,
) -> Result<Arc<Formula>, NoMemory>
    requires environment { Environment (declarations env.now) }
    requires standing { StandingBelow (declarations env.now) frames.old.items scope (meaning (arc_value a.now)) }
    ensures value { IfOk result (λ n. meaning (arc_value n) ≡ formula_value (declarations env.now) (under
        (scope_of frames.old.items scope)) (meaning (arc_value a.now))) }
    ensures frames { IfOk result (λ n. frames.new.items ≡ frames.old.items) }
{
    let kept = frames.len();
    frames.push(Frame::Under(scope))?;
    let made = read_formula(alloc, env, frames, kept + 1, a)?;
    frames.truncate(kept);
    Ok(Arc::new(alloc, made)?)
}
