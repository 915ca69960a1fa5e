//! Formulas and terms of expressions.
ghost use Rattle.std.specs.Prelude.{◌≡◌, IfOk};
ghost use Rattle.vern_parse.specs.Meaning.{expression};
ghost use Rattle.env_core.specs.Meaning.{declarations};
ghost use Rattle.elab_theory.specs.Expressions.{formula_of, term_of};
ghost use Rattle.elab_theory.specs.Locals.{locals_in};
ghost use Rattle.term_core.specs.Context.{slots};
ghost use Rattle.term_core.specs.Term.{meaning};
ghost use Rattle.elab_core.specs.Faults.{Gives};
ghost use Rattle.elab_core.specs.Scopes.{locals};
ghost use Rattle.elab_core.specs.Answers.{Types};

use crate::ElabFault;
use crate::build::{build_formula, build_term};
use crate::check::{check_formula, check_term};
use crate::size::size_of_tree;
use env_core::{Env, Params};
use std::alloc::Global;
use term_core::{Context, Formula, Name, Term};
use vern_parse::RawExpr;

/// The formula of an expression in a context, or its first fault. `TooLarge` comes where there is no fault and the
/// formula passes a limit, with its nodes and its height; nothing was built then.
pub fn formula(
    alloc: Global,
    env: &Env,
    context: &Context,
    raw: &RawExpr,
) -> Result<Formula, ElabFault>
    ensures { Types result (formula_of (declarations env.now) (locals_in (slots context.now)) (expression raw.now)) }
{
    formula_under(alloc, env, context, &mut Vec::new(alloc), raw)
}

/// The same under binders.
#[tactic(auto, using(crate::proofs::Typed::typing))]
pub(crate) fn formula_under(
    alloc: Global,
    env: &Env,
    context: &Context,
    binders: &mut Params,
    raw: &RawExpr,
) -> Result<Formula, ElabFault>
    ensures answer { Types result (formula_of (declarations env.now) (locals context.now binders.old.items) (expression raw.now)) }
    ensures kept { IfOk result (λ _. binders.new.items ≡ binders.old.items) }
{
    check_formula(raw, env, context, binders)?;
    let size = size_of_tree(raw);
    if size.passes() {
        return Err(ElabFault::TooLarge(size.nodes, size.height));
    }
    Ok(build_formula(alloc, raw, env, context, binders)?)
}

/// The term of an expression in a context with its sort, or its first fault. It isn't measured.
#[tactic(auto, using(crate::proofs::Typed::terms))]
pub fn term(
    alloc: Global,
    env: &Env,
    context: &Context,
    raw: &RawExpr,
) -> Result<(Term, Name), ElabFault>
    ensures { Gives (λ r. (meaning r.0, r.1)) result
        (term_of (declarations env.now) (locals_in (slots context.now)) (expression raw.now)) }
{
    let sort = check_term(raw, env, context, &[])?.copy()?;
    Ok((build_term(alloc, raw, env, context, &[])?, sort))
}
