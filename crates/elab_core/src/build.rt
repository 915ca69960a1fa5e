//! The pass that builds what has no fault and is within the limits.
ghost use Rattle.std.specs.Prelude.{◌≡◌, ◌≤◌, List, length, take, map, IfOk};
ghost use Rattle.std.specs.Arc.{arc_slice_items};
ghost use Rattle.term_core.specs.Term.{meaning as term_meaning, list_meaning};
ghost use Rattle.term_core.specs.Formula.{meaning};
ghost use Rattle.fol_theory.specs.Syntax.{both, either, equal, falsity, implies};
ghost use Rattle.vern_grammar.specs.Trees.{expressions};
ghost use Rattle.vern_parse.specs.Meaning.{expression, group, name};
ghost use Rattle.env_core.specs.Meaning.{declarations};
ghost use Rattle.elab_theory.specs.Expressions.{over_groups, over_names, quantifier};
ghost use Rattle.elab_theory.specs.Locals.{Local, known};
ghost use Rattle.elab_core.specs.Scopes.{binders_onto, known_as, locals};
ghost use Rattle.elab_core.specs.Built.{formula_built, head_sort, headed_by, sort_built, term_built, terms_built, under_all, variable_in};

use crate::check::bind_names;
use crate::scope::{Known, look_up, name_of};
use base_core::NoMemory;
use env_core::{Decl, Env, Parameter, Params};
use std::alloc::Global;
use std::sync::{Arc, ArcSlice};
use term_core::{Context, Formula, Name, Term, Terms};
use vern_parse::{RawExpr, RawGroup, RawName, RawOp};

/// The variable that a name is.
fn variable_of(known: Known<'_>) -> Option<u64>
    ensures { result ≡ variable_in (known_as known.entry) }
{
    match known {
        Known::Bound(i, _) => Some(i),
        Known::Assumed | Known::Declared(_) | Known::Unknown => None,
    }
}

/// The sort of a term with this head, or no name.
fn sort_of_head(alloc: Global, known: Known<'_>) -> Result<Name, NoMemory>
    ensures { IfOk result (λ s. s ≡ head_sort (known_as known.entry)) }
{
    match known {
        Known::Bound(_, sort) => sort.copy(),
        Known::Declared(Decl::Fun { result, .. }) => result.copy(),
        Known::Declared(Decl::DefFun { result, .. }) => result.copy(),
        _ => Name::from_slice(alloc, &[]),
    }
}

/// A term.
#[cycle(build)]
#[tactic(auto, using(crate::proofs::Building::terms))]
pub fn build_term(
    alloc: Global,
    a: &RawExpr,
    env: &Env,
    context: &Context,
    binders: &[Parameter],
) -> Result<Term, NoMemory>
    ensures { IfOk result (λ t. term_meaning t
        ≡ term_built (declarations env.now) (locals context.now binders.now) (expression a.now)) }
{
    match a {
        RawExpr::App(x, ys, _) => build_application(alloc, x, ys, env, context, binders),
        _ => Ok(Term::Var(0)),
    }
}

/// A variable, or a function with its arguments.
#[cycle(build)]
#[tactic(auto, using(crate::proofs::Building::applied))]
fn build_application(
    alloc: Global,
    x: &RawName,
    ys: &[RawExpr],
    env: &Env,
    context: &Context,
    binders: &[Parameter],
) -> Result<Term, NoMemory>
    ensures { IfOk result (λ t. term_meaning t
        ≡ headed_by (variable_in (known (declarations env.now) (locals context.now binders.now) x.now.text)) x.now.text
        (terms_built (declarations env.now) (locals context.now binders.now) (expressions (map expression ys.now)))) }
{
    let name = name_of(x)?;
    match variable_of(look_up(env, context, binders, &name)?) {
        Some(i) => Ok(Term::Var(i)),
        None => Ok(Term::App(name, build_arguments(alloc, ys, env, context, binders)?)),
    }
}

/// Arguments, in order.
#[cycle(build)]
fn build_arguments(
    alloc: Global,
    ys: &[RawExpr],
    env: &Env,
    context: &Context,
    binders: &[Parameter],
) -> Result<Terms, NoMemory>
    ensures { IfOk result (λ ts. list_meaning (arc_slice_items ts)
        ≡ terms_built (declarations env.now) (locals context.now binders.now) (expressions (map expression ys.now))) }
{
    let mut built = Vec::with_capacity(alloc, ys.len())?;
    for y in ys {
        built.push(build_term(alloc, y, env, context, binders)?)?;
    }
    Ok(ArcSlice::from_vec(built)?)
}

/// The sort of a term.
#[tactic(auto, using(crate::proofs::Building::terms))]
fn sort_of_tree(
    alloc: Global,
    a: &RawExpr,
    env: &Env,
    context: &Context,
    binders: &[Parameter],
) -> Result<Name, NoMemory>
    ensures { IfOk result (λ s. s ≡ sort_built (declarations env.now) (locals context.now binders.now) (expression a.now)) }
{
    match a {
        RawExpr::App(x, _, _) => {
            sort_of_head(alloc, look_up(env, context, binders, &name_of(x)?)?)
        }
        _ => Name::from_slice(alloc, &[]),
    }
}

/// An equation.
#[tactic(auto, using(term_core::proofs::Variants::meanings))]
fn build_equation(
    alloc: Global,
    a: &RawExpr,
    b: &RawExpr,
    env: &Env,
    context: &Context,
    binders: &[Parameter],
) -> Result<Formula, NoMemory>
    ensures { IfOk result (λ f. meaning f ≡ equal
        (sort_built (declarations env.now) (locals context.now binders.now) (expression a.now))
        (term_built (declarations env.now) (locals context.now binders.now) (expression a.now))
        (term_built (declarations env.now) (locals context.now binders.now) (expression b.now))) }
{
    let sort = sort_of_tree(alloc, a, env, context, binders)?;
    let left = build_term(alloc, a, env, context, binders)?;
    Ok(Formula::Eq(sort, left, build_term(alloc, b, env, context, binders)?))
}

/// One formula implies another.
#[tactic(auto, using(term_core::proofs::Variants::meanings))]
pub fn imp(alloc: Global, a: Formula, b: Formula) -> Result<Formula, NoMemory>
    ensures { IfOk result (λ f. meaning f ≡ implies (meaning a) (meaning b)) }
{
    let left = Arc::new(alloc, a)?;
    Ok(Formula::Imp(left, Arc::new(alloc, b)?))
}

/// A formula denied.
#[tactic(auto, using(term_core::proofs::Variants::meanings, crate::proofs::Building::constants))]
fn deny(alloc: Global, a: Formula) -> Result<Formula, NoMemory>
    ensures { IfOk result (λ f. meaning f ≡ implies (meaning a) falsity) }
{
    imp(alloc, a, Formula::False)
}

/// Both of two formulas.
#[tactic(auto, using(term_core::proofs::Variants::meanings))]
fn and(alloc: Global, a: Formula, b: Formula) -> Result<Formula, NoMemory>
    ensures { IfOk result (λ f. meaning f ≡ both (meaning a) (meaning b)) }
{
    let left = Arc::new(alloc, a)?;
    Ok(Formula::And(left, Arc::new(alloc, b)?))
}

/// One of two formulas.
#[tactic(auto, using(term_core::proofs::Variants::meanings))]
fn or(alloc: Global, a: Formula, b: Formula) -> Result<Formula, NoMemory>
    ensures { IfOk result (λ f. meaning f ≡ either (meaning a) (meaning b)) }
{
    let left = Arc::new(alloc, a)?;
    Ok(Formula::Or(left, Arc::new(alloc, b)?))
}

/// Two formulas that imply one another: both stand there twice, shared.
fn iff(alloc: Global, a: Formula, b: Formula) -> Result<Formula, NoMemory>
    ensures { IfOk result (λ f. meaning f ≡ both (implies (meaning a) (meaning b)) (implies (meaning b) (meaning a))) }
{
    let back = imp(alloc, b.copy()?, a.copy()?)?;
    and(alloc, imp(alloc, a, b)?, back)
}

/// A quantifier over a formula.
#[tactic(auto, using(term_core::proofs::Variants::meanings))]
fn quantify_name(
    alloc: Global,
    all: bool,
    sort: &RawName,
    name: &RawName,
    a: Formula,
) -> Result<Formula, NoMemory>
    ensures { IfOk result (λ f. meaning f ≡ quantifier all sort.now.text name.now.text (meaning a)) }
{
    let sort = name_of(sort)?;
    let name = name_of(name)?;
    let body = Arc::new(alloc, a)?;
    if all {
        Ok(Formula::All(sort, name, body))
    } else {
        Ok(Formula::Ex(sort, name, body))
    }
}

/// Quantifiers for the names of a group, the last innermost.
fn quantify_names(
    alloc: Global,
    all: bool,
    sort: &RawName,
    names: &[RawName],
    a: Formula,
) -> Result<Formula, NoMemory>
    ensures { IfOk result (λ f. meaning f ≡ over_names all sort.now.text (map name names.now) (meaning a)) }
{
    let mut body = a;
    let mut i = names.len();
    'names: while i > 0 {
        i -= 1;
        body = quantify_name(alloc, all, sort, &names[i], body)?;
    }
    Ok(body)
}

/// Quantifiers for the names of groups.
fn quantify(alloc: Global, all: bool, groups: &[RawGroup], a: Formula) -> Result<Formula, NoMemory>
    ensures { IfOk result (λ f. meaning f ≡ over_groups all (map group groups.now) (meaning a)) }
{
    let mut body = a;
    let mut i = groups.len();
    'groups: while i > 0 {
        i -= 1;
        let g = &groups[i];
        body = quantify_names(alloc, all, &g.sort, &g.names, body)?;
    }
    Ok(body)
}

/// Binds groups whose sorts have no fault.
fn bind_all(binders: &mut Params, groups: &[RawGroup]) -> Result<(), NoMemory>
    ensures groups { (c : List Local) → IfOk result (λ _. binders_onto c binders.new.items
        ≡ under_all (map group groups.now) (binders_onto c binders.old.items)) }
    ensures kept { IfOk result (λ _. (length binders.old.items ≤ length binders.new.items)
        × (take (length binders.old.items) binders.new.items ≡ binders.old.items)) }
{
    for g in groups {
        bind_names(binders, &name_of(&g.sort)?, &g.names)?;
    }
    Ok(())
}

/// A formula.
#[tactic(auto, using(crate::proofs::Building::formulas, term_core::proofs::Variants::meanings))]
pub fn build_formula(
    alloc: Global,
    a: &RawExpr,
    env: &Env,
    context: &Context,
    binders: &mut Params,
) -> Result<Formula, NoMemory>
    ensures value { IfOk result (λ f. meaning f
        ≡ formula_built (declarations env.now) (locals context.now binders.old.items) (expression a.now)) }
    ensures kept { IfOk result (λ _. binders.new.items ≡ binders.old.items) }
{
    match a {
        RawExpr::True(_) => Ok(Formula::True),
        RawExpr::False(_) => Ok(Formula::False),
        RawExpr::App(x, ys, _) => {
            let name = name_of(x)?;
            Ok(Formula::Pred(name, build_arguments(alloc, ys, env, context, binders)?))
        }
        RawExpr::Binary(RawOp::Eq, a, b, _) => build_equation(alloc, a, b, env, context, binders),
        RawExpr::Binary(RawOp::Ne, a, b, _) => {
            deny(alloc, build_equation(alloc, a, b, env, context, binders)?)
        }
        RawExpr::Binary(RawOp::Imp, a, b, _) => {
            let left = build_formula(alloc, a, env, context, binders)?;
            let right = build_formula(alloc, b, env, context, binders)?;
            imp(alloc, left, right)
        }
        RawExpr::Binary(RawOp::Iff, a, b, _) => {
            let left = build_formula(alloc, a, env, context, binders)?;
            let right = build_formula(alloc, b, env, context, binders)?;
            iff(alloc, left, right)
        }
        RawExpr::Binary(RawOp::Or, a, b, _) => {
            let left = build_formula(alloc, a, env, context, binders)?;
            let right = build_formula(alloc, b, env, context, binders)?;
            or(alloc, left, right)
        }
        RawExpr::Binary(RawOp::And, a, b, _) => {
            let left = build_formula(alloc, a, env, context, binders)?;
            let right = build_formula(alloc, b, env, context, binders)?;
            and(alloc, left, right)
        }
        RawExpr::Not(a, _) => deny(alloc, build_formula(alloc, a, env, context, binders)?),
        RawExpr::Quant(all, groups, a, _) => {
            let outer = binders.len();
            bind_all(binders, groups)?;
            let body = build_formula(alloc, a, env, context, binders)?;
            binders.truncate(outer);
            quantify(alloc, *all, groups, body)
        }
    }
}
