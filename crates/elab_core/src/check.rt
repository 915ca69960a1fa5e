//! The pass that finds the first fault and builds nothing.
ghost use Rattle.std.specs.Prelude.{◌≡◌, ◌≤◌, length, take, map, List, IfOk};
ghost use Rattle.base_core.specs.Answers.{and_then};
ghost use Rattle.vern_grammar.specs.Trees.{expressions};
ghost use Rattle.vern_parse.specs.Meaning.{expression, group, name};
ghost use Rattle.env_core.specs.Meaning.{declarations};
ghost use Rattle.env_core.specs.Sorts.{sorts_as};
ghost use Rattle.elab_theory.specs.Expressions.{span_of, under_groups, under_names};
ghost use Rattle.elab_theory.specs.Locals.{Local, known};
ghost use Rattle.elab_core.specs.Scopes.{binders_onto, locals};
ghost use Rattle.elab_core.specs.Faults.{Gives};
ghost use Rattle.elab_core.specs.Checked.{arguments_fit, fits, fits_formula, formula_head, headed, term_head, sides_fit, sort_of};

use crate::ElabFault;
use crate::scope::{Head, expect_sort, head_of_formula, head_of_term, look_up, name_of};
use base_core::NoMemory;
use env_core::{Env, Parameter, Params, Sorts};
use term_core::{Context, Name};
use vern_lex::Span;
use vern_parse::{RawExpr, RawGroup, RawName, RawOp};

/// Where an expression stands.
#[tactic(auto, using(crate::proofs::Trees::trees))]
pub fn span_of_tree(a: &RawExpr) -> Span
    ensures { result ≡ span_of (expression a.now) }
{
    match a {
        RawExpr::True(span) | RawExpr::False(span) => *span,
        RawExpr::App(_, _, span) => *span,
        RawExpr::Binary(_, _, _, span) => *span,
        RawExpr::Not(_, span) => *span,
        RawExpr::Quant(_, _, _, span) => *span,
    }
}

/// That a sort is the one that is asked.
pub fn fit(found: &Name, asked: &Name, span: Span) -> Result<(), ElabFault>
    ensures { Gives (λ x. x) result (fits asked.now span found.now) }
{
    if found == asked {
        Ok(())
    } else {
        Err(ElabFault::WrongSort(span))
    }
}

/// The sort of a term.
#[cycle(check)]
#[tactic(auto, using(crate::proofs::Trees::checked))]
pub fn check_term<'a>(
    a: &RawExpr,
    env: &'a Env,
    context: &'a Context,
    binders: &'a [Parameter],
) -> Result<&'a Name, ElabFault>
    ensures { Gives (λ s. s.now) result (sort_of (declarations env.now) (locals context.now binders.now) (expression a.now)) }
{
    match a {
        RawExpr::App(x, ys, _) => check_application(x, ys, env, context, binders),
        _ => Err(ElabFault::WrongKind(span_of_tree(a))),
    }
}

/// The sort of a name with arguments.
#[cycle(check)]
fn check_application<'a>(
    x: &RawName,
    ys: &[RawExpr],
    env: &'a Env,
    context: &'a Context,
    binders: &'a [Parameter],
) -> Result<&'a Name, ElabFault>
    ensures { Gives (λ s. s.now) result (and_then
        (term_head (known (declarations env.now) (locals context.now binders.now) x.now.text) (name x.now) (length ys.now))
        (λ h. headed h (λ ss. arguments_fit (declarations env.now) (locals context.now binders.now)
        (expressions (map expression ys.now)) ss))) }
{
    let known = look_up(env, context, binders, &name_of(x)?)?;
    match head_of_term(known, x, ys.len())? {
        Head::Variable(_, sort) => Ok(sort),
        Head::Function(sorts, sort) => {
            check_arguments(ys, sorts, env, context, binders)?;
            Ok(sort)
        }
    }
}

/// The arguments of a head, in order.
#[cycle(check)]
fn check_arguments(
    ys: &[RawExpr],
    sorts: Sorts<'_>,
    env: &Env,
    context: &Context,
    binders: &[Parameter],
) -> Result<(), ElabFault>
    requires { length ys.now ≡ length (sorts_as sorts) }
    ensures { Gives (λ x. x) result (arguments_fit (declarations env.now) (locals context.now binders.now)
        (expressions (map expression ys.now)) (sorts_as sorts.entry)) }
{
    for i in 0..ys.len() {
        let asked = sorts.at(i);
        let found = check_term(&ys[i], env, context, binders)?;
        fit(found, asked, span_of_tree(&ys[i]))?;
    }
    Ok(())
}

/// Binds the names of a group.
pub fn bind_names(binders: &mut Params, sort: &Name, names: &[RawName]) -> Result<(), NoMemory>
    ensures names { (c : List Local) → IfOk result (λ _. binders_onto c binders.new.items
        ≡ under_names sort.now (map name names.now) (binders_onto c binders.old.items)) }
    ensures kept { IfOk result (λ _. (length binders.old.items ≤ length binders.new.items)
        × (take (length binders.old.items) binders.new.items ≡ binders.old.items)) }
{
    for x in names {
        binders.push(Parameter {
            name: name_of(x)?,
            sort: sort.copy()?,
        })?;
    }
    Ok(())
}

/// Binds groups, the sort of each looked up before its names are bound.
fn bind_groups(
    env: &Env,
    context: &Context,
    binders: &mut Params,
    groups: &[RawGroup],
) -> Result<(), ElabFault>
    ensures groups { Gives (λ _. locals context.now binders.new.items) result
        (under_groups (declarations env.now) (map group groups.now) (locals context.now binders.old.items)) }
    ensures kept { IfOk result (λ _. (length binders.old.items ≤ length binders.new.items)
        × (take (length binders.old.items) binders.new.items ≡ binders.old.items)) }
{
    for g in groups {
        let sort = name_of(&g.sort)?;
        expect_sort(look_up(env, context, binders, &sort)?, &g.sort)?;
        bind_names(binders, &sort, &g.names)?;
    }
    Ok(())
}

/// Two sides of one sort.
fn check_sides(
    a: &RawExpr,
    b: &RawExpr,
    env: &Env,
    context: &Context,
    binders: &[Parameter],
) -> Result<(), ElabFault>
    ensures { Gives (λ x. x) result
        (sides_fit (declarations env.now) (locals context.now binders.now) (expression a.now) (expression b.now)) }
{
    let left = check_term(a, env, context, binders)?;
    let right = check_term(b, env, context, binders)?;
    fit(right, left, span_of_tree(b))
}

/// A predicate with arguments.
fn check_atom(
    x: &RawName,
    ys: &[RawExpr],
    env: &Env,
    context: &Context,
    binders: &[Parameter],
) -> Result<(), ElabFault>
    ensures { Gives (λ x. x) result (and_then
        (formula_head (known (declarations env.now) (locals context.now binders.now) x.now.text) (name x.now) (length ys.now))
        (λ ss. arguments_fit (declarations env.now) (locals context.now binders.now) (expressions (map expression ys.now)) ss)) }
{
    let known = look_up(env, context, binders, &name_of(x)?)?;
    let sorts = head_of_formula(known, x, ys.len())?;
    check_arguments(ys, sorts, env, context, binders)
}

/// A formula.
#[tactic(auto, using(crate::proofs::Trees::checked))]
pub fn check_formula(
    a: &RawExpr,
    env: &Env,
    context: &Context,
    binders: &mut Params,
) -> Result<(), ElabFault>
    ensures fault { Gives (λ x. x) result
        (fits_formula (declarations env.now) (locals context.now binders.old.items) (expression a.now)) }
    ensures kept { IfOk result (λ _. binders.new.items ≡ binders.old.items) }
{
    match a {
        RawExpr::True(_) | RawExpr::False(_) => Ok(()),
        RawExpr::App(x, ys, _) => check_atom(x, ys, env, context, binders),
        RawExpr::Binary(RawOp::Eq | RawOp::Ne, a, b, _) => check_sides(a, b, env, context, binders),
        RawExpr::Binary(_, a, b, _) => {
            check_formula(a, env, context, binders)?;
            check_formula(b, env, context, binders)
        }
        RawExpr::Not(a, _) => check_formula(a, env, context, binders),
        RawExpr::Quant(_, groups, a, _) => {
            let outer = binders.len();
            bind_groups(env, context, binders, groups)?;
            check_formula(a, env, context, binders)?;
            binders.truncate(outer);
            Ok(())
        }
    }
}
