//! What a shape declares.
ghost use Rattle.std.specs.Prelude.{◌≡◌, ◌^◌, min, map, [], IfOk, OnOk};
ghost use Rattle.vern_lex.specs.declared.span.Span.{Span};
ghost use Rattle.vern_grammar.specs.Trees.{application, expressions};
ghost use Rattle.vern_parse.specs.Meaning.{expression, name, shape};
ghost use Rattle.env_core.specs.Meaning.{declarations};
ghost use Rattle.term_core.specs.Formula.{meaning};
ghost use Rattle.elab_theory.specs.Sentences.{a_function, chain_of, last_of, shape_by, shape_of, sort_part};
ghost use Rattle.elab_core.specs.Faults.{Gives};
ghost use Rattle.elab_core.specs.Answers.{Declares, Types};
ghost use Rattle.elab_core.specs.Chains.{chain_built, chain_height, chain_nodes, fits_chain, last_as, sorts_added};

use crate::ElabFault;
use crate::build::{build_formula, imp};
use crate::check::{check_formula, span_of_tree};
use crate::scope::{expect_sort_under, name_of};
use crate::size::size_of_tree;
use base_core::NoMemory;
use env_core::{Decl, Env, Tally};
use std::alloc::Global;
use term_core::{Context, Formula, Name, Names};
use vern_lex::Span;
use vern_parse::{RawExpr, RawName, Shape};

/// What the last part makes of a chain: `Prop` a predicate, a bare name of a sort a function, anything else a formula.
pub enum Last {
    Predicate,
    Function(Name),
    Formula,
}

/// A bare name of a sort, where a sort has to stand.
#[tactic(auto, using(crate::proofs::Trees::trees))]
fn part(env: &Env, a: &RawExpr) -> Result<Name, ElabFault>
    ensures { Gives (λ s. s) result (sort_part (declarations env.now) (expression a.now)) }
{
    match a {
        RawExpr::App(x, ys, span) => bare_sort(env, x, ys, *span),
        _ => Err(ElabFault::WrongKind(span_of_tree(a))),
    }
}

/// The same of a name with arguments.
#[tactic(auto, using(crate::proofs::Chained::parts))]
fn bare_sort(env: &Env, x: &RawName, ys: &[RawExpr], span: Span) -> Result<Name, ElabFault>
    ensures { Gives (λ s. s) result (sort_part (declarations env.now)
        (application (name x.now) (expressions (map expression ys.now)) span)) }
{
    if !ys.is_empty() {
        return Err(ElabFault::WrongKind(span));
    }
    expect_sort_under(env, &[], x)?;
    Ok(name_of(x)?)
}

/// What the last part of a chain makes of it.
#[tactic(auto, using(crate::proofs::Chained::shapes))]
fn last_of(env: &Env, y: &Shape) -> Result<Last, NoMemory>
    ensures { IfOk result (λ l. last_as l ≡ last_of (declarations env.now) (shape y.now)) }
{
    match y {
        Shape::Set(_) => Ok(Last::Formula),
        Shape::Prop(_) => Ok(Last::Predicate),
        Shape::Arrow(_, rest) => last_of(env, rest),
        Shape::Plain(a) => match part(env, a) {
            Ok(sort) => Ok(Last::Function(sort)),
            Err(ElabFault::NoMemory) => Err(NoMemory),
            Err(_) => Ok(Last::Formula),
        },
    }
}

/// The sorts before the last part.
#[tactic(auto, using(crate::proofs::Chained::shapes))]
fn push_sorts(env: &Env, sorts: &mut Names, y: &Shape) -> Result<(), ElabFault>
    ensures { Gives (λ _. sorts.new.items) result (sorts_added (declarations env.now) sorts.old.items (shape y.now)) }
{
    match y {
        Shape::Arrow(a, rest) => {
            sorts.push(part(env, a)?)?;
            push_sorts(env, sorts, rest)
        }
        Shape::Set(_) | Shape::Prop(_) | Shape::Plain(_) => Ok(()),
    }
}

/// The first fault of a chain that is a formula.
#[tactic(auto, using(crate::proofs::Chained::shapes))]
fn check_chain(alloc: Global, env: &Env, y: &Shape) -> Result<(), ElabFault>
    ensures { Gives (λ x. x) result (fits_chain (declarations env.now) (shape y.now)) }
{
    match y {
        Shape::Set(span) | Shape::Prop(span) => Err(ElabFault::WrongKind(*span)),
        Shape::Arrow(a, rest) => {
            check_formula(a, env, &Context::Empty, &mut Vec::new(alloc))?;
            check_chain(alloc, env, rest)
        }
        Shape::Plain(a) => check_formula(a, env, &Context::Empty, &mut Vec::new(alloc)),
    }
}

/// How large it is.
#[tactic(auto, using(crate::proofs::Chained::shapes))]
fn size_of_chain(y: &Shape) -> Tally
    ensures nodes { result.nodes ≡ min (chain_nodes (shape y.now)) (2 ^ 32) }
    ensures height { result.height ≡ min (chain_height (shape y.now)) (2 ^ 32) }
{
    match y {
        Shape::Set(_) | Shape::Prop(_) => Tally::NONE,
        Shape::Arrow(a, rest) => size_of_tree(a).beside(size_of_chain(rest)).below(1),
        Shape::Plain(a) => size_of_tree(a),
    }
}

/// The formula that it is, where it has no fault.
#[tactic(auto, using(crate::proofs::Chained::shapes))]
fn build_chain(alloc: Global, env: &Env, y: &Shape) -> Result<Formula, NoMemory>
    ensures { IfOk result (λ f. meaning f ≡ chain_built (declarations env.now) (shape y.now)) }
{
    match y {
        Shape::Set(_) | Shape::Prop(_) => Ok(Formula::True),
        Shape::Arrow(a, rest) => {
            let left = build_formula(alloc, a, env, &Context::Empty, &mut Vec::new(alloc))?;
            imp(alloc, left, build_chain(alloc, env, rest)?)
        }
        Shape::Plain(a) => build_formula(alloc, a, env, &Context::Empty, &mut Vec::new(alloc)),
    }
}

/// A chain as a formula, or its first fault; `TooLarge` as of `formula`.
#[tactic(auto, using(crate::proofs::Chained::typing))]
fn chain(alloc: Global, env: &Env, y: &Shape) -> Result<Formula, ElabFault>
    ensures { Types result (chain_of (declarations env.now) (shape y.now)) }
{
    check_chain(alloc, env, y)?;
    let size = size_of_chain(y);
    if size.passes() {
        return Err(ElabFault::TooLarge(size.nodes, size.height));
    }
    Ok(build_chain(alloc, env, y)?)
}

/// What a name with a shape declares.
#[tactic(auto, using(crate::proofs::Chained::shapes))]
pub fn declare(alloc: Global, env: &Env, name: Name, y: &Shape) -> Result<Decl, ElabFault>
    ensures { Declares result (shape_of (declarations env.now) name (shape y.now)) }
{
    match y {
        Shape::Set(_) => Ok(Decl::Sort { name }),
        Shape::Prop(_) | Shape::Arrow(_, _) | Shape::Plain(_) => declare_chain(alloc, env, name, y),
    }
}

/// A function whose value has this sort.
#[tactic(auto, using(crate::proofs::Chained::functions))]
fn declare_function(
    alloc: Global,
    env: &Env,
    name: Name,
    y: &Shape,
    sort: Name,
) -> Result<Decl, ElabFault>
    ensures { Declares result (shape_by (declarations env.now) name (shape y.now) (a_function sort)) }
{
    let mut sorts = Vec::new(alloc);
    push_sorts(env, &mut sorts, y)?;
    Ok(Decl::Fun {
        name,
        sorts,
        result: sort,
    })
}

/// The same of a chain, by its last part.
#[tactic(auto, using(crate::proofs::Chained::declaring))]
fn declare_chain(alloc: Global, env: &Env, name: Name, y: &Shape) -> Result<Decl, ElabFault>
    ensures { Declares result (shape_by (declarations env.now) name (shape y.now) (last_of (declarations env.now) (shape y.now))) }
{
    let mut sorts = Vec::new(alloc);
    match last_of(env, y)? {
        Last::Predicate => {
            push_sorts(env, &mut sorts, y)?;
            Ok(Decl::Pred { name, sorts })
        }
        Last::Function(sort) => declare_function(alloc, env, name, y, sort),
        Last::Formula => {
            let formula = chain(alloc, env, y)?;
            Ok(Decl::Stated { name, formula })
        }
    }
}
