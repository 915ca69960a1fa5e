//! What a definition declares.
ghost use Rattle.std.specs.Prelude.{◌≡◌, map, List, None, Some};
ghost use Rattle.base_core.specs.Answers.{and_then};
ghost use Rattle.vern_parse.specs.Meaning.{expression, group, name as written};
ghost use Rattle.env_core.specs.Meaning.{declarations, parameter};
ghost use Rattle.term_core.specs.Term.{meaning};
ghost use Rattle.elab_theory.specs.Expressions.{of_sort, span_of, term_of};
ghost use Rattle.elab_theory.specs.Sentences.{defined_by, is_among, locals_of, names_of};
ghost use Rattle.elab_core.specs.Faults.{Gives};
ghost use Rattle.elab_core.specs.Answers.{Declares, IsWithin, term_size};
ghost use Rattle.elab_core.specs.Parameters.{group_added, groups_added, names_added};

use crate::ElabFault;
use crate::build::build_term;
use crate::check::{check_term, fit, span_of_tree};
use crate::scope::{expect_sort_under, name_of};
use crate::size::size_of_tree;
use crate::typing::formula_under;
use env_core::{Decl, Env, Parameter, Params};
use std::alloc::Global;
use term_core::{Context, Name, Term};
use vern_parse::{RawExpr, RawGroup, RawName};

/// Whether a parameter has this name.
fn is_parameter(params: &[Parameter], name: &Name) -> bool
    ensures { result ≡ is_among name.now (names_of (map parameter params.now)) }
{
    for other in params {
        if name == &other.name {
            return true;
        }
    }
    false
}

/// Parameters of one sort more, each with a name that no parameter has yet.
fn add_names(params: &mut Params, sort: &Name, names: &[RawName]) -> Result<(), ElabFault>
    ensures { Gives (λ _. map parameter params.new.items) result
        (names_added (map parameter params.old.items) sort.now (map written names.now)) }
{
    for x in names {
        let name = name_of(x)?;
        if is_parameter(params, &name) {
            return Err(ElabFault::AlreadyDeclared(x.span));
        }
        let sort = sort.copy()?;
        params.push(Parameter { name, sort })?;
    }
    Ok(())
}

/// The parameters of a group more. The sort is looked up before the names are there, and its fault told after theirs.
fn add_group(env: &Env, params: &mut Params, g: &RawGroup) -> Result<(), ElabFault>
    ensures { Gives (λ _. map parameter params.new.items) result
        (group_added (declarations env.now) (map parameter params.old.items) (group g.now)) }
{
    let sorted = expect_sort_under(env, params, &g.sort);
    add_names(params, &name_of(&g.sort)?, &g.names)?;
    sorted
}

/// The parameters of groups more.
pub fn add_groups(env: &Env, params: &mut Params, groups: &[RawGroup]) -> Result<(), ElabFault>
    ensures { Gives (λ _. map parameter params.new.items) result
        (groups_added (declarations env.now) (map parameter params.old.items) (map group groups.now)) }
{
    for g in groups {
        add_group(env, params, g)?;
    }
    Ok(())
}

/// A predicate by its parameters and its body.
#[tactic(auto, using(crate::proofs::Bodies::predicates))]
pub fn define_predicate(
    alloc: Global,
    env: &Env,
    name: Name,
    params: Params,
    raw: &RawExpr,
) -> Result<Decl, ElabFault>
    ensures { Declares result (defined_by (declarations env.now) name (map parameter params.items) None (expression raw.now)) }
{
    let mut params = params;
    let body = formula_under(alloc, env, &Context::Empty, &mut params, raw)?;
    Ok(Decl::DefPred { name, params, body })
}

/// A function by its parameters, its sort and its body.
#[tactic(auto, using(crate::proofs::Bodies::functions))]
pub fn define_function(
    alloc: Global,
    env: &Env,
    name: Name,
    params: Params,
    sort: &RawName,
    raw: &RawExpr,
) -> Result<Decl, ElabFault>
    ensures { Declares result
        (defined_by (declarations env.now) name (map parameter params.items) (Some (written sort.now)) (expression raw.now)) }
{
    expect_sort_under(env, &params, sort)?;
    let result = name_of(sort)?;
    let body = term_under(alloc, env, &params, &result, raw)?;
    Ok(Decl::DefFun {
        name,
        params,
        result,
        body,
    })
}

/// A term of this sort over parameters; `TooLarge` as of a formula.
#[tactic(auto, using(crate::proofs::Bodies::terms))]
fn term_under(
    alloc: Global,
    env: &Env,
    params: &[Parameter],
    sort: &Name,
    raw: &RawExpr,
) -> Result<Term, ElabFault>
    ensures { IsWithin meaning term_size result (and_then
        (term_of (declarations env.now) (locals_of (map parameter params.now)) (expression raw.now))
        (of_sort sort.now (span_of (expression raw.now)))) }
{
    let context = Context::Empty;
    let found = check_term(raw, env, &context, params)?;
    fit(found, sort, span_of_tree(raw))?;
    let size = size_of_tree(raw);
    if size.passes() {
        return Err(ElabFault::TooLarge(size.nodes, size.height));
    }
    Ok(build_term(alloc, raw, env, &context, params)?)
}
