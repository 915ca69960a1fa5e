//! What sentences declare and state.
ghost use Rattle.std.specs.Prelude.{map, option_map};
ghost use Rattle.vern_parse.specs.Meaning.{expression, group, name, shape};
ghost use Rattle.env_core.specs.Meaning.{declarations};
ghost use Rattle.env_theory.specs.Declarations.{find};
ghost use Rattle.elab_theory.specs.Sentences.{declaration_of, definition_of, new_name, statement_of};
ghost use Rattle.elab_core.specs.Faults.{Gives};
ghost use Rattle.elab_core.specs.Answers.{Declares, Types};

use crate::ElabFault;
use crate::define::{add_groups, define_function, define_predicate};
use crate::scope::name_of;
use crate::shape::declare;
use crate::typing::formula;
use env_core::{Decl, Env};
use std::alloc::Global;
use term_core::{Context, Formula, Name};
use vern_parse::{RawExpr, RawGroup, RawName, Shape};

/// The name of what is declared, which nothing has yet.
fn expect_new(env: &Env, x: &RawName) -> Result<Name, ElabFault>
    ensures { Gives (λ n. n) result (new_name (find (declarations env.now) x.now.text) (name x.now)) }
{
    let name = name_of(x)?;
    match env.find(&name) {
        Some(_) => Err(ElabFault::AlreadyDeclared(x.span)),
        None => Ok(name),
    }
}

/// The declaration of a name with a shape, or the first fault. `TooLarge` comes where there is no fault and what is
/// stated passes a limit, with its nodes and its height; nothing was built then.
#[tactic(auto, using(crate::proofs::Sentences::declaring))]
pub fn declaration(alloc: Global, env: &Env, x: &RawName, y: &Shape) -> Result<Decl, ElabFault>
    ensures { Declares result (declaration_of (declarations env.now) (name x.now) (shape y.now)) }
{
    let name = expect_new(env, x)?;
    declare(alloc, env, name, y)
}

/// The definition of a name with parameters in groups, a sort or `Prop`, and a body, or the first fault. `TooLarge` comes
/// where there is no fault and the body passes a limit, with its nodes and its height; nothing was built then.
#[tactic(auto, using(crate::proofs::Sentences::defining))]
pub fn definition(
    alloc: Global,
    env: &Env,
    x: &RawName,
    groups: &[RawGroup],
    sort: Option<&RawName>,
    raw: &RawExpr,
) -> Result<Decl, ElabFault>
    ensures { Declares result (definition_of (declarations env.now) (name x.now) (map group groups.now)
        (option_map (λ r. name r.now) sort.entry) (expression raw.now)) }
{
    let name = expect_new(env, x)?;
    let mut params = Vec::new(alloc);
    add_groups(env, &mut params, groups)?;
    match sort {
        None => define_predicate(alloc, env, name, params, raw),
        Some(sort) => define_function(alloc, env, name, params, sort, raw),
    }
}

/// The formula that a lemma of this name states, or the first fault; `TooLarge` as of `formula`.
#[tactic(auto, using(crate::proofs::Sentences::stating))]
pub fn statement(alloc: Global, env: &Env, x: &RawName, raw: &RawExpr) -> Result<Formula, ElabFault>
    ensures { Types result (statement_of (declarations env.now) (name x.now) (expression raw.now)) }
{
    expect_new(env, x)?;
    formula(alloc, env, &Context::Empty, raw)
}
