//! Summaries of definitions.
ghost use Rattle.std.specs.Prelude.{◌≡◌, ℕ, ◌<◌, ◌^◌, List, length, min, IfOk, MatchOption};
ghost use Rattle.term_core.specs.Term.{meaning};
ghost use Rattle.term_core.specs.Formula as formula;
ghost use Rattle.env_theory.specs.Typing.{Declares, Environment, HasSort, WellFormed};
ghost use Rattle.env_theory.specs.Count.{by_nodes, by_height, count_term, count, only};
ghost use Rattle.env_core.specs.Meaning.{declaration, declarations};
ghost use Rattle.env_core.specs.Rows.{nodes_at, height_at, nodes_rows, height_rows, nodes_table, height_table};
ghost use Rattle.env_core.specs.Summaries.{IsTermSummary, IsFormulaSummary, SummaryOf};

use crate::declaration::Decl;
use crate::env::Env;
use crate::sizes::{Weights, formula_tally, term_tally};
use crate::tally::Tally;
use crate::uses::{add_formula_uses, add_uses, no_uses};
use base_core::NoMemory;
use std::alloc::Global;
use term_core::{Formula, Term};

/// What a definition's body counts: without its variables; for each variable, from 0 on, how often and how deep it
/// stands there; and which variable its normal form is, if that is one. Of a declaration that defines nothing this is empty.
#[derive(Drop)]
pub struct Summary {
    pub own: Tally,
    pub uses: Vec<Tally>,
    pub projects: Option<u64>,
}

/// The summary of a declaration over the environment that it is to be added to.
pub fn summary_of(alloc: Global, env: &Env, decl: &Decl) -> Result<Summary, NoMemory>
    requires environment { Environment (declarations env.now) }
    requires declares { Declares (declarations env.now) (declaration decl.now) }
    ensures { IfOk result (SummaryOf (declarations env.now) (declaration decl.now)) }
{
    match decl {
        Decl::DefFun { params, body, .. } => term_summary(alloc, env, params.len(), body),
        Decl::DefPred { params, body, .. } => formula_summary(alloc, env, params.len(), body),
        _ => Ok(Summary {
            own: Tally::NONE,
            uses: Vec::new(alloc),
            projects: None,
        }),
    }
}

/// The summary of a function's definition.
fn term_summary(alloc: Global, env: &Env, params: usize, body: &Term) -> Result<Summary, NoMemory>
    requires environment { Environment (declarations env.now) }
    requires sort { (V : List (List ℕ)) × (s : List ℕ) × HasSort (declarations env.now) V (meaning body.now) s × (length V ≡ params) }
    ensures { IfOk result (IsTermSummary env.now (meaning body.now)) }
{
    let uses = term_uses(alloc, env, params, body)?;
    let own = term_tally(env, Weights::Below(0), body);
    let projects = projected(own, uses.as_slice());
    Ok(Summary {
        own,
        uses,
        projects,
    })
}

/// The uses of so many variables in a term.
fn term_uses(alloc: Global, env: &Env, params: usize, body: &Term) -> Result<Vec<Tally>, NoMemory>
    ensures length { IfOk result (λ v. length v.items ≡ params) }
    ensures nodes { IfOk result (λ v. (k : ℕ) → k < params
        → min (nodes_at v.items k) (2 ^ 32) ≡ min (count_term by_nodes (nodes_rows env.now) 0 (only k) (meaning body.now)) (2 ^ 32)) }
    ensures height { IfOk result (λ v. (k : ℕ) → k < params
        → min (height_at v.items k) (2 ^ 32) ≡ min (count_term by_height (height_rows env.now) 0 (only k) (meaning body.now)) (2 ^ 32)) }
{
    let mut uses = no_uses(alloc, params)?;
    add_uses(env, Tally::ONE, 0, body, uses.as_mut_slice());
    Ok(uses)
}

/// The summary of a predicate's definition.
fn formula_summary(
    alloc: Global,
    env: &Env,
    params: usize,
    body: &Formula,
) -> Result<Summary, NoMemory>
    requires { (V : List (List ℕ)) × WellFormed (declarations env.now) V (formula.meaning body.now) × (length V ≡ params) }
    ensures { IfOk result (IsFormulaSummary env.now (formula.meaning body.now)) }
{
    let uses = formula_uses(alloc, env, params, body)?;
    let own = formula_tally(env, Weights::Below(0), body)?;
    Ok(Summary {
        own,
        uses,
        projects: None,
    })
}

/// The uses of so many variables in a formula.
fn formula_uses(
    alloc: Global,
    env: &Env,
    params: usize,
    body: &Formula,
) -> Result<Vec<Tally>, NoMemory>
    ensures length { IfOk result (λ v. length v.items ≡ params) }
    ensures nodes { IfOk result (λ v. (k : ℕ) → k < params
        → min (nodes_at v.items k) (2 ^ 32) ≡ min (count by_nodes (nodes_table env.now) 0 (only k) (formula.meaning body.now)) (2 ^ 32)) }
    ensures height { IfOk result (λ v. (k : ℕ) → k < params
        → min (height_at v.items k) (2 ^ 32) ≡ min (count by_height (height_table env.now) 0 (only k) (formula.meaning body.now))
        (2 ^ 32)) }
{
    let mut uses = no_uses(alloc, params)?;
    add_formula_uses(env, Tally::ONE, 0, body, uses.as_mut_slice())?;
    Ok(uses)
}

/// The variable that is used where nothing else counts.
fn projected(own: Tally, uses: &[Tally]) -> Option<u64>
    ensures { MatchOption result (own.nodes ≡ 0 → (k : ℕ) → nodes_at uses.now k ≡ 0) (λ i. (own.nodes ≡ 0) × (0 < nodes_at uses.now i)) }
{
    if own.nodes > 0 {
        return None;
    }
    for i in 0..uses.len() {
        if uses[i].nodes > 0 {
            return Some(i as u64);
        }
    }
    None
}
