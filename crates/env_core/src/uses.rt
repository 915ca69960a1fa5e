//! How often and how deep each variable stands in a normal form, counted from summaries.
ghost use Rattle.std.specs.Prelude.{◌≡◌, ℕ, ◌+◌, ◌*◌, ◌<◌, ◌^◌, min, max, length, option_map, IfOk, OnOk};
ghost use Rattle.term_core.specs.Term.{meaning, list_meaning};
ghost use Rattle.term_core.specs.Formula as formula;
ghost use Rattle.env_theory.specs.Count.{by_nodes, by_height, joined, count_term, count_terms, count, headed, spread, only, node};
ghost use Rattle.env_core.specs.Rows.{nodes_at, height_at, nodes_row, height_row, nodes_rows, height_rows, nodes_table, height_table};

use crate::env::Env;
use crate::sizes::uses_of;
use crate::summary::Summary;
use crate::tally::{STEP, Tally};
use base_core::NoMemory;
use std::alloc::Global;
use term_core::{Formula, Term};

/// Adds how often and how deep each variable stands in a term's normal form, so often and so deep as `times` says.
/// The list has the variable `binders` first; the others aren't counted.
#[cycle(add_uses)]
pub fn add_uses(env: &Env, times: Tally, binders: u64, t: &Term, uses: &mut [Tally])
    ensures length { length uses.new ≡ length uses.old }
    ensures nodes { (k : ℕ) → k < length uses.old → min (nodes_at uses.new k) (2 ^ 32)
        ≡ min (nodes_at uses.old k + times.nodes * count_term by_nodes (nodes_rows env.now) 0 (only (k + binders)) (meaning t.now))
        (2 ^ 32) }
    ensures height { (k : ℕ) → k < length uses.old → min (height_at uses.new k) (2 ^ 32)
        ≡ min (max (height_at uses.old k)
        (joined times.height (count_term by_height (height_rows env.now) 0 (only (k + binders)) (meaning t.now)))) (2 ^ 32) }
{
    match t {
        Term::Var(i) => add_at(*i, times, binders, uses),
        Term::App(f, ts) => add_head(env, times, binders, env.function(f), ts.as_slice(), uses),
    }
}

/// One place of one variable.
fn add_at(i: u64, times: Tally, binders: u64, uses: &mut [Tally])
    ensures length { length uses.new ≡ length uses.old }
    ensures nodes { (k : ℕ) → k < length uses.old → min (nodes_at uses.new k) (2 ^ 32)
        ≡ min (nodes_at uses.old k + times.nodes * only (k + binders) i) (2 ^ 32) }
    ensures height { (k : ℕ) → k < length uses.old → min (height_at uses.new k) (2 ^ 32)
        ≡ min (max (height_at uses.old k) (joined times.height (only (k + binders) i))) (2 ^ 32) }
{
    if i >= binders && i - binders < uses.len() as u64 {
        let k = (i - binders) as usize;
        let old = uses[k];
        uses[k] = old.beside(times);
    }
}

/// An application, of a definition or not.
#[cycle(add_uses)]
fn add_head(
    env: &Env,
    times: Tally,
    binders: u64,
    summary: Option<&Summary>,
    ts: &[Term],
    uses: &mut [Tally],
)
    ensures length { length uses.new ≡ length uses.old }
    ensures nodes { (k : ℕ) → k < length uses.old → min (nodes_at uses.new k) (2 ^ 32)
        ≡ min (nodes_at uses.old k + times.nodes * headed by_nodes 0 (option_map (λ s. nodes_row s.now) summary.entry)
        (count_terms by_nodes (nodes_rows env.now) 0 (only (k + binders)) (list_meaning ts.now))
        (λ u. spread by_nodes (nodes_rows env.now) 0 (only (k + binders)) u (list_meaning ts.now))) (2 ^ 32) }
    ensures height { (k : ℕ) → k < length uses.old → min (height_at uses.new k) (2 ^ 32)
        ≡ min (max (height_at uses.old k) (joined times.height (headed by_height 0 (option_map (λ s. height_row s.now) summary.entry)
        (count_terms by_height (height_rows env.now) 0 (only (k + binders)) (list_meaning ts.now))
        (λ u. spread by_height (height_rows env.now) 0 (only (k + binders)) u (list_meaning ts.now))))) (2 ^ 32) }
{
    match summary {
        None => add_all(env, times.through(STEP), binders, ts, uses),
        Some(s) => add_spread(env, times, binders, s.uses.as_slice(), ts, uses),
    }
}

/// Arguments beside one another.
#[cycle(add_uses)]
fn add_all(env: &Env, times: Tally, binders: u64, ts: &[Term], uses: &mut [Tally])
    ensures length { length uses.new ≡ length uses.old }
    ensures nodes { (k : ℕ) → k < length uses.old → min (nodes_at uses.new k) (2 ^ 32)
        ≡ min (nodes_at uses.old k
        + times.nodes * count_terms by_nodes (nodes_rows env.now) 0 (only (k + binders)) (list_meaning ts.now)) (2 ^ 32) }
    ensures height { (k : ℕ) → k < length uses.old → min (height_at uses.new k) (2 ^ 32)
        ≡ min (max (height_at uses.old k)
        (joined times.height (count_terms by_height (height_rows env.now) 0 (only (k + binders)) (list_meaning ts.now)))) (2 ^ 32) }
{
    for t in ts {
        add_uses(env, times, binders, t, uses);
    }
}

/// Arguments in a body.
#[cycle(add_uses)]
fn add_spread(
    env: &Env,
    times: Tally,
    binders: u64,
    body: &[Tally],
    ts: &[Term],
    uses: &mut [Tally],
)
    ensures length { length uses.new ≡ length uses.old }
    ensures nodes { (k : ℕ) → k < length uses.old → min (nodes_at uses.new k) (2 ^ 32)
        ≡ min (nodes_at uses.old k
        + times.nodes * spread by_nodes (nodes_rows env.now) 0 (only (k + binders)) (nodes_at body.now) (list_meaning ts.now)) (2 ^ 32) }
    ensures height { (k : ℕ) → k < length uses.old → min (height_at uses.new k) (2 ^ 32)
        ≡ min (max (height_at uses.old k) (joined times.height
        (spread by_height (height_rows env.now) 0 (only (k + binders)) (height_at body.now) (list_meaning ts.now)))) (2 ^ 32) }
{
    let mut left = ts.len();
    for t in ts {
        left -= 1;
        add_uses(env, times.through(uses_of(body, left)), binders, t, uses);
    }
}

/// The same for a formula. `NoMemory` where a variable stands under 2^64 quantifiers.
#[cycle(add_formula_uses)]
pub fn add_formula_uses(
    env: &Env,
    times: Tally,
    binders: u64,
    a: &Formula,
    uses: &mut [Tally],
) -> Result<(), NoMemory>
    ensures length { OnOk result (length uses.new ≡ length uses.old) }
    ensures nodes { OnOk result ((k : ℕ) → k < length uses.old → min (nodes_at uses.new k) (2 ^ 32)
        ≡ min (nodes_at uses.old k
        + times.nodes * count by_nodes (nodes_table env.now) 0 (only (k + binders)) (formula.meaning a.now)) (2 ^ 32)) }
    ensures height { OnOk result ((k : ℕ) → k < length uses.old → min (height_at uses.new k) (2 ^ 32)
        ≡ min (max (height_at uses.old k)
        (joined times.height (count by_height (height_table env.now) 0 (only (k + binders)) (formula.meaning a.now)))) (2 ^ 32)) }
{
    match a {
        Formula::True | Formula::False => Ok(()),
        Formula::Pred(p, ts) => {
            add_head(env, times, binders, env.predicate(p), ts.as_slice(), uses);
            Ok(())
        }
        Formula::Eq(_, t, u) => {
            add_terms(env, times, binders, t, u, uses);
            Ok(())
        }
        Formula::And(a, b) => {
            let deeper = times.through(STEP);
            add_formula_uses(env, deeper, binders, a, uses)?;
            add_formula_uses(env, deeper, binders, b, uses)
        }
        Formula::Or(a, b) => {
            let deeper = times.through(STEP);
            add_formula_uses(env, deeper, binders, a, uses)?;
            add_formula_uses(env, deeper, binders, b, uses)
        }
        Formula::Imp(a, b) => {
            let deeper = times.through(STEP);
            add_formula_uses(env, deeper, binders, a, uses)?;
            add_formula_uses(env, deeper, binders, b, uses)
        }
        Formula::All(_, _, a) => add_below(env, times, binders, a, uses),
        Formula::Ex(_, _, a) => add_below(env, times, binders, a, uses),
    }
}

/// Two sides of an equation.
fn add_terms(env: &Env, times: Tally, binders: u64, t: &Term, u: &Term, uses: &mut [Tally])
    ensures length { length uses.new ≡ length uses.old }
    ensures nodes { (k : ℕ) → k < length uses.old → min (nodes_at uses.new k) (2 ^ 32)
        ≡ min (nodes_at uses.old k
        + times.nodes * node by_nodes 0 ((count_term by_nodes (nodes_rows env.now) 0 (only (k + binders)) (meaning t.now))
        + (count_term by_nodes (nodes_rows env.now) 0 (only (k + binders)) (meaning u.now)))) (2 ^ 32) }
    ensures height { (k : ℕ) → k < length uses.old → min (height_at uses.new k) (2 ^ 32)
        ≡ min (max (height_at uses.old k)
        (joined times.height (node by_height 0 (max (count_term by_height (height_rows env.now) 0 (only (k + binders)) (meaning t.now))
        (count_term by_height (height_rows env.now) 0 (only (k + binders)) (meaning u.now)))))) (2 ^ 32) }
{
    let deeper = times.through(STEP);
    add_uses(env, deeper, binders, t, uses);
    add_uses(env, deeper, binders, u, uses);
}

/// The body of a quantifier.
#[cycle(add_formula_uses)]
fn add_below(
    env: &Env,
    times: Tally,
    binders: u64,
    a: &Formula,
    uses: &mut [Tally],
) -> Result<(), NoMemory>
    ensures length { OnOk result (length uses.new ≡ length uses.old) }
    ensures nodes { OnOk result ((k : ℕ) → k < length uses.old → min (nodes_at uses.new k) (2 ^ 32)
        ≡ min (nodes_at uses.old k
        + times.nodes * node by_nodes 0 (count by_nodes (nodes_table env.now) 0 (only (k + (binders + 1))) (formula.meaning a.now)))
        (2 ^ 32)) }
    ensures height { OnOk result ((k : ℕ) → k < length uses.old → min (height_at uses.new k) (2 ^ 32)
        ≡ min (max (height_at uses.old k)
        (joined times.height
        (node by_height 0 (count by_height (height_table env.now) 0 (only (k + (binders + 1))) (formula.meaning a.now))))) (2 ^ 32)) }
{
    if binders == u64::MAX {
        return Err(NoMemory);
    }
    add_formula_uses(env, times.through(STEP), binders + 1, a, uses)
}

/// No place of any variable.
#[tactic(auto, using(crate::proofs::Limits::zeros))]
pub fn no_uses(alloc: Global, params: usize) -> Result<Vec<Tally>, NoMemory>
    ensures length { IfOk result (λ v. length v.items ≡ params) }
    ensures nodes { IfOk result (λ v. (k : ℕ) → nodes_at v.items k ≡ 0) }
    ensures height { IfOk result (λ v. (k : ℕ) → height_at v.items k ≡ 0) }
{
    let mut uses = Vec::with_capacity(alloc, params)?;
    while uses.len() < params {
        uses.push(Tally::NONE)?;
    }
    Ok(uses)
}
