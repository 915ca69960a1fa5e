//! Nodes and heights of normal forms, counted from summaries.
ghost use Rattle.std.specs.Prelude.{◌≡◌, ℕ, ◌^◌, min, option_map, Ok, IfOk, IsOk};
ghost use Rattle.term_core.specs.Term.{meaning, list_meaning};
ghost use Rattle.term_core.specs.Formula as formula;
ghost use Rattle.env_theory.specs.Count.{by_nodes, by_height, count_term, count_terms, count, headed, spread, bind};
ghost use Rattle.env_core.specs.Rows.{nodes_at, height_at, nodes_row, height_row, nodes_rows, height_rows, nodes_table, height_table};
ghost use Rattle.env_core.specs.Weights.{weights_of};
ghost use Rattle.env_core.specs.declared.sizes.Weights.TheVariants.{Each};

use crate::env::Env;
use crate::summary::Summary;
use crate::tally::Tally;
use base_core::NoMemory;
use term_core::{Formula, Term};

/// What a variable counts: 1 each, or 1 below an index and else 0.
#[derive(Clone, Copy)]
pub enum Weights {
    Each,
    Below(u64),
}

impl Weights {
    /// What a variable counts.
    fn variable(self, i: u64) -> Tally
        ensures nodes { result.nodes ≡ weights_of self i }
        ensures height { result.height ≡ weights_of self i }
    {
        match self {
            Weights::Each => Tally::ONE,
            Weights::Below(b) => { if i < b { Tally::ONE } else { Tally::NONE } }
        }
    }

    /// The same under a quantifier. `NoMemory` where 2^64 stand around.
    #[tactic(auto, using(crate::proofs::Weighing::weighing))]
    fn bound(self) -> Result<Weights, NoMemory>
        ensures weights { IfOk result (λ w. weights_of w ≡ bind 1 (weights_of self)) }
        ensures each { self ≡ Each → result ≡ Ok Each }
    {
        match self {
            Weights::Each => Ok(Weights::Each),
            Weights::Below(u64::MAX) => Err(NoMemory),
            Weights::Below(b) => Ok(Weights::Below(b + 1)),
        }
    }
}

/// How often a variable stands in a body, and how deep.
pub fn uses_of(uses: &[Tally], variable: usize) -> Tally
    ensures nodes { result.nodes ≡ nodes_at uses.now variable }
    ensures height { result.height ≡ height_at uses.now variable }
{
    if variable < uses.len() {
        uses[variable]
    } else {
        Tally::NONE
    }
}

/// What a term's normal form counts, with these weights of its variables.
#[cycle(tally)]
pub fn term_tally(env: &Env, weights: Weights, t: &Term) -> Tally
    ensures nodes { result.nodes ≡ min (count_term by_nodes (nodes_rows env.now) 1 (weights_of weights) (meaning t.now)) (2 ^ 32) }
    ensures height { result.height ≡ min (count_term by_height (height_rows env.now) 1 (weights_of weights) (meaning t.now)) (2 ^ 32) }
{
    match t {
        Term::Var(i) => weights.variable(*i),
        Term::App(f, ts) => head_tally(env, weights, env.function(f), ts.as_slice()),
    }
}

/// An application, of a definition or not.
#[cycle(tally)]
#[tactic(auto, using(crate::proofs::Applications::heads))]
fn head_tally(env: &Env, weights: Weights, summary: Option<&Summary>, ts: &[Term]) -> Tally
    ensures nodes { result.nodes ≡ min (headed by_nodes 1 (option_map (λ s. nodes_row s.now) summary.entry)
        (count_terms by_nodes (nodes_rows env.now) 1 (weights_of weights) (list_meaning ts.now))
        (λ u. spread by_nodes (nodes_rows env.now) 1 (weights_of weights) u (list_meaning ts.now))) (2 ^ 32) }
    ensures height { result.height ≡ min (headed by_height 1 (option_map (λ s. height_row s.now) summary.entry)
        (count_terms by_height (height_rows env.now) 1 (weights_of weights) (list_meaning ts.now))
        (λ u. spread by_height (height_rows env.now) 1 (weights_of weights) u (list_meaning ts.now))) (2 ^ 32) }
{
    match summary {
        None => terms_tally(env, weights, ts).below(1),
        Some(s) => s
            .own
            .beside(spread_tally(env, weights, s.uses.as_slice(), ts)),
    }
}

/// What arguments count beside one another.
#[cycle(tally)]
fn terms_tally(env: &Env, weights: Weights, ts: &[Term]) -> Tally
    ensures nodes { result.nodes ≡ min (count_terms by_nodes (nodes_rows env.now) 1 (weights_of weights) (list_meaning ts.now)) (2 ^ 32) }
    ensures height { result.height
        ≡ min (count_terms by_height (height_rows env.now) 1 (weights_of weights) (list_meaning ts.now)) (2 ^ 32) }
{
    let mut all = Tally::NONE;
    for t in ts {
        all = all.beside(term_tally(env, weights, t));
    }
    all
}

/// What arguments count in a body.
#[cycle(tally)]
fn spread_tally(env: &Env, weights: Weights, uses: &[Tally], ts: &[Term]) -> Tally
    ensures nodes { result.nodes
        ≡ min (spread by_nodes (nodes_rows env.now) 1 (weights_of weights) (nodes_at uses.now) (list_meaning ts.now)) (2 ^ 32) }
    ensures height { result.height
        ≡ min (spread by_height (height_rows env.now) 1 (weights_of weights) (height_at uses.now) (list_meaning ts.now)) (2 ^ 32) }
{
    let mut all = Tally::NONE;
    let mut left = ts.len();
    for t in ts {
        left -= 1;
        all = all.beside(uses_of(uses, left).put(term_tally(env, weights, t)));
    }
    all
}

/// What a formula's normal form counts, with these weights of its variables. `NoMemory` where only some variables count, and
/// one stands under 2^64 quantifiers.
#[cycle(formula_tally)]
pub fn formula_tally(env: &Env, weights: Weights, a: &Formula) -> Result<Tally, NoMemory>
    ensures nodes { IfOk result (λ r. r.nodes
        ≡ min (count by_nodes (nodes_table env.now) 1 (weights_of weights) (formula.meaning a.now)) (2 ^ 32)) }
    ensures height { IfOk result (λ r. r.height
        ≡ min (count by_height (height_table env.now) 1 (weights_of weights) (formula.meaning a.now)) (2 ^ 32)) }
    ensures each { weights ≡ Each → IsOk result }
{
    match a {
        Formula::True | Formula::False => Ok(Tally::ONE),
        Formula::Pred(p, ts) => Ok(head_tally(env, weights, env.predicate(p), ts.as_slice())),
        Formula::Eq(_, t, u) => Ok(
            term_tally(env, weights, t)
                .beside(term_tally(env, weights, u))
                .below(1),
        ),
        Formula::And(a, b) => Ok(
            formula_tally(env, weights, a)?
                .beside(formula_tally(env, weights, b)?)
                .below(1),
        ),
        Formula::Or(a, b) => Ok(
            formula_tally(env, weights, a)?
                .beside(formula_tally(env, weights, b)?)
                .below(1),
        ),
        Formula::Imp(a, b) => Ok(
            formula_tally(env, weights, a)?
                .beside(formula_tally(env, weights, b)?)
                .below(1),
        ),
        Formula::All(_, _, a) => Ok(formula_tally(env, weights.bound()?, a)?.below(1)),
        Formula::Ex(_, _, a) => Ok(formula_tally(env, weights.bound()?, a)?.below(1)),
    }
}
