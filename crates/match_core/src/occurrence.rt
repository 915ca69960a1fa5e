//! Whether a variable stands in a term or a formula.
ghost use Rattle.std.specs.Prelude.{◌≡◌, ℕ, suc, ◌==◌};
ghost use Rattle.match_theory.specs.Places.{occurs, occurs_in_term, occurs_in_terms};
ghost use Rattle.term_core.specs.Term as term;
ghost use Rattle.term_core.specs.Formula.{meaning};
ghost use Rattle.match_core.specs.Indices.{Stands};

use term_core::{Formula, Term};

/// Whether a variable stands in a formula.
pub fn occurs(a: &Formula, variable: u64) -> bool
    ensures { result ≡ occurs variable (meaning a.now) }
{
    stands_in(a, Some(variable))
}

/// Whether a variable stands in a term.
pub fn occurs_in_term(t: &Term, variable: u64) -> bool
    ensures { result ≡ occurs_in_term variable (term.meaning t.now) }
{
    stands_in_term(t, Some(variable))
}

/// The same of an index, where None passes those of all variables.
#[tactic(auto, using(crate::proofs::Occurring::formulas))]
fn stands_in(a: &Formula, index: Option<u64>) -> bool
    ensures { (k : ℕ) → Stands index k → result ≡ occurs k (meaning a.now) }
{
    match a {
        Formula::True | Formula::False => false,
        Formula::Pred(_, ts) => stands_in_terms(ts.as_slice(), index),
        Formula::Eq(_, t, u) => stands_in_term(t, index) || stands_in_term(u, index),
        Formula::And(a, b) | Formula::Or(a, b) | Formula::Imp(a, b) => {
            if stands_in(a, index) {
                return true;
            }
            stands_in(b, index)
        }
        Formula::All(_, _, a) | Formula::Ex(_, _, a) => stands_in(a, next(index)),
    }
}

#[cycle(stands)]
#[tactic(auto, using(crate::proofs::Occurring::terms))]
fn stands_in_term(t: &Term, index: Option<u64>) -> bool
    ensures { (k : ℕ) → Stands index k → result ≡ occurs_in_term k (term.meaning t.now) }
{
    match t {
        Term::Var(j) => is_index(index, *j),
        Term::App(_, ts) => stands_in_terms(ts.as_slice(), index),
    }
}

#[cycle(stands)]
fn stands_in_terms(ts: &[Term], index: Option<u64>) -> bool
    ensures { (k : ℕ) → Stands index k → result ≡ occurs_in_terms k (term.list_meaning ts.now) }
{
    for t in ts {
        if stands_in_term(t, index) {
            return true;
        }
    }
    false
}

/// Whether this is the index.
fn is_index(index: Option<u64>, j: u64) -> bool
    ensures { (k : ℕ) → Stands index k → result ≡ (k == j) }
{
    match index {
        Some(i) => i == j,
        None => false,
    }
}

/// The index under one binder more.
fn next(index: Option<u64>) -> Option<u64>
    ensures { (k : ℕ) → Stands index k → Stands result (suc k) }
{
    match index {
        Some(i) => i.checked_add(1),
        None => None,
    }
}
