//! Terms that are taken out from under binders and put under others.
ghost use Rattle.std.specs.Prelude.{◌≡◌, ◌↔◌, ◌+◌, ◌≤◌, IfOk, IsTrue, is_some};
ghost use Rattle.fol_theory.specs.Substitution.{shift_term};
ghost use Rattle.fol_theory.specs.Measures.{term_reach, terms_reach};
ghost use Rattle.match_theory.specs.Matching.{lower, lower_terms};
ghost use Rattle.term_core.specs.Term.{meaning, list_meaning, outcome};
ghost use Rattle.match_core.specs.Moves.{moved, all_moved};

use base_core::NoMemory;
use std::alloc::Global;
use term_core::Term;

/// Whether none of the newest variables, so many, stands in the term.
#[tactic(auto, using(crate::proofs::Lowered::outside_none))]
pub fn is_outside(t: &Term, binders: u64) -> bool
    ensures { result ≡ is_some (lower binders (meaning t.now)) }
{
    if binders == 0 {
        return true;
    }
    is_free(t, binders)
}

/// The same, by a walk.
#[cycle(free)]
#[tactic(auto, using(crate::proofs::Lowered::frees))]
fn is_free(t: &Term, binders: u64) -> bool
    ensures { result ≡ is_some (lower binders (meaning t.now)) }
{
    match t {
        Term::Var(i) => *i >= binders,
        Term::App(_, ts) => are_free(ts.as_slice(), binders),
    }
}

#[cycle(free)]
fn are_free(ts: &[Term], binders: u64) -> bool
    ensures { result ≡ is_some (lower_terms binders (list_meaning ts.now)) }
{
    for t in ts {
        if !is_free(t, binders) {
            return false;
        }
    }
    true
}

/// Whether the term without its newest variables, `lowered` of them, is the other one where it stands under `raised`
/// binders. Neither is made.
#[cycle(moved)]
#[tactic(auto, using(crate::proofs::Moved::moves))]
pub fn is_moved(t: &Term, lowered: u64, u: &Term, raised: u64) -> bool
    ensures { IsTrue result ↔ (moved lowered raised (meaning t.now) ≡ meaning u.now) }
{
    match (t, u) {
        (Term::Var(i), Term::Var(j)) => { *j >= raised && *j - raised == i.saturating_sub(lowered) }
        (Term::App(f, ts), Term::App(g, us)) => f.same(g)
            && are_moved(ts.as_slice(), lowered, us.as_slice(), raised),
        _ => false,
    }
}

#[cycle(moved)]
fn are_moved(ts: &[Term], lowered: u64, us: &[Term], raised: u64) -> bool
    ensures { IsTrue result ↔ (all_moved lowered raised (list_meaning ts.now) ≡ list_meaning us.now) }
{
    if ts.len() != us.len() {
        return false;
    }
    for i in 0..ts.len() {
        if !is_moved(&ts[i], lowered, &us[i], raised) {
            return false;
        }
    }
    true
}

/// The term as it stands under so many binders more. `NoMemory` where an index passes 2^64 - 1.
#[tactic(auto, using(term_core::proofs::Bounds::bounds, term_core::proofs::Applications::no_shift))]
pub fn raised(alloc: Global, t: &Term, by: u64) -> Result<Term, NoMemory>
    ensures { IfOk result (λ r. meaning r ≡ shift_term 0 by (meaning t.now)) }
{
    if by == 0 {
        return t.copy();
    }
    if !is_within(t, u64::MAX - by) {
        return Err(NoMemory);
    }
    t.shift(alloc, 0, by)
}

/// Whether each index is at most the last.
#[cycle(within)]
fn is_within(t: &Term, last: u64) -> bool
    ensures { IsTrue result ↔ (term_reach (meaning t.now) ≤ last + 1) }
{
    match t {
        Term::Var(i) => *i <= last,
        Term::App(_, ts) => are_within(ts.as_slice(), last),
    }
}

#[cycle(within)]
fn are_within(ts: &[Term], last: u64) -> bool
    ensures { IsTrue result ↔ (terms_reach (list_meaning ts.now) ≤ last + 1) }
{
    for t in ts {
        if !is_within(t, last) {
            return false;
        }
    }
    true
}

/// The new term, or a copy of the old one where there is none.
pub fn or_copy(new: Option<Term>, old: &Term) -> Result<Term, NoMemory>
    ensures { IfOk result (λ r. meaning r ≡ outcome new old.now) }
{
    match new {
        None => old.copy(),
        Some(t) => Ok(t),
    }
}
