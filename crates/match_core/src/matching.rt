//! Matching, part by part. What is known of the open variables is changed in place, and nothing is allocated.
ghost use Rattle.std.specs.Prelude.{◌≡◌, ◌↔◌, ◌+◌, ◌<◌, ◌^◌, suc, List, IfOk, IsTrue, MatchOption, length, map, option_map};
ghost use Rattle.fol_theory.specs.Syntax.{Term as TermMeaning, var};
ghost use Rattle.fol_theory.specs.Substitution.{raise, replace_terms, shift_term};
ghost use Rattle.match_theory.specs.Instances.{IsInstance};
ghost use Rattle.match_theory.specs.Matching.{and_then, match_formula, match_term, match_terms, matches};
ghost use Rattle.term_core.specs.Term as term;
ghost use Rattle.term_core.specs.Formula.{meaning};
ghost use Rattle.match_core.specs.Tables.{table, told};

use crate::found::{Found, Instance, blank, chosen, give};
use base_core::NoMemory;
use std::alloc::Global;
use term_core::{Formula, Term};

/// The terms with which a pattern is the target, printing names aside, or None where there are none. The newest
/// variables of the pattern are open, so many of them; one that doesn't occur gets the variable 0.
pub fn matches(
    alloc: Global,
    pattern: &Formula,
    open_vars: u64,
    target: &Formula,
) -> Result<Option<Instance>, NoMemory>
    ensures value { IfOk result (λ r. option_map (λ ts. map term.meaning ts.items) r
        ≡ matches open_vars (meaning pattern.now) (meaning target.now)) }
    ensures instance { IfOk result (λ r. MatchOption r
        ((ts : List TermMeaning) → IsInstance open_vars (meaning pattern.now) (meaning target.now) ts → ⊥)
        (λ ts. IsInstance open_vars (meaning pattern.now) (meaning target.now) (map term.meaning ts.items))) }
{
    let mut found = blank(alloc, open_vars)?;
    if match_formula(pattern, target, 0, &mut found)? {
        Ok(Some(chosen(alloc, &found)?))
    } else {
        Ok(None)
    }
}

/// A formula of the pattern, under so many binders there and in the target. `NoMemory` where 2^64 stand around.
#[cycle(match_formula)]
#[tactic(auto, using(crate::proofs::Patterns::formulas))]
fn match_formula<'a>(
    pattern: &Formula,
    target: &'a Formula,
    binders: u64,
    found: &mut [Option<Found<'a>>],
) -> Result<bool, NoMemory>
    ensures { IfOk result (λ r. told r found.new
        ≡ match_formula (length found.old) binders (meaning pattern.now) (meaning target.now) (table found.old)) }
{
    match (pattern, target) {
        (Formula::True, Formula::True) | (Formula::False, Formula::False) => Ok(true),
        (Formula::Pred(p, ts), Formula::Pred(q, us)) => {
            if !p.same(q) {
                return Ok(false);
            }
            Ok(match_terms(ts.as_slice(), binders, us.as_slice(), 0, found))
        }
        (Formula::Eq(s, t, u), Formula::Eq(r, v, w)) => {
            if !s.same(r) {
                return Ok(false);
            }
            if !match_term(t, binders, v, 0, found) {
                return Ok(false);
            }
            Ok(match_term(u, binders, w, 0, found))
        }
        (Formula::And(a, b), Formula::And(c, d)) => {
            if !match_formula(a, c, binders, found)? {
                return Ok(false);
            }
            match_formula(b, d, binders, found)
        }
        (Formula::Or(a, b), Formula::Or(c, d)) => {
            if !match_formula(a, c, binders, found)? {
                return Ok(false);
            }
            match_formula(b, d, binders, found)
        }
        (Formula::Imp(a, b), Formula::Imp(c, d)) => {
            if !match_formula(a, c, binders, found)? {
                return Ok(false);
            }
            match_formula(b, d, binders, found)
        }
        (Formula::All(s, _, a), Formula::All(r, _, c)) => {
            if !s.same(r) {
                return Ok(false);
            }
            match_body(a, c, binders, found)
        }
        (Formula::Ex(s, _, a), Formula::Ex(r, _, c)) => {
            if !s.same(r) {
                return Ok(false);
            }
            match_body(a, c, binders, found)
        }
        _ => Ok(false),
    }
}

/// The body of a quantifier.
#[cycle(match_formula)]
#[tactic(auto, using(crate::proofs::Patterns::bodies))]
fn match_body<'a>(
    pattern: &Formula,
    target: &'a Formula,
    binders: u64,
    found: &mut [Option<Found<'a>>],
) -> Result<bool, NoMemory>
    ensures { IfOk result (λ r. told r found.new
        ≡ match_formula (length found.old) (suc binders) (meaning pattern.now) (meaning target.now) (table found.old)) }
{
    if binders == u64::MAX {
        return Err(NoMemory);
    }
    match_formula(pattern, target, binders + 1, found)
}

/// A term of the pattern under so many binders, against one under as many and so many further ones.
#[cycle(match_term)]
#[tactic(auto, using(crate::proofs::Patterns::terms))]
pub fn match_term<'a>(
    pattern: &Term,
    binders: u64,
    target: &'a Term,
    further: u64,
    found: &mut [Option<Found<'a>>],
) -> bool
    requires { binders + further < 2 ^ 64 }
    ensures { told result found.new ≡ match_term (length found.old) (binders + further)
        (shift_term binders further (term.meaning pattern.now)) (term.meaning target.now) (table found.old) }
{
    match pattern {
        Term::Var(i) => match_variable(*i, binders, target, further, found),
        Term::App(f, ts) => match target {
            Term::Var(_) => false,
            Term::App(g, us) => {
                if !f.same(g) {
                    return false;
                }
                match_terms(ts.as_slice(), binders, us.as_slice(), further, found)
            }
        },
    }
}

/// Terms in order, as many on both sides.
#[cycle(match_term)]
fn match_terms<'a>(
    patterns: &[Term],
    binders: u64,
    targets: &'a [Term],
    further: u64,
    found: &mut [Option<Found<'a>>],
) -> bool
    requires { binders + further < 2 ^ 64 }
    ensures { told result found.new ≡ match_terms (length found.old) (binders + further)
        (replace_terms (raise binders further) (term.list_meaning patterns.now)) (term.list_meaning targets.now) (table found.old) }
{
    if patterns.len() != targets.len() {
        return false;
    }
    for i in 0..patterns.len() {
        if !match_term(&patterns[i], binders, &targets[i], further, found) {
            return false;
        }
    }
    true
}

/// A variable of the pattern: a bound one, an open one, or one of the context.
#[tactic(auto, using(crate::proofs::Patterns::variables))]
fn match_variable<'a>(
    i: u64,
    binders: u64,
    target: &'a Term,
    further: u64,
    found: &mut [Option<Found<'a>>],
) -> bool
    requires { binders + further < 2 ^ 64 }
    ensures { told result found.new ≡ match_term (length found.old) (binders + further)
        (shift_term binders further (var i)) (term.meaning target.now) (table found.old) }
{
    if i < binders {
        return is_variable(target, i, 0);
    }
    let open = i - binders;
    let open_vars = found.len() as u64;
    if open < open_vars {
        give(found, open as usize, target, binders + further)
    } else {
        is_variable(target, i - open_vars, further)
    }
}

/// Whether a term is the variable that has this index without the further ones.
fn is_variable(t: &Term, index: u64, further: u64) -> bool
    ensures { IsTrue result ↔ (term.meaning t.now ≡ var (index + further)) }
{
    match t {
        Term::Var(j) => *j >= further && *j - further == index,
        Term::App(_, _) => false,
    }
}
