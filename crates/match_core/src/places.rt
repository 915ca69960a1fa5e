//! The first place of a formula where a term stands that is an instance.
ghost use Rattle.std.specs.Prelude.{◌≡◌, false, suc, List, IfOk, MatchOption, length, map, option_map};
ghost use Rattle.match_theory.specs.Matching.{blank};
ghost use Rattle.match_theory.specs.Places.{find_instance, first_instance, place_matches, places, term_places, terms_places, IsFirst, NoInstance};
ghost use Rattle.term_core.specs.Term as term;
ghost use Rattle.term_core.specs.Formula.{meaning};
ghost use Rattle.match_core.specs.Tables.{picked, table};

use crate::found::{Found, Instance, blank, chosen, clear};
use crate::matching::match_term;
use base_core::NoMemory;
use std::alloc::Global;
use term_core::{Formula, Term};

/// The terms with which a pattern is a term of the goal, at the first place in preorder where there are some, or None
/// where there is no such place. A term with a variable that is bound above its place is no instance.
pub fn find_instance(
    alloc: Global,
    pattern: &Term,
    open_vars: u64,
    goal: &Formula,
) -> Result<Option<Instance>, NoMemory>
    ensures value { IfOk result (λ r. option_map (λ ts. map term.meaning ts.items) r
        ≡ find_instance open_vars (term.meaning pattern.now) (meaning goal.now)) }
    ensures first { IfOk result (λ r. MatchOption r (NoInstance open_vars (term.meaning pattern.now) (places 0 (meaning goal.now)))
        (λ ts. IsFirst open_vars (term.meaning pattern.now) (places 0 (meaning goal.now)) (map term.meaning ts.items))) }
{
    let mut found = blank(alloc, open_vars)?;
    if find_in_formula(goal, pattern, 0, &mut found)? {
        Ok(Some(chosen(alloc, &found)?))
    } else {
        Ok(None)
    }
}

/// The first place of a formula under binders. `NoMemory` where 2^64 stand around.
#[cycle(find_formula)]
#[tactic(auto, using(crate::proofs::Finds::formulas))]
fn find_in_formula<'a>(
    a: &'a Formula,
    pattern: &Term,
    binders: u64,
    found: &mut [Option<Found<'a>>],
) -> Result<bool, NoMemory>
    requires { table found.old ≡ blank (length found.old) }
    ensures found { IfOk result (λ r. picked r found.new
        ≡ first_instance (length found.old) (term.meaning pattern.now) (places binders (meaning a.now))) }
    ensures blank { IfOk result (λ r. r ≡ false → table found.new ≡ blank (length found.old)) }
{
    match a {
        Formula::True | Formula::False => Ok(false),
        Formula::Pred(_, ts) => Ok(find_in_terms(ts.as_slice(), pattern, binders, found)),
        Formula::Eq(_, t, u) => {
            if find_in_term(t, pattern, binders, found) {
                return Ok(true);
            }
            Ok(find_in_term(u, pattern, binders, found))
        }
        Formula::And(a, b) | Formula::Or(a, b) | Formula::Imp(a, b) => {
            if find_in_formula(a, pattern, binders, found)? {
                return Ok(true);
            }
            find_in_formula(b, pattern, binders, found)
        }
        Formula::All(_, _, a) | Formula::Ex(_, _, a) => find_in_body(a, pattern, binders, found),
    }
}

/// The body of a quantifier.
#[cycle(find_formula)]
#[tactic(auto, using(crate::proofs::Patterns::bodies))]
fn find_in_body<'a>(
    a: &'a Formula,
    pattern: &Term,
    binders: u64,
    found: &mut [Option<Found<'a>>],
) -> Result<bool, NoMemory>
    requires { table found.old ≡ blank (length found.old) }
    ensures found { IfOk result (λ r. picked r found.new
        ≡ first_instance (length found.old) (term.meaning pattern.now) (places (suc binders) (meaning a.now))) }
    ensures blank { IfOk result (λ r. r ≡ false → table found.new ≡ blank (length found.old)) }
{
    if binders == u64::MAX {
        return Err(NoMemory);
    }
    find_in_formula(a, pattern, binders + 1, found)
}

/// The first place of a term under binders: the whole before its parts.
#[cycle(find_term)]
#[tactic(auto, using(crate::proofs::Finds::terms))]
fn find_in_term<'a>(
    t: &'a Term,
    pattern: &Term,
    binders: u64,
    found: &mut [Option<Found<'a>>],
) -> bool
    requires { table found.old ≡ blank (length found.old) }
    ensures found { picked result found.new
        ≡ first_instance (length found.old) (term.meaning pattern.now) (term_places binders (term.meaning t.now)) }
    ensures blank { result ≡ false → table found.new ≡ blank (length found.old) }
{
    if is_instance(t, pattern, binders, found) {
        return true;
    }
    match t {
        Term::Var(_) => false,
        Term::App(_, ts) => find_in_terms(ts.as_slice(), pattern, binders, found),
    }
}

/// The first place of terms in order.
#[cycle(find_term)]
fn find_in_terms<'a>(
    ts: &'a [Term],
    pattern: &Term,
    binders: u64,
    found: &mut [Option<Found<'a>>],
) -> bool
    requires { table found.old ≡ blank (length found.old) }
    ensures found { picked result found.new
        ≡ first_instance (length found.old) (term.meaning pattern.now) (terms_places binders (term.list_meaning ts.now)) }
    ensures blank { result ≡ false → table found.new ≡ blank (length found.old) }
{
    for t in ts {
        if find_in_term(t, pattern, binders, found) {
            return true;
        }
    }
    false
}

/// Whether the whole term is an instance. If it isn't, nothing is known afterwards.
fn is_instance<'a>(
    t: &'a Term,
    pattern: &Term,
    binders: u64,
    found: &mut [Option<Found<'a>>],
) -> bool
    requires { table found.old ≡ blank (length found.old) }
    ensures found { picked result found.new ≡ place_matches (length found.old) (term.meaning pattern.now) (binders, term.meaning t.now) }
    ensures blank { result ≡ false → table found.new ≡ blank (length found.old) }
{
    if match_term(pattern, 0, t, binders, found) {
        return true;
    }
    clear(found);
    false
}
