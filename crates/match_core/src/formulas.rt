//! Formulas with the terms of an instance put in, or with a term for another.
ghost use Rattle.std.specs.Prelude.{◌≡◌, ◌+◌, IfOk, map};
ghost use Rattle.std.specs.Arc.{arc_value};
ghost use Rattle.std.specs.Option.{option_map_or};
ghost use Rattle.fol_theory.specs.Syntax.{equal};
ghost use Rattle.fol_theory.specs.Substitution.{instantiate, replace, replace_term};
ghost use Rattle.match_theory.specs.Instances.{fill};
ghost use Rattle.match_theory.specs.Places.{abstracted};
ghost use Rattle.term_core.specs.Term as term;
ghost use Rattle.term_core.specs.Formula.{meaning, outcome, part_outcome};
ghost use Rattle.match_core.specs.Changes.{connect, formula_changed, term_changed};

use crate::change::{Change, changed, changed_all};
use crate::terms::or_copy;
use base_core::NoMemory;
use std::alloc::Global;
use std::sync::Arc;
use term_core::{Formula, Name, Term};

/// A formula with a term for each of its newest variables, from 0 on, and the others lowered. `NoMemory` also where an
/// index passes 2^64 - 1.
#[tactic(auto, using(crate::proofs::FormulaChanges::publics))]
pub fn fill(alloc: Global, a: &Formula, terms: &[Term]) -> Result<Formula, NoMemory>
    ensures { IfOk result (λ r. meaning r ≡ replace (fill (map term.meaning terms.now)) (meaning a.now)) }
{
    or_copied(changed_formula(alloc, a, Change::Fill(terms), 0)?, a)
}

/// The same of a term.
#[tactic(auto, using(crate::proofs::FormulaChanges::publics))]
pub fn fill_term(alloc: Global, t: &Term, terms: &[Term]) -> Result<Term, NoMemory>
    ensures { IfOk result (λ r. term.meaning r ≡ replace_term (fill (map term.meaning terms.now)) (term.meaning t.now)) }
{
    or_copy(changed(alloc, t, Change::Fill(terms), 0)?, t)
}

/// A formula with one term for another wherever it stands, under binders shifted past them. `NoMemory` also where an
/// index passes 2^64 - 1.
#[tactic(auto, using(crate::proofs::FormulaChanges::publics))]
pub fn replace_all(alloc: Global, a: &Formula, from: &Term, to: &Term) -> Result<Formula, NoMemory>
    ensures { IfOk result (λ r. meaning r
        ≡ instantiate (abstracted 0 (term.meaning from.now) (meaning a.now)) (term.meaning to.now)) }
{
    or_copied(changed_formula(alloc, a, Change::Exchange(from, to), 0)?, a)
}

/// What becomes of a formula under binders, or None where it stays. `NoMemory` also where 2^64 binders stand around.
#[cycle(change)]
#[tactic(auto, using(crate::proofs::FormulaChanges::changes))]
fn changed_formula(
    alloc: Global,
    a: &Formula,
    change: Change<'_>,
    binders: u64,
) -> Result<Option<Formula>, NoMemory>
    ensures { IfOk result (λ r. outcome r a.now ≡ formula_changed change.entry binders (meaning a.now)) }
{
    match a {
        Formula::True | Formula::False => Ok(None),
        Formula::Pred(p, ts) => match changed_all(alloc, ts.as_slice(), change, binders)? {
            None => Ok(None),
            Some(us) => Ok(Some(Formula::Pred(p.copy()?, us))),
        },
        Formula::Eq(s, t, u) => changed_equation(alloc, s, t, u, change, binders),
        Formula::And(a, b) => {
            let left = changed_part(alloc, a, change, binders)?;
            let right = changed_part(alloc, b, change, binders)?;
            connected(Connective::And, a, left, b, right)
        }
        Formula::Or(a, b) => {
            let left = changed_part(alloc, a, change, binders)?;
            let right = changed_part(alloc, b, change, binders)?;
            connected(Connective::Or, a, left, b, right)
        }
        Formula::Imp(a, b) => {
            let left = changed_part(alloc, a, change, binders)?;
            let right = changed_part(alloc, b, change, binders)?;
            connected(Connective::Imp, a, left, b, right)
        }
        Formula::All(s, x, a) => match changed_body(alloc, a, change, binders)? {
            None => Ok(None),
            Some(b) => Ok(Some(Formula::All(s.copy()?, x.copy()?, b))),
        },
        Formula::Ex(s, x, a) => match changed_body(alloc, a, change, binders)? {
            None => Ok(None),
            Some(b) => Ok(Some(Formula::Ex(s.copy()?, x.copy()?, b))),
        },
    }
}

/// A part.
#[cycle(change)]
fn changed_part(
    alloc: Global,
    a: &Arc<Formula>,
    change: Change<'_>,
    binders: u64,
) -> Result<Option<Arc<Formula>>, NoMemory>
    ensures { IfOk result (λ r. part_outcome r a.now ≡ formula_changed change.entry binders (meaning (arc_value a.now))) }
{
    match changed_formula(alloc, a, change, binders)? {
        None => Ok(None),
        Some(b) => Ok(Some(Arc::new(alloc, b)?)),
    }
}

/// The body of a quantifier, which is one binder more.
#[cycle(change)]
fn changed_body(
    alloc: Global,
    a: &Arc<Formula>,
    change: Change<'_>,
    binders: u64,
) -> Result<Option<Arc<Formula>>, NoMemory>
    ensures { IfOk result (λ r. part_outcome r a.now ≡ formula_changed change.entry (binders + 1) (meaning (arc_value a.now))) }
{
    if binders == u64::MAX {
        return Err(NoMemory);
    }
    changed_part(alloc, a, change, binders + 1)
}

/// An equation, from what becomes of its sides.
#[tactic(auto, using(term_core::proofs::Variants::meanings))]
fn changed_equation(
    alloc: Global,
    sort: &Name,
    t: &Term,
    u: &Term,
    change: Change<'_>,
    binders: u64,
) -> Result<Option<Formula>, NoMemory>
    ensures { IfOk result (λ r. option_map_or meaning r (equal sort.now (term.meaning t.now) (term.meaning u.now))
        ≡ equal sort.now (term_changed change.entry binders (term.meaning t.now)) (term_changed change.entry binders (term.meaning u.now))) }
{
    let left = changed(alloc, t, change, binders)?;
    let right = changed(alloc, u, change, binders)?;
    if left.is_none() && right.is_none() {
        return Ok(None);
    }
    Ok(Some(Formula::Eq(sort.copy()?, or_copy(left, t)?, or_copy(right, u)?)))
}

/// What stands between two formulas.
#[derive(Clone, Copy)]
enum Connective {
    And,
    Or,
    Imp,
}

/// Two formulas with a connective, from what has become of them, or None where both stay.
#[tactic(auto, using(term_core::proofs::Variants::meanings))]
fn connected(
    connective: Connective,
    a: &Arc<Formula>,
    new_a: Option<Arc<Formula>>,
    b: &Arc<Formula>,
    new_b: Option<Arc<Formula>>,
) -> Result<Option<Formula>, NoMemory>
    ensures { IfOk result (λ r. option_map_or meaning r (connect connective (meaning (arc_value a.now)) (meaning (arc_value b.now)))
        ≡ connect connective (part_outcome new_a a.now) (part_outcome new_b b.now)) }
{
    if new_a.is_none() && new_b.is_none() {
        return Ok(None);
    }
    let left = or_shared(new_a, a)?;
    let right = or_shared(new_b, b)?;
    match connective {
        Connective::And => Ok(Some(Formula::And(left, right))),
        Connective::Or => Ok(Some(Formula::Or(left, right))),
        Connective::Imp => Ok(Some(Formula::Imp(left, right))),
    }
}

/// The new part, or the old one where there is none.
fn or_shared(new: Option<Arc<Formula>>, old: &Arc<Formula>) -> Result<Arc<Formula>, NoMemory>
    ensures { IfOk result (λ r. meaning (arc_value r) ≡ part_outcome new old.now) }
{
    match new {
        None => Ok(old.clone()?),
        Some(a) => Ok(a),
    }
}

/// The new formula, or a copy of the old one where there is none.
fn or_copied(new: Option<Formula>, old: &Formula) -> Result<Formula, NoMemory>
    ensures { IfOk result (λ r. meaning r ≡ outcome new old.now) }
{
    match new {
        None => old.copy(),
        Some(a) => Ok(a),
    }
}
