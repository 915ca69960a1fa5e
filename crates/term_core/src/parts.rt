//! A formula from what its parts have become, where None stands for a part that was left as it was. Parts that were
//! left are shared, and the whole is None where all were left.
ghost use Rattle.std.specs.Prelude.{◌≡◌, IfOk};
ghost use Rattle.std.specs.Option.{option_map_or};
ghost use Rattle.std.specs.Arc.{arc_slice_items, arc_value};
ghost use Rattle.fol_theory.specs.Syntax.{pred, equal, both, either, implies, all, ex};
ghost use Rattle.term_core.specs.Formula.{meaning, part_outcome};
ghost use Rattle.term_core.specs.Term as term;

use crate::{Formula, Name, Term, Terms};
use base_core::NoMemory;
use std::sync::Arc;

/// Two parts; None where both were left.
fn pair(
    a: &Arc<Formula>,
    new_a: Option<Arc<Formula>>,
    b: &Arc<Formula>,
    new_b: Option<Arc<Formula>>,
) -> Result<Option<(Arc<Formula>, Arc<Formula>)>, NoMemory>
    ensures left { IfOk result (λ r. option_map_or (λ p. meaning (arc_value p.0)) r (meaning (arc_value a.now))
        ≡ part_outcome new_a a.now) }
    ensures right { IfOk result (λ r. option_map_or (λ p. meaning (arc_value p.1)) r (meaning (arc_value b.now))
        ≡ part_outcome new_b b.now) }
{
    match (new_a, new_b) {
        (None, None) => Ok(None),
        (None, Some(y)) => Ok(Some((a.clone()?, y))),
        (Some(x), None) => Ok(Some((x, b.clone()?))),
        (Some(x), Some(y)) => Ok(Some((x, y))),
    }
}

#[tactic(auto, using(crate::proofs::Variants::meanings))]
pub(crate) fn conjunction(
    a: &Arc<Formula>,
    new_a: Option<Arc<Formula>>,
    b: &Arc<Formula>,
    new_b: Option<Arc<Formula>>,
) -> Result<Option<Formula>, NoMemory>
    ensures { IfOk result (λ r. option_map_or meaning r (both (meaning (arc_value a.now)) (meaning (arc_value b.now)))
        ≡ both (part_outcome new_a a.now) (part_outcome new_b b.now)) }
{
    match pair(a, new_a, b, new_b)? {
        None => Ok(None),
        Some((a, b)) => Ok(Some(Formula::And(a, b))),
    }
}

#[tactic(auto, using(crate::proofs::Variants::meanings))]
pub(crate) fn disjunction(
    a: &Arc<Formula>,
    new_a: Option<Arc<Formula>>,
    b: &Arc<Formula>,
    new_b: Option<Arc<Formula>>,
) -> Result<Option<Formula>, NoMemory>
    ensures { IfOk result (λ r. option_map_or meaning r (either (meaning (arc_value a.now)) (meaning (arc_value b.now)))
        ≡ either (part_outcome new_a a.now) (part_outcome new_b b.now)) }
{
    match pair(a, new_a, b, new_b)? {
        None => Ok(None),
        Some((a, b)) => Ok(Some(Formula::Or(a, b))),
    }
}

#[tactic(auto, using(crate::proofs::Variants::meanings))]
pub(crate) fn implication(
    a: &Arc<Formula>,
    new_a: Option<Arc<Formula>>,
    b: &Arc<Formula>,
    new_b: Option<Arc<Formula>>,
) -> Result<Option<Formula>, NoMemory>
    ensures { IfOk result (λ r. option_map_or meaning r (implies (meaning (arc_value a.now)) (meaning (arc_value b.now)))
        ≡ implies (part_outcome new_a a.now) (part_outcome new_b b.now)) }
{
    match pair(a, new_a, b, new_b)? {
        None => Ok(None),
        Some((a, b)) => Ok(Some(Formula::Imp(a, b))),
    }
}

#[tactic(auto, using(crate::proofs::Variants::meanings))]
pub(crate) fn universal(
    sort: &Name,
    printed: &Name,
    body: &Arc<Formula>,
    new: Option<Arc<Formula>>,
) -> Result<Option<Formula>, NoMemory>
    ensures { IfOk result (λ r. option_map_or meaning r (all sort.now printed.now (meaning (arc_value body.now)))
        ≡ all sort.now printed.now (part_outcome new body.now)) }
{
    match new {
        None => Ok(None),
        Some(body) => Ok(Some(Formula::All(sort.copy()?, printed.copy()?, body))),
    }
}

#[tactic(auto, using(crate::proofs::Variants::meanings))]
pub(crate) fn existential(
    sort: &Name,
    printed: &Name,
    body: &Arc<Formula>,
    new: Option<Arc<Formula>>,
) -> Result<Option<Formula>, NoMemory>
    ensures { IfOk result (λ r. option_map_or meaning r (ex sort.now printed.now (meaning (arc_value body.now)))
        ≡ ex sort.now printed.now (part_outcome new body.now)) }
{
    match new {
        None => Ok(None),
        Some(body) => Ok(Some(Formula::Ex(sort.copy()?, printed.copy()?, body))),
    }
}

#[tactic(auto, using(crate::proofs::Variants::meanings))]
pub(crate) fn predicate(
    name: &Name,
    arguments: &Terms,
    new: Option<Terms>,
) -> Result<Option<Formula>, NoMemory>
    ensures { IfOk result (λ r. option_map_or meaning r (pred name.now (term.list_meaning (arc_slice_items arguments.now)))
        ≡ pred name.now (term.list_outcome new (arc_slice_items arguments.now))) }
{
    match new {
        None => Ok(None),
        Some(arguments) => Ok(Some(Formula::Pred(name.copy()?, arguments))),
    }
}

#[tactic(auto, using(crate::proofs::Variants::meanings))]
pub(crate) fn equation(
    sort: &Name,
    t: &Term,
    new_t: Option<Term>,
    u: &Term,
    new_u: Option<Term>,
) -> Result<Option<Formula>, NoMemory>
    ensures { IfOk result (λ r. option_map_or meaning r (equal sort.now (term.meaning t.now) (term.meaning u.now))
        ≡ equal sort.now (term.outcome new_t t.now) (term.outcome new_u u.now)) }
{
    match (new_t, new_u) {
        (None, None) => Ok(None),
        (None, Some(y)) => Ok(Some(Formula::Eq(sort.copy()?, t.copy()?, y))),
        (Some(x), None) => Ok(Some(Formula::Eq(sort.copy()?, x, u.copy()?))),
        (Some(x), Some(y)) => Ok(Some(Formula::Eq(sort.copy()?, x, y))),
    }
}
