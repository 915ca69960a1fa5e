//! Formulas.
ghost use Rattle.std.specs.Prelude.{◌≡◌, ◌↔◌, ◌+◌, ◌≤◌, ◌<◌, ◌^◌, min, max, IfOk, IsTrue};
ghost use Rattle.fol_theory.specs.Syntax.{equal};
ghost use Rattle.fol_theory.specs.Substitution.{lift, put, raise, replace, shift, shift_term, substitute, substitute_term};
ghost use Rattle.fol_theory.specs.Measures.{nodes, height, reach, term_reach, depth};
ghost use Rattle.fol_theory.specs.Printing.{Alike};
ghost use Rattle.std.specs.Option.{option_map_or};
ghost use Rattle.term_core.specs.Formula.{meaning, outcome, part_outcome};
ghost use Rattle.term_core.specs.Term as term;
ghost use Rattle.std.specs.Arc.{arc_value};

use crate::parts::{
    conjunction, disjunction, equation, existential, implication, predicate, universal,
};
use crate::term::{LIMIT, height_of_all, put_all, same_all, shifted_all, size_of_all};
use crate::{Name, Term, Terms};
use base_core::NoMemory;
use std::alloc::Global;
use std::sync::Arc;

/// A formula. `Eq` has the sort of its sides; `All` and `Ex` have the sort of their variable, the name that is
/// printed for it, which no comparison sees, and the body.
#[derive(Drop)]
pub enum Formula {
    True,
    False,
    Pred(Name, Terms),
    Eq(Name, Term, Term),
    And(Arc<Formula>, Arc<Formula>),
    Or(Arc<Formula>, Arc<Formula>),
    Imp(Arc<Formula>, Arc<Formula>),
    All(Name, Name, Arc<Formula>),
    Ex(Name, Name, Arc<Formula>),
}

impl Formula {
    /// An equal formula, which shares names and parts.
    #[tactic(auto, using(crate::proofs::Variants::meanings))]
    pub fn copy(&self) -> Result<Formula, NoMemory>
        ensures { IfOk result (λ a. meaning a ≡ meaning self.now) }
    {
        match self {
            Formula::True => Ok(Formula::True),
            Formula::False => Ok(Formula::False),
            Formula::Pred(p, ts) => Ok(Formula::Pred(p.copy()?, ts.clone()?)),
            Formula::Eq(s, t, u) => Ok(Formula::Eq(s.copy()?, t.copy()?, u.copy()?)),
            Formula::And(a, b) => Ok(Formula::And(a.clone()?, b.clone()?)),
            Formula::Or(a, b) => Ok(Formula::Or(a.clone()?, b.clone()?)),
            Formula::Imp(a, b) => Ok(Formula::Imp(a.clone()?, b.clone()?)),
            Formula::All(s, x, a) => Ok(Formula::All(s.copy()?, x.copy()?, a.clone()?)),
            Formula::Ex(s, x, a) => Ok(Formula::Ex(s.copy()?, x.copy()?, a.clone()?)),
        }
    }

    /// The formula with each variable that, outside its own binders, is at least `from` greater by `by`.
    pub fn shift(&self, alloc: Global, from: u64, by: u64) -> Result<Formula, NoMemory>
        requires from { from + depth (meaning self.now) < 2 ^ 64 }
        requires indices { reach (shift from by (meaning self.now)) ≤ 2 ^ 64 }
        ensures { IfOk result (λ a. meaning a ≡ shift from by (meaning self.now)) }
    {
        match self.shifted(alloc, from, by)? {
            None => self.copy(),
            Some(a) => Ok(a),
        }
    }

    /// The same, or None where each variable is left as it is. Parts that are left are shared.
    #[cycle(shift)]
    #[tactic(auto, using(crate::proofs::Variants::replacements))]
    fn shifted(&self, alloc: Global, from: u64, by: u64) -> Result<Option<Formula>, NoMemory>
        requires from { from + depth (meaning self.now) < 2 ^ 64 }
        requires indices { reach (shift from by (meaning self.now)) ≤ 2 ^ 64 }
        ensures { IfOk result (λ a. outcome a self.now ≡ shift from by (meaning self.now)) }
    {
        match self {
            Formula::True | Formula::False => Ok(None),
            Formula::Pred(p, ts) => predicate(p, ts, shifted_all(alloc, ts.as_slice(), from, by)?),
            Formula::Eq(s, t, u) => {
                let left = t.shifted(alloc, from, by)?;
                equation(s, t, left, u, u.shifted(alloc, from, by)?)
            }
            Formula::And(a, b) => {
                let left = shifted_part(alloc, a, from, by)?;
                conjunction(a, left, b, shifted_part(alloc, b, from, by)?)
            }
            Formula::Or(a, b) => {
                let left = shifted_part(alloc, a, from, by)?;
                disjunction(a, left, b, shifted_part(alloc, b, from, by)?)
            }
            Formula::Imp(a, b) => {
                let left = shifted_part(alloc, a, from, by)?;
                implication(a, left, b, shifted_part(alloc, b, from, by)?)
            }
            Formula::All(s, x, a) => universal(s, x, a, shifted_body(alloc, a, from, by)?),
            Formula::Ex(s, x, a) => existential(s, x, a, shifted_body(alloc, a, from, by)?),
        }
    }

    /// The formula with `value`, shifted under binders, for the variable `index`, and the greater variables
    /// lowered by 1.
    #[tactic(auto, using(crate::proofs::Applications::no_shift))]
    pub fn substitute(&self, alloc: Global, index: u64, value: &Term) -> Result<Formula, NoMemory>
        requires index { index + depth (meaning self.now) < 2 ^ 64 }
        requires indices { reach (substitute index (term.meaning value.now) (meaning self.now)) ≤ 2 ^ 64 }
        ensures { IfOk result (λ a. meaning a ≡ substitute index (term.meaning value.now) (meaning self.now)) }
    {
        match self.put(alloc, index, value, 0)? {
            None => self.copy(),
            Some(a) => Ok(a),
        }
    }

    /// The same under `binders` binders, which the value has to pass, or None where each variable is left as it is.
    /// Parts that are left are shared.
    #[cycle(put)]
    #[tactic(auto, using(crate::proofs::Variants::replacements))]
    fn put(
        &self,
        alloc: Global,
        index: u64,
        value: &Term,
        binders: u64,
    ) -> Result<Option<Formula>, NoMemory>
        requires binders { binders ≤ index }
        requires index { index + depth (meaning self.now) < 2 ^ 64 }
        requires indices { reach (substitute index (shift_term 0 binders (term.meaning value.now)) (meaning self.now)) ≤ 2 ^ 64 }
        ensures { IfOk result (λ a. outcome a self.now
            ≡ substitute index (shift_term 0 binders (term.meaning value.now)) (meaning self.now)) }
    {
        match self {
            Formula::True | Formula::False => Ok(None),
            Formula::Pred(p, ts) => predicate(
                p,
                ts,
                put_all(alloc, ts.as_slice(), index, value, binders)?,
            ),
            Formula::Eq(s, t, u) => put_equation(alloc, s, t, u, index, value, binders),
            Formula::And(a, b) => {
                let left = put_part(alloc, a, index, value, binders)?;
                conjunction(a, left, b, put_part(alloc, b, index, value, binders)?)
            }
            Formula::Or(a, b) => {
                let left = put_part(alloc, a, index, value, binders)?;
                disjunction(a, left, b, put_part(alloc, b, index, value, binders)?)
            }
            Formula::Imp(a, b) => {
                let left = put_part(alloc, a, index, value, binders)?;
                implication(a, left, b, put_part(alloc, b, index, value, binders)?)
            }
            Formula::All(s, x, a) => universal(s, x, a, put_body(alloc, a, index, value, binders)?),
            Formula::Ex(s, x, a) => existential(
                s,
                x,
                a,
                put_body(alloc, a, index, value, binders)?,
            ),
        }
    }

    /// Whether they are equal but for the names that are printed, sorts among what is compared.
    #[tactic(auto, using(crate::proofs::Shapes::alike))]
    pub fn same(&self, other: &Formula) -> bool
        ensures { IsTrue result ↔ Alike (meaning self.now) (meaning other.now) }
    {
        match (self, other) {
            (Formula::True, Formula::True) | (Formula::False, Formula::False) => true,
            (Formula::Pred(p, xs), Formula::Pred(q, ys)) => p.same(q)
                && same_all(xs.as_slice(), ys.as_slice()),
            (Formula::Eq(s, t, u), Formula::Eq(z, v, w)) => s.same(z) && t.same(v) && u.same(w),
            (Formula::And(a, b), Formula::And(c, d))
            | (Formula::Or(a, b), Formula::Or(c, d))
            | (Formula::Imp(a, b), Formula::Imp(c, d)) => {
                if !a.same(c) {
                    return false;
                }
                b.same(d)
            }
            (Formula::All(s, _, a), Formula::All(z, _, b))
            | (Formula::Ex(s, _, a), Formula::Ex(z, _, b)) => s.same(z) && a.same(b),
            _ => false,
        }
    }

    /// How many nodes there are; 2^32 stands for that many and for more.
    #[tactic(auto, using(crate::proofs::Variants::sizes))]
    pub fn size(&self) -> u64
        ensures { result ≡ min (nodes (meaning self.now)) (2 ^ 32) }
    {
        match self {
            Formula::True | Formula::False => 1,
            Formula::Pred(_, ts) => size_of_all(ts.as_slice()).min(LIMIT - 1) + 1,
            Formula::Eq(_, t, u) => (t.size() + u.size()).min(LIMIT - 1) + 1,
            Formula::And(a, b) | Formula::Or(a, b) | Formula::Imp(a, b) => {
                (a.size() + b.size()).min(LIMIT - 1) + 1
            }
            Formula::All(_, _, a) | Formula::Ex(_, _, a) => a.size().min(LIMIT - 1) + 1,
        }
    }

    /// How many nodes stand on the longest way down; 2^32 stands for that many and for more.
    #[tactic(auto, using(crate::proofs::Variants::heights))]
    pub fn height(&self) -> u64
        ensures { result ≡ min (height (meaning self.now)) (2 ^ 32) }
    {
        match self {
            Formula::True | Formula::False => 1,
            Formula::Pred(_, ts) => height_of_all(ts.as_slice()).min(LIMIT - 1) + 1,
            Formula::Eq(_, t, u) => t.height().max(u.height()).min(LIMIT - 1) + 1,
            Formula::And(a, b) | Formula::Or(a, b) | Formula::Imp(a, b) => {
                a.height().max(b.height()).min(LIMIT - 1) + 1
            }
            Formula::All(_, _, a) | Formula::Ex(_, _, a) => a.height().min(LIMIT - 1) + 1,
        }
    }
}

/// A part, made anew where a variable in it moves.
#[cycle(shift)]
fn shifted_part(
    alloc: Global,
    a: &Arc<Formula>,
    from: u64,
    by: u64,
) -> Result<Option<Arc<Formula>>, NoMemory>
    requires from { from + depth (meaning (arc_value a.now)) < 2 ^ 64 }
    requires indices { reach (shift from by (meaning (arc_value a.now))) ≤ 2 ^ 64 }
    ensures { IfOk result (λ r. part_outcome r a.now ≡ shift from by (meaning (arc_value a.now))) }
{
    match a.shifted(alloc, from, by)? {
        None => Ok(None),
        Some(b) => Ok(Some(Arc::new(alloc, b)?)),
    }
}

/// The body of a binder, whose own variable is below those that are raised.
#[cycle(shift)]
fn shifted_body(
    alloc: Global,
    a: &Arc<Formula>,
    from: u64,
    by: u64,
) -> Result<Option<Arc<Formula>>, NoMemory>
    requires from { from + 1 + depth (meaning (arc_value a.now)) < 2 ^ 64 }
    requires indices { reach (replace (lift (raise from by)) (meaning (arc_value a.now))) ≤ 2 ^ 64 }
    ensures { IfOk result (λ r. part_outcome r a.now ≡ replace (lift (raise from by)) (meaning (arc_value a.now))) }
{
    shifted_part(alloc, a, from + 1, by)
}

/// A part, made anew where a variable in it changes.
#[cycle(put)]
fn put_part(
    alloc: Global,
    a: &Arc<Formula>,
    index: u64,
    value: &Term,
    binders: u64,
) -> Result<Option<Arc<Formula>>, NoMemory>
    requires binders { binders ≤ index }
    requires index { index + depth (meaning (arc_value a.now)) < 2 ^ 64 }
    requires indices { reach (substitute index (shift_term 0 binders (term.meaning value.now)) (meaning (arc_value a.now))) ≤ 2 ^ 64 }
    ensures { IfOk result (λ r. part_outcome r a.now
        ≡ substitute index (shift_term 0 binders (term.meaning value.now)) (meaning (arc_value a.now))) }
{
    match a.put(alloc, index, value, binders)? {
        None => Ok(None),
        Some(b) => Ok(Some(Arc::new(alloc, b)?)),
    }
}

/// The body of a binder, which is one binder more to pass.
#[cycle(put)]
fn put_body(
    alloc: Global,
    a: &Arc<Formula>,
    index: u64,
    value: &Term,
    binders: u64,
) -> Result<Option<Arc<Formula>>, NoMemory>
    requires binders { binders ≤ index }
    requires index { index + 1 + depth (meaning (arc_value a.now)) < 2 ^ 64 }
    requires indices { reach (replace (lift (put index (shift_term 0 binders (term.meaning value.now))))
        (meaning (arc_value a.now))) ≤ 2 ^ 64 }
    ensures { IfOk result (λ r. part_outcome r a.now
        ≡ replace (lift (put index (shift_term 0 binders (term.meaning value.now)))) (meaning (arc_value a.now))) }
{
    put_part(alloc, a, index + 1, value, binders + 1)
}

/// An equation with the value put into its sides.
fn put_equation(
    alloc: Global,
    sort: &Name,
    t: &Term,
    u: &Term,
    index: u64,
    value: &Term,
    binders: u64,
) -> Result<Option<Formula>, NoMemory>
    requires { max (term_reach (substitute_term index (shift_term 0 binders (term.meaning value.now)) (term.meaning t.now)))
        (term_reach (substitute_term index (shift_term 0 binders (term.meaning value.now)) (term.meaning u.now))) ≤ 2 ^ 64 }
    ensures { IfOk result (λ a. option_map_or meaning a (equal sort.now (term.meaning t.now) (term.meaning u.now))
        ≡ equal sort.now
        (substitute_term index (shift_term 0 binders (term.meaning value.now)) (term.meaning t.now))
        (substitute_term index (shift_term 0 binders (term.meaning value.now)) (term.meaning u.now))) }
{
    let left = t.put(alloc, index, value, binders)?;
    equation(sort, t, left, u, u.put(alloc, index, value, binders)?)
}
