//! Terms.
ghost use Rattle.std.specs.Prelude.{
  ◌≡◌,
  ◌↔◌,
  ◌<◌,
  ◌≤◌,
  ◌^◌,
  ◌+◌,
  min,
  IfOk,
  IsTrue,
  List,
  [],
  ◌∷◌,
  ◌++◌,
  length,
  map,
  take,
  slice_index_or,
};
ghost use Rattle.fol_theory.specs.Syntax.{terms};
ghost use Rattle.fol_theory.specs.Substitution.{replace_terms, raise, put, shift_term, substitute_term};
ghost use Rattle.fol_theory.specs.Measures.{term_nodes, terms_nodes, term_height, terms_height, term_reach, terms_reach};
ghost use Rattle.term_core.specs.Term.{meaning, list_meaning, outcome, list_outcome, each_outcome};
ghost use Rattle.term_core.specs.declared.term.Term.{Term};

use crate::Name;
use base_core::NoMemory;
use std::alloc::Global;
use std::sync::ArcSlice;

/// A variable counts the binders between it and its own, then the variables of the context from the newest on. An
/// application has the name of its function and the arguments.
#[derive(Drop)]
pub enum Term {
    Var(u64),
    App(Name, Terms),
}

/// The arguments of a function or a predicate, in order.
pub type Terms = ArcSlice<Term>;

/// Where `size` and `height` stop: this stands for itself and everything above.
pub(crate) const LIMIT: u64 = 1 << 32;

impl Term {
    /// An equal term, which shares names and arguments.
    pub fn copy(&self) -> Result<Term, NoMemory>
        ensures { IfOk result (λ t. meaning t ≡ meaning self.now) }
    {
        match self {
            Term::Var(i) => Ok(Term::Var(*i)),
            Term::App(f, ts) => Ok(Term::App(f.copy()?, ts.clone()?)),
        }
    }

    /// The term with each variable that is at least `from` greater by `by`. A term has no binders.
    pub fn shift(&self, alloc: Global, from: u64, by: u64) -> Result<Term, NoMemory>
        requires { term_reach (shift_term from by (meaning self.now)) ≤ 2 ^ 64 }
        ensures { IfOk result (λ t. meaning t ≡ shift_term from by (meaning self.now)) }
    {
        match self.shifted(alloc, from, by)? {
            None => self.copy(),
            Some(t) => Ok(t),
        }
    }

    /// The same, or None where each variable is left as it is.
    #[cycle(shift)]
    #[tactic(auto, using(crate::proofs::Applications::applications))]
    pub(crate) fn shifted(
        &self,
        alloc: Global,
        from: u64,
        by: u64,
    ) -> Result<Option<Term>, NoMemory>
        requires { term_reach (shift_term from by (meaning self.now)) ≤ 2 ^ 64 }
        ensures { IfOk result (λ t. outcome t self.now ≡ shift_term from by (meaning self.now)) }
    {
        match self {
            Term::Var(i) => {
                if *i < from || by == 0 {
                    Ok(None)
                } else {
                    Ok(Some(Term::Var(*i + by)))
                }
            }
            Term::App(f, ts) => match shifted_all(alloc, ts.as_slice(), from, by)? {
                None => Ok(None),
                Some(ts) => Ok(Some(Term::App(f.copy()?, ts))),
            },
        }
    }

    /// The term with `value` for the variable `index`, and the greater variables lowered by 1.
    #[tactic(auto, using(crate::proofs::Applications::no_shift))]
    pub fn substitute(&self, alloc: Global, index: u64, value: &Term) -> Result<Term, NoMemory>
        ensures { IfOk result (λ t. meaning t ≡ substitute_term index (meaning value.now) (meaning self.now)) }
    {
        match self.put(alloc, index, value, 0)? {
            None => self.copy(),
            Some(t) => Ok(t),
        }
    }

    /// The same under `binders` binders of a formula, which the value has to pass, or None where each variable is
    /// left as it is.
    #[cycle(put)]
    #[tactic(auto, using(crate::proofs::Applications::applications))]
    pub(crate) fn put(
        &self,
        alloc: Global,
        index: u64,
        value: &Term,
        binders: u64,
    ) -> Result<Option<Term>, NoMemory>
        requires { 0 < binders
            → term_reach (substitute_term index (shift_term 0 binders (meaning value.now)) (meaning self.now)) ≤ 2 ^ 64 }
        ensures { IfOk result (λ t. outcome t self.now
            ≡ substitute_term index (shift_term 0 binders (meaning value.now)) (meaning self.now)) }
    {
        match self {
            Term::Var(i) => {
                if *i < index {
                    Ok(None)
                } else if *i == index {
                    Ok(Some(shift_value(alloc, value, binders)?))
                } else {
                    Ok(Some(Term::Var(*i - 1)))
                }
            }
            Term::App(f, ts) => match put_all(alloc, ts.as_slice(), index, value, binders)? {
                None => Ok(None),
                Some(ts) => Ok(Some(Term::App(f.copy()?, ts))),
            },
        }
    }

    /// Whether they are equal.
    #[cycle(same)]
    #[tactic(auto, using(crate::proofs::Equals::term_equals))]
    pub fn same(&self, other: &Term) -> bool
        ensures { IsTrue result ↔ (meaning self.now ≡ meaning other.now) }
    {
        match (self, other) {
            (Term::Var(i), Term::Var(j)) => *i == *j,
            (Term::App(f, xs), Term::App(g, ys)) => f.same(g)
                && same_all(xs.as_slice(), ys.as_slice()),
            _ => false,
        }
    }

    /// How many nodes there are; 2^32 stands for that many and for more.
    #[cycle(size)]
    #[tactic(auto, using(crate::proofs::Applications::term_measures))]
    pub fn size(&self) -> u64
        ensures { result ≡ min (term_nodes (meaning self.now)) (2 ^ 32) }
    {
        match self {
            Term::Var(_) => 1,
            Term::App(_, ts) => size_of_all(ts.as_slice()).min(LIMIT - 1) + 1,
        }
    }

    /// How many nodes stand on the longest way down; 2^32 stands for that many and for more.
    #[cycle(height)]
    #[tactic(auto, using(crate::proofs::Applications::term_measures))]
    pub fn height(&self) -> u64
        ensures { result ≡ min (term_height (meaning self.now)) (2 ^ 32) }
    {
        match self {
            Term::Var(_) => 1,
            Term::App(_, ts) => height_of_all(ts.as_slice()).min(LIMIT - 1) + 1,
        }
    }
}

/// Copies of terms, with room for so many in all.
fn copies(alloc: Global, ts: &[Term], room: usize) -> Result<Vec<Term>, NoMemory>
    ensures { IfOk result (λ list. map meaning list.items ≡ map meaning ts.now) }
{
    let mut list = Vec::with_capacity(alloc, room)?;
    for t in ts {
        list.push(t.copy()?)?;
    }
    Ok(list)
}

/// The terms before another and that one, from what they have become. A list is made where the first one has changed.
fn joined(
    alloc: Global,
    all: &[Term],
    i: usize,
    before: Option<Vec<Term>>,
    new: Option<Term>,
) -> Result<Option<Vec<Term>>, NoMemory>
    requires { i < length all.now }
    ensures { IfOk result (λ r. (d : Term) → each_outcome r (take (i + 1) all.now)
        ≡ each_outcome before (take i all.now) ++ outcome new (slice_index_or all.now i d) ∷ []) }
{
    match (before, new) {
        (None, None) => Ok(None),
        (None, Some(t)) => {
            let mut list = copies(alloc, &all[..i], all.len())?;
            list.push(t)?;
            Ok(Some(list))
        }
        (Some(mut list), None) => {
            list.push(all[i].copy()?)?;
            Ok(Some(list))
        }
        (Some(mut list), Some(t)) => {
            list.push(t)?;
            Ok(Some(list))
        }
    }
}

/// The list of them, shared from now on.
fn shared(list: Option<Vec<Term>>) -> Result<Option<Terms>, NoMemory>
    ensures { IfOk result (λ r. (ts : List Term) → list_outcome r ts ≡ terms (each_outcome list ts)) }
{
    match list {
        None => Ok(None),
        Some(list) => Ok(Some(ArcSlice::from_vec(list)?)),
    }
}

#[cycle(shift)]
pub(crate) fn shifted_all(
    alloc: Global,
    ts: &[Term],
    from: u64,
    by: u64,
) -> Result<Option<Terms>, NoMemory>
    requires { terms_reach (replace_terms (raise from by) (list_meaning ts.now)) ≤ 2 ^ 64 }
    ensures { IfOk result (λ us. list_outcome us ts.now ≡ replace_terms (raise from by) (list_meaning ts.now)) }
{
    let mut list: Option<Vec<Term>> = None;
    for i in 0..ts.len() {
        let new = ts[i].shifted(alloc, from, by)?;
        list = joined(alloc, ts, i, list, new)?;
    }
    shared(list)
}

/// The value as it stands under binders. At none it is copied, so that no index can pass.
#[tactic(auto, using(crate::proofs::Applications::no_shift))]
fn shift_value(alloc: Global, value: &Term, binders: u64) -> Result<Term, NoMemory>
    requires { 0 < binders → term_reach (shift_term 0 binders (meaning value.now)) ≤ 2 ^ 64 }
    ensures { IfOk result (λ t. meaning t ≡ shift_term 0 binders (meaning value.now)) }
{
    if binders == 0 {
        value.copy()
    } else {
        value.shift(alloc, 0, binders)
    }
}

#[cycle(put)]
pub(crate) fn put_all(
    alloc: Global,
    ts: &[Term],
    index: u64,
    value: &Term,
    binders: u64,
) -> Result<Option<Terms>, NoMemory>
    requires { 0 < binders
        → terms_reach (replace_terms (put index (shift_term 0 binders (meaning value.now))) (list_meaning ts.now)) ≤ 2 ^ 64 }
    ensures { IfOk result (λ us. list_outcome us ts.now
        ≡ replace_terms (put index (shift_term 0 binders (meaning value.now))) (list_meaning ts.now)) }
{
    let mut list: Option<Vec<Term>> = None;
    for i in 0..ts.len() {
        let new = ts[i].put(alloc, index, value, binders)?;
        list = joined(alloc, ts, i, list, new)?;
    }
    shared(list)
}

#[cycle(same)]
pub(crate) fn same_all(xs: &[Term], ys: &[Term]) -> bool
    ensures { IsTrue result ↔ (list_meaning xs.now ≡ list_meaning ys.now) }
{
    if xs.len() != ys.len() {
        return false;
    }
    for i in 0..xs.len() {
        if !xs[i].same(&ys[i]) {
            return false;
        }
    }
    true
}

#[cycle(size)]
pub(crate) fn size_of_all(ts: &[Term]) -> u64
    ensures { result ≡ min (terms_nodes (list_meaning ts.now)) (2 ^ 32) }
{
    let mut size: u64 = 0;
    for t in ts {
        size = (size + t.size()).min(LIMIT);
    }
    size
}

#[cycle(height)]
pub(crate) fn height_of_all(ts: &[Term]) -> u64
    ensures { result ≡ min (terms_height (list_meaning ts.now)) (2 ^ 32) }
{
    let mut height: u64 = 0;
    for t in ts {
        height = height.max(t.height());
    }
    height
}
