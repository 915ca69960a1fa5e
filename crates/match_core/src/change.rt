//! What becomes of terms under binders. Parts that stay are shared.
ghost use Rattle.std.specs.Prelude.{◌≡◌, IfOk, MatchOption, length, map, take};
ghost use Rattle.std.specs.Arc.{arc_slice_items};
ghost use Rattle.std.specs.Option.{option_map_or};
ghost use Rattle.fol_theory.specs.Syntax.{var};
ghost use Rattle.match_theory.specs.Instances.{fill};
ghost use Rattle.term_core.specs.Term.{meaning, list_meaning, outcome, list_outcome};
ghost use Rattle.match_core.specs.Changes.{lifted, term_changed, terms_changed, IsKept};

use crate::terms::{is_moved, or_copy, raised};
use base_core::NoMemory;
use std::alloc::Global;
use std::sync::ArcSlice;
use term_core::{Term, Terms};

/// What becomes of a term or a formula.
#[derive(Clone, Copy)]
pub enum Change<'a> {
    /// The newest variables, so many, aren't there, and the others are lowered.
    Lower(u64),
    /// A term takes the place of each of the newest variables, from 0 on, and the others are lowered.
    Fill(&'a [Term]),
    /// The first term becomes the second, wherever it stands.
    Exchange(&'a Term, &'a Term),
}

/// What becomes of a term under binders, or None where it stays.
#[cycle(change)]
#[tactic(auto, using(crate::proofs::TermChanges::changes))]
pub fn changed(
    alloc: Global,
    t: &Term,
    change: Change<'_>,
    binders: u64,
) -> Result<Option<Term>, NoMemory>
    ensures { IfOk result (λ r. outcome r t.now ≡ term_changed change.entry binders (meaning t.now)) }
{
    match exchanged(alloc, t, change, binders)? {
        Some(u) => Ok(Some(u)),
        None => match t {
            Term::Var(i) => changed_variable(alloc, *i, change, binders),
            Term::App(f, ts) => match changed_all(alloc, ts.as_slice(), change, binders)? {
                None => Ok(None),
                Some(ts) => Ok(Some(Term::App(f.copy()?, ts))),
            },
        },
    }
}

/// What takes the place of the whole term, or None where nothing does.
#[tactic(auto, using(crate::proofs::TermChanges::exchanges))]
fn exchanged(
    alloc: Global,
    t: &Term,
    change: Change<'_>,
    binders: u64,
) -> Result<Option<Term>, NoMemory>
    ensures { IfOk result (λ r. MatchOption r (IsKept change.entry binders (meaning t.now))
        (λ u. meaning u ≡ term_changed change.entry binders (meaning t.now))) }
{
    match change {
        Change::Lower(_) | Change::Fill(_) => Ok(None),
        Change::Exchange(from, to) => {
            if is_moved(from, 0, t, binders) {
                Ok(Some(raised(alloc, to, binders)?))
            } else {
                Ok(None)
            }
        }
    }
}

/// What becomes of a variable, or None where it stays.
#[tactic(auto, using(crate::proofs::TermChanges::variables))]
fn changed_variable(
    alloc: Global,
    i: u64,
    change: Change<'_>,
    binders: u64,
) -> Result<Option<Term>, NoMemory>
    requires { IsKept change binders (var i) }
    ensures { IfOk result (λ r. option_map_or meaning r (var i) ≡ term_changed change.entry binders (var i)) }
{
    match change {
        Change::Lower(by) => {
            if i < binders || by == 0 {
                Ok(None)
            } else {
                Ok(Some(Term::Var(binders + (i - binders).saturating_sub(by))))
            }
        }
        Change::Fill(terms) => filled(alloc, terms, binders, i),
        Change::Exchange(_, _) => Ok(None),
    }
}

/// What takes the place of a variable, or None where it stays.
#[tactic(auto, using(crate::proofs::TermChanges::fills))]
fn filled(alloc: Global, terms: &[Term], binders: u64, i: u64) -> Result<Option<Term>, NoMemory>
    ensures { IfOk result (λ r. option_map_or meaning r (var i) ≡ lifted binders (fill (map meaning terms.now)) i) }
{
    if terms.is_empty() || i < binders {
        return Ok(None);
    }
    let open = i - binders;
    let len = terms.len() as u64;
    if open < len {
        Ok(Some(raised(alloc, &terms[open as usize], binders)?))
    } else {
        Ok(Some(Term::Var(i - len)))
    }
}

/// What becomes of terms in order, or None where all stay.
#[cycle(change)]
pub fn changed_all(
    alloc: Global,
    ts: &[Term],
    change: Change<'_>,
    binders: u64,
) -> Result<Option<Terms>, NoMemory>
    ensures { IfOk result (λ r. list_outcome r ts.now ≡ terms_changed change.entry binders (list_meaning ts.now)) }
{
    for i in 0..ts.len() {
        if let Some(t) = changed(alloc, &ts[i], change, binders)? {
            let mut made = copies(alloc, &ts[..i], ts.len())?;
            made.push(t)?;
            return Ok(Some(changed_behind(alloc, ts, made, change, binders)?));
        }
    }
    Ok(None)
}

/// The whole list, of which the first terms have been made.
#[cycle(change)]
fn changed_behind(
    alloc: Global,
    ts: &[Term],
    first: Vec<Term>,
    change: Change<'_>,
    binders: u64,
) -> Result<Terms, NoMemory>
    requires { map meaning first.items ≡ map (term_changed change binders) (map meaning (take (length first.items) ts.now)) }
    ensures { IfOk result (λ r. list_meaning (arc_slice_items r) ≡ terms_changed change.entry binders (list_meaning ts.now)) }
{
    let mut made = first;
    for i in made.len()..ts.len() {
        let new = changed(alloc, &ts[i], change, binders)?;
        made.push(or_copy(new, &ts[i])?)?;
    }
    Ok(ArcSlice::from_vec(made)?)
}

/// Copies of terms, with room for so many in all.
fn copies(alloc: Global, ts: &[Term], room: usize) -> Result<Vec<Term>, NoMemory>
    ensures { IfOk result (λ made. map meaning made.items ≡ map meaning ts.now) }
{
    let mut made = Vec::with_capacity(alloc, room)?;
    for t in ts {
        made.push(t.copy()?)?;
    }
    Ok(made)
}
