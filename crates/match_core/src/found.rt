//! What is known of the open variables of a pattern while it is matched.
ghost use Rattle.std.specs.Prelude.{◌≡◌, ◌<◌, IfOk, length, map};
ghost use Rattle.match_theory.specs.Matching.{and_then, blank, chosen, give, lower};
ghost use Rattle.term_core.specs.Term.{meaning};
ghost use Rattle.match_core.specs.Tables.{choice, found_term, table, told};

use crate::change::{Change, changed};
use crate::terms::{is_moved, is_outside, or_copy};
use base_core::NoMemory;
use std::alloc::Global;
use term_core::Term;

/// A term for each open variable, from 0.
pub type Instance = Vec<Term>;

/// The term of an open variable: one that stands in the target, without the newest variables there, which are bound
/// above its place.
#[derive(Clone, Copy)]
pub struct Found<'a> {
    pub term: &'a Term,
    pub binders: u64,
}

/// Nothing is known of so many variables.
#[tactic(auto, using(crate::proofs::Known::blanks))]
pub fn blank<'a>(alloc: Global, open_vars: u64) -> Result<Vec<Option<Found<'a>>>, NoMemory>
    ensures length { IfOk result (λ v. length v.items ≡ open_vars) }
    ensures blank { IfOk result (λ v. table v.items ≡ blank open_vars) }
{
    let mut found = Vec::with_capacity(alloc, open_vars as usize)?;
    while (found.len() as u64) < open_vars {
        found.push(None)?;
    }
    Ok(found)
}

/// Nothing is known of them any more.
#[tactic(auto, using(crate::proofs::Known::blanks))]
pub fn clear(found: &mut [Option<Found<'_>>])
    ensures { table found.new ≡ blank (length found.old) }
{
    for i in 0..found.len() {
        found[i] = None;
    }
}

/// Gives a variable a term of the target under binders, if it has none yet; else tells whether it has this one. A term
/// with one of the variables that are bound there can't be given.
#[tactic(auto, using(crate::proofs::Patterns::gives))]
pub fn give<'a>(
    found: &mut [Option<Found<'a>>],
    index: usize,
    target: &'a Term,
    binders: u64,
) -> bool
    requires { index < length found.old }
    ensures { told result found.new ≡ and_then (lower binders (meaning target.now)) (λ t. give index t (table found.old)) }
{
    match found[index] {
        Some(known) => is_moved(known.term, known.binders, target, binders),
        None => {
            if !is_outside(target, binders) {
                return false;
            }
            found[index] = Some(Found {
                term: target,
                binders,
            });
            true
        }
    }
}

/// A term for each variable, the variable 0 where nothing is known.
#[tactic(auto, using(crate::proofs::Known::chosen_more))]
pub fn chosen(alloc: Global, found: &[Option<Found<'_>>]) -> Result<Instance, NoMemory>
    ensures { IfOk result (λ ts. map meaning ts.items ≡ chosen (table found.now)) }
{
    let mut terms = Vec::with_capacity(alloc, found.len())?;
    for known in found {
        terms.push(choice_of(alloc, known)?)?;
    }
    Ok(terms)
}

/// The term of a variable, the variable 0 where nothing is known.
fn choice_of(alloc: Global, known: &Option<Found<'_>>) -> Result<Term, NoMemory>
    ensures { IfOk result (λ t. meaning t ≡ choice known.now) }
{
    match known {
        None => Ok(Term::Var(0)),
        Some(found) => term_of(alloc, found),
    }
}

/// The term that was found.
#[tactic(auto, using(crate::proofs::Known::found_lowered))]
fn term_of(alloc: Global, found: &Found<'_>) -> Result<Term, NoMemory>
    ensures { IfOk result (λ t. meaning t ≡ found_term found.now) }
{
    if found.binders == 0 {
        return found.term.copy();
    }
    let new = changed(alloc, found.term, Change::Lower(found.binders), 0)?;
    or_copy(new, found.term)
}
