//! The formulas that rules make of those that they name.
ghost use Rattle.std.specs.Prelude.{◌≡◌, IfOk};
ghost use Rattle.fol_theory.specs.Syntax as theory;
ghost use Rattle.term_core.specs.Formula.{meaning};
ghost use Rattle.term_core.specs.Term as term;
ghost use Rattle.logic_theory.specs.Rules.{plain};

use base_core::NoMemory;
use std::alloc::Global;
use std::sync::Arc;
use term_core::{Formula, Name, Term};

/// Both of two formulas.
#[tactic(auto, using(term_core::proofs::Variants::meanings))]
pub fn both(alloc: Global, a: &Formula, b: &Formula) -> Result<Formula, NoMemory>
    ensures { IfOk result (λ f. meaning f ≡ theory.both (meaning a.now) (meaning b.now)) }
{
    let left = Arc::new(alloc, a.copy()?)?;
    Ok(Formula::And(left, Arc::new(alloc, b.copy()?)?))
}

/// One of two formulas.
#[tactic(auto, using(term_core::proofs::Variants::meanings))]
pub fn either(alloc: Global, a: &Formula, b: &Formula) -> Result<Formula, NoMemory>
    ensures { IfOk result (λ f. meaning f ≡ theory.either (meaning a.now) (meaning b.now)) }
{
    let left = Arc::new(alloc, a.copy()?)?;
    Ok(Formula::Or(left, Arc::new(alloc, b.copy()?)?))
}

/// One formula implies another.
#[tactic(auto, using(term_core::proofs::Variants::meanings))]
pub fn implies(alloc: Global, a: &Formula, b: &Formula) -> Result<Formula, NoMemory>
    ensures { IfOk result (λ f. meaning f ≡ theory.implies (meaning a.now) (meaning b.now)) }
{
    let left = Arc::new(alloc, a.copy()?)?;
    Ok(Formula::Imp(left, Arc::new(alloc, b.copy()?)?))
}

/// A body for all of a sort.
#[tactic(auto, using(term_core::proofs::Variants::meanings))]
pub fn for_all(alloc: Global, sort: &Name, body: &Formula) -> Result<Formula, NoMemory>
    ensures { IfOk result (λ f. meaning f ≡ theory.all sort.now plain (meaning body.now)) }
{
    let name = Name::from_slice(alloc, b"x")?;
    Ok(Formula::All(sort.copy()?, name, Arc::new(alloc, body.copy()?)?))
}

/// A body for one of a sort.
#[tactic(auto, using(term_core::proofs::Variants::meanings))]
pub fn for_one(alloc: Global, sort: &Name, body: &Formula) -> Result<Formula, NoMemory>
    ensures { IfOk result (λ f. meaning f ≡ theory.ex sort.now plain (meaning body.now)) }
{
    let name = Name::from_slice(alloc, b"x")?;
    Ok(Formula::Ex(sort.copy()?, name, Arc::new(alloc, body.copy()?)?))
}

/// Two terms of a sort are equal.
#[tactic(auto, using(term_core::proofs::Variants::meanings))]
pub fn equal(sort: &Name, t: &Term, u: &Term) -> Result<Formula, NoMemory>
    ensures { IfOk result (λ f. meaning f ≡ theory.equal sort.now (term.meaning t.now) (term.meaning u.now)) }
{
    Ok(Formula::Eq(sort.copy()?, t.copy()?, u.copy()?))
}
