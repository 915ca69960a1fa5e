//! What is made of well-formed formulas under so many variables. Where 64 bits don't hold the indices, it is want of
//! memory: so deep a formula, or so many variables, take more memory than there is.
ghost use Rattle.std.specs.Prelude.{◌≡◌, ◌≤◌, ◌∷◌, ℕ, List, length, IfOk};
ghost use Rattle.fol_theory.specs.Substitution as theory;
ghost use Rattle.term_core.specs.Formula.{meaning};
ghost use Rattle.term_core.specs.Term as term;
ghost use Rattle.env_theory.specs.Declarations.{Declaration};
ghost use Rattle.env_theory.specs.Typing.{HasSort, WellFormed};

use crate::indices::binder_fits;
use base_core::NoMemory;
use std::alloc::Global;
use term_core::{Formula, Term};

/// The body of a quantifier with a term for its variable.
#[tactic(auto, using(crate::proofs::Depths::instance_is))]
pub fn instantiate(
    alloc: Global,
    variables: u64,
    body: &Formula,
    t: &Term,
) -> Result<Formula, NoMemory>
    requires { (E : List Declaration) × (V : List (List ℕ)) × (s : List ℕ) × WellFormed E (s ∷ V) (meaning body.now)
        × HasSort E V (term.meaning t.now) s × (length V ≤ variables) }
    ensures { IfOk result (λ f. meaning f ≡ theory.instantiate (meaning body.now) (term.meaning t.now)) }
{
    binder_fits(variables, body)?;
    body.substitute(alloc, 0, t)
}

/// The formula as it stands under newer variables, of which `variables` counts all.
pub fn shifted(alloc: Global, variables: u64, a: &Formula, newer: u64) -> Result<Formula, NoMemory>
    requires { (E : List Declaration) × (V : List (List ℕ)) × WellFormed E V (theory.shift 0 newer (meaning a.now))
        × (length V ≤ variables) }
    ensures { IfOk result (λ f. meaning f ≡ theory.shift 0 newer (meaning a.now)) }
{
    binder_fits(variables, a)?;
    a.shift(alloc, 0, newer)
}
