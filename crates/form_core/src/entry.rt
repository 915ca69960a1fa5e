//! Contexts with one entry more, which has no name: well-formedness doesn't look at names; and how many variables one has.
ghost use Rattle.std.specs.Prelude.{◌≡◌, ◌<◌, ◌^◌, [], ◌∷◌, length, IfOk, IsOk};
ghost use Rattle.fol_theory.specs.Contexts.{hypothesis, variable, variables};
ghost use Rattle.fol_theory.specs.Slots.{entries, slot};
ghost use Rattle.term_core.specs.Context.{slot_meaning, slots};
ghost use Rattle.term_core.specs.Formula.{meaning};

use base_core::NoMemory;
use std::alloc::Global;
use term_core::{Context, Formula, Name, Slot};

/// A variable without a name.
fn variable_slot(alloc: Global, sort: &Name) -> Result<Slot, NoMemory>
    ensures { IfOk result (λ s. slot_meaning s ≡ slot [] (variable sort.now)) }
{
    let name = Name::from_slice(alloc, &[])?;
    Ok(Slot::Var {
        name,
        sort: sort.copy()?,
    })
}

/// One variable more, which has no name.
pub fn with_variable(alloc: Global, context: &Context, sort: &Name) -> Result<Context, NoMemory>
    ensures { IfOk result (λ c. slots c ≡ slot [] (variable sort.now) ∷ slots context.now) }
{
    let older = context.copy()?;
    older.push(alloc, variable_slot(alloc, sort)?)
}

/// A hypothesis without a name.
fn hypothesis_slot(alloc: Global, a: &Formula) -> Result<Slot, NoMemory>
    ensures { IfOk result (λ s. slot_meaning s ≡ slot [] (hypothesis (meaning a.now))) }
{
    let name = Name::from_slice(alloc, &[])?;
    Ok(Slot::Hyp {
        name,
        formula: a.copy()?,
    })
}

/// One hypothesis more, which has no name.
pub fn with_hypothesis(alloc: Global, context: &Context, a: &Formula) -> Result<Context, NoMemory>
    ensures { IfOk result (λ c. slots c ≡ slot [] (hypothesis (meaning a.now)) ∷ slots context.now) }
{
    let older = context.copy()?;
    older.push(alloc, hypothesis_slot(alloc, a)?)
}

/// How many variables there are. `NoMemory` where they are 2^64 or more.
pub fn count_variables(context: &Context) -> Result<u64, NoMemory>
    ensures count { IfOk result (λ n. n ≡ length (variables (entries (slots context.now)))) }
    ensures counted { length (variables (entries (slots context.now))) < 2 ^ 64 → IsOk result }
{
    let mut n: u64 = 0;
    let mut at = context;
    while let Some((slot, older)) = at.newest() {
        if let Slot::Var { .. } = slot {
            n = n.checked_add(1).ok_or(NoMemory)?;
        }
        at = older;
    }
    Ok(n)
}
