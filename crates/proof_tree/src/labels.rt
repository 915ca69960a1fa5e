//! Names put on the entries of a context.
ghost use Rattle.std.specs.Prelude.{◌≡◌, ◌++◌, length, map, reverse, IfOk};
ghost use Rattle.fol_theory.specs.Slots.{entries};
ghost use Rattle.logic_theory.specs.Goals.{label};
ghost use Rattle.term_core.specs.Context.{slots, slot_meaning};
ghost use Rattle.proof_tree.specs.Stacks.{renamed};

use base_core::NoMemory;
use std::alloc::Global;
use term_core::{Context, Name, Slot};

/// The entries with these names, of which the last is that of the newest. Behind the last entry that has another name
/// they are shared, and before it made anew; the formulas and the names are shared everywhere.
pub(crate) fn labelled(
    alloc: Global,
    names: &[Name],
    context: &Context,
) -> Result<Context, NoMemory>
    requires { length names.now ≡ length (slots context.now) }
    ensures { IfOk result (λ c. slots c ≡ label (reverse names.now) (entries (slots context.now))) }
{
    let mut newer: Vec<(&Slot, &Name)> = Vec::new(alloc);
    let mut anew: usize = 0;
    let mut shared = context;
    let mut left = names.len();
    let mut at = context;
    while let Some((slot, older)) = at.newest() {
        left -= 1;
        let name = &names[left];
        newer.push((slot, name))?;
        if !slot.name().same(name) {
            anew = newer.len();
            shared = older;
        }
        at = older;
    }
    newer.truncate(anew);
    push_renamed(alloc, shared, newer)
}

/// With these slots before its own, in their order, each with the name beside it.
fn push_renamed(
    alloc: Global,
    context: &Context,
    newer: Vec<(&Slot, &Name)>,
) -> Result<Context, NoMemory>
    ensures { IfOk result (λ c. slots c
        ≡ map (λ p. renamed (slot_meaning p.0.now) p.1.now) newer.entry.items ++ slots context.now) }
{
    let mut newer = newer;
    let mut made = context.copy()?;
    while let Some((slot, name)) = newer.pop() {
        made = made.push(alloc, with_name(slot, name)?)?;
    }
    Ok(made)
}

/// The same entry with another name.
fn with_name(slot: &Slot, name: &Name) -> Result<Slot, NoMemory>
    ensures { IfOk result (λ s. slot_meaning s ≡ renamed (slot_meaning slot.now) name.now) }
{
    match slot {
        Slot::Var { sort, .. } => Ok(Slot::Var {
            name: name.copy()?,
            sort: sort.copy()?,
        }),
        Slot::Hyp { formula, .. } => Ok(Slot::Hyp {
            name: name.copy()?,
            formula: formula.copy()?,
        }),
    }
}
