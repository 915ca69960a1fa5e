//! Contexts and sequents.
ghost use Rattle.std.specs.Prelude.{◌≡◌, ◌≤◌, [], ◌∷◌, ◌++◌, map, IfOk, IfSome, List, MatchOption};
ghost use Rattle.fol_theory.specs.Contexts.{count, Entry, IsHypothesis};
ghost use Rattle.fol_theory.specs.Slots.{entries, slots_without, from_name};
ghost use Rattle.fol_theory.specs.Substitution.{shift};
ghost use Rattle.term_core.specs.Context.{slot_meaning, slots, meaning, Stands};
ghost use Rattle.term_core.specs.Formula as formula;

use crate::{Formula, Name};
use base_core::NoMemory;
use std::alloc::Global;
use std::marker::Model;
use std::sync::Arc;

/// A variable or a hypothesis of a context. The formula of a hypothesis counts the variables of the older slots,
/// from the newest of them on.
#[derive(Drop)]
pub enum Slot {
    Var { name: Name, sort: Name },
    Hyp { name: Name, formula: Formula },
}

/// A slot over the older ones, and how many hypotheses they are together.
#[cycle(context)]
#[derive(Drop)]
pub struct Layer {
    slot: Slot,
    older: Context,
    hypotheses: u64,
}

impl Model for Layer {
    ghost use Rattle.std.specs.Prelude.{◌≡◌, ◌∷◌, List, length};
    ghost use Rattle.fol_theory.specs.Slots.{Slot};

    ghost Value = { List Slot };

    ghost use Rattle.term_core.specs.Codes.{coded_slots};

    ghost coded = { coded_slots };

    ghost use Rattle.fol_theory.specs.Contexts.{count};
    ghost use Rattle.fol_theory.specs.Slots.{entries};
    ghost use Rattle.term_core.specs.Slots.{slot_meaning, slots};

    ghost view = { λ l. slot_meaning l.slot ∷ slots l.older };

    ghost invariant = { λ l. l.hypotheses ≡ count (entries (slot_meaning l.slot ∷ slots l.older)) };

    ghost size = { length };

    ghost use Rattle.std.proofs.Common.{arith};

    ghost size_decreases = { λ l h. Prim.grind arith };
}

/// Slots, the newest first. What is pushed shares the older slots with every other holder. It may be as long as a
/// document: walk over it by a loop (`newest`), for a call in a call takes stack for each slot.
#[cycle(context)]
pub enum Context {
    Empty,
    Pushed(Arc<Layer>),
}

/// A goal in a context, whose variables it counts from the newest of all on.
#[derive(Drop)]
pub struct Sequent {
    pub context: Context,
    pub goal: Formula,
}

/// Slot by slot, so that a long context takes no stack.
impl Drop for Context {
    fn drop(mut self) {
        loop {
            match self {
                Context::Empty => return,
                Context::Pushed(layer) => match Arc::into_inner(layer) {
                    Some(Layer { slot, older, .. }) => {
                        drop(slot);
                        self = older;
                    }
                    None => return,
                },
            }
        }
    }
}

impl Slot {
    /// An equal slot, which shares the names and the formula's parts.
    pub fn copy(&self) -> Result<Slot, NoMemory>
        ensures { IfOk result (λ s. slot_meaning s ≡ slot_meaning self.now) }
    {
        match self {
            Slot::Var { name, sort } => Ok(Slot::Var {
                name: name.copy()?,
                sort: sort.copy()?,
            }),
            Slot::Hyp { name, formula } => Ok(Slot::Hyp {
                name: name.copy()?,
                formula: formula.copy()?,
            }),
        }
    }

    /// How many hypotheses there are with it, where there are so many without it.
    fn counted(&self, older: u64) -> Result<u64, NoMemory>
        ensures { IfOk result (λ n. (c : List Entry) → older ≡ count c → n ≡ count ((slot_meaning self.now).entry ∷ c)) }
    {
        match self {
            Slot::Var { .. } => Ok(older),
            Slot::Hyp { .. } => older.checked_add(1).ok_or(NoMemory),
        }
    }

    /// Its name.
    pub fn name(&self) -> &Name
        ensures { result.now ≡ (slot_meaning self.now).name }
    {
        match self {
            Slot::Var { name, .. } | Slot::Hyp { name, .. } => name,
        }
    }
}

impl Context {
    /// The same slots, all shared. It takes no memory and a constant time.
    #[tactic(auto, using(crate::proofs::Layers::layers))]
    pub fn copy(&self) -> Result<Context, NoMemory>
        ensures { IfOk result (λ c. slots c ≡ slots self.now) }
    {
        match self {
            Context::Empty => Ok(Context::Empty),
            Context::Pushed(layer) => Ok(Context::Pushed(layer.clone()?)),
        }
    }

    /// With one slot more, which is the newest. `NoMemory` also where 64 bits don't hold the number of hypotheses.
    #[tactic(auto, using(crate::proofs::Layers::layers))]
    pub fn push(self, alloc: Global, slot: Slot) -> Result<Context, NoMemory>
        ensures { IfOk result (λ c. slots c ≡ slot_meaning slot ∷ slots self) }
    {
        let hypotheses = slot.counted(self.count())?;
        let layer = Layer {
            slot,
            older: self,
            hypotheses,
        };
        Ok(Context::Pushed(Arc::new(alloc, layer)?))
    }

    /// The newest slot, and the older ones; None where there is no slot.
    #[tactic(auto, using(crate::proofs::Layers::layers))]
    pub fn newest(&self) -> Option<(&Slot, &Context)>
        ensures { MatchOption result (slots self.now ≡ []) (λ p. slots self.now ≡ slot_meaning p.0.now ∷ slots p.1.now) }
    {
        match self {
            Context::Empty => None,
            Context::Pushed(layer) => Some((&layer.slot, &layer.older)),
        }
    }

    /// The newest slot of that name, and the older ones; None where no slot has the name.
    #[tactic(auto, using(crate::proofs::Layers::layers))]
    pub fn find(&self, name: &Name) -> Option<(&Slot, &Context)>
        ensures { MatchOption result (from_name name.now (slots self.now) ≡ [])
            (λ p. from_name name.now (slots self.now) ≡ slot_meaning p.0.now ∷ slots p.1.now) }
    {
        let mut at = self;
        while let Context::Pushed(layer) = at {
            if layer.slot.name() == name {
                return Some((&layer.slot, &layer.older));
            }
            at = &layer.older;
        }
        None
    }

    /// How many hypotheses there are. It is kept with each slot, and nothing is gone through.
    #[tactic(auto, using(crate::proofs::Layers::layers))]
    pub fn count(&self) -> u64
        ensures { result ≡ count (entries (slots self.now)) }
    {
        match self {
            Context::Empty => 0,
            Context::Pushed(layer) => layer.hypotheses,
        }
    }

    /// The hypothesis with this number, counted from the oldest, from 0, as it stands in its slot, and the number of
    /// variables that are newer: it is to be shifted by them where it is used. None where there is no such number.
    /// `NoMemory` comes only where 64 bits don't hold the number of variables. Only the newer slots are gone through.
    #[tactic(auto, using(crate::proofs::Layers::layers))]
    pub fn hypothesis(&self, number: u64) -> Result<Option<(&Formula, u64)>, NoMemory>
        ensures numbered { IfOk result (λ r. MatchOption r (count (entries (slots self.now)) ≤ number)
            (λ p. IsHypothesis (entries (slots self.now)) number (shift 0 p.1 (formula.meaning p.0.now)))) }
        ensures placed { IfOk result (λ r. IfSome r (λ p. Stands (entries (slots self.now)) number (formula.meaning p.0.now) p.1)) }
    {
        let mut left = self.count();
        if left <= number {
            return Ok(None);
        }
        let mut newer: u64 = 0;
        let mut at = self;
        while let Context::Pushed(layer) = at {
            match &layer.slot {
                Slot::Var { .. } => newer = newer.checked_add(1).ok_or(NoMemory)?,
                Slot::Hyp { formula, .. } => {
                    left -= 1;
                    if left == number {
                        return Ok(Some((formula, newer)));
                    }
                }
            }
            at = &layer.older;
        }
        Ok(None)
    }

    /// Without the hypothesis with this number, counted from the oldest, from 0; the same where there is no such
    /// number. The slots that are newer than it are made anew, the older ones shared.
    #[tactic(auto, using(crate::proofs::Layers::layers))]
    pub fn without(&self, alloc: Global, number: u64) -> Result<Context, NoMemory>
        ensures { IfOk result (λ c. slots c ≡ slots_without (slots self.now) number) }
    {
        let mut left = self.count();
        let mut newer: Vec<&Slot> = Vec::new(alloc);
        let mut at = self;
        while let Context::Pushed(layer) = at {
            if let Slot::Hyp { .. } = &layer.slot {
                left -= 1;
                if left == number {
                    return layer.older.copy()?.push_all(alloc, newer);
                }
            }
            newer.push(&layer.slot)?;
            at = &layer.older;
        }
        self.copy()
    }

    /// With these slots before its own, in their order.
    fn push_all(self, alloc: Global, newer: Vec<&Slot>) -> Result<Context, NoMemory>
        ensures { IfOk result (λ c. slots c ≡ map (λ s. slot_meaning s.now) newer.entry.items ++ slots self) }
    {
        let mut newer = newer;
        let mut context = self;
        while let Some(slot) = newer.pop() {
            context = context.push(alloc, slot.copy()?)?;
        }
        Ok(context)
    }
}

impl Sequent {
    /// An equal sequent with the same names, all shared.
    pub fn copy(&self) -> Result<Sequent, NoMemory>
        ensures context { IfOk result (λ s. slots s.context ≡ slots self.now.context) }
        ensures meaning { IfOk result (λ s. meaning s ≡ meaning self.now) }
    {
        Ok(Sequent {
            context: self.context.copy()?,
            goal: self.goal.copy()?,
        })
    }
}
