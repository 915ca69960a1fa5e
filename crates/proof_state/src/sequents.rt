//! Shared lists of sequents.
ghost use Rattle.std.specs.Prelude.{◌≡◌, [], ◌∷◌, ◌++◌, map, IfOk, MatchOption};
ghost use Rattle.proof_tree.specs.Places.{goal_of};
ghost use Rattle.tactic_theory.specs.States.{is_empty};
ghost use Rattle.proof_state.specs.Sequents.{goals_in};

use base_core::NoMemory;
use std::alloc::Global;
use std::sync::Arc;
use term_core::Sequent;

/// Sequents in order. What stands behind the first is shared with every other holder. There may be as many as a
/// document has sentences: walk over them by a loop (`first`).
pub enum Sequents {
    Empty,
    Listed(Arc<Item<Sequents>>),
}

/// A sequent with those behind it.
#[derive(Drop)]
pub struct Item<S> {
    sequent: Sequent,
    rest: S,
}

/// Sequent by sequent, so that a long list takes no stack.
impl Drop for Sequents {
    fn drop(mut self) {
        loop {
            match self {
                Sequents::Empty => return,
                Sequents::Listed(item) => match Arc::into_inner(item) {
                    Some(Item { sequent, rest }) => {
                        drop(sequent);
                        self = rest;
                    }
                    None => return,
                },
            }
        }
    }
}

impl Sequents {
    /// The same sequents, all shared. It takes no memory and a constant time.
    #[tactic(auto, using(crate::proofs::Items::items))]
    pub fn copy(&self) -> Result<Sequents, NoMemory>
        ensures { IfOk result (λ s. goals_in s ≡ goals_in self.now) }
    {
        match self {
            Sequents::Empty => Ok(Sequents::Empty),
            Sequents::Listed(item) => Ok(Sequents::Listed(item.clone()?)),
        }
    }

    /// The first sequent, and those behind it; None where there is none.
    #[tactic(auto, using(crate::proofs::Items::items))]
    pub fn first(&self) -> Option<(&Sequent, &Sequents)>
        ensures { MatchOption result (goals_in self.now ≡ []) (λ p. goals_in self.now ≡ goal_of p.0.now ∷ goals_in p.1.now) }
    {
        match self {
            Sequents::Empty => None,
            Sequents::Listed(item) => Some((&item.sequent, &item.rest)),
        }
    }

    /// Whether there is none.
    #[tactic(auto, using(crate::proofs::Items::items))]
    pub fn is_empty(&self) -> bool
        ensures { result ≡ is_empty (goals_in self.now) }
    {
        match self {
            Sequents::Empty => true,
            Sequents::Listed(_) => false,
        }
    }

    /// With one sequent more, which is the first.
    #[tactic(auto, using(crate::proofs::Items::items))]
    pub(crate) fn push(self, alloc: Global, sequent: Sequent) -> Result<Sequents, NoMemory>
        ensures { IfOk result (λ s. goals_in s ≡ goal_of sequent ∷ goals_in self) }
    {
        let item = Item {
            sequent,
            rest: self,
        };
        Ok(Sequents::Listed(Arc::new(alloc, item)?))
    }

    /// With these before its own, in their order.
    pub(crate) fn push_all(self, alloc: Global, first: Vec<Sequent>) -> Result<Sequents, NoMemory>
        ensures { IfOk result (λ s. goals_in s ≡ map goal_of first.items ++ goals_in self) }
    {
        let mut first = first;
        let mut all = self;
        while let Some(sequent) = first.pop() {
            all = all.push(alloc, sequent)?;
        }
        Ok(all)
    }
}
