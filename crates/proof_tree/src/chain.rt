//! Shared lists of rules.
ghost use Rattle.std.specs.Prelude.{◌≡◌, [], ◌∷◌, ◌++◌, map, IfOk};
ghost use Rattle.std.specs.Arc.{arc_value};
ghost use Rattle.proof_tree.specs.Chains.{linked};

use crate::Rule;
use base_core::NoMemory;
use std::alloc::Global;
use std::sync::Arc;

/// A list of rules, of which each end is shared with other holders.
pub(crate) enum Chain {
    End,
    Then(Arc<Link<Chain>>),
}

/// A rule with what follows it.
#[derive(Drop)]
pub(crate) struct Link<C> {
    pub(crate) rule: Arc<Rule>,
    pub(crate) next: C,
}

/// Link by link, so that a long list takes no stack.
impl Drop for Chain {
    fn drop(mut self) {
        loop {
            match self {
                Chain::End => return,
                Chain::Then(link) => match Arc::into_inner(link) {
                    Some(Link { rule, next }) => {
                        drop(rule);
                        self = next;
                    }
                    None => return,
                },
            }
        }
    }
}

impl Chain {
    /// The same rules, all shared.
    #[tactic(auto, using(crate::proofs::Links::links))]
    pub(crate) fn copy(&self) -> Result<Chain, NoMemory>
        ensures { IfOk result (λ c. linked c ≡ linked self.now) }
    {
        match self {
            Chain::End => Ok(Chain::End),
            Chain::Then(link) => Ok(Chain::Then(link.clone()?)),
        }
    }

    /// With a rule before the others.
    #[tactic(auto, using(crate::proofs::Links::links))]
    pub(crate) fn push(self, alloc: Global, rule: Arc<Rule>) -> Result<Chain, NoMemory>
        ensures { IfOk result (λ c. linked c ≡ arc_value rule ∷ linked self) }
    {
        Ok(Chain::Then(Arc::new(alloc, Link { rule, next: self })?))
    }

    /// With the rules of another before its own, in their order.
    #[tactic(auto, using(crate::proofs::Links::links))]
    pub(crate) fn push_all(self, alloc: Global, first: &Chain) -> Result<Chain, NoMemory>
        ensures { IfOk result (λ c. linked c ≡ linked first.now ++ linked self) }
    {
        let mut rules: Vec<&Arc<Rule>> = Vec::new(alloc);
        let mut at = first;
        while let Chain::Then(link) = at {
            rules.push(&link.rule)?;
            at = &link.next;
        }
        self.push_each(alloc, rules)
    }

    /// With these rules before its own, in their order.
    fn push_each(self, alloc: Global, rules: Vec<&Arc<Rule>>) -> Result<Chain, NoMemory>
        ensures { IfOk result (λ c. linked c ≡ map (λ r. arc_value r.now) rules.entry.items ++ linked self) }
    {
        let mut rules = rules;
        let mut chain = self;
        while let Some(rule) = rules.pop() {
            chain = chain.push(alloc, rule.clone()?)?;
        }
        Ok(chain)
    }
}
