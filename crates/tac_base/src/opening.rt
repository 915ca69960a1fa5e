//! What is made of a goal: a tree from it on, and the formulas that it puts in.
ghost use Rattle.std.specs.Prelude.{◌≡◌, [], ◌++◌, map, reverse, IfOk, OnOk};
ghost use Rattle.fol_theory.specs.Slots.{names};
ghost use Rattle.logic_theory.specs.Grafts.{graft};
ghost use Rattle.logic_theory.specs.Rules as theory;
ghost use Rattle.proof_tree.specs.Meaning.{meaning as rule_meaning, meanings, HasLeaf};
ghost use Rattle.term_core.specs.Context.{slots};
ghost use Rattle.term_core.specs.Formula.{meaning};
ghost use Rattle.tac_base.specs.Openings.{drafted, made, opening, with_formula, with_goal, with_rule};

use base_core::NoMemory;
use proof_state::names_of;
use proof_tree::{Rule, Tree};
use std::alloc::Global;
use term_core::{Context, Formula, Name, Names};

/// A tree of the kernel's rules from a goal on, whose open leaves are new goals, and the formulas that it puts in: new goal
/// by new goal, the new entries in order and then what is to be shown.
#[derive(Drop)]
pub struct Opening {
    pub tree: Tree,
    pub put_in: Vec<Formula>,
}

impl Opening {
    /// With a tree in the place of its first open leaf.
    pub fn grafted(self, alloc: Global, part: Tree) -> Result<Opening, NoMemory>
        requires { HasLeaf (opening self).rules }
        ensures { IfOk result (λ o. opening o ≡ made (graft (meanings part) (opening self).rules) (opening self).formulas) }
    {
        let mut whole = self;
        whole.tree.graft_first(alloc, part)?;
        Ok(whole)
    }
}

/// An opening of which some rules are there, in preorder.
#[derive(Drop)]
pub struct Draft {
    rules: Vec<Rule>,
    put_in: Vec<Formula>,
}

impl Draft {
    /// Nothing yet.
    pub fn new(alloc: Global) -> Draft
        ensures { drafted result ≡ made [] [] }
    {
        Draft {
            rules: Vec::new(alloc),
            put_in: Vec::new(alloc),
        }
    }

    /// A rule more.
    pub fn rule(self, rule: Rule) -> Result<Draft, NoMemory>
        ensures { IfOk result (λ d. drafted d ≡ with_rule (rule_meaning rule) (drafted self)) }
    {
        let mut draft = self;
        draft.rules.push(rule)?;
        Ok(draft)
    }

    /// The formula of a new entry of the next goal.
    pub fn entry(self, a: &Formula) -> Result<Draft, NoMemory>
        ensures { IfOk result (λ d. drafted d ≡ with_formula (meaning a.now) (drafted self)) }
    {
        let mut draft = self;
        draft.put_in.push(a.copy()?)?;
        Ok(draft)
    }

    /// A new goal in a context with entries of these names behind it, the newest last.
    pub fn leave(
        self,
        alloc: Global,
        context: &Context,
        newer: &[&Name],
        a: &Formula,
    ) -> Result<Draft, NoMemory>
        ensures { IfOk result (λ d. drafted d
            ≡ with_goal (reverse (map (λ n. n.now) newer.now)) (slots context.now) (meaning a.now) (drafted self)) }
    {
        let mut draft = self;
        draft.rules.push(leaf(alloc, context, newer)?)?;
        draft.put_in.push(a.copy()?)?;
        Ok(draft)
    }

    /// The whole.
    pub fn finish(self, alloc: Global) -> Result<Opening, NoMemory>
        ensures { IfOk result (λ o. opening o ≡ drafted self) }
    {
        let Draft { rules, put_in } = self;
        let tree = Tree::from_rules(alloc, rules)?;
        Ok(Opening { tree, put_in })
    }
}

/// An open leaf of a context with entries of these names behind it.
#[tactic(auto, using(crate::proofs::Leaves::leaf_is))]
fn leaf(alloc: Global, context: &Context, newer: &[&Name]) -> Result<Rule, NoMemory>
    ensures { IfOk result (λ r. rule_meaning r ≡ theory.leaf (reverse (map (λ n. n.now) newer.now) ++ names (slots context.now))) }
{
    let mut all = names_of(alloc, context)?;
    push_copies(&mut all, newer)?;
    Ok(Rule::Leaf(all))
}

/// Copies of names, behind others.
fn push_copies(all: &mut Names, newer: &[&Name]) -> Result<(), NoMemory>
    ensures { OnOk result (all.new.items ≡ all.old.items ++ map (λ n. n.now) newer.now) }
{
    for name in newer {
        all.push(name.copy()?)?;
    }
    Ok(())
}
