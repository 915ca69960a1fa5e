//! Trees.
ghost use Rattle.std.specs.Prelude.{◌≡◌, ◌↔◌, List, [], ◌∷◌, ◌++◌, map, IfOk, IsTrue, IsFalse, OnOk, OnErr, MatchOption};
ghost use Rattle.std.specs.Arc.{arc_value};
ghost use Rattle.logic_theory.specs.Grafts.{graft};
ghost use Rattle.proof_tree.specs.Meaning.{meaning, meanings, HasLeaf, IsLeaf, IsStep};
ghost use Rattle.proof_tree.specs.declared.rule.Rule.{Rule};
ghost use Rattle.proof_tree.specs.Chains.{linked, onto, AreSteps, BeginsOpen};

use crate::Rule;
use crate::chain::Chain;
use base_core::NoMemory;
use std::alloc::Global;
use std::marker::Model;
use std::sync::Arc;

/// Rules in preorder, open leaves among them. Contracts see the list of them.
///
/// `closed` has the rules before the first leaf, the last of them first, and `open` that leaf and what follows.
#[derive(Drop)]
pub struct Tree {
    closed: Chain,
    open: Chain,
}

impl Model for Tree {
    ghost use Rattle.std.specs.Prelude.{List};
    ghost use Rattle.std.specs.Coded.{codes};
    ghost use Rattle.term_core.specs.contracts.formula.Formula as formula;
    ghost use Rattle.term_core.specs.contracts.term.Term as term;
    ghost use Rattle.proof_tree.specs.declared.rule.Rule.{Rule};

    ghost Value = { List Rule };

    ghost coded = { Prim.hlevel (codes, formula.the_row.coded, term.the_row.coded) };

    ghost use Rattle.proof_tree.specs.Chains.{linked, onto, AreSteps, BeginsOpen};

    ghost view = { λ t. onto (linked t.closed) (linked t.open) };

    ghost invariant = { λ t. AreSteps (linked t.closed) × BeginsOpen (linked t.open) };
}

impl Tree {
    /// The tree of these rules, which stand in preorder.
    pub fn from_rules(alloc: Global, rules: Vec<Rule>) -> Result<Tree, NoMemory>
        ensures { IfOk result (λ t. t ≡ rules.items) }
    {
        let all = chain_of(alloc, rules)?;
        settled(alloc, Chain::End, all)
    }

    /// An equal tree, which shares the rules: a count or two.
    pub fn copy(&self) -> Result<Tree, NoMemory>
        ensures { IfOk result (λ t. t ≡ self.now) }
    {
        Ok(Tree {
            closed: self.closed.copy()?,
            open: self.open.copy()?,
        })
    }

    /// Whether there is an open leaf.
    #[tactic(auto, using(crate::proofs::Links::links))]
    pub fn has_leaf(&self) -> bool
        ensures { IsTrue result ↔ HasLeaf (meanings self.now) }
    {
        match &self.open {
            Chain::End => false,
            Chain::Then(_) => true,
        }
    }

    /// Puts the part in the place of the first leaf. On `NoMemory` the tree is as it was.
    #[tactic(auto, using(crate::proofs::Links::links))]
    pub fn graft_first(&mut self, alloc: Global, part: Tree) -> Result<(), NoMemory>
        requires leaf { HasLeaf (meanings self.old) }
        ensures ok { OnOk result (meanings self.new ≡ graft (meanings part) (meanings self.old)) }
        ensures err { OnErr result (self.new ≡ self.old) }
    {
        let rest = behind_first(&self.open)?;
        let closed = self.closed.copy()?.push_all(alloc, &part.closed)?;
        let opened = rest.push_all(alloc, &part.open)?;
        *self = settled(alloc, closed, opened)?;
        Ok(())
    }

    /// The rules in preorder.
    pub fn rules(&self, alloc: Global) -> Result<Vec<&Rule>, NoMemory>
        ensures { IfOk result (λ rs. map (λ r. r.now) rs.items ≡ self.now) }
    {
        let mut all = collected(Vec::new(alloc), &self.closed)?;
        all.reverse();
        let whole = collected(all, &self.open)?;
        Ok(whole)
    }
}

/// These rules, and behind them those of a chain.
#[tactic(auto, using(crate::proofs::Links::links))]
fn collected<'a>(all: Vec<&'a Rule>, chain: &'a Chain) -> Result<Vec<&'a Rule>, NoMemory>
    ensures { IfOk result (λ rs. map (λ r. r.now) rs.items ≡ map (λ r. r.now) all.entry.items ++ linked chain.now) }
{
    let mut all = all;
    let mut at = chain;
    while let Chain::Then(link) = at {
        all.push(&*link.rule)?;
        at = &link.next;
    }
    Ok(all)
}

/// A chain of these rules.
fn chain_of(alloc: Global, rules: Vec<Rule>) -> Result<Chain, NoMemory>
    ensures { IfOk result (λ c. linked c ≡ rules.items) }
{
    let mut rules = rules;
    let mut chain = Chain::End;
    while let Some(rule) = pop_shared(alloc, &mut rules)? {
        chain = chain.push(alloc, rule)?;
    }
    Ok(chain)
}

/// Takes off the last rule, if there is one.
fn pop_shared(alloc: Global, rules: &mut Vec<Rule>) -> Result<Option<Arc<Rule>>, NoMemory>
    ensures { IfOk result (λ r. MatchOption r (rules.old.items ≡ []) (λ a. rules.old.items ≡ rules.new.items ++ arc_value a ∷ [])) }
{
    match rules.pop() {
        None => Ok(None),
        Some(rule) => Ok(Some(Arc::new(alloc, rule)?)),
    }
}

/// What follows the first rule.
#[tactic(auto, using(crate::proofs::Links::links))]
fn behind_first(rest: &Chain) -> Result<Chain, NoMemory>
    ensures { IfOk result (λ c. (r : Rule) (rs : List Rule) → linked rest.now ≡ r ∷ rs → linked c ≡ rs) }
{
    match rest {
        Chain::End => Ok(Chain::End),
        Chain::Then(link) => link.next.copy(),
    }
}

/// The tree of the rules of `closed`, the last of them first, and then those of `rest`.
#[tactic(auto, using(crate::proofs::Links::links))]
fn settled(alloc: Global, closed: Chain, rest: Chain) -> Result<Tree, NoMemory>
    requires { AreSteps (linked closed) }
    ensures { IfOk result (λ t. t ≡ onto (linked closed) (linked rest)) }
{
    let mut closed = closed;
    let mut rest = rest;
    while let Some((rule, next)) = first_step(&rest)? {
        closed = closed.push(alloc, rule)?;
        rest = next;
    }
    Ok(Tree { closed, open: rest })
}

/// The first rule and what follows, unless there is none or it is a leaf.
#[tactic(auto, using(crate::proofs::Links::links))]
fn first_step(rest: &Chain) -> Result<Option<(Arc<Rule>, Chain)>, NoMemory>
    ensures { IfOk result (λ r. MatchOption r (BeginsOpen (linked rest.now))
        (λ p. IsStep (meaning (arc_value p.0)) × (linked rest.now ≡ arc_value p.0 ∷ linked p.1))) }
{
    match rest {
        Chain::End => Ok(None),
        Chain::Then(link) => {
            if is_leaf(&link.rule) {
                return Ok(None);
            }
            Ok(Some((link.rule.clone()?, link.next.copy()?)))
        }
    }
}

/// Whether the rule is an open leaf.
fn is_leaf(rule: &Rule) -> bool
    ensures leaf { IsTrue result → IsLeaf (meaning rule.now) }
    ensures step { IsFalse result → IsStep (meaning rule.now) }
{
    match rule {
        Rule::Leaf(_) => true,
        _ => false,
    }
}
