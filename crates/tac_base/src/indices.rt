//! That 64 bits hold the indices of what the rules of a tree make.
ghost use Rattle.std.specs.Prelude.{◌≡◌, ◌+◌, ◌<◌, ◌≤◌, ◌^◌, [], ◌∷◌, List, length, map, IfOk, IsTrue};
ghost use Rattle.fol_theory.specs.Contexts.{Sequent as Place, variables};
ghost use Rattle.fol_theory.specs.Measures.{depth};
ghost use Rattle.env_theory.specs.Declarations.{Declaration};
ghost use Rattle.logic_theory.specs.Rules.{Follows, Formed};
ghost use Rattle.proof_tree.specs.Bounds.{AreBelow};
ghost use Rattle.proof_tree.specs.Meaning.{meaning as rule_meaning, meanings};
ghost use Rattle.proof_tree.specs.Places.{AtPlaces, IndicesFit};
ghost use Rattle.term_core.specs.Formula.{meaning};
ghost use Rattle.tac_base.specs.Low.{IsLow};

use base_core::NoMemory;
use proof_tree::{Rule, Tree};
use std::alloc::Global;
use term_core::Formula;

/// Where counted heights stop.
const LIMIT: u64 = 1 << 32;

/// That no index passes along the rules of a tree for a goal, where the tree follows the kernel's rules from it and no more
/// than so many variables are there. `NoMemory` where a formula is 2^32 nodes high, or there are as many variables or rules.
pub(crate) fn indices_fit(
    alloc: Global,
    most: u64,
    goal: &Formula,
    tree: &Tree,
) -> Result<(), NoMemory>
    ensures { IfOk result (λ _. (E : List Declaration) (p : Place) → p.goal ≡ meaning goal.now → length (variables p.context) ≤ most
        → Formed E p → Follows E (meanings tree.now) (p ∷ []) → AtPlaces IndicesFit (meanings tree.now) (p ∷ [])) }
{
    let rules = tree.rules(alloc)?;
    if !is_low(goal) {
        return Err(NoMemory);
    }
    if !are_low(&rules) {
        return Err(NoMemory);
    }
    room(most, rules.len() as u64)?;
    Ok(())
}

/// That so many variables and rules leave room for binders.
fn room(variables: u64, rules: u64) -> Result<(), NoMemory>
    ensures { IfOk result (λ _. variables + rules + 2 ^ 32 < 2 ^ 64) }
{
    if variables >= LIMIT || rules >= LIMIT {
        return Err(NoMemory);
    }
    Ok(())
}

/// Whether binders in the formulas of these rules go less than 2^32 deep.
#[tactic(auto, using(crate::proofs::Bounded::one_low))]
fn are_low(rules: &[&Rule]) -> bool
    ensures { IsTrue result → AreBelow (2 ^ 32) (meanings (map (λ r. r.now) rules.now)) }
{
    for i in 0..rules.len() {
        if !is_low_rule(rules[i]) {
            return false;
        }
    }
    true
}

/// Whether binders in the formulas that a rule names go less than 2^32 deep.
fn is_low_rule(rule: &Rule) -> bool
    ensures { IsTrue result → IsLow (2 ^ 32) (rule_meaning rule.now) }
{
    match rule {
        Rule::AndI(a, b) => both_low(a, b),
        Rule::AndE(a, b) => both_low(a, b),
        Rule::OrI1(a, b) => both_low(a, b),
        Rule::OrI2(a, b) => both_low(a, b),
        Rule::OrE(a, b) => both_low(a, b),
        Rule::ImpI(a, b) => both_low(a, b),
        Rule::ImpE(a) => is_low(a),
        Rule::AllI(_, a) => is_low(a),
        Rule::AllE(_, a, _) => is_low(a),
        Rule::ExI(_, a, _) => is_low(a),
        Rule::ExE(_, a) => is_low(a),
        Rule::EqE(_, a, _, _) => is_low(a),
        Rule::Cut(a) => is_low(a),
        Rule::Conv(a) => is_low(a),
        Rule::Leaf(_)
        | Rule::Hyp(_)
        | Rule::Stated(_)
        | Rule::TrueI
        | Rule::FalseE
        | Rule::EqI(_, _)
        | Rule::Drop(_) => true,
    }
}

/// Whether binders in two formulas go less than 2^32 deep.
fn both_low(a: &Formula, b: &Formula) -> bool
    ensures { IsTrue result → (depth (meaning a.now) < 2 ^ 32) × (depth (meaning b.now) < 2 ^ 32) }
{
    is_low(a) && is_low(b)
}

/// Whether binders in a formula go less than 2^32 deep.
#[tactic(auto, using(form_core::proofs::Depths::depth_counted))]
fn is_low(a: &Formula) -> bool
    ensures { IsTrue result → depth (meaning a.now) < 2 ^ 32 }
{
    a.height() < LIMIT
}
