//! Copies of names and of rules, which share what these name.
ghost use Rattle.std.specs.Prelude.{◌≡◌, ◌++◌, map, IfOk, OnOk};
ghost use Rattle.logic_theory.specs.Rules.{Every};
ghost use Rattle.proof_tree.specs.Meaning.{meaning as rule_meaning, meanings};
ghost use Rattle.strip_core.specs.Trees.{IsOfEvidence};

use base_core::NoMemory;
use proof_tree::Rule;
use std::alloc::Global;
use term_core::{Name, Names};

/// Copies of names, in the same order.
pub(crate) fn copied_names(alloc: Global, names: &[Name]) -> Result<Names, NoMemory>
    ensures { IfOk result (λ ns. ns.items ≡ names.now) }
{
    let mut copies = Vec::new(alloc);
    for name in names {
        copies.push(name.copy()?)?;
    }
    Ok(copies)
}

/// Copies of the rules of evidence at the end of others, in the same order.
pub(crate) fn push_copies(all: &mut Vec<Rule>, rules: &[&Rule]) -> Result<(), NoMemory>
    requires { Every IsOfEvidence (meanings (map (λ r. r.now) rules.now)) }
    ensures { OnOk result (meanings all.new.items ≡ meanings all.old.items ++ meanings (map (λ r. r.now) rules.now)) }
{
    for rule in rules {
        all.push(copied(rule)?)?;
    }
    Ok(())
}

/// A copy of a rule of evidence.
fn copied(rule: &Rule) -> Result<Rule, NoMemory>
    requires { IsOfEvidence (rule_meaning rule.now) }
    ensures { IfOk result (λ r. rule_meaning r ≡ rule_meaning rule.now) }
{
    match rule {
        Rule::Hyp(number) => Ok(Rule::Hyp(*number)),
        Rule::Stated(name) => Ok(Rule::Stated(name.copy()?)),
        Rule::AllE(sort, body, t) => Ok(Rule::AllE(sort.copy()?, body.copy()?, t.copy()?)),
        Rule::ImpE(premise) => Ok(Rule::ImpE(premise.copy()?)),
        _ => unreachable!(),
    }
}
