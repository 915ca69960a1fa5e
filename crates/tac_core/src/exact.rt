//! Rows that leave nothing open.
ghost use Rattle.std.specs.Prelude.{[], ◌&&◌, Bool, IfOk, IsTrue, ◌↔◌};
ghost use Rattle.fol_theory.specs.Contexts.{variables};
ghost use Rattle.fol_theory.specs.Slots.{entries};
ghost use Rattle.fol_theory.specs.Substitution.{shift};
ghost use Rattle.term_core.specs.Formula.{meaning};
ghost use Rattle.env_theory.specs.Normal.{Same};
ghost use Rattle.env_theory.specs.Typing.{WellFormed};
ghost use Rattle.vern_parse.specs.Meaning.{expression};
ghost use Rattle.vern_sentence.specs.Trees.{by_hypothesis, exact};
ghost use Rattle.tactic_theory.specs.Evidence.{is_same as theory_is_same, Evidence as Written};
ghost use Rattle.tactic_theory.specs.Refinements.{if_met};
ghost use Rattle.tac_base.specs.Given.{IsGiven};
ghost use Rattle.tac_base.specs.Openings.{Answers};
ghost use Rattle.tac_base.specs.Sites.{env_of, goal_at, IsReady};
ghost use Rattle.tac_base.specs.Steps.{Makes};
ghost use Rattle.tac_core.specs.Exacts.{nothing_if, FindsSame, Passes, TellsSame};

use base_core::NoMemory;
use evidence_core::Evidence;
use form_core::shifted;
use proof_tree::Rule;
use tac_base::{Draft, Opening, Site, TacFault, are_same, given, is_same};
use term_core::{Formula, Slot};
use vern_parse::RawExpr;

/// `exact e.`: the evidence shows the goal.
pub(crate) fn exact(site: &Site<'_>, raw: &RawExpr) -> Result<Opening, TacFault>
    requires { IsReady site.now }
    ensures { Makes (env_of site.now) (goal_at site.now) (exact (expression raw.now)) result }
{
    match given(site, raw) {
        Err(fault) => Err(fault),
        Ok(evidence) => closed_by(site, &evidence),
    }
}

/// The tree of evidence that shows the goal.
fn closed_by(site: &Site<'_>, evidence: &Evidence) -> Result<Opening, TacFault>
    requires ready { IsReady site.now }
    requires given { (e : Written) × IsGiven (env_of site.now) (goal_at site.now).slots e evidence.now }
    ensures { (met : Bool) → TellsSame (env_of site.now) evidence.now.must.items met → Answers (env_of site.now) (goal_at site.now) result
        (if_met (met && theory_is_same (env_of site.now) (meaning evidence.now.formula) (goal_at site.now).shown) []) }
{
    match is_met(site, evidence) {
        Err(fault) => Err(fault),
        Ok(()) => {
            if !is_same(site, &evidence.formula, &site.goal.goal)? {
                return Err(TacFault::CannotMatch);
            }
            let tree = evidence.tree.copy()?;
            let put_in = Vec::new(site.alloc);
            Ok(Opening { tree, put_in })
        }
    }
}

/// The premises of evidence are met: the formulas of each pair are the same.
pub(crate) fn is_met(site: &Site<'_>, evidence: &Evidence) -> Result<(), TacFault>
    requires ready { IsReady site.now }
    requires given { (e : Written) × IsGiven (env_of site.now) (goal_at site.now).slots e evidence.now }
    ensures { (met : Bool) → TellsSame (env_of site.now) evidence.now.must.items met → Passes result (nothing_if met) }
{
    if are_same(site, &evidence.must)? {
        return Ok(());
    }
    Err(TacFault::CannotMatch)
}

/// `assumption.`: a hypothesis is the goal.
pub(crate) fn by_hypothesis(site: &Site<'_>) -> Result<Opening, TacFault>
    requires { IsReady site.now }
    ensures { Makes (env_of site.now) (goal_at site.now) by_hypothesis result }
{
    match same_hypothesis(site)? {
        None => Err(TacFault::CannotMatch),
        Some(number) => {
            let draft = Draft::new(site.alloc).rule(Rule::Hyp(number))?;
            let opening = draft.finish(site.alloc)?;
            Ok(opening)
        }
    }
}

/// The number of the newest hypothesis that is the same as the goal, if there is one.
fn same_hypothesis(site: &Site<'_>) -> Result<Option<u64>, NoMemory>
    requires { IsReady site.now }
    ensures { IfOk result (λ r. FindsSame (env_of site.now) (entries (goal_at site.now).slots) (goal_at site.now).shown r) }
{
    let mut newer: u64 = 0;
    let mut at = &site.goal.context;
    while let Some((slot, older)) = at.newest() {
        match slot {
            Slot::Var { .. } => newer = newer.checked_add(1).ok_or(NoMemory)?,
            Slot::Hyp { formula, .. } => {
                if is_goal(site, formula, newer)? {
                    return Ok(Some(older.count()));
                }
            }
        }
        at = older;
    }
    Ok(None)
}

/// Whether a formula is the same as the goal, as it stands under newer variables.
fn is_goal(site: &Site<'_>, a: &Formula, newer: u64) -> Result<bool, NoMemory>
    requires ready { IsReady site.now }
    requires formed { WellFormed (env_of site.now) (variables (entries (goal_at site.now).slots)) (shift 0 newer (meaning a.now)) }
    ensures { IfOk result (λ r. IsTrue r ↔ Same (env_of site.now) (shift 0 newer (meaning a.now)) (goal_at site.now).shown) }
{
    let whole = shifted(site.alloc, site.variables, a, newer)?;
    is_same(site, &whole, &site.goal.goal)
}
