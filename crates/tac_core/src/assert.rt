//! What is asserted, and what is cleared.
ghost use Rattle.std.specs.Prelude.{◌≡◌, [], ◌∷◌, Some, IfOk};
ghost use Rattle.fol_theory.specs.Contexts.{variables};
ghost use Rattle.fol_theory.specs.Slots.{entries, names, slots_without};
ghost use Rattle.fol_theory.specs.Syntax.{Formula as Meaning};
ghost use Rattle.env_theory.specs.Typing.{WellFormed};
ghost use Rattle.logic_theory.specs.Rules.{cut, drop, leaf, step};
ghost use Rattle.term_core.specs.Formula.{meaning};
ghost use Rattle.vern_parse.specs.Meaning.{expression, name};
ghost use Rattle.vern_sentence.specs.Trees as sentence;
ghost use Rattle.tactic_theory.specs.Refinements.{assert, row};
ghost use Rattle.script_theory.specs.Sizes.{large};
ghost use Rattle.tac_base.specs.Faults.{Refuses};
ghost use Rattle.tac_base.specs.Openings.{made, measured, opening, Answers};
ghost use Rattle.tac_base.specs.Sites.{env_of, goal_at, IsReady};
ghost use Rattle.tac_base.specs.Steps.{Makes};

use base_core::NoMemory;
use elab_core::{ElabFault, formula, name_of};
use proof_tree::Rule;
use tac_base::{Draft, Opening, Site, TacFault, hypothesis_named, is_taken};
use term_core::{Formula, Name};
use vern_parse::{RawExpr, RawName};

/// `assert (n : A).`: the formula, and then the goal with it as a hypothesis more. A name that is taken is told before a
/// formula that is too large.
pub(crate) fn assert(site: &Site<'_>, given: &RawName, raw: &RawExpr) -> Result<Opening, TacFault>
    requires { IsReady site.now }
    ensures { Makes (env_of site.now) (goal_at site.now) (sentence.assert (name given.now) (expression raw.now)) result }
{
    let name = name_of(given)?;
    match formula(site.alloc, site.env, &site.goal.context, raw) {
        Ok(a) => asserted(site, &name, &a),
        Err(ElabFault::TooLarge(nodes, height)) => Err(excess(site, &name, nodes, height)),
        Err(fault) => Err(fault.into()),
    }
}

/// The fault where the formula is too large.
#[tactic(auto, using(crate::proofs::Asserts::asserting))]
fn excess(site: &Site<'_>, name: &Name, nodes: u64, height: u64) -> TacFault
    ensures { (a : Meaning) → large (env_of site.now) a ≡ Some (nodes, height) → Refuses (λ f. f) result
        (measured (env_of site.now) (row (env_of site.now) (goal_at site.now).slots (goal_at site.now).shown (assert name.now a))) }
{
    if is_taken(site.env, &site.goal.context, name) {
        return TacFault::NameTaken;
    }
    TacFault::TooLarge(nodes, height)
}

/// The same of a formula.
fn asserted(site: &Site<'_>, name: &Name, a: &Formula) -> Result<Opening, TacFault>
    requires ready { IsReady site.now }
    requires formed { WellFormed (env_of site.now) (variables (entries (goal_at site.now).slots)) (meaning a.now) }
    ensures { Answers (env_of site.now) (goal_at site.now) result
        (row (env_of site.now) (goal_at site.now).slots (goal_at site.now).shown (assert name.now (meaning a.now))) }
{
    if is_taken(site.env, &site.goal.context, name) {
        return Err(TacFault::NameTaken);
    }
    let made = with_lemma(site, name, a)?;
    Ok(made)
}

/// A formula to be shown, and then the goal with it.
fn with_lemma(site: &Site<'_>, name: &Name, a: &Formula) -> Result<Opening, NoMemory>
    ensures { IfOk result (λ o. opening o ≡ made
        (step (cut (meaning a.now)) ∷ leaf (names (goal_at site.now).slots) ∷ leaf (name.now ∷ names (goal_at site.now).slots) ∷ [])
        (meaning a.now ∷ meaning a.now ∷ (goal_at site.now).shown ∷ [])) }
{
    let context = &site.goal.context;
    Draft::new(site.alloc)
        .rule(Rule::Cut(a.copy()?))?
        .leave(site.alloc, context, &[], a)?
        .entry(a)?
        .leave(site.alloc, context, &[name], &site.goal.goal)?
        .finish(site.alloc)
}

/// `clear h.`: the goal without a hypothesis.
pub(crate) fn clear(site: &Site<'_>, given: &RawName) -> Result<Opening, TacFault>
    requires { IsReady site.now }
    ensures { Makes (env_of site.now) (goal_at site.now) (sentence.clear (name given.now)) result }
{
    let name = name_of(given)?;
    match hypothesis_named(&site.goal.context, &name) {
        None => Err(TacFault::NoSuchHyp),
        Some(number) => {
            let made = without(site, number)?;
            Ok(made)
        }
    }
}

/// The goal without the hypothesis with this number.
fn without(site: &Site<'_>, number: u64) -> Result<Opening, NoMemory>
    ensures { IfOk result (λ o. opening o
        ≡ made (step (drop number) ∷ leaf (names (slots_without (goal_at site.now).slots number)) ∷ []) ((goal_at site.now).shown ∷ [])) }
{
    let kept = site.goal.context.without(site.alloc, number)?;
    Draft::new(site.alloc)
        .rule(Rule::Drop(number))?
        .leave(site.alloc, &kept, &[], &site.goal.goal)?
        .finish(site.alloc)
}
