//! Applying evidence.
ghost use Rattle.std.specs.Prelude.{◌≡◌, ◌++◌, List, Some, length, map, IfOk};
ghost use Rattle.fol_theory.specs.Contexts.{variables};
ghost use Rattle.fol_theory.specs.Slots.{entries, names};
ghost use Rattle.vern_parse.specs.Meaning.{expression};
ghost use Rattle.vern_sentence.specs.Trees.{apply};
ghost use Rattle.env_theory.specs.Normal.{normal};
ghost use Rattle.env_theory.specs.Typing.{WellFormed};
ghost use Rattle.logic_theory.specs.Rules.{Every};
ghost use Rattle.match_theory.specs.Places.{all_below, occurs};
ghost use Rattle.proof_tree.specs.Meaning.{meanings};
ghost use Rattle.tactic_theory.specs.Evidence.{Evidence as Written, is_met};
ghost use Rattle.tactic_theory.specs.Refinements.{apply_found};
ghost use Rattle.tactic_theory.specs.Strips.{all_strips, fitting};
ghost use Rattle.term_core.specs.Formula.{meaning};
ghost use Rattle.term_core.specs.Term as term;
ghost use Rattle.strip_core.specs.Descents.{stripped};
ghost use Rattle.strip_core.specs.Meaning.{strip_of};
ghost use Rattle.strip_core.specs.Trees.{IsOfEvidence, through};
ghost use Rattle.tac_base.specs.Given.{IsGiven};
ghost use Rattle.tac_base.specs.Openings.{made, opening, Answers};
ghost use Rattle.tac_base.specs.Sites.{env_of, goal_at, IsReady};
ghost use Rattle.tac_base.specs.Steps.{Makes};

use base_core::NoMemory;
use conv_core::normal;
use evidence_core::Evidence;
use form_core::normal_fits;
use match_core::occurs;
use proof_state::names_of;
use proof_tree::Tree;
use strip_core::{Strip, descend, fitting};
use tac_base::{Opening, Site, TacFault, are_same, given};
use term_core::{Formula, Term};
use vern_parse::RawExpr;

/// `apply e.`: the premises of the evidence, behind the least number of strips for which it fits the goal.
pub(crate) fn apply(site: &Site<'_>, raw: &RawExpr) -> Result<Opening, TacFault>
    requires { IsReady site.now }
    ensures { Makes (env_of site.now) (goal_at site.now) (apply (expression raw.now)) result }
{
    let evidence = given(site, raw)?;
    apply_given(site, &evidence)
}

/// The same with the evidence at hand.
fn apply_given(site: &Site<'_>, evidence: &Evidence) -> Result<Opening, TacFault>
    requires ready { IsReady site.now }
    requires given { (e : Written) × IsGiven (env_of site.now) (goal_at site.now).slots e evidence.now }
    ensures { (e : Written) → IsGiven (env_of site.now) (goal_at site.now).slots e evidence.now
        → Answers (env_of site.now) (goal_at site.now) result (apply_found (env_of site.now) (goal_at site.now).slots
        (is_met (env_of site.now) (goal_at site.now).slots e)
        (fitting (env_of site.now) (goal_at site.now).shown (all_strips (env_of site.now) (meaning evidence.now.formula)))) }
{
    let shown = &evidence.formula;
    match fitting(site.alloc, site.env, site.variables, shown, &site.goal.goal)? {
        None => Err(TacFault::CannotMatch),
        Some((strip, terms)) => apply_at(site, evidence, &strip, &terms),
    }
}

/// The same with the strip that fits, and its terms.
fn apply_at(
    site: &Site<'_>,
    evidence: &Evidence,
    strip: &Strip,
    terms: &[Term],
) -> Result<Opening, TacFault>
    requires ready { IsReady site.now }
    requires given { (e : Written) × IsGiven (env_of site.now) (goal_at site.now).slots e evidence.now }
    requires fits { fitting (env_of site.now) (goal_at site.now).shown (all_strips (env_of site.now) (meaning evidence.now.formula))
        ≡ Some (strip_of strip.now, map term.meaning terms.now) }
    ensures { (e : Written) → IsGiven (env_of site.now) (goal_at site.now).slots e evidence.now
        → Answers (env_of site.now) (goal_at site.now) result (apply_found (env_of site.now) (goal_at site.now).slots
        (is_met (env_of site.now) (goal_at site.now).slots e) (Some (strip_of strip.now, map term.meaning terms.now))) }
{
    if !are_same(site, &evidence.must)? {
        return Err(TacFault::CannotMatch);
    }
    if !all_occur(site, strip)? {
        return Err(TacFault::CannotMatch);
    }
    Ok(applied(site, evidence, strip, terms)?)
}

/// Whether each open variable stands in the normal form of what is left. `NoMemory` also where that is too large.
fn all_occur(site: &Site<'_>, strip: &Strip) -> Result<bool, NoMemory>
    requires ready { IsReady site.now }
    requires formed { WellFormed (env_of site.now)
        ((strip_of strip.now).sorts ++ variables (entries (goal_at site.now).slots)) (meaning strip.now.rest) }
    ensures { IfOk result (λ r. r ≡ all_below (length (strip_of strip.now).sorts)
        (λ i. occurs i (normal (env_of site.now) (meaning strip.now.rest)))) }
{
    let open = strip.sorts.len() as u64;
    let variables = site.variables.checked_add(open).ok_or(NoMemory)?;
    normal_fits(site.env, variables, &strip.rest)?;
    match normal(site.alloc, site.env, &strip.rest) {
        Err(_) => Err(NoMemory),
        Ok(rest) => Ok(all_below(open, &rest)),
    }
}

/// Whether each variable below a number stands in a formula.
fn all_below(n: u64, a: &Formula) -> bool
    ensures { result ≡ all_below n (λ i. occurs i (meaning a.now)) }
{
    for i in 0..n {
        if !occurs(a, i) {
            return false;
        }
    }
    true
}

/// The tree from the goal through the strips to the evidence, and to the premises with the terms put in.
fn applied(
    site: &Site<'_>,
    evidence: &Evidence,
    strip: &Strip,
    terms: &[Term],
) -> Result<Opening, NoMemory>
    requires { Every IsOfEvidence (meanings evidence.now.tree) }
    ensures { IfOk result (λ o. let d = stripped (env_of site.now) (meaning evidence.now.formula) (strip_of strip.now)
        (map term.meaning terms.now) in
        opening o ≡ made (through (meanings evidence.now.tree) (names (goal_at site.now).slots) d) d.premises) }
{
    let descent = descend(site.alloc, site.env, &evidence.formula, strip, terms)?;
    let names = names_of(site.alloc, &site.goal.context)?;
    let route = descent.route(site.alloc, &evidence.tree, &names)?;
    let tree = Tree::from_rules(site.alloc, route.rules)?;
    Ok(Opening {
        tree,
        put_in: route.premises,
    })
}
