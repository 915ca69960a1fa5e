//! Rewriting.
ghost use Rattle.std.specs.Prelude.{◌≡◌, ◌∷◌, ◌++◌, Bool, true, false, List, Some, length, map, if◌then◌else◌, IfOk};
ghost use Rattle.fol_theory.specs.Contexts.{variables};
ghost use Rattle.fol_theory.specs.Slots.{entries, names};
ghost use Rattle.fol_theory.specs.Substitution.{instantiate, replace_term};
ghost use Rattle.vern_parse.specs.Meaning.{expression};
ghost use Rattle.vern_sentence.specs.Trees.{rewrite};
ghost use Rattle.env_theory.specs.Heads.{head_form};
ghost use Rattle.env_theory.specs.Typing.{HasSort};
ghost use Rattle.logic_theory.specs.Rules.{Every};
ghost use Rattle.match_theory.specs.Instances.{fill};
ghost use Rattle.match_theory.specs.Places.{abstracted, all_below, find_instance, occurs_in_term};
ghost use Rattle.proof_tree.specs.Meaning.{meanings};
ghost use Rattle.tactic_theory.specs.Evidence.{Evidence as Written, is_met};
ghost use Rattle.tactic_theory.specs.Refinements.{is_open, rewrite_form, rewrite_found, rewrite_strip};
ghost use Rattle.tactic_theory.specs.Strips.{all_strips, equation};
ghost use Rattle.term_core.specs.Formula.{meaning};
ghost use Rattle.term_core.specs.Term as term;
ghost use Rattle.strip_core.specs.Descents.{stripped};
ghost use Rattle.strip_core.specs.Meaning.{strip_of};
ghost use Rattle.strip_core.specs.Trees.{IsOfEvidence, through};
ghost use Rattle.tac_base.specs.Given.{IsGiven};
ghost use Rattle.tac_base.specs.Openings.{made, opening, Answers};
ghost use Rattle.tac_base.specs.Sites.{env_of, goal_at, IsReady};
ghost use Rattle.tac_base.specs.Steps.{Makes};
ghost use Rattle.tac_eq.specs.Rewriting.{oriented, rewriting};

use crate::exchange::{Sides, exchanging};
use base_core::NoMemory;
use evidence_core::Evidence;
use match_core::{fill_term, find_instance, occurs_in_term, replace_all};
use proof_state::names_of;
use proof_tree::{Rule, Tree};
use strip_core::{Route, Strip, descend, equation};
use tac_base::{Opening, Site, TacFault, Top, are_same, given, top_of};
use term_core::{Formula, Term};
use vern_parse::RawExpr;

/// `rewrite e.`, or with `back` `rewrite <- e.`: the goal with one side of an equation for the other, and the premises.
pub(crate) fn rewrite(site: &Site<'_>, raw: &RawExpr, back: bool) -> Result<Opening, TacFault>
    requires { IsReady site.now }
    ensures { Makes (env_of site.now) (goal_at site.now) (rewrite (expression raw.now) back) result }
{
    let evidence = given(site, raw)?;
    rewrite_given(site, &evidence, back)
}

/// The same with the evidence at hand.
fn rewrite_given(site: &Site<'_>, evidence: &Evidence, back: bool) -> Result<Opening, TacFault>
    requires ready { IsReady site.now }
    requires given { (e : Written) × IsGiven (env_of site.now) (goal_at site.now).slots e evidence.now }
    ensures { (e : Written) → IsGiven (env_of site.now) (goal_at site.now).slots e evidence.now
        → Answers (env_of site.now) (goal_at site.now) result (rewrite_strip (env_of site.now) (goal_at site.now).slots
        (is_met (env_of site.now) (goal_at site.now).slots e) (if back then false else true) (goal_at site.now).shown
        (equation (env_of site.now) (all_strips (env_of site.now) (meaning evidence.now.formula)))) }
{
    match equation(site.alloc, site.env, site.variables, &evidence.formula)? {
        None => Err(TacFault::NotOfForm),
        Some(strip) => rewrite_at(site, evidence, &strip, back),
    }
}

/// The same with the strip whose rest is an equation.
fn rewrite_at(
    site: &Site<'_>,
    evidence: &Evidence,
    strip: &Strip,
    back: bool,
) -> Result<Opening, TacFault>
    requires ready { IsReady site.now }
    requires given { (e : Written) × IsGiven (env_of site.now) (goal_at site.now).slots e evidence.now }
    requires first { equation (env_of site.now) (all_strips (env_of site.now) (meaning evidence.now.formula)) ≡ Some (strip_of strip.now) }
    ensures { (e : Written) → IsGiven (env_of site.now) (goal_at site.now).slots e evidence.now
        → Answers (env_of site.now) (goal_at site.now) result (rewrite_form (goal_at site.now).slots
        (is_met (env_of site.now) (goal_at site.now).slots e) (if back then false else true) (strip_of strip.now) (goal_at site.now).shown
        (head_form (env_of site.now) (meaning strip.now.rest))) }
{
    let head = site.env.head_form(&strip.rest)?;
    rewrite_head(site, evidence, strip, &head, back)
}

/// The same with the head form of what is left.
fn rewrite_head(
    site: &Site<'_>,
    evidence: &Evidence,
    strip: &Strip,
    head: &Formula,
    back: bool,
) -> Result<Opening, TacFault>
    requires ready { IsReady site.now }
    requires given { (e : Written) × IsGiven (env_of site.now) (goal_at site.now).slots e evidence.now }
    requires first { equation (env_of site.now) (all_strips (env_of site.now) (meaning evidence.now.formula)) ≡ Some (strip_of strip.now) }
    requires head { meaning head.now ≡ head_form (env_of site.now) (meaning strip.now.rest) }
    ensures { (e : Written) → IsGiven (env_of site.now) (goal_at site.now).slots e evidence.now
        → Answers (env_of site.now) (goal_at site.now) result (rewrite_form (goal_at site.now).slots
        (is_met (env_of site.now) (goal_at site.now).slots e) (if back then false else true) (strip_of strip.now) (goal_at site.now).shown
        (meaning head.now)) }
{
    match top_of(head) {
        Top::Equal(sort, left, right) => {
            if back {
                let (from, to) = (right, left);
                return rewrite_by(
                    site,
                    evidence,
                    strip,
                    &Sides {
                        sort,
                        from,
                        to,
                        back,
                    },
                );
            }
            let (from, to) = (left, right);
            rewrite_by(
                site,
                evidence,
                strip,
                &Sides {
                    sort,
                    from,
                    to,
                    back,
                },
            )
        }
        _ => Err(TacFault::NotOfForm),
    }
}

/// The same with the sides of the equation.
fn rewrite_by(
    site: &Site<'_>,
    evidence: &Evidence,
    strip: &Strip,
    sides: &Sides<'_>,
) -> Result<Opening, TacFault>
    requires ready { IsReady site.now }
    requires given { (e : Written) × IsGiven (env_of site.now) (goal_at site.now).slots e evidence.now }
    requires first { equation (env_of site.now) (all_strips (env_of site.now) (meaning evidence.now.formula)) ≡ Some (strip_of strip.now) }
    requires head { head_form (env_of site.now) (meaning strip.now.rest) ≡ oriented sides.now.back sides.now.sort.now
        (term.meaning sides.now.from.now) (term.meaning sides.now.to.now) }
    ensures { (e : Written) → IsGiven (env_of site.now) (goal_at site.now).slots e evidence.now
        → Answers (env_of site.now) (goal_at site.now) result (rewrite_found (goal_at site.now).slots
        (is_met (env_of site.now) (goal_at site.now).slots e) (strip_of strip.now)
        (term.meaning sides.now.from.now) (term.meaning sides.now.to.now) (goal_at site.now).shown
        (find_instance (length (strip_of strip.now).sorts) (term.meaning sides.now.from.now) (goal_at site.now).shown)) }
{
    let open = strip.sorts.len() as u64;
    match find_instance(site.alloc, sides.from, open, &site.goal.goal)? {
        None => Err(TacFault::CannotMatch),
        Some(terms) => rewrite_with(site, evidence, strip, sides, &terms),
    }
}

/// The same with the terms at the first place where the one side stands.
fn rewrite_with(
    site: &Site<'_>,
    evidence: &Evidence,
    strip: &Strip,
    sides: &Sides<'_>,
    terms: &[Term],
) -> Result<Opening, TacFault>
    requires ready { IsReady site.now }
    requires given { (e : Written) × IsGiven (env_of site.now) (goal_at site.now).slots e evidence.now }
    requires first { equation (env_of site.now) (all_strips (env_of site.now) (meaning evidence.now.formula)) ≡ Some (strip_of strip.now) }
    requires head { head_form (env_of site.now) (meaning strip.now.rest) ≡ oriented sides.now.back sides.now.sort.now
        (term.meaning sides.now.from.now) (term.meaning sides.now.to.now) }
    requires found { find_instance (length (strip_of strip.now).sorts) (term.meaning sides.now.from.now) (goal_at site.now).shown
        ≡ Some (map term.meaning terms.now) }
    ensures { (e : Written) → IsGiven (env_of site.now) (goal_at site.now).slots e evidence.now
        → Answers (env_of site.now) (goal_at site.now) result (rewrite_found (goal_at site.now).slots
        (is_met (env_of site.now) (goal_at site.now).slots e) (strip_of strip.now)
        (term.meaning sides.now.from.now) (term.meaning sides.now.to.now) (goal_at site.now).shown (Some (map term.meaning terms.now))) }
{
    if !are_same(site, &evidence.must)? {
        return Err(TacFault::CannotMatch);
    }
    let open = strip.sorts.len() as u64;
    if is_open(open, sides.from) {
        return Err(TacFault::CannotMatch);
    }
    if !all_below(open, sides.from) {
        return Err(TacFault::CannotMatch);
    }
    Ok(rewritten(site, evidence, strip, sides, terms)?)
}

/// Whether a term is one of so many variables.
fn is_open(n: u64, t: &Term) -> bool
    ensures { result ≡ is_open n (term.meaning t.now) }
{
    match t {
        Term::Var(i) => *i < n,
        Term::App(_, _) => false,
    }
}

/// Whether each variable below a number stands in a term.
fn all_below(n: u64, t: &Term) -> bool
    ensures { result ≡ all_below n (λ i. occurs_in_term i (term.meaning t.now)) }
{
    for i in 0..n {
        if !occurs_in_term(t, i) {
            return false;
        }
    }
    true
}

/// The tree from the goal to the one that is rewritten, and through the strips to the evidence and to the premises.
fn rewritten(
    site: &Site<'_>,
    evidence: &Evidence,
    strip: &Strip,
    sides: &Sides<'_>,
    terms: &[Term],
) -> Result<Opening, NoMemory>
    requires ready { IsReady site.now }
    requires of_evidence { Every IsOfEvidence (meanings evidence.now.tree) }
    requires sorted { HasSort (env_of site.now) (variables (entries (goal_at site.now).slots))
        (replace_term (fill (map term.meaning terms.now)) (term.meaning sides.now.from.now)) sides.now.sort.now }
    ensures { IfOk result (λ o.
        let d = stripped (env_of site.now) (meaning evidence.now.formula) (strip_of strip.now) (map term.meaning terms.now) in
        let from = replace_term (fill (map term.meaning terms.now)) (term.meaning sides.now.from.now) in
        let to = replace_term (fill (map term.meaning terms.now)) (term.meaning sides.now.to.now) in
        opening o ≡ made (rewriting sides.now.back sides.now.sort.now from to (goal_at site.now).slots (goal_at site.now).shown
        (through (meanings evidence.now.tree) (names (goal_at site.now).slots) d))
        (instantiate (abstracted 0 from (goal_at site.now).shown) to ∷ d.premises)) }
{
    let from = fill_term(site.alloc, sides.from, terms)?;
    let to = fill_term(site.alloc, sides.to, terms)?;
    let goal = replace_all(site.alloc, &site.goal.goal, &from, &to)?;
    let rules = exchanging(site, sides, &from, &to)?;
    let behind = route(site, evidence, strip, terms)?;
    let opening = joined(site, goal, rules, behind)?;
    Ok(opening)
}

/// The rules through the strips to the evidence and to the premises.
fn route(
    site: &Site<'_>,
    evidence: &Evidence,
    strip: &Strip,
    terms: &[Term],
) -> Result<Route, NoMemory>
    requires { Every IsOfEvidence (meanings evidence.now.tree) }
    ensures rules { IfOk result (λ r. meanings r.rules.items ≡ through (meanings evidence.now.tree) (names (goal_at site.now).slots)
        (stripped (env_of site.now) (meaning evidence.now.formula) (strip_of strip.now) (map term.meaning terms.now))) }
    ensures premises { IfOk result (λ r. map meaning r.premises.items
        ≡ (stripped (env_of site.now) (meaning evidence.now.formula) (strip_of strip.now) (map term.meaning terms.now)).premises) }
{
    let descent = descend(site.alloc, site.env, &evidence.formula, strip, terms)?;
    let names = names_of(site.alloc, &site.goal.context)?;
    descent.route(site.alloc, &evidence.tree, &names)
}

/// Rules that leave a goal open, and then those of a route.
fn joined(
    site: &Site<'_>,
    goal: Formula,
    rules: Vec<Rule>,
    route: Route,
) -> Result<Opening, NoMemory>
    ensures { IfOk result (λ o. opening o ≡ made (meanings rules.items ++ meanings route.rules.items)
        (meaning goal ∷ map meaning route.premises.items)) }
{
    let mut rules = rules;
    let mut route = route;
    let mut put_in = Vec::new(site.alloc);
    put_in.push(goal)?;
    put_in.append(&mut route.premises)?;
    rules.append(&mut route.rules)?;
    let tree = Tree::from_rules(site.alloc, rules)?;
    Ok(Opening { tree, put_in })
}
