//! Rows that take evidence apart.
ghost use Rattle.std.specs.Prelude.{◌≡◌, [], ◌∷◌, map, reverse, Bool, IfOk};
ghost use Rattle.fol_theory.specs.Slots.{names};
ghost use Rattle.fol_theory.specs.Substitution.{under};
ghost use Rattle.fol_theory.specs.Syntax as theory;
ghost use Rattle.term_core.specs.Context.{slots};
ghost use Rattle.term_core.specs.Formula.{meaning};
ghost use Rattle.logic_theory.specs.Grafts.{graft};
ghost use Rattle.logic_theory.specs.Rules.{leaf};
ghost use Rattle.proof_tree.specs.Meaning.{meaning as rule_meaning, meanings, HasLeaf};
ghost use Rattle.vern_parse.specs.Meaning.{expression, name};
ghost use Rattle.vern_sentence.specs.Trees.{destruct_both, destruct_either, destruct_none};
ghost use Rattle.tactic_theory.specs.Evidence.{Evidence as Written};
ghost use Rattle.tac_base.specs.Given.{IsGiven};
ghost use Rattle.tac_base.specs.Openings.{drafted, made, opening};
ghost use Rattle.tac_base.specs.Sites.{env_of, goal_at, IsReady};
ghost use Rattle.tac_base.specs.Steps.{Makes};
ghost use Rattle.tac_core.specs.Destructs.{cases_fit, cases_made, falsity_made, head_of, left_of, pair_fits, pair_made, with_branch, witness_made, AnswersCases, AnswersFalsity, AnswersPair, IsApart};
ghost use Rattle.tac_core.specs.Exacts.{Passes, TellsSame};

use crate::exact::is_met;
use base_core::NoMemory;
use elab_core::name_of;
use evidence_core::Evidence;
use form_core::shifted;
use proof_state::names_of;
use proof_tree::Rule;
use tac_base::{Draft, Opening, Site, TacFault, Top, given, is_taken, top_of};
use term_core::{Context, Formula, Name};
use vern_parse::{RawExpr, RawName};

/// Evidence that is taken apart at a site, what is left of the context, and names for two parts.
#[derive(Drop)]
pub(crate) struct Apart<'a> {
    site: &'a Site<'a>,
    evidence: Evidence,
    kept: Context,
    first: Name,
    second: Name,
}

/// `destruct e as [a b].`: the goal with both parts of a pair, or with a witness and what is said of it.
pub(crate) fn destruct_both(
    site: &Site<'_>,
    raw: &RawExpr,
    first: &RawName,
    second: &RawName,
) -> Result<Opening, TacFault>
    requires { IsReady site.now }
    ensures { Makes (env_of site.now) (goal_at site.now) (destruct_both (expression raw.now) (name first.now) (name second.now)) result }
{
    match given(site, raw) {
        Err(fault) => Err(fault),
        Ok(evidence) => {
            let kept = left(site, evidence.hypothesis)?;
            let apart = Apart {
                site,
                evidence,
                kept,
                first: name_of(first)?,
                second: name_of(second)?,
            };
            apart.pair()
        }
    }
}

/// `destruct e as [a | b].`: the goal with the one side, and the goal with the other.
pub(crate) fn destruct_either(
    site: &Site<'_>,
    raw: &RawExpr,
    first: &RawName,
    second: &RawName,
) -> Result<Opening, TacFault>
    requires { IsReady site.now }
    ensures { Makes (env_of site.now) (goal_at site.now) (destruct_either (expression raw.now) (name first.now) (name second.now)) result }
{
    match given(site, raw) {
        Err(fault) => Err(fault),
        Ok(evidence) => {
            let kept = left(site, evidence.hypothesis)?;
            let apart = Apart {
                site,
                evidence,
                kept,
                first: name_of(first)?,
                second: name_of(second)?,
            };
            apart.cases()
        }
    }
}

/// `destruct e.`: nothing is left where evidence shows falsity.
pub(crate) fn destruct_none(site: &Site<'_>, raw: &RawExpr) -> Result<Opening, TacFault>
    requires { IsReady site.now }
    ensures { Makes (env_of site.now) (goal_at site.now) (destruct_none (expression raw.now)) result }
{
    match given(site, raw) {
        Err(fault) => Err(fault),
        Ok(evidence) => falsity(site, &evidence),
    }
}

/// A falsity that evidence shows.
fn falsity(site: &Site<'_>, evidence: &Evidence) -> Result<Opening, TacFault>
    requires ready { IsReady site.now }
    requires given { (e : Written) × IsGiven (env_of site.now) (goal_at site.now).slots e evidence.now }
    ensures { AnswersFalsity site.now evidence.now result (head_of site.now evidence.now) }
{
    let head = site.env.head_form(&evidence.formula)?;
    falsity_head(site, evidence, &head)
}

/// The same, by the head form of what is shown.
fn falsity_head(site: &Site<'_>, evidence: &Evidence, head: &Formula) -> Result<Opening, TacFault>
    requires ready { IsReady site.now }
    requires given { (e : Written) × IsGiven (env_of site.now) (goal_at site.now).slots e evidence.now }
    requires head { meaning head.now ≡ head_of site.now evidence.now }
    ensures { AnswersFalsity site.now evidence.now result (head_of site.now evidence.now) }
{
    match top_of(head) {
        Top::Falsity => falsity_case(site, evidence),
        _ => Err(TacFault::NotOfForm),
    }
}

/// The same, where a falsity is there.
fn falsity_case(site: &Site<'_>, evidence: &Evidence) -> Result<Opening, TacFault>
    requires ready { IsReady site.now }
    requires given { (e : Written) × IsGiven (env_of site.now) (goal_at site.now).slots e evidence.now }
    requires head { head_of site.now evidence.now ≡ theory.falsity }
    ensures { AnswersFalsity site.now evidence.now result (head_of site.now evidence.now) }
{
    match is_met(site, evidence) {
        Err(fault) => Err(fault),
        Ok(()) => {
            let opening = falsity_opened(site, evidence)?;
            Ok(opening)
        }
    }
}

/// What is made of a falsity.
fn falsity_opened(site: &Site<'_>, evidence: &Evidence) -> Result<Opening, NoMemory>
    ensures { IfOk result (λ o. opening o ≡ falsity_made (meanings evidence.now.tree)) }
{
    let draft = begun(site, Rule::FalseE)?;
    proved(site, evidence, draft)
}

/// What is left of the context: a hypothesis that is taken apart goes.
fn left(site: &Site<'_>, hypothesis: Option<u64>) -> Result<Context, NoMemory>
    ensures { IfOk result (λ k. slots k ≡ left_of (goal_at site.now).slots hypothesis) }
{
    match hypothesis {
        None => site.goal.context.copy(),
        Some(number) => site.goal.context.without(site.alloc, number),
    }
}

/// A rule, and an open leaf in the place of what shows its first child.
fn begun(site: &Site<'_>, rule: Rule) -> Result<Draft, NoMemory>
    ensures { IfOk result (λ d. drafted d ≡ made (rule_meaning rule ∷ leaf (names (goal_at site.now).slots) ∷ []) []) }
{
    let hole = Rule::Leaf(names_of(site.alloc, &site.goal.context)?);
    Draft::new(site.alloc).rule(rule)?.rule(hole)
}

/// The whole, with the tree of evidence in the place of the first open leaf.
fn proved(site: &Site<'_>, evidence: &Evidence, draft: Draft) -> Result<Opening, NoMemory>
    requires { HasLeaf (drafted draft).rules }
    ensures { IfOk result (λ o. opening o ≡ made (graft (meanings evidence.now.tree) (drafted draft).rules) (drafted draft).formulas) }
{
    let whole = draft.finish(site.alloc)?;
    whole.grafted(site.alloc, evidence.tree.copy()?)
}

impl<'a> Apart<'a> {
    /// A pair or a witness.
    fn pair(&self) -> Result<Opening, TacFault>
        requires { IsApart self.now }
        ensures { AnswersPair self.now result (head_of self.now.site.now self.now.evidence) }
    {
        let head = self.site.env.head_form(&self.evidence.formula)?;
        self.pair_head(&head)
    }

    /// The same, by the head form of what is shown.
    fn pair_head(&self, head: &Formula) -> Result<Opening, TacFault>
        requires apart { IsApart self.now }
        requires head { meaning head.now ≡ head_of self.now.site.now self.now.evidence }
        ensures { AnswersPair self.now result (head_of self.now.site.now self.now.evidence) }
    {
        match top_of(head) {
            Top::Both(a, b) => self.both_case(a, b),
            Top::Ex(sort, name, body) => self.witness_case(sort, name, body),
            _ => Err(TacFault::NotOfForm),
        }
    }

    /// The same, where a pair is there.
    fn both_case(&self, a: &Formula, b: &Formula) -> Result<Opening, TacFault>
        requires apart { IsApart self.now }
        requires head { head_of self.now.site.now self.now.evidence ≡ theory.both (meaning a.now) (meaning b.now) }
        ensures { AnswersPair self.now result (head_of self.now.site.now self.now.evidence) }
    {
        match self.pair_fits() {
            Err(fault) => Err(fault),
            Ok(()) => {
                let opening = self.both_opened(a, b)?;
                Ok(opening)
            }
        }
    }

    /// The same, where a witness is there.
    fn witness_case(&self, sort: &Name, name: &Name, body: &Formula) -> Result<Opening, TacFault>
        requires apart { IsApart self.now }
        requires head { head_of self.now.site.now self.now.evidence ≡ theory.ex sort.now name.now (meaning body.now) }
        ensures { AnswersPair self.now result (head_of self.now.site.now self.now.evidence) }
    {
        match self.pair_fits() {
            Err(fault) => Err(fault),
            Ok(()) => {
                let opening = self.witness_opened(sort, body)?;
                Ok(opening)
            }
        }
    }

    /// One side or the other.
    fn cases(&self) -> Result<Opening, TacFault>
        requires { IsApart self.now }
        ensures { AnswersCases self.now result (head_of self.now.site.now self.now.evidence) }
    {
        let head = self.site.env.head_form(&self.evidence.formula)?;
        self.cases_head(&head)
    }

    /// The same, by the head form of what is shown.
    fn cases_head(&self, head: &Formula) -> Result<Opening, TacFault>
        requires apart { IsApart self.now }
        requires head { meaning head.now ≡ head_of self.now.site.now self.now.evidence }
        ensures { AnswersCases self.now result (head_of self.now.site.now self.now.evidence) }
    {
        match top_of(head) {
            Top::Either(a, b) => self.either_case(a, b),
            _ => Err(TacFault::NotOfForm),
        }
    }

    /// The same, where two sides are there.
    fn either_case(&self, a: &Formula, b: &Formula) -> Result<Opening, TacFault>
        requires apart { IsApart self.now }
        requires head { head_of self.now.site.now self.now.evidence ≡ theory.either (meaning a.now) (meaning b.now) }
        ensures { AnswersCases self.now result (head_of self.now.site.now self.now.evidence) }
    {
        match self.cases_fit() {
            Err(fault) => Err(fault),
            Ok(()) => {
                let opening = self.either_opened(a, b)?;
                Ok(opening)
            }
        }
    }

    /// The fault of the two names or of the match, if there is one.
    fn cases_fit(&self) -> Result<(), TacFault>
        requires { IsApart self.now }
        ensures { (met : Bool) → TellsSame (env_of self.now.site.now) self.now.evidence.must.items met
            → Passes result (cases_fit (env_of self.now.site.now) (slots self.now.kept) met self.now.first self.now.second) }
    {
        if is_taken(self.site.env, &self.kept, &self.first) {
            return Err(TacFault::NameTaken);
        }
        if is_taken(self.site.env, &self.kept, &self.second) {
            return Err(TacFault::NameTaken);
        }
        is_met(self.site, &self.evidence)
    }

    /// The same, where the second name stands behind the first.
    fn pair_fits(&self) -> Result<(), TacFault>
        requires { IsApart self.now }
        ensures { (met : Bool) → TellsSame (env_of self.now.site.now) self.now.evidence.must.items met
            → Passes result (pair_fits (env_of self.now.site.now) (slots self.now.kept) met self.now.first self.now.second) }
    {
        if self.second.same(&self.first) {
            return Err(TacFault::NameTaken);
        }
        self.cases_fit()
    }

    /// What is made of a pair.
    fn both_opened(&self, a: &Formula, b: &Formula) -> Result<Opening, NoMemory>
        ensures { IfOk result (λ o. opening o ≡ pair_made (meanings self.now.evidence.tree) self.now.evidence.hypothesis (slots self.now.kept)
            (goal_at self.now.site.now).shown self.now.first self.now.second (meaning a.now) (meaning b.now)) }
    {
        let rule = Rule::AndE(a.copy()?, b.copy()?);
        let draft = begun(self.site, rule)?.entry(a)?.entry(b)?;
        let draft = self.branch(draft, &[&self.first, &self.second], &self.site.goal.goal)?;
        proved(self.site, &self.evidence, draft)
    }

    /// What is made of a witness.
    fn witness_opened(&self, sort: &Name, body: &Formula) -> Result<Opening, NoMemory>
        requires { IsApart self.now }
        ensures { IfOk result (λ o. opening o ≡ witness_made (meanings self.now.evidence.tree) self.now.evidence.hypothesis
            (slots self.now.kept) (goal_at self.now.site.now).shown self.now.first self.now.second sort.now (meaning body.now)) }
    {
        let shown = self.under_one()?;
        let rule = Rule::ExE(sort.copy()?, body.copy()?);
        let draft = begun(self.site, rule)?.entry(body)?;
        let draft = self.branch(draft, &[&self.first, &self.second], &shown)?;
        proved(self.site, &self.evidence, draft)
    }

    /// What is made of two cases.
    fn either_opened(&self, a: &Formula, b: &Formula) -> Result<Opening, NoMemory>
        ensures { IfOk result (λ o. opening o ≡ cases_made (meanings self.now.evidence.tree) self.now.evidence.hypothesis (slots self.now.kept)
            (goal_at self.now.site.now).shown self.now.first self.now.second (meaning a.now) (meaning b.now)) }
    {
        let rule = Rule::OrE(a.copy()?, b.copy()?);
        let draft = begun(self.site, rule)?.entry(a)?;
        let draft = self
            .branch(draft, &[&self.first], &self.site.goal.goal)?
            .entry(b)?;
        let draft = self.branch(draft, &[&self.second], &self.site.goal.goal)?;
        proved(self.site, &self.evidence, draft)
    }

    /// A branch more, with entries of these names, the newest last: a hypothesis that is taken apart goes, and the formula is
    /// left to be shown.
    fn branch(&self, draft: Draft, newer: &[&Name], shown: &Formula) -> Result<Draft, NoMemory>
        ensures { IfOk result (λ d. drafted d ≡ with_branch self.now.evidence.hypothesis (reverse (map (λ n. n.now) newer.now))
            (slots self.now.kept) (meaning shown.now) (drafted draft)) }
    {
        let alloc = self.site.alloc;
        match self.evidence.hypothesis {
            None => draft.leave(alloc, &self.kept, newer, shown),
            Some(number) => {
                let dropped = draft.rule(Rule::Drop(number))?;
                dropped.leave(alloc, &self.kept, newer, shown)
            }
        }
    }

    /// The goal under one variable more.
    fn under_one(&self) -> Result<Formula, NoMemory>
        requires { IsApart self.now }
        ensures { IfOk result (λ f. meaning f ≡ under (goal_at self.now.site.now).shown) }
    {
        let site = self.site;
        let variables = site.variables.checked_add(1).ok_or(NoMemory)?;
        shifted(site.alloc, variables, &site.goal.goal, 1)
    }
}
