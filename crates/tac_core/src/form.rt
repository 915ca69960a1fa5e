//! Rows that look at the goal's form, and `exfalso`.
ghost use Rattle.std.specs.Prelude.{◌≡◌, [], ◌∷◌, IfOk};
ghost use Rattle.fol_theory.specs.Contexts.{variables};
ghost use Rattle.fol_theory.specs.Slots.{entries, names};
ghost use Rattle.fol_theory.specs.Substitution.{instantiate as theory_instantiate};
ghost use Rattle.env_theory.specs.Typing.{HasSort, WellFormed};
ghost use Rattle.env_theory.specs.Heads.{head_form};
ghost use Rattle.tactic_theory.specs.Refinements.{row, witness as theory_witness};
ghost use Rattle.logic_theory.specs.Rules.{and_i, ex_i, leaf, or_i1, or_i2, step};
ghost use Rattle.proof_tree.specs.Meaning.{meaning as rule_meaning};
ghost use Rattle.term_core.specs.Formula.{meaning};
ghost use Rattle.term_core.specs.Term.{meaning as term_meaning};
ghost use Rattle.vern_parse.specs.Meaning.{expression};
ghost use Rattle.vern_sentence.specs.Trees as sentence;
ghost use Rattle.tac_base.specs.Openings.{made, opening, Answers};
ghost use Rattle.tac_base.specs.Sites.{env_of, goal_at, IsReady};
ghost use Rattle.tac_base.specs.Steps.{Makes};

use base_core::NoMemory;
use elab_core::{ElabFault, span_of_tree, term};
use form_core::instantiate;
use proof_tree::Rule;
use tac_base::{Draft, Opening, Site, TacFault, Top, top_of};
use term_core::{Formula, Name, Term};
use vern_lex::Span;
use vern_parse::RawExpr;

/// `split.`: both sides, or nothing where the goal is true.
pub(crate) fn split(site: &Site<'_>) -> Result<Opening, TacFault>
    requires { IsReady site.now }
    ensures { Makes (env_of site.now) (goal_at site.now) sentence.split result }
{
    let head = site.head()?;
    split_head(site, &head)
}

/// The same with the head form at hand.
fn split_head(site: &Site<'_>, head: &Formula) -> Result<Opening, TacFault>
    requires ready { IsReady site.now }
    requires head { meaning head.now ≡ head_form (env_of site.now) (goal_at site.now).shown }
    ensures { Makes (env_of site.now) (goal_at site.now) sentence.split result }
{
    match top_of(head) {
        Top::Both(a, b) => Ok(both_sides(site, a, b)?),
        Top::Truth => Ok(closed(site, Rule::TrueI)?),
        _ => Err(TacFault::NotOfForm),
    }
}

/// Both sides of a conjunction.
fn both_sides(site: &Site<'_>, a: &Formula, b: &Formula) -> Result<Opening, NoMemory>
    ensures { IfOk result (λ o. opening o ≡ made (step (and_i (meaning a.now) (meaning b.now))
        ∷ leaf (names (goal_at site.now).slots) ∷ leaf (names (goal_at site.now).slots) ∷ []) (meaning a.now ∷ meaning b.now ∷ [])) }
{
    let rule = Rule::AndI(a.copy()?, b.copy()?);
    with_two(site, rule, a, b)
}

/// `left.`: the left side.
pub(crate) fn left(site: &Site<'_>) -> Result<Opening, TacFault>
    requires { IsReady site.now }
    ensures { Makes (env_of site.now) (goal_at site.now) sentence.left result }
{
    let head = site.head()?;
    left_head(site, &head)
}

/// The same with the head form at hand.
fn left_head(site: &Site<'_>, head: &Formula) -> Result<Opening, TacFault>
    requires ready { IsReady site.now }
    requires head { meaning head.now ≡ head_form (env_of site.now) (goal_at site.now).shown }
    ensures { Makes (env_of site.now) (goal_at site.now) sentence.left result }
{
    match top_of(head) {
        Top::Either(a, b) => Ok(left_side(site, a, b)?),
        _ => Err(TacFault::NotOfForm),
    }
}

/// The left side of a disjunction.
fn left_side(site: &Site<'_>, a: &Formula, b: &Formula) -> Result<Opening, NoMemory>
    ensures { IfOk result (λ o. opening o ≡ made (step (or_i1 (meaning a.now) (meaning b.now))
        ∷ leaf (names (goal_at site.now).slots) ∷ []) (meaning a.now ∷ [])) }
{
    let rule = Rule::OrI1(a.copy()?, b.copy()?);
    with_one(site, rule, a)
}

/// `right.`: the right side.
pub(crate) fn right(site: &Site<'_>) -> Result<Opening, TacFault>
    requires { IsReady site.now }
    ensures { Makes (env_of site.now) (goal_at site.now) sentence.right result }
{
    let head = site.head()?;
    right_head(site, &head)
}

/// The same with the head form at hand.
fn right_head(site: &Site<'_>, head: &Formula) -> Result<Opening, TacFault>
    requires ready { IsReady site.now }
    requires head { meaning head.now ≡ head_form (env_of site.now) (goal_at site.now).shown }
    ensures { Makes (env_of site.now) (goal_at site.now) sentence.right result }
{
    match top_of(head) {
        Top::Either(a, b) => Ok(right_side(site, a, b)?),
        _ => Err(TacFault::NotOfForm),
    }
}

/// The right side of a disjunction.
fn right_side(site: &Site<'_>, a: &Formula, b: &Formula) -> Result<Opening, NoMemory>
    ensures { IfOk result (λ o. opening o ≡ made (step (or_i2 (meaning a.now) (meaning b.now))
        ∷ leaf (names (goal_at site.now).slots) ∷ []) (meaning b.now ∷ [])) }
{
    let rule = Rule::OrI2(a.copy()?, b.copy()?);
    with_one(site, rule, b)
}

/// `exfalso.`: falsity.
pub(crate) fn exfalso(site: &Site<'_>) -> Result<Opening, TacFault>
    requires { IsReady site.now }
    ensures { Makes (env_of site.now) (goal_at site.now) sentence.exfalso result }
{
    let made = with_one(site, Rule::FalseE, &Formula::False)?;
    Ok(made)
}

/// `exists t.`: the body with a term of its sort.
pub(crate) fn exists(site: &Site<'_>, raw: &RawExpr) -> Result<Opening, TacFault>
    requires { IsReady site.now }
    ensures { Makes (env_of site.now) (goal_at site.now) (sentence.exists (expression raw.now)) result }
{
    let (t, found) = term(site.alloc, site.env, &site.goal.context, raw)?;
    let head = site.head()?;
    exists_head(site, &head, &t, &found, span_of_tree(raw))
}

/// The same with the head form at hand, for a term of the sort `found` that stands in a span.
fn exists_head(
    site: &Site<'_>,
    head: &Formula,
    t: &Term,
    found: &Name,
    span: Span,
) -> Result<Opening, TacFault>
    requires ready { IsReady site.now }
    requires head { meaning head.now ≡ head_form (env_of site.now) (goal_at site.now).shown }
    requires term { HasSort (env_of site.now) (variables (entries (goal_at site.now).slots)) (term_meaning t.now) found.now }
    ensures { Answers (env_of site.now) (goal_at site.now) result
        (row (env_of site.now) (goal_at site.now).slots (goal_at site.now).shown (theory_witness found.now (term_meaning t.now) span)) }
{
    match top_of(head) {
        Top::Ex(sort, _, body) => {
            if sort.same(found) {
                Ok(witness(site, sort, body, t)?)
            } else {
                Err(TacFault::Elab(ElabFault::WrongSort(span)))
            }
        }
        _ => Err(TacFault::NotOfForm),
    }
}

/// The body with a term for its variable.
fn witness(site: &Site<'_>, sort: &Name, body: &Formula, t: &Term) -> Result<Opening, NoMemory>
    requires ready { IsReady site.now }
    requires body { WellFormed (env_of site.now) (sort.now ∷ variables (entries (goal_at site.now).slots)) (meaning body.now) }
    requires term { HasSort (env_of site.now) (variables (entries (goal_at site.now).slots)) (term_meaning t.now) sort.now }
    ensures { IfOk result (λ o. opening o
        ≡ made (step (ex_i sort.now (meaning body.now) (term_meaning t.now)) ∷ leaf (names (goal_at site.now).slots) ∷ [])
        (theory_instantiate (meaning body.now) (term_meaning t.now) ∷ [])) }
{
    let shown = instantiate(site.alloc, site.variables, body, t)?;
    let rule = Rule::ExI(sort.copy()?, body.copy()?, t.copy()?);
    with_one(site, rule, &shown)
}

/// A rule that leaves no goal.
pub(crate) fn closed(site: &Site<'_>, rule: Rule) -> Result<Opening, NoMemory>
    ensures { IfOk result (λ o. opening o ≡ made (rule_meaning rule ∷ []) []) }
{
    Draft::new(site.alloc).rule(rule)?.finish(site.alloc)
}

/// A rule that leaves one goal in the context that is there.
pub(crate) fn with_one(site: &Site<'_>, rule: Rule, a: &Formula) -> Result<Opening, NoMemory>
    ensures { IfOk result (λ o. opening o
        ≡ made (rule_meaning rule ∷ leaf (names (goal_at site.now).slots) ∷ []) (meaning a.now ∷ [])) }
{
    Draft::new(site.alloc)
        .rule(rule)?
        .leave(site.alloc, &site.goal.context, &[], a)?
        .finish(site.alloc)
}

/// A rule that leaves two.
fn with_two(site: &Site<'_>, rule: Rule, a: &Formula, b: &Formula) -> Result<Opening, NoMemory>
    ensures { IfOk result (λ o. opening o
        ≡ made (rule_meaning rule ∷ leaf (names (goal_at site.now).slots) ∷ leaf (names (goal_at site.now).slots) ∷ [])
        (meaning a.now ∷ meaning b.now ∷ [])) }
{
    Draft::new(site.alloc)
        .rule(rule)?
        .leave(site.alloc, &site.goal.context, &[], a)?
        .leave(site.alloc, &site.goal.context, &[], b)?
        .finish(site.alloc)
}
