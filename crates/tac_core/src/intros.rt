//! Introductions one after another.
ghost use Rattle.std.specs.Prelude.{◌≡◌, [], ◌∷◌, codes, IfOk};
ghost use Rattle.fol_theory.specs.Contexts.{hypothesis, variable};
ghost use Rattle.fol_theory.specs.Slots.{slot};
ghost use Rattle.logic_theory.specs.Rules.{all_i, imp_i, step};
ghost use Rattle.term_core.specs.Context.{slots};
ghost use Rattle.term_core.specs.Formula.{meaning};
ghost use Rattle.vern_sentence.specs.Trees as sentence;
ghost use Rattle.tactic_theory.specs.Names as theory;
ghost use Rattle.tactic_theory.specs.Refinements.{intro_all};
ghost use Rattle.tac_base.specs.Openings.{drafted, opening, with_formula, with_rule, Opens};
ghost use Rattle.tac_base.specs.Sites.{env_of, goal_at, IsReady};
ghost use Rattle.tac_base.specs.Steps.{Makes};

use base_core::NoMemory;
use proof_tree::Rule;
use tac_base::{Draft, Opening, Site, TacFault, Top, fresh, top_of};
use term_core::{Context, Formula, Name, Slot};

/// `intros.`: `intro.` as long as the goal as written is a quantifier or an implication.
pub(crate) fn intros(site: &Site<'_>) -> Result<Opening, TacFault>
    requires { IsReady site.now }
    ensures { Makes (env_of site.now) (goal_at site.now) (sentence.intros []) result }
{
    let made = introduced(site)?;
    Ok(made)
}

/// The same: from quantifier to quantifier, and from implication to implication.
fn introduced(site: &Site<'_>) -> Result<Opening, NoMemory>
    requires { IsReady site.now }
    ensures { IfOk result (λ o. Opens (env_of site.now) (goal_at site.now)
        (intro_all (env_of site.now) [] (goal_at site.now).slots (goal_at site.now).shown ∷ []) (opening o)) }
{
    let mut context = site.goal.context.copy()?;
    let mut draft = Draft::new(site.alloc);
    let mut at = &site.goal.goal;
    loop {
        match top_of(at) {
            Top::All(sort, printed, body) => {
                (context, draft) = push_variable(site, context, draft, sort, printed, body)?;
                at = body;
            }
            Top::Implies(premise, conclusion) => {
                (context, draft) = push_premise(site, context, draft, premise, conclusion)?;
                at = conclusion;
            }
            _ => return draft
                .leave(site.alloc, &context, &[], at)?
                .finish(site.alloc),
        }
    }
}

/// The variable of a quantifier, with a fresh name.
fn push_variable(
    site: &Site<'_>,
    context: Context,
    draft: Draft,
    sort: &Name,
    printed: &Name,
    body: &Formula,
) -> Result<(Context, Draft), NoMemory>
    ensures context { IfOk result (λ r. slots r.0
        ≡ slot (theory.fresh (env_of site.now) (slots context) printed.now) (variable sort.now) ∷ slots context) }
    ensures draft { IfOk result (λ r. drafted r.1 ≡ with_rule (step (all_i sort.now (meaning body.now))) (drafted draft)) }
{
    let name = fresh(site.alloc, site.env, &context, printed)?;
    let sort_of = sort.copy()?;
    let context = context.push(
        site.alloc,
        Slot::Var {
            name,
            sort: sort_of,
        },
    )?;
    let draft = draft.rule(Rule::AllI(sort.copy()?, body.copy()?))?;
    Ok((context, draft))
}

/// The premise of an implication, as a hypothesis with a fresh name.
fn push_premise(
    site: &Site<'_>,
    context: Context,
    draft: Draft,
    premise: &Formula,
    conclusion: &Formula,
) -> Result<(Context, Draft), NoMemory>
    ensures context { IfOk result (λ r. slots r.0
        ≡ slot (theory.fresh (env_of site.now) (slots context) (codes "H")) (hypothesis (meaning premise.now)) ∷ slots context) }
    ensures draft { IfOk result (λ r. drafted r.1 ≡ with_formula (meaning premise.now)
        (with_rule (step (imp_i (meaning premise.now) (meaning conclusion.now))) (drafted draft))) }
{
    let plain = Name::from_slice(site.alloc, b"H")?;
    let name = fresh(site.alloc, site.env, &context, &plain)?;
    let formula = premise.copy()?;
    let context = context.push(site.alloc, Slot::Hyp { name, formula })?;
    let draft = draft
        .rule(Rule::ImpI(premise.copy()?, conclusion.copy()?))?
        .entry(premise)?;
    Ok((context, draft))
}
