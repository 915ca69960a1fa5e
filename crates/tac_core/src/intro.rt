//! Introductions.
ghost use Rattle.std.specs.Prelude.{◌≡◌, [], ◌∷◌, option_map, IfOk};
ghost use Rattle.fol_theory.specs.Slots.{names};
ghost use Rattle.fol_theory.specs.Syntax.{all, implies};
ghost use Rattle.env_theory.specs.Heads.{head_form};
ghost use Rattle.logic_theory.specs.Rules.{all_i, imp_i, leaf, step};
ghost use Rattle.term_core.specs.Formula.{meaning};
ghost use Rattle.vern_parse.specs.Meaning.{name};
ghost use Rattle.vern_sentence.specs.Trees as sentence;
ghost use Rattle.tactic_theory.specs.Refinements.{named};
ghost use Rattle.tactic_theory.specs.Typing.{text_in};
ghost use Rattle.tac_base.specs.Faults.{Gives};
ghost use Rattle.tac_base.specs.Openings.{made, opening};
ghost use Rattle.tac_base.specs.Sites.{env_of, goal_at, IsReady};
ghost use Rattle.tac_base.specs.Steps.{Makes};

use base_core::NoMemory;
use elab_core::name_of;
use proof_tree::Rule;
use tac_base::{Draft, Opening, Site, TacFault, Top, fresh, is_taken, top_of};
use term_core::{Formula, Name};
use vern_parse::RawName;

/// `intro x.`, or `intro.` with a fresh name: the body of a quantifier or of an implication, with a variable or a hypothesis
/// more.
pub(crate) fn intro(site: &Site<'_>, given: Option<&RawName>) -> Result<Opening, TacFault>
    requires { IsReady site.now }
    ensures { Makes (env_of site.now) (goal_at site.now) (sentence.intro (option_map (λ x. name x.now) given.entry)) result }
{
    let head = site.head()?;
    intro_head(site, &head, given)
}

/// The same with the head form at hand.
fn intro_head(site: &Site<'_>, head: &Formula, given: Option<&RawName>) -> Result<Opening, TacFault>
    requires ready { IsReady site.now }
    requires head { meaning head.now ≡ head_form (env_of site.now) (goal_at site.now).shown }
    ensures { Makes (env_of site.now) (goal_at site.now) (sentence.intro (option_map (λ x. name x.now) given.entry)) result }
{
    match top_of(head) {
        Top::All(sort, printed, body) => intro_variable(site, given, sort, printed, body),
        Top::Implies(premise, conclusion) => intro_premise(site, given, premise, conclusion),
        _ => Err(TacFault::NotOfForm),
    }
}

/// The variable of a quantifier.
fn intro_variable(
    site: &Site<'_>,
    given: Option<&RawName>,
    sort: &Name,
    printed: &Name,
    body: &Formula,
) -> Result<Opening, TacFault>
    requires ready { IsReady site.now }
    requires head { all sort.now printed.now (meaning body.now) ≡ head_form (env_of site.now) (goal_at site.now).shown }
    ensures { Makes (env_of site.now) (goal_at site.now) (sentence.intro (option_map (λ x. name x.now) given.entry)) result }
{
    let name = named(site, given, printed)?;
    Ok(with_variable(site, &name, sort, body)?)
}

/// The premise of an implication.
fn intro_premise(
    site: &Site<'_>,
    given: Option<&RawName>,
    premise: &Formula,
    conclusion: &Formula,
) -> Result<Opening, TacFault>
    requires ready { IsReady site.now }
    requires head { implies (meaning premise.now) (meaning conclusion.now) ≡ head_form (env_of site.now) (goal_at site.now).shown }
    ensures { Makes (env_of site.now) (goal_at site.now) (sentence.intro (option_map (λ x. name x.now) given.entry)) result }
{
    let plain = Name::from_slice(site.alloc, b"H")?;
    let name = named(site, given, &plain)?;
    Ok(with_hypothesis(site, &name, premise, conclusion)?)
}

/// The name that is given, if it is free, or a fresh one.
fn named(site: &Site<'_>, given: Option<&RawName>, plain: &Name) -> Result<Name, TacFault>
    ensures { Gives (λ n. n) (λ f. f) result
        (named (env_of site.now) (goal_at site.now).slots (text_in (option_map (λ x. name x.now) given.entry)) plain.now) }
{
    match given {
        None => Ok(fresh(site.alloc, site.env, &site.goal.context, plain)?),
        Some(x) => {
            let name = name_of(x)?;
            if is_taken(site.env, &site.goal.context, &name) {
                return Err(TacFault::NameTaken);
            }
            Ok(name)
        }
    }
}

/// The body of a quantifier, with a variable more.
fn with_variable(
    site: &Site<'_>,
    name: &Name,
    sort: &Name,
    body: &Formula,
) -> Result<Opening, NoMemory>
    ensures { IfOk result (λ o. opening o
        ≡ made (step (all_i sort.now (meaning body.now)) ∷ leaf (name.now ∷ names (goal_at site.now).slots) ∷ []) (meaning body.now ∷ [])) }
{
    Draft::new(site.alloc)
        .rule(Rule::AllI(sort.copy()?, body.copy()?))?
        .leave(site.alloc, &site.goal.context, &[name], body)?
        .finish(site.alloc)
}

/// The conclusion of an implication, with its premise as a hypothesis more.
fn with_hypothesis(
    site: &Site<'_>,
    name: &Name,
    premise: &Formula,
    conclusion: &Formula,
) -> Result<Opening, NoMemory>
    ensures { IfOk result (λ o. opening o ≡ made
        (step (imp_i (meaning premise.now) (meaning conclusion.now)) ∷ leaf (name.now ∷ names (goal_at site.now).slots) ∷ [])
        (meaning premise.now ∷ meaning conclusion.now ∷ [])) }
{
    Draft::new(site.alloc)
        .rule(Rule::ImpI(premise.copy()?, conclusion.copy()?))?
        .entry(premise)?
        .leave(site.alloc, &site.goal.context, &[name], conclusion)?
        .finish(site.alloc)
}
