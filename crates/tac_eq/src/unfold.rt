//! Definitions put in.
ghost use Rattle.std.specs.Prelude.{◌≡◌, ◌<◌, [], ◌∷◌, List, None, Ok, Some, IfOk};
ghost use Rattle.fol_theory.specs.Contexts.{count, IsHypothesis};
ghost use Rattle.fol_theory.specs.Slots.{entries, names, slots_without};
ghost use Rattle.env_theory.specs.Normal as theory;
ghost use Rattle.env_theory.specs.Typing.{Put};
ghost use Rattle.env_core.specs.Meaning.{declaration};
ghost use Rattle.logic_theory.specs.Rules.{conv, cut, drop as without, hyp, leaf, step};
ghost use Rattle.elab_theory.specs.Locals.{declared};
ghost use Rattle.vern_parse.specs.Meaning.{name};
ghost use Rattle.vern_sentence.specs.Trees.{unfold_in as unfold_sentence};
ghost use Rattle.tactic_theory.specs.Names.{hypothesis_at};
ghost use Rattle.tactic_theory.specs.Refinements.{unfolded_in, Part};
ghost use Rattle.tactic_theory.specs.Typing.{definition_at, meaning as known_as};
ghost use Rattle.term_core.specs.Formula.{meaning};
ghost use Rattle.tac_base.specs.Faults.{Gives};
ghost use Rattle.tac_base.specs.Openings.{made, opening, Opens};
ghost use Rattle.tac_base.specs.Sites.{env_of, goal_at, IsReady};
ghost use Rattle.tac_base.specs.Steps.{Makes};

use crate::expand::expand;
use crate::mention::mentions;
use base_core::NoMemory;
use elab_core::{ElabFault, name_of};
use env_core::Decl;
use form_core::shifted;
use proof_tree::Rule;
use tac_base::{Draft, Opening, Site, TacFault, hypothesis_named};
use term_core::{Formula, Name};
use vern_parse::RawName;

/// `unfold d.`: the goal with the definition put in for each `d`.
pub(crate) fn unfold_goal(site: &Site<'_>, definition: &RawName) -> Result<Opening, TacFault>
    requires { IsReady site.now }
    ensures { Makes (env_of site.now) (goal_at site.now) (unfold_sentence (name definition.now) None) result }
{
    let made = expanded(site, definition_of(site, definition)?)?;
    Ok(made)
}

/// `unfold d in h.`: the same of a hypothesis, which goes to the end of the context where `d` stands in it.
pub(crate) fn unfold_in(
    site: &Site<'_>,
    definition: &RawName,
    hypothesis: &RawName,
) -> Result<Opening, TacFault>
    requires { IsReady site.now }
    ensures { Makes (env_of site.now) (goal_at site.now) (unfold_sentence (name definition.now) (Some (name hypothesis.now))) result }
{
    let decl = definition_of(site, definition)?;
    let name = name_of(hypothesis)?;
    match hypothesis_named(&site.goal.context, &name) {
        None => Err(TacFault::NoSuchHyp),
        Some(number) => {
            let made = unfold_at(site, decl, &name, number)?;
            Ok(made)
        }
    }
}

/// The definition that a name stands for, if it stands for one.
fn definition_of<'a>(site: &Site<'a>, x: &RawName) -> Result<&'a Decl, TacFault>
    requires { IsReady site.now }
    ensures gives { Gives (λ d. declaration d.now) (λ f. f) result
        (definition_at (known_as (env_of site.now) (goal_at site.now).slots x.now.text) (name x.now)) }
    ensures put { IfOk result (λ d. Put (env_of site.now) (declaration d.now)) }
{
    let name = name_of(x)?;
    match site.goal.context.find(&name) {
        Some(_) => Err(TacFault::Elab(ElabFault::WrongKind(x.span))),
        None => match site.env.find(&name) {
            None => Err(TacFault::Elab(ElabFault::UnknownName(x.span))),
            Some(decl) => defined(decl, x),
        },
    }
}

/// A declaration that is a definition.
fn defined<'a>(decl: &'a Decl, x: &RawName) -> Result<&'a Decl, TacFault>
    ensures same { IfOk result (λ d. declaration d.now ≡ declaration decl.now) }
    ensures gives { Gives (λ d. declaration d.now) (λ f. f) result (definition_at (declared (declaration decl.now)) (name x.now)) }
{
    match decl {
        Decl::DefFun { .. } => Ok(decl),
        Decl::DefPred { .. } => Ok(decl),
        _ => Err(TacFault::Elab(ElabFault::WrongKind(x.span))),
    }
}

/// The goal with a definition put in.
fn expanded(site: &Site<'_>, decl: &Decl) -> Result<Opening, NoMemory>
    requires { Put (env_of site.now) (declaration decl.now) }
    ensures { IfOk result (λ o. opening o ≡ made
        (step (conv (theory.expand (declaration decl.now) (goal_at site.now).shown)) ∷ leaf (names (goal_at site.now).slots) ∷ [])
        (theory.expand (declaration decl.now) (goal_at site.now).shown ∷ [])) }
{
    let shown = expand(site.alloc, decl, &site.goal.goal)?;
    let draft = Draft::new(site.alloc)
        .rule(Rule::Conv(shown.copy()?))?
        .leave(site.alloc, &site.goal.context, &[], &shown)?;
    draft.finish(site.alloc)
}

/// The hypothesis with this name and number with a definition put in, where that stands in it.
fn unfold_at(site: &Site<'_>, decl: &Decl, name: &Name, number: u64) -> Result<Opening, NoMemory>
    requires ready { IsReady site.now }
    requires put { Put (env_of site.now) (declaration decl.now) }
    requires below { number < count (entries (goal_at site.now).slots) }
    ensures { IfOk result (λ o. (ps : List Part)
        × (unfolded_in (declaration decl.now) (goal_at site.now).slots name.now number
        (hypothesis_at (entries (goal_at site.now).slots) number) (goal_at site.now).shown ≡ Ok ps)
        × Opens (env_of site.now) (goal_at site.now) ps (opening o)) }
{
    let a = assumed(site, number)?;
    if !mentions(&a, decl.name()) {
        return left_open(site);
    }
    let b = expand(site.alloc, decl, &a)?;
    moved(site, name, number, &b)
}

/// The hypothesis with this number, as it stands under all variables.
fn assumed(site: &Site<'_>, number: u64) -> Result<Formula, NoMemory>
    requires ready { IsReady site.now }
    requires below { number < count (entries (goal_at site.now).slots) }
    ensures { IfOk result (λ a. IsHypothesis (entries (goal_at site.now).slots) number (meaning a)) }
{
    match site.goal.context.hypothesis(number)? {
        None => unreachable!(),
        Some((a, newer)) => shifted(site.alloc, site.variables, a, newer),
    }
}

/// The goal as it is.
fn left_open(site: &Site<'_>) -> Result<Opening, NoMemory>
    ensures { IfOk result (λ o. opening o ≡ made (leaf (names (goal_at site.now).slots) ∷ []) ((goal_at site.now).shown ∷ [])) }
{
    let draft = Draft::new(site.alloc).leave(site.alloc, &site.goal.context, &[], &site.goal.goal)?;
    draft.finish(site.alloc)
}

/// The goal with another formula, which the hypothesis shows, in that hypothesis's place, at the end of the context.
fn moved(site: &Site<'_>, name: &Name, number: u64, b: &Formula) -> Result<Opening, NoMemory>
    ensures { IfOk result (λ o. opening o ≡ made
        (step (cut (meaning b.now)) ∷ step (hyp number) ∷ step (without number)
        ∷ leaf (name.now ∷ names (slots_without (goal_at site.now).slots number)) ∷ [])
        (meaning b.now ∷ (goal_at site.now).shown ∷ [])) }
{
    let context = site.goal.context.without(site.alloc, number)?;
    let draft = Draft::new(site.alloc)
        .rule(Rule::Cut(b.copy()?))?
        .rule(Rule::Hyp(number))?
        .rule(Rule::Drop(number))?
        .entry(b)?
        .leave(site.alloc, &context, &[name], &site.goal.goal)?;
    draft.finish(site.alloc)
}
