//! Rows that look at an equation.
ghost use Rattle.std.specs.Prelude.{◌≡◌, ◌↔◌, [], ◌∷◌, List, IfOk, IsTrue};
ghost use Rattle.fol_theory.specs.Slots.{names};
ghost use Rattle.fol_theory.specs.Substitution.{next, replace_term};
ghost use Rattle.fol_theory.specs.Syntax as theory;
ghost use Rattle.fol_theory.specs.Syntax.{var};
ghost use Rattle.env_theory.specs.Declarations.{Declaration};
ghost use Rattle.env_theory.specs.Heads.{head_form};
ghost use Rattle.env_theory.specs.Normal.{normal_term};
ghost use Rattle.env_core.specs.Meaning.{declarations};
ghost use Rattle.logic_theory.specs.Rules as rules;
ghost use Rattle.logic_theory.specs.Rules.{leaf, step};
ghost use Rattle.term_core.specs.Formula.{meaning};
ghost use Rattle.term_core.specs.Term as term;
ghost use Rattle.proof_tree.specs.Meaning.{meaning as rule_meaning};
ghost use Rattle.vern_sentence.specs.Trees as sentence;
ghost use Rattle.tac_base.specs.Openings.{drafted, made, opening};
ghost use Rattle.tac_base.specs.Sites.{env_of, goal_at, IsReady};
ghost use Rattle.tac_base.specs.Steps.{Makes};
ghost use Rattle.tac_eq.specs.Over.{IsTermOver};

use base_core::NoMemory;
use conv_core::same_terms;
use env_core::Env;
use proof_tree::Rule;
use proof_tree::formulas::equal;
use std::alloc::Global;
use tac_base::{Draft, Opening, Site, TacFault, Top, top_of};
use term_core::{Formula, Name, Term};

/// `reflexivity.`: both sides of the goal have one normal form.
pub(crate) fn reflexivity(site: &Site<'_>) -> Result<Opening, TacFault>
    requires { IsReady site.now }
    ensures { Makes (env_of site.now) (goal_at site.now) sentence.reflexivity result }
{
    let head = site.head()?;
    match top_of(&head) {
        Top::Equal(sort, t, u) => by_sides(site, sort, t, u),
        _ => Err(TacFault::NotOfForm),
    }
}

/// `symmetry.`: the sides exchanged.
pub(crate) fn symmetry(site: &Site<'_>) -> Result<Opening, TacFault>
    requires { IsReady site.now }
    ensures { Makes (env_of site.now) (goal_at site.now) sentence.symmetry result }
{
    let head = site.head()?;
    match top_of(&head) {
        Top::Equal(sort, t, u) => {
            let made = exchanged(site, sort, t, u)?;
            Ok(made)
        }
        _ => Err(TacFault::NotOfForm),
    }
}

/// Reflexivity where the head form of the goal is an equation with these sides.
fn by_sides(site: &Site<'_>, sort: &Name, t: &Term, u: &Term) -> Result<Opening, TacFault>
    requires ready { IsReady site.now }
    requires head { head_form (env_of site.now) (goal_at site.now).shown
        ≡ theory.equal sort.now (term.meaning t.now) (term.meaning u.now) }
    ensures { Makes (env_of site.now) (goal_at site.now) sentence.reflexivity result }
{
    if !is_same_term(site.alloc, site.env, site.variables, t, u)? {
        return Err(TacFault::CannotMatch);
    }
    let made = closed(site.alloc, sort, t)?;
    Ok(made)
}

/// Whether two terms, under no more than so many variables, have one normal form. A term has no binders, so 64 bits hold the
/// indices of its normal form as they hold the number of the variables.
fn is_same_term(
    alloc: Global,
    env: &Env,
    variables: u64,
    t: &Term,
    u: &Term,
) -> Result<bool, NoMemory>
    requires first { IsTermOver (declarations env.now) variables (term.meaning t.now) }
    requires second { IsTermOver (declarations env.now) variables (term.meaning u.now) }
    ensures { IfOk result (λ r. IsTrue r
        ↔ (normal_term (declarations env.now) (term.meaning t.now) ≡ normal_term (declarations env.now) (term.meaning u.now))) }
{
    env.environment();
    same_terms(alloc, env, t, u)
}

/// An equation of a term with itself, which leaves nothing open.
fn closed(alloc: Global, sort: &Name, t: &Term) -> Result<Opening, NoMemory>
    ensures { IfOk result (λ o. opening o ≡ made (step (rules.eq_i sort.now (term.meaning t.now)) ∷ []) []) }
{
    let draft = Draft::new(alloc).rule(eq_i(sort, t)?)?;
    draft.finish(alloc)
}

/// The equation of t and u from that of u and t, which is left open.
fn exchanged(site: &Site<'_>, sort: &Name, t: &Term, u: &Term) -> Result<Opening, NoMemory>
    requires { IsTermOver (env_of site.now) site.now.variables (term.meaning t.now) }
    ensures { IfOk result (λ o. opening o ≡ made
        (step (rules.eq_e sort.now (theory.equal sort.now (replace_term next (term.meaning t.now)) (var 0)) (term.meaning u.now) (term.meaning t.now))
        ∷ step (rules.eq_i sort.now (term.meaning t.now)) ∷ leaf (names (goal_at site.now).slots) ∷ [])
        (theory.equal sort.now (term.meaning u.now) (term.meaning t.now) ∷ [])) }
{
    let shown = equal(sort, u, t)?;
    let draft = put_on_the_right(site.alloc, site.variables, sort, t, u)?.leave(
        site.alloc,
        &site.goal.context,
        &[],
        &shown,
    )?;
    draft.finish(site.alloc)
}

/// In the equation of t with itself u takes the place of t on the right. The equation of u and t is to be shown next.
fn put_on_the_right(
    alloc: Global,
    variables: u64,
    sort: &Name,
    t: &Term,
    u: &Term,
) -> Result<Draft, NoMemory>
    requires { (E : List Declaration) × IsTermOver E variables (term.meaning t.now) }
    ensures { IfOk result (λ d. drafted d ≡ made
        (step (rules.eq_e sort.now (theory.equal sort.now (replace_term next (term.meaning t.now)) (var 0)) (term.meaning u.now) (term.meaning t.now))
        ∷ step (rules.eq_i sort.now (term.meaning t.now)) ∷ []) []) }
{
    let body = left_side(alloc, variables, sort, t)?;
    let draft = Draft::new(alloc).rule(eq_e(sort, &body, u, t)?)?;
    draft.rule(eq_i(sort, t)?)
}

/// The equation of a term, under one variable more, and that variable.
fn left_side(alloc: Global, variables: u64, sort: &Name, t: &Term) -> Result<Formula, NoMemory>
    requires { (E : List Declaration) × IsTermOver E variables (term.meaning t.now) }
    ensures { IfOk result (λ f. meaning f ≡ theory.equal sort.now (replace_term next (term.meaning t.now)) (var 0)) }
{
    let raised = t.shift(alloc, 0, 1)?;
    equal(sort, &raised, &Term::Var(0))
}

/// The rule that a term is equal to itself.
fn eq_i(sort: &Name, t: &Term) -> Result<Rule, NoMemory>
    ensures { IfOk result (λ r. rule_meaning r ≡ step (rules.eq_i sort.now (term.meaning t.now))) }
{
    Ok(Rule::EqI(sort.copy()?, t.copy()?))
}

/// The rule that a formula holds of u where it holds of t and they are equal.
fn eq_e(sort: &Name, body: &Formula, t: &Term, u: &Term) -> Result<Rule, NoMemory>
    ensures { IfOk result (λ r. rule_meaning r
        ≡ step (rules.eq_e sort.now (meaning body.now) (term.meaning t.now) (term.meaning u.now))) }
{
    Ok(Rule::EqE(sort.copy()?, body.copy()?, t.copy()?, u.copy()?))
}
