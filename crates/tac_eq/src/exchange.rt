//! The rules by which one side of an equation takes the place of the other.
ghost use Rattle.std.specs.Prelude.{◌≡◌, ◌∷◌, ◌++◌, ◌≤◌, [], ℕ, List, length, map, IfOk, OnOk};
ghost use Rattle.fol_theory.specs.Contexts.{variables};
ghost use Rattle.fol_theory.specs.Slots.{entries, names};
ghost use Rattle.fol_theory.specs.Substitution.{next, replace_term};
ghost use Rattle.fol_theory.specs.Syntax.{equal, var};
ghost use Rattle.env_theory.specs.Declarations.{Declaration};
ghost use Rattle.env_theory.specs.Typing.{HasSort};
ghost use Rattle.logic_theory.specs.Rules.{eq_e, eq_i, leaf, step, Rule as Step};
ghost use Rattle.match_theory.specs.Places.{abstracted};
ghost use Rattle.proof_tree.specs.Meaning.{meaning as rule_meaning, meanings};
ghost use Rattle.term_core.specs.Formula.{meaning};
ghost use Rattle.term_core.specs.Term as term;
ghost use Rattle.tac_base.specs.Sites.{env_of, goal_at, IsReady};
ghost use Rattle.tac_eq.specs.Rewriting.{rewriting, turning, Turns};

use base_core::NoMemory;
use match_core::{fill, replace_all};
use proof_state::names_of;
use proof_tree::Rule;
use proof_tree::formulas::equal;
use std::alloc::Global;
use tac_base::Site;
use term_core::{Formula, Name, Term};

/// An equation by which one term gives way to another. It stands so, or with `back` the other way round.
#[derive(Clone, Copy)]
pub(crate) struct Sides<'a> {
    pub(crate) sort: &'a Name,
    pub(crate) from: &'a Term,
    pub(crate) to: &'a Term,
    pub(crate) back: bool,
}

/// The rules before those of the equation as it stands.
pub(crate) fn exchanging(
    site: &Site<'_>,
    sides: &Sides<'_>,
    from: &Term,
    to: &Term,
) -> Result<Vec<Rule>, NoMemory>
    requires ready { IsReady site.now }
    requires sorted { HasSort (env_of site.now) (variables (entries (goal_at site.now).slots)) (term.meaning from.now) sides.now.sort.now }
    ensures { IfOk result (λ rs. (others : List Step) → meanings rs.items ++ others
        ≡ rewriting sides.now.back sides.now.sort.now (term.meaning from.now) (term.meaning to.now) (goal_at site.now).slots
        (goal_at site.now).shown others) }
{
    let mut rules = exchange(site, sides.sort, from, to)?;
    turn(site, &mut rules, sides, from, to)?;
    Ok(rules)
}

/// The rule that exchanges a term of the goal for another, and the open leaf behind it.
fn exchange(site: &Site<'_>, sort: &Name, from: &Term, to: &Term) -> Result<Vec<Rule>, NoMemory>
    requires ready { IsReady site.now }
    requires sorted { HasSort (env_of site.now) (variables (entries (goal_at site.now).slots)) (term.meaning from.now) sort.now }
    ensures { IfOk result (λ rs. meanings rs.items
        ≡ step (eq_e sort.now (abstracted 0 (term.meaning from.now) (goal_at site.now).shown) (term.meaning from.now) (term.meaning to.now))
        ∷ leaf (names (goal_at site.now).slots) ∷ []) }
{
    let body = marked(site, from)?;
    let mut rules = Vec::new(site.alloc);
    rules.push(Rule::EqE(sort.copy()?, body, from.copy()?, to.copy()?))?;
    rules.push(Rule::Leaf(names_of(site.alloc, &site.goal.context)?))?;
    Ok(rules)
}

/// The goal with a variable of its own, the newest one, for each instance of a term. This is first the variable behind all
/// others, as many as these are, and is then made the newest.
fn marked(site: &Site<'_>, from: &Term) -> Result<Formula, NoMemory>
    requires ready { IsReady site.now }
    requires sorted { (s : List ℕ) × HasSort (env_of site.now) (variables (entries (goal_at site.now).slots)) (term.meaning from.now) s }
    ensures { IfOk result (λ a. meaning a ≡ abstracted 0 (term.meaning from.now) (goal_at site.now).shown) }
{
    let last = Term::Var(site.variables);
    let marked = replace_all(site.alloc, &site.goal.goal, from, &last)?;
    let turned = turned(site.alloc, site.variables)?;
    let body = fill(site.alloc, &marked, &turned)?;
    Ok(body)
}

/// Terms by which each variable below a number becomes the next one, and that number the newest.
fn turned(alloc: Global, n: u64) -> Result<Vec<Term>, NoMemory>
    ensures { IfOk result (λ ts. Turns n (map term.meaning ts.items)) }
{
    let mut terms = Vec::new(alloc);
    for i in 0..n {
        terms.push(Term::Var(i + 1))?;
    }
    terms.push(Term::Var(0))?;
    Ok(terms)
}

/// Behind other rules, those that lead to the equation as it stands.
fn turn(
    site: &Site<'_>,
    rules: &mut Vec<Rule>,
    sides: &Sides<'_>,
    from: &Term,
    to: &Term,
) -> Result<(), NoMemory>
    requires ready { IsReady site.now }
    requires sorted { HasSort (env_of site.now) (variables (entries (goal_at site.now).slots)) (term.meaning from.now) sides.now.sort.now }
    ensures { OnOk result (meanings rules.new.items ≡ meanings rules.old.items
        ++ turning sides.now.back sides.now.sort.now (term.meaning from.now) (term.meaning to.now)) }
{
    if !sides.back {
        return Ok(());
    }
    rules.push(turned_rule(site.alloc, site.variables, sides.sort, from, to)?)?;
    rules.push(same_rule(sides.sort, from)?)?;
    Ok(())
}

/// The rule that leads from an equation to the one the other way round.
fn turned_rule(
    alloc: Global,
    variables: u64,
    sort: &Name,
    from: &Term,
    to: &Term,
) -> Result<Rule, NoMemory>
    requires { (E : List Declaration) × (V : List (List ℕ)) × HasSort E V (term.meaning from.now) sort.now × (length V ≤ variables) }
    ensures { IfOk result (λ r. rule_meaning r ≡ step (eq_e sort.now
        (equal sort.now (replace_term next (term.meaning from.now)) (var 0)) (term.meaning to.now) (term.meaning from.now))) }
{
    let shifted = from.shift(alloc, 0, 1)?;
    let body = equal(sort, &shifted, &Term::Var(0))?;
    Ok(Rule::EqE(sort.copy()?, body, to.copy()?, from.copy()?))
}

/// The rule that a term is equal to itself.
fn same_rule(sort: &Name, t: &Term) -> Result<Rule, NoMemory>
    ensures { IfOk result (λ r. rule_meaning r ≡ step (eq_i sort.now (term.meaning t.now))) }
{
    Ok(Rule::EqI(sort.copy()?, t.copy()?))
}
