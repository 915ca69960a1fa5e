//! The sequents that a rule leads to from a place with the goal C:
//!
//! | rule | children |
//! |---|---|
//! | Hyp, Stated, TrueI, EqI | |
//! | FalseE | False |
//! | AndI(A, B) | A; B |
//! | AndE(A, B) | A and B joined; C with A and B added |
//! | OrI1(A, B), OrI2(A, B) | A; or B |
//! | OrE(A, B) | A or B; C with A added; C with B added |
//! | ImpI(A, B) | B with A added |
//! | ImpE(A) | A implies C; A |
//! | AllI(s, B) | B with a variable of sort s added |
//! | AllE(s, B, t) | B for all of s |
//! | ExI(s, B, t) | B with t |
//! | ExE(s, B) | B for one of s; C, lifted, with a variable of sort s and B added |
//! | EqE(s, B, t, u) | B with u; t = u |
//! | Cut(A) | A; C with A added |
//! | Drop(i) | C without hypothesis i |
//! | Conv(A) | A |
//!
//! What a rule asks besides isn't looked at.
ghost use Rattle.std.specs.Prelude.{◌≡◌, ◌++◌, IfOk};
ghost use Rattle.fol_theory.specs.Substitution as substitution;
ghost use Rattle.term_core.specs.Context as context;
ghost use Rattle.term_core.specs.Formula.{meaning};
ghost use Rattle.term_core.specs.Term as term;
ghost use Rattle.logic_theory.specs.Rules as theory;
ghost use Rattle.proof_tree.specs.Meaning as rules;
ghost use Rattle.proof_tree.specs.Places.{InstanceFits, LiftFits, IndicesFit};
ghost use Rattle.proof_tree.specs.Stacks.{waiting, led_to, PushesChildren};

use crate::Rule;
use crate::formulas::{both, either, equal, for_all, for_one, implies};
use crate::stack::{
    push_binding, push_goal, push_under, push_under_both, push_without, push_witnessing,
};
use base_core::NoMemory;
use std::alloc::Global;
use term_core::{Formula, Name, Sequent, Term};

/// Puts what a rule leads to from a place on a stack, the first child on top. An open leaf leads to nothing.
pub fn push_children(
    alloc: Global,
    place: &Sequent,
    rule: &Rule,
    stack: &mut Vec<Sequent>,
) -> Result<(), NoMemory>
    requires { IndicesFit (rules.meaning rule.now) (context.meaning place.now) }
    ensures { IfOk result (λ _. waiting stack.new.items
        ≡ led_to (rules.meaning rule.now) (context.meaning place.now) ++ waiting stack.old.items) }
{
    match rule {
        Rule::Leaf(_) | Rule::Hyp(_) | Rule::Stated(_) | Rule::TrueI | Rule::EqI(..) => Ok(()),
        Rule::FalseE => push_goal(stack, place, Formula::False),
        Rule::AndI(a, b) => and_i(place, a, b, stack),
        Rule::AndE(a, b) => and_e(alloc, place, a, b, stack),
        Rule::OrI1(a, _) => push_goal(stack, place, a.copy()?),
        Rule::OrI2(_, b) => push_goal(stack, place, b.copy()?),
        Rule::OrE(a, b) => or_e(alloc, place, a, b, stack),
        Rule::ImpI(a, b) => push_under(stack, alloc, place, a, b),
        Rule::ImpE(a) => imp_e(alloc, place, a, stack),
        Rule::AllI(sort, body) => push_binding(stack, alloc, place, sort, body),
        Rule::AllE(sort, body, _) => push_goal(stack, place, for_all(alloc, sort, body)?),
        Rule::ExI(_, body, t) => push_goal(stack, place, instantiate(alloc, body, t)?),
        Rule::ExE(sort, body) => ex_e(alloc, place, sort, body, stack),
        Rule::EqE(sort, body, t, u) => eq_e(alloc, place, sort, body, t, u, stack),
        Rule::Cut(a) => cut(alloc, place, a, stack),
        Rule::Drop(number) => push_without(stack, alloc, place, *number),
        Rule::Conv(a) => push_goal(stack, place, a.copy()?),
    }
}

/// A and B.
fn and_i(
    place: &Sequent,
    a: &Formula,
    b: &Formula,
    stack: &mut Vec<Sequent>,
) -> Result<(), NoMemory>
    ensures { IfOk result (λ _. PushesChildren (theory.and_i (meaning a.now) (meaning b.now)) place.now stack.old.items stack.new.items) }
{
    push_goal(stack, place, b.copy()?)?;
    push_goal(stack, place, a.copy()?)
}

/// Both of A and B, and the goal under them.
fn and_e(
    alloc: Global,
    place: &Sequent,
    a: &Formula,
    b: &Formula,
    stack: &mut Vec<Sequent>,
) -> Result<(), NoMemory>
    ensures { IfOk result (λ _. PushesChildren (theory.and_e (meaning a.now) (meaning b.now)) place.now stack.old.items stack.new.items) }
{
    push_under_both(stack, alloc, place, a, b)?;
    push_goal(stack, place, both(alloc, a, b)?)
}

/// One of A and B, and the goal under each.
fn or_e(
    alloc: Global,
    place: &Sequent,
    a: &Formula,
    b: &Formula,
    stack: &mut Vec<Sequent>,
) -> Result<(), NoMemory>
    ensures { IfOk result (λ _. PushesChildren (theory.or_e (meaning a.now) (meaning b.now)) place.now stack.old.items stack.new.items) }
{
    push_under(stack, alloc, place, b, &place.goal)?;
    push_under(stack, alloc, place, a, &place.goal)?;
    push_goal(stack, place, either(alloc, a, b)?)
}

/// That A implies the goal, and A.
fn imp_e(
    alloc: Global,
    place: &Sequent,
    a: &Formula,
    stack: &mut Vec<Sequent>,
) -> Result<(), NoMemory>
    ensures { IfOk result (λ _. PushesChildren (theory.imp_e (meaning a.now)) place.now stack.old.items stack.new.items) }
{
    push_goal(stack, place, a.copy()?)?;
    push_goal(stack, place, implies(alloc, a, &place.goal)?)
}

/// That B for one of a sort, and the goal under a variable with B.
fn ex_e(
    alloc: Global,
    place: &Sequent,
    sort: &Name,
    body: &Formula,
    stack: &mut Vec<Sequent>,
) -> Result<(), NoMemory>
    requires { LiftFits (meaning place.now.goal) }
    ensures { IfOk result (λ _. PushesChildren (theory.ex_e sort.now (meaning body.now)) place.now stack.old.items stack.new.items) }
{
    push_witnessing(stack, alloc, place, sort, body, lifted(alloc, &place.goal)?)?;
    push_goal(stack, place, for_one(alloc, sort, body)?)
}

/// B with u, and that t is equal to u.
fn eq_e(
    alloc: Global,
    place: &Sequent,
    sort: &Name,
    body: &Formula,
    t: &Term,
    u: &Term,
    stack: &mut Vec<Sequent>,
) -> Result<(), NoMemory>
    requires { InstanceFits (meaning body.now) (term.meaning u.now) }
    ensures { IfOk result (λ _. PushesChildren
        (theory.eq_e sort.now (meaning body.now) (term.meaning t.now) (term.meaning u.now)) place.now stack.old.items stack.new.items) }
{
    push_goal(stack, place, equal(sort, t, u)?)?;
    push_goal(stack, place, instantiate(alloc, body, u)?)
}

/// A, and the goal under A.
fn cut(
    alloc: Global,
    place: &Sequent,
    a: &Formula,
    stack: &mut Vec<Sequent>,
) -> Result<(), NoMemory>
    ensures { IfOk result (λ _. PushesChildren (theory.cut (meaning a.now)) place.now stack.old.items stack.new.items) }
{
    push_under(stack, alloc, place, a, &place.goal)?;
    push_goal(stack, place, a.copy()?)
}

/// The body of a quantifier with a term for its variable.
#[tactic(auto, using(crate::proofs::Indices::by_index))]
fn instantiate(alloc: Global, body: &Formula, t: &Term) -> Result<Formula, NoMemory>
    requires { InstanceFits (meaning body.now) (term.meaning t.now) }
    ensures { IfOk result (λ f. meaning f ≡ substitution.instantiate (meaning body.now) (term.meaning t.now)) }
{
    body.substitute(alloc, 0, t)
}

/// A formula as it stands under one variable more.
#[tactic(auto, using(crate::proofs::Indices::by_index))]
fn lifted(alloc: Global, a: &Formula) -> Result<Formula, NoMemory>
    requires { LiftFits (meaning a.now) }
    ensures { IfOk result (λ f. meaning f ≡ substitution.under (meaning a.now)) }
{
    a.shift(alloc, 0, 1)
}
