//! Sequents put on the stack of those that are still to be shown. The entries that rules add have no name.
ghost use Rattle.std.specs.Prelude.{◌≡◌, ◌∷◌, IfOk};
ghost use Rattle.fol_theory.specs.Contexts.{hypothesis, variable, without};
ghost use Rattle.fol_theory.specs.Slots.{entries};
ghost use Rattle.logic_theory.specs.Rules.{seq};
ghost use Rattle.term_core.specs.Context.{slots};
ghost use Rattle.term_core.specs.Context as context;
ghost use Rattle.term_core.specs.Formula.{meaning};
ghost use Rattle.proof_tree.specs.Stacks.{Pushes};

use base_core::NoMemory;
use std::alloc::Global;
use term_core::{Context, Formula, Name, Sequent, Slot};

/// A sequent on top.
#[tactic(auto, using(crate::proofs::Stacked::stacked))]
fn push(stack: &mut Vec<Sequent>, made: Sequent) -> Result<(), NoMemory>
    ensures { IfOk result (λ _. Pushes (context.meaning made) stack.old.items stack.new.items) }
{
    stack.push(made)?;
    Ok(())
}

/// One variable more.
fn with_variable(alloc: Global, context: &Context, sort: &Name) -> Result<Context, NoMemory>
    ensures { IfOk result (λ c. entries (slots c) ≡ variable sort.now ∷ entries (slots context.now)) }
{
    let slot = Slot::Var {
        name: Name::from_slice(alloc, &[])?,
        sort: sort.copy()?,
    };
    context.copy()?.push(alloc, slot)
}

/// One hypothesis more.
fn with_hypothesis(alloc: Global, context: &Context, a: &Formula) -> Result<Context, NoMemory>
    ensures { IfOk result (λ c. entries (slots c) ≡ hypothesis (meaning a.now) ∷ entries (slots context.now)) }
{
    let slot = Slot::Hyp {
        name: Name::from_slice(alloc, &[])?,
        formula: a.copy()?,
    };
    context.copy()?.push(alloc, slot)
}

/// Another goal in the same context.
pub(crate) fn push_goal(
    stack: &mut Vec<Sequent>,
    place: &Sequent,
    goal: Formula,
) -> Result<(), NoMemory>
    ensures { IfOk result (λ _. Pushes (seq (entries (slots place.now.context)) (meaning goal)) stack.old.items stack.new.items) }
{
    let context = place.context.copy()?;
    push(stack, Sequent { context, goal })
}

/// A goal under one hypothesis more.
pub(crate) fn push_under(
    stack: &mut Vec<Sequent>,
    alloc: Global,
    place: &Sequent,
    a: &Formula,
    goal: &Formula,
) -> Result<(), NoMemory>
    ensures { IfOk result (λ _. Pushes
        (seq (hypothesis (meaning a.now) ∷ entries (slots place.now.context)) (meaning goal.now))
        stack.old.items stack.new.items) }
{
    let context = with_hypothesis(alloc, &place.context, a)?;
    let goal = goal.copy()?;
    push(stack, Sequent { context, goal })
}

/// The same goal under two hypotheses more, of which the second is the newest.
pub(crate) fn push_under_both(
    stack: &mut Vec<Sequent>,
    alloc: Global,
    place: &Sequent,
    a: &Formula,
    b: &Formula,
) -> Result<(), NoMemory>
    ensures { IfOk result (λ _. Pushes
        (seq (hypothesis (meaning b.now) ∷ hypothesis (meaning a.now) ∷ entries (slots place.now.context))
        (meaning place.now.goal)) stack.old.items stack.new.items) }
{
    let first = with_hypothesis(alloc, &place.context, a)?;
    let context = with_hypothesis(alloc, &first, b)?;
    let goal = place.goal.copy()?;
    push(stack, Sequent { context, goal })
}

/// A goal under one variable more.
pub(crate) fn push_binding(
    stack: &mut Vec<Sequent>,
    alloc: Global,
    place: &Sequent,
    sort: &Name,
    goal: &Formula,
) -> Result<(), NoMemory>
    ensures { IfOk result (λ _. Pushes
        (seq (variable sort.now ∷ entries (slots place.now.context)) (meaning goal.now)) stack.old.items stack.new.items) }
{
    let context = with_variable(alloc, &place.context, sort)?;
    let goal = goal.copy()?;
    push(stack, Sequent { context, goal })
}

/// A goal under one variable more, and a hypothesis on it.
pub(crate) fn push_witnessing(
    stack: &mut Vec<Sequent>,
    alloc: Global,
    place: &Sequent,
    sort: &Name,
    a: &Formula,
    goal: Formula,
) -> Result<(), NoMemory>
    ensures { IfOk result (λ _. Pushes
        (seq (hypothesis (meaning a.now) ∷ variable sort.now ∷ entries (slots place.now.context)) (meaning goal))
        stack.old.items stack.new.items) }
{
    let bound = with_variable(alloc, &place.context, sort)?;
    let context = with_hypothesis(alloc, &bound, a)?;
    push(stack, Sequent { context, goal })
}

/// The same goal without a hypothesis.
#[tactic(auto, using(crate::proofs::Stacked::contexts))]
pub(crate) fn push_without(
    stack: &mut Vec<Sequent>,
    alloc: Global,
    place: &Sequent,
    number: u64,
) -> Result<(), NoMemory>
    ensures { IfOk result (λ _. Pushes
        (seq (without (entries (slots place.now.context)) number) (meaning place.now.goal)) stack.old.items stack.new.items) }
{
    let context = place.context.without(alloc, number)?;
    let goal = place.goal.copy()?;
    push(stack, Sequent { context, goal })
}
