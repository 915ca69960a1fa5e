//! The text of the goals.
ghost use Rattle.std.specs.Prelude.{◌≡◌, ◌++◌, map, IfOk, OnOk};
ghost use Rattle.std.specs.List.{list_any};
ghost use Rattle.fol_theory.specs.Syntax.{is_name};
ghost use Rattle.term_core.specs.Context.{slot_meaning, slots};
ghost use Rattle.term_core.specs.Formula.{meaning};
ghost use Rattle.env_core.specs.Meaning.{declarations};
ghost use Rattle.print_theory.specs.Spelling.{formula_text};
ghost use Rattle.proof_tree.specs.Places.{goal_of};
ghost use Rattle.proof_state.specs.Sequents.{goals_in};
ghost use Rattle.step_core.specs.Standing.{state_of};
ghost use Rattle.step_theory.specs.Texts.{
  context_text,
  entry_text,
  focused_text,
  further_text,
  goal_text,
  goals_text,
  line_end,
  taken_in,
  variable_names,
  with_variable,
};

use crate::proof::OpenProof;
use crate::standing::Standing0;
use crate::verdict::put;
use base_core::{Bytes, NoMemory};
use env_core::Env;
use proof_state::Sequents;
use std::alloc::Global;
use tac_base::is_taken;
use term_core::{Context, Formula, Name, Names, Sequent, Slot, Taken};
use term_print::show_with;

/// The names that a context has or the environment declares.
#[derive(Clone, Copy)]
struct Known<'a> {
    env: &'a Env,
    context: &'a Context,
}

impl<'a> Taken for Known<'a> {
    ghost use Rattle.term_core.specs.Context.{slots};
    ghost use Rattle.env_core.specs.Meaning.{declarations};
    ghost use Rattle.step_theory.specs.Texts.{taken_in};

    ghost taken = { λ s. taken_in (declarations s.env.now) (slots s.context.now) };

    #[tactic(auto, using(crate::proofs::Named::taking))]
    fn is_taken(&self, name: &Name) -> bool
        ensures { result ≡ list_any (is_name name.now) (taken_in (declarations self.now.env.now) (slots self.now.context.now)) }
    {
        is_taken(self.env, self.context, name)
    }
}

/// The text of the focused goals; None exactly where no proof is open, or where its lemma failed. Of each goal it is the
/// entries of its context from the oldest on, a line each, the line `====`, and what is to be shown; an empty line stands
/// between two goals. No bound name in it is one that the environment declares or the goal's context has.
pub fn goals_text(alloc: Global, state: &Standing0) -> Result<Option<Bytes>, NoMemory>
    ensures { IfOk result (λ text. text ≡ goals_text (state_of state.now)) }
{
    match state.proof() {
        Some(OpenProof::Of(lemma)) => Ok(Some(focused(alloc, state.env(), lemma.state.focused())?)),
        _ => Ok(None),
    }
}

/// The text of goals.
fn focused(alloc: Global, env: &Env, goals: &Sequents) -> Result<Bytes, NoMemory>
    ensures { IfOk result (λ text. text ≡ focused_text (declarations env.now) (goals_in goals.now)) }
{
    let mut text = Vec::new(alloc);
    if let Some((goal, further)) = goals.first() {
        put_goal(alloc, &mut text, env, goal)?;
        put_further(alloc, &mut text, env, further)?;
    }
    Ok(Bytes::from_vec(text))
}

/// Goals, each behind an empty line.
fn put_further(
    alloc: Global,
    text: &mut Vec<u8>,
    env: &Env,
    goals: &Sequents,
) -> Result<(), NoMemory>
    ensures { OnOk result (text.new.items ≡ text.old.items ++ further_text (declarations env.now) (goals_in goals.now)) }
{
    let mut at = goals;
    while let Some((goal, further)) = at.first() {
        put(text, b"\n\n")?;
        put_goal(alloc, text, env, goal)?;
        at = further;
    }
    Ok(())
}

/// A goal.
fn put_goal(alloc: Global, text: &mut Vec<u8>, env: &Env, sequent: &Sequent) -> Result<(), NoMemory>
    ensures { OnOk result (text.new.items ≡ text.old.items ++ goal_text (declarations env.now) (goal_of sequent.now)) }
{
    let known = Known {
        env,
        context: &sequent.context,
    };
    let names = put_context(alloc, text, &known)?;
    put(text, b"====\n")?;
    put_formula(text, &known, &names, &sequent.goal)
}

/// The entries of a context from the oldest on, a line each. The names of its variables come back, the newest first.
fn put_context(alloc: Global, text: &mut Vec<u8>, known: &Known<'_>) -> Result<Names, NoMemory>
    ensures text { IfOk result (λ _. text.new.items ≡ text.old.items
        ++ context_text (taken_in (declarations known.now.env.now) (slots known.now.context.now)) (slots known.now.context.now)) }
    ensures names { IfOk result (λ names. names.items ≡ variable_names (slots known.now.context.now)) }
{
    let mut newer = slots_of(alloc, known.context)?;
    let mut names = Names::new(alloc);
    while let Some(slot) = newer.pop() {
        put_entry(text, known, &names, slot)?;
        add_name(&mut names, slot)?;
    }
    Ok(names)
}

/// The slots of a context, the newest first.
fn slots_of<'a>(alloc: Global, context: &'a Context) -> Result<Vec<&'a Slot>, NoMemory>
    ensures { IfOk result (λ list. map (λ s. slot_meaning s.now) list.items ≡ slots context.now) }
{
    let mut list = Vec::new(alloc);
    let mut at = context;
    while let Some((slot, older)) = at.newest() {
        list.push(slot)?;
        at = older;
    }
    Ok(list)
}

/// The line of an entry, whose older variables have these names.
fn put_entry(
    text: &mut Vec<u8>,
    known: &Known<'_>,
    names: &Names,
    slot: &Slot,
) -> Result<(), NoMemory>
    ensures { OnOk result (text.new.items ≡ text.old.items
        ++ (entry_text (taken_in (declarations known.now.env.now) (slots known.now.context.now)) names.now.items
        (slot_meaning slot.now).name (slot_meaning slot.now).entry ++ line_end)) }
{
    put(text, slot.name().as_slice())?;
    put(text, b" : ")?;
    match slot {
        Slot::Var { sort, .. } => put(text, sort.as_slice())?,
        Slot::Hyp { formula, .. } => put_formula(text, known, names, formula)?,
    }
    put(text, b"\n")
}

/// The name of an entry before the others, if it is a variable.
fn add_name(names: &mut Names, slot: &Slot) -> Result<(), NoMemory>
    ensures { OnOk result (names.new.items ≡ with_variable (slot_meaning slot.now).name (slot_meaning slot.now).entry names.old.items) }
{
    if let Slot::Var { name, .. } = slot {
        names.insert(0, name.copy()?)?;
    }
    Ok(())
}

/// A formula, in which no bound name is declared or in the context.
fn put_formula(
    text: &mut Vec<u8>,
    known: &Known<'_>,
    names: &Names,
    formula: &Formula,
) -> Result<(), NoMemory>
    ensures { OnOk result (text.new.items ≡ text.old.items
        ++ formula_text names.now.items (taken_in (declarations known.now.env.now) (slots known.now.context.now)) (meaning formula.now)) }
{
    let shown = show_with(formula, names, known)?;
    put(text, shown.as_slice())
}
