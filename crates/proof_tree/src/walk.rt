//! Going through a tree's rules.
ghost use Rattle.std.specs.Prelude.{◌≡◌, ◌∷◌, [], ◌++◌, length, map, reverse, IfOk};
ghost use Rattle.term_core.specs.Context as context;
ghost use Rattle.term_core.specs.Context.{slots};
ghost use Rattle.logic_theory.specs.Goals.{goal, goals, label};
ghost use Rattle.proof_tree.specs.Meaning.{meaning, meanings};
ghost use Rattle.proof_tree.specs.Places.{goal_of, AtPlaces, NamesEntries, IndicesFit};
ghost use Rattle.proof_tree.specs.Stacks.{waiting, led_to, left_open, AtFirst, behind, opened};

use crate::children::push_children;
use crate::labels::labelled;
use crate::{Rule, Tree};
use base_core::NoMemory;
use std::alloc::Global;
use term_core::{Name, Sequent};

/// The sequents of the open leaves of a tree for a sequent, in preorder, with the names that the leaves carry. The tree
/// need not follow the kernel's rules: it is enough that it is one whole tree, and that a leaf names each entry of its
/// place.
pub fn goals(alloc: Global, tree: &Tree, sequent: &Sequent) -> Result<Vec<Sequent>, NoMemory>
    requires names { AtPlaces NamesEntries (meanings tree.now) (context.meaning sequent.now ∷ []) }
    requires indices { AtPlaces IndicesFit (meanings tree.now) (context.meaning sequent.now ∷ []) }
    ensures { IfOk result (λ gs. map goal_of gs.items ≡ goals (meanings tree.now) (context.meaning sequent.now ∷ [])) }
{
    let rules = tree.rules(alloc)?;
    let place = sequent.copy()?;
    open_goals(alloc, &rules, place)
}

/// The same of a tree that is told by its rules.
fn open_goals(alloc: Global, rules: &[&Rule], place: Sequent) -> Result<Vec<Sequent>, NoMemory>
    requires names { AtPlaces NamesEntries (meanings (map (λ r. r.now) rules.now)) (context.meaning place ∷ []) }
    requires indices { AtPlaces IndicesFit (meanings (map (λ r. r.now) rules.now)) (context.meaning place ∷ []) }
    ensures { IfOk result (λ gs. map goal_of gs.items
        ≡ goals (meanings (map (λ r. r.now) rules.now)) (context.meaning place ∷ [])) }
{
    let mut stack = Vec::new(alloc);
    stack.push(place)?;
    let mut found = Vec::new(alloc);
    for i in 0..rules.len() {
        next(alloc, rules[i], &mut stack, &mut found)?;
    }
    Ok(found)
}

/// Goes on from the place on top of the stack, which the sequents that the rule leads to take the place of. A leaf's
/// goal is put behind those that were found.
fn next(
    alloc: Global,
    rule: &Rule,
    stack: &mut Vec<Sequent>,
    found: &mut Vec<Sequent>,
) -> Result<(), NoMemory>
    requires names { AtFirst NamesEntries (meaning rule.now) (waiting stack.old.items) }
    requires indices { AtFirst IndicesFit (meaning rule.now) (waiting stack.old.items) }
    ensures waiting { IfOk result (λ _. waiting stack.new.items ≡ behind (meaning rule.now) (waiting stack.old.items)) }
    ensures found { IfOk result (λ _. map goal_of found.new.items
        ≡ map goal_of found.old.items ++ opened (meaning rule.now) (waiting stack.old.items)) }
{
    match stack.pop() {
        None => unreachable!(),
        Some(place) => visit(alloc, &place, rule, stack, found),
    }
}

/// The same at a place that is no longer on the stack.
fn visit(
    alloc: Global,
    place: &Sequent,
    rule: &Rule,
    stack: &mut Vec<Sequent>,
    found: &mut Vec<Sequent>,
) -> Result<(), NoMemory>
    requires names { NamesEntries (meaning rule.now) (context.meaning place.now) }
    requires indices { IndicesFit (meaning rule.now) (context.meaning place.now) }
    ensures waiting { IfOk result (λ _. waiting stack.new.items
        ≡ led_to (meaning rule.now) (context.meaning place.now) ++ waiting stack.old.items) }
    ensures found { IfOk result (λ _. map goal_of found.new.items
        ≡ map goal_of found.old.items ++ left_open (meaning rule.now) (context.meaning place.now)) }
{
    push_open(alloc, place, rule, found)?;
    push_children(alloc, place, rule, stack)
}

/// Puts the goal of a leaf behind those that were found. Another rule leaves none open.
fn push_open(
    alloc: Global,
    place: &Sequent,
    rule: &Rule,
    found: &mut Vec<Sequent>,
) -> Result<(), NoMemory>
    requires { NamesEntries (meaning rule.now) (context.meaning place.now) }
    ensures { IfOk result (λ _. map goal_of found.new.items
        ≡ map goal_of found.old.items ++ left_open (meaning rule.now) (context.meaning place.now)) }
{
    if let Rule::Leaf(names) = rule {
        let made = named(alloc, place, names)?;
        found.push(made)?;
    }
    Ok(())
}

/// The sequent with names of its entries, from the oldest on.
fn named(alloc: Global, place: &Sequent, names: &[Name]) -> Result<Sequent, NoMemory>
    requires { length names.now ≡ length (slots place.now.context) }
    ensures { IfOk result (λ s. goal_of s
        ≡ goal (label (reverse names.now) (context.meaning place.now).context) (context.meaning place.now).goal) }
{
    let context = labelled(alloc, names, &place.context)?;
    let goal = place.goal.copy()?;
    Ok(Sequent { context, goal })
}
