//! States of open proofs.
ghost use Rattle.std.specs.Prelude.{◌≡◌, ◌↔◌, ◌+◌, ◌<◌, ◌∷◌, [], List, length, reverse, slice_get, option_map, IfOk, IsSome, IsTrue};
ghost use Rattle.base_core.specs.Answers.{Answers};
ghost use Rattle.fol_theory.specs.Slots.{names};
ghost use Rattle.env_theory.specs.Declarations.{Declaration};
ghost use Rattle.logic_theory.specs.Rules.{leaf, Follows};
ghost use Rattle.logic_theory.specs.Goals.{Goal, sequent as sequent_of};
ghost use Rattle.logic_theory.specs.Grafts.{graft};
ghost use Rattle.term_core.specs.Context.{slots};
ghost use Rattle.tactic_theory.specs.States.{state, goals_of, find_brace, put_bullet, brace_in, brace_out};
ghost use Rattle.proof_tree.specs.Meaning.{meanings, HasLeaf};
ghost use Rattle.proof_tree.specs.Places.{goal_of, NamesEntries, IndicesFit};
ghost use Rattle.proof_state.specs.Marks.{bytes};
ghost use Rattle.proof_state.specs.Sequents.{goals_in};
ghost use Rattle.proof_state.specs.Faults.{fault_of};
ghost use Rattle.proof_state.specs.Goals.{stands_for};
ghost use Rattle.proof_state.specs.Leaves.{open_leaves};

use crate::bullet::Bullet;
use crate::fault::BulletFault;
use crate::frames::Frames;
use crate::goals::Goals;
use crate::sequents::Sequents;
use base_core::NoMemory;
use proof_tree::{Rule, Tree, goals};
use std::alloc::Global;
use term_core::{Context, Names, Sequent};

/// The state of an open proof: the focused goals, the frames with the goals behind them, and the tree of the kernel's
/// rules that led there.
#[derive(Drop)]
pub struct State {
    goals: Goals,
    left: u64,
    tree: Tree,
    ghost counted: { left ≡ length (goals_of (stands_for goals)) },
    ghost leaves: { open_leaves (meanings tree) ≡ left },
}

impl State {
    ghost use Rattle.proof_state.specs.States.{state_of, rules_of, Fits, FromFirst, refined};

    /// The state at the beginning of a proof: its goal alone, and a tree that leaves it open.
    pub fn begin(alloc: Global, sequent: Sequent) -> Result<State, NoMemory>
        ensures state { IfOk result (λ s. state_of s ≡ state (goal_of sequent ∷ []) []) }
        ensures tree { IfOk result (λ s. rules_of s ≡ leaf (names (slots sequent.context)) ∷ []) }
        ensures fits { IfOk result (λ s. (E : List Declaration) → Fits E (goal_of sequent) s) }
    {
        let tree = left_open(alloc, &sequent.context)?;
        let focused = Sequents::Empty.push(alloc, sequent)?;
        let goals = Goals {
            focused,
            frames: Frames::Bottom,
        };
        Ok(State {
            goals,
            left: 1,
            tree,
        })
    }

    /// An equal state, all shared. It takes no memory and a constant time.
    pub fn copy(&self) -> Result<State, NoMemory>
        ensures state { IfOk result (λ s. state_of s ≡ state_of self.now) }
        ensures tree { IfOk result (λ s. rules_of s ≡ rules_of self.now) }
    {
        let goals = self.goals.copy()?;
        self.with_goals(goals)
    }

    /// The first focused goal, or None exactly where nothing is focused.
    pub fn first(&self) -> Option<&Sequent>
        ensures { option_map (λ s. goal_of s.now) result ≡ slice_get (state_of self.now).focused 0 }
    {
        match self.goals.focused.first() {
            None => None,
            Some((first, _)) => Some(first),
        }
    }

    /// The focused goals, in order.
    pub fn focused(&self) -> &Sequents
        ensures { goals_in result.now ≡ (state_of self.now).focused }
    {
        &self.goals.focused
    }

    /// How many goals there are, focused or behind a frame.
    pub fn left(&self) -> u64
        ensures { result ≡ length (goals_of (state_of self.now)) }
    {
        self.left
    }

    /// Whether a brace is open.
    #[tactic(auto, using(crate::proofs::Stepped::found))]
    pub fn in_brace(&self) -> bool
        ensures { IsTrue result ↔ IsSome (find_brace (state_of self.now).frames) }
    {
        self.goals.frames.find_brace().is_some()
    }

    /// The tree that led here.
    pub fn tree(&self) -> &Tree
        ensures { meanings result.now ≡ rules_of self.now }
    {
        &self.tree
    }

    /// The state behind a bullet.
    pub fn bullet(&self, alloc: Global, bullet: Bullet) -> Result<State, BulletFault>
        ensures state { Answers state_of fault_of result (put_bullet (bytes bullet) (state_of self.now)) }
        ensures tree { IfOk result (λ s. rules_of s ≡ rules_of self.now) }
        ensures fits { IfOk result (λ s. (E : List Declaration) (g : Goal) → Fits E g self.now → Fits E g s) }
    {
        let goals = self.goals.bullet(alloc, bullet)?;
        Ok(self.with_goals(goals)?)
    }

    /// The state behind an opening brace.
    pub fn brace_in(&self, alloc: Global) -> Result<State, BulletFault>
        ensures state { Answers state_of fault_of result (brace_in (state_of self.now)) }
        ensures tree { IfOk result (λ s. rules_of s ≡ rules_of self.now) }
        ensures fits { IfOk result (λ s. (E : List Declaration) (g : Goal) → Fits E g self.now → Fits E g s) }
    {
        let goals = self.goals.brace_in(alloc)?;
        Ok(self.with_goals(goals)?)
    }

    /// The state behind a closing brace.
    pub fn brace_out(&self) -> Result<State, BulletFault>
        ensures state { Answers state_of fault_of result (brace_out (state_of self.now)) }
        ensures tree { IfOk result (λ s. rules_of s ≡ rules_of self.now) }
        ensures fits { IfOk result (λ s. (E : List Declaration) (g : Goal) → Fits E g self.now → Fits E g s) }
    {
        let goals = self.goals.brace_out()?;
        Ok(self.with_goals(goals)?)
    }

    /// The state with what a part of a tree leaves open of the first focused goal in that goal's place. The part stands
    /// at the first open leaf of the tree.
    pub fn refine(&self, alloc: Global, part: Tree) -> Result<State, NoMemory>
        requires names { FromFirst NamesEntries (meanings part) (state_of self.now).focused }
        requires indices { FromFirst IndicesFit (meanings part) (state_of self.now).focused }
        ensures state { IfOk result (λ s. state_of s
            ≡ state (refined (meanings part) (state_of self.now).focused) (state_of self.now).frames) }
        ensures tree { IfOk result (λ s. rules_of s ≡ graft (meanings part) (rules_of self.now)) }
        ensures fits { IfOk result (λ s. (E : List Declaration) (g h : Goal) (hs : List Goal) → Fits E g self.now
            → (state_of self.now).focused ≡ h ∷ hs → Follows E (meanings part) (sequent_of h ∷ []) → Fits E g s) }
    {
        match self.goals.focused.first() {
            None => unreachable!(),
            Some((first, _)) => {
                let new = goals(alloc, &part, first)?;
                let left = counted(self.left, &new)?;
                let goals = self.goals.replaced(alloc, new)?;
                let tree = grafted(alloc, &self.tree, part)?;
                Ok(State { goals, left, tree })
            }
        }
    }

    /// The same tree with as many goals.
    fn with_goals(&self, goals: Goals) -> Result<State, NoMemory>
        requires { goals_of (stands_for goals) ≡ goals_of (state_of self.now) }
        ensures state { IfOk result (λ s. state_of s ≡ stands_for goals) }
        ensures tree { IfOk result (λ s. rules_of s ≡ rules_of self.now) }
        ensures fits { IfOk result (λ s. (E : List Declaration) (g : Goal) → Fits E g self.now → Fits E g s) }
    {
        let tree = self.tree.copy()?;
        Ok(State {
            goals,
            left: self.left,
            tree,
        })
    }
}

/// A tree that leaves a goal in this context open.
fn left_open(alloc: Global, context: &Context) -> Result<Tree, NoMemory>
    ensures { IfOk result (λ t. meanings t ≡ leaf (names (slots context.now)) ∷ []) }
{
    let mut rules = Vec::new(alloc);
    rules.push(Rule::Leaf(names_of(alloc, context)?))?;
    Tree::from_rules(alloc, rules)
}

/// The names of the entries, from the oldest on, as an open leaf has them.
pub fn names_of(alloc: Global, context: &Context) -> Result<Names, NoMemory>
    ensures { IfOk result (λ ns. ns.items ≡ reverse (names (slots context.now))) }
{
    let mut list = Vec::new(alloc);
    let mut at = context;
    while let Some((slot, older)) = at.newest() {
        list.push(slot.name().copy()?)?;
        at = older;
    }
    list.reverse();
    Ok(list)
}

/// How many goals there are where these take the place of one.
fn counted(left: u64, new: &[Sequent]) -> Result<u64, NoMemory>
    requires { 0 < left }
    ensures { IfOk result (λ n. n + 1 ≡ left + length new.now) }
{
    (left - 1).checked_add(new.len() as u64).ok_or(NoMemory)
}

/// A tree with a part at its first leaf.
fn grafted(alloc: Global, tree: &Tree, part: Tree) -> Result<Tree, NoMemory>
    requires { HasLeaf (meanings tree.now) }
    ensures { IfOk result (λ t. meanings t ≡ graft (meanings part) (meanings tree.now)) }
{
    let mut whole = tree.copy()?;
    whole.graft_first(alloc, part)?;
    Ok(whole)
}
