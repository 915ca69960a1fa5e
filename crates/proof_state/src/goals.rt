//! The goals of a state, without its tree.
ghost use Rattle.std.specs.Prelude.{◌≡◌, ◌∷◌, [], ◌++◌, drop, map, IfOk};
ghost use Rattle.base_core.specs.Answers.{Answers};
ghost use Rattle.proof_tree.specs.Places.{goal_of};
ghost use Rattle.tactic_theory.specs.States.{state, frame, focus, put_bullet, brace_in, brace_out};
ghost use Rattle.proof_state.specs.Marks.{bytes, mark_of};
ghost use Rattle.proof_state.specs.Sequents.{goals_in};
ghost use Rattle.proof_state.specs.Frames.{frames_in, seen_goals, next_seen, told};
ghost use Rattle.proof_state.specs.Faults.{fault_of};
ghost use Rattle.proof_state.specs.Goals.{stands_for};

use crate::bullet::Bullet;
use crate::fault::BulletFault;
use crate::frames::{Found, Frames, Mark};
use crate::sequents::Sequents;
use base_core::NoMemory;
use std::alloc::Global;
use term_core::Sequent;

/// The focused goals, and the frames with the goals behind them.
#[derive(Drop)]
pub(crate) struct Goals {
    pub(crate) focused: Sequents,
    pub(crate) frames: Frames,
}

impl Goals {
    /// Equal goals, all shared.
    pub(crate) fn copy(&self) -> Result<Goals, NoMemory>
        ensures { IfOk result (λ g. stands_for g ≡ stands_for self.now) }
    {
        let focused = self.focused.copy()?;
        let frames = self.frames.copy()?;
        Ok(Goals { focused, frames })
    }

    /// With other goals in the place of the first.
    pub(crate) fn replaced(&self, alloc: Global, new: Vec<Sequent>) -> Result<Goals, NoMemory>
        ensures { IfOk result (λ g. stands_for g
            ≡ state (map goal_of new.items ++ drop 1 (goals_in self.now.focused)) (frames_in self.now.frames)) }
    {
        let focused = rest(&self.focused)?.push_all(alloc, new)?;
        let frames = self.frames.copy()?;
        Ok(Goals { focused, frames })
    }

    /// Behind a bullet.
    #[tactic(auto, using(crate::proofs::Stepped::steps))]
    pub(crate) fn bullet(&self, alloc: Global, bullet: Bullet) -> Result<Goals, BulletFault>
        ensures { Answers stands_for fault_of result (put_bullet (bytes bullet) (stands_for self.now)) }
    {
        match self.frames.find_bullet(bullet) {
            None => focus(alloc, Mark::Bullet(bullet), &self.focused, &self.frames),
            Some(found) => next_goal(alloc, bullet, &self.focused, found),
        }
    }

    /// Behind an opening brace.
    pub(crate) fn brace_in(&self, alloc: Global) -> Result<Goals, BulletFault>
        ensures { Answers stands_for fault_of result (brace_in (stands_for self.now)) }
    {
        focus(alloc, Mark::Brace, &self.focused, &self.frames)
    }

    /// Behind a closing brace.
    #[tactic(auto, using(crate::proofs::Stepped::steps))]
    pub(crate) fn brace_out(&self) -> Result<Goals, BulletFault>
        ensures { Answers stands_for fault_of result (brace_out (stands_for self.now)) }
    {
        match self.frames.find_brace() {
            None => Err(BulletFault::BadBullet),
            Some(found) => goals_behind(&self.focused, found),
        }
    }
}

/// What stands behind the first; nothing where there is none.
fn rest(focused: &Sequents) -> Result<Sequents, NoMemory>
    ensures { IfOk result (λ s. goals_in s ≡ drop 1 (goals_in focused.now)) }
{
    match focused.first() {
        None => focused.copy(),
        Some((_, rest)) => rest.copy(),
    }
}

/// The first goal alone, over a frame that keeps the rest.
fn focus(
    alloc: Global,
    mark: Mark,
    focused: &Sequents,
    frames: &Frames,
) -> Result<Goals, BulletFault>
    ensures { Answers stands_for fault_of result (focus (mark_of mark) (goals_in focused.now) (frames_in frames.now)) }
{
    match focused.first() {
        None => Err(BulletFault::NoGoal),
        Some((first, rest)) => Ok(only(alloc, first, mark, rest, frames)?),
    }
}

/// One goal alone, over a frame that keeps others.
fn only(
    alloc: Global,
    goal: &Sequent,
    mark: Mark,
    behind: &Sequents,
    below: &Frames,
) -> Result<Goals, NoMemory>
    ensures { IfOk result (λ g. stands_for g
        ≡ state (goal_of goal.now ∷ []) (frame (mark_of mark) (goals_in behind.now) ∷ frames_in below.now)) }
{
    let focused = Sequents::Empty.push(alloc, goal.copy()?)?;
    let frames = below.copy()?.push(alloc, mark, behind.copy()?)?;
    Ok(Goals { focused, frames })
}

/// The next goal behind a bullet that stands already.
fn next_goal(
    alloc: Global,
    bullet: Bullet,
    focused: &Sequents,
    found: Found<'_>,
) -> Result<Goals, BulletFault>
    ensures { Answers stands_for fault_of result (next_seen (bytes bullet) (goals_in focused.now) (told found.entry)) }
{
    if !focused.is_empty() || !found.none_above {
        return Err(BulletFault::BadBullet);
    }
    match found.behind.first() {
        None => Err(BulletFault::BadBullet),
        Some((first, rest)) => Ok(only(alloc, first, Mark::Bullet(bullet), rest, found.below)?),
    }
}

/// The goals behind a brace that is closed.
fn goals_behind(focused: &Sequents, found: Found<'_>) -> Result<Goals, BulletFault>
    ensures { Answers stands_for fault_of result (seen_goals (goals_in focused.now) (told found.entry)) }
{
    if !focused.is_empty() || !found.none_above {
        return Err(BulletFault::BadBullet);
    }
    let focused = found.behind.copy()?;
    let frames = found.below.copy()?;
    Ok(Goals { focused, frames })
}
