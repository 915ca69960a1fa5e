//! The stack of bullets and braces.
ghost use Rattle.std.specs.Prelude.{◌≡◌, ◌∷◌, true, option_map, IfOk};
ghost use Rattle.tactic_theory.specs.States.{frame, find_bullet, find_brace};
ghost use Rattle.proof_state.specs.Marks.{bytes, mark_of};
ghost use Rattle.proof_state.specs.Sequents.{goals_in};
ghost use Rattle.proof_state.specs.Frames.{frames_in, seen, told};

use crate::bullet::Bullet;
use crate::sequents::Sequents;
use base_core::NoMemory;
use std::alloc::Global;
use std::sync::Arc;

/// A bullet, or a brace.
#[derive(Clone, Copy)]
pub(crate) enum Mark {
    Bullet(Bullet),
    Brace,
}

/// Frames, the newest first, all shared.
pub(crate) enum Frames {
    Bottom,
    Over(Arc<Frame<Frames>>),
}

/// A bullet or a brace, the goals behind it, and the frames below.
#[derive(Drop)]
pub(crate) struct Frame<F> {
    mark: Mark,
    behind: Sequents,
    below: F,
}

/// A frame that was found: whether no goal is behind the frames above it, the goals behind it, and the frames below.
#[derive(Clone, Copy)]
pub(crate) struct Found<'a> {
    pub(crate) none_above: bool,
    pub(crate) behind: &'a Sequents,
    pub(crate) below: &'a Frames,
}

/// Frame by frame, so that a high stack takes none.
impl Drop for Frames {
    fn drop(mut self) {
        loop {
            match self {
                Frames::Bottom => return,
                Frames::Over(frame) => match Arc::into_inner(frame) {
                    Some(
                        Frame {
                            mark: _,
                            behind,
                            below,
                        },
                    ) => {
                        drop(behind);
                        self = below;
                    }
                    None => return,
                },
            }
        }
    }
}

impl Frames {
    /// The same frames, all shared. It takes no memory and a constant time.
    #[tactic(auto, using(crate::proofs::Framed::framed))]
    pub(crate) fn copy(&self) -> Result<Frames, NoMemory>
        ensures { IfOk result (λ f. frames_in f ≡ frames_in self.now) }
    {
        match self {
            Frames::Bottom => Ok(Frames::Bottom),
            Frames::Over(frame) => Ok(Frames::Over(frame.clone()?)),
        }
    }

    /// With one frame more, which is the newest.
    #[tactic(auto, using(crate::proofs::Framed::framed))]
    pub(crate) fn push(
        self,
        alloc: Global,
        mark: Mark,
        behind: Sequents,
    ) -> Result<Frames, NoMemory>
        ensures { IfOk result (λ f. frames_in f ≡ frame (mark_of mark) (goals_in behind) ∷ frames_in self) }
    {
        let frame = Frame {
            mark,
            behind,
            below: self,
        };
        Ok(Frames::Over(Arc::new(alloc, frame)?))
    }

    /// The nearest frame with this bullet above the nearest brace.
    #[tactic(auto, using(crate::proofs::Framed::bullets))]
    pub(crate) fn find_bullet(&self, bullet: Bullet) -> Option<Found<'_>>
        ensures { option_map told result ≡ seen true (find_bullet (bytes bullet) (frames_in self.now)) }
    {
        let mut none_above = true;
        let mut at = self;
        while let Frames::Over(frame) = at {
            match frame.mark {
                Mark::Brace => return None,
                Mark::Bullet(other) => {
                    if other.same(bullet) {
                        return Some(Found {
                            none_above,
                            behind: &frame.behind,
                            below: &frame.below,
                        });
                    }
                }
            }
            none_above = none_above && frame.behind.is_empty();
            at = &frame.below;
        }
        None
    }

    /// The nearest brace.
    #[tactic(auto, using(crate::proofs::Framed::braces))]
    pub(crate) fn find_brace(&self) -> Option<Found<'_>>
        ensures { option_map told result ≡ seen true (find_brace (frames_in self.now)) }
    {
        let mut none_above = true;
        let mut at = self;
        while let Frames::Over(frame) = at {
            if let Mark::Brace = frame.mark {
                return Some(Found {
                    none_above,
                    behind: &frame.behind,
                    below: &frame.below,
                });
            }
            none_above = none_above && frame.behind.is_empty();
            at = &frame.below;
        }
        None
    }
}
