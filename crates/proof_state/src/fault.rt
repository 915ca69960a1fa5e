//! Why a bullet or a brace can't stand.

use base_core::NoMemory;
use thiserror::Error;

/// Why a bullet or a brace can't stand where it does.
#[derive(Clone, Copy, Debug, PartialEq, Eq, Error)]
pub enum BulletFault {
    /// Nothing is focused.
    #[error("no goal")]
    NoGoal,
    /// Something is focused, or a goal is left behind a frame, or the frame has no goal or isn't there.
    #[error("wrong bullet")]
    BadBullet,
    /// Memory was wanting.
    #[error("out of memory")]
    NoMemory,
}

impl From<NoMemory> for BulletFault {
    ghost use Rattle.std.specs.Prelude.{◌≡◌};
    ghost use Rattle.proof_state.specs.declared.fault.BulletFault.TheVariants.{NoMemory};

    ghost from_gives = { λ _ e. e ≡ NoMemory };

    fn from(_: NoMemory) -> BulletFault {
        BulletFault::NoMemory
    }
}
