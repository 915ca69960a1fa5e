//! Why a normal form isn't made.
use base_core::NoMemory;

/// Why a normal form isn't made.
#[derive(Debug, Drop)]
pub enum NormalFault {
    /// It would have so many nodes and be so high, of which one passes its limit; 2^32 stands for that many and more.
    TooLarge(u64, u64),
    /// Memory was wanting; the normal form may be within the limits.
    NoMemory,
}

impl From<NoMemory> for NormalFault {
    ghost use Rattle.std.specs.Prelude.{◌≡◌};
    ghost use Rattle.conv_core.specs.declared.fault.NormalFault.TheVariants.{NoMemory};

    ghost from_gives = { λ _ fault. fault ≡ NoMemory };

    fn from(_: NoMemory) -> NormalFault {
        NormalFault::NoMemory
    }
}
