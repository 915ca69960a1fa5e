//! Why a value is no command.
ghost use Rattle.std.specs.Prelude.{Err};
ghost use Rattle.serapi_cmd.specs.Faults.{Reads, bad_field};

use base_core::{Bytes, NoMemory};
use std::alloc::Global;

/// Why a value is no command: the first fault, in the order of docs/PROTOCOL.md.
#[derive(Debug, Drop)]
pub enum CmdFault {
    /// No command word stands where one has to.
    UnknownCommand,
    /// The field, option or command of this name has not its form.
    BadField(Bytes),
    /// No number below 2^64 stands where one has to.
    BadNumber,
    /// Memory was wanting; the value may be a command.
    NoMemory,
}

impl From<NoMemory> for CmdFault {
    ghost use Rattle.std.specs.Prelude.{◌≡◌};
    ghost use Rattle.serapi_cmd.specs.declared.fault.CmdFault.TheVariants.{NoMemory};

    ghost from_gives = { λ _ fault. fault ≡ NoMemory };

    fn from(_: NoMemory) -> CmdFault {
        CmdFault::NoMemory
    }
}

/// The fault of a field with this name, or want of memory.
pub(crate) fn bad_field<T>(alloc: Global, name: &[u8]) -> Result<T, CmdFault>
    ensures { Reads result (Err (bad_field name.now)) }
{
    Err(CmdFault::BadField(Bytes::from_slice(alloc, name)?))
}
