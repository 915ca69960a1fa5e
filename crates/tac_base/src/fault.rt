//! Why a refinement sentence fails.

use base_core::NoMemory;
use elab_core::ElabFault;
use thiserror::Error;

/// The first fault of a refinement sentence. A fault of typing is one that has a place: each other kind has one spelling,
/// that of this type.
#[derive(Clone, Copy, Debug, PartialEq, Eq, Error)]
pub enum TacFault {
    /// Nothing is focused.
    #[error("no goal")]
    NoGoal,
    /// No hypothesis has the name.
    #[error("no such hypothesis")]
    NoSuchHyp,
    /// A formula isn't of the form that is asked.
    #[error("not of this form")]
    NotOfForm,
    /// What is shown is another formula, or no instance is found.
    #[error("cannot match")]
    CannotMatch,
    /// The name is that of an entry or is declared.
    #[error("name taken")]
    NameTaken,
    /// An argument has a fault of typing.
    #[error("{0}")]
    Elab(ElabFault),
    /// A formula that is put into a goal, or its normal form, has so many nodes and is so high, one of them too much; 2^32
    /// stands for that and more.
    #[error("too large: {0} nodes, height {1}")]
    TooLarge(u64, u64),
    /// Memory was wanting.
    #[error("out of memory")]
    NoMemory,
}

impl From<NoMemory> for TacFault {
    ghost use Rattle.std.specs.Prelude.{◌≡◌};
    ghost use Rattle.tac_base.specs.declared.fault.TacFault.TheVariants.{NoMemory};

    ghost from_gives = { λ _ e. e ≡ NoMemory };

    fn from(_: NoMemory) -> TacFault {
        TacFault::NoMemory
    }
}

impl From<ElabFault> for TacFault {
    ghost use Rattle.std.specs.Prelude.{◌≡◌};
    ghost use Rattle.tac_base.specs.Faults.{told_as};

    ghost from_gives = { λ f e. e ≡ told_as f };

    fn from(fault: ElabFault) -> TacFault {
        match fault {
            ElabFault::UnknownName(span) => TacFault::Elab(ElabFault::UnknownName(span)),
            ElabFault::WrongKind(span) => TacFault::Elab(ElabFault::WrongKind(span)),
            ElabFault::WrongSort(span) => TacFault::Elab(ElabFault::WrongSort(span)),
            ElabFault::WrongArity(span) => TacFault::Elab(ElabFault::WrongArity(span)),
            ElabFault::AlreadyDeclared(span) => TacFault::Elab(ElabFault::AlreadyDeclared(span)),
            ElabFault::NotOfForm => TacFault::NotOfForm,
            ElabFault::TooLarge(nodes, height) => TacFault::TooLarge(nodes, height),
            ElabFault::NoMemory => TacFault::NoMemory,
        }
    }
}
