//! Why a sentence or an expression has no type.

use base_core::NoMemory;
use std::alloc::{AllocError, AllocFailed};
use thiserror::Error;
use vern_lex::Span;

/// The first fault of an expression or a sentence. Each span is of bytes of the sentence, from its first byte on.
#[derive(Clone, Copy, Debug, PartialEq, Eq, Error)]
pub enum ElabFault {
    /// Nothing has the name that stands here.
    #[error("unknown name")]
    UnknownName(Span),
    /// What stands here is of another kind (sort, term, formula) than the one that is asked.
    #[error("wrong kind")]
    WrongKind(Span),
    /// A term of another sort than the one that is asked.
    #[error("wrong sort")]
    WrongSort(Span),
    /// A name with another number of arguments than it takes.
    #[error("wrong arity")]
    WrongArity(Span),
    /// The name that is declared here has been declared before, or stands twice among the parameters.
    #[error("already declared")]
    AlreadyDeclared(Span),
    /// The evidence isn't of the form that is asked.
    #[error("not of this form")]
    NotOfForm,
    /// What is typed would have so many nodes and be so high, one of them too much; 2^32 stands for that and more.
    #[error("too large: {0} nodes, height {1}")]
    TooLarge(u64, u64),
    /// Memory was wanting.
    #[error("out of memory")]
    NoMemory,
}

impl From<NoMemory> for ElabFault {
    ghost use Rattle.std.specs.Prelude.{◌≡◌};
    ghost use Rattle.elab_core.specs.declared.fault.ElabFault.TheVariants.{NoMemory};

    ghost from_gives = { λ _ e. e ≡ NoMemory };

    fn from(_: NoMemory) -> ElabFault {
        ElabFault::NoMemory
    }
}

impl<T: Drop> From<AllocFailed<T>> for ElabFault {
    ghost use Rattle.std.specs.Prelude.{◌≡◌};
    ghost use Rattle.elab_core.specs.declared.fault.ElabFault.TheVariants.{NoMemory};

    ghost from_gives = { λ _ e. e ≡ NoMemory };

    fn from(_: AllocFailed<T>) -> ElabFault {
        ElabFault::NoMemory
    }
}

impl From<AllocError> for ElabFault {
    ghost use Rattle.std.specs.Prelude.{◌≡◌};
    ghost use Rattle.elab_core.specs.declared.fault.ElabFault.TheVariants.{NoMemory};

    ghost from_gives = { λ _ e. e ≡ NoMemory };

    fn from(_: AllocError) -> ElabFault {
        ElabFault::NoMemory
    }
}
