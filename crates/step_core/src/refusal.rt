//! Why a sentence isn't good, or isn't checked.

use crate::verdict::Fault;
use base_core::NoMemory;
use elab_core::ElabFault;
use proof_state::BulletFault;
use tac_base::TacFault;

/// The fault of a sentence, or want of memory.
#[derive(Drop)]
pub(crate) enum Refusal {
    Fault(Fault),
    NoMemory,
}

impl From<NoMemory> for Refusal {
    ghost use Rattle.std.specs.Prelude.{◌≡◌};
    ghost use Rattle.step_core.specs.declared.refusal.Refusal.TheVariants.{NoMemory};

    ghost from_gives = { λ _ e. e ≡ NoMemory };

    fn from(_: NoMemory) -> Refusal {
        Refusal::NoMemory
    }
}

impl From<ElabFault> for Refusal {
    ghost use Rattle.std.specs.Prelude.{◌≡◌};
    ghost use Rattle.step_core.specs.Refusals.{told_as};

    ghost from_gives = { λ f e. e ≡ told_as f };

    fn from(fault: ElabFault) -> Refusal {
        match fault {
            ElabFault::UnknownName(span) => Refusal::Fault(Fault::UnknownName(span)),
            ElabFault::WrongKind(span) => Refusal::Fault(Fault::WrongKind(span)),
            ElabFault::WrongSort(span) => Refusal::Fault(Fault::WrongSort(span)),
            ElabFault::WrongArity(span) => Refusal::Fault(Fault::WrongArity(span)),
            ElabFault::AlreadyDeclared(span) => Refusal::Fault(Fault::AlreadyDeclared(span)),
            ElabFault::NotOfForm => Refusal::Fault(Fault::NotOfForm),
            ElabFault::TooLarge(nodes, height) => Refusal::Fault(Fault::TooLarge(nodes, height)),
            ElabFault::NoMemory => Refusal::NoMemory,
        }
    }
}

impl From<BulletFault> for Refusal {
    ghost use Rattle.std.specs.Prelude.{◌≡◌};
    ghost use Rattle.proof_state.specs.Faults.{fault_of};
    ghost use Rattle.step_core.specs.Refusals.{refused};

    ghost from_gives = { λ f e. refused e ≡ fault_of f };

    fn from(fault: BulletFault) -> Refusal {
        match fault {
            BulletFault::NoGoal => Refusal::Fault(Fault::NoGoal),
            BulletFault::BadBullet => Refusal::Fault(Fault::BadBullet),
            BulletFault::NoMemory => Refusal::NoMemory,
        }
    }
}

impl From<TacFault> for Refusal {
    ghost use Rattle.std.specs.Prelude.{Result};
    ghost use Rattle.base_core.specs.Answers.{IsRefusal};
    ghost use Rattle.tactic_theory.specs.States.{State, StepFault, row_fault};
    ghost use Rattle.tac_base.specs.Faults.{Refuses};
    ghost use Rattle.step_core.specs.Refusals.{refused};

    ghost from_gives = { λ f e. (w : Result State StepFault) → Refuses row_fault f w → IsRefusal (refused e) w };

    fn from(fault: TacFault) -> Refusal {
        match fault {
            TacFault::NoGoal => Refusal::Fault(Fault::NoGoal),
            TacFault::NoSuchHyp => Refusal::Fault(Fault::NoSuchHyp),
            TacFault::NotOfForm => Refusal::Fault(Fault::NotOfForm),
            TacFault::CannotMatch => Refusal::Fault(Fault::CannotMatch),
            TacFault::NameTaken => Refusal::Fault(Fault::NameTaken),
            TacFault::Elab(fault) => Refusal::from(fault),
            TacFault::TooLarge(nodes, height) => Refusal::Fault(Fault::TooLarge(nodes, height)),
            TacFault::NoMemory => Refusal::NoMemory,
        }
    }
}
