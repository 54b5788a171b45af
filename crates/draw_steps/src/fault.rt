//! Why a step of a draw comes to no end.
use choice_bits::Spent;
use std::alloc::AllocError;

/// Why a step came to no end.
#[derive(Clone, Copy, PartialEq, Eq, Debug)]
pub enum StepFault {
    /// The bits ended.
    Spent,
    /// Memory was wanting.
    Memory,
}

impl From<AllocError> for StepFault {
    ghost use Rattle.std.specs.Prelude.{◌≡◌};
    ghost use Rattle.draw_steps.specs.declared.fault.StepFault.TheVariants.{Memory};

    ghost from_gives = { λ _ fault. fault ≡ Memory };

    fn from(_: AllocError) -> StepFault {
        StepFault::Memory
    }
}

impl From<Spent> for StepFault {
    ghost use Rattle.std.specs.Prelude.{◌≡◌};
    ghost use Rattle.draw_steps.specs.declared.fault.StepFault.TheVariants.{Spent as NoBits};

    ghost from_gives = { λ _ fault. fault ≡ NoBits };

    fn from(_: Spent) -> StepFault {
        StepFault::Spent
    }
}
