//! How a statement ends.
use std::alloc::AllocError;
use thiserror::Error;

/// How a statement that was run to its end came out.
#[derive(Clone, Copy, PartialEq, Eq, Debug)]
pub enum Outcome {
    /// What it asks for was done.
    Done,
    /// It was refused, by the refusal of this number.
    Refused(u32),
}

/// Why a statement was not run to its end. The session can go on with no other one.
#[derive(Clone, Copy, PartialEq, Eq, Debug, Error)]
pub enum SessionFault {
    #[error("the output failed")]
    Out,
    #[error("the error output failed")]
    Err,
    #[error("memory ran out")]
    Memory,
}

impl From<AllocError> for SessionFault {
    ghost use Rattle.std.specs.Prelude.{◌≡◌};
    ghost use Rattle.session.specs.declared.fault.SessionFault.TheVariants.{Memory};

    ghost from_gives = { λ _ fault. fault ≡ Memory };

    fn from(_: AllocError) -> SessionFault {
        SessionFault::Memory
    }
}
