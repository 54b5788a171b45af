//! Whose fault it is that a run ends before its script does.
ghost use Rattle.std.specs.Prelude.{◌≡◌};
ghost use Rattle.combstruct_cli.specs.Outcome.{fault_of};

use comb_io::Failed;
use session::SessionFault;
use std::alloc::AllocError;

/// Why a run ends before its script does: whose fault it is.
#[derive(Clone, Copy, Debug)]
pub(crate) enum Fault {
    /// The source's.
    Input,
    /// The output's.
    Output,
    /// The error output's.
    Errors,
    /// Nobody's: memory is wanting.
    Memory,
}

impl From<Failed> for Fault {
    ghost use Rattle.std.specs.Prelude.{◌≡◌};
    ghost use Rattle.combstruct_cli.specs.declared.fault.Fault.TheVariants.{Input};

    ghost from_gives = { λ _ fault. fault ≡ Input };

    fn from(_: Failed) -> Fault {
        Fault::Input
    }
}

impl From<AllocError> for Fault {
    ghost use Rattle.std.specs.Prelude.{◌≡◌};
    ghost use Rattle.combstruct_cli.specs.declared.fault.Fault.TheVariants.{Memory};

    ghost from_gives = { λ _ fault. fault ≡ Memory };

    fn from(_: AllocError) -> Fault {
        Fault::Memory
    }
}

impl Fault {
    /// Whose fault it is where a statement ends with one.
    pub(crate) fn of_step(fault: SessionFault) -> Fault
        ensures { result ≡ fault_of fault }
    {
        match fault {
            SessionFault::Out => Fault::Output,
            SessionFault::Err => Fault::Errors,
            SessionFault::Memory => Fault::Memory,
        }
    }
}
