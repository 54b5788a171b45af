//! Why a grammar has no equations.
use std::alloc::AllocError;
use thiserror::Error;

/// Why no equations are given.
#[derive(Clone, Copy, PartialEq, Eq, Debug, Error)]
pub enum GfFault {
    /// The grammar is unlabelled, and the rule of this number, counted from 1, is the first one that holds a Set or a PowerSet
    /// with a bound on its components.
    #[error("an unlabelled container of rule {0} has a card bound")]
    CardUnlabelled(u32),
    #[error("memory ran out")]
    Memory,
}

impl From<AllocError> for GfFault {
    ghost use Rattle.std.specs.Prelude.{◌≡◌};
    ghost use Rattle.gf_equations.specs.declared.fault.GfFault.TheVariants.{Memory};

    ghost from_gives = { λ _ fault. fault ≡ Memory };

    fn from(_: AllocError) -> GfFault {
        GfFault::Memory
    }
}
