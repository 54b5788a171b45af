//! Why a grammar is refused.
ghost use Rattle.std.specs.Prelude.{◌≡◌};
ghost use Rattle.well_founded.specs.declared.refused.Refused.TheVariants.{Memory};

use spec_syntax::Name;
use std::alloc::AllocError;

/// Why a grammar is refused. But for the first and the last, each names the first rule, in written order, that has the
/// fault.
#[derive(Debug, Drop)]
pub enum Refused {
    /// This name is used and has no rule. It is the first in written order; the class symbol comes last.
    Undefined(Name),
    /// This rule holds a Cycle, and the universe is unlabelled.
    CycleUnlabelled(Name),
    /// This rule has no structure of any size.
    Unproductive(Name),
    /// This rule holds a container over a class with a structure of size 0.
    NullElement(Name),
    /// This rule has endlessly many structures of one size. Its least size is told, or 1001 where that is above 1000.
    Endless(Name, u32),
    /// Memory is wanting.
    Memory,
}

impl From<AllocError> for Refused {
    ghost from_gives = { λ _ refused. refused ≡ Memory };

    fn from(_: AllocError) -> Refused {
        Refused::Memory
    }
}
