//! Copies of supplies.
ghost use Rattle.std.specs.Prelude.{◌≡◌, IfOk};

use std::alloc::{AllocError, Global};
use struct_model::{Labels, Supply};

/// A supply of the same labels.
///
/// # Errors
///
/// Memory may be wanting.
pub fn copy_supply(alloc: Global, supply: &Supply) -> Result<Supply, AllocError>
    ensures { IfOk result (λ copied. copied ≡ supply.now) }
{
    match supply {
        Supply::Zeros(n) => Ok(Supply::Zeros(*n)),
        Supply::Labels(labels) => {
            let copied = Labels::from_slice(alloc, labels.as_slice())?;
            Ok(Supply::Labels(copied))
        }
    }
}
