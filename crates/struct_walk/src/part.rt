//! The labels of a structure as a part of a supply.
ghost use Rattle.std.specs.Prelude.{◌≡◌, IfOk, IsTrue};
ghost use Rattle.lists.specs.Ascending.{ascending};
ghost use Rattle.struct_model.specs.Structure.{key};
ghost use Rattle.struct_model.specs.Membership.{is_supply};
ghost use Rattle.struct_model.specs.SupplyView.{supply_labels, supply_universe, is_in_order};

use std::alloc::{AllocError, Global};
use struct_model::{Labels, Struct, Supply, labels, size};

/// The labels in ascending order.
fn in_order(alloc: Global, found: &Labels) -> Result<Labels, AllocError>
    ensures { IfOk result (λ labels. labels ≡ ascending found.now) }
{
    let mut sorted = Vec::from_slice(alloc, found.as_slice())?;
    sorted.sort()?;
    Labels::from_slice(alloc, sorted.as_slice())
}

/// The labels of the structure as a part of the supply, which has them among its own.
pub(crate) fn part_of(alloc: Global, supply: &Supply, s: &Struct) -> Result<Supply, AllocError>
    requires { IsTrue (is_supply (supply_universe supply.now) (key s.now)) }
    ensures labels { IfOk result (λ part. supply_labels part ≡ key s.now) }
    ensures universe { IfOk result (λ part. supply_universe part ≡ supply_universe supply.now) }
    ensures in_order { IfOk result (λ part. IsTrue (is_in_order part)) }
{
    match supply {
        Supply::Zeros(_) => Ok(Supply::Zeros(size(s))),
        Supply::Labels(_) => {
            let found = labels(alloc, s)?;
            let labels = in_order(alloc, &found)?;
            Ok(Supply::Labels(labels))
        }
    }
}
