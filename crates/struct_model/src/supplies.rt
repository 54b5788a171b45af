//! Supplies of labels, which the atoms of a structure carry.
ghost use Rattle.std.specs.Prelude.{◌≡◌, length, IfOk, IsTrue};
ghost use Rattle.lists.specs.Ascending.{one_to, ascends_above};
ghost use Rattle.struct_model.specs.Membership.{supply};
ghost use Rattle.struct_model.specs.SupplyView.{supply_labels, supply_universe, is_in_order};

use crate::Labels;
use spec_syntax::Universe;
use std::alloc::{AllocError, Global};

/// The labels that the atoms of a structure carry, each of them once.
#[derive(PartialEq, Eq, Debug, Drop)]
pub enum Supply {
    /// So many zeros, for unlabelled atoms.
    Zeros(u32),
    /// Labels of at least 1, which ascend strictly. This is a condition of each call that takes a supply, and it holds of
    /// each supply that a call answers.
    Labels(Labels),
}

impl Supply {
    /// The number of labels. It takes no memory.
    pub fn len(&self) -> u32
        requires { IsTrue (is_in_order self.now) }
        ensures { result ≡ length (supply_labels self.now) }
    {
        match self {
            Supply::Zeros(n) => *n,
            Supply::Labels(labels) => number_of_labels(labels.as_slice()),
        }
    }

    /// The supply of a structure of size `n`: `n` zeros, or the labels from 1 to `n`.
    ///
    /// # Errors
    ///
    /// Memory may be wanting.
    pub fn whole(alloc: Global, universe: Universe, n: u32) -> Result<Supply, AllocError>
        ensures labels { IfOk result (λ whole. supply_labels whole ≡ supply universe n) }
        ensures universe { IfOk result (λ whole. supply_universe whole ≡ universe) }
        ensures in_order { IfOk result (λ whole. IsTrue (is_in_order whole)) }
    {
        match universe {
            Universe::Unlabelled => Ok(Supply::Zeros(n)),
            Universe::Labelled => Ok(Supply::Labels(labels_to(alloc, n)?)),
        }
    }
}

/// The number of these labels, which ascend, so that there are fewer than 2^32.
fn number_of_labels(labels: &[u32]) -> u32
    requires { IsTrue (ascends_above 0 labels.now) }
    ensures { result ≡ length labels.now }
{
    labels.len() as u32
}

/// The labels from 1 to `n`.
fn labels_to(alloc: Global, n: u32) -> Result<Labels, AllocError>
    ensures { IfOk result (λ labels. labels ≡ one_to n) }
{
    let mut labels = Labels::new(alloc);
    for below in 0..n {
        labels.push(below + 1)?;
    }
    Ok(labels)
}
