//! One part of a given length, by the number of those before it.
ghost use Rattle.std.specs.Prelude.{◌≡◌, ◌<◌, ◌≤◌, ◌+◌, Some, length, slice_get, IfOk, IsTrue};
ghost use Rattle.count_laws.specs.Choose.{choose};
ghost use Rattle.lists.specs.Ascending.{ascends_above};
ghost use Rattle.struct_model.specs.SupplyView.{supply_labels, supply_universe, is_in_order};
ghost use Rattle.splits.specs.Parts.{parts, number_of_parts};
ghost use Rattle.splits.specs.Passed.{passed};
ghost use Rattle.splits.specs.WalkView.{split_into};

use crate::pascal::Pascal;
use std::alloc::{AllocError, Global};
use struct_model::{Labels, Supply};

/// How many parts with the next label are passed over, where `behind` labels stand behind it, `missing` labels are still to
/// be taken, and `earlier` parts come before the one that is wanted. None where that one has the label.
fn passed(pascal: &Pascal, behind: u32, missing: u32, earlier: u128) -> Option<u128>
    requires row { behind ≤ pascal.now }
    requires place { missing ≤ behind + 1 }
    ensures { result ≡ passed behind missing earlier }
{
    if missing == 0 {
        return Some(0);
    }
    match pascal.choose(behind, missing - 1) {
        Some(with_label) if with_label <= earlier => Some(with_label),
        Some(_) | None => None,
    }
}

/// The part of `d` of the `n` labels with exactly `r` such parts before it, and what remains.
fn nth_labels(
    alloc: Global,
    pascal: &Pascal,
    labels: &[u32],
    n: u32,
    d: u32,
    r: u128,
) -> Result<(Labels, Labels), AllocError>
    requires ascending { IsTrue (ascends_above 0 labels.now) }
    requires number { n ≡ length labels.now }
    requires row { n ≤ pascal.now }
    requires before { r < choose n d }
    ensures { IfOk result (λ found. slice_get (parts d d labels.now) r ≡ Some (record { part = found.0; rest = found.1 })) }
{
    let mut part = Labels::new(alloc);
    let mut rest = Labels::new(alloc);
    let mut behind = n;
    let mut missing = d;
    let mut earlier = r;
    for label in labels {
        behind -= 1;
        match passed(pascal, behind, missing, earlier) {
            Some(number) => {
                earlier -= number;
                rest.push(*label)?;
            }
            None => {
                missing -= 1;
                part.push(*label)?;
            }
        }
    }
    Ok((part, rest))
}

/// The part of `d` labels with exactly `r` parts of that length before it in lexicographic order, and what remains.
///
/// The labels are passed one by one: each is taken where fewer parts that have it come before the wanted one than there are
/// (the combinatorial number system; Lehmer 1964).
///
/// # Errors
///
/// Memory may be wanting.
pub fn nth_part(
    alloc: Global,
    pascal: &Pascal,
    supply: &Supply,
    d: u32,
    r: u128,
) -> Result<(Supply, Supply), AllocError>
    requires in_order { IsTrue (is_in_order supply.now) }
    requires length { d ≤ length (supply_labels supply.now) }
    requires row { length (supply_labels supply.now) ≤ pascal.now }
    requires before { r < number_of_parts supply.now d }
    ensures nth { IfOk result (λ found. slice_get (parts d d (supply_labels supply.now)) r ≡ Some (split_into found.0 found.1)) }
    ensures part_in_order { IfOk result (λ found. IsTrue (is_in_order found.0)) }
    ensures rest_in_order { IfOk result (λ found. IsTrue (is_in_order found.1)) }
    ensures part_universe { IfOk result (λ found. supply_universe found.0 ≡ supply_universe supply.now) }
    ensures rest_universe { IfOk result (λ found. supply_universe found.1 ≡ supply_universe supply.now) }
{
    let n = supply.len();
    match supply {
        Supply::Zeros(_) => Ok((Supply::Zeros(d), Supply::Zeros(n - d))),
        Supply::Labels(labels) => {
            let (part, rest) = nth_labels(alloc, pascal, labels.as_slice(), n, d, r)?;
            Ok((Supply::Labels(part), Supply::Labels(rest)))
        }
    }
}
