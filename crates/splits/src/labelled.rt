//! Parts of ascending labels.
ghost use Rattle.std.specs.Prelude.{◌≡◌, ◌+◌, ◌<◌, ◌≤◌, length, IfOk, IfSome, IsTrue};
ghost use Rattle.std.specs.Option.{option_map};
ghost use Rattle.lists.specs.Ascending.{ascends_above};
ghost use Rattle.lists.specs.Enumeration.{IsIn};
ghost use Rattle.splits.specs.Splits.{splits};
ghost use Rattle.splits.specs.Parts.{parts_of, after, from_part, IsPart};
ghost use Rattle.splits.specs.Changes.{changed, change_to};

use crate::lengths::{least_above, least_from};
use std::alloc::{AllocError, Global};
use struct_model::Labels;

/// How a part is made of an earlier one.
#[derive(Clone, Copy)]
pub(crate) struct Change {
    /// How many labels of the earlier part it keeps.
    kept: usize,
    /// The place in the supply of the next label that it takes.
    place: usize,
    /// How many labels of the supply it takes from there on.
    taken: usize,
}

/// The change to a part of the length, which keeps `kept` labels and takes those from the place on, or None where too few
/// labels stand there, or where there is no length.
fn change_to(length: Option<usize>, kept: usize, place: usize, end: usize) -> Option<Change>
    requires longer { IfSome length (λ length. kept < length) }
    requires place { place ≤ end }
    ensures { result ≡ change_to length kept place end }
{
    match length {
        Some(length) if length - kept <= end - place => Some(Change {
            kept,
            place,
            taken: length - kept,
        }),
        Some(_) | None => None,
    }
}

/// The change from a part to the next one, or None where no part comes later.
///
/// Where the part can grow to an admitted length, it takes the labels behind its last one. Otherwise its last label that can
/// be raised, so that enough labels are left behind it, is replaced by those that come next. It takes as few labels as lead
/// to an admitted length.
fn next_change(labels: &[u32], part: &[u32], lengths: &[bool]) -> Option<Change>
    requires ascending { IsTrue (ascends_above 0 labels.now) }
    requires part { IsPart part.now (parts_of lengths.now labels.now) }
    ensures later { from_part (option_map (changed labels.now part.now) result) (parts_of lengths.now labels.now)
        ≡ after part.now (parts_of lengths.now labels.now) }
    ensures part { IfSome result (λ change. IsPart (changed labels.now part.now change) (parts_of lengths.now labels.now)) }
    ensures kept { IfSome result (λ change. change.kept ≤ length part.now) }
    ensures taken { IfSome result (λ change. change.place + change.taken ≤ length labels.now) }
{
    let mut change = None;
    let mut kept = 0;
    let mut longer = least_from(lengths, 1);
    for (place, label) in labels.iter().enumerate() {
        if kept == part.len() {
            return change_to(longer, kept, place, labels.len()).or(change);
        }
        if *label == part[kept] {
            change = change_to(longer, kept, place + 1, labels.len()).or(change);
            kept += 1;
            longer = least_above(lengths, kept, longer);
        }
    }
    change
}

/// The part that comes next, or None where no part comes later.
pub(crate) fn next_labels(
    alloc: Global,
    labels: &[u32],
    part: &[u32],
    lengths: &[bool],
) -> Result<Option<Labels>, AllocError>
    requires ascending { IsTrue (ascends_above 0 labels.now) }
    requires part { IsPart part.now (parts_of lengths.now labels.now) }
    ensures later { IfOk
        result
        (λ later. from_part later (parts_of lengths.now labels.now) ≡ after part.now (parts_of lengths.now labels.now)) }
    ensures part { IfOk result (λ later. IfSome later (λ next. IsPart next (parts_of lengths.now labels.now))) }
{
    let Some(change) = next_change(labels, part, lengths) else {
        return Ok(None);
    };
    let end = change.place + change.taken;
    let mut next = Labels::from_slice(alloc, &part[..change.kept])?;
    next.extend_from_slice(&labels[change.place..end])?;
    Ok(Some(next))
}

/// The labels that remain of ascending labels, without those of a part.
pub(crate) fn remaining_labels(
    alloc: Global,
    labels: &[u32],
    part: &[u32],
) -> Result<Labels, AllocError>
    requires ascending { IsTrue (ascends_above 0 labels.now) }
    requires part { IsPart part.now (splits labels.now) }
    ensures { IfOk result (λ rest. IsIn (record { part = part.now; rest = rest }) (splits labels.now)) }
{
    let mut rest = Labels::new(alloc);
    let mut taken = 0;
    for label in labels {
        if taken < part.len() && part[taken] == *label {
            taken += 1;
        } else {
            rest.push(*label)?;
        }
    }
    Ok(rest)
}
