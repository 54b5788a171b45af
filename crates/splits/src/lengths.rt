//! Lengths that are admitted, by a mark for each length from 0 on.
ghost use Rattle.std.specs.Prelude.{◌≡◌, ℕ, ◌+◌, ◌^◌, ◌<◌, ◌≤◌, ◌&&◌, nat_le, IfOk};
ghost use Rattle.splits.specs.Lengths.{is_admitted, IsLeastFrom};

use std::alloc::{AllocError, Global};

/// The least admitted length from `from` on, or None where there is none.
pub(crate) fn least_from(lengths: &[bool], from: usize) -> Option<usize>
    ensures { IsLeastFrom lengths.now from result }
{
    for length in from..lengths.len() {
        if lengths[length] {
            return Some(length);
        }
    }
    None
}

/// The least admitted length above `kept`, given the least one from `kept` on. It looks at the marks between the two alone.
pub(crate) fn least_above(lengths: &[bool], kept: usize, least: Option<usize>) -> Option<usize>
    requires kept { kept < 2 ^ 63 }
    requires least { IsLeastFrom lengths.now kept least }
    ensures { IsLeastFrom lengths.now (kept + 1) result }
{
    match least {
        Some(length) if length == kept => least_from(lengths, kept + 1),
        Some(_) | None => least,
    }
}

/// Whether the length lies between these two.
fn lies_between(low: u32, high: u32, length: u64) -> bool
    ensures { result ≡ nat_le low length && nat_le length high }
{
    low as u64 <= length && length <= high as u64
}

/// Marks of the lengths up to `most`, of which those from `low` to `high` are admitted.
pub(crate) fn lengths_between(
    alloc: Global,
    low: u32,
    high: u32,
    most: u32,
) -> Result<Vec<bool>, AllocError>
    ensures { IfOk result (λ lengths. (n : ℕ) → n ≤ most → is_admitted lengths.items n ≡ nat_le low n && nat_le n high) }
{
    let mut lengths = Vec::new(alloc);
    for length in 0..most as u64 + 1 {
        lengths.push(lies_between(low, high, length))?;
    }
    Ok(lengths)
}
