//! Rotations of lists of structures.
ghost use Rattle.std.specs.Prelude.{◌≡◌, ◌+◌, ◌<◌, ◌++◌, Some, length, slice_get, IsTrue, IfOk};
ghost use Rattle.struct_model.specs.Order.{is_least_rotation};
ghost use Rattle.canon.specs.Rotations.{IsLeastPlace, IsRotation};

use std::alloc::{AllocError, Global};
use std::cmp::Ordering;
use struct_model::{Struct, Structs, compare, copy};

/// The structure at a place of the list and a second copy of it behind it.
fn around(items: &[Struct], place: usize) -> &Struct
    requires { place < length items.now + length items.now }
    ensures { slice_get (items.now ++ items.now) place ≡ Some result.now }
{
    if place < items.len() {
        &items[place]
    } else {
        &items[place - items.len()]
    }
}

/// The place at which the least rotation of the list begins, the first such place where there are several.
///
/// Two places are compared, and the one whose rotation is after the other's moves on behind what was equal (Shiloach 1981).
/// It takes no memory, and compares fewer than three times as many structures as the list has.
pub fn least_rotation(items: &[Struct]) -> usize
    requires { 0 < length items.now }
    ensures { IsLeastPlace items.now result }
{
    let length = items.len();
    let mut best = 0;
    let mut other = 1;
    // So many structures from both places on are equal.
    let mut equal = 0;
    while other < length && equal < length {
        match compare(around(items, best + equal), around(items, other + equal)) {
            Ordering::Equal => equal += 1,
            Ordering::Less => {
                other += equal + 1;
                equal = 0;
            }
            Ordering::Greater => {
                best = other.max(best + equal + 1);
                other = best + 1;
                equal = 0;
            }
        }
    }
    best
}

/// Whether the list is after none of its rotations. It takes no memory.
pub fn is_least(items: &[Struct]) -> bool
    ensures { result ≡ is_least_rotation items.now }
{
    items.is_empty() || least_rotation(items) == 0
}

/// A copy of the list in its least rotation.
///
/// # Errors
///
/// Memory may be wanting.
pub fn rotate_least(alloc: Global, list: &Structs) -> Result<Structs, AllocError>
    requires { 0 < length list.now }
    ensures rotation { IfOk result (λ turned. IsRotation list.now turned) }
    ensures least { IfOk result (λ turned. IsTrue (is_least_rotation turned)) }
{
    let items = list.as_slice();
    let start = least_rotation(items);
    let mut turned = Structs::new(alloc);
    for place in 0..items.len() {
        turned.push(copy(alloc, around(items, start + place))?)?;
    }
    Ok(turned)
}
