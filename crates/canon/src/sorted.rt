//! Sorted lists of structures.
ghost use Rattle.std.specs.Prelude.{◌≡◌, ◌≤◌, length, insert, IsTrue, OnOk, OnErr};
ghost use Rattle.struct_model.specs.Order.{is_sorted};
ghost use Rattle.canon.specs.Sorted.{with_item};

use std::alloc::AllocError;
use std::cmp::Ordering;
use struct_model::{Struct, Structs, compare};

/// Puts a structure into a sorted list, behind all that aren't after it. The list stays sorted.
///
/// # Errors
///
/// Where memory is wanting the structure is dropped, and the list is as before.
pub fn put_sorted(list: &mut Structs, item: Struct) -> Result<(), AllocError>
    requires { IsTrue (is_sorted list.old) }
    ensures with_item { OnOk result (list.new ≡ with_item item list.old) }
    ensures sorted { OnOk result (IsTrue (is_sorted list.new)) }
    ensures err { OnErr result (list.new ≡ list.old) }
{
    let place = place_of(list.as_slice(), &item);
    list.insert(place, item)
}

/// The place of the first structure that is after the item, or the number of structures where none is.
fn place_of(sorted: &[Struct], item: &Struct) -> usize
    requires { IsTrue (is_sorted sorted.now) }
    ensures within { result ≤ length sorted.now }
    ensures place { insert sorted.now result item.now ≡ with_item item.now sorted.now }
{
    let mut low = 0;
    let mut high = sorted.len();
    while low < high {
        let middle = low + (high - low) / 2;
        match compare(&sorted[middle], item) {
            Ordering::Greater => high = middle,
            Ordering::Less | Ordering::Equal => low = middle + 1,
        }
    }
    low
}
