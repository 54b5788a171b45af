//! The Set or the PowerSet without labels that comes next behind one that is given.
//!
//! Behind sorted components come those that differ from them behind the first one, then those with a later first component of
//! its size, and then those with a greater one.
ghost use Rattle.std.specs.Prelude.{◌≡◌, ◌⊎◌, ◌+◌, ◌≤◌, true, drop, IfOk};
ghost use Rattle.spec_syntax.specs.Card.{admits};
ghost use Rattle.spec_syntax.specs.declared.statement.Universe.TheVariants.{Unlabelled};
ghost use Rattle.lists.specs.Enumeration.{IsIn};
ghost use Rattle.struct_model.specs.Membership.{supply as labels_of_size};
ghost use Rattle.struct_model.specs.SupplyView.{supply_labels};
ghost use Rattle.well_founded.specs.declared.node.NodeKind.TheVariants as told;
ghost use Rattle.listing_laws.specs.NodeListing.{HasKind, listing_on};
ghost use Rattle.size_counts.specs.CountedView.{IsReachedIn};
ghost use Rattle.struct_walk.specs.SortedTails.{IsSortedTail, IsFrontOf, in_front, sorted_from};
ghost use Rattle.struct_walk.specs.Stands.{IsAsked};
ghost use Rattle.struct_walk.specs.Opened.{OpensBehind, OpensBehindSorted, OpensBehindFirst};

use crate::behind::open_behind;
use crate::later::{Later, LaterSorted};
use crate::resume::resume;
use crate::sorted::{open_first, open_greater};
use crate::sorted_tail::{SortedLevel, SortedTail, behind_one, sorted_form, sorted_tail};
use size_counts::Counted;
use std::alloc::{AllocError, Global};
use struct_model::{Shape, Struct, Structs, Supply, copy, size};

/// The structure of the Set or the PowerSet that comes next behind `s`, which is one of them, with what comes later, if there
/// is one. The universe has no labels.
#[cycle(opening)]
pub(crate) fn behind_sorted_node(
    alloc: Global,
    counted: &Counted,
    node: u32,
    supply: Supply,
    s: &Struct,
) -> Result<Option<(Later, Struct)>, AllocError>
    requires reached { IsReachedIn counted.now node }
    requires kind { (HasKind counted.now.checked node told.Set) ⊎ (HasKind counted.now.checked node told.PowerSet) }
    requires asked { IsAsked counted.now supply }
    requires unlabelled { counted.now.checked.universe ≡ Unlabelled }
    requires one { IsIn s.now (listing_on counted.now.checked node (supply_labels supply)) }
    ensures { IfOk result (OpensBehind counted.now (listing_on counted.now.checked node (supply_labels supply)) s.now) }
{
    let _ = counted.grammar();
    let tail = sorted_tail(counted, node);
    let n = supply.len();
    let Shape::Tup(_, parts) = &s.shape else {
        unreachable!();
    };
    let mut components = Structs::new(alloc);
    let found = behind_sorted(alloc, counted, tail, n, parts, 0, &mut components)?;
    let Some(sorted) = found else {
        return Ok(None);
    };
    let later = Box::new(alloc, sorted)?;
    let s = Struct {
        shape: Shape::Tup(sorted_form(tail.strict), components),
    };
    Ok(Some((Later::Sorted(later), s)))
}

/// Puts the sorted list with `n` atoms that comes next behind that of the parts from the place on at the end, if one comes. What
/// comes later is answered.
#[cycle(opening)]
fn behind_sorted(
    alloc: Global,
    counted: &Counted,
    tail: SortedTail,
    n: u32,
    parts: &Structs,
    place: usize,
    components: &mut Structs,
) -> Result<Option<LaterSorted>, AllocError>
    requires tail { IsSortedTail counted.now tail }
    requires within { n ≤ counted.now.size }
    requires front { IsFrontOf counted.now.checked tail.element components.old }
    requires one { IsIn (drop place parts.now) (sorted_from counted.now.checked tail (in_front components.old) n) }
    ensures { IfOk result (OpensBehindSorted counted.now (sorted_from counted.now.checked tail (in_front components.old) n) (drop place parts.now) components.old components.new) }
{
    let _ = counted.grammar();
    if parts.len() <= place {
        return Ok(None);
    }
    let component = parts.at(place);
    let behind = behind_one(tail);
    let taken = size(component);
    let left = n - taken;
    let copied = copy(alloc, component)?;
    components.push(copied)?;
    let found = behind_sorted(alloc, counted, behind, left, parts, place + 1, components)?;
    let level = SortedLevel {
        behind,
        taken,
        left,
    };
    if let Some(others) = found {
        let supply = Supply::Zeros(taken);
        let first = resume(alloc, counted, tail.element, supply, component)?;
        let others = Box::new(alloc, others)?;
        return Ok(Some(LaterSorted::Level(level, first, others)));
    }
    let _ = components.pop();
    behind_first(alloc, counted, level, component, components)
}

/// Puts the first sorted list at the end whose first component comes later than this one, which has the size of the level, or has
/// more atoms, if there is one. What comes later is answered.
#[cycle(opening)]
fn behind_first(
    alloc: Global,
    counted: &Counted,
    level: SortedLevel,
    component: &Struct,
    components: &mut Structs,
) -> Result<Option<LaterSorted>, AllocError>
    requires behind { IsSortedTail counted.now level.behind }
    requires within { level.taken + level.left ≤ counted.now.size }
    requires alone { level.left ≡ 0 → admits level.behind.card 0 ≡ true }
    requires one { IsIn component.now (listing_on counted.now.checked level.behind.element (labels_of_size Unlabelled level.taken)) }
    ensures { IfOk result (OpensBehindFirst counted.now level component.now components.old components.new) }
{
    let _ = counted.grammar();
    let element = level.behind.element;
    let supply = Supply::Zeros(level.taken);
    if let Some((later, next)) = open_behind(alloc, counted, element, supply, component)? {
        if let Some(opened) = open_first(alloc, counted, level, later, next, components)? {
            return Ok(Some(opened));
        }
    }
    let n = level.taken + level.left;
    open_greater(alloc, counted, level.behind, level.taken, n, components)
}
