//! The first sorted list of components of a Set or a PowerSet without labels, and what comes later.
//!
//! A component is followed by itself and by those that come later among those of its size, in a PowerSet by these alone, and
//! then by the greater ones. Where nothing fills what is left behind one of them, nothing does behind a later one of its size.
ghost use Rattle.std.specs.Prelude.{◌≡◌, ◌⊎◌, ◌+◌, ◌-◌, ◌≤◌, ◌<◌, ◌∷◌, true, length, IfOk};
ghost use Rattle.lists.specs.Enumeration.{IsIn};
ghost use Rattle.spec_syntax.specs.declared.statement.Universe.TheVariants.{Unlabelled};
ghost use Rattle.struct_model.specs.Structure.{size as atom_count};
ghost use Rattle.struct_model.specs.Membership.{supply as labels_of_size};
ghost use Rattle.struct_model.specs.SupplyView.{supply_labels};
ghost use Rattle.well_founded.specs.declared.node.NodeKind.TheVariants as told;
ghost use Rattle.listing_laws.specs.Lister.{admits_some};
ghost use Rattle.listing_laws.specs.NodeListing.{HasKind, listing_on};
ghost use Rattle.size_counts.specs.CountedView.{IsReachedIn};
ghost use Rattle.struct_walk.specs.SortedTails.{IsSortedTail, IsFrontOf, behind_one as tail_behind, in_front, size_in_front, sorted_from, with_greater, at_sorted_level};
ghost use Rattle.struct_walk.specs.After.{structures_after};
ghost use Rattle.struct_walk.specs.Stands.{IsAsked, SortedLevelStands, Stands};
ghost use Rattle.struct_walk.specs.Opened.{Opens, OpensSorted, OpensSortedOr, OpensFollowing};

use crate::behind::open_behind;
use crate::later::{Later, LaterSorted};
use crate::open::open_node;
use crate::resume::resume;
use crate::sorted_tail::{
    SortedLevel, SortedTail, admits_some, behind_one, may_go_on, size_in_front, sorted_form,
    sorted_tail,
};
use size_counts::Counted;
use std::alloc::{AllocError, Global};
use struct_model::{Shape, Struct, Structs, Supply, copy, size};

/// The first structure of a Set or a PowerSet without labels, and what comes later.
#[cycle(opening)]
pub(crate) fn open_sorted_node(
    alloc: Global,
    counted: &Counted,
    node: u32,
    supply: Supply,
) -> Result<(Later, Struct), AllocError>
    requires reached { IsReachedIn counted.now node }
    requires kind { (HasKind counted.now.checked node told.Set) ⊎ (HasKind counted.now.checked node told.PowerSet) }
    requires unlabelled { counted.now.checked.universe ≡ Unlabelled }
    requires asked { IsAsked counted.now supply }
    requires some { 0 < length (listing_on counted.now.checked node (supply_labels supply)) }
    ensures { IfOk result (Opens counted.now (listing_on counted.now.checked node (supply_labels supply))) }
{
    let _ = counted.grammar();
    let tail = sorted_tail(counted, node);
    let n = supply.len();
    let mut components = Structs::new(alloc);
    let Some(sorted) = open_sorted(alloc, counted, tail, n, &mut components)? else {
        unreachable!();
    };
    let later = Box::new(alloc, sorted)?;
    let s = Struct {
        shape: Shape::Tup(sorted_form(tail.strict), components),
    };
    Ok((Later::Sorted(later), s))
}

/// Puts the first sorted list that goes on from the component in front at the end, if there is one. What comes later is
/// answered.
#[cycle(opening)]
pub(crate) fn open_sorted(
    alloc: Global,
    counted: &Counted,
    tail: SortedTail,
    n: u32,
    components: &mut Structs,
) -> Result<Option<LaterSorted>, AllocError>
    requires tail { IsSortedTail counted.now tail }
    requires within { n ≤ counted.now.size }
    requires front { IsFrontOf counted.now.checked tail.element components.old }
    ensures { IfOk result (OpensSorted counted.now (sorted_from counted.now.checked tail (in_front components.old) n) components.old components.new) }
{
    let _ = counted.grammar();
    if n == 0 {
        if tail.card.admits(0) {
            return Ok(Some(LaterSorted::Nothing));
        }
        return Ok(None);
    }
    if !admits_some(tail.card) {
        return Ok(None);
    }
    if let Some(opened) = open_same(alloc, counted, tail, n, components)? {
        return Ok(Some(opened));
    }
    let d = size_in_front(components);
    open_greater(alloc, counted, behind_one(tail), d, n, components)
}

/// The same of the lists whose first component has the size of the one in front.
#[cycle(opening)]
fn open_same(
    alloc: Global,
    counted: &Counted,
    tail: SortedTail,
    n: u32,
    components: &mut Structs,
) -> Result<Option<LaterSorted>, AllocError>
    requires tail { IsSortedTail counted.now tail }
    requires some { admits_some tail.card ≡ true }
    requires low { 0 < n }
    requires within { n ≤ counted.now.size }
    requires front { IsFrontOf counted.now.checked tail.element components.old }
    ensures { IfOk result (OpensSortedOr counted.now (sorted_from counted.now.checked tail (in_front components.old) n) (with_greater counted.now.checked (tail_behind tail) (size_in_front components.old) n) components.old components.new) }
{
    let _ = counted.grammar();
    let Some(front) = components.as_slice().last() else {
        return Ok(None);
    };
    let taken = size(front);
    let behind = behind_one(tail);
    if n < taken || !may_go_on(counted, behind, taken, n - taken) {
        return Ok(None);
    }
    let Some((later, component)) = open_following(alloc, counted, tail, front)? else {
        return Ok(None);
    };
    let left = n - taken;
    let level = SortedLevel {
        behind,
        taken,
        left,
    };
    open_first(alloc, counted, level, later, component, components)
}

/// The first of the structures of its size that may follow this one, if there is one, and what comes later.
#[cycle(opening)]
fn open_following(
    alloc: Global,
    counted: &Counted,
    tail: SortedTail,
    front: &Struct,
) -> Result<Option<(Later, Struct)>, AllocError>
    requires tail { IsSortedTail counted.now tail }
    requires within { atom_count front.now ≤ counted.now.size }
    requires one { IsIn front.now (listing_on counted.now.checked tail.element (labels_of_size Unlabelled (atom_count front.now))) }
    ensures { IfOk result (OpensFollowing counted.now tail front.now) }
{
    let _ = counted.grammar();
    let supply = Supply::Zeros(size(front));
    if tail.strict {
        return open_behind(alloc, counted, tail.element, supply, front);
    }
    let later = resume(alloc, counted, tail.element, supply, front)?;
    let component = copy(alloc, front)?;
    Ok(Some((later, component)))
}

/// Puts the component at the end with the first list of the others behind it, if there is one. What comes later is answered.
#[cycle(opening)]
pub(crate) fn open_first(
    alloc: Global,
    counted: &Counted,
    level: SortedLevel,
    later: Later,
    component: Struct,
    components: &mut Structs,
) -> Result<Option<LaterSorted>, AllocError>
    requires level { SortedLevelStands counted.now level later component }
    requires stands { Stands counted.now later component }
    ensures { IfOk result (OpensSortedOr counted.now (at_sorted_level counted.now.checked level (component ∷ structures_after counted.now.checked later component)) (with_greater counted.now.checked level.behind level.taken (level.taken + level.left)) components.old components.new) }
{
    let _ = counted.grammar();
    components.push(component)?;
    let Some(others) = open_sorted(alloc, counted, level.behind, level.left, components)? else {
        let _ = components.pop();
        return Ok(None);
    };
    let others = Box::new(alloc, others)?;
    Ok(Some(LaterSorted::Level(level, later, others)))
}

/// Puts the first sorted list at the end whose first component has more than `d` of `n` atoms, if there is one. What comes
/// later is answered.
#[cycle(opening)]
pub(crate) fn open_greater(
    alloc: Global,
    counted: &Counted,
    behind: SortedTail,
    d: u32,
    n: u32,
    components: &mut Structs,
) -> Result<Option<LaterSorted>, AllocError>
    requires behind { IsSortedTail counted.now behind }
    requires within { n ≤ counted.now.size }
    ensures { IfOk result (OpensSorted counted.now (with_greater counted.now.checked behind d n) components.old components.new) }
{
    let _ = counted.grammar();
    for below in d..n {
        let level = SortedLevel {
            behind,
            taken: below + 1,
            left: n - below - 1,
        };
        if let Some(opened) = open_level(alloc, counted, level, components)? {
            return Ok(Some(opened));
        }
    }
    Ok(None)
}

/// The same of the lists whose first component has the size of the level.
#[cycle(opening)]
fn open_level(
    alloc: Global,
    counted: &Counted,
    level: SortedLevel,
    components: &mut Structs,
) -> Result<Option<LaterSorted>, AllocError>
    requires behind { IsSortedTail counted.now level.behind }
    requires some { 0 < level.taken }
    requires within { level.taken + level.left ≤ counted.now.size }
    ensures { IfOk result (OpensSortedOr counted.now (with_greater counted.now.checked level.behind (level.taken - 1) (level.taken + level.left)) (with_greater counted.now.checked level.behind level.taken (level.taken + level.left)) components.old components.new) }
{
    let _ = counted.grammar();
    let element = level.behind.element;
    if !may_go_on(counted, level.behind, level.taken, level.left)
        || counted.number(element, level.taken) == 0
    {
        return Ok(None);
    }
    let supply = Supply::Zeros(level.taken);
    let (later, component) = open_node(alloc, counted, element, supply)?;
    open_first(alloc, counted, level, later, component, components)
}
