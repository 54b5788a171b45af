//! The step from a structure to the next one.
//!
//! A structure changes only as far as the next one differs from it: the last component that has another one after it, and
//! what stands behind that.
ghost use Rattle.std.specs.Prelude.{◌≡◌, ◌<◌, ◌≤◌, ◌^◌, length, drop, IfOk};
ghost use Rattle.struct_model.specs.Structure.{Alt as Alternative, Tup, parts_of, labels_of_parts};
ghost use Rattle.struct_model.specs.SupplyView.{supply_labels};
ghost use Rattle.struct_walk.specs.After.{arguments_behind, structures_after, lists_after, sorted_after, parts_after};
ghost use Rattle.struct_walk.specs.Tails.{on_splits};
ghost use Rattle.struct_walk.specs.Stands.{CanGoOn, LevelStands, SortedLevelStands, Stands, ListsStand, SortedStand, PartsStand, AreSmall, AreSmallLists};
ghost use Rattle.struct_walk.specs.Opened.{Next, NextArgument, NextSorted, ListsStepTo, SortedStepTo, FirstStepTo, PartsStepTo, PartsOpen};

use crate::arguments::next_argument;
use crate::later::{Later, LaterLists, LaterSorted, Level};
use crate::open::{open_lists, open_node, open_split};
use crate::sorted::{open_greater, open_sorted};
use crate::sorted_tail::SortedLevel;
use size_counts::Counted;
use splits::copy_supply;
use std::alloc::{AllocError, Global};
use std::mem;
use struct_model::{Form5, Shape, Struct, Structs, Supply};

/// Puts the structure that comes after `s` in its place, if one comes.
#[cycle(stepping)]
pub(crate) fn step(
    alloc: Global,
    counted: &Counted,
    later: &mut Later,
    s: &mut Struct,
) -> Result<bool, AllocError>
    requires stands { Stands counted.now later.old s.old }
    requires small { AreSmall (structures_after counted.now.checked later.old s.old) }
    ensures { IfOk result (Next counted.now (structures_after counted.now.checked later.old s.old) later.new s.new) }
{
    match &mut s.shape {
        Shape::Eps(_) | Shape::Atom(_, _) => Ok(false),
        Shape::Named(_, inside) => {
            let inside: &mut Struct = inside;
            let stepped = step(alloc, counted, later, inside);
            let _ = &inside.shape;
            stepped
        }
        Shape::Alt(number, inside) => {
            let inside: &mut Struct = inside;
            let stepped = step_argument(alloc, counted, later, number, inside);
            let _ = &inside.shape;
            stepped
        }
        Shape::Tup(form, components) => step_components(alloc, counted, later, *form, components),
    }
}

/// The same of a structure of a Union, in an argument and then in those behind it.
#[cycle(stepping)]
fn step_argument(
    alloc: Global,
    counted: &Counted,
    later: &mut Later,
    number: &mut u32,
    inside: &mut Struct,
) -> Result<bool, AllocError>
    requires stands { Stands counted.now later.old (Alternative number.old inside.old) }
    requires small { AreSmall (structures_after counted.now.checked later.old (Alternative number.old inside.old)) }
    ensures { IfOk result (Next counted.now (structures_after counted.now.checked later.old (Alternative number.old inside.old)) later.new (Alternative number.new inside.new)) }
{
    let Later::Argument(node, supply, inner) = later else {
        return Ok(false);
    };
    if step(alloc, counted, inner, inside)? {
        return Ok(true);
    }
    open_next_argument(alloc, counted, *node, supply, inner, number, inside)
}

/// Puts the first structure of the arguments behind this one in its place, if they have one.
fn open_next_argument(
    alloc: Global,
    counted: &Counted,
    node: u32,
    supply: &Supply,
    later: &mut Later,
    number: &mut u32,
    inside: &mut Struct,
) -> Result<bool, AllocError>
    requires stands { CanGoOn counted.now node supply.now }
    ensures { IfOk result (NextArgument counted.now node supply.now (arguments_behind counted.now.checked node number.old (supply_labels supply.now)) number.new later.new inside.new) }
{
    let n = supply.len();
    let Some(next) = next_argument(counted, node, *number, n) else {
        return Ok(false);
    };
    let child = counted.grammar().child(node, next);
    let labels = copy_supply(alloc, supply)?;
    let (first, opened) = open_node(alloc, counted, child, labels)?;
    *number = next;
    *later = first;
    *inside = opened;
    Ok(true)
}

/// The same of a structure that has these components. They have fewer than 2^32 atoms, whatever comes.
#[cycle(stepping)]
fn step_components(
    alloc: Global,
    counted: &Counted,
    later: &mut Later,
    form: Form5,
    components: &mut Structs,
) -> Result<bool, AllocError>
    requires stands { Stands counted.now later.old (Tup form (parts_of components.old)) }
    requires small { AreSmall (structures_after counted.now.checked later.old (Tup form (parts_of components.old))) }
    requires few { length (labels_of_parts (parts_of components.old)) < 2 ^ 32 }
    ensures next { IfOk result (Next counted.now (structures_after counted.now.checked later.old (Tup form (parts_of components.old))) later.new (Tup form (parts_of components.new))) }
    ensures few { length (labels_of_parts (parts_of components.new)) < 2 ^ 32 }
{
    if let Later::Sorted(sorted) = later {
        return step_set(alloc, counted, sorted, components);
    }
    let Later::Components(lists) = later else {
        return Ok(false);
    };
    let mut stepped = mem::replace(components, Structs::new(alloc));
    if step_lists(alloc, counted, lists, &mut stepped, 0)? {
        *components = stepped;
        return Ok(true);
    }
    Ok(false)
}

/// The same of sorted components.
#[cycle(stepping)]
fn step_set(
    alloc: Global,
    counted: &Counted,
    later: &mut LaterSorted,
    components: &mut Structs,
) -> Result<bool, AllocError>
    requires stand { SortedStand counted.now later.old components.old }
    requires small { AreSmallLists (sorted_after counted.now.checked later.old components.old) }
    ensures next { IfOk result (NextSorted counted.now (sorted_after counted.now.checked later.old components.old) later.new components.new) }
    ensures few { length (labels_of_parts (parts_of components.new)) < 2 ^ 32 }
{
    let mut stepped = mem::replace(components, Structs::new(alloc));
    if step_sorted(alloc, counted, later, &mut stepped, 0)? {
        *components = stepped;
        return Ok(true);
    }
    Ok(false)
}

/// Puts the list of components that comes next in place of the one from the place on, or takes this away where none comes.
#[cycle(stepping)]
fn step_lists(
    alloc: Global,
    counted: &Counted,
    later: &mut LaterLists,
    components: &mut Structs,
    place: usize,
) -> Result<bool, AllocError>
    requires place { place ≤ length components.old }
    requires stand { ListsStand counted.now later.old (drop place components.old) }
    requires small { AreSmallLists (lists_after counted.now.checked later.old (drop place components.old)) }
    ensures { IfOk result (ListsStepTo counted.now place later.old components.old later.new components.new) }
{
    match later {
        LaterLists::Nothing => Ok(false),
        LaterLists::Last(inner) => {
            let Some(mut component) = components.pop() else {
                unreachable!();
            };
            if step(alloc, counted, inner, &mut component)? {
                components.push(component)?;
                return Ok(true);
            }
            Ok(false)
        }
        LaterLists::Parts(level, first, others) => {
            step_parts(alloc, counted, level, first, others, components, place)
        }
    }
}

/// The same where a component stands at the place.
#[cycle(stepping)]
fn step_parts(
    alloc: Global,
    counted: &Counted,
    level: &mut Level,
    first: &mut Later,
    others: &mut LaterLists,
    components: &mut Structs,
    place: usize,
) -> Result<bool, AllocError>
    requires place { place < length components.old }
    requires level { LevelStands counted.now level.old }
    requires stand { PartsStand counted.now first.old others.old (drop place components.old) }
    requires small { AreSmallLists (parts_after counted.now.checked level.old first.old others.old (drop place components.old)) }
    ensures { IfOk result (PartsStepTo counted.now place (parts_after counted.now.checked level.old first.old others.old (drop place components.old)) components.old level.new first.new others.new components.new) }
{
    let count = components.len();
    prove!(place < count);
    if step_lists(alloc, counted, others, components, place + 1)? {
        return Ok(true);
    }
    let Some(mut component) = components.pop() else {
        unreachable!();
    };
    if step(alloc, counted, first, &mut component)? {
        components.push(component)?;
        let rest = copy_supply(alloc, &level.rest)?;
        *others = open_lists(alloc, counted, level.cut.behind, rest, components)?;
        return Ok(true);
    }
    open_next_split(alloc, counted, level, first, others, components)
}

/// The same of sorted components.
#[cycle(stepping)]
fn step_sorted(
    alloc: Global,
    counted: &Counted,
    later: &mut LaterSorted,
    components: &mut Structs,
    place: usize,
) -> Result<bool, AllocError>
    requires place { place ≤ length components.old }
    requires stand { SortedStand counted.now later.old (drop place components.old) }
    ensures { IfOk result (SortedStepTo counted.now place later.old components.old later.new components.new) }
{
    let _ = counted.grammar();
    let LaterSorted::Level(level, first, others) = later else {
        return Ok(false);
    };
    let count = components.len();
    prove!(place < count);
    if step_sorted(alloc, counted, others, components, place + 1)? {
        return Ok(true);
    }
    let Some(component) = components.pop() else {
        unreachable!();
    };
    let level = *level;
    if step_first(alloc, counted, level, first, others, component, components)? {
        return Ok(true);
    }
    let n = level.taken + level.left;
    let greater = open_greater(alloc, counted, level.behind, level.taken, n, components)?;
    let Some(opened) = greater else {
        return Ok(false);
    };
    *later = opened;
    Ok(true)
}

/// Puts the component of its size that comes next at the end, with the first list of the others behind it, if there is one.
#[cycle(stepping)]
fn step_first(
    alloc: Global,
    counted: &Counted,
    level: SortedLevel,
    first: &mut Later,
    others: &mut LaterSorted,
    mut component: Struct,
    components: &mut Structs,
) -> Result<bool, AllocError>
    requires level { SortedLevelStands counted.now level first.old component }
    requires stands { Stands counted.now first.old component }
    ensures { IfOk result (FirstStepTo counted.now level (structures_after counted.now.checked first.old component) components.old first.new others.new components.new) }
{
    let _ = counted.grammar();
    if !step(alloc, counted, first, &mut component)? {
        return Ok(false);
    }
    components.push(component)?;
    let opened = open_sorted(alloc, counted, level.behind, level.left, components)?;
    let Some(opened) = opened else {
        let _ = components.pop();
        return Ok(false);
    };
    *others = opened;
    Ok(true)
}

/// Puts the first list on the split that comes next at the end, if one comes.
fn open_next_split(
    alloc: Global,
    counted: &Counted,
    level: &mut Level,
    first: &mut Later,
    others: &mut LaterLists,
    components: &mut Structs,
) -> Result<bool, AllocError>
    requires level { LevelStands counted.now level.old }
    ensures { IfOk result (PartsOpen counted.now (on_splits counted.now.checked level.old.cut level.old.splits.left) components.old level.new first.new others.new components.new) }
{
    let Some((part, rest)) = level.splits.next(alloc)? else {
        return Ok(false);
    };
    level.rest = copy_supply(alloc, &rest)?;
    let (later, behind) = open_split(alloc, counted, level.cut, part, rest, components)?;
    *first = later;
    *others = behind;
    Ok(true)
}
