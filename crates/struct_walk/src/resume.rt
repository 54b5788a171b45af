//! What comes later than a structure that is given.
//!
//! The structure alone tells it: no structure is opened, and none is passed.
ghost use Rattle.std.specs.Prelude.{◌≡◌, ◌≤◌, length, map, drop, take, None, IfOk};
ghost use Rattle.lists.specs.Enumeration.{IsIn};
ghost use Rattle.spec_syntax.specs.Nodes.{right_node};
ghost use Rattle.struct_model.specs.Structure.{Tup, parts_of};
ghost use Rattle.struct_model.specs.SupplyView.{supply_labels};
ghost use Rattle.well_founded.specs.declared.node.NodeKind.TheVariants as told;
ghost use Rattle.listing_laws.specs.NodeListing.{HasKind, listing_on, rule_on};
ghost use Rattle.size_counts.specs.CountedView.{IsReachedIn};
ghost use Rattle.struct_walk.specs.Tails.{IsTail, tail_on};
ghost use Rattle.struct_walk.specs.SortedTails.{IsSortedTail, sorted_from, in_front};
ghost use Rattle.struct_walk.specs.Stands.{IsAsked, IsSetOf};
ghost use Rattle.struct_walk.specs.Opened.{Resumes};
ghost use Rattle.struct_walk.specs.Resumed.{ResumesLists, ResumesSorted};

use crate::later::{Later, LaterLists, LaterSorted, Level};
use crate::open::later_in_union;
use crate::part::part_of;
use crate::sorted_tail::{SortedLevel, SortedTail, behind_one, sorted_tail};
use crate::tail::{Tail, admitted_lengths, cut_tail, is_end, later_splits};
use size_counts::Counted;
use spec_syntax::Universe;
use splits::{copy_supply, remaining};
use std::alloc::{AllocError, Global};
use struct_model::{Form5, Shape, Struct, Structs, Supply, size};
use well_founded::NodeKind;

/// What comes later than the structure, which is one of the node with the labels of the supply.
#[cycle(resuming)]
pub(crate) fn resume(
    alloc: Global,
    counted: &Counted,
    node: u32,
    supply: Supply,
    s: &Struct,
) -> Result<Later, AllocError>
    requires reached { IsReachedIn counted.now node }
    requires asked { IsAsked counted.now supply }
    requires one { IsIn s.now (listing_on counted.now.checked node (supply_labels supply)) }
    ensures { IfOk result (Resumes counted.now (listing_on counted.now.checked node (supply_labels supply)) s.now) }
{
    let grammar = counted.grammar();
    match grammar.kind(node) {
        NodeKind::Epsilon | NodeKind::Atom => Ok(Later::Nothing),
        NodeKind::Rule => resume_rule(alloc, counted, grammar.sym(node), supply, s),
        NodeKind::Union => resume_union(alloc, counted, node, supply, s),
        NodeKind::Prod => {
            let tail = Tail::Components(node, 0);
            resume_components(alloc, counted, Form5::Prod, tail, supply, s)
        }
        NodeKind::Sequence => {
            let tail = Tail::Elements(node, grammar.child(node, 1), grammar.card(node));
            resume_components(alloc, counted, Form5::Sequence, tail, supply, s)
        }
        NodeKind::Set => resume_set(alloc, counted, Form5::Set, node, supply, s),
        NodeKind::PowerSet => resume_set(alloc, counted, Form5::PowerSet, node, supply, s),
        NodeKind::Cycle => {
            let tail = Tail::CycleElements(node, grammar.child(node, 1), grammar.card(node));
            resume_components(alloc, counted, Form5::Cycle, tail, supply, s)
        }
    }
}

/// What comes later than a structure of rule number `sym`.
#[cycle(resuming)]
pub(crate) fn resume_rule(
    alloc: Global,
    counted: &Counted,
    sym: u32,
    supply: Supply,
    s: &Struct,
) -> Result<Later, AllocError>
    requires low { 1 ≤ sym }
    requires high { sym ≤ length counted.now.checked.rules }
    requires reached { IsReachedIn counted.now (right_node counted.now.checked.rules sym) }
    requires asked { IsAsked counted.now supply }
    requires one { IsIn s.now (rule_on counted.now.checked sym (supply_labels supply)) }
    ensures { IfOk result (Resumes counted.now (rule_on counted.now.checked sym (supply_labels supply)) s.now) }
{
    let grammar = counted.grammar();
    let right = grammar.rule_node(sym);
    match grammar.kind(right) {
        NodeKind::Epsilon | NodeKind::Atom => Ok(Later::Nothing),
        NodeKind::Rule
        | NodeKind::Union
        | NodeKind::Prod
        | NodeKind::Sequence
        | NodeKind::Set
        | NodeKind::PowerSet
        | NodeKind::Cycle => {
            let Shape::Named(_, inside) = &s.shape else {
                unreachable!();
            };
            resume(alloc, counted, right, supply, inside)
        }
    }
}

/// What comes later than a structure of a Union.
#[cycle(resuming)]
fn resume_union(
    alloc: Global,
    counted: &Counted,
    node: u32,
    supply: Supply,
    s: &Struct,
) -> Result<Later, AllocError>
    requires reached { IsReachedIn counted.now node }
    requires union { HasKind counted.now.checked node told.Union }
    requires asked { IsAsked counted.now supply }
    requires one { IsIn s.now (listing_on counted.now.checked node (supply_labels supply)) }
    ensures { IfOk result (Resumes counted.now (listing_on counted.now.checked node (supply_labels supply)) s.now) }
{
    let grammar = counted.grammar();
    let Shape::Alt(number, inside) = &s.shape else {
        unreachable!();
    };
    let child = grammar.child(node, *number);
    let labels = copy_supply(alloc, &supply)?;
    let inner = resume(alloc, counted, child, labels, inside)?;
    later_in_union(alloc, counted, node, *number, supply, inner)
}

/// What comes later than a structure of these components and this form.
#[cycle(resuming)]
fn resume_components(
    alloc: Global,
    counted: &Counted,
    form: Form5,
    tail: Tail,
    supply: Supply,
    s: &Struct,
) -> Result<Later, AllocError>
    requires tail { IsTail counted.now tail }
    requires asked { IsAsked counted.now supply }
    requires one { IsIn s.now (map (λ ss. Tup form (parts_of ss)) (tail_on counted.now.checked tail (supply_labels supply))) }
    ensures { IfOk result (Resumes counted.now (map (λ ss. Tup form (parts_of ss)) (tail_on counted.now.checked tail (supply_labels supply))) s.now) }
{
    let Shape::Tup(_, parts) = &s.shape else {
        unreachable!();
    };
    let lists = resume_lists(alloc, counted, tail, supply, parts, 0)?;
    let lists = Box::new(alloc, lists)?;
    Ok(Later::Components(lists))
}

/// What comes later than the list of components from the place on.
#[cycle(resuming)]
fn resume_lists(
    alloc: Global,
    counted: &Counted,
    tail: Tail,
    supply: Supply,
    parts: &Structs,
    place: usize,
) -> Result<LaterLists, AllocError>
    requires tail { IsTail counted.now tail }
    requires asked { IsAsked counted.now supply }
    requires one { IsIn (drop place parts.now) (tail_on counted.now.checked tail (supply_labels supply)) }
    ensures { IfOk result (ResumesLists counted.now (tail_on counted.now.checked tail (supply_labels supply)) (drop place parts.now)) }
{
    let _ = counted.grammar();
    let n = supply.len();
    let Some(cut) = cut_tail(counted, tail, n) else {
        return Ok(LaterLists::Nothing);
    };
    if is_end(counted, cut.behind) {
        let later = resume(alloc, counted, cut.first, supply, parts.at(place))?;
        return Ok(LaterLists::Last(later));
    }
    let count = parts.len();
    prove!(place < count);
    let part = part_of(alloc, &supply, parts.at(place))?;
    let rest = remaining(alloc, &supply, &part)?;
    let lengths = admitted_lengths(alloc, counted, cut, n)?;
    let splits = later_splits(alloc, tail, supply, lengths, &part)?;
    let level = Level {
        cut,
        rest: copy_supply(alloc, &rest)?,
        splits,
    };
    let level = Box::new(alloc, level)?;
    let first = resume(alloc, counted, cut.first, part, parts.at(place))?;
    let others = resume_lists(alloc, counted, cut.behind, rest, parts, place + 1)?;
    let others = Box::new(alloc, others)?;
    Ok(LaterLists::Parts(level, first, others))
}

/// What comes later than a Set or a PowerSet, which has this form.
#[cycle(resuming)]
fn resume_set(
    alloc: Global,
    counted: &Counted,
    form: Form5,
    node: u32,
    supply: Supply,
    s: &Struct,
) -> Result<Later, AllocError>
    requires reached { IsReachedIn counted.now node }
    requires set { IsSetOf counted.now.checked node form }
    requires asked { IsAsked counted.now supply }
    requires one { IsIn s.now (listing_on counted.now.checked node (supply_labels supply)) }
    ensures { IfOk result (Resumes counted.now (listing_on counted.now.checked node (supply_labels supply)) s.now) }
{
    let grammar = counted.grammar();
    match grammar.universe() {
        Universe::Unlabelled => {
            let tail = sorted_tail(counted, node);
            resume_sorted_components(alloc, counted, form, tail, supply.len(), s)
        }
        Universe::Labelled => {
            let tail = Tail::SetElements(node, grammar.child(node, 1), grammar.card(node));
            resume_components(alloc, counted, form, tail, supply, s)
        }
    }
}

/// What comes later than a Set or a PowerSet with these sorted components, which have `n` atoms.
#[cycle(resuming)]
fn resume_sorted_components(
    alloc: Global,
    counted: &Counted,
    form: Form5,
    tail: SortedTail,
    n: u32,
    s: &Struct,
) -> Result<Later, AllocError>
    requires tail { IsSortedTail counted.now tail }
    requires within { n ≤ counted.now.size }
    requires one { IsIn s.now (map (λ ss. Tup form (parts_of ss)) (sorted_from counted.now.checked tail None n)) }
    ensures { IfOk result (Resumes counted.now (map (λ ss. Tup form (parts_of ss)) (sorted_from counted.now.checked tail None n)) s.now) }
{
    let Shape::Tup(_, parts) = &s.shape else {
        unreachable!();
    };
    let sorted = resume_sorted(alloc, counted, tail, n, parts, 0)?;
    let sorted = Box::new(alloc, sorted)?;
    Ok(Later::Sorted(sorted))
}

/// What comes later than the sorted components with `n` atoms from the place on.
#[cycle(resuming)]
fn resume_sorted(
    alloc: Global,
    counted: &Counted,
    tail: SortedTail,
    n: u32,
    parts: &Structs,
    place: usize,
) -> Result<LaterSorted, AllocError>
    requires tail { IsSortedTail counted.now tail }
    requires within { n ≤ counted.now.size }
    requires one { IsIn (drop place parts.now) (sorted_from counted.now.checked tail (in_front (take place parts.now)) n) }
    ensures { IfOk result (ResumesSorted counted.now (sorted_from counted.now.checked tail (in_front (take place parts.now)) n) (drop place parts.now)) }
{
    let _ = counted.grammar();
    if n == 0 {
        return Ok(LaterSorted::Nothing);
    }
    let count = parts.len();
    prove!(place < count);
    let component = parts.at(place);
    let taken = size(component);
    let level = SortedLevel {
        behind: behind_one(tail),
        taken,
        left: n - taken,
    };
    let first = resume(
        alloc,
        counted,
        tail.element,
        Supply::Zeros(taken),
        component,
    )?;
    let others = resume_sorted(alloc, counted, level.behind, level.left, parts, place + 1)?;
    let others = Box::new(alloc, others)?;
    Ok(LaterSorted::Level(level, first, others))
}
