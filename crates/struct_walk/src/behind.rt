//! The structure that comes next behind one that is given, in the universe without labels.
//!
//! Behind a list of components come those that differ from it behind the first component, then those with a later first
//! component of its size, and then those with a greater one.
ghost use Rattle.std.specs.Prelude.{◌≡◌, ◌∷◌, [], ◌+◌, ◌≤◌, ◌<◌, List, Some, true, length, map, drop, slice_get, IfOk};
ghost use Rattle.spec_syntax.specs.declared.statement.Universe.TheVariants.{Unlabelled};
ghost use Rattle.spec_syntax.specs.Nodes.{right_node};
ghost use Rattle.lists.specs.Enumeration.{IsIn};
ghost use Rattle.struct_model.specs.Structure.{Structure, Tup, parts_of};
ghost use Rattle.struct_model.specs.Membership.{supply as labels_of_size};
ghost use Rattle.struct_model.specs.SupplyView.{supply_labels};
ghost use Rattle.well_founded.specs.declared.node.NodeKind.TheVariants as told;
ghost use Rattle.splits.specs.Parts.{parts_of as parts_with, IsPart};
ghost use Rattle.listing_laws.specs.NodeListing.{HasKind, listing_on, rule_on};
ghost use Rattle.size_counts.specs.CountedView.{Counts, IsReachedIn};
ghost use Rattle.struct_walk.specs.Tails.{IsTail, tail_on, open_lengths};
ghost use Rattle.struct_walk.specs.Stands.{IsAsked, IsCut};
ghost use Rattle.struct_walk.specs.Opened.{Opens, OpensLists, OpensParts, NextArgument, OpensBehind, OpensBehindList, OpensBehindSplit, level_from};

use crate::arguments::next_argument;
use crate::behind_sorted::behind_sorted_node;
use crate::later::{Later, LaterLists, Level};
use crate::open::{later_in_union, open_lists, open_node, open_split};
use crate::resume::resume;
use crate::split_walk::SplitWalk;
use crate::tail::{Cut, Tail, admitted_lengths, cut_tail, is_end};
use size_counts::Counted;
use splits::copy_supply;
use std::alloc::{AllocError, Global};
use struct_model::{Form5, Shape, Struct, Structs, Supply, copy, size};
use well_founded::NodeKind;

/// The structure of the node that comes next behind `s`, which is one of them, with what comes later, if there is one. The
/// universe has no labels.
#[cycle(opening)]
pub(crate) fn open_behind(
    alloc: Global,
    counted: &Counted,
    node: u32,
    supply: Supply,
    s: &Struct,
) -> Result<Option<(Later, Struct)>, AllocError>
    requires reached { IsReachedIn counted.now node }
    requires asked { IsAsked counted.now supply }
    requires unlabelled { counted.now.checked.universe ≡ Unlabelled }
    requires one { IsIn s.now (listing_on counted.now.checked node (supply_labels supply)) }
    ensures { IfOk result (OpensBehind counted.now (listing_on counted.now.checked node (supply_labels supply)) s.now) }
{
    let grammar = counted.grammar();
    let n = supply.len();
    match grammar.kind(node) {
        NodeKind::Epsilon | NodeKind::Atom => Ok(None),
        NodeKind::Rule => behind_rule(alloc, counted, grammar.sym(node), supply, s),
        NodeKind::Union => behind_in_union(alloc, counted, node, supply, s),
        NodeKind::Prod => {
            let tail = Tail::Components(node, 0);
            behind_components(alloc, counted, Form5::Prod, tail, n, s)
        }
        NodeKind::Sequence => {
            let tail = Tail::Elements(node, grammar.child(node, 1), grammar.card(node));
            behind_components(alloc, counted, Form5::Sequence, tail, n, s)
        }
        NodeKind::Set | NodeKind::PowerSet => behind_sorted_node(alloc, counted, node, supply, s),
        NodeKind::Cycle => unreachable!(),
    }
}

/// The same of rule number `sym`. Behind a word comes none.
#[cycle(opening)]
fn behind_rule(
    alloc: Global,
    counted: &Counted,
    sym: u32,
    supply: Supply,
    s: &Struct,
) -> Result<Option<(Later, Struct)>, AllocError>
    requires low { 1 ≤ sym }
    requires high { sym ≤ length counted.now.checked.rules }
    requires reached { IsReachedIn counted.now (right_node counted.now.checked.rules sym) }
    requires asked { IsAsked counted.now supply }
    requires unlabelled { counted.now.checked.universe ≡ Unlabelled }
    requires one { IsIn s.now (rule_on counted.now.checked sym (supply_labels supply)) }
    ensures { IfOk result (OpensBehind counted.now (rule_on counted.now.checked sym (supply_labels supply)) s.now) }
{
    let grammar = counted.grammar();
    let right = grammar.rule_node(sym);
    match grammar.kind(right) {
        NodeKind::Epsilon | NodeKind::Atom => Ok(None),
        NodeKind::Rule
        | NodeKind::Union
        | NodeKind::Prod
        | NodeKind::Sequence
        | NodeKind::Set
        | NodeKind::PowerSet
        | NodeKind::Cycle => {
            let Shape::Named(_, inside) = &s.shape else {
                unreachable!();
            };
            let Some((later, next)) = open_behind(alloc, counted, right, supply, inside)? else {
                return Ok(None);
            };
            let _ = &next.shape;
            let next = Box::new(alloc, next)?;
            let s = Struct {
                shape: Shape::Named(sym, next),
            };
            Ok(Some((later, s)))
        }
    }
}

/// The same of a Union: what comes next in its argument, or else the first structure of the arguments behind it.
#[cycle(opening)]
fn behind_in_union(
    alloc: Global,
    counted: &Counted,
    node: u32,
    supply: Supply,
    s: &Struct,
) -> Result<Option<(Later, Struct)>, AllocError>
    requires reached { IsReachedIn counted.now node }
    requires union { HasKind counted.now.checked node told.Union }
    requires asked { IsAsked counted.now supply }
    requires unlabelled { counted.now.checked.universe ≡ Unlabelled }
    requires one { IsIn s.now (listing_on counted.now.checked node (supply_labels supply)) }
    ensures { IfOk result (OpensBehind counted.now (listing_on counted.now.checked node (supply_labels supply)) s.now) }
{
    let grammar = counted.grammar();
    let Shape::Alt(argument, inside) = &s.shape else {
        unreachable!();
    };
    let labels = copy_supply(alloc, &supply)?;
    let child = grammar.child(node, *argument);
    if let Some((inner, next)) = open_behind(alloc, counted, child, labels, inside)? {
        let opened = in_argument(alloc, counted, node, *argument, supply, inner, next)?;
        return Ok(Some(opened));
    }
    let n = supply.len();
    let Some(number) = next_argument(counted, node, *argument, n) else {
        return Ok(None);
    };
    let child = grammar.child(node, number);
    let labels = copy_supply(alloc, &supply)?;
    let (inner, first) = open_node(alloc, counted, child, labels)?;
    let opened = in_argument(alloc, counted, node, number, supply, inner, first)?;
    Ok(Some(opened))
}

/// The structure of argument `number` of a Union with `inside` in it, where `inner` comes later inside, and what comes later.
fn in_argument(
    alloc: Global,
    counted: &Counted,
    node: u32,
    number: u32,
    supply: Supply,
    inner: Later,
    inside: Struct,
) -> Result<(Later, Struct), AllocError>
    requires reached { IsReachedIn counted.now node }
    requires union { HasKind counted.now.checked node told.Union }
    requires asked { IsAsked counted.now supply }
    ensures { (all : List Structure) → NextArgument counted.now node supply all number inner inside true → IfOk result (Opens counted.now all) }
{
    let _ = &inside.shape;
    let later = later_in_union(alloc, counted, node, number, supply, inner)?;
    let inside = Box::new(alloc, inside)?;
    let s = Struct {
        shape: Shape::Alt(number, inside),
    };
    Ok((later, s))
}

/// The same of a Prod or a Sequence with `n` atoms, by its lists of components.
#[cycle(opening)]
fn behind_components(
    alloc: Global,
    counted: &Counted,
    form: Form5,
    tail: Tail,
    n: u32,
    s: &Struct,
) -> Result<Option<(Later, Struct)>, AllocError>
    requires tail { IsTail counted.now tail }
    requires within { n ≤ counted.now.size }
    requires unlabelled { counted.now.checked.universe ≡ Unlabelled }
    requires one { IsIn s.now (map (λ ss. Tup form (parts_of ss)) (tail_on counted.now.checked tail (labels_of_size Unlabelled n))) }
    ensures { IfOk result (OpensBehind counted.now (map (λ ss. Tup form (parts_of ss)) (tail_on counted.now.checked tail (labels_of_size Unlabelled n))) s.now) }
{
    let _ = counted.grammar();
    let Shape::Tup(_, parts) = &s.shape else {
        unreachable!();
    };
    let mut components = Structs::new(alloc);
    let Some(lists) = behind_lists(alloc, counted, tail, n, parts, 0, &mut components)? else {
        return Ok(None);
    };
    let later = Box::new(alloc, lists)?;
    let s = Struct {
        shape: Shape::Tup(form, components),
    };
    Ok(Some((Later::Components(later), s)))
}

/// Puts the list with `n` atoms that comes next behind that of the parts from the place on at the end, if one comes. What comes
/// later is answered.
#[cycle(opening)]
fn behind_lists(
    alloc: Global,
    counted: &Counted,
    tail: Tail,
    n: u32,
    parts: &Structs,
    place: usize,
    components: &mut Structs,
) -> Result<Option<LaterLists>, AllocError>
    requires tail { IsTail counted.now tail }
    requires within { n ≤ counted.now.size }
    requires unlabelled { counted.now.checked.universe ≡ Unlabelled }
    requires one { IsIn (drop place parts.now) (tail_on counted.now.checked tail (labels_of_size Unlabelled n)) }
    ensures { IfOk result (OpensBehindList counted.now (tail_on counted.now.checked tail (labels_of_size Unlabelled n)) (drop place parts.now) components.old components.new) }
{
    let _ = counted.grammar();
    let Some(cut) = cut_tail(counted, tail, n) else {
        return Ok(None);
    };
    let count = parts.len();
    prove!(place < count);
    let component = parts.at(place);
    if is_end(counted, cut.behind) {
        return behind_last(alloc, counted, cut.first, n, component, components);
    }
    let taken = size(component);
    let left = n - taken;
    let mut level = level_from(alloc, counted, cut, n, taken)?;
    let found = behind_split(alloc, counted, cut, taken, left, parts, place, components)?;
    if let Some((first, others)) = found {
        let lists = on_level(alloc, level, first, others)?;
        return Ok(Some(lists));
    }
    let Some((part, rest)) = level.splits.next(alloc)? else {
        return Ok(None);
    };
    level.rest = copy_supply(alloc, &rest)?;
    let (first, others) = open_split(alloc, counted, cut, part, rest, components)?;
    let lists = on_level(alloc, level, first, others)?;
    Ok(Some(lists))
}

/// What comes later than a list whose first component stands on this level, where this comes later than that component and
/// than the others.
fn on_level(
    alloc: Global,
    level: Level,
    first: Later,
    others: LaterLists,
) -> Result<LaterLists, AllocError>
    ensures { (counts : Counts) (all : List (List Structure)) (before after : List Structure) → OpensParts counts all before level first others after → IfOk result (OpensLists counts all before after) }
{
    let level = Box::new(alloc, level)?;
    let others = Box::new(alloc, others)?;
    Ok(LaterLists::Parts(level, first, others))
}

/// Where a first component with `taken` of `n` atoms without labels stands, with the splits that come after its own.
fn level_from(
    alloc: Global,
    counted: &Counted,
    cut: Cut,
    n: u32,
    taken: u32,
) -> Result<Level, AllocError>
    requires cut { IsCut counted.now cut }
    requires within { n ≤ counted.now.size }
    requires taken { taken ≤ n }
    requires part { IsPart (labels_of_size Unlabelled taken) (parts_with (open_lengths counted.now.checked cut n) (labels_of_size Unlabelled n)) }
    ensures { IfOk result (λ level. level ≡ level_from counted.now.checked cut n taken) }
{
    let lengths = admitted_lengths(alloc, counted, cut, n)?;
    let part = Supply::Zeros(taken);
    let splits = SplitWalk::after(alloc, Supply::Zeros(n), lengths, &part)?;
    let rest = Supply::Zeros(n - taken);
    Ok(Level { cut, rest, splits })
}

/// Puts what comes next behind a component with `n` atoms, which is the last one, at the end, if any comes. What comes later is
/// answered.
#[cycle(opening)]
fn behind_last(
    alloc: Global,
    counted: &Counted,
    node: u32,
    n: u32,
    component: &Struct,
    components: &mut Structs,
) -> Result<Option<LaterLists>, AllocError>
    requires reached { IsReachedIn counted.now node }
    requires within { n ≤ counted.now.size }
    requires unlabelled { counted.now.checked.universe ≡ Unlabelled }
    requires one { IsIn component.now (listing_on counted.now.checked node (labels_of_size Unlabelled n)) }
    ensures { IfOk result (OpensBehindList counted.now (map (λ s. s ∷ []) (listing_on counted.now.checked node (labels_of_size Unlabelled n))) (component.now ∷ []) components.old components.new) }
{
    let supply = Supply::Zeros(n);
    let Some((later, next)) = open_behind(alloc, counted, node, supply, component)? else {
        return Ok(None);
    };
    components.push(next)?;
    Ok(Some(LaterLists::Last(later)))
}

/// Puts the list that comes next behind that of the parts from the place on, with as many atoms in its first component, at the
/// end, if one comes: with the same first component, or else with the one that comes next. What comes later is answered.
#[cycle(opening)]
fn behind_split(
    alloc: Global,
    counted: &Counted,
    cut: Cut,
    taken: u32,
    left: u32,
    parts: &Structs,
    place: usize,
    components: &mut Structs,
) -> Result<Option<(Later, LaterLists)>, AllocError>
    requires cut { IsCut counted.now cut }
    requires taken { taken ≤ counted.now.size }
    requires left { left ≤ counted.now.size }
    requires unlabelled { counted.now.checked.universe ≡ Unlabelled }
    requires place { place < length parts.now }
    requires first { (s : Structure) → slice_get parts.now place ≡ Some s → IsIn s (listing_on counted.now.checked cut.first (labels_of_size Unlabelled taken)) }
    requires others { IsIn (drop (place + 1) parts.now) (tail_on counted.now.checked cut.behind (labels_of_size Unlabelled left)) }
    ensures { IfOk result (OpensBehindSplit counted.now (listing_on counted.now.checked cut.first (labels_of_size Unlabelled taken)) (tail_on counted.now.checked cut.behind (labels_of_size Unlabelled left)) (drop place parts.now) components.old components.new) }
{
    let count = parts.len();
    prove!(place < count);
    let component = parts.at(place);
    let copied = copy(alloc, component)?;
    components.push(copied)?;
    let found = behind_lists(
        alloc,
        counted,
        cut.behind,
        left,
        parts,
        place + 1,
        components,
    )?;
    if let Some(others) = found {
        let first = resume(alloc, counted, cut.first, Supply::Zeros(taken), component)?;
        return Ok(Some((first, others)));
    }
    let _ = components.pop();
    let part = Supply::Zeros(taken);
    let Some((first, next)) = open_behind(alloc, counted, cut.first, part, component)? else {
        return Ok(None);
    };
    components.push(next)?;
    let rest = Supply::Zeros(left);
    let others = open_lists(alloc, counted, cut.behind, rest, components)?;
    Ok(Some((first, others)))
}
