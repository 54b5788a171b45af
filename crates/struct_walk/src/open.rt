//! The first structure of a node on a supply of labels, and what comes later.
//!
//! Only what has a structure is opened, as the numbers of the class tell. On the way down the number of labels never grows,
//! and where it stays the rank falls.
ghost use Rattle.std.specs.Prelude.{◌≡◌, ◌⊎◌, ℕ, ◌≤◌, ◌<◌, List, [], ◌∷◌, length, map, IfOk};
ghost use Rattle.struct_model.specs.Structure.{Structure, Alt as Alternative, Tup, parts_of};
ghost use Rattle.struct_model.specs.SupplyView.{supply_labels};
ghost use Rattle.well_founded.specs.declared.node.NodeKind.TheVariants as told;
ghost use Rattle.spec_syntax.specs.declared.statement.Universe.TheVariants.{Unlabelled};
ghost use Rattle.spec_syntax.specs.Nodes.{children_at, right_node};
ghost use Rattle.listing_laws.specs.Lister.{named};
ghost use Rattle.listing_laws.specs.NodeListing.{HasKind, listing_on, rule_on, rule_rank};
ghost use Rattle.size_counts.specs.CountedView.{IsReachedIn};
ghost use Rattle.struct_walk.specs.Tails.{IsTail, tail_on};
ghost use Rattle.struct_walk.specs.After.{argument_after, structures_after};
ghost use Rattle.struct_walk.specs.Stands.{IsAsked, IsCut, IsSetOf, Stands};
ghost use Rattle.struct_walk.specs.Opened.{Opens, OpensLists, OpensSplit};

use crate::arguments::next_argument;
use crate::later::{Later, LaterLists, Level};
use crate::sorted::open_sorted_node;
use crate::tail::{Cut, Tail, admitted_lengths, cut_tail, first_splits, is_end};
use size_counts::Counted;
use spec_syntax::Universe;
use splits::copy_supply;
use std::alloc::{AllocError, Global};
use struct_model::{Form5, Shape, Struct, Structs, Supply};
use well_founded::NodeKind;

/// The label of an atom that has the labels of the supply, which is of one.
fn only_label(supply: &Supply) -> u32
    requires { length (supply_labels supply.now) ≡ 1 }
    ensures { supply_labels supply.now ≡ result ∷ [] }
{
    match supply {
        Supply::Zeros(_) => 0,
        Supply::Labels(labels) => *labels.at(0),
    }
}

/// What comes later in argument `number` of a Union, where `inner` comes later inside, and then in the arguments behind it.
pub(crate) fn later_in_union(
    alloc: Global,
    counted: &Counted,
    node: u32,
    number: u32,
    supply: Supply,
    inner: Later,
) -> Result<Later, AllocError>
    requires reached { IsReachedIn counted.now node }
    requires union { HasKind counted.now.checked node told.Union }
    requires asked { IsAsked counted.now supply }
    ensures after { (s : Structure) → IfOk result (λ later. structures_after counted.now.checked later (Alternative number s) ≡ argument_after counted.now.checked node supply (structures_after counted.now.checked inner) (Alternative number s)) }
    ensures stands { (s : Structure) → Stands counted.now inner s → IfOk result (λ later. Stands counted.now later (Alternative number s)) }
{
    let n = supply.len();
    if matches!(&inner, Later::Nothing) && next_argument(counted, node, number, n).is_none() {
        return Ok(Later::Nothing);
    }
    let inner = Box::new(alloc, inner)?;
    Ok(Later::Argument(node, supply, inner))
}

/// The first structure of a node with the labels of the supply, and what comes later. There is one.
#[cycle(opening)]
pub(crate) fn open_node(
    alloc: Global,
    counted: &Counted,
    node: u32,
    supply: Supply,
) -> Result<(Later, Struct), AllocError>
    requires reached { IsReachedIn counted.now node }
    requires asked { IsAsked counted.now supply }
    requires some { 0 < length (listing_on counted.now.checked node (supply_labels supply)) }
    ensures { IfOk result (Opens counted.now (listing_on counted.now.checked node (supply_labels supply))) }
{
    let grammar = counted.grammar();
    match grammar.kind(node) {
        NodeKind::Epsilon => {
            let s = Struct {
                shape: Shape::Eps(0),
            };
            Ok((Later::Nothing, s))
        }
        NodeKind::Atom => {
            let s = Struct {
                shape: Shape::Atom(0, only_label(&supply)),
            };
            Ok((Later::Nothing, s))
        }
        NodeKind::Rule => open_rule(alloc, counted, grammar.sym(node), supply),
        NodeKind::Union => open_union(alloc, counted, node, supply),
        NodeKind::Prod => {
            let tail = Tail::Components(node, 0);
            open_components(alloc, counted, Form5::Prod, tail, supply)
        }
        NodeKind::Sequence => {
            let tail = Tail::Elements(node, grammar.child(node, 1), grammar.card(node));
            open_components(alloc, counted, Form5::Sequence, tail, supply)
        }
        NodeKind::Set => open_set(alloc, counted, Form5::Set, node, supply),
        NodeKind::PowerSet => open_set(alloc, counted, Form5::PowerSet, node, supply),
        NodeKind::Cycle => {
            let tail = Tail::CycleElements(node, grammar.child(node, 1), grammar.card(node));
            open_components(alloc, counted, Form5::Cycle, tail, supply)
        }
    }
}

/// The first structure of a Set or a PowerSet, which has this form, and what comes later.
#[cycle(opening)]
fn open_set(
    alloc: Global,
    counted: &Counted,
    form: Form5,
    node: u32,
    supply: Supply,
) -> Result<(Later, Struct), AllocError>
    requires reached { IsReachedIn counted.now node }
    requires set { IsSetOf counted.now.checked node form }
    requires asked { IsAsked counted.now supply }
    requires some { 0 < length (listing_on counted.now.checked node (supply_labels supply)) }
    ensures { IfOk result (Opens counted.now (listing_on counted.now.checked node (supply_labels supply))) }
{
    let grammar = counted.grammar();
    match grammar.universe() {
        Universe::Unlabelled => open_sorted_node(alloc, counted, node, supply),
        Universe::Labelled => {
            let tail = Tail::SetElements(node, grammar.child(node, 1), grammar.card(node));
            open_components(alloc, counted, form, tail, supply)
        }
    }
}

/// The first structure of rule number `sym`, and what comes later.
#[cycle(opening)]
pub(crate) fn open_rule(
    alloc: Global,
    counted: &Counted,
    sym: u32,
    supply: Supply,
) -> Result<(Later, Struct), AllocError>
    requires low { 1 ≤ sym }
    requires high { sym ≤ length counted.now.checked.rules }
    requires reached { IsReachedIn counted.now (right_node counted.now.checked.rules sym) }
    requires asked { IsAsked counted.now supply }
    requires some { 0 < length (rule_on counted.now.checked sym (supply_labels supply)) }
    ensures { IfOk result (Opens counted.now (rule_on counted.now.checked sym (supply_labels supply))) }
{
    let grammar = counted.grammar();
    let right = grammar.rule_node(sym);
    match grammar.kind(right) {
        NodeKind::Epsilon => {
            let s = Struct {
                shape: Shape::Eps(sym),
            };
            Ok((Later::Nothing, s))
        }
        NodeKind::Atom => {
            let s = Struct {
                shape: Shape::Atom(sym, only_label(&supply)),
            };
            Ok((Later::Nothing, s))
        }
        NodeKind::Rule
        | NodeKind::Union
        | NodeKind::Prod
        | NodeKind::Sequence
        | NodeKind::Set
        | NodeKind::PowerSet
        | NodeKind::Cycle => {
            let (later, inside) = open_node(alloc, counted, right, supply)?;
            let _ = &inside.shape;
            let inside = Box::new(alloc, inside)?;
            let s = Struct {
                shape: Shape::Named(sym, inside),
            };
            Ok((later, s))
        }
    }
}

/// The first structure of a Union, and what comes later.
#[cycle(opening)]
fn open_union(
    alloc: Global,
    counted: &Counted,
    node: u32,
    supply: Supply,
) -> Result<(Later, Struct), AllocError>
    requires reached { IsReachedIn counted.now node }
    requires union { HasKind counted.now.checked node told.Union }
    requires asked { IsAsked counted.now supply }
    requires some { 0 < length (listing_on counted.now.checked node (supply_labels supply)) }
    ensures { IfOk result (Opens counted.now (listing_on counted.now.checked node (supply_labels supply))) }
{
    let grammar = counted.grammar();
    let n = supply.len();
    let Some(number) = next_argument(counted, node, 0, n) else {
        unreachable!();
    };
    let child = grammar.child(node, number);
    let labels = copy_supply(alloc, &supply)?;
    let (inner, inside) = open_node(alloc, counted, child, labels)?;
    let _ = &inside.shape;
    let later = later_in_union(alloc, counted, node, number, supply, inner)?;
    let inside = Box::new(alloc, inside)?;
    let s = Struct {
        shape: Shape::Alt(number, inside),
    };
    Ok((later, s))
}

/// The first structure that has these components and this form, and what comes later.
#[cycle(opening)]
fn open_components(
    alloc: Global,
    counted: &Counted,
    form: Form5,
    tail: Tail,
    supply: Supply,
) -> Result<(Later, Struct), AllocError>
    requires tail { IsTail counted.now tail }
    requires asked { IsAsked counted.now supply }
    requires some { 0 < length (tail_on counted.now.checked tail (supply_labels supply)) }
    ensures { IfOk result (Opens counted.now (map (λ ss. Tup form (parts_of ss)) (tail_on counted.now.checked tail (supply_labels supply)))) }
{
    let _ = counted.grammar();
    let mut components = Structs::new(alloc);
    let lists = open_lists(alloc, counted, tail, supply, &mut components)?;
    let later = Box::new(alloc, lists)?;
    let s = Struct {
        shape: Shape::Tup(form, components),
    };
    Ok((Later::Components(later), s))
}

/// Puts the first list of components at the end. What comes later is answered.
#[cycle(opening)]
pub(crate) fn open_lists(
    alloc: Global,
    counted: &Counted,
    tail: Tail,
    supply: Supply,
    components: &mut Structs,
) -> Result<LaterLists, AllocError>
    requires tail { IsTail counted.now tail }
    requires asked { IsAsked counted.now supply }
    requires some { 0 < length (tail_on counted.now.checked tail (supply_labels supply)) }
    ensures { IfOk result (OpensLists counted.now (tail_on counted.now.checked tail (supply_labels supply)) components.old components.new) }
{
    let _ = counted.grammar();
    let n = supply.len();
    let Some(cut) = cut_tail(counted, tail, n) else {
        return Ok(LaterLists::Nothing);
    };
    if is_end(counted, cut.behind) {
        return open_last(alloc, counted, cut.first, supply, components);
    }
    let lengths = admitted_lengths(alloc, counted, cut, n)?;
    let mut splits = first_splits(alloc, tail, supply, lengths)?;
    let Some((part, rest)) = splits.next(alloc)? else {
        unreachable!();
    };
    let level = Level {
        cut,
        rest: copy_supply(alloc, &rest)?,
        splits,
    };
    let (first, others) = open_split(alloc, counted, cut, part, rest, components)?;
    let level = Box::new(alloc, level)?;
    let others = Box::new(alloc, others)?;
    Ok(LaterLists::Parts(level, first, others))
}

/// Puts the first structure of a node, which is the last component, at the end. What comes later is answered.
#[cycle(opening)]
fn open_last(
    alloc: Global,
    counted: &Counted,
    node: u32,
    supply: Supply,
    components: &mut Structs,
) -> Result<LaterLists, AllocError>
    requires reached { IsReachedIn counted.now node }
    requires asked { IsAsked counted.now supply }
    requires some { 0 < length (listing_on counted.now.checked node (supply_labels supply)) }
    ensures { IfOk result (OpensLists counted.now (map (λ s. s ∷ []) (listing_on counted.now.checked node (supply_labels supply))) components.old components.new) }
{
    let (later, component) = open_node(alloc, counted, node, supply)?;
    components.push(component)?;
    Ok(LaterLists::Last(later))
}

/// Puts the first component on the part and the first list of the others on the rest at the end. What comes later than each
/// of them is answered.
#[cycle(opening)]
pub(crate) fn open_split(
    alloc: Global,
    counted: &Counted,
    cut: Cut,
    part: Supply,
    rest: Supply,
    components: &mut Structs,
) -> Result<(Later, LaterLists), AllocError>
    requires cut { IsCut counted.now cut }
    requires part { IsAsked counted.now part }
    requires rest { IsAsked counted.now rest }
    requires first { 0 < length (listing_on counted.now.checked cut.first (supply_labels part)) }
    requires others { 0 < length (tail_on counted.now.checked cut.behind (supply_labels rest)) }
    ensures { IfOk result (OpensSplit counted.now (listing_on counted.now.checked cut.first (supply_labels part)) (tail_on counted.now.checked cut.behind (supply_labels rest)) components.old components.new) }
{
    let (first, component) = open_node(alloc, counted, cut.first, part)?;
    components.push(component)?;
    let others = open_lists(alloc, counted, cut.behind, rest, components)?;
    Ok((first, others))
}
