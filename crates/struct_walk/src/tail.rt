//! What stands behind the first components of a list, and at which sizes it has lists.
ghost use Rattle.std.specs.Prelude.{◌≡◌, ℕ, ◌≤◌, ◌<◌, ◌↔◌, length, IsTrue, IfOk};
ghost use Rattle.spec_syntax.specs.Rules.{all_nodes};
ghost use Rattle.struct_model.specs.SupplyView.{supply_labels, supply_universe, is_in_order};
ghost use Rattle.splits.specs.Parts.{after, IsPart};
ghost use Rattle.size_counts.specs.CountedView.{IsReachedIn};
ghost use Rattle.size_counts.specs.Numbers.{most_components};
ghost use Rattle.listing_laws.specs.Lister.{after_one as bound_after_one};
ghost use Rattle.struct_walk.specs.Tails.{IsTail, AreComponents, AreElements, AreSetElements, tail_number, cut_of, is_end, first_parts, HasFirst, is_open, open_lengths};
ghost use Rattle.struct_walk.specs.declared.tail.Tail.TheVariants.{Components, Elements, SetElements};

use crate::split_walk::SplitWalk;
use size_counts::Counted;
use spec_syntax::Card;
use std::alloc::{AllocError, Global};
use struct_model::Supply;

/// The components of a list from one of them on.
#[derive(Clone, Copy)]
pub enum Tail {
    /// Those of the Prod that is this node, from the place on, which is counted from 0.
    Components(u32, u32),
    /// Those of the Sequence or the Cycle that is this node, over this element, as many as the bound admits.
    Elements(u32, u32, Card),
    /// Those of the Set or the PowerSet with labels that is this node, over this element, as many as the bound admits: the
    /// first of them has the least label.
    SetElements(u32, u32, Card),
    /// All of the Cycle that is this node, over this element, as many as its bound admits: the first of them has the least
    /// label.
    CycleElements(u32, u32, Card),
}

/// The node of the first component of a list, and what stands behind it.
#[derive(Clone, Copy)]
pub struct Cut {
    pub(crate) first: u32,
    pub(crate) behind: Tail,
}

/// The bound on the components after the first one.
pub(crate) fn after_one(card: Card) -> Card
    ensures { result ≡ bound_after_one card }
{
    let high = match card.high {
        None => None,
        Some(high) => Some(high.saturating_sub(1)),
    };
    Card {
        low: card.low.saturating_sub(1),
        high,
    }
}

/// The first component and what stands behind it, where lists with `n` atoms have a component.
pub(crate) fn cut_tail(counted: &Counted, tail: Tail, n: u32) -> Option<Cut>
    requires { IsTail counted.now tail }
    ensures { result ≡ cut_of counted.now.checked tail n }
{
    match tail {
        Tail::Components(node, place) => {
            let grammar = counted.grammar();
            if place < grammar.children(node) {
                Some(Cut {
                    first: grammar.child(node, place + 1),
                    behind: Tail::Components(node, place + 1),
                })
            } else {
                None
            }
        }
        Tail::Elements(_, _, _) | Tail::SetElements(_, _, _) | Tail::CycleElements(_, _, _)
            if n == 0 => { None }
        Tail::Elements(node, element, card) | Tail::CycleElements(node, element, card) => {
            Some(Cut {
                first: element,
                behind: Tail::Elements(node, element, after_one(card)),
            })
        }
        Tail::SetElements(node, element, card) => Some(Cut {
            first: element,
            behind: Tail::SetElements(node, element, after_one(card)),
        }),
    }
}

/// Whether the empty list is the only one, since it is the end of a Prod.
pub(crate) fn is_end(counted: &Counted, tail: Tail) -> bool
    requires { IsTail counted.now tail }
    ensures { result ≡ is_end counted.now.checked tail }
{
    match tail {
        Tail::Components(node, place) => counted.grammar().children(node) <= place,
        Tail::Elements(_, _, _) | Tail::SetElements(_, _, _) | Tail::CycleElements(_, _, _) =>
            false,
    }
}

/// Whether there are lists with `n` atoms.
fn has_lists(counted: &Counted, tail: Tail, n: u32) -> bool
    requires tail { IsTail counted.now tail }
    requires within { n ≤ counted.now.size }
    ensures { IsTrue result ↔ (0 < tail_number counted.now.checked tail n) }
{
    match tail {
        Tail::Components(node, place) => has_components(counted, node, place, n),
        Tail::Elements(node, element, card) => has_repeated(counted, node, element, card, n),
        Tail::SetElements(node, element, card) => has_sets(counted, node, element, card, n),
        Tail::CycleElements(node, _, _) => {
            // The grammar has passed the check.
            let _ = counted.grammar();
            0 < counted.number(node, n)
        }
    }
}

/// Whether the Prod has lists with `n` atoms of its components from the place on.
fn has_components(counted: &Counted, node: u32, place: u32, n: u32) -> bool
    requires components { AreComponents counted.now node place }
    requires within { n ≤ counted.now.size }
    ensures { IsTrue result ↔ (0 < tail_number counted.now.checked (Components node place) n) }
{
    let grammar = counted.grammar();
    if place == 0 {
        0 < counted.number(node, n)
    } else if place < grammar.children(node) {
        0 < counted.suffix(node, place + 1, n)
    } else {
        n == 0
    }
}

/// The greatest number of components of lists with `n` atoms.
fn most_components(card: Card, n: u32) -> u32
    ensures { result ≡ most_components card n }
{
    match card.high {
        Some(high) => high.min(n),
        None => n,
    }
}

/// Whether there are lists with `n` atoms of as many components of the Sequence or the Cycle as the bound admits.
fn has_repeated(counted: &Counted, node: u32, element: u32, card: Card, n: u32) -> bool
    requires elements { AreElements counted.now node element card }
    requires within { n ≤ counted.now.size }
    ensures { IsTrue result ↔ (0 < tail_number counted.now.checked (Elements node element card) n) }
{
    // The greatest size is at most 1000.
    let _ = counted.grammar();
    for components in card.low..most_components(card, n) + 1 {
        if 0 < counted.lists(node, components, n) {
            return true;
        }
    }
    false
}

/// Whether there are sets with `n` atoms of as many components of the Set or the PowerSet as the bound admits.
fn has_sets(counted: &Counted, node: u32, element: u32, card: Card, n: u32) -> bool
    requires elements { AreSetElements counted.now node element card }
    requires within { n ≤ counted.now.size }
    ensures { IsTrue result ↔ (0 < tail_number counted.now.checked (SetElements node element card) n) }
{
    // The greatest size is at most 1000.
    let _ = counted.grammar();
    for components in card.low..most_components(card, n) + 1 {
        if 0 < counted.sets(node, components, n) {
            return true;
        }
    }
    false
}

/// Whether the first component has a structure with `taken` of `n` atoms, where what stands behind it has a list with the
/// others.
fn is_open(counted: &Counted, cut: Cut, n: u32, taken: u32) -> bool
    requires first { IsReachedIn counted.now cut.first }
    requires behind { IsTail counted.now cut.behind }
    requires within { n ≤ counted.now.size }
    requires taken { taken ≤ n }
    ensures { result ≡ is_open counted.now.checked cut n taken }
{
    0 < counted.number(cut.first, taken) && has_lists(counted, cut.behind, n - taken)
}

/// For each number of atoms up to `n` whether the first component has a structure with so many, where what stands behind it
/// has a list with the others.
pub(crate) fn admitted_lengths(
    alloc: Global,
    counted: &Counted,
    cut: Cut,
    n: u32,
) -> Result<Vec<bool>, AllocError>
    requires first { IsReachedIn counted.now cut.first }
    requires behind { IsTail counted.now cut.behind }
    requires within { n ≤ counted.now.size }
    ensures { IfOk result (λ lengths. lengths.items ≡ open_lengths counted.now.checked cut n) }
{
    // The greatest size is at most 1000.
    let _ = counted.grammar();
    let mut lengths = Vec::new(alloc);
    for taken in 0..n + 1 {
        lengths.push(is_open(counted, cut, n, taken))?;
    }
    Ok(lengths)
}

/// A walk over the splits of the supply on which lists have their first component, with a part of an admitted length.
pub(crate) fn first_splits(
    alloc: Global,
    tail: Tail,
    supply: Supply,
    lengths: Vec<bool>,
) -> Result<SplitWalk, AllocError>
    requires in_order { IsTrue (is_in_order supply) }
    requires first { HasFirst tail supply }
    ensures universe { IfOk result (λ walk. walk.universe ≡ supply_universe supply) }
    ensures all { IfOk result (λ walk. walk.left ≡ first_parts tail lengths.items (supply_labels supply)) }
{
    match tail {
        Tail::Components(_, _) | Tail::Elements(_, _, _) => {
            SplitWalk::first(alloc, supply, lengths)
        }
        Tail::SetElements(_, _, _) | Tail::CycleElements(_, _, _) => {
            SplitWalk::first_with_least(alloc, &supply, lengths.as_slice())
        }
    }
}

/// A walk over those of these splits whose part comes after `part`, which is that of one of them.
pub(crate) fn later_splits(
    alloc: Global,
    tail: Tail,
    supply: Supply,
    lengths: Vec<bool>,
    part: &Supply,
) -> Result<SplitWalk, AllocError>
    requires in_order { IsTrue (is_in_order supply) }
    requires first { HasFirst tail supply }
    requires part_in_order { IsTrue (is_in_order part.now) }
    requires part_universe { supply_universe part.now ≡ supply_universe supply }
    requires part { IsPart (supply_labels part.now) (first_parts tail lengths.items (supply_labels supply)) }
    ensures universe { IfOk result (λ walk. walk.universe ≡ supply_universe supply) }
    ensures later { IfOk result (λ walk. walk.left ≡ after (supply_labels part.now) (first_parts tail lengths.items (supply_labels supply))) }
{
    match tail {
        Tail::Components(_, _) | Tail::Elements(_, _, _) => {
            SplitWalk::after(alloc, supply, lengths, part)
        }
        Tail::SetElements(_, _, _) | Tail::CycleElements(_, _, _) => {
            SplitWalk::after_with_least(alloc, &supply, lengths.as_slice(), part)
        }
    }
}
