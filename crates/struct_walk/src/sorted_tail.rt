//! What stands in a sorted list of components of a Set or a PowerSet without labels.
ghost use Rattle.std.specs.Prelude.{◌≡◌, ◌⊎◌, ◌≤◌, [], Some, true, false};
ghost use Rattle.spec_syntax.specs.Card.{admits};
ghost use Rattle.spec_syntax.specs.Nodes.{card_at};
ghost use Rattle.spec_syntax.specs.declared.statement.Universe.TheVariants.{Unlabelled};
ghost use Rattle.struct_model.specs.Structure.{Structure, size as atom_count};
ghost use Rattle.well_founded.specs.declared.node.NodeKind.TheVariants as told;
ghost use Rattle.listing_laws.specs.Lister.{after_one as bound_after_one, admits_some};
ghost use Rattle.listing_laws.specs.NodeListing.{HasKind};
ghost use Rattle.size_counts.specs.CountedView.{IsReachedIn};
ghost use Rattle.struct_walk.specs.SortedTails.{IsSortedTail, sorted_kind, sorted_form, behind_one as tail_behind, sorted_from, size_in_front};

use crate::tail::after_one;
use size_counts::Counted;
use spec_syntax::Card;
use struct_model::{Form5, Structs, size};
use well_founded::NodeKind;

/// The sorted components of the Set or the PowerSet that is this node, from one of them on.
#[derive(Clone, Copy)]
pub struct SortedTail {
    pub(crate) node: u32,
    /// The node of the components.
    pub(crate) element: u32,
    /// Whether no component stands twice, as in a PowerSet.
    pub(crate) strict: bool,
    /// The bound on their number.
    pub(crate) card: Card,
}

/// Where a sorted component stands: what stands behind it, its size, and the number of atoms of the components behind it.
#[derive(Clone, Copy)]
pub struct SortedLevel {
    pub(crate) behind: SortedTail,
    pub(crate) taken: u32,
    pub(crate) left: u32,
}

/// The components of the Set or the PowerSet that is this node.
pub(crate) fn sorted_tail(counted: &Counted, node: u32) -> SortedTail
    requires reached { IsReachedIn counted.now node }
    requires kind { (HasKind counted.now.checked node told.Set) ⊎ (HasKind counted.now.checked node told.PowerSet) }
    requires unlabelled { counted.now.checked.universe ≡ Unlabelled }
    ensures tail { IsSortedTail counted.now result }
    ensures node { result.node ≡ node }
    ensures card { card_at counted.now.checked.rules node ≡ Some result.card }
{
    let grammar = counted.grammar();
    SortedTail {
        node,
        element: grammar.child(node, 1),
        strict: is_strict(counted, node),
        card: grammar.card(node),
    }
}

/// Whether the node is a PowerSet, where it is one or a Set.
fn is_strict(counted: &Counted, node: u32) -> bool
    requires reached { IsReachedIn counted.now node }
    requires kind { (HasKind counted.now.checked node told.Set) ⊎ (HasKind counted.now.checked node told.PowerSet) }
    ensures { HasKind counted.now.checked node (sorted_kind result) }
{
    let grammar = counted.grammar();
    matches!(grammar.kind(node), NodeKind::PowerSet)
}

/// What is made of sorted components.
pub(crate) fn sorted_form(strict: bool) -> Form5
    ensures { result ≡ sorted_form strict }
{
    if strict { Form5::PowerSet } else { Form5::Set }
}

/// What stands behind the first of the components.
pub(crate) fn behind_one(tail: SortedTail) -> SortedTail
    ensures { result ≡ tail_behind tail }
{
    SortedTail {
        card: after_one(tail.card),
        ..tail
    }
}

/// Whether the bound admits a component.
pub(crate) fn admits_some(card: Card) -> bool
    ensures { result ≡ admits_some card }
{
    match card.high {
        None => true,
        Some(high) => 1 <= high,
    }
}

/// The number of atoms of the last component, or 0 where there is none.
pub(crate) fn size_in_front(components: &Structs) -> u32
    ensures { result ≡ size_in_front components.now }
{
    match components.as_slice().last() {
        None => 0,
        Some(front) => size(front),
    }
}

/// Whether sorted lists with `n` atoms may go on from a component that has `least` atoms or more. Where this is not told,
/// none does.
pub(crate) fn may_go_on(counted: &Counted, behind: SortedTail, least: u32, n: u32) -> bool
    requires behind { IsSortedTail counted.now behind }
    requires within { n ≤ counted.now.size }
    ensures none { (s : Structure) → result ≡ false → least ≤ atom_count s → sorted_from counted.now.checked behind (Some s) n ≡ [] }
    ensures no_atoms { result ≡ true → n ≡ 0 → admits behind.card 0 ≡ true }
{
    counted.may_fill(behind.node, behind.card, least, n)
}
