//! The numbers of containers by the number of their components.
ghost use Rattle.std.specs.Prelude.{◌≡◌, ◌⊎◌, ◌+◌, ◌-◌, ◌≤◌, ◌<◌, ℕ, Option, Some, true, map, length, slice_get, unwrap_or, IfOk};
ghost use Rattle.std.specs.Option.{option_map};
ghost use Rattle.std.specs.List.{range_with_len};
ghost use Rattle.spec_syntax.specs.declared.expr.Card.{Card as AnyCard};
ghost use Rattle.spec_syntax.specs.declared.expr.Kind.{Kind};
ghost use Rattle.spec_syntax.specs.declared.expr.Kind.TheVariants.{Sequence};
ghost use Rattle.spec_syntax.specs.declared.statement.Universe.TheVariants.{Labelled};
ghost use Rattle.spec_syntax.specs.Expression.{Expression, Many};
ghost use Rattle.spec_syntax.specs.Rules.{all_nodes};
ghost use Rattle.spec_syntax.specs.Nodes.{node_at, card_at};
ghost use Rattle.well_founded.specs.NodeKinds.{kind_of, is_container};
ghost use Rattle.well_founded.specs.Checked.{grammar};
ghost use Rattle.graphs.specs.Graph.{IsMarked};
ghost use Rattle.splits.specs.Capped.{Tells};
ghost use Rattle.listing_laws.specs.ContainersRecur.{of_components};
ghost use Rattle.size_counts.specs.Numbers.{most_components};
ghost use Rattle.size_counts.specs.Components.{first_ways, of_none, in_row, rests_of};
ghost use Rattle.size_counts.specs.Told.{IsReady, TellAll};
ghost use Rattle.size_counts.specs.Ways.{universe_of, CanSplit};
ghost use Rattle.size_counts.specs.Sums.{AddsProduct};

use crate::sums::Ways;
use crate::tables::{Tables, cell};
use seq::Seq;
use spec_syntax::Card;
use splits::{plus, times};
use std::alloc::{AllocError, Global};
use well_founded::NodeKind;

/// Up to how many components are looked at in containers with m atoms.
pub(crate) fn most_components(card: Card, m: u32) -> u32
    ensures { result ≡ most_components card m }
{
    match card.high {
        Some(high) => m.min(high),
        None => m,
    }
}

/// In how many ways a first component of d atoms takes its labels of m: in a Sequence any of them, and in other containers the
/// first label and any of the others.
fn first_ways(ways: &Ways, kind: NodeKind, m: u32, d: u32) -> Option<u128>
    requires low { 1 ≤ d }
    requires within { d ≤ m }
    requires up { CanSplit ways.now m }
    ensures { Tells result (first_ways (universe_of ways.now) kind m d) }
{
    match kind {
        NodeKind::Sequence => ways.number(m, d),
        NodeKind::Set | NodeKind::PowerSet | NodeKind::Cycle => ways.number(m - 1, d - 1),
        NodeKind::Epsilon | NodeKind::Atom | NodeKind::Rule | NodeKind::Union | NodeKind::Prod =>
            Some(0),
    }
}

/// The number of containers of no components with m atoms.
fn of_none(kind: NodeKind, m: u32) -> Option<u128>
    ensures { Tells result (of_none kind m) }
{
    match kind {
        NodeKind::Sequence | NodeKind::Set | NodeKind::PowerSet => Some(if m == 0 { 1 } else { 0 }),
        NodeKind::Cycle
        | NodeKind::Epsilon
        | NodeKind::Atom
        | NodeKind::Rule
        | NodeKind::Union
        | NodeKind::Prod => Some(0),
    }
}

/// The number of containers of c components with m atoms, by the count of the element and the numbers of longer ones.
pub(crate) fn of_components(
    kind: NodeKind,
    c: u32,
    m: u32,
    element: Option<u128>,
    longer: &[Option<u128>],
) -> Option<u128>
    requires { 2 ≤ c → c < length longer.now + 2 }
    ensures none { c ≡ 0 → Tells result (of_none kind m) }
    ensures one { c ≡ 1 → result ≡ element }
    ensures more { 2 ≤ c → slice_get longer.now (c - 2) ≡ Some result }
{
    match c {
        0 => of_none(kind, m),
        1 => element,
        _ => longer[c as usize - 2],
    }
}

/// What a row has of containers of c components: so many lists of a Sequence, and otherwise c times as many.
pub(crate) fn in_row(kind: NodeKind, c: u32, containers: Option<u128>) -> Option<u128>
    ensures { (n : ℕ) → Tells containers n → Tells result (in_row kind c n) }
{
    match kind {
        NodeKind::Sequence => containers,
        NodeKind::Set | NodeKind::PowerSet | NodeKind::Cycle => times(Some(c as u128), containers),
        NodeKind::Epsilon | NodeKind::Atom | NodeKind::Rule | NodeKind::Union | NodeKind::Prod =>
            Some(0),
    }
}

/// How many rests of c components stand behind a first one, by what a row has.
fn rests_of(kind: NodeKind, c: usize, number: u128) -> u128
    requires { 1 ≤ c }
    ensures { result ≡ rests_of kind c number }
{
    match kind {
        NodeKind::Sequence | NodeKind::Cycle => number,
        NodeKind::Set | NodeKind::PowerSet => number / c as u128,
        NodeKind::Epsilon | NodeKind::Atom | NodeKind::Rule | NodeKind::Union | NodeKind::Prod => 0,
    }
}

/// Adds to each sum, of containers by their number of components from 2 on, those that have one of so many firsts and a rest of
/// one component less. The row tells of the latter by their number of components.
fn add_longer(sums: &mut [Option<u128>], kind: NodeKind, firsts: Option<u128>, row: &[u128])
    ensures same { length sums.new ≡ length sums.old }
    ensures each { (i : ℕ) (before after : Option ℕ) → slice_get sums.old i ≡ Some before → slice_get sums.new i ≡ Some after → AddsProduct before after firsts (rests_of kind (i + 1) (unwrap_or (slice_get row.now (i + 1)) 0)) }
{
    let some = sums.len().min(row.len().saturating_sub(1));
    for i in 0..some {
        let rests = rests_of(kind, i + 1, row[i + 1]);
        sums[i] = plus(sums[i], times(firsts, Some(rests)));
    }
}

/// Adds to the sums, one for each number of components from 2 on, the containers with m atoms in all, by the size of the first
/// element. A size that no element has is passed over.
fn add_by_first(tables: &Tables, node: u32, m: u32, sums: &mut [Option<u128>])
    requires ready { IsReady tables.now m }
    requires marked { IsMarked tables.now.marks.items node }
    requires container { option_map is_container (option_map kind_of (node_at tables.now.grammar.rules node)) ≡ Some true }
    requires count { (card : AnyCard) → card_at tables.now.grammar.rules node ≡ Some card → length sums.old ≡ most_components card m - 1 }
    requires zeros { (i : ℕ) (sum : Option ℕ) → slice_get sums.old i ≡ Some sum → sum ≡ Some 0 }
    ensures same { length sums.new ≡ length sums.old }
    ensures told { (kind : Kind) (element : Expression) (card : AnyCard) → node_at tables.now.grammar.rules node ≡ Some (Many kind element card) → (kind ≡ Sequence) ⊎ (tables.now.grammar.universe ≡ Labelled) → TellAll sums.new (map (λ c. of_components (grammar tables.now.grammar) kind element c m) (range_with_len 2 (most_components card m - 1))) }
{
    let layers = tables.layers.as_slice();
    let kind = tables.grammar.kind(node);
    let element = tables.grammar.child(node, 1);
    for d in 1..m {
        let elements = cell(&layers[d as usize], element, 0);
        if elements > 0 {
            let firsts = times(first_ways(&tables.ways, kind, m, d), Some(elements));
            let row = layers[(m - d) as usize].at(node as usize);
            add_longer(sums, kind, firsts, row.as_slice());
        }
    }
}

/// The numbers of containers of c elements with m atoms in all, for c from 2 on, by the size of the first element. Of Sets and
/// PowerSets only the labelled ones have a first.
///
/// # Errors
///
/// Memory may be wanting.
pub(crate) fn longer_by_first(
    alloc: Global,
    tables: &Tables,
    node: u32,
    m: u32,
) -> Result<Seq<Option<u128>>, AllocError>
    requires ready { IsReady tables.now m }
    requires marked { IsMarked tables.now.marks.items node }
    requires container { option_map is_container (option_map kind_of (node_at tables.now.grammar.rules node)) ≡ Some true }
    ensures { IfOk result (λ made. (kind : Kind) (element : Expression) (card : AnyCard) → node_at tables.now.grammar.rules node ≡ Some (Many kind element card) → (kind ≡ Sequence) ⊎ (tables.now.grammar.universe ≡ Labelled) → TellAll made (map (λ c. of_components (grammar tables.now.grammar) kind element c m) (range_with_len 2 (most_components card m - 1)))) }
{
    let most = most_components(tables.grammar.card(node), m);
    let mut sums = vec![in alloc; Some(0); most.saturating_sub(1) as usize]?;
    add_by_first(tables, node, m, &mut sums);
    Seq::from_slice(alloc, sums.as_slice())
}
