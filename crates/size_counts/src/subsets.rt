//! The numbers of PowerSets without labels.
ghost use Rattle.std.specs.Prelude.{◌≡◌, ◌+◌, ◌-◌, ◌*◌, ◌≤◌, ◌<◌, ℕ, Some, length, map, IfOk};
ghost use Rattle.std.specs.Option.{option_map};
ghost use Rattle.std.specs.List.{range_with_len};
ghost use Rattle.spec_syntax.specs.declared.expr.Card.{Card as AnyCard};
ghost use Rattle.spec_syntax.specs.declared.expr.Kind.TheVariants.{PowerSet};
ghost use Rattle.spec_syntax.specs.declared.statement.Universe.TheVariants.{Unlabelled};
ghost use Rattle.spec_syntax.specs.Expression.{Expression, Many};
ghost use Rattle.spec_syntax.specs.Nodes.{node_at};
ghost use Rattle.well_founded.specs.declared.node.NodeKind.TheVariants as told;
ghost use Rattle.well_founded.specs.NodeKinds.{kind_of};
ghost use Rattle.well_founded.specs.Checked.{grammar};
ghost use Rattle.graphs.specs.Graph.{IsMarked};
ghost use Rattle.splits.specs.Capped.{Tells};
ghost use Rattle.count_laws.specs.SetNumbers.{number_avoiding};
ghost use Rattle.listing_laws.specs.ContainersRecur.{of_components};
ghost use Rattle.size_counts.specs.Numbers.{most_components};
ghost use Rattle.size_counts.specs.Repeats.{HaveNode, fewer, subsets_met};
ghost use Rattle.size_counts.specs.Shared.{StandsFor};
ghost use Rattle.size_counts.specs.Told.{IsReady, TellAll};

use crate::components::most_components;
use crate::multisets::{by_sizes, fewer};
use crate::shared::Shared;
use crate::tables::{Tables, cell};
use seq::Seq;
use splits::{plus, times};
use std::alloc::{AllocError, Global};

/// How many sets of c elements with m atoms avoid one element of size d: all but the element with a set of one element less that
/// avoids it. Where there is an element of that size, these are no more than all.
fn avoiding(numbers: &[Seq<u128>], d: u32, c: u32, m: u32) -> u128
    requires low { 1 ≤ d }
    requires size { m < length numbers.now }
    ensures { result ≡ number_avoiding (fewer numbers.now) d c m }
{
    let steps = c.min(m / d);
    let mut number = fewer(numbers, c - steps, m - steps * d);
    for step in 0..steps {
        let left = steps - 1 - step;
        number = fewer(numbers, c - left, m - left * d).saturating_sub(number);
    }
    number
}

/// How many sets of c elements with m atoms there are, each counted once for each of its elements.
fn met(
    layers: &[Seq<Seq<u128>>],
    numbers: &[Seq<u128>],
    element: u32,
    c: u32,
    m: u32,
) -> Option<u128>
    requires low { 2 ≤ c }
    requires high { c ≤ m }
    requires small { m ≤ 1000 }
    requires sizes { m ≤ length layers.now }
    requires numbers { m ≤ length numbers.now }
    requires element { HaveNode layers.now element }
    ensures { Tells result (subsets_met layers.now numbers.now element c m) }
{
    let mut sum = Some(0);
    for d in 1..m - c + 2 {
        let elements = cell(&layers[d as usize], element, 0);
        if elements > 0 {
            let others = avoiding(numbers, d, c - 1, m - d);
            sum = plus(sum, times(Some(elements), Some(others)));
        }
    }
    sum
}

/// The number of sets of c elements with m atoms, also where c times as many are 2^128 or more.
fn shared(
    layers: &[Seq<Seq<u128>>],
    numbers: &[Seq<u128>],
    element: u32,
    c: u32,
    m: u32,
) -> Option<u128>
    requires low { 2 ≤ c }
    requires high { c ≤ m }
    requires small { m ≤ 1000 }
    requires sizes { m ≤ length layers.now }
    requires numbers { m ≤ length numbers.now }
    requires element { HaveNode layers.now element }
    ensures { (n : ℕ) → c * n ≡ subsets_met layers.now numbers.now element c m → Tells result n }
{
    let mut sum = Shared::new(c);
    for d in 1..m - c + 2 {
        let elements = cell(&layers[d as usize], element, 0);
        if elements > 0 {
            sum.add(elements, avoiding(numbers, d, c - 1, m - d));
        }
    }
    sum.each()
}

/// The number of sets of c elements with m atoms.
fn subsets(
    layers: &[Seq<Seq<u128>>],
    numbers: &[Seq<u128>],
    element: u32,
    c: u32,
    m: u32,
) -> Option<u128>
    requires low { 2 ≤ c }
    requires high { c ≤ m }
    requires small { m ≤ 1000 }
    requires sizes { m ≤ length layers.now }
    requires numbers { m ≤ length numbers.now }
    requires element { HaveNode layers.now element }
    ensures { (n : ℕ) → c * n ≡ subsets_met layers.now numbers.now element c m → Tells result n }
{
    match met(layers, numbers, element, c, m) {
        Some(all) => Some(all / c as u128),
        None => shared(layers, numbers, element, c, m),
    }
}

/// The numbers of PowerSets of c elements with m atoms in all, for c from 2 on.
///
/// # Errors
///
/// Memory may be wanting.
pub(crate) fn longer_subsets(
    alloc: Global,
    tables: &Tables,
    node: u32,
    m: u32,
) -> Result<Seq<Option<u128>>, AllocError>
    requires ready { IsReady tables.now m }
    requires marked { IsMarked tables.now.marks.items node }
    requires kind { option_map kind_of (node_at tables.now.grammar.rules node) ≡ Some told.PowerSet }
    requires unlabelled { tables.now.grammar.universe ≡ Unlabelled }
    ensures { IfOk result (λ made. (element : Expression) (card : AnyCard) → node_at tables.now.grammar.rules node ≡ Some (Many PowerSet element card) → TellAll made (map (λ c. of_components (grammar tables.now.grammar) PowerSet element c m) (range_with_len 2 (most_components card m - 1)))) }
{
    let layers = tables.layers.as_slice();
    let element = tables.grammar.child(node, 1);
    let most = most_components(tables.grammar.card(node), m);
    let numbers = by_sizes(alloc, layers, node)?;
    let mut made = Seq::new(alloc);
    for earlier in 0..most.saturating_sub(1) {
        made.push(subsets(layers, numbers.as_slice(), element, earlier + 2, m))?;
    }
    Ok(made)
}
