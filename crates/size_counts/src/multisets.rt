//! The numbers of Sets without labels.
ghost use Rattle.std.specs.Prelude.{◌≡◌, ◌+◌, ◌-◌, ◌*◌, ◌≤◌, ◌<◌, ℕ, Some, length, map, IfOk};
ghost use Rattle.std.specs.Option.{option_map};
ghost use Rattle.std.specs.List.{range_with_len};
ghost use Rattle.spec_syntax.specs.declared.expr.Card.{Card as AnyCard};
ghost use Rattle.spec_syntax.specs.declared.expr.Kind.TheVariants.{Set};
ghost use Rattle.spec_syntax.specs.declared.statement.Universe.TheVariants.{Unlabelled};
ghost use Rattle.spec_syntax.specs.Expression.{Expression, Many};
ghost use Rattle.spec_syntax.specs.Nodes.{node_at};
ghost use Rattle.well_founded.specs.declared.node.NodeKind.TheVariants as told;
ghost use Rattle.well_founded.specs.NodeKinds.{kind_of};
ghost use Rattle.well_founded.specs.Checked.{grammar};
ghost use Rattle.graphs.specs.Graph.{IsMarked};
ghost use Rattle.splits.specs.Capped.{Tells};
ghost use Rattle.count_laws.specs.SetNumbers.{number_pointed};
ghost use Rattle.listing_laws.specs.ContainersRecur.{of_components};
ghost use Rattle.size_counts.specs.Numbers.{most_components};
ghost use Rattle.size_counts.specs.Repeats.{HaveNode, by_components, by_sizes, fewer, multisets_met};
ghost use Rattle.size_counts.specs.Shared.{StandsFor};
ghost use Rattle.size_counts.specs.Told.{IsReady, TellAll};

use crate::components::most_components;
use crate::shared::Shared;
use crate::tables::{Tables, cell};
use seq::Seq;
use splits::{plus, times};
use std::alloc::{AllocError, Global};

/// The numbers of containers with m atoms by the number of components, from 0 on. The row has c times as many of c components.
fn by_components(alloc: Global, row: &Seq<u128>, m: usize) -> Result<Seq<u128>, AllocError>
    ensures { IfOk result (λ made. made ≡ by_components row.now m) }
{
    let mut made = Seq::new(alloc);
    made.push((m == 0) as u128)?;
    for earlier in 0..row.len().saturating_sub(1) {
        let c = earlier + 1;
        made.push(*row.at(c) / c as u128)?;
    }
    Ok(made)
}

/// The same of the node's row in each layer, by size.
///
/// # Errors
///
/// Memory may be wanting.
pub(crate) fn by_sizes(
    alloc: Global,
    layers: &[Seq<Seq<u128>>],
    node: u32,
) -> Result<Vec<Seq<u128>>, AllocError>
    requires { HaveNode layers.now node }
    ensures { IfOk result (λ made. made.items ≡ by_sizes layers.now node) }
{
    let mut made = Vec::new(alloc);
    for m in 0..layers.len() {
        made.push(by_components(alloc, layers[m].at(node as usize), m)?)?;
    }
    Ok(made)
}

/// The number of containers of c components with m atoms.
pub(crate) fn fewer(numbers: &[Seq<u128>], c: u32, m: u32) -> u128
    requires { m < length numbers.now }
    ensures { result ≡ fewer numbers.now c m }
{
    let by_components = &numbers[m as usize];
    if (c as usize) < by_components.len() {
        *by_components.at(c as usize)
    } else {
        0
    }
}

/// How many of c components with m atoms may have size d, where each of the others has an atom or more.
fn most_copies(d: u32, c: u32, m: u32) -> u32
    requires low { 1 ≤ d }
    requires high { c ≤ m }
    ensures few { result ≤ c }
    ensures room { (times : ℕ) → times ≤ result → times * d + (c - times) ≤ m }
    ensures most { (times : ℕ) → result < times → times ≤ c → m < times * d + (c - times) }
{
    if d == 1 {
        return c;
    }
    c.min((m - c) / (d - 1))
}

/// How many multisets of c elements with m atoms there are that have an element of size d, which is put in last, from once to c
/// times.
fn pointed(numbers: &[Seq<u128>], d: u32, c: u32, m: u32) -> Option<u128>
    requires low { 1 ≤ d }
    requires high { c ≤ m }
    requires sizes { m ≤ length numbers.now }
    requires none { (i k : ℕ) → i < c → k < i → fewer numbers.now i k ≡ 0 }
    ensures { Tells result (number_pointed (fewer numbers.now) d c m) }
{
    let mut sum = Some(0);
    for earlier in 0..most_copies(d, c, m) {
        let times = earlier + 1;
        sum = plus(sum, Some(fewer(numbers, c - times, m - times * d)));
    }
    sum
}

/// How many multisets of c elements with m atoms there are, each counted once for each of its elements.
fn met(
    layers: &[Seq<Seq<u128>>],
    numbers: &[Seq<u128>],
    element: u32,
    c: u32,
    m: u32,
) -> Option<u128>
    requires low { 2 ≤ c }
    requires high { c ≤ m }
    requires small { m ≤ 1000 }
    requires sizes { m ≤ length layers.now }
    requires numbers { m ≤ length numbers.now }
    requires none { (i k : ℕ) → i < c → k < i → fewer numbers.now i k ≡ 0 }
    requires element { HaveNode layers.now element }
    ensures { Tells result (multisets_met layers.now numbers.now element c m) }
{
    let mut sum = Some(0);
    for d in 1..m - c + 2 {
        let elements = cell(&layers[d as usize], element, 0);
        if elements > 0 {
            let with_one = times(Some(elements), pointed(numbers, d, c, m));
            sum = plus(sum, with_one);
        }
    }
    sum
}

/// Adds the multisets of c elements with m atoms to the sum that have one of so many elements of size d, which is put in last, from
/// once to c times.
fn add_pointed(sum: &mut Shared, numbers: &[Seq<u128>], elements: u128, d: u32, c: u32, m: u32)
    requires few { sum.old.parts ≤ 1000 }
    requires left { sum.old.rest < sum.old.parts }
    requires low { 1 ≤ d }
    requires high { c ≤ m }
    requires sizes { m ≤ length numbers.now }
    requires none { (i k : ℕ) → i < c → k < i → fewer numbers.now i k ≡ 0 }
    ensures parts { sum.new.parts ≡ sum.old.parts }
    ensures left { sum.new.rest < sum.new.parts }
    ensures sum { (n : ℕ) → StandsFor sum.old n → StandsFor sum.new (n + elements * number_pointed (fewer numbers.now) d c m) }
{
    for earlier in 0..most_copies(d, c, m) {
        let times = earlier + 1;
        sum.add(elements, fewer(numbers, c - times, m - times * d));
    }
}

/// The number of multisets of c elements with m atoms, also where c times as many are 2^128 or more.
fn shared(
    layers: &[Seq<Seq<u128>>],
    numbers: &[Seq<u128>],
    element: u32,
    c: u32,
    m: u32,
) -> Option<u128>
    requires low { 2 ≤ c }
    requires high { c ≤ m }
    requires small { m ≤ 1000 }
    requires sizes { m ≤ length layers.now }
    requires numbers { m ≤ length numbers.now }
    requires none { (i k : ℕ) → i < c → k < i → fewer numbers.now i k ≡ 0 }
    requires element { HaveNode layers.now element }
    ensures { (n : ℕ) → c * n ≡ multisets_met layers.now numbers.now element c m → Tells result n }
{
    let mut sum = Shared::new(c);
    for d in 1..m - c + 2 {
        let elements = cell(&layers[d as usize], element, 0);
        if elements > 0 {
            add_pointed(&mut sum, numbers, elements, d, c, m);
        }
    }
    sum.each()
}

/// The number of multisets of c elements with m atoms.
fn multisets(
    layers: &[Seq<Seq<u128>>],
    numbers: &[Seq<u128>],
    element: u32,
    c: u32,
    m: u32,
) -> Option<u128>
    requires low { 2 ≤ c }
    requires high { c ≤ m }
    requires small { m ≤ 1000 }
    requires sizes { m ≤ length layers.now }
    requires numbers { m ≤ length numbers.now }
    requires none { (i k : ℕ) → i < c → k < i → fewer numbers.now i k ≡ 0 }
    requires element { HaveNode layers.now element }
    ensures { (n : ℕ) → c * n ≡ multisets_met layers.now numbers.now element c m → Tells result n }
{
    match met(layers, numbers, element, c, m) {
        Some(all) => Some(all / c as u128),
        None => shared(layers, numbers, element, c, m),
    }
}

/// The numbers of Sets of c elements with m atoms in all, for c from 2 on.
///
/// # Errors
///
/// Memory may be wanting.
pub(crate) fn longer_multisets(
    alloc: Global,
    tables: &Tables,
    node: u32,
    m: u32,
) -> Result<Seq<Option<u128>>, AllocError>
    requires ready { IsReady tables.now m }
    requires marked { IsMarked tables.now.marks.items node }
    requires kind { option_map kind_of (node_at tables.now.grammar.rules node) ≡ Some told.Set }
    requires unlabelled { tables.now.grammar.universe ≡ Unlabelled }
    ensures { IfOk result (λ made. (element : Expression) (card : AnyCard) → node_at tables.now.grammar.rules node ≡ Some (Many Set element card) → TellAll made (map (λ c. of_components (grammar tables.now.grammar) Set element c m) (range_with_len 2 (most_components card m - 1)))) }
{
    let layers = tables.layers.as_slice();
    let element = tables.grammar.child(node, 1);
    let most = most_components(tables.grammar.card(node), m);
    let numbers = by_sizes(alloc, layers, node)?;
    let mut made = Seq::new(alloc);
    for earlier in 0..most.saturating_sub(1) {
        made.push(multisets(layers, numbers.as_slice(), element, earlier + 2, m))?;
    }
    Ok(made)
}
