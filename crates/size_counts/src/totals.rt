//! What the components of Sets and PowerSets without labels have in all.
ghost use Rattle.std.specs.Prelude.{◌≡◌, ◌⊎◌, ◌+◌, ◌-◌, ◌*◌, ◌^◌, ◌≤◌, ◌<◌, ℕ, List, Bool, true, false, Some, map, length, slice_get, unwrap_or, IfOk, IsTrue, min};
ghost use Rattle.std.specs.Option.{option_map};
ghost use Rattle.spec_syntax.specs.Card.{admits};
ghost use Rattle.spec_syntax.specs.Rules.{all_nodes};
ghost use Rattle.spec_syntax.specs.Nodes.{node_at, children_at, card_at};
ghost use Rattle.graphs.specs.Graph.{IsMarked};
ghost use Rattle.well_founded.specs.declared.node.NodeKind.TheVariants as told;
ghost use Rattle.well_founded.specs.NodeKinds.{kind_of, is_container};
ghost use Rattle.size_counts.specs.Repeats.{HaveNode};
ghost use Rattle.size_counts.specs.Tables.{cell};
ghost use Rattle.size_counts.specs.Told.{AreTold};
ghost use Rattle.size_counts.specs.Totals.{limit_of, limits_of, WithinLimit, CanBegin, IsGreatestLeast, AreTotals, IsRow, HasTotals, NodeTotals, AreKept, IsFilled};

use crate::components::most_components;
use crate::tables::{Tables, cell};
use seq::Seq;
use spec_syntax::{Card, Universe};
use std::alloc::{AllocError, Global};
use well_founded::NodeKind;

/// How many components of a size may stand in a container, of at most 1000, where its element has so many structures of the
/// size.
fn limit(number: u128, strict: bool) -> u32
    ensures { result ≡ limit_of strict number }
{
    if strict {
        return number.min(1000) as u32;
    }
    if number == 0 { 0 } else { 1000 }
}

/// The same of each size.
fn limits(
    alloc: Global,
    layers: &[Seq<Seq<u128>>],
    element: u32,
    strict: bool,
) -> Result<Vec<u32>, AllocError>
    requires { HaveNode layers.now element }
    ensures { IfOk result (λ made. made.items ≡ limits_of layers.now element strict) }
{
    let mut made = Vec::new(alloc);
    for layer in layers {
        made.push(limit(cell(layer, element, 0), strict))?;
    }
    Ok(made)
}

/// The greatest least size of c components with n atoms in all, or 0 where there are none.
fn greatest_least(rows: &[Seq<u32>], c: u32, n: u32) -> u32
    requires { n < length rows.now }
    ensures { result ≡ cell rows.now n c }
{
    let row = &rows[n as usize];
    if (c as usize) < row.len() {
        *row.at(c as usize)
    } else {
        0
    }
}

/// Whether c components with n atoms in all can begin with some of size d, at most so many, before others of greater sizes.
fn can_begin(rows: &[Seq<u32>], limit: u32, d: u32, c: u32, n: u32) -> bool
    requires low { 1 ≤ d }
    requires within { d * c ≤ n }
    requires small { n ≤ 1000 }
    requires rows { length rows.now ≡ n }
    ensures some { IsTrue result → CanBegin rows.now limit d c n }
    ensures none { result ≡ false → CanBegin rows.now limit d c n → ⊥ }
{
    for earlier in 0..limit.min(c) {
        let times = earlier + 1;
        if greatest_least(rows, c - times, n - times * d) > d {
            return true;
        }
    }
    false
}

/// The greatest least size of c components with n atoms in all, by those with fewer atoms.
fn greatest(rows: &[Seq<u32>], limits: &[u32], most: u32, c: u32, n: u32) -> u32
    requires low { 1 ≤ c }
    requires high { c ≤ most }
    requires small { n ≤ 1000 }
    requires rows { length rows.now ≡ n }
    requires limits { n < length limits.now }
    requires totals { AreTotals limits.now most rows.now }
    ensures { IsGreatestLeast (WithinLimit limits.now) c n result }
{
    for smaller in 0..n / c {
        let d = n / c - smaller;
        if can_begin(rows, limits[d as usize], d, c, n) {
            return d;
        }
    }
    0
}

/// The greatest least size of no components with n atoms: each, where there are no atoms.
fn of_none(n: u32) -> u32
    ensures none { n ≡ 0 → result ≡ 2 ^ 32 - 1 }
    ensures some { 0 < n → result ≡ 0 }
{
    if n == 0 { u32::MAX } else { 0 }
}

/// The greatest least sizes of components with n atoms in all, by their number from 0 on, which is at most n and at most `most`.
fn row(
    alloc: Global,
    rows: &[Seq<u32>],
    limits: &[u32],
    most: u32,
    n: u32,
) -> Result<Seq<u32>, AllocError>
    requires small { n ≤ 1000 }
    requires rows { length rows.now ≡ n }
    requires limits { n < length limits.now }
    requires totals { AreTotals limits.now most rows.now }
    ensures { IfOk result (λ made. IsRow limits.now most n made) }
{
    let mut made = Seq::new(alloc);
    made.push(of_none(n))?;
    for earlier in 0..n.min(most) {
        made.push(greatest(rows, limits, most, earlier + 1, n))?;
    }
    Ok(made)
}

/// The same for each number of atoms from 0 on.
fn rows(alloc: Global, limits: &[u32], most: u32) -> Result<Seq<Seq<u32>>, AllocError>
    requires { length limits.now ≤ 1001 }
    ensures for_each { IfOk result (λ made. length made ≡ length limits.now) }
    ensures totals { IfOk result (λ made. AreTotals limits.now most made) }
{
    let mut made = Seq::new(alloc);
    for n in 0..limits.len() {
        let row = row(alloc, made.as_slice(), limits, most, n as u32)?;
        made.push(row)?;
    }
    Ok(made)
}

/// The rows of a Set, or of a PowerSet, which has no component twice.
fn of_sets(
    alloc: Global,
    tables: &Tables,
    node: u32,
    strict: bool,
) -> Result<Seq<Seq<u32>>, AllocError>
    requires told { AreTold tables.now.grammar tables.now.marks.items tables.now.layers.items }
    requires small { length tables.now.layers.items ≤ 1001 }
    requires marked { IsMarked tables.now.marks.items node }
    requires container { option_map is_container (option_map kind_of (node_at tables.now.grammar.rules node)) ≡ Some true }
    ensures { IfOk result (λ made. HasTotals tables.now strict node made) }
{
    let element = tables.grammar.child(node, 1);
    let most = most_components(tables.grammar.card(node), 1000);
    let limits = limits(alloc, tables.layers.as_slice(), element, strict)?;
    rows(alloc, limits.as_slice(), most)
}

/// The rows of the node, where it is marked and is a Set or a PowerSet without labels.
fn of_node(alloc: Global, tables: &Tables, node: u32) -> Result<Seq<Seq<u32>>, AllocError>
    requires told { AreTold tables.now.grammar tables.now.marks.items tables.now.layers.items }
    requires small { length tables.now.layers.items ≤ 1001 }
    requires within { node < length (all_nodes tables.now.grammar.rules) }
    ensures { IfOk result (λ made. NodeTotals tables.now node made) }
{
    if tables.grammar.universe() == Universe::Labelled || !tables.marks[node as usize] {
        return Ok(Seq::new(alloc));
    }
    match tables.grammar.kind(node) {
        NodeKind::Set => of_sets(alloc, tables, node, false),
        NodeKind::PowerSet => of_sets(alloc, tables, node, true),
        NodeKind::Epsilon
        | NodeKind::Atom
        | NodeKind::Rule
        | NodeKind::Union
        | NodeKind::Prod
        | NodeKind::Sequence
        | NodeKind::Cycle => Ok(Seq::new(alloc)),
    }
}

/// For each node the greatest least sizes of its components: by the number of atoms, and by that of components.
///
/// # Errors
///
/// Memory may be wanting.
pub(crate) fn totals(alloc: Global, tables: &Tables) -> Result<Vec<Seq<Seq<u32>>>, AllocError>
    requires told { AreTold tables.now.grammar tables.now.marks.items tables.now.layers.items }
    requires small { length tables.now.layers.items ≤ 1001 }
    ensures { IfOk result (λ made. AreKept tables.now (length (all_nodes tables.now.grammar.rules)) made.items) }
{
    let mut made = Vec::new(alloc);
    for node in 0..tables.grammar.nodes() {
        made.push(of_node(alloc, tables, node)?)?;
    }
    Ok(made)
}

/// Whether as many components as the bound admits, each of at least `least` atoms, have n atoms in all.
pub(crate) fn is_filled(rows: &[Seq<u32>], card: Card, least: u32, n: u32) -> bool
    requires small { n ≤ 1000 }
    requires rows { n < length rows.now }
    ensures some { IsTrue result → IsFilled rows.now card least n }
    ensures none { result ≡ false → IsFilled rows.now card least n → ⊥ }
{
    for c in 0..n + 1 {
        if card.admits(c) && greatest_least(rows, c, n) >= least {
            return true;
        }
    }
    false
}
