//! All numbers of the nodes at a size.
ghost use Rattle.std.specs.Prelude.{◌≡◌, ◌+◌, ◌-◌, ◌≤◌, ◌<◌, ◌∷◌, [], ◌++◌, ℕ, List, Some, true, map, length, slice_get, IfOk, OnOk};
ghost use Rattle.std.specs.Option.{option_map};
ghost use Rattle.spec_syntax.specs.Expression.{Expression};
ghost use Rattle.spec_syntax.specs.Rules.{all_nodes};
ghost use Rattle.spec_syntax.specs.Nodes.{node_at};
ghost use Rattle.graphs.specs.Graph.{IsMarked};
ghost use Rattle.well_founded.specs.declared.node.NodeKind.TheVariants as told;
ghost use Rattle.well_founded.specs.NodeKinds.{kind_of, is_container};
ghost use Rattle.well_founded.specs.Checked.{grammar};
ghost use Rattle.size_counts.specs.Numbers.{others_at, numbers_at};
ghost use Rattle.size_counts.specs.Told.{values, IsReady, TellAll, TellNow};
ghost use Rattle.size_counts.specs.Turns.{LongerTold, BesideTold, AreBeside, AreRows};

use crate::components::{in_row, most_components, of_components};
use crate::suffixes::suffixes;
use crate::tables::Tables;
use seq::Seq;
use std::alloc::{AllocError, Global};
use well_founded::NodeKind;

/// The suffixes of the Prod from the second on, by the first ones, which are told.
fn later_suffixes(
    alloc: Global,
    tables: &Tables,
    node: u32,
    m: u32,
    now: &[Option<u128>],
    firsts: &[Option<u128>],
) -> Result<Seq<Option<u128>>, AllocError>
    requires ready { IsReady tables.now m }
    requires marked { IsMarked tables.now.marks.items node }
    requires prod { option_map kind_of (node_at tables.now.grammar.rules node) ≡ Some told.Prod }
    requires now { TellNow tables.now.grammar tables.now.marks.items m (length (all_nodes tables.now.grammar.rules)) now.now }
    requires firsts { BesideTold tables.now.grammar node m firsts.now }
    ensures { IfOk result (λ made. (e : Expression) → node_at tables.now.grammar.rules node ≡ Some e → TellAll made (values (others_at (grammar tables.now.grammar) e m))) }
{
    let arguments = tables.grammar.children(node);
    let mut reversed = suffixes(alloc, tables, node, m, now, firsts.len() as u32, arguments)?;
    reversed.extend_from_slice(firsts)?;
    let mut made = Seq::new(alloc);
    for earlier in 0..reversed.len().saturating_sub(1) {
        made.push(*reversed.at(reversed.len() - 2 - earlier))?;
    }
    Ok(made)
}

/// The numbers of the container by the number of components.
fn all_components(
    alloc: Global,
    tables: &Tables,
    node: u32,
    m: u32,
    now: &[Option<u128>],
    longer: &[Option<u128>],
) -> Result<Seq<Option<u128>>, AllocError>
    requires ready { IsReady tables.now m }
    requires marked { IsMarked tables.now.marks.items node }
    requires container { option_map is_container (option_map kind_of (node_at tables.now.grammar.rules node)) ≡ Some true }
    requires now { TellNow tables.now.grammar tables.now.marks.items m (length (all_nodes tables.now.grammar.rules)) now.now }
    requires longer { LongerTold tables.now.grammar node m longer.now }
    ensures { IfOk result (λ made. (e : Expression) → node_at tables.now.grammar.rules node ≡ Some e → TellAll made (values (others_at (grammar tables.now.grammar) e m))) }
{
    let kind = tables.grammar.kind(node);
    let element = now[tables.grammar.child(node, 1) as usize];
    let mut made = Seq::new(alloc);
    for earlier in 0..most_components(tables.grammar.card(node), m) {
        let c = earlier + 1;
        made.push(in_row(kind, c, of_components(kind, c, m, element, longer)))?;
    }
    Ok(made)
}

/// The numbers of the node beside its count.
fn others(
    alloc: Global,
    tables: &Tables,
    node: u32,
    m: u32,
    now: &[Option<u128>],
    beside: &[Option<u128>],
) -> Result<Seq<Option<u128>>, AllocError>
    requires ready { IsReady tables.now m }
    requires marked { IsMarked tables.now.marks.items node }
    requires now { TellNow tables.now.grammar tables.now.marks.items m (length (all_nodes tables.now.grammar.rules)) now.now }
    requires beside { BesideTold tables.now.grammar node m beside.now }
    ensures { IfOk result (λ made. (e : Expression) → node_at tables.now.grammar.rules node ≡ Some e → TellAll made (values (others_at (grammar tables.now.grammar) e m))) }
{
    match tables.grammar.kind(node) {
        NodeKind::Prod => later_suffixes(alloc, tables, node, m, now, beside),
        NodeKind::Sequence | NodeKind::Set | NodeKind::PowerSet | NodeKind::Cycle => {
            all_components(alloc, tables, node, m, now, beside)
        }
        NodeKind::Epsilon | NodeKind::Atom | NodeKind::Rule | NodeKind::Union => {
            Ok(Seq::new(alloc))
        }
    }
}

/// The numbers of the node, where it is marked: its count, and then the others.
fn row(
    alloc: Global,
    tables: &Tables,
    node: u32,
    m: u32,
    now: &[Option<u128>],
    beside: &[Option<u128>],
) -> Result<Seq<Option<u128>>, AllocError>
    requires ready { IsReady tables.now m }
    requires within { node < length (all_nodes tables.now.grammar.rules) }
    requires now { TellNow tables.now.grammar tables.now.marks.items m (length (all_nodes tables.now.grammar.rules)) now.now }
    requires beside { IsMarked tables.now.marks.items node → BesideTold tables.now.grammar node m beside.now }
    ensures told { IfOk result (λ made. (e : Expression) → IsMarked tables.now.marks.items node → node_at tables.now.grammar.rules node ≡ Some e → TellAll made (values (numbers_at (grammar tables.now.grammar) e m))) }
    ensures empty { IfOk result (λ made. (IsMarked tables.now.marks.items node → ⊥) → made ≡ []) }
{
    let mut made = Seq::new(alloc);
    if tables.marks[node as usize] {
        made.push(now[node as usize])?;
        let others = others(alloc, tables, node, m, now, beside)?;
        made.extend_from_slice(others.as_slice())?;
    }
    Ok(made)
}

/// The numbers of each node at size m.
///
/// # Errors
///
/// Memory may be wanting.
pub(crate) fn rows(
    alloc: Global,
    tables: &Tables,
    m: u32,
    now: &[Option<u128>],
    beside: &[Seq<Option<u128>>],
) -> Result<Vec<Seq<Option<u128>>>, AllocError>
    requires ready { IsReady tables.now m }
    requires now { TellNow tables.now.grammar tables.now.marks.items m (length (all_nodes tables.now.grammar.rules)) now.now }
    requires beside { AreBeside tables.now m (length (all_nodes tables.now.grammar.rules)) beside.now }
    ensures { IfOk result (λ made. AreRows tables.now m (length (all_nodes tables.now.grammar.rules)) made.items) }
{
    let mut made = Vec::new(alloc);
    for node in 0..tables.grammar.nodes() {
        let told = beside[node as usize].as_slice();
        made.push(row(alloc, tables, node, m, now, told)?)?;
    }
    Ok(made)
}
