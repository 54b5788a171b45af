//! The counts of all nodes at a size, by rising rank.
ghost use Rattle.std.specs.Prelude.{◌≡◌, ◌+◌, ◌≤◌, ◌<◌, ℕ, List, Option, Some, length, slice_get, IfOk, OnOk};
ghost use Rattle.std.specs.Option.{option_map};
ghost use Rattle.spec_syntax.specs.Expression.{Expressions, Prod};
ghost use Rattle.spec_syntax.specs.Rules.{all_nodes};
ghost use Rattle.spec_syntax.specs.Nodes.{node_at};
ghost use Rattle.well_founded.specs.declared.node.NodeKind.TheVariants as told;
ghost use Rattle.well_founded.specs.NodeKinds.{kind_of};
ghost use Rattle.graphs.specs.Graph.{IsMarked};
ghost use Rattle.size_counts.specs.Told.{IsReady, TellNow};
ghost use Rattle.size_counts.specs.Suffixes.{AreBegun};
ghost use Rattle.size_counts.specs.Turns.{BesideTold, AreBeside, IsTurn};

use crate::components::longer_by_first;
use crate::counts::count_of;
use crate::multisets::longer_multisets;
use crate::subsets::longer_subsets;
use crate::suffixes::first_suffixes;
use crate::tables::Tables;
use seq::Seq;
use spec_syntax::Universe;
use std::alloc::{AllocError, Global};
use well_founded::NodeKind;

/// The numbers of the node, where it is a container, with two components or more at size m.
fn longer(
    alloc: Global,
    tables: &Tables,
    node: u32,
    m: u32,
) -> Result<Seq<Option<u128>>, AllocError>
    requires ready { IsReady tables.now m }
    requires marked { IsMarked tables.now.marks.items node }
    ensures { IfOk result (λ made. BesideTold tables.now.grammar node m made) }
{
    match tables.grammar.kind(node) {
        NodeKind::Sequence | NodeKind::Cycle => longer_by_first(alloc, tables, node, m),
        NodeKind::Set => match tables.grammar.universe() {
            Universe::Labelled => longer_by_first(alloc, tables, node, m),
            Universe::Unlabelled => longer_multisets(alloc, tables, node, m),
        },
        NodeKind::PowerSet => match tables.grammar.universe() {
            Universe::Labelled => longer_by_first(alloc, tables, node, m),
            Universe::Unlabelled => longer_subsets(alloc, tables, node, m),
        },
        NodeKind::Epsilon | NodeKind::Atom | NodeKind::Rule | NodeKind::Union | NodeKind::Prod =>
            Ok(Seq::new(alloc)),
    }
}

/// What is told beside the count before any count is: of the node, where it is marked and a container, the numbers of those of
/// two components or more at size m.
fn longer_of(
    alloc: Global,
    tables: &Tables,
    node: u32,
    m: u32,
) -> Result<Seq<Option<u128>>, AllocError>
    requires ready { IsReady tables.now m }
    requires within { node < length (all_nodes tables.now.grammar.rules) }
    ensures { IfOk result (λ made. IsMarked tables.now.marks.items node → BesideTold tables.now.grammar node m made) }
{
    if tables.marks[node as usize] {
        return longer(alloc, tables, node, m);
    }
    Ok(Seq::new(alloc))
}

/// The same of each node.
///
/// # Errors
///
/// Memory may be wanting.
pub(crate) fn longer_each(
    alloc: Global,
    tables: &Tables,
    m: u32,
) -> Result<Vec<Seq<Option<u128>>>, AllocError>
    requires { IsReady tables.now m }
    ensures { IfOk result (λ made. AreBeside tables.now m (length (all_nodes tables.now.grammar.rules)) made.items) }
{
    let mut made = Vec::new(alloc);
    for node in 0..tables.grammar.nodes() {
        made.push(longer_of(alloc, tables, node, m)?)?;
    }
    Ok(made)
}

/// Puts in the suffixes that the count of the node needs at size m, where it is a Prod.
fn begin_prod(
    alloc: Global,
    tables: &Tables,
    node: u32,
    m: u32,
    rank: u32,
    now: &[Option<u128>],
    beside: &mut [Seq<Option<u128>>],
) -> Result<(), AllocError>
    requires turn { IsTurn tables.now node m rank now.now }
    requires beside { AreBeside tables.now m (length (all_nodes tables.now.grammar.rules)) beside.old }
    ensures beside { OnOk result (AreBeside tables.now m (length (all_nodes tables.now.grammar.rules)) beside.new) }
    ensures begun { OnOk result ((arguments : Expressions) (firsts : List (Option ℕ)) → node_at tables.now.grammar.rules node ≡ Some (Prod arguments) → slice_get beside.new node ≡ Some firsts → AreBegun arguments firsts) }
{
    if tables.grammar.kind(node) != NodeKind::Prod {
        return Ok(());
    }
    beside[node as usize] = first_suffixes(alloc, tables, node, m, now)?;
    Ok(())
}

/// Puts in the counts of the marked nodes of this rank, and beside them what they need.
fn fill_rank(
    alloc: Global,
    tables: &Tables,
    m: u32,
    rank: u32,
    beside: &mut [Seq<Option<u128>>],
    now: &mut [Option<u128>],
) -> Result<(), AllocError>
    requires ready { IsReady tables.now m }
    requires beside { AreBeside tables.now m (length (all_nodes tables.now.grammar.rules)) beside.old }
    requires lower { TellNow tables.now.grammar tables.now.marks.items m rank now.old }
    ensures beside { OnOk result (AreBeside tables.now m (length (all_nodes tables.now.grammar.rules)) beside.new) }
    ensures now { OnOk result (TellNow tables.now.grammar tables.now.marks.items m (rank + 1) now.new) }
{
    for node in 0..tables.grammar.nodes() {
        if tables.marks[node as usize] && tables.grammar.rank(node) == rank {
            begin_prod(alloc, tables, node, m, rank, now, beside)?;
            let told = beside[node as usize].as_slice();
            now[node as usize] = count_of(tables, node, m, rank, now, told);
        }
    }
    Ok(())
}

/// The counts of all marked nodes at size m, and beside them what they need.
///
/// # Errors
///
/// Memory may be wanting.
pub(crate) fn counts(
    alloc: Global,
    tables: &Tables,
    m: u32,
    beside: &mut [Seq<Option<u128>>],
) -> Result<Vec<Option<u128>>, AllocError>
    requires ready { IsReady tables.now m }
    requires beside { AreBeside tables.now m (length (all_nodes tables.now.grammar.rules)) beside.old }
    ensures beside { OnOk result (AreBeside tables.now m (length (all_nodes tables.now.grammar.rules)) beside.new) }
    ensures now { IfOk result (λ now. TellNow tables.now.grammar tables.now.marks.items m (length (all_nodes tables.now.grammar.rules)) now.items) }
{
    let nodes = tables.grammar.nodes();
    let mut now = vec![in alloc; Some(0); nodes as usize]?;
    for rank in 0..nodes {
        fill_rank(alloc, tables, m, rank, beside, &mut now)?;
    }
    Ok(now)
}
