//! Which nodes of a grammar are reached from a rule.
ghost use Rattle.std.specs.Prelude.{◌≡◌, ◌∷◌, [], ℕ, ◌<◌, ◌≤◌, Some, length, IfOk};
ghost use Rattle.spec_syntax.specs.Expression.{Expression};
ghost use Rattle.spec_syntax.specs.Rules.{all_nodes};
ghost use Rattle.spec_syntax.specs.Nodes.{node_at, children_at, below, right_node};
ghost use Rattle.well_founded.specs.Checked.{IsChecked};
ghost use Rattle.size_counts.specs.Reached.{below_graph, AreReached};

use seq::Seq;
use std::alloc::{AllocError, Global};
use well_founded::{Grammar, NodeKind, reached};

/// The nodes directly inside the node.
///
/// # Errors
///
/// Memory may be wanting.
pub(crate) fn children(alloc: Global, grammar: &Grammar, node: u32) -> Result<Seq<u32>, AllocError>
    requires { node < length (all_nodes grammar.now.rules) }
    ensures { IfOk result (λ made. made ≡ children_at grammar.now.rules node) }
{
    let mut made = Seq::new(alloc);
    for i in 0..grammar.children(node) {
        made.push(grammar.child(node, i + 1))?;
    }
    Ok(made)
}

/// The nodes whose structures stand directly inside those of the node.
fn below(alloc: Global, grammar: &Grammar, node: u32) -> Result<Seq<u32>, AllocError>
    requires { node < length (all_nodes grammar.now.rules) }
    ensures { IfOk result (λ made. (e : Expression) → node_at grammar.now.rules node ≡ Some e → made ≡ below grammar.now.rules node e) }
{
    match grammar.kind(node) {
        NodeKind::Rule => {
            let mut made = Seq::new(alloc);
            made.push(grammar.rule_node(grammar.sym(node)))?;
            Ok(made)
        }
        NodeKind::Epsilon
        | NodeKind::Atom
        | NodeKind::Union
        | NodeKind::Prod
        | NodeKind::Sequence
        | NodeKind::Set
        | NodeKind::PowerSet
        | NodeKind::Cycle => children(alloc, grammar, node),
    }
}

/// For each node those whose structures stand directly inside its own.
fn below_each(alloc: Global, grammar: &Grammar) -> Result<Vec<Seq<u32>>, AllocError>
    ensures made { IfOk result (λ graph. graph.items ≡ below_graph grammar.now.rules) }
    ensures few { IfOk result (λ graph. length graph.items ≤ 128) }
    ensures kept { IsChecked grammar.now }
{
    let mut graph = Vec::new(alloc);
    for node in 0..grammar.nodes() {
        graph.push(below(alloc, grammar, node)?)?;
    }
    Ok(graph)
}

/// Marks the nodes that are reached from rule number `sym`.
///
/// # Errors
///
/// Memory may be wanting.
pub(crate) fn reached_from(
    alloc: Global,
    grammar: &Grammar,
    sym: u32,
) -> Result<Vec<bool>, AllocError>
    requires low { 1 ≤ sym }
    requires high { sym ≤ length grammar.now.rules }
    ensures reached { IfOk result (λ marks. AreReached grammar.now.rules sym marks.items) }
    ensures kept { IsChecked grammar.now }
{
    let graph = below_each(alloc, grammar)?;
    let right = grammar.rule_node(sym);
    let mut marks = reached(alloc, graph.as_slice(), right)?;
    marks[right as usize] = true;
    Ok(marks)
}
