//! What one gets to in a graph whose nodes are the numbers from 0.
ghost use Rattle.std.specs.Prelude.{◌≡◌, ℕ, ◌<◌, ◌≤◌, None, length, IfSome, IfOk, IsTrue};
ghost use Rattle.lists.specs.Enumeration.{IsIn};
ghost use Rattle.graphs.specs.Graph.{next, Leads, IsGraph, Reaches, IsMarked, IsUnmarked, IsNew, IsClosed, IsBehindMarked, AreCounts, count_true};

use seq::Seq;
use std::alloc::{AllocError, Global};

/// The first of the nodes that has no mark.
fn unmarked(nodes: &[u32], marks: &[bool]) -> Option<u32>
    requires { (j : ℕ) → IsIn j nodes.now → j < length marks.now }
    ensures found { IfSome result (λ j. IsIn j nodes.now × IsUnmarked marks.now j) }
    ensures none { result ≡ None → (j : ℕ) → IsIn j nodes.now → IsMarked marks.now j }
{
    for node in nodes {
        if !marks[*node as usize] {
            return Some(*node);
        }
    }
    None
}

/// The first node without a mark that follows one with a mark.
fn behind_marked(graph: &[Seq<u32>], marks: &[bool]) -> Option<u32>
    requires graph_is { IsGraph graph.now }
    requires for_each { length marks.now ≡ length graph.now }
    ensures found { IfSome result (λ j. IsUnmarked marks.now j × IsBehindMarked graph.now marks.now j) }
    ensures none { result ≡ None → (j : ℕ) → IsBehindMarked graph.now marks.now j → IsMarked marks.now j }
{
    for i in 0..marks.len() {
        if marks[i] {
            let found = unmarked(graph[i].as_slice(), marks);
            if found.is_some() {
                return found;
            }
        }
    }
    None
}

/// A node without a mark that follows node `from` or one with a mark.
fn next_new(graph: &[Seq<u32>], from: u32, marks: &[bool]) -> Option<u32>
    requires graph_is { IsGraph graph.now }
    requires from_in { from < length graph.now }
    requires for_each { length marks.now ≡ length graph.now }
    ensures found { IfSome result (λ j. IsNew graph.now from marks.now j) }
    ensures none { result ≡ None → IsClosed graph.now from marks.now }
{
    match unmarked(graph[from as usize].as_slice(), marks) {
        Some(node) => Some(node),
        None => behind_marked(graph, marks),
    }
}

/// Marks the nodes that node `from` leads to.
///
/// # Errors
///
/// Memory may be wanting.
pub fn reached(alloc: Global, graph: &[Seq<u32>], from: u32) -> Result<Vec<bool>, AllocError>
    requires graph_is { IsGraph graph.now }
    requires from_in { from < length graph.now }
    requires few { length graph.now ≤ 128 }
    ensures { IfOk result (λ marks. Reaches graph.now from marks.items) }
{
    let mut marks = vec![in alloc; false; graph.len()]?;
    while let Some(node) = next_new(graph, from, marks.as_slice()) {
        marks[node as usize] = true;
    }
    Ok(marks)
}

/// How many of the marks are set.
fn count(marks: &[bool]) -> u32
    requires { length marks.now ≤ 128 }
    ensures { result ≡ count_true marks.now }
{
    marks.iter().filter(|mark| **mark).count() as u32
}

/// For each node the number of nodes that it leads to.
///
/// # Errors
///
/// Memory may be wanting.
pub(crate) fn ranks(alloc: Global, graph: &[Seq<u32>]) -> Result<Vec<u32>, AllocError>
    requires graph_is { IsGraph graph.now }
    requires few { length graph.now ≤ 128 }
    ensures { IfOk result (λ ranks. AreCounts graph.now ranks.items) }
{
    let mut ranks = Vec::new(alloc);
    for i in 0..graph.len() {
        let marks = reached(alloc, graph, i as u32)?;
        ranks.push(count(marks.as_slice()))?;
    }
    Ok(ranks)
}

/// Whether the node leads to itself.
///
/// # Errors
///
/// Memory may be wanting.
pub(crate) fn leads_to_itself(
    alloc: Global,
    graph: &[Seq<u32>],
    node: u32,
) -> Result<bool, AllocError>
    requires graph_is { IsGraph graph.now }
    requires node_in { node < length graph.now }
    requires few { length graph.now ≤ 128 }
    ensures only { IfOk result (λ leads. IsTrue leads → Leads graph.now node node) }
    ensures always { IfOk result (λ leads. Leads graph.now node node → IsTrue leads) }
{
    let marks = reached(alloc, graph, node)?;
    Ok(marks[node as usize])
}
