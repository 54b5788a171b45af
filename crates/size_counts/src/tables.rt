//! Tables of numbers, by size and by node.
ghost use Rattle.std.specs.Prelude.{◌≡◌, ◌∷◌, [], ◌++◌, ◌+◌, ◌≤◌, ◌<◌, ℕ, List, Some, length, slice_get, IfOk};
ghost use Rattle.size_counts.specs.Tables.{cell, column};

use crate::sums::Ways;
use seq::Seq;
use std::alloc::{AllocError, Global};
use well_founded::Grammar;

/// The numbers of the marked nodes of a grammar at the sizes so far, none of which is too large.
///
/// By size and by node they stand in the order of their groups and indices: first the count of the node, then its others.
#[derive(Drop)]
pub(crate) struct Tables {
    pub(crate) grammar: Grammar,
    pub(crate) marks: Vec<bool>,
    pub(crate) ways: Ways,
    pub(crate) layers: Vec<Seq<Seq<u128>>>,
}

/// Number i, counted from 0, of those of the node at the size of the layer, or 0 where there are no more.
pub(crate) fn cell(layer: &Seq<Seq<u128>>, node: u32, i: u32) -> u128
    requires { node < length layer.now }
    ensures { result ≡ cell layer.now node i }
{
    let numbers = layer.at(node as usize);
    if (i as usize) < numbers.len() {
        *numbers.at(i as usize)
    } else {
        0
    }
}

/// Number i of those of the node, by size, and then one more.
///
/// # Errors
///
/// Memory may be wanting.
pub(crate) fn column(
    alloc: Global,
    layers: &[Seq<Seq<u128>>],
    node: u32,
    i: u32,
    last: Option<u128>,
) -> Result<Vec<Option<u128>>, AllocError>
    requires { (size : ℕ) (layer : List (List ℕ)) → slice_get layers.now size ≡ Some layer → node < length layer }
    ensures { IfOk result (λ made. made.items ≡ column layers.now node i ++ last ∷ []) }
{
    let mut made = Vec::new(alloc);
    for layer in layers {
        made.push(Some(cell(layer, node, i)))?;
    }
    made.push(last)?;
    Ok(made)
}
