//! The argument of a Union, and the number of components of a container.
ghost use Rattle.std.specs.Prelude.{◌≡◌, ◌≤◌, ◌<◌, ◌^◌, ◌+◌, ◌-◌, ◌*◌, ℕ, true, Some, length, map, sum, slice_get, IsTrue, IfOk, if◌then◌else◌};
ghost use Rattle.std.specs.List.{range_with_len};
ghost use Rattle.spec_syntax.specs.Nodes.{children_at};
ghost use Rattle.well_founded.specs.declared.node.NodeKind.TheVariants as told;
ghost use Rattle.listing_laws.specs.NodeListing.{HasKind};
ghost use Rattle.size_counts.specs.CountedView.{IsReachedIn, number_of};
ghost use Rattle.draw_steps.specs.Asked.{IsContainer};
ghost use Rattle.draw_steps.specs.Choices.{child_of, admits_at, number_with, count_step, argument_step};
ghost use Rattle.draw_steps.specs.Draws.{Follows};

use crate::fault::StepFault;
use crate::place::pick_place;
use choice_bits::Bits;
use size_counts::Counted;
use std::alloc::{AllocError, Global};
use well_founded::NodeKind;

/// The numbers of structures with n atoms of the Union's arguments.
fn argument_weights(
    alloc: Global,
    counted: &Counted,
    node: u32,
    n: u32,
) -> Result<Vec<u128>, AllocError>
    requires reached { IsReachedIn counted.now node }
    requires within { n ≤ counted.now.size }
    ensures { IfOk result (λ weights. weights.items ≡ map (λ i. number_of counted.now (child_of counted.now node i) n) (range_with_len 1 (length (children_at counted.now.checked.rules node)))) }
{
    let grammar = counted.grammar();
    let mut weights = Vec::new(alloc);
    for before in 0..grammar.children(node) {
        weights.push(counted.number(grammar.child(node, before + 1), n))?;
    }
    Ok(weights)
}

/// The argument of the Union, counted from 1.
pub fn pick_argument<B: Bits>(
    alloc: Global,
    counted: &Counted,
    bits: &mut B,
    node: u32,
    n: u32,
) -> Result<u32, StepFault>
    requires reached { IsReachedIn counted.now node }
    requires union { HasKind counted.now.checked node told.Union }
    requires within { n ≤ counted.now.size }
    requires some { 0 < number_of counted.now node n }
    ensures step { Follows (argument_step counted.now node n) (B.left bits.old) result (B.left bits.new) }
    ensures low { IfOk result (λ i. 1 ≤ i) }
    ensures high { IfOk result (λ i. i ≤ length (children_at counted.now.checked.rules node)) }
    ensures some { IfOk result (λ i. 0 < number_of counted.now (child_of counted.now node i) n) }
{
    let grammar = counted.grammar();
    let _ = grammar.children(node);
    let _ = counted.number(node, n);
    let weights = argument_weights(alloc, counted, node, n)?;
    let place = pick_place(bits, weights.as_slice())?;
    Ok(place as u32 + 1)
}

/// The number of structures with n atoms and c components of the container of this kind, where its bound admits so many.
fn count_weight(counted: &Counted, kind: NodeKind, node: u32, n: u32, c: u32) -> u128
    requires container { IsContainer counted.now node kind }
    requires within { n ≤ counted.now.size }
    ensures { result ≡ (if admits_at counted.now node c then number_with counted.now kind node c n else 0) }
{
    if !counted.grammar().card(node).admits(c) {
        return 0;
    }
    match kind {
        NodeKind::Sequence => counted.lists(node, c, n),
        NodeKind::Set | NodeKind::PowerSet => counted.sets(node, c, n),
        NodeKind::Cycle if c == 0 => 0,
        NodeKind::Cycle => counted.cycles(node, c, n),
        NodeKind::Epsilon | NodeKind::Atom | NodeKind::Rule | NodeKind::Union | NodeKind::Prod => 0,
    }
}

/// Those numbers for 0 to n components.
fn count_weights(
    alloc: Global,
    counted: &Counted,
    kind: NodeKind,
    node: u32,
    n: u32,
) -> Result<Vec<u128>, AllocError>
    requires container { IsContainer counted.now node kind }
    requires within { n ≤ counted.now.size }
    ensures { IfOk result (λ weights. weights.items ≡ map (λ c. if admits_at counted.now node c then number_with counted.now kind node c n else 0) (range_with_len 0 (n + 1))) }
{
    // The greatest size is at most 1000.
    let _ = counted.grammar();
    let mut weights = Vec::new(alloc);
    for c in 0..n + 1 {
        weights.push(count_weight(counted, kind, node, n, c))?;
    }
    Ok(weights)
}

/// The number of components of the container of this kind with n atoms.
pub fn pick_count<B: Bits>(
    alloc: Global,
    counted: &Counted,
    bits: &mut B,
    kind: NodeKind,
    node: u32,
    n: u32,
) -> Result<u32, StepFault>
    requires container { IsContainer counted.now node kind }
    requires within { n ≤ counted.now.size }
    requires some { 0 < number_of counted.now node n }
    ensures step { Follows (count_step counted.now kind node n) (B.left bits.old) result (B.left bits.new) }
    ensures high { IfOk result (λ c. c ≤ n) }
    ensures admitted { IfOk result (λ c. admits_at counted.now node c ≡ true) }
    ensures some { IfOk result (λ c. 0 < number_with counted.now kind node c n) }
{
    // The greatest size is at most 1000.
    let _ = counted.grammar();
    let _ = counted.number(node, n);
    let weights = count_weights(alloc, counted, kind, node, n)?;
    let place = pick_place(bits, weights.as_slice())?;
    Ok(place as u32)
}
