//! The number of atoms of a component, and their labels.
ghost use Rattle.std.specs.Prelude.{◌≡◌, ◌≤◌, ◌<◌, ◌^◌, ◌+◌, ◌-◌, ◌*◌, ℕ, suc, Some, length, map, sum, slice_get, IsTrue, IfOk};
ghost use Rattle.std.specs.List.{range_with_len};
ghost use Rattle.spec_syntax.specs.Nodes.{children_at};
ghost use Rattle.spec_syntax.specs.Rules.{all_nodes};
ghost use Rattle.struct_model.specs.SupplyView.{supply_labels, supply_universe, is_in_order};
ghost use Rattle.splits.specs.Parts.{number_of_parts};
ghost use Rattle.splits.specs.WalkView.{split_into};
ghost use Rattle.splits.specs.Capped.{Tells};
ghost use Rattle.listing_laws.specs.Numbers.{ways};
ghost use Rattle.size_counts.specs.CountedView.{IsReachedIn, number_of};
ghost use Rattle.draw_steps.specs.Asked.{IsAsked, AreMissing};
ghost use Rattle.draw_steps.specs.Choices.{first_of, lists_number, times_met, length_weight, length_step, part_step, split_step};
ghost use Rattle.draw_steps.specs.Draws.{Follows, Picks, told_as};

use crate::fault::StepFault;
use crate::missing::Lists;
use crate::place::pick_place;
use choice_bits::{Bits, pick};
use size_counts::Counted;
use spec_syntax::Universe;
use splits::{Pascal, nth_part, times};
use std::alloc::{AllocError, Global};
use struct_model::Supply;

/// The node of the first of the missing components.
pub fn first_node(counted: &Counted, lists: Lists, missing: u32) -> u32
    requires some { 1 ≤ missing }
    requires missing { AreMissing counted.now lists missing }
    ensures first { result ≡ first_of counted.now lists missing }
    ensures reached { IsReachedIn counted.now result }
{
    let grammar = counted.grammar();
    match lists {
        Lists::Components(node) => { grammar.child(node, grammar.children(node) - missing + 1) }
        Lists::Elements(_, element) => element,
        Lists::Members(_, element) => element,
    }
}

/// The number of lists of the missing components with m atoms.
fn lists_number(counted: &Counted, lists: Lists, missing: u32, m: u32) -> u128
    requires missing { AreMissing counted.now lists missing }
    requires within { m ≤ counted.now.size }
    ensures value { result ≡ lists_number counted.now lists missing m }
    ensures fits { times_met lists missing * result < 2 ^ 128 }
{
    let grammar = counted.grammar();
    match lists {
        Lists::Components(node) => {
            if missing == 0 {
                return if m == 0 { 1 } else { 0 };
            }
            let number = grammar.children(node) - missing + 1;
            if number == 1 {
                counted.number(node, m)
            } else {
                counted.suffix(node, number, m)
            }
        }
        Lists::Elements(node, _) => counted.lists(node, missing, m),
        Lists::Members(node, _) => counted.sets(node, missing, m),
    }
}

/// In how many ways a part of d of m labels can be taken.
fn part_ways(universe: Universe, pascal: &Pascal, m: u32, d: u32) -> Option<u128>
    requires row { m ≤ pascal.now }
    requires place { d ≤ m }
    ensures { Tells result (ways universe m d) }
{
    match universe {
        Universe::Labelled => pascal.choose(m, d),
        Universe::Unlabelled => Some(1),
    }
}

/// The weight of d of m atoms in the first of the missing components.
fn length_weight(
    counted: &Counted,
    pascal: &Pascal,
    lists: Lists,
    missing: u32,
    m: u32,
    d: u32,
) -> u128
    requires missing { AreMissing counted.now lists missing }
    requires least { 1 ≤ missing }
    requires within { m ≤ counted.now.size }
    requires row { m ≤ pascal.now }
    requires place { d ≤ m }
    requires fits { length_weight counted.now lists missing m d < 2 ^ 128 }
    ensures { result ≡ length_weight counted.now lists missing m d }
{
    let first = counted.number(first_node(counted, lists, missing), d);
    let others = lists_number(counted, lists, missing - 1, m - d);
    let universe = counted.grammar().universe();
    let pairs = times(Some(first), Some(others));
    let weight = times(part_ways(universe, pascal, m, d), pairs);
    weight.unwrap()
}

/// The weights of 0 to m atoms in the first of the missing components.
fn length_weights(
    alloc: Global,
    counted: &Counted,
    pascal: &Pascal,
    lists: Lists,
    missing: u32,
    m: u32,
) -> Result<Vec<u128>, AllocError>
    requires missing { AreMissing counted.now lists missing }
    requires least { 1 ≤ missing }
    requires within { m ≤ counted.now.size }
    requires row { m ≤ pascal.now }
    requires fits { sum (map (length_weight counted.now lists missing m) (range_with_len 0 (m + 1))) < 2 ^ 128 }
    ensures { IfOk result (λ weights. weights.items ≡ map (length_weight counted.now lists missing m) (range_with_len 0 (m + 1))) }
{
    // The greatest size is at most 1000.
    let _ = counted.grammar();
    let mut weights = Vec::new(alloc);
    for d in 0..m + 1 {
        weights.push(length_weight(counted, pascal, lists, missing, m, d))?;
    }
    Ok(weights)
}

/// The number of atoms of the first of the missing components of m atoms.
fn pick_length<B: Bits>(
    alloc: Global,
    counted: &Counted,
    pascal: &Pascal,
    bits: &mut B,
    lists: Lists,
    missing: u32,
    m: u32,
) -> Result<u32, StepFault>
    requires missing { AreMissing counted.now lists missing }
    requires least { 1 ≤ missing }
    requires within { m ≤ counted.now.size }
    requires row { m ≤ pascal.now }
    requires some { 0 < lists_number counted.now lists missing m }
    ensures step { Follows (length_step counted.now lists missing m) (B.left bits.old) result (B.left bits.new) }
    ensures within { IfOk result (λ d. d ≤ m) }
    ensures positive { IfOk result (λ d. 0 < length_weight counted.now lists missing m d) }
    ensures fits { IfOk result (λ d. length_weight counted.now lists missing m d < 2 ^ 128) }
{
    // The greatest size is at most 1000.
    let _ = counted.grammar();
    let _ = lists_number(counted, lists, missing, m);
    let weights = length_weights(alloc, counted, pascal, lists, missing, m)?;
    let place = pick_place(bits, weights.as_slice())?;
    Ok(place as u32)
}

/// The number of the part of d labels that bits pick: how many parts of d labels come before it.
fn pick_number<B: Bits>(
    pascal: &Pascal,
    bits: &mut B,
    supply: &Supply,
    d: u32,
) -> Result<u128, StepFault>
    requires in_order { IsTrue (is_in_order supply.now) }
    requires length { d ≤ length (supply_labels supply.now) }
    requires row { length (supply_labels supply.now) ≤ pascal.now }
    requires fits { number_of_parts supply.now d < 2 ^ 128 }
    ensures { Picks (number_of_parts supply.now d) (B.left bits.old) result (B.left bits.new) }
{
    match supply {
        Supply::Zeros(_) => Ok(0),
        Supply::Labels(_) => {
            let bound = pascal.choose(supply.len(), d).unwrap();
            let number = pick(bits, bound)?;
            Ok(number)
        }
    }
}

/// A part of d of the labels, and what remains.
fn pick_part<B: Bits>(
    alloc: Global,
    pascal: &Pascal,
    bits: &mut B,
    supply: &Supply,
    d: u32,
) -> Result<(Supply, Supply), StepFault>
    requires in_order { IsTrue (is_in_order supply.now) }
    requires length { d ≤ length (supply_labels supply.now) }
    requires row { length (supply_labels supply.now) ≤ pascal.now }
    requires fits { number_of_parts supply.now d < 2 ^ 128 }
    ensures step { Follows (part_step (supply_labels supply.now) d) (B.left bits.old) (told_as (λ split. split_into split.0 split.1) result) (B.left bits.new) }
    ensures part_length { IfOk result (λ split. length (supply_labels split.0) ≡ d) }
    ensures rest_length { IfOk result (λ split. length (supply_labels split.1) + d ≡ length (supply_labels supply.now)) }
    ensures part_in_order { IfOk result (λ split. IsTrue (is_in_order split.0)) }
    ensures rest_in_order { IfOk result (λ split. IsTrue (is_in_order split.1)) }
    ensures part_universe { IfOk result (λ split. supply_universe split.0 ≡ supply_universe supply.now) }
    ensures rest_universe { IfOk result (λ split. supply_universe split.1 ≡ supply_universe supply.now) }
{
    let number = pick_number(pascal, bits, supply, d)?;
    let (part, rest) = nth_part(alloc, pascal, supply, d, number)?;
    Ok((part, rest))
}

/// The labels of the first of the missing components, and what remains.
pub fn pick_split<B: Bits>(
    alloc: Global,
    counted: &Counted,
    pascal: &Pascal,
    bits: &mut B,
    lists: Lists,
    missing: u32,
    supply: &Supply,
) -> Result<(Supply, Supply), StepFault>
    requires missing { AreMissing counted.now lists missing }
    requires least { 1 ≤ missing }
    requires asked { IsAsked counted.now supply.now }
    requires row { counted.now.size ≤ pascal.now }
    requires some { 0 < lists_number counted.now lists missing (length (supply_labels supply.now)) }
    ensures step { Follows (split_step counted.now lists missing (supply_labels supply.now)) (B.left bits.old) (told_as (λ split. split_into split.0 split.1) result) (B.left bits.new) }
    ensures part { IfOk result (λ split. IsAsked counted.now split.0) }
    ensures rest { IfOk result (λ split. IsAsked counted.now split.1) }
    ensures lengths { IfOk result (λ split. length (supply_labels split.0) + length (supply_labels split.1) ≡ length (supply_labels supply.now)) }
    ensures first { IfOk result (λ split. 0 < number_of counted.now (first_of counted.now lists missing) (length (supply_labels split.0))) }
    ensures others { IfOk result (λ split. 0 < lists_number counted.now lists (missing - 1) (length (supply_labels split.1))) }
{
    let d = pick_length(alloc, counted, pascal, bits, lists, missing, supply.len())?;
    let (part, rest) = pick_part(alloc, pascal, bits, supply, d)?;
    Ok((part, rest))
}
