//! The components of Sets without labels.
ghost use Rattle.std.specs.Prelude.{◌≡◌, ◌≤◌, ◌<◌, ◌^◌, ◌+◌, ◌-◌, ◌*◌, ◌++◌, ℕ, suc, Some, length, map, sum, replicate, slice_get, OnOk, IsTrue, IfOk};
ghost use Rattle.size_counts.specs.CountedView.{IsReachedIn, number_of, sets_of};
ghost use Rattle.draw_steps.specs.Asked.{AreRepeated};
ghost use Rattle.draw_steps.specs.Choices.{copies_of, copies_weight, copies_step};
ghost use Rattle.draw_steps.specs.Draws.{Follows};

use crate::fault::StepFault;
use crate::place::pick_place;
use choice_bits::Bits;
use size_counts::Counted;
use splits::times;
use std::alloc::{AllocError, Global};
use struct_model::{Struct, Structs, copy};

/// So many copies of an element of a size.
#[derive(Clone, Copy)]
pub struct Copies {
    pub size: u32,
    pub number: u32,
}

/// The weight of copies of an element in a Set with m atoms of which so many components are missing.
fn copies_weight(
    counted: &Counted,
    node: u32,
    element: u32,
    missing: u32,
    m: u32,
    copies: Copies,
) -> u128
    requires missing { AreRepeated counted.now node element missing }
    requires within { m ≤ counted.now.size }
    requires size { copies.size ≤ m }
    requires number { copies.number ≤ missing }
    requires few { missing ≤ 1000 }
    requires fits { copies_weight counted.now node element missing m copies < 2 ^ 128 }
    ensures { result ≡ copies_weight counted.now node element missing m copies }
{
    let _ = counted.grammar();
    let atoms = copies.number * copies.size;
    if m < atoms {
        return 0;
    }
    let others = counted.sets(node, missing - copies.number, m - atoms);
    let weight = times(Some(counted.number(element, copies.size)), Some(others));
    weight.unwrap()
}

/// Each size and each number of copies, the size first, of a Set with m atoms of which so many components are missing.
fn all_copies(alloc: Global, missing: u32, m: u32) -> Result<Vec<Copies>, AllocError>
    requires few { missing ≤ 1000 }
    requires small { m ≤ 1000 }
    ensures { IfOk result (λ all. all.items ≡ copies_of missing m) }
{
    let mut all = Vec::new(alloc);
    for size in 1..m + 1 {
        for number in 1..missing + 1 {
            all.push(Copies { size, number })?;
        }
    }
    Ok(all)
}

/// The weights of these copies.
fn copies_weights(
    alloc: Global,
    counted: &Counted,
    node: u32,
    element: u32,
    missing: u32,
    m: u32,
    all: &[Copies],
) -> Result<Vec<u128>, AllocError>
    requires missing { AreRepeated counted.now node element missing }
    requires within { m ≤ counted.now.size }
    requires few { missing ≤ 1000 }
    requires all { all.now ≡ copies_of missing m }
    requires fits { sum (map (copies_weight counted.now node element missing m) (copies_of missing m)) < 2 ^ 128 }
    ensures { IfOk result (λ weights. weights.items ≡ map (copies_weight counted.now node element missing m) all.now) }
{
    let mut weights = Vec::new(alloc);
    for copies in all {
        weights.push(copies_weight(counted, node, element, missing, m, *copies))?;
    }
    Ok(weights)
}

/// The size of the next element of a Set with m atoms, and how many copies of it the Set has, where so many components are
/// missing.
pub fn pick_copies<B: Bits>(
    alloc: Global,
    counted: &Counted,
    bits: &mut B,
    node: u32,
    element: u32,
    missing: u32,
    m: u32,
) -> Result<Copies, StepFault>
    requires some { 1 ≤ missing }
    requires missing { AreRepeated counted.now node element missing }
    requires within { m ≤ counted.now.size }
    requires sets { 0 < sets_of counted.now node missing m }
    requires few { missing ≤ 1000 }
    ensures step { Follows (copies_step counted.now node element missing m) (B.left bits.old) result (B.left bits.new) }
    ensures low { IfOk result (λ copies. 1 ≤ copies.number) }
    ensures high { IfOk result (λ copies. copies.number ≤ missing) }
    ensures size { IfOk result (λ copies. 1 ≤ copies.size) }
    ensures atoms { IfOk result (λ copies. copies.number * copies.size ≤ m) }
    ensures first { IfOk result (λ copies. 0 < number_of counted.now element copies.size) }
    ensures others { IfOk result (λ copies. 0 < sets_of counted.now node (missing - copies.number) (m - copies.number * copies.size)) }
{
    // The greatest size is at most 1000.
    let _ = counted.grammar();
    let _ = counted.sets(node, missing, m);
    let all = all_copies(alloc, missing, m)?;
    let weights = copies_weights(alloc, counted, node, element, missing, m, all.as_slice())?;
    let place = pick_place(bits, weights.as_slice())?;
    Ok(all[place])
}

/// Puts so many copies of a structure at the end.
pub fn push_copies(
    alloc: Global,
    components: &mut Structs,
    s: &Struct,
    number: u32,
) -> Result<(), AllocError>
    ensures { OnOk result (components.new ≡ components.old ++ replicate number s.now) }
{
    for _ in 0..number {
        components.push(copy(alloc, s)?)?;
    }
    Ok(())
}
