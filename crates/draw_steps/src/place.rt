//! The place of a weight that bits choose.
ghost use Rattle.std.specs.Prelude.{◌≡◌, ◌<◌, ◌≤◌, ◌^◌, ℕ, Bool, List, Some, None, length, slice_index_or, sum, IfOk, IfSome, IfNone};
ghost use Rattle.std.specs.Option.{option_and_then};
ghost use Rattle.choice_laws.specs.Bits.{follow, picked};
ghost use Rattle.draw_steps.specs.Steps.{by_weight, place_from};
ghost use Rattle.draw_steps.specs.Draws.{Follows};

use crate::fault::StepFault;
use choice_bits::{Bits, pick};

/// The place of the only weight above 0, or None where there are more.
fn only_place(weights: &[u128]) -> Option<usize>
    requires { 0 < sum weights.now }
    ensures only { IfSome result (λ place. (bits : List Bool) → follow (by_weight weights.now) bits ≡ Some (place, bits)) }
    ensures positive { IfSome result (λ place. 0 < slice_index_or weights.now place 0) }
    ensures more { IfNone result ((bits : List Bool) → follow (by_weight weights.now) bits ≡ option_and_then (λ p. place_from 0 weights.now p.0 p.1) (picked (sum weights.now) bits)) }
{
    let mut only = None;
    for (place, weight) in weights.iter().enumerate() {
        if *weight > 0 {
            if only.is_some() {
                return None;
            }
            only = Some(place);
        }
    }
    only
}

/// The sum of the weights.
fn total(weights: &[u128]) -> u128
    requires { sum weights.now < 2 ^ 128 }
    ensures { result ≡ sum weights.now }
{
    let mut total = 0;
    for weight in weights {
        total += *weight;
    }
    total
}

/// The place of the first weight that with those before it adds to more than the value.
fn place_of(weights: &[u128], value: u128) -> usize
    requires { value < sum weights.now }
    ensures place { (bits : List Bool) → place_from 0 weights.now value bits ≡ Some (result, bits) }
    ensures positive { 0 < slice_index_or weights.now result 0 }
{
    let mut left = value;
    for (place, weight) in weights.iter().enumerate() {
        if left < *weight {
            return place;
        }
        left -= *weight;
    }
    unreachable!()
}

/// The place of one of the weights, which bits choose.
pub fn pick_place<B: Bits>(bits: &mut B, weights: &[u128]) -> Result<usize, StepFault>
    requires some { 0 < sum weights.now }
    requires fits { sum weights.now < 2 ^ 128 }
    ensures step { Follows (by_weight weights.now) (B.left bits.old) result (B.left bits.new) }
    ensures positive { IfOk result (λ place. 0 < slice_index_or weights.now place 0) }
{
    if let Some(place) = only_place(weights) {
        return Ok(place);
    }
    let value = pick(bits, total(weights))?;
    Ok(place_of(weights, value))
}
