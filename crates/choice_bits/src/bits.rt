//! Bits, and the numbers that they pick.
ghost use Rattle.std.specs.Prelude.{◌≡◌, ℕ, ◌<◌, ◌≤◌, ◌^◌, Bool, List, [], Some, None, Option, IfOk, OnErr, length};
ghost use Rattle.choice_laws.specs.Bits.{block_length, picked, with_bit};
ghost use Rattle.choice_bits.specs.Bits.{IsTaken, before};

/// Gives bits, one at a time.
pub trait Bits {
    // The bits that are left.
    ghost left: { Self → List Bool };

    /// The next bit, or None where none is left.
    fn take(&mut self) -> Option<bool>
        ensures bit { left self.old ≡ before result (left self.new) }
        ensures at_end { result ≡ None → left self.new ≡ [] };
}

/// The bits ended before a number was picked.
#[derive(Clone, Copy, Debug, PartialEq, Eq)]
pub struct Spent;

/// A number below the bound: that of the first whole block of bits, highest bit first, that is below it. A block has the least
/// number of bits that write as many numbers as the bound says, so none for the bound 1. Where the bits end before there is such a
/// block they are spent, and none is left.
pub fn pick<B: Bits>(bits: &mut B, bound: u128) -> Result<u128, Spent>
    requires { 1 ≤ bound }
    ensures picked { IfOk result (λ value. picked bound (B.left bits.old) ≡ Some (value, B.left bits.new)) }
    ensures spent { OnErr result (picked bound (B.left bits.old) ≡ None) }
    ensures none_left { OnErr result (B.left bits.new ≡ []) }
{
    let width = block_length(bound);
    loop {
        let value = take_block(bits, width)?;
        if value < bound {
            return Ok(value);
        }
    }
}

// The least number of bits that write as many numbers as the bound says.
fn block_length(bound: u128) -> u32
    requires { 1 ≤ bound }
    ensures length { result ≡ block_length bound }
    ensures few { result ≤ 128 }
{
    128 - (bound - 1).leading_zeros()
}

// The number that the next bits write, highest first.
fn take_block<B: Bits>(bits: &mut B, width: u32) -> Result<u128, Spent>
    requires { width ≤ 128 }
    ensures taken { IfOk result (λ value. IsTaken width (B.left bits.old) value (B.left bits.new)) }
    ensures spent { OnErr result (length (B.left bits.old) < width) }
    ensures none_left { OnErr result (B.left bits.new ≡ []) }
{
    let mut value = 0;
    for _ in 0..width {
        match bits.take() {
            Some(bit) => value = with_bit(value, bit),
            None => return Err(Spent),
        }
    }
    Ok(value)
}

// The number with a bit more behind its bits.
fn with_bit(value: u128, bit: bool) -> u128
    requires { value < 2 ^ 127 }
    ensures { result ≡ with_bit value bit }
{
    if bit { 2 * value + 1 } else { 2 * value }
}
