//! Bits that are given by hexadecimal digits.
ghost use Rattle.std.specs.Prelude.{◌≡◌, ◌++◌, Some, None, OnOk, IfOk, IfErr};
ghost use Rattle.choice_bits.specs.Bits.{bits_of, bits_of_digits, digit_value};
ghost use Rattle.choice_bits.specs.declared.hex.HexFault.TheVariants.{NotHex};

use crate::bits::Bits;
use std::alloc::{AllocError, Global};
use std::marker::Model;
use thiserror::Error;

/// Why digits give no bits.
#[derive(Clone, Copy, Debug, PartialEq, Eq, Error)]
pub enum HexFault {
    #[error("a byte is no hexadecimal digit")]
    NotHex,
    #[error("memory ran out")]
    Memory,
}

/// The bits of hexadecimal digits, four a digit, highest first.
#[derive(Debug, Drop)]
pub struct HexBits {
    bits: Vec<bool>,
    taken: usize,
}

impl Model for HexBits {
    ghost use Rattle.std.specs.Prelude.{◌≤◌, Bool, List, length, drop};

    ghost Value = { List Bool };

    ghost view = { λ given. drop given.taken given.bits.items };

    ghost invariant = { λ given. given.taken ≤ length given.bits.items };
}

impl From<AllocError> for HexFault {
    ghost use Rattle.std.specs.Prelude.{◌≡◌};
    ghost use Rattle.choice_bits.specs.declared.hex.HexFault.TheVariants.{Memory};

    ghost from_gives = { λ _ fault. fault ≡ Memory };

    fn from(_: AllocError) -> HexFault {
        HexFault::Memory
    }
}

impl HexBits {
    /// The bits of these digits, in both cases of letters. `NotHex` comes exactly where a byte is no digit, unless memory runs
    /// out before.
    pub fn new(alloc: Global, digits: &[u8]) -> Result<HexBits, HexFault>
        ensures bits { IfOk result (λ bits. bits_of_digits digits.now ≡ Some bits) }
        ensures not_hex { IfErr result (λ fault. fault ≡ NotHex → bits_of_digits digits.now ≡ None) }
    {
        let mut bits = Vec::new(alloc);
        for digit in digits {
            push_digit(&mut bits, digit_value(*digit).ok_or(HexFault::NotHex)?)?;
        }
        Ok(HexBits { bits, taken: 0 })
    }
}

// The value of a hexadecimal digit.
fn digit_value(byte: u8) -> Option<u8>
    ensures { result ≡ digit_value byte }
{
    match byte {
        b'0'..=b'9' => Some(byte - b'0'),
        b'A'..=b'F' => Some(byte - b'A' + 10),
        b'a'..=b'f' => Some(byte - b'a' + 10),
        _ => None,
    }
}

// Puts the four bits of a digit behind the others, highest first.
fn push_digit(bits: &mut Vec<bool>, value: u8) -> Result<(), AllocError>
    ensures { OnOk result (bits.new.items ≡ bits.old.items ++ bits_of 4 value) }
{
    bits.push(value / 8 % 2 == 1)?;
    bits.push(value / 4 % 2 == 1)?;
    bits.push(value / 2 % 2 == 1)?;
    bits.push(value % 2 == 1)?;
    Ok(())
}

impl Bits for HexBits {
    ghost left = { λ bits. bits };

    fn take(&mut self) -> Option<bool> {
        let bit = *self.bits.get(self.taken)?;
        self.taken += 1;
        Some(bit)
    }
}
