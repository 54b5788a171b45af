//! Bits that are given or come from a seed, and numbers that they pick.
#![tactic(auto)]

mod bits;
mod hex;
mod seeded;

pub use bits::{Bits, Spent, pick};
pub use hex::{HexBits, HexFault};
pub use seeded::ChaChaBits;

#[cfg(test)]
mod tests;
