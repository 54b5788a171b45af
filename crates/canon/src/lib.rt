//! Canonical forms of lists of structures, and which structures an expression has.
#![tactic(auto)]

mod membership;
mod rotation;
mod sorted;

pub use membership::{is_member, is_of_rule, is_structure};
pub use rotation::{is_least, least_rotation, rotate_least};
pub use sorted::put_sorted;

#[cfg(test)]
mod tests;
