//! Walks over structures: one at a time, in ascending order, each as it is reached.
//!
//! A walk holds one structure and what is needed to reach the next one. No list is made of those that are still to come.
#![tactic(auto)]

mod arguments;
mod behind;
mod behind_sorted;
mod iter;
mod later;
mod open;
mod part;
mod resume;
mod sorted;
mod sorted_tail;
mod split_walk;
mod stepping;
mod tail;
mod walk;
mod walker;

pub use iter::Iter;
pub use walk::{AfterFault, Walk};
pub use walker::Walker;

#[cfg(test)]
mod tests;
