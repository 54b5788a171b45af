//! Tables of the numbers of a class, by size.
#![tactic(auto)]

ghost use Rattle.std.specs.Prelude.{◌≡◌};

mod components;
mod counted;
mod counts;
mod fill;
mod laws;
mod layer;
mod multisets;
mod place;
mod reached;
mod rows;
mod shared;
mod spot;
mod subsets;
mod suffixes;
mod sums;
mod tables;
mod totals;

pub use counted::Counted;
pub use laws::numbers_of_a_class_say_one_thing;
pub use place::{CountFault, Group, Place};
pub use spot::rule_of;

#[cfg(test)]
mod tests;
