//! The check of grammars: which have sensible listings, and why the others are refused.
#![tactic(auto)]

ghost use Rattle.std.specs.Prelude.{◌≡◌};

mod checking;
mod containers;
mod grammar;
mod graph;
mod laws;
mod least;
mod leasts;
mod names;
mod node;
mod refused;
mod same_size;

pub use checking::check;
pub use grammar::Grammar;
pub use graph::reached;
pub use laws::each_grammar_has_one_check;
pub use node::NodeKind;
pub use refused::Refused;

#[cfg(test)]
mod tests;
