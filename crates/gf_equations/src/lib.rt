//! Generating function equations: for each rule of a grammar the equation of its generating function.
#![tactic(auto)]

mod bound;
mod container;
mod equation;
mod fault;
mod term;
#[cfg(test)]
mod tests;

pub use equation::equations;
pub use fault::GfFault;
