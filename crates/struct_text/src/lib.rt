//! The texts of structures: in Maple's form, and in the tagged form, which reads back.
#![tactic(auto)]

mod entering;
mod form;
mod holes;
mod laws;
mod leaving;
mod lexing;
mod reading;
#[cfg(test)]
mod reading_tests;
mod stack;
#[cfg(test)]
mod tests;
mod writing;

pub use form::TextForm;
pub use laws::a_tagged_text_is_of_one_structure;
pub use reading::{TextFault, read_tagged};
pub use writing::{maple, tagged, write_text};
