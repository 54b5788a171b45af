//! A session runs statements one after another, and keeps what they leave.
#![tactic(auto)]

mod answer;
mod fault;
mod laws;
mod members;
mod refusal;
mod session;

pub use fault::{Outcome, SessionFault};
pub use laws::each_statement_has_one_effect;
pub use refusal::{Refusal, refusal_line};
pub use session::Session;
pub use struct_text::TextForm;

#[cfg(test)]
mod tests;
