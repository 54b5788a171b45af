//! Scripts are cut into pieces, and a piece is read as a statement.
//!
//! A piece is read exactly where it is in the grammar and within the limits, and is refused at the first token that can't
//! be right.
#![tactic(auto)]

mod cut;
mod draft;
mod laws;
mod place;
mod read;
mod refusal;
mod seen;
mod stack;
mod statement;
mod table;
mod token;

pub use cut::first_piece;
pub use laws::{
    a_piece_has_a_statement_or_a_fault, a_piece_has_one_fault, a_piece_reads_as_one_statement,
    the_pieces_of_a_script_follow_each_other, what_is_read_keeps_the_facts_of_a_specification,
};
pub use place::{Place, behind};
pub use refusal::{ReadRefused, Which};
pub use statement::read_statement;

#[cfg(test)]
mod tests;
