//! What is said of graphs whose nodes are numbers: definitions and lemmas, and no code.
#![tactic(auto)]
