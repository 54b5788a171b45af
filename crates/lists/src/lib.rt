//! What is said of lists, sums and enumerations of whatever elements: definitions and lemmas, and no code.
#![tactic(auto)]
