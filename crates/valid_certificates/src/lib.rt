//! A valid certificate says what the largest quotient is, whoever wrote it.
#![tactic(auto)]

pub mod laws;
