//! Rows of residues modulo a prime: vectors over a prime field, with a byte for each entry. They are added and scaled in
//! place, without memory, and each call is the plain operation on lists of residues. `kernel` has the same on slices.
#![tactic(auto)]

pub mod kernel;
mod lanes;
pub mod row;

pub use row::Row;
