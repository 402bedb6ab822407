//! The plain rule as a collector. Its pushes equal the plain rule of `pc_presentation`, rows of tails included: what commutes
//! stays in place, and copies of a generator are pushed together, where that gives exactly what the plain rule gives. It
//! recurs on later generators alone, so that it is never deeper than the rank; it takes no memory and copies no word.
#![tactic(auto)]

pub mod laws;
pub mod plain;
mod steps;
mod zeros;

pub use plain::Plain;
