//! Covers and overlaps cut by weight. In an answer of class c whose right sides obey weights, a commutator of generators whose weights
//! have a sum above c + 1 is trivial in the next class, so `light_cover` gives it no tail; and the overlaps whose weights have a sum
//! above c + 1 hold once the others do, so `light_tests` leaves them out. `laws` states that the span stays the same.
#![tactic(auto)]

pub mod laws;
mod light_covers;
mod light_overlaps;
mod room;
mod sources;

pub use light_covers::{is_light, light_cover};
pub use light_overlaps::light_tests;
