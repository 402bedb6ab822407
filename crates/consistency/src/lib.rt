//! Overlaps of covers and their rows. `Tests` names each overlap of a number of generators once. `row` collects both ways of
//! an overlap in a cover: where their exponents agree, the difference of their tails is a row that is trivial in the cover.
//! `laws` states that no overlap is missed and that such rows are trivial, also where the cover is not consistent.
#![tactic(auto)]

pub mod all_overlaps;
pub mod laws;
mod next_overlap;
pub mod overlap_rows;

pub use all_overlaps::Tests;
pub use overlap_rows::row;
