//! One class: from a cover and a basis of the rows that are to be trivial to the next answer, by `eliminate`. What a basis makes
//! of the tails stands in `kept`; the answer itself is built in `cover_quotient`.
#![tactic(auto)]

pub mod elimination;
mod kept;
pub mod step;

pub use elimination::eliminate;
pub use step::Step;
