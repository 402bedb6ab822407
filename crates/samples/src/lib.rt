//! Samples: presentations that are made from a number, and the summary that is written of their answers. Each sample presents
//! the free group on two generators, in 32 generators: long relators say which words in the first two the others are.
#![tactic(auto)]

mod draws;
pub mod laws;
mod names;
mod presentation;
pub mod question;
mod summaries;
mod words;

pub use presentation::sample;
pub use question::{SAMPLE_CLASS, sample_prime};
pub use summaries::summary;
