//! Endomorphisms of the free group on the given generators, carried to the tails of covers. `matrix` is the matrix of an
//! endomorphism over the tails: where the answer is consistent and the endomorphism induces one of it, the row of a word
//! times the matrix is the row of the word's image. `laws` states what is proved of endomorphisms and tails.
#![tactic(auto)]

mod entry;
mod image_rows;
pub mod laws;
mod room;
mod spelled;

pub use image_rows::matrix;
