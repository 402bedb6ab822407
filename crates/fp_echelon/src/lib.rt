//! Reduced bases over a prime field. A basis takes rows one by one and keeps a reduced basis of what they span, with the
//! coefficients of each of its rows over the rows that were added. It says exactly which rows are dependent, and reduces a
//! row to the one representative modulo the span that is 0 at every pivot. `Matrix` is a square matrix that carries rows to rows.
#![tactic(auto)]

mod basis;
mod elimination;
mod entry;
mod insertion;
pub mod laws;
mod matrix;

pub use basis::Basis;
pub use insertion::Insertion;
pub use matrix::Matrix;
