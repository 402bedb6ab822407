//! Rows inserted into a basis.

use crate::numbers::refill;
use fp_echelon::Basis;
use fp_rows::Row;
use pq_base::{NoMemory, Prime};
use std::alloc::Global;

/// Inserts so many rows of as many columns modulo 3, and gives the rank.
pub fn inserted(alloc: Global, count: u16) -> Result<u32, NoMemory> {
    let mut basis = Basis::new(alloc, Prime::P3, count)?;
    basis.reserve(count)?;
    let mut row = Row::zero(alloc, Prime::P3, count)?;
    let mut seed = 1;
    for _ in 0..count {
        seed = refill(&mut row, seed);
        if basis.spare() > 0 {
            basis.insert(&row);
        }
    }
    Ok(u32::from(basis.rank()))
}
