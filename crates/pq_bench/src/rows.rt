//! Sums of rows.

ghost use Rattle.std.specs.Prelude.{◌≡◌, IfOk, length};

use crate::numbers::refill;
use fp_rows::Row;
use pq_base::{NoMemory, Prime};
use std::alloc::Global;

/// As many columns as a cover has tails at most.
const WIDTH: u16 = 5_082;

/// Adds a multiple of one row to another so many times, modulo 7.
pub fn added(alloc: Global, count: u32) -> Result<u32, NoMemory> {
    let other = filled(alloc, 1)?;
    let mut row = filled(alloc, 2)?;
    for n in 0..count {
        row.add_scaled(&other, 1 + (n % 6) as u8);
    }
    Ok(sum_of(&row))
}

fn filled(alloc: Global, seed: u32) -> Result<Row, NoMemory>
    ensures { IfOk result (λ row. (row.prime ≡ 7) × (length row.entries ≡ 5082)) }
{
    let mut row = Row::zero(alloc, Prime::P7, WIDTH)?;
    refill(&mut row, seed);
    Ok(row)
}

fn sum_of(row: &Row) -> u32 {
    let mut sum = 0u32;
    for column in 1..=row.width() {
        sum = sum.wrapping_add(u32::from(row.get(column)));
    }
    sum
}
