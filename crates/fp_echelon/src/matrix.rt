//! Square matrices.

ghost use Rattle.std.specs.Prelude.{◌≡◌, ◌≤◌, ◌-◌, [], IfOk, length, replicate, get_or, slice_set};
ghost use Rattle.pq_base.specs.Prime.{prime_value};
ghost use Rattle.pq_base.specs.Elementary.{zeros};
ghost use Rattle.fp_echelon.specs.Matrix.{IsMatrix, times_matrix, entries_of, HoldsMatrix};

use fp_rows::Row;
use pq_base::{NoMemory, Prime};
use std::alloc::Global;
use std::marker::Model;

/// A square matrix of residues modulo a prime, a row for each column. Rows and columns are counted from 1. Only `new` takes
/// memory.
#[derive(Drop)]
pub struct Matrix {
    prime: Prime,
    width: u16,
    rows: Vec<Row>,
}

impl Model for Matrix {
    ghost use Rattle.pq_base.specs.Prime.{prime_value};
    ghost use Rattle.fp_echelon.specs.Matrix.{PrimeMatrix, entries_of, HoldsMatrix};

    ghost Value = { PrimeMatrix };

    ghost view = { λ m. record { prime = prime_value m.prime; width = m.width; rows = entries_of m.rows.items } };

    ghost invariant = { λ m. HoldsMatrix (prime_value m.prime) m.width m.rows.items };
}

impl Matrix {
    /// The matrix with `width` rows and columns whose rows are zero.
    pub fn new(alloc: Global, prime: Prime, width: u16) -> Result<Matrix, NoMemory>
        ensures { IfOk result (λ m. m ≡ record { prime = prime_value prime; width = width; rows = replicate width (zeros width) }) }
    {
        Ok(Matrix {
            prime,
            width,
            rows: zero_rows(alloc, prime, width)?,
        })
    }

    /// Replaces the row of a number, counted from 1.
    pub fn set_row(&mut self, number: u16, row: &Row)
        requires first { 1 ≤ number }
        requires last { number ≤ self.old.width }
        requires prime { row.now.prime ≡ self.old.prime }
        requires width { length row.now.entries ≡ self.old.width }
        ensures { self.new ≡ record self.old { rows = slice_set self.old.rows (number - 1) row.now.entries } }
    {
        let _width = row.width();
        self.rows[number as usize - 1].copy_from(row);
    }

    /// The row of a number, counted from 1.
    pub fn row(&self, number: u16) -> &Row
        requires first { 1 ≤ number }
        requires last { number ≤ self.now.width }
        ensures row { result.now ≡ record { prime = self.now.prime; entries = get_or self.now.rows (number - 1) [] } }
        ensures matrix { IsMatrix self.now }
    {
        &self.rows[number as usize - 1]
    }

    /// Makes `out` the row times the matrix.
    pub fn apply(&self, row: &Row, out: &mut Row)
        requires prime { row.now.prime ≡ self.now.prime }
        requires width { length row.now.entries ≡ self.now.width }
        requires out_prime { out.old.prime ≡ self.now.prime }
        requires out_width { length out.old.entries ≡ self.now.width }
        ensures out { out.new ≡ record out.old { entries = times_matrix self.now.prime self.now.width self.now.rows row.now.entries } }
        ensures matrix { IsMatrix self.now }
    {
        out.clear();
        add_multiples(&self.rows, row, out);
    }
}

fn zero_rows(alloc: Global, prime: Prime, width: u16) -> Result<Vec<Row>, NoMemory>
    ensures { IfOk result (λ rows. rows.items ≡ replicate width (record { prime = prime_value prime; entries = zeros width })) }
{
    let mut rows = Vec::with_capacity(alloc, width as usize)?;
    for _number in 0..width {
        rows.push(Row::zero(alloc, prime, width)?)?;
    }
    Ok(rows)
}

// Adds to the zero row `out` each of the rows times the entry of `row` at its place.
fn add_multiples(rows: &[Row], row: &Row, out: &mut Row)
    requires rows { HoldsMatrix row.now.prime (length row.now.entries) rows.now }
    requires zero { out.old ≡ record { prime = row.now.prime; entries = zeros (length row.now.entries) } }
    ensures { out.new
        ≡ record {
          prime = row.now.prime;
          entries = times_matrix row.now.prime (length row.now.entries) (entries_of rows.now) row.now.entries;
        } }
{
    for place in 0..row.width() {
        let k = row.get(place + 1);
        if k != 0 {
            out.add_scaled(&rows[place as usize], k);
        }
    }
}
