//! The kept columns of a basis, and what becomes of a tail: a combination of the kept ones.

ghost use Rattle.std.specs.Prelude.{◌≡◌, ◌≤◌, ◌-◌, [], map, get_or, length, All, IfOk};
ghost use Rattle.pq_base.specs.Limits.{max_rank};
ghost use Rattle.fp_rows.specs.Row.{at_column, IsColumn};
ghost use Rattle.fp_echelon.specs.Reduction.{negative};
ghost use Rattle.pc_presentation.specs.Syllable.{syllables_of};
ghost use Rattle.cover_quotient.specs.Kept.{kept_columns, kept_rows, kept_combinations};

use cover_quotient::Combinations;
use cover_quotient::kept_words::{push_power, unit_word};
use fp_echelon::Basis;
use fp_rows::Row;
use pc_presentation::Syllable;
use pq_base::NoMemory;
use std::alloc::Global;

/// The columns without a pivot, counted from 1, in rising order.
pub(crate) fn kept_columns(alloc: Global, basis: &Basis) -> Result<Vec<u16>, NoMemory>
    ensures { IfOk result (λ v. v.items ≡ kept_columns basis.now.width basis.now.rows) }
{
    let mut kept = Vec::new(alloc);
    for c in 0..basis.width() {
        if !basis.is_pivot(c + 1) {
            kept.push(c + 1)?;
        }
    }
    Ok(kept)
}

/// What the tails become: a kept tail itself, and one with a pivot minus the other entries of its row of the basis.
pub(crate) fn kept_combinations(
    alloc: Global,
    basis: &Basis,
    kept: Vec<u16>,
) -> Result<Combinations, NoMemory>
    requires kept { kept.items ≡ kept_columns basis.now.width basis.now.rows }
    requires limit { length kept.items ≤ max_rank }
    ensures { IfOk result (λ k. k ≡ kept_combinations basis.now.prime basis.now.width basis.now.rows) }
{
    let mut combinations = Combinations::new(alloc, basis.prime(), kept);
    for t in 0..basis.width() {
        let word = word_of_tail(alloc, basis, combinations.kept(), t + 1)?;
        combinations.push(word)?;
    }
    Ok(combinations)
}

/// The word in the kept tails that a tail becomes.
fn word_of_tail(
    alloc: Global,
    basis: &Basis,
    kept: &[u16],
    tail: u16,
) -> Result<Vec<Syllable>, NoMemory>
    requires kept { kept.now ≡ kept_columns basis.now.width basis.now.rows }
    requires limit { length kept.now ≤ max_rank }
    requires first { 1 ≤ tail }
    requires last { tail ≤ basis.now.width }
    ensures { IfOk result (λ v. v.items
        ≡ syllables_of 0 (get_or (kept_rows basis.now.prime basis.now.width basis.now.rows) (tail - 1) [])) }
{
    let _conditions = basis.width();
    if basis.is_pivot(tail) {
        negated_entries(alloc, kept, basis.row(tail))
    } else {
        unit_word(alloc, kept, tail)
    }
}

/// Minus the entries of a row at the kept columns.
fn negated_entries(alloc: Global, kept: &[u16], row: &Row) -> Result<Vec<Syllable>, NoMemory>
    requires limit { length kept.now ≤ max_rank }
    requires columns { All (IsColumn row.now.entries) kept.now }
    ensures { IfOk result (λ v. v.items ≡ syllables_of 0 (map (λ c. negative row.now.prime (at_column row.now.entries c)) kept.now)) }
{
    let mut word = Vec::new(alloc);
    for k in 0..kept.len() {
        push_power(&mut word, k as u16 + 1, negated(row, kept[k]))?;
    }
    Ok(word)
}

/// Minus an entry of a row.
fn negated(row: &Row, column: u16) -> u8
    requires { IsColumn row.now.entries column }
    ensures { result ≡ negative row.now.prime (at_column row.now.entries column) }
{
    let prime = row.prime().value();
    (prime - row.get(column)) % prime
}
