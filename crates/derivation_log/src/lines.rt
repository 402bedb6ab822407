//! Lines of certificates out of bases.

ghost use Rattle.std.specs.Prelude.{◌≡◌, ◌≤◌, ◌++◌, ◌-◌, get_or, length, IfOk, OnOk};
ghost use Rattle.pq_base.specs.Canonical.{numbers_from};
ghost use Rattle.fp_rows.specs.Row.{at_column, IsColumn};
ghost use Rattle.fp_echelon.specs.Reduced.{IsPivot};
ghost use Rattle.derivation_log.specs.HeldSteps.{told_step};
ghost use Rattle.derivation_log.specs.HeldLines.{pair_unless_zero, pairs_of, kept_coefficient, tail_line, tail_lines, held_lines, IsTold};

use crate::source::RowSource;
use crate::step_lines::CertStep;
use crate::tail_line::CertTail;
use fp_echelon::Basis;
use fp_rows::Row;
use pq_base::{NoMemory, Path};
use std::alloc::Global;

/// The lines of a step: its sources, and the tails that its basis eliminates.
pub(crate) fn told_lines(
    alloc: Global,
    sources: &[RowSource],
    basis: &Basis,
) -> Result<CertStep, NoMemory>
    requires { length sources.now ≡ length basis.now.added }
    ensures lines { IfOk result (λ step. step ≡ held_lines (told_step sources.now basis.now)) }
    ensures told { IsTold (told_step sources.now basis.now) }
{
    let _width = basis.width();
    let _rank = basis.rank();
    let sources = sources_copied(alloc, sources)?;
    let tails = tail_lines(alloc, basis)?;
    Ok(CertStep::of(sources, tails))
}

/// Copies of sources.
fn sources_copied(alloc: Global, sources: &[RowSource]) -> Result<Vec<RowSource>, NoMemory>
    ensures { IfOk result (λ v. v.items ≡ sources.now) }
{
    let mut copies = Vec::new(alloc);
    for source in sources {
        copies.push(source_copied(alloc, source)?)?;
    }
    Ok(copies)
}

/// A copy of a source.
fn source_copied(alloc: Global, source: &RowSource) -> Result<RowSource, NoMemory>
    ensures { IfOk result (λ copy. copy ≡ source.now) }
{
    match source {
        RowSource::Test(overlap) => Ok(RowSource::Test(*overlap)),
        RowSource::Fixed(relator) => Ok(RowSource::Fixed(*relator)),
        RowSource::Iterated(relator, path) => {
            let path = Path::of(alloc, path.numbers())?;
            Ok(RowSource::Iterated(*relator, path))
        }
    }
}

/// A line for each pivot of a basis, rising.
fn tail_lines(alloc: Global, basis: &Basis) -> Result<Vec<CertTail>, NoMemory>
    ensures { IfOk result (λ v. v.items ≡ tail_lines basis.now.prime basis.now.width basis.now.rows) }
{
    let mut lines = Vec::new(alloc);
    for c in 0..basis.width() {
        if basis.is_pivot(c + 1) {
            lines.push(tail_line(alloc, basis, c + 1)?)?;
        }
    }
    Ok(lines)
}

/// The line of a pivot: minus the other entries of its row, and the coefficients of the row.
fn tail_line(alloc: Global, basis: &Basis, tail: u16) -> Result<CertTail, NoMemory>
    requires { IsPivot tail basis.now.rows }
    ensures { IfOk result (λ line. line ≡ tail_line basis.now.prime basis.now.rows tail) }
{
    let _rank = basis.rank();
    let kept = kept_pairs(alloc, basis.row(tail), tail)?;
    let sums = nonzero_pairs(alloc, basis.coefficients(tail))?;
    Ok(CertTail::of(tail, kept, sums))
}

/// Minus the entries of a row that aren't 0, with their columns, but for the pivot's.
fn kept_pairs(alloc: Global, row: &Row, pivot: u16) -> Result<Vec<(u16, u8)>, NoMemory>
    ensures { IfOk result (λ v. v.items
        ≡ pairs_of (kept_coefficient row.now.prime pivot row.now.entries) (numbers_from 1 (length row.now.entries))) }
{
    let mut pairs = Vec::new(alloc);
    for c in 0..row.width() {
        push_pair(&mut pairs, c + 1, kept_coefficient(row, pivot, c + 1))?;
    }
    Ok(pairs)
}

/// Minus the entry of a row at a column other than the pivot's.
fn kept_coefficient(row: &Row, pivot: u16, column: u16) -> u8
    requires { IsColumn row.now.entries column }
    ensures { result ≡ kept_coefficient row.now.prime pivot row.now.entries column }
{
    let prime = row.prime().value();
    if column == pivot {
        0
    } else {
        (prime - row.get(column)) % prime
    }
}

/// The coefficients that aren't 0, with their places, counted from 1.
fn nonzero_pairs(alloc: Global, coefficients: &[u8]) -> Result<Vec<(u16, u8)>, NoMemory>
    requires { length coefficients.now ≤ 65535 }
    ensures { IfOk result (λ v. v.items ≡ pairs_of (at_column coefficients.now) (numbers_from 1 (length coefficients.now))) }
{
    let mut pairs = Vec::new(alloc);
    for k in 0..coefficients.len() {
        push_pair(&mut pairs, k as u16 + 1, coefficients[k])?;
    }
    Ok(pairs)
}

/// Puts a number with its coefficient at the end, unless that is 0.
fn push_pair(pairs: &mut Vec<(u16, u8)>, number: u16, coefficient: u8) -> Result<(), NoMemory>
    ensures { OnOk result (pairs.new.items ≡ pairs.old.items ++ pair_unless_zero number coefficient) }
{
    if coefficient != 0 {
        pairs.push((number, coefficient))?;
    }
    Ok(())
}
