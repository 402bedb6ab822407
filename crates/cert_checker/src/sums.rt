//! Whether tails are sums of the rows of a step.

ghost use Rattle.std.specs.Prelude.{◌≡◌, ◌↔◌, ◌<◌, length, All, IfOk, IsTrue};
ghost use Rattle.pq_base.specs.Elementary.{zeros};
ghost use Rattle.fp_rows.specs.Row.{IsColumn};
ghost use Rattle.fp_rows.specs.Rows.{add_rows};
ghost use Rattle.fp_echelon.specs.Span.{combine};
ghost use Rattle.derivation_log.specs.CertificateRuns.{row_of_pairs};
ghost use Rattle.derivation_log.specs.CertificateParts.{IsSumOfRows};
ghost use Rattle.cert_checker.specs.StepRows.{IsRowFor, IsAlike, entries_of};
ghost use Rattle.cert_checker.specs.SumLines.{ArePairs, IsLineOver, raised};

use crate::rows::zero_row;
use derivation_log::CertTail;
use fp_rows::Row;
use p_cover::Cover;
use pq_base::NoMemory;
use std::alloc::Global;

/// Whether each line is a sum of rows in a cover.
pub(crate) fn are_sums(
    alloc: Global,
    cover: &Cover,
    rows: &[Row],
    lines: &[CertTail],
) -> Result<bool, NoMemory>
    requires rows { All (IsRowFor cover.now) rows.now }
    requires lines { All (IsLineOver cover.now.answer.presentation.prime (length rows.now)) lines.now }
    ensures { IfOk result (λ all. IsTrue all ↔ All (IsSumOfRows cover.now (entries_of rows.now)) lines.now) }
{
    let mut sum = zero_row(alloc, cover)?;
    for line in lines {
        if !is_sum(cover, rows, line, &mut sum) {
            return Ok(false);
        }
    }
    Ok(true)
}

/// Whether a line is a sum of rows in a cover: the sum, with the tails that the line keeps added and its own tail taken away, is zero.
/// `sum` is written over.
fn is_sum(cover: &Cover, rows: &[Row], line: &CertTail, sum: &mut Row) -> bool
    requires rows { All (IsRowFor cover.now) rows.now }
    requires line { IsLineOver cover.now.answer.presentation.prime (length rows.now) line.now }
    requires sum { IsRowFor cover.now sum.old }
    ensures sum { IsRowFor cover.now sum.new }
    ensures decided { IsTrue result ↔ IsSumOfRows cover.now (entries_of rows.now) line.now }
{
    if line.tail() > cover.tails() {
        return false;
    }
    sum.clear();
    add_multiples(rows, line.sums(), sum);
    add_entries(line.kept(), sum);
    raise(sum, line.tail(), sum.prime().value() - 1);
    sum.is_zero()
}

/// Adds rows to zeros, each times its coefficient. They are numbered from 1.
fn add_multiples(rows: &[Row], pairs: &[(u16, u8)], sum: &mut Row)
    requires sum { IsAlike sum.old sum.old }
    requires rows { All (IsAlike sum.old) rows.now }
    requires pairs { ArePairs sum.old.prime 1 (length rows.now) pairs.now }
    requires zero { sum.old.entries ≡ zeros (length sum.old.entries) }
    ensures row { IsAlike sum.old sum.new }
    ensures sum { sum.new ≡ record sum.old {
      entries = combine sum.old.prime (length sum.old.entries) (row_of_pairs (length rows.now) pairs.now) (entries_of rows.now);
    } }
{
    for pair in pairs {
        sum.add_scaled(&rows[pair.0 as usize - 1], pair.1);
    }
}

/// Adds coefficients at their columns, counted from 1.
fn add_entries(pairs: &[(u16, u8)], row: &mut Row)
    requires row { IsAlike row.old row.old }
    requires pairs { ArePairs row.old.prime 1 (length row.old.entries) pairs.now }
    ensures row { IsAlike row.old row.new }
    ensures sum { row.new ≡ record row.old {
      entries = add_rows row.old.prime row.old.entries (row_of_pairs (length row.old.entries) pairs.now);
    } }
{
    for pair in pairs {
        raise(row, pair.0, pair.1);
    }
}

/// Adds a residue at a column.
fn raise(row: &mut Row, column: u16, k: u8)
    requires column { IsColumn row.old.entries column }
    requires residue { k < row.old.prime }
    requires row { IsAlike row.old row.old }
    ensures row { IsAlike row.old row.new }
    ensures raised { row.new ≡ record row.old { entries = raised row.old.prime row.old.entries column k } }
{
    let entry = row.prime().add(row.get(column), k);
    row.set(column, entry);
    let _row = row.width();
}
