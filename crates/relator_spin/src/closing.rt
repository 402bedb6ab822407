//! The closure of a span under matrices.

ghost use Rattle.std.specs.Prelude.{◌≡◌, ◌≤◌, ◌<◌, ◌^◌, ◌++◌, [], ℕ, List, IfOk, length, get_or};
ghost use Rattle.fp_echelon.specs.Span.{AreRows, InSpan, EachInSpan};
ghost use Rattle.fp_echelon.specs.Basis.{IsBasis};
ghost use Rattle.fp_echelon.specs.Matrix.{entries_of};
ghost use Rattle.pq_base.specs.LPresentation.{AreEndoNumbers};
ghost use Rattle.relator_spin.specs.Closure.{AreOver, AreMatricesOver, IsClosed, AreNames, spun_rows, row_along, HasMorePivots};

use crate::spun::Spun;
use crate::work::Work;
use fp_echelon::{Basis, Matrix};
use fp_rows::Row;
use pq_base::NoMemory;
use std::alloc::Global;

/// Adds rows and all their images under products of matrices to a basis, whose span each matrix carries into itself.
///
/// The new rows come after those of the basis, and there is a name for each of them, in the order in which they came. The span is
/// then the least that holds the old one and the rows, and that each matrix carries into itself. All memory for rows is taken at
/// first. The basis is dropped where there is no memory.
pub fn close(
    alloc: Global,
    basis: Basis,
    rows: &[Row],
    matrices: &[Matrix],
) -> Result<(Basis, Vec<Spun>), NoMemory>
    requires rows { AreOver basis.prime basis.width rows.now }
    requires matrices { AreMatricesOver basis.prime basis.width matrices.now }
    requires few_rows { length rows.now < 2 ^ 32 }
    requires few_matrices { length matrices.now ≤ 255 }
    requires closed { IsClosed basis.prime basis.width matrices.now basis.added }
    ensures basis { IfOk result (λ r. IsBasis r.0) }
    ensures prime { IfOk result (λ r. r.0.prime ≡ basis.prime) }
    ensures width { IfOk result (λ r. r.0.width ≡ basis.width) }
    ensures added { IfOk result (λ r. r.0.added ≡ basis.added ++ spun_rows basis.prime basis.width rows.now matrices.now r.1.items) }
    ensures names { IfOk result (λ r. AreNames (length rows.now) (length matrices.now) r.1.items) }
    ensures pivots { IfOk result (λ r. HasMorePivots basis.rows r.0.rows (length r.1.items)) }
    ensures rows { IfOk result (λ r. EachInSpan basis.prime basis.width r.0.added (entries_of rows.now)) }
    ensures closed { IfOk result (λ r. IsClosed basis.prime basis.width matrices.now r.0.added) }
    ensures images { IfOk result (λ r. (i : ℕ) → i < length rows.now → (s : List ℕ) → AreEndoNumbers (length matrices.now) s
        → InSpan basis.prime basis.width r.0.added (row_along basis.prime basis.width matrices.now s (get_or (entries_of rows.now) i []))) }
    ensures least { IfOk result (λ r. (others : List (List ℕ)) → AreRows basis.prime basis.width others
        → EachInSpan basis.prime basis.width others basis.added → EachInSpan basis.prime basis.width others (entries_of rows.now)
        → IsClosed basis.prime basis.width matrices.now others → EachInSpan basis.prime basis.width others r.0.added) }
{
    let mut basis = basis;
    let older = basis.rank();
    basis.reserve(basis.width() - older)?;
    let image = Row::zero(alloc, basis.prime(), basis.width())?;
    let mut work = Work {
        older,
        basis,
        spun: Vec::new(alloc),
        image,
    };
    work.take_rows(alloc, rows)?;
    work.take_images(alloc, matrices)?;
    Ok((work.basis, work.spun))
}
