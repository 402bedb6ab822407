//! Insertions where there is room for all rows that can be added.

ghost use Rattle.std.specs.Prelude.{◌≡◌, ◌≤◌, ◌+◌, [], ◌∷◌, ◌++◌, ℕ, false, IsTrue, length};
ghost use Rattle.fp_echelon.specs.Span.{InSpan};
ghost use Rattle.fp_echelon.specs.Reduced.{pivots_of};
ghost use Rattle.fp_echelon.specs.Basis.{IsBasis};

use fp_echelon::{Basis, Insertion};
use fp_rows::Row;

/// Inserts a row, and says whether it was added. Without room for one more row there are as many as columns, so the row is in the
/// span. Takes no memory.
pub(crate) fn insert_within(basis: &mut Basis, row: &Row) -> bool
    requires prime { row.now.prime ≡ basis.old.prime }
    requires width { length row.now.entries ≡ basis.old.width }
    requires room { basis.old.width ≤ length basis.old.added + basis.old.spare }
    ensures basis { IsBasis basis.new }
    ensures prime { basis.new.prime ≡ basis.old.prime }
    ensures width { basis.new.width ≡ basis.old.width }
    ensures room { length basis.new.added + basis.new.spare ≡ length basis.old.added + basis.old.spare }
    ensures in_span { InSpan basis.old.prime basis.old.width basis.new.added row.now.entries }
    ensures added { IsTrue result → basis.new.added ≡ basis.old.added ++ row.now.entries ∷ [] }
    ensures pivot { IsTrue result → (c : ℕ) × (pivots_of basis.new.rows ≡ pivots_of basis.old.rows ++ c ∷ []) }
    ensures unchanged { result ≡ false → basis.new ≡ basis.old }
{
    let _basis = basis.rank();
    let _width = row.width();
    if basis.spare() == 0 {
        return false;
    }
    match basis.insert(row) {
        Insertion::Added(_column) => true,
        Insertion::Dependent => false,
    }
}
