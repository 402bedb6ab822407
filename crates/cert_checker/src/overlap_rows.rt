//! The rows of overlaps by the plain rule.

ghost use Rattle.std.specs.Prelude.{◌≡◌, ◌↔◌, length, IsTrue};
ghost use Rattle.fp_rows.specs.Differences.{difference};
ghost use Rattle.pc_presentation.specs.Collection.{plain_push};
ghost use Rattle.pc_presentation.specs.OverlapNumbers.{AreOverlapNumbers, overlap_of};
ghost use Rattle.pc_presentation.specs.OverlapRows.{ExponentsAgree, overlap_row};
ghost use Rattle.pc_presentation.specs.Scratch.{IsScratch};
ghost use Rattle.pc_presentation.specs.Tailed.{rowed_presentation};
ghost use Rattle.p_cover.specs.Covers.{cover_presentation};

use fp_rows::Row;
use p_cover::Cover;
use pc_presentation::{Elem, Overlap, Scratch, two_ways};
use plain_collector::Plain;

/// Whether both ways of an overlap reach the same exponents in a cover. If so the row becomes the tails of the left way minus those of
/// the right way. Takes no memory.
pub(crate) fn overlap_row(
    s: &mut Scratch<Plain>,
    cover: &Cover,
    overlap: Overlap,
    row: &mut Row,
) -> bool
    requires scratch { IsScratch (cover_presentation cover.now) s.old }
    requires overlap { AreOverlapNumbers cover.now.answer.presentation.rank overlap }
    requires prime { row.old.prime ≡ cover.now.answer.presentation.prime }
    requires width { length row.old.entries ≡ length cover.now.sources }
    ensures scratch { IsScratch (cover_presentation cover.now) s.new }
    ensures prime { row.new.prime ≡ row.old.prime }
    ensures width { length row.new.entries ≡ length row.old.entries }
    ensures agrees { let Y = rowed_presentation (cover_presentation cover.now) in
        IsTrue result ↔ ExponentsAgree Y (plain_push Y) (overlap_of overlap) }
    ensures row { let Y = rowed_presentation (cover_presentation cover.now) in
        IsTrue result → row.new.entries ≡ overlap_row Y (plain_push Y) (overlap_of overlap) }
{
    two_ways(s, cover.pcp(), overlap);
    subtract_if_alike(s.left(), s.right(), row)
}

/// Whether two elements have the same exponents. If so the row becomes the tails of the first minus those of the second.
fn subtract_if_alike(left: &Elem, right: &Elem, row: &mut Row) -> bool
    requires left_prime { left.now.prime ≡ row.old.prime }
    requires left_width { length left.now.state.row ≡ length row.old.entries }
    requires right_prime { right.now.prime ≡ row.old.prime }
    requires right_width { length right.now.state.row ≡ length row.old.entries }
    ensures prime { row.new.prime ≡ row.old.prime }
    ensures width { length row.new.entries ≡ length row.old.entries }
    ensures alike { IsTrue result ↔ left.now.state.exponents ≡ right.now.state.exponents }
    ensures row { IsTrue result → row.new.entries ≡ difference row.old.prime left.now.state.row right.now.state.row }
{
    let alike = left.exponents() == right.exponents();
    if alike {
        row.copy_from(left.tail());
        row.add_scaled(right.tail(), row.prime().value() - 1);
    }
    alike
}
