//! The rows of overlaps.

ghost use Rattle.std.specs.Prelude.{◌≡◌, ◌↔◌, ◌-◌, [], length, IsTrue, IsFalse};
ghost use Rattle.pq_base.specs.Elementary.{zeros};
ghost use Rattle.pq_base.specs.Joined.{Joined, IsConsistent};
ghost use Rattle.pq_base.specs.Presentation.{word_from};
ghost use Rattle.pc_presentation.specs.Rowed.{flat};
ghost use Rattle.pc_presentation.specs.OverlapNumbers.{AreOverlapNumbers, overlap_of};
ghost use Rattle.pc_presentation.specs.Scratch.{IsScratch};
ghost use Rattle.pc_presentation.specs.Tailed.{rowed_presentation};
ghost use Rattle.p_cover.specs.Covers.{cover_presentation};
ghost use Rattle.fp_rows.specs.Differences.{difference};
ghost use Rattle.pc_presentation.specs.OverlapRows.{ExponentsAgree, overlap_row};

use fp_rows::Row;
use p_cover::Cover;
use pc_presentation::{Collect, Elem, Overlap, Scratch, two_ways};

/// Whether both ways of an overlap reach the same exponents in a cover. Then the row is the tails of the left way minus those
/// of the right way; else it is zero. The row has the cover's prime and a column for each tail. It takes no memory.
///
/// In the cover the word of the row is trivial, also where the cover is not consistent. Over another collector the row may be
/// another one.
pub fn row<C: Collect>(s: &mut Scratch<C>, cover: &Cover, test: Overlap, row: &mut Row) -> bool
    requires scratch { IsScratch (cover_presentation cover.now) s.old }
    requires overlap { AreOverlapNumbers cover.now.answer.presentation.rank test }
    requires prime { row.old.prime ≡ cover.now.answer.presentation.prime }
    requires width { length row.old.entries ≡ length cover.now.sources }
    ensures scratch { IsScratch (cover_presentation cover.now) s.new }
    ensures prime { row.new.prime ≡ cover.now.answer.presentation.prime }
    ensures width { length row.new.entries ≡ length cover.now.sources }
    ensures agrees { let Y = rowed_presentation (cover_presentation cover.now) in
        IsTrue result ↔ ExponentsAgree Y (C.meaning Y) (overlap_of test) }
    ensures difference { let Y = rowed_presentation (cover_presentation cover.now) in
        IsTrue result → row.new.entries ≡ overlap_row Y (C.meaning Y) (overlap_of test) }
    ensures zero { IsFalse result → row.new.entries ≡ zeros (length cover.now.sources) }
    ensures trivial { let Y = rowed_presentation (cover_presentation cover.now) in
        IsTrue result → Joined (flat Y) (word_from Y.base.rank row.new.entries) [] }
    ensures consistent { IsConsistent cover.now.answer.presentation → IsTrue result }
{
    two_ways(s, cover.pcp(), test);
    let left = s.left();
    let right = s.right();
    subtract_if_alike(row, left, right)
}

/// Whether two elements have the same exponents. Then the row is the tails of the first minus those of the second; else it
/// is zero.
fn subtract_if_alike(row: &mut Row, left: &Elem, right: &Elem) -> bool
    requires left_prime { left.now.prime ≡ row.old.prime }
    requires left_width { length left.now.state.row ≡ length row.old.entries }
    requires right_prime { right.now.prime ≡ row.old.prime }
    requires right_width { length right.now.state.row ≡ length row.old.entries }
    ensures alike { IsTrue result ↔ left.now.state.exponents ≡ right.now.state.exponents }
    ensures difference { IsTrue result
        → row.new ≡ record row.old { entries = difference row.old.prime left.now.state.row right.now.state.row } }
    ensures zero { IsFalse result → row.new ≡ record row.old { entries = zeros (length row.old.entries) } }
{
    if left.exponents() != right.exponents() {
        row.clear();
        return false;
    }
    row.copy_from(left.tail());
    row.add_scaled(right.tail(), row.prime().value() - 1);
    true
}
