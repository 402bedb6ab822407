//! The row of a relator.

ghost use Rattle.std.specs.Prelude.{◌≡◌, ◌↔◌, ◌<◌, length, [], IsTrue, IsFalse};
ghost use Rattle.pq_base.specs.SignedWord.{sub, HasLetters};
ghost use Rattle.pq_base.specs.Joined.{Joined, IsConsistent};
ghost use Rattle.pq_base.specs.Answer.{image_words};
ghost use Rattle.pq_base.specs.Elementary.{zeros};
ghost use Rattle.pc_presentation.specs.Rowed.{flat};
ghost use Rattle.pc_presentation.specs.Tailed.{rowed_presentation};
ghost use Rattle.pc_presentation.specs.Scratch.{IsScratch};
ghost use Rattle.p_cover.specs.RowedAnswer.{rowed_images, tails_word};
ghost use Rattle.p_cover.specs.Covers.{cover_presentation, rowed_cover};
ghost use Rattle.p_cover.specs.Images.{AreLifted};
ghost use Rattle.p_cover.specs.ImageValues.{value_under};

use fp_rows::Row;
use free_words::Word;
use p_cover::{Cover, Images};
use pc_presentation::{Collect, Elem, Scratch, value};

/// Whether the value of a word in a cover, under the images, lies in the tails alone. If so the row becomes the tails of
/// that value, and otherwise zero. The word is taken as it is spelled, and nothing in it cancels. Takes no memory.
pub fn relator_row<C: Collect>(
    s: &mut Scratch<C>,
    cover: &Cover,
    images: &Images,
    word: &Word,
    row: &mut Row,
) -> bool
    requires scratch { IsScratch (cover_presentation cover.now) s.old }
    requires images { AreLifted cover.now (C.meaning (rowed_presentation (cover_presentation cover.now))) images.now }
    requires letters { HasLetters (length cover.now.answer.names) word.now }
    requires prime { row.old.prime ≡ cover.now.answer.presentation.prime }
    requires width { length row.old.entries ≡ length cover.now.sources }
    ensures scratch { IsScratch (cover_presentation cover.now) s.new }
    ensures prime { row.new.prime ≡ row.old.prime }
    ensures width { length row.new.entries ≡ length row.old.entries }
    ensures decided { let Y = rowed_presentation (cover_presentation cover.now) in
        IsTrue result ↔ (value_under cover.now (C.meaning Y) images.now word.now).exponents ≡ zeros Y.base.rank }
    ensures row { let Y = rowed_presentation (cover_presentation cover.now) in
        IsTrue result → row.new.entries ≡ (value_under cover.now (C.meaning Y) images.now word.now).row }
    ensures zero { IsFalse result → row.new.entries ≡ zeros (length row.old.entries) }
    ensures joined { IsTrue result → Joined (flat (rowed_presentation (cover_presentation cover.now)))
        (sub word.now (rowed_images (rowed_cover cover.now))) (tails_word (rowed_cover cover.now) row.new.entries) }
    ensures killed { IsConsistent cover.now.answer.presentation
        → (IsTrue result ↔ Joined cover.now.answer.presentation (sub word.now (image_words cover.now.answer)) []) }
{
    value(
        s,
        cover.pcp(),
        word.letters(),
        images.elements(),
        images.inverses(),
    );
    take_tails(s.left(), row)
}

/// Whether an element lies in the tails alone. If so the row becomes its tails, and otherwise zero.
pub(crate) fn take_tails(element: &Elem, row: &mut Row) -> bool
    requires prime { row.old.prime ≡ element.now.prime }
    requires width { length row.old.entries ≡ length element.now.state.row }
    ensures prime { row.new.prime ≡ row.old.prime }
    ensures width { length row.new.entries ≡ length row.old.entries }
    ensures decided { IsTrue result ↔ element.now.state.exponents ≡ zeros (length element.now.state.exponents) }
    ensures row { IsTrue result → row.new.entries ≡ element.now.state.row }
    ensures zero { IsFalse result → row.new.entries ≡ zeros (length row.old.entries) }
{
    let in_tails = are_zeros(element.exponents());
    if in_tails {
        row.copy_from(element.tail());
    } else {
        row.clear();
    }
    in_tails
}

/// Whether each exponent is 0.
fn are_zeros(exponents: &[u8]) -> bool
    ensures { IsTrue result ↔ exponents.now ≡ zeros (length exponents.now) }
{
    exponents.iter().all(|exponent| *exponent == 0)
}
