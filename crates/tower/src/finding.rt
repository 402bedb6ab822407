//! Finding the row of a relator in a cover.

ghost use Rattle.std.specs.Prelude.{◌≡◌, [], length};
ghost use Rattle.pq_base.specs.SignedWord.{sub, HasLetters};
ghost use Rattle.pq_base.specs.LPresentation.{along as carried, AreEndoNumbers};
ghost use Rattle.pq_base.specs.Joined.{Joined, IsConsistent};
ghost use Rattle.pq_base.specs.Answer.{image_words};
ghost use Rattle.pc_presentation.specs.Scratch.{IsScratch};
ghost use Rattle.pc_presentation.specs.Tailed.{rowed_presentation};
ghost use Rattle.p_cover.specs.Covers.{cover_presentation};
ghost use Rattle.p_cover.specs.Images.{AreLifted};
ghost use Rattle.epimorphism.specs.Rooms.{IsWork};
ghost use Rattle.derivation_log.specs.RowSources.{IsRowAlong, IsRowOf};
ghost use Rattle.tower.specs.NamedParts.{IsNamedSource, DiesIn};

use derivation_log::RowSource;
use epimorphism::{Work, relator_row, row_along};
use fp_rows::Row;
use free_words::Word;
use lpres_reader::LPres;
use p_cover::{Cover, Images};
use pc_presentation::{Collect, Scratch};

/// Finds the row of a relator, which dies in the consistent answer that is covered. Takes no memory.
pub(crate) fn find_row<C: Collect>(
    s: &mut Scratch<C>,
    work: &mut Work,
    cover: &Cover,
    images: &Images,
    pres: &LPres,
    source: &RowSource,
    row: &mut Row,
)
    requires consistent { IsConsistent cover.now.answer.presentation }
    requires scratch { IsScratch (cover_presentation cover.now) s.old }
    requires work { IsWork cover.now work.old }
    requires images { AreLifted cover.now (C.meaning (rowed_presentation (cover_presentation cover.now))) images.now }
    requires names { cover.now.answer.names ≡ pres.now.names }
    requires named { IsNamedSource pres.now source.now }
    requires killed { DiesIn pres.now cover.now.answer source.now }
    requires prime { row.old.prime ≡ cover.now.answer.presentation.prime }
    requires width { length row.old.entries ≡ length cover.now.sources }
    ensures scratch { IsScratch (cover_presentation cover.now) s.new }
    ensures work { IsWork cover.now work.new }
    ensures prime { row.new.prime ≡ row.old.prime }
    ensures width { length row.new.entries ≡ length row.old.entries }
    ensures row { IsRowOf pres.now cover.now (C.meaning (rowed_presentation (cover_presentation cover.now))) source.now row.new.entries }
{
    let _names = pres.names();
    match source {
        RowSource::Test(_overlap) => unreachable!(),
        RowSource::Fixed(number) => {
            let word = &pres.fixed()[*number as usize - 1];
            find_along(s, work, cover, images, pres, &[], word, row);
        }
        RowSource::Iterated(number, path) => {
            let word = &pres.iterated()[*number as usize - 1];
            find_along(s, work, cover, images, pres, path.numbers(), word, row);
        }
    }
}

/// Finds the row of a word along a path. The word along the path dies in the consistent answer that is covered.
fn find_along<C: Collect>(
    s: &mut Scratch<C>,
    work: &mut Work,
    cover: &Cover,
    images: &Images,
    pres: &LPres,
    along: &[u8],
    word: &Word,
    row: &mut Row,
)
    requires consistent { IsConsistent cover.now.answer.presentation }
    requires scratch { IsScratch (cover_presentation cover.now) s.old }
    requires work { IsWork cover.now work.old }
    requires images { AreLifted cover.now (C.meaning (rowed_presentation (cover_presentation cover.now))) images.now }
    requires generators { length pres.now.names ≡ length cover.now.answer.names }
    requires numbers { AreEndoNumbers (length pres.now.endos) along.now }
    requires letters { HasLetters (length cover.now.answer.names) word.now }
    requires killed { Joined cover.now.answer.presentation
        (sub (carried pres.now.endos along.now word.now) (image_words cover.now.answer)) [] }
    requires prime { row.old.prime ≡ cover.now.answer.presentation.prime }
    requires width { length row.old.entries ≡ length cover.now.sources }
    ensures scratch { IsScratch (cover_presentation cover.now) s.new }
    ensures work { IsWork cover.now work.new }
    ensures prime { row.new.prime ≡ row.old.prime }
    ensures width { length row.new.entries ≡ length row.old.entries }
    ensures row { let push = C.meaning (rowed_presentation (cover_presentation cover.now)) in
        IsRowAlong pres.now.endos cover.now push along.now word.now row.new.entries }
{
    if along.is_empty() {
        let _found = relator_row(s, cover, images, word, row);
    } else {
        let _found = row_along(s, work, cover, images, pres, along, word, row);
    }
}
