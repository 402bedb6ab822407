//! The row of one source in a cover by the plain rule.

ghost use Rattle.std.specs.Prelude.{◌≡◌, ◌↔◌, ℕ, List, length, IsTrue};
ghost use Rattle.pq_base.specs.SignedWord.{HasLetters};
ghost use Rattle.pq_base.specs.LPresentation.{AreEndoNumbers};
ghost use Rattle.pc_presentation.specs.Collection.{plain_push};
ghost use Rattle.pc_presentation.specs.Tailed.{rowed_presentation};
ghost use Rattle.pc_presentation.specs.OverlapNumbers.{AreOverlapNumbers, overlap_of};
ghost use Rattle.pc_presentation.specs.OverlapRows.{ExponentsAgree};
ghost use Rattle.p_cover.specs.Covers.{cover_presentation};
ghost use Rattle.derivation_log.specs.RowSources.{IsRowOf, IsRowOfOverlap, IsRowAlong};
ghost use Rattle.derivation_log.specs.CertificateParts.{HasPlainRow};
ghost use Rattle.cert_checker.specs.StepRows.{AreToolsFor, NamesRelator};

use crate::overlap_rows::overlap_row;
use crate::tools::Tools;
use derivation_log::RowSource;
use epimorphism::{relator_row, row_along};
use fp_rows::Row;
use free_words::Word;
use lpres_reader::LPres;
use p_cover::Cover;
use pc_presentation::Overlap;

/// Whether a source has a row in a cover. If so the row becomes it. Takes no memory.
pub(crate) fn row_of(
    tools: &mut Tools,
    cover: &Cover,
    pres: &LPres,
    source: &RowSource,
    row: &mut Row,
) -> bool
    requires tools { AreToolsFor cover.now tools.old }
    requires names { cover.now.answer.names ≡ pres.now.names }
    requires named { NamesRelator pres.now source.now }
    requires prime { row.old.prime ≡ cover.now.answer.presentation.prime }
    requires width { length row.old.entries ≡ length cover.now.sources }
    ensures tools { AreToolsFor cover.now tools.new }
    ensures prime { row.new.prime ≡ row.old.prime }
    ensures width { length row.new.entries ≡ length row.old.entries }
    ensures decided { IsTrue result ↔ HasPlainRow pres.now cover.now source.now }
    ensures row { let push = plain_push (rowed_presentation (cover_presentation cover.now)) in
        IsTrue result → IsRowOf pres.now cover.now push source.now row.new.entries }
{
    let _names = pres.names();
    match source {
        RowSource::Test(overlap) => row_of_overlap(tools, cover, *overlap, row),
        RowSource::Fixed(number) => {
            let word = &pres.fixed()[*number as usize - 1];
            row_along_path(tools, cover, pres, &[], word, row)
        }
        RowSource::Iterated(number, path) => {
            let word = &pres.iterated()[*number as usize - 1];
            row_along_path(tools, cover, pres, path.numbers(), word, row)
        }
    }
}

/// Whether the numbers of an overlap are those of generators of the answer that is covered, and its ways reach the same exponents. If so
/// the row becomes what their tails differ by.
fn row_of_overlap(tools: &mut Tools, cover: &Cover, overlap: Overlap, row: &mut Row) -> bool
    requires tools { AreToolsFor cover.now tools.old }
    requires prime { row.old.prime ≡ cover.now.answer.presentation.prime }
    requires width { length row.old.entries ≡ length cover.now.sources }
    ensures tools { AreToolsFor cover.now tools.new }
    ensures prime { row.new.prime ≡ row.old.prime }
    ensures width { length row.new.entries ≡ length row.old.entries }
    ensures decided { let Y = rowed_presentation (cover_presentation cover.now) in IsTrue result
        ↔ (AreOverlapNumbers cover.now.answer.presentation.rank overlap × ExponentsAgree Y (plain_push Y) (overlap_of overlap)) }
    ensures row { let push = plain_push (rowed_presentation (cover_presentation cover.now)) in
        IsTrue result → IsRowOfOverlap cover.now push overlap row.new.entries }
{
    overlap.is_of(cover.pcp().rank()) && overlap_row(&mut tools.scratch, cover, overlap, row)
}

/// Whether the value of a word along a path lies in the tails alone. If so the row becomes the tails of that value.
fn row_along_path(
    tools: &mut Tools,
    cover: &Cover,
    pres: &LPres,
    path: &[u8],
    word: &Word,
    row: &mut Row,
) -> bool
    requires tools { AreToolsFor cover.now tools.old }
    requires generators { length pres.now.names ≡ length cover.now.answer.names }
    requires numbers { AreEndoNumbers (length pres.now.endos) path.now }
    requires letters { HasLetters (length cover.now.answer.names) word.now }
    requires prime { row.old.prime ≡ cover.now.answer.presentation.prime }
    requires width { length row.old.entries ≡ length cover.now.sources }
    ensures tools { AreToolsFor cover.now tools.new }
    ensures prime { row.new.prime ≡ row.old.prime }
    ensures width { length row.new.entries ≡ length row.old.entries }
    ensures decided { let push = plain_push (rowed_presentation (cover_presentation cover.now)) in
        IsTrue result ↔ ((x : List ℕ) × IsRowAlong pres.now.endos cover.now push path.now word.now x) }
    ensures row { let push = plain_push (rowed_presentation (cover_presentation cover.now)) in
        IsTrue result → IsRowAlong pres.now.endos cover.now push path.now word.now row.new.entries }
{
    if path.is_empty() {
        relator_row(&mut tools.scratch, cover, &tools.images, word, row)
    } else {
        row_along(
            &mut tools.scratch,
            &mut tools.work,
            cover,
            &tools.images,
            pres,
            path,
            word,
            row,
        )
    }
}
