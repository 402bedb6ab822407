//! What is closed under endomorphisms in a cover: the rows of the iterated relators, and the matrices of the endomorphisms.

ghost use Rattle.std.specs.Prelude.{◌≡◌, ◌<◌, ℕ, [], length, get_or, IfOk};
ghost use Rattle.pq_base.specs.SignedWord.{sub, HasLetters};
ghost use Rattle.pq_base.specs.Joined.{Joined, IsConsistent};
ghost use Rattle.pq_base.specs.Answer.{image_words};
ghost use Rattle.pc_presentation.specs.Scratch.{IsScratch};
ghost use Rattle.pc_presentation.specs.Tailed.{rowed_presentation};
ghost use Rattle.p_cover.specs.Covers.{cover_presentation};
ghost use Rattle.p_cover.specs.Images.{AreLifted};
ghost use Rattle.endo_lift.specs.Lifts.{Induces, LeavesOutTrivial, HasRow};
ghost use Rattle.tower.specs.SpunParts.{AreLifts, AreGivenRows, IsRowOver};

use endo_lift::matrix;
use epimorphism::relator_row;
use fp_echelon::Matrix;
use fp_rows::Row;
use free_words::Word;
use lpres_reader::LPres;
use p_cover::{Cover, Images};
use pc_presentation::{Collect, Scratch};
use pq_base::NoMemory;
use std::alloc::Global;

/// The rows of the iterated relators, which die in the consistent answer that is covered.
pub(crate) fn iterated_rows<C: Collect>(
    alloc: Global,
    s: &mut Scratch<C>,
    cover: &Cover,
    images: &Images,
    pres: &LPres,
) -> Result<Vec<Row>, NoMemory>
    requires consistent { IsConsistent cover.now.answer.presentation }
    requires scratch { IsScratch (cover_presentation cover.now) s.old }
    requires images { AreLifted cover.now (C.meaning (rowed_presentation (cover_presentation cover.now))) images.now }
    requires names { cover.now.answer.names ≡ pres.now.names }
    requires killed { (i : ℕ) → i < length pres.now.iterated
        → Joined cover.now.answer.presentation (sub (get_or pres.now.iterated i []) (image_words cover.now.answer)) [] }
    ensures scratch { IsScratch (cover_presentation cover.now) s.new }
    ensures rows { IfOk result (λ rows. AreGivenRows pres.now cover.now rows.items) }
{
    let _names = pres.names();
    let mut rows = Vec::new(alloc);
    for word in pres.iterated() {
        rows.push(iterated_row(alloc, s, cover, images, word)?)?;
    }
    Ok(rows)
}

/// The row of a relator, which dies in the consistent answer that is covered.
fn iterated_row<C: Collect>(
    alloc: Global,
    s: &mut Scratch<C>,
    cover: &Cover,
    images: &Images,
    word: &Word,
) -> Result<Row, NoMemory>
    requires consistent { IsConsistent cover.now.answer.presentation }
    requires scratch { IsScratch (cover_presentation cover.now) s.old }
    requires images { AreLifted cover.now (C.meaning (rowed_presentation (cover_presentation cover.now))) images.now }
    requires letters { HasLetters (length cover.now.answer.names) word.now }
    requires killed { Joined cover.now.answer.presentation (sub word.now (image_words cover.now.answer)) [] }
    ensures scratch { IsScratch (cover_presentation cover.now) s.new }
    ensures over { IfOk result (λ row. IsRowOver cover.now row) }
    ensures row { IfOk result (λ row. HasRow cover.now word.now row.entries) }
{
    let mut row = Row::zero(alloc, cover.pcp().prime(), cover.tails())?;
    let _found = relator_row(s, cover, images, word, &mut row);
    let _width = row.width();
    Ok(row)
}

/// The matrices of the endomorphisms, which induce ones of the consistent answer that is covered.
pub(crate) fn lifted_endos<C: Collect>(
    alloc: Global,
    s: &mut Scratch<C>,
    cover: &Cover,
    images: &Images,
    pres: &LPres,
) -> Result<Vec<Matrix>, NoMemory>
    requires consistent { IsConsistent cover.now.answer.presentation }
    requires scratch { IsScratch (cover_presentation cover.now) s.old }
    requires images { AreLifted cover.now (C.meaning (rowed_presentation (cover_presentation cover.now))) images.now }
    requires names { cover.now.answer.names ≡ pres.now.names }
    requires induce { (e : ℕ) → e < length pres.now.endos → Induces cover.now.answer (get_or pres.now.endos e []) }
    requires left_out { LeavesOutTrivial cover.now }
    ensures scratch { IsScratch (cover_presentation cover.now) s.new }
    ensures lifts { IfOk result (λ matrices. AreLifts cover.now pres.now.endos matrices.items) }
{
    let _names = pres.names();
    let mut matrices = Vec::new(alloc);
    for e in 0..pres.endos().len() as u8 {
        matrices.push(matrix(alloc, s, cover, images, pres.endo(e + 1))?)?;
    }
    Ok(matrices)
}
