//! The row of a relator along endomorphisms.

ghost use Rattle.std.specs.Prelude.{◌≡◌, ◌↔◌, length, [], IsTrue, IsFalse, All};
ghost use Rattle.std.specs.List.{AllZip};
ghost use Rattle.pq_base.specs.SignedWord.{sub, HasLetters};
ghost use Rattle.pq_base.specs.Joined.{Joined, IsConsistent};
ghost use Rattle.pq_base.specs.Answer.{image_words};
ghost use Rattle.pq_base.specs.LPresentation.{along as carried, AreEndoNumbers, AreWords};
ghost use Rattle.pq_base.specs.Elementary.{zeros};
ghost use Rattle.pc_presentation.specs.Rowed.{flat};
ghost use Rattle.pc_presentation.specs.Tailed.{rowed_presentation, IsElement};
ghost use Rattle.pc_presentation.specs.Scratch.{IsScratch};
ghost use Rattle.pc_presentation.specs.ImageElements.{AreImageElements};
ghost use Rattle.p_cover.specs.RowedAnswer.{rowed_images, tails_word};
ghost use Rattle.p_cover.specs.Covers.{cover_presentation, rowed_cover};
ghost use Rattle.p_cover.specs.Images.{AreLifted};
ghost use Rattle.p_cover.specs.ImagesAlong.{AreComposed, AreCarried, IsFoundAlong};
ghost use Rattle.p_cover.specs.Lifted.{IsInverse};
ghost use Rattle.epimorphism.specs.Rooms.{IsRoom, IsWork, value_elements};

use crate::relator::take_tails;
use crate::work::{Room, Work};
use fp_rows::Row;
use free_words::Word;
use lpres_reader::LPres;
use p_cover::{Cover, Images};
use pc_presentation::{Collect, Elem, Pcp, Scratch, evaluate, inverse, value};

/// Whether the value of a word along endomorphisms lies in the tails alone. If so the row becomes the tails of that value, and
/// otherwise zero. The endomorphisms are named by their numbers, counted from 1, and the first of the list is applied last.
/// The word stays as it is: the lists of images are composed, the first endomorphism of the list first, each value by
/// `evaluate` and its inverse by `inverse`. Takes no memory.
pub fn row_along<C: Collect>(
    s: &mut Scratch<C>,
    work: &mut Work,
    cover: &Cover,
    images: &Images,
    pres: &LPres,
    along: &[u8],
    word: &Word,
    row: &mut Row,
) -> bool
    requires scratch { IsScratch (cover_presentation cover.now) s.old }
    requires work { IsWork cover.now work.old }
    requires images { AreLifted cover.now (C.meaning (rowed_presentation (cover_presentation cover.now))) images.now }
    requires generators { length pres.now.names ≡ length cover.now.answer.names }
    requires numbers { AreEndoNumbers (length pres.now.endos) along.now }
    requires letters { HasLetters (length cover.now.answer.names) word.now }
    requires prime { row.old.prime ≡ cover.now.answer.presentation.prime }
    requires width { length row.old.entries ≡ length cover.now.sources }
    ensures scratch { IsScratch (cover_presentation cover.now) s.new }
    ensures work { IsWork cover.now work.new }
    ensures prime { row.new.prime ≡ row.old.prime }
    ensures width { length row.new.entries ≡ length row.old.entries }
    ensures found { let Y = rowed_presentation (cover_presentation cover.now) in
        IsFoundAlong cover.now (C.meaning Y) pres.now.endos images.now along.now word.now result row.new.entries }
    ensures zero { IsFalse result → row.new.entries ≡ zeros (length row.old.entries) }
    ensures joined { IsTrue result → Joined (flat (rowed_presentation (cover_presentation cover.now)))
        (sub (carried pres.now.endos along.now word.now) (rowed_images (rowed_cover cover.now)))
        (tails_word (rowed_cover cover.now) row.new.entries) }
    ensures killed { IsConsistent cover.now.answer.presentation
        → (IsTrue result ↔ Joined cover.now.answer.presentation
        (sub (carried pres.now.endos along.now word.now) (image_words cover.now.answer)) []) }
{
    let pcp = cover.pcp();
    let _presentation = pres.names();
    work.begin(images);
    carry(s, work, cover, pres, along);
    value(s, pcp, word.letters(), work.elements(), work.inverses());
    take_tails(s.left(), row)
}

/// Carries the images in the first place along endomorphisms, the first of the list first.
fn carry<C: Collect>(s: &mut Scratch<C>, work: &mut Work, cover: &Cover, pres: &LPres, along: &[u8])
    requires scratch { IsScratch (cover_presentation cover.now) s.old }
    requires work { IsWork cover.now work.old }
    requires images { let T = cover_presentation cover.now in
        AreImageElements T (C.meaning (rowed_presentation T)) work.old.first.elements work.old.first.inverses }
    requires generators { length pres.now.names ≡ length cover.now.answer.names }
    requires numbers { AreEndoNumbers (length pres.now.endos) along.now }
    ensures scratch { IsScratch (cover_presentation cover.now) s.new }
    ensures work { IsWork cover.now work.new }
    ensures images { let T = cover_presentation cover.now in
        AreImageElements T (C.meaning (rowed_presentation T)) work.new.first.elements work.new.first.inverses }
    ensures carried { let Y = rowed_presentation (cover_presentation cover.now) in
        AreCarried cover.now (C.meaning Y) pres.now.endos work.old.first along.now work.new.first }
{
    for i in 0..along.len() {
        compose(s, cover, &work.first, pres.endo(along[i]), &mut work.second);
        work.exchange();
    }
}

/// Composes images with an endomorphism.
fn compose<C: Collect>(
    s: &mut Scratch<C>,
    cover: &Cover,
    images: &Room,
    endo: &[Word],
    out: &mut Room,
)
    requires scratch { IsScratch (cover_presentation cover.now) s.old }
    requires images { let T = cover_presentation cover.now in
        AreImageElements T (C.meaning (rowed_presentation T)) images.now.elements images.now.inverses }
    requires letters { AreWords (length images.now.elements) endo.now }
    requires out { IsRoom (cover_presentation cover.now) (length endo.now) out.old }
    ensures scratch { IsScratch (cover_presentation cover.now) s.new }
    ensures composed { AreComposed cover.now (C.meaning (rowed_presentation (cover_presentation cover.now))) images.now endo.now out.new }
    ensures out { IsRoom (cover_presentation cover.now) (length endo.now) out.new }
{
    evaluate_all(s, cover.pcp(), endo, images, &mut out.elements);
    invert_all(s, cover.pcp(), &out.elements, &mut out.inverses);
}

/// Makes elements the values of words.
fn evaluate_all<C: Collect>(
    s: &mut Scratch<C>,
    pcp: &Pcp,
    words: &[Word],
    images: &Room,
    out: &mut [Elem],
)
    requires scratch { IsScratch pcp.now s.old }
    requires images { AreImageElements pcp.now (C.meaning (rowed_presentation pcp.now)) images.now.elements images.now.inverses }
    requires letters { AreWords (length images.now.elements) words.now }
    requires out { All (IsElement pcp.now) out.old }
    requires count { length out.old ≡ length words.now }
    ensures scratch { IsScratch pcp.now s.new }
    ensures elements { All (IsElement pcp.now) out.new }
    ensures values { out.new
        ≡ value_elements pcp.now (C.meaning (rowed_presentation pcp.now)) images.now.elements images.now.inverses words.now }
{
    for i in 0..words.len() {
        evaluate(
            s,
            pcp,
            words[i].letters(),
            &images.elements,
            &images.inverses,
            &mut out[i],
        );
    }
}

/// Makes elements the inverses of others.
fn invert_all<C: Collect>(s: &mut Scratch<C>, pcp: &Pcp, elements: &[Elem], out: &mut [Elem])
    requires scratch { IsScratch pcp.now s.old }
    requires elements { All (IsElement pcp.now) elements.now }
    requires out { All (IsElement pcp.now) out.old }
    requires count { length out.old ≡ length elements.now }
    ensures scratch { IsScratch pcp.now s.new }
    ensures inverses { AreImageElements pcp.now (C.meaning (rowed_presentation pcp.now)) elements.now out.new }
{
    for i in 0..elements.len() {
        inverse(s, pcp, &elements[i], &mut out[i]);
    }
}
