//! Whether the images of an answer carry words to the identity.

ghost use Rattle.std.specs.Prelude.{◌≡◌, ◌↔◌, length, IsTrue, IfOk};
ghost use Rattle.pq_base.specs.SignedWord.{HasLetters};
ghost use Rattle.pq_base.specs.LPresentation.{AreWords};
ghost use Rattle.pq_base.specs.Joined.{IsConsistent};
ghost use Rattle.pc_presentation.specs.Collection.{plain_push};
ghost use Rattle.pc_presentation.specs.Scratch.{IsScratch};
ghost use Rattle.pc_presentation.specs.Tailed.{rowed_presentation};
ghost use Rattle.p_cover.specs.Covers.{cover_presentation};
ghost use Rattle.p_cover.specs.Images.{AreLifted};
ghost use Rattle.derivation_log.specs.PlainValues.{IsCarriedToIdentity};
ghost use Rattle.derivation_log.specs.CertificateParts.{AreCarriedToIdentity};

use epimorphism::relator_row;
use fp_rows::Row;
use free_words::Word;
use p_cover::{Cover, Images, cover_of};
use pc_presentation::{Answer, Scratch};
use plain_collector::Plain;
use pq_base::NoMemory;
use std::alloc::Global;

/// Whether the images of a consistent answer carry each of these words to the identity, by the plain rule.
pub(crate) fn carries(alloc: Global, answer: &Answer, words: &[Word]) -> Result<bool, NoMemory>
    requires consistent { IsConsistent answer.now.presentation }
    requires letters { AreWords (length answer.now.names) words.now }
    ensures { IfOk result (λ carried. IsTrue carried ↔ AreCarriedToIdentity answer.now words.now) }
{
    let cover = cover_of(alloc, answer, &[])?;
    let mut scratch = Scratch::<Plain>::new(alloc, cover.pcp())?;
    let images = Images::lift(alloc, &mut scratch, &cover)?;
    let mut row = Row::zero(alloc, cover.pcp().prime(), cover.tails())?;
    Ok(carries_all(&mut scratch, &cover, &images, words, &mut row))
}

/// Whether the images of the answer that is covered carry each of these words to the identity.
fn carries_all(
    s: &mut Scratch<Plain>,
    cover: &Cover,
    images: &Images,
    words: &[Word],
    row: &mut Row,
) -> bool
    requires scratch { IsScratch (cover_presentation cover.now) s.old }
    requires images { AreLifted cover.now (plain_push (rowed_presentation (cover_presentation cover.now))) images.now }
    requires consistent { IsConsistent cover.now.answer.presentation }
    requires letters { AreWords (length cover.now.answer.names) words.now }
    requires prime { row.old.prime ≡ cover.now.answer.presentation.prime }
    requires width { length row.old.entries ≡ length cover.now.sources }
    ensures { IsTrue result ↔ AreCarriedToIdentity cover.now.answer words.now }
{
    for word in words {
        if !carries_one(s, cover, images, word, row) {
            return false;
        }
    }
    true
}

/// Whether the images of the answer that is covered carry a word to the identity.
fn carries_one(
    s: &mut Scratch<Plain>,
    cover: &Cover,
    images: &Images,
    word: &Word,
    row: &mut Row,
) -> bool
    requires scratch { IsScratch (cover_presentation cover.now) s.old }
    requires images { AreLifted cover.now (plain_push (rowed_presentation (cover_presentation cover.now))) images.now }
    requires consistent { IsConsistent cover.now.answer.presentation }
    requires letters { HasLetters (length cover.now.answer.names) word.now }
    requires prime { row.old.prime ≡ cover.now.answer.presentation.prime }
    requires width { length row.old.entries ≡ length cover.now.sources }
    ensures scratch { IsScratch (cover_presentation cover.now) s.new }
    ensures prime { row.new.prime ≡ row.old.prime }
    ensures width { length row.new.entries ≡ length row.old.entries }
    ensures carried { IsTrue result ↔ IsCarriedToIdentity cover.now.answer word.now }
{
    let _cover = cover.pcp();
    relator_row(s, cover, images, word, row)
}
