//! Whether the endomorphisms of an L-presentation induce maps of an answer into itself.

ghost use Rattle.std.specs.Prelude.{◌≡◌, ◌↔◌, [], All, length, IsTrue, IfOk};
ghost use Rattle.std.specs.List.{All as Each};
ghost use Rattle.pq_base.specs.LPresentation.{AreWords};
ghost use Rattle.pq_base.specs.Joined.{IsConsistent};
ghost use Rattle.pc_presentation.specs.Collection.{plain_push};
ghost use Rattle.pc_presentation.specs.ImageElements.{AreImageElements};
ghost use Rattle.pc_presentation.specs.Scratch.{IsScratch};
ghost use Rattle.pc_presentation.specs.Tailed.{IsElement, rowed_presentation};
ghost use Rattle.p_cover.specs.Covers.{cover_presentation};
ghost use Rattle.p_cover.specs.Images.{AreLifted};
ghost use Rattle.epimorphism.specs.Rooms.{value_elements};
ghost use Rattle.derivation_log.specs.PlainValues.{InducesPlainly};
ghost use Rattle.cert_checker.specs.MapWords.{IsBench};

use crate::bench::{Bench, ones};
use crate::maps::makes_map;
use free_words::Word;
use lpres_reader::LPres;
use p_cover::{Cover, Images, cover_of};
use pc_presentation::{Answer, Elem, Pcp, Scratch, evaluate};
use plain_collector::Plain;
use pq_base::NoMemory;
use std::alloc::Global;

/// Whether each endomorphism induces a map of a consistent answer into itself, by the plain rule.
pub(crate) fn induce(alloc: Global, answer: &Answer, pres: &LPres) -> Result<bool, NoMemory>
    requires consistent { IsConsistent answer.now.presentation }
    requires names { answer.now.names ≡ pres.now.names }
    ensures { IfOk result (λ induced. IsTrue induced ↔ Each (InducesPlainly answer.now) pres.now.endos) }
{
    let cover = cover_of(alloc, answer, &[])?;
    let mut bench = Bench::new(alloc, cover.pcp())?;
    let images = Images::lift(alloc, &mut bench.scratch, &cover)?;
    let mut values = ones(alloc, cover.pcp(), images.elements().len())?;
    let mut elements = ones(alloc, cover.pcp(), cover.pcp().rank() as usize)?;
    Ok(induce_each(
        &mut bench,
        &cover,
        &images,
        pres,
        &mut values,
        &mut elements,
    ))
}

/// Whether each endomorphism induces a map of the answer that is covered into itself.
fn induce_each(
    bench: &mut Bench,
    cover: &Cover,
    images: &Images,
    pres: &LPres,
    values: &mut [Elem],
    elements: &mut [Elem],
) -> bool
    requires bench { IsBench (cover_presentation cover.now) bench.old }
    requires no_tails { cover.now.sources ≡ [] }
    requires consistent { IsConsistent cover.now.answer.presentation }
    requires names { cover.now.answer.names ≡ pres.now.names }
    requires images { AreLifted cover.now (plain_push (rowed_presentation (cover_presentation cover.now))) images.now }
    requires values { All (IsElement (cover_presentation cover.now)) values.old }
    requires value_count { length values.old ≡ length cover.now.answer.names }
    requires elements { All (IsElement (cover_presentation cover.now)) elements.old }
    requires count { length elements.old ≡ cover.now.answer.presentation.rank }
    ensures { IsTrue result ↔ Each (InducesPlainly cover.now.answer) pres.now.endos }
{
    let _presentation = pres.names();
    for e in 0..pres.endos().len() as u8 {
        if !induces(bench, cover, images, pres.endo(e + 1), values, elements) {
            return false;
        }
    }
    true
}

/// Whether an endomorphism induces a map of the answer that is covered into itself. The values of its words and the elements for the
/// generators are written over.
fn induces(
    bench: &mut Bench,
    cover: &Cover,
    images: &Images,
    endo: &[Word],
    values: &mut [Elem],
    elements: &mut [Elem],
) -> bool
    requires bench { IsBench (cover_presentation cover.now) bench.old }
    requires no_tails { cover.now.sources ≡ [] }
    requires consistent { IsConsistent cover.now.answer.presentation }
    requires images { AreLifted cover.now (plain_push (rowed_presentation (cover_presentation cover.now))) images.now }
    requires words { AreWords (length cover.now.answer.names) endo.now }
    requires word_count { length endo.now ≡ length cover.now.answer.names }
    requires values { All (IsElement (cover_presentation cover.now)) values.old }
    requires value_count { length values.old ≡ length cover.now.answer.names }
    requires elements { All (IsElement (cover_presentation cover.now)) elements.old }
    requires count { length elements.old ≡ cover.now.answer.presentation.rank }
    ensures bench { IsBench (cover_presentation cover.now) bench.new }
    ensures values { All (IsElement (cover_presentation cover.now)) values.new }
    ensures elements { All (IsElement (cover_presentation cover.now)) elements.new }
    ensures induced { IsTrue result ↔ InducesPlainly cover.now.answer endo.now }
{
    evaluate_each(
        &mut bench.scratch,
        cover.pcp(),
        endo,
        images.elements(),
        images.inverses(),
        values,
    );
    makes_map(bench, cover, cover.answer(), values, elements)
}

/// Makes elements the values of words.
fn evaluate_each(
    s: &mut Scratch<Plain>,
    pcp: &Pcp,
    words: &[Word],
    images: &[Elem],
    inverses: &[Elem],
    values: &mut [Elem],
)
    requires scratch { IsScratch pcp.now s.old }
    requires images { AreImageElements pcp.now (plain_push (rowed_presentation pcp.now)) images.now inverses.now }
    requires letters { AreWords (length images.now) words.now }
    requires values { All (IsElement pcp.now) values.old }
    requires count { length values.old ≡ length words.now }
    ensures scratch { IsScratch pcp.now s.new }
    ensures elements { All (IsElement pcp.now) values.new }
    ensures values { values.new ≡ value_elements pcp.now (plain_push (rowed_presentation pcp.now)) images.now inverses.now words.now }
{
    for i in 0..words.len() {
        evaluate(s, pcp, words[i].letters(), images, inverses, &mut values[i]);
    }
}
