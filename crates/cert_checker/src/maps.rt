//! Whether elements of an answer make a map of another answer into it.

ghost use Rattle.std.specs.Prelude.{◌≡◌, ◌<◌, ◌↔◌, ℕ, [], All, length, IsTrue, IfOk};
ghost use Rattle.pq_base.specs.Joined.{IsConsistent};
ghost use Rattle.pc_presentation.specs.ImageElements.{states_of};
ghost use Rattle.pc_presentation.specs.Tailed.{IsElement, rowed_presentation};
ghost use Rattle.p_cover.specs.Covers.{cover_presentation};
ghost use Rattle.derivation_log.specs.PlainValues.{MakeMap, images_of};
ghost use Rattle.cert_checker.specs.MapWords.{words_of, CarriesImage, MakeMapOfWords, IsBench};

use crate::bench::{Bench, ones};
use crate::satisfied::{are_joined, satisfy_commutators, satisfy_powers};
use crate::values::{define_all, multiply_out};
use p_cover::{Cover, Images, cover_of};
use pc_presentation::{Answer, Elem, Pcp};
use pq_base::NoMemory;
use std::alloc::Global;

/// Whether the images of a consistent answer make a map of an answer for the same given generators into it, by the plain rule.
pub(crate) fn make_map(alloc: Global, from: &Answer, to: &Answer) -> Result<bool, NoMemory>
    requires consistent { IsConsistent to.now.presentation }
    requires names { from.now.names ≡ to.now.names }
    ensures { IfOk result (λ made. IsTrue made ↔ MakeMap from.now to.now (images_of to.now)) }
{
    let cover = cover_of(alloc, to, &[])?;
    let mut bench = Bench::new(alloc, cover.pcp())?;
    let images = Images::lift(alloc, &mut bench.scratch, &cover)?;
    let mut elements = ones(alloc, cover.pcp(), from.pcp().rank() as usize)?;
    Ok(makes_map(&mut bench, &cover, from, images.elements(), &mut elements))
}

/// Whether elements of the answer that is covered make a map of another answer into it. The elements for the generators of that
/// answer are written over.
pub(crate) fn makes_map(
    bench: &mut Bench,
    cover: &Cover,
    from: &Answer,
    given: &[Elem],
    elements: &mut [Elem],
) -> bool
    requires bench { IsBench (cover_presentation cover.now) bench.old }
    requires no_tails { cover.now.sources ≡ [] }
    requires consistent { IsConsistent cover.now.answer.presentation }
    requires given { All (IsElement (cover_presentation cover.now)) given.now }
    requires given_count { length given.now ≡ length from.now.names }
    requires elements { All (IsElement (cover_presentation cover.now)) elements.old }
    requires count { length elements.old ≡ from.now.presentation.rank }
    ensures bench { IsBench (cover_presentation cover.now) bench.new }
    ensures elements { All (IsElement (cover_presentation cover.now)) elements.new }
    ensures made { IsTrue result ↔ MakeMap from.now cover.now.answer (states_of given.now) }
{
    let pcp = cover.pcp();
    let _from = from.pcp();
    define_all(
        &mut bench.scratch,
        pcp,
        from,
        given,
        elements,
        &mut bench.left,
    );
    make_map_of_words(bench, pcp, from, given, elements)
}

/// Whether the words of the elements for the generators of an answer satisfy its relations, and carry its images to the words of the
/// elements for the given generators.
fn make_map_of_words(
    bench: &mut Bench,
    pcp: &Pcp,
    from: &Answer,
    given: &[Elem],
    elements: &[Elem],
) -> bool
    requires bench { IsBench pcp.now bench.old }
    requires no_tails { pcp.now.tails ≡ 0 }
    requires consistent { IsConsistent pcp.now.presentation }
    requires given { All (IsElement pcp.now) given.now }
    requires given_count { length given.now ≡ length from.now.names }
    requires elements { All (IsElement pcp.now) elements.now }
    requires count { length elements.now ≡ from.now.presentation.rank }
    ensures bench { IsBench pcp.now bench.new }
    ensures made { IsTrue result ↔ MakeMapOfWords (rowed_presentation pcp.now) from.now (words_of pcp.now given.now)
        (words_of pcp.now elements.now) }
{
    if !satisfy_powers(bench, pcp, from, elements) {
        return false;
    }
    if !satisfy_commutators(bench, pcp, from, elements) {
        return false;
    }
    carry_images(bench, pcp, from, given, elements)
}

/// Whether the words of the elements for the generators of an answer carry its images to those of the elements for the given generators.
fn carry_images(
    bench: &mut Bench,
    pcp: &Pcp,
    from: &Answer,
    given: &[Elem],
    elements: &[Elem],
) -> bool
    requires bench { IsBench pcp.now bench.old }
    requires no_tails { pcp.now.tails ≡ 0 }
    requires consistent { IsConsistent pcp.now.presentation }
    requires given { All (IsElement pcp.now) given.now }
    requires given_count { length given.now ≡ length from.now.names }
    requires elements { All (IsElement pcp.now) elements.now }
    requires count { length elements.now ≡ from.now.presentation.rank }
    ensures bench { IsBench pcp.now bench.new }
    ensures carried { IsTrue result ↔ ((i : ℕ) → i < length from.now.names
        → CarriesImage (rowed_presentation pcp.now) from.now (words_of pcp.now given.now) (words_of pcp.now elements.now) i) }
{
    let _from = from.pcp();
    for i in 0..given.len() as u16 {
        if !carries_image(bench, pcp, from, given, elements, i) {
            return false;
        }
    }
    true
}

/// Whether they carry image i + 1, counted from 1.
fn carries_image(
    bench: &mut Bench,
    pcp: &Pcp,
    from: &Answer,
    given: &[Elem],
    elements: &[Elem],
    i: u16,
) -> bool
    requires bench { IsBench pcp.now bench.old }
    requires no_tails { pcp.now.tails ≡ 0 }
    requires consistent { IsConsistent pcp.now.presentation }
    requires given { All (IsElement pcp.now) given.now }
    requires given_count { length given.now ≡ length from.now.names }
    requires elements { All (IsElement pcp.now) elements.now }
    requires count { length elements.now ≡ from.now.presentation.rank }
    requires in_range { i < length from.now.names }
    ensures bench { IsBench pcp.now bench.new }
    ensures carried { IsTrue result
        ↔ CarriesImage (rowed_presentation pcp.now) from.now (words_of pcp.now given.now) (words_of pcp.now elements.now) i }
{
    let _from = from.pcp();
    multiply_out(
        &mut bench.scratch,
        pcp,
        from.image(i + 1),
        elements,
        &mut bench.factor,
        &mut bench.next,
        &mut bench.right,
    );
    are_joined(pcp, &bench.right, &given[i as usize])
}
