//! Whether parts make an answer.

ghost use Rattle.std.specs.Prelude.{◌≡◌, ◌≤◌, ◌<◌, ◌↔◌, IsTrue, length, get_or, ◌-◌, []};
ghost use Rattle.pq_base.specs.Limits.{max_rank, max_names};
ghost use Rattle.pq_base.specs.LPresentation.{AreDistinct};
ghost use Rattle.pc_presentation.specs.Syllable.{IsGenerator};
ghost use Rattle.pc_presentation.specs.Pcp.{IsTailedPresentation};
ghost use Rattle.pc_presentation.specs.Parts.{are_weights, words_of, AreImages, IsDefined, AreDefined, AreTested};

use crate::definition::Definition;
use crate::pcp::Pcp;
use crate::relation::Relation;
use crate::syllable::{Syllable, are_syllables, is_generator};
use pq_base::Name;
use pq_base::limits::{CLASS, GENERATORS};

/// Whether the conditions of an answer hold.
pub(crate) fn are_parts(
    pcp: &Pcp,
    names: &[Name],
    definitions: &[Definition],
    images: &[Vec<Syllable>],
) -> bool
    ensures tested { IsTrue result ↔ AreTested pcp.now names.now definitions.now (words_of images.now) }
    ensures presentation { IsTailedPresentation pcp.now }
{
    let rank = pcp.rank();
    if pcp.tails() != 0 || !are_weights(pcp.weights()) || !are_names(names) {
        return false;
    }
    if images.len() != names.len() || !are_images(images, pcp.prime().value(), rank) {
        return false;
    }
    definitions.len() == rank as usize && are_defined(pcp, definitions, images)
}

/// Whether there are as many names as a presentation may have, no two of them equal.
fn are_names(names: &[Name]) -> bool
    ensures { IsTrue result ↔ ((1 ≤ length names.now) × (length names.now ≤ max_names) × AreDistinct names.now) }
{
    1 <= names.len() && names.len() <= GENERATORS && are_distinct(names)
}

/// Whether weights are at least 1, at most that of the greatest class, and never fall.
fn are_weights(weights: &[u8]) -> bool
    ensures { result ≡ are_weights 1 weights.now }
{
    let mut least = 1;
    for w in weights {
        if *w < least || CLASS < *w {
            return false;
        }
        least = *w;
    }
    true
}

fn are_distinct(names: &[Name]) -> bool
    ensures { IsTrue result ↔ AreDistinct names.now }
{
    for (i, name) in names.iter().enumerate() {
        if names[i + 1..].contains(name) {
            return false;
        }
    }
    true
}

/// Whether each image is a normal word.
fn are_images(images: &[Vec<Syllable>], prime: u8, rank: u16) -> bool
    ensures { IsTrue result ↔ AreImages prime rank (words_of images.now) }
{
    for word in images {
        if !are_syllables(word, prime, rank) {
            return false;
        }
    }
    true
}

/// Whether each definition is that of its generator.
fn are_defined(pcp: &Pcp, definitions: &[Definition], images: &[Vec<Syllable>]) -> bool
    requires count { length definitions.now ≡ pcp.now.presentation.rank }
    requires limit { pcp.now.presentation.rank ≤ max_rank }
    ensures { IsTrue result ↔ AreDefined pcp.now (words_of images.now) definitions.now }
{
    let mut generator = 0;
    for definition in definitions {
        generator += 1;
        if !is_defined(pcp, images, generator, *definition) {
            return false;
        }
    }
    true
}

/// Whether a generator, counted from 1, has this definition.
fn is_defined(pcp: &Pcp, images: &[Vec<Syllable>], generator: u16, definition: Definition) -> bool
    requires from_one { 1 ≤ generator }
    requires in_range { generator ≤ pcp.now.presentation.rank }
    ensures { IsTrue result ↔ IsDefined pcp.now (words_of images.now) generator definition }
{
    let weight = pcp.weight(generator);
    match definition {
        Definition::Image(i) => weight == 1 && is_image(images, i, generator),
        Definition::Commutator(j, i) => {
            1 < weight
                && 1 <= i
                && i < j
                && j < generator
                && is_generator(pcp.word(Relation::Commutator(j, i)), generator)
        }
        Definition::Power(j) => 1 < weight
            && 1 <= j
            && j < generator
            && is_generator(pcp.word(Relation::Power(j)), generator),
    }
}

/// Whether image i, counted from 1, is this generator alone.
fn is_image(images: &[Vec<Syllable>], i: u16, generator: u16) -> bool
    ensures { IsTrue result
        ↔ ((1 ≤ i) × (i ≤ length (words_of images.now)) × IsGenerator generator (get_or (words_of images.now) (i - 1) [])) }
{
    1 <= i && i as usize <= images.len() && is_generator(&images[i as usize - 1], generator)
}
