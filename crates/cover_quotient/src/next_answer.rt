//! The next answer of a cover whose tails become combinations of kept ones.

ghost use Rattle.std.specs.Prelude.{◌<◌, ◌≡◌, ◌≤◌, ◌-◌, ◌++◌, [], map, get_or, length, All, IfOk, OnOk};
ghost use Rattle.pq_base.specs.Limits.{max_class};
ghost use Rattle.pq_base.specs.Answer.{class_of};
ghost use Rattle.pc_presentation.specs.Syllable.{syllables_of};
ghost use Rattle.pc_presentation.specs.Definition.{definition_of};
ghost use Rattle.pc_presentation.specs.Parts.{words_of};
ghost use Rattle.cover_quotient.specs.NextAnswer.{sources_at, combined_answer};
ghost use Rattle.cover_quotient.specs.NextParts.{IsPlace};
ghost use Rattle.cover_quotient.specs.Combinations.{AreCombinationsOf, AreKept};
ghost use Rattle.cover_quotient.specs.Defining.{MayBeKept};

use crate::combinations::Combinations;
use crate::next_presentation::next_presentation;
use p_cover::Cover;
use pc_presentation::{Answer, Definition, Syllable};
use pq_base::{NoMemory, names_copied};
use std::alloc::Global;

/// The answer whose new generators are the kept tails: the word of each relation and image is that of the cover's answer,
/// followed by what becomes of its tail. The kept tails have to become themselves, and their sources have to be such as may
/// define a generator.
pub fn next_answer(
    alloc: Global,
    cover: &Cover,
    combinations: &Combinations,
) -> Result<Answer, NoMemory>
    requires combinations { AreCombinationsOf cover.now combinations.now }
    requires kept { AreKept combinations.now }
    requires sources { All (MayBeKept cover.now.answer (class_of cover.now.answer)) (sources_at combinations.now.kept cover.now.sources) }
    requires class { class_of cover.now.answer < max_class }
    ensures { IfOk result (λ a. a ≡ combined_answer cover.now combinations.now) }
{
    let _cover = cover.pcp();
    let pcp = next_presentation(alloc, cover, combinations)?;
    let names = names_copied(alloc, cover.answer().names())?;
    let definitions = next_definitions(alloc, cover, combinations.kept())?;
    let images = next_images(alloc, cover, combinations)?;
    match Answer::of(pcp, names, definitions, images) {
        Some(answer) => Ok(answer),
        None => unreachable!(),
    }
}

/// The definitions of an answer's generators, and then the sources of the kept tails.
fn next_definitions(alloc: Global, cover: &Cover, kept: &[u16]) -> Result<Vec<Definition>, NoMemory>
    requires { All (IsPlace cover.now.sources) kept.now }
    ensures { IfOk result (λ v. map definition_of v.items ≡ cover.now.answer.definitions ++ sources_at kept.now cover.now.sources) }
{
    let mut definitions = definitions_of(alloc, cover.answer())?;
    push_sources(&mut definitions, cover, kept)?;
    Ok(definitions)
}

/// The definitions of all generators.
fn definitions_of(alloc: Global, answer: &Answer) -> Result<Vec<Definition>, NoMemory>
    ensures { IfOk result (λ v. map definition_of v.items ≡ answer.now.definitions) }
{
    let mut definitions = Vec::new(alloc);
    for k in 0..answer.pcp().rank() {
        definitions.push(answer.definition(k + 1))?;
    }
    Ok(definitions)
}

/// Puts the sources of tails at the end, as definitions.
fn push_sources(
    definitions: &mut Vec<Definition>,
    cover: &Cover,
    tails: &[u16],
) -> Result<(), NoMemory>
    requires { All (IsPlace cover.now.sources) tails.now }
    ensures { OnOk result (map definition_of definitions.new.items
        ≡ map definition_of definitions.old.items ++ sources_at tails.now cover.now.sources) }
{
    for k in 0..tails.len() {
        definitions.push(cover.source_of(tails[k]))?;
    }
    Ok(())
}

/// The images of all given generators.
fn next_images(
    alloc: Global,
    cover: &Cover,
    combinations: &Combinations,
) -> Result<Vec<Vec<Syllable>>, NoMemory>
    requires { AreCombinationsOf cover.now combinations.now }
    ensures { IfOk result (λ v. words_of v.items ≡ map (syllables_of 0) (combined_answer cover.now combinations.now).images) }
{
    let _cover = cover.pcp();
    let _answer = cover.answer().pcp();
    let names = cover.answer().names().len() as u16;
    let mut images = Vec::new(alloc);
    for k in 0..names {
        images.push(next_image(cover, combinations, k + 1)?)?;
    }
    Ok(images)
}

/// The image of given generator i, counted from 1: its word, and then what becomes of its tail.
fn next_image(cover: &Cover, combinations: &Combinations, i: u16) -> Result<Vec<Syllable>, NoMemory>
    requires combinations { AreCombinationsOf cover.now combinations.now }
    requires from_one { 1 ≤ i }
    requires in_range { i ≤ length cover.now.answer.names }
    ensures { IfOk result (λ v. v.items ≡ syllables_of 0 (get_or (combined_answer cover.now combinations.now).images (i - 1) [])) }
{
    let _cover = cover.pcp();
    let answer = cover.answer();
    let tail = cover.tail_of(Definition::Image(i));
    combinations.with_tail(answer.image(i), answer.pcp().rank(), tail)
}
