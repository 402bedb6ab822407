//! The presentation of a sample.

ghost use Rattle.std.specs.Prelude.{◌≡◌, ◌≤◌, [], ◌∷◌, ℕ, ℤ, List, All, IfOk, map, length};
ghost use Rattle.pq_base.specs.Limits.{max_sample};
ghost use Rattle.lpres_reader.specs.Parts.{IsPresentationWithinLimits};
ghost use Rattle.lpres_reader.specs.Presentations.{made_of};
ghost use Rattle.samples.specs.Samples.{drawn_words, relators_from, exchange, sample_presentation};
ghost use Rattle.samples.specs.Pieces.{AreDrawn};

use crate::draws::Draws;
use crate::names::names;
use crate::words::{exchanged_word, relator, word_of};
use free_words::Word;
use lpres_reader::LPres;
use pq_base::{Name, NoMemory};
use std::alloc::Global;

/// How many generators are words in the first two.
const WORDS: u32 = 30;

/// The sample of a number. Where a quarter of the number is even its relators are fixed; else they are iterated, and one
/// endomorphism exchanges the first two generators.
pub fn sample(alloc: Global, n: u32) -> Result<LPres, NoMemory>
    requires { n ≤ max_sample }
    ensures { IfOk result (λ L. L ≡ sample_presentation n) }
{
    let names = names(alloc)?;
    let words = words(alloc, n)?;
    let relators = relators(alloc, &words)?;
    if n / 4 % 2 == 0 {
        return Ok(made(names, relators, Vec::new(alloc), Vec::new(alloc)));
    }
    let mut endos = Vec::new(alloc);
    endos.push(exchange(alloc, &words)?)?;
    Ok(made(names, Vec::new(alloc), relators, endos))
}

/// The words that are drawn.
fn words(alloc: Global, n: u32) -> Result<Vec<Word>, NoMemory>
    requires { n ≤ max_sample }
    ensures { IfOk result (λ words. words.items ≡ drawn_words 30 n) }
{
    let mut draws = Draws::after(n);
    let mut words = Vec::new(alloc);
    for _ in 0..WORDS {
        words.push(draws.word(alloc)?)?;
    }
    Ok(words)
}

/// The third generator and those after it are these words.
fn relators(alloc: Global, words: &[Word]) -> Result<Vec<Word>, NoMemory>
    requires { AreDrawn words.now }
    ensures { IfOk result (λ relators. relators.items ≡ relators_from 3 words.now) }
{
    let mut relators = Vec::new(alloc);
    let mut i = 3u8;
    for word in words {
        relators.push(relator(alloc, i, word)?)?;
        i += 1;
    }
    Ok(relators)
}

/// The images of the generators under the exchange of the first two.
fn exchange(alloc: Global, words: &[Word]) -> Result<Vec<Word>, NoMemory>
    requires { AreDrawn words.now }
    ensures { IfOk result (λ images. images.items ≡ exchange words.now) }
{
    let mut images = Vec::new(alloc);
    images.push(word_of(alloc, &[2])?)?;
    images.push(word_of(alloc, &[1])?)?;
    for word in words {
        images.push(exchanged_word(alloc, word)?)?;
    }
    Ok(images)
}

/// The presentation of these parts.
fn made(names: Vec<Name>, fixed: Vec<Word>, iterated: Vec<Word>, endos: Vec<Vec<Word>>) -> LPres
    requires { IsPresentationWithinLimits (made_of names.items fixed.items iterated.items endos.items) }
    ensures { result ≡ made_of names.items fixed.items iterated.items endos.items }
{
    match LPres::of(names, fixed, iterated, endos) {
        Some(pres) => pres,
        None => unreachable!(),
    }
}
