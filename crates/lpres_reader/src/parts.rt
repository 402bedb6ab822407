//! A presentation of parts that are given, where they keep what a presentation keeps.

ghost use Rattle.std.specs.Prelude.{◌≡◌, ◌≤◌, All, map, IfSome, IfNone, MatchBool, MatchOption};
ghost use Rattle.pq_base.specs.Name.{IsName};
ghost use Rattle.pq_base.specs.SignedWord.{IsLetter, HasLetters};
ghost use Rattle.pq_base.specs.LPresentation.{AreDistinct};
ghost use Rattle.lpres_reader.specs.Parts.{IsPresentationWithinLimits, AreFew, AreKeptWords, AreKeptEndos, AreKeptRelators, HasWordLetters};
ghost use Rattle.lpres_reader.specs.Parts.{HasEndoLetters, HasRelatorLetters};
ghost use Rattle.lpres_reader.specs.Presentations.{made_of};

use crate::presentation::LPres;
use free_words::Word;
use pq_base::Name;
use pq_base::limits::{ENDOS, FIXED, GENERATORS, ITERATED, TOTAL};

impl LPres {
    /// The presentation of these parts, or `None` exactly where they break a condition that a presentation keeps: names are
    /// distinct, each letter is that of a generator, each endomorphism has one image for each generator, and no limit is
    /// passed. The parts are dropped then. Takes no memory.
    pub fn of(
        names: Vec<Name>,
        fixed: Vec<Word>,
        iterated: Vec<Word>,
        endos: Vec<Vec<Word>>,
    ) -> Option<LPres>
        ensures some { IfSome result (λ p. p ≡ made_of names.items fixed.items iterated.items endos.items) }
        ensures kept { IfSome result IsPresentationWithinLimits }
        ensures none { IfNone result (¬ IsPresentationWithinLimits (made_of names.items fixed.items iterated.items endos.items)) }
    {
        let generators = names.len();
        if !are_few(generators, fixed.len(), iterated.len(), endos.len())
            || !are_distinct(&names)
            || !are_kept(generators, &fixed, &iterated, &endos)
        {
            return None;
        }
        Some(LPres::of_parts(names, fixed, iterated, endos))
    }
}

/// Whether there are as many generators, relators and endomorphisms as a presentation may have.
fn are_few(generators: usize, fixed: usize, iterated: usize, endos: usize) -> bool
    ensures { MatchBool result (AreFew generators fixed iterated endos) (¬ AreFew generators fixed iterated endos) }
{
    (1..=GENERATORS).contains(&generators)
        && fixed <= FIXED
        && iterated <= ITERATED
        && endos <= ENDOS
}

/// Whether relators and images are over so many generators and have no more letters than those of a presentation.
fn are_kept(generators: usize, fixed: &[Word], iterated: &[Word], endos: &[Vec<Word>]) -> bool
    ensures { let images = map (λ f. f.items) endos.now in MatchBool result
        (HasRelatorLetters generators fixed.now iterated.now images)
        (¬ AreKeptRelators generators fixed.now iterated.now images) }
{
    let Some(letters) = word_letters(generators, 0, fixed) else {
        return false;
    };
    let Some(letters) = word_letters(generators, letters, iterated) else {
        return false;
    };
    endo_letters(generators, letters, endos).is_some()
}

/// The letters of words with those before, or `None` where a word is not over so many generators or the limit is passed.
fn word_letters(generators: usize, before: usize, words: &[Word]) -> Option<usize>
    requires { before ≤ 4194304 }
    ensures { MatchOption result (¬ AreKeptWords generators before words.now) (HasWordLetters generators before words.now) }
{
    let mut letters = before;
    for word in words {
        letters += word.letters().len();
        if letters > TOTAL || !is_over(generators, word) {
            return None;
        }
    }
    Some(letters)
}

/// The letters of images with those before, or `None` where an endomorphism has not one image over so many generators for
/// each of them, or the limit is passed.
fn endo_letters(generators: usize, before: usize, endos: &[Vec<Word>]) -> Option<usize>
    requires { before ≤ 4194304 }
    ensures { let images = map (λ f. f.items) endos.now in MatchOption result
        (¬ AreKeptEndos generators before images)
        (HasEndoLetters generators before images) }
{
    let mut letters = before;
    for images in endos {
        if images.len() != generators {
            return None;
        }
        letters = word_letters(generators, letters, images)?;
    }
    Some(letters)
}

/// Whether a word is over so many generators.
fn is_over(generators: usize, word: &Word) -> bool
    ensures { MatchBool result (HasLetters generators word.now) (¬ HasLetters generators word.now) }
{
    for k in word.letters() {
        if !is_letter(generators, *k) {
            return false;
        }
    }
    true
}

/// Whether a letter is one of so many generators.
fn is_letter(generators: usize, k: i32) -> bool
    ensures { MatchBool result (IsLetter generators k) (¬ IsLetter generators k) }
{
    k != 0 && k.unsigned_abs() as usize <= generators
}

/// Whether no two of the names are the same.
fn are_distinct(names: &[Name]) -> bool
    ensures { MatchBool result (All IsName names.now × AreDistinct names.now) (¬ AreDistinct names.now) }
{
    for (i, name) in names.iter().enumerate() {
        // says that it is a name
        let _bytes = name.bytes();
        if names[i + 1..].contains(name) {
            return false;
        }
    }
    true
}
