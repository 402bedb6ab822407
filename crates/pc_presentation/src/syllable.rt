//! Syllables: the words of a presentation are lists of them.

ghost use Rattle.std.specs.Prelude.{◌≡◌, ◌↔◌, IsTrue};
ghost use Rattle.pc_presentation.specs.Syllable.{AreGenerators, AreLater, is_normal_from, AreSyllables, IsGenerator};
ghost use Rattle.pc_presentation.specs.Syllable.{SparseWordsAreExponents};

/// A generator, counted from 1, to an exponent.
#[derive(Clone, Copy, Debug, PartialEq, Eq)]
pub struct Syllable {
    pub generator: u16,
    pub exponent: u8,
}

/// Whether each generator is one of `rank`.
pub(crate) fn are_generators(word: &[Syllable], rank: u16) -> bool
    ensures { IsTrue result ↔ AreGenerators rank word.now }
{
    word.iter().all(|s| 1 <= s.generator && s.generator <= rank)
}

/// Whether each generator comes after this one.
pub(crate) fn are_later(word: &[Syllable], generator: u16) -> bool
    ensures { IsTrue result ↔ AreLater generator word.now }
{
    word.iter().all(|s| generator < s.generator)
}

/// Whether generators rise strictly, and exponents are from 1 to below the prime.
pub(crate) fn is_normal(word: &[Syllable], prime: u8) -> bool
    ensures { result ≡ is_normal_from prime 0 word.now }
{
    let mut last = 0;
    for s in word {
        if s.generator <= last || s.exponent == 0 || prime <= s.exponent {
            return false;
        }
        last = s.generator;
    }
    true
}

/// Whether the word is normal, over `rank` generators.
pub(crate) fn are_syllables(word: &[Syllable], prime: u8, rank: u16) -> bool
    ensures { IsTrue result ↔ AreSyllables prime rank 0 word.now }
{
    are_generators(word, rank) && is_normal(word, prime)
}

/// Whether the word is this generator alone.
pub(crate) fn is_generator(word: &[Syllable], generator: u16) -> bool
    ensures { IsTrue result ↔ IsGenerator generator word.now }
{
    match word {
        [s] => s.generator == generator && s.exponent == 1,
        _ => false,
    }
}

/// Sparse words and lists of exponents are two forms of one thing: the list of a normal word gives that word back, a list of
/// residues gives a normal word that gives the list back, and both have the same letters.
#[tactic(auto, using(crate::proofs::presentations::SyllableLaws::sparse_words_are_exponents))]
pub fn sparse_words_are_exponents()
    ensures { SparseWordsAreExponents }
{}
