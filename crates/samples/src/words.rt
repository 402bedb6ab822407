//! Words that are short enough, from the words that are drawn.

ghost use Rattle.std.specs.Prelude.{◌≡◌, ◌<◌, ◌≤◌, ◌∷◌, [], ◌++◌, ◌+◌, ℕ, ℤ, pos, List, Ok, IfOk, length, map, neg_ℤ};
ghost use Rattle.pq_base.specs.SignedWord.{inv};
ghost use Rattle.free_words.specs.Letters.{AreLetters};
ghost use Rattle.samples.specs.Samples.{exchanged};
ghost use Rattle.samples.specs.Pieces.{IsNotTooLong};

use free_words::{Word, WordRefusal, inverse, product};
use pq_base::NoMemory;
use std::alloc::Global;

/// A word of few letters.
pub(crate) fn word_of(alloc: Global, letters: &[i32]) -> Result<Word, NoMemory>
    requires letters { AreLetters letters.now }
    requires few { length letters.now ≤ 1000 }
    ensures { IfOk result (λ w. w ≡ letters.now) }
{
    short(Word::of(alloc, letters))
}

/// Generator i is this word.
pub(crate) fn relator(alloc: Global, i: u8, word: &Word) -> Result<Word, NoMemory>
    requires generator { 0 < i }
    requires few { length word.now ≤ 1000 }
    ensures { IfOk result (λ w. w ≡ pos i ∷ inv word.now) }
{
    let generator = word_of(alloc, &[i32::from(i)])?;
    let inverse = inverse(alloc, word)?;
    short(product(alloc, &generator, &inverse))
}

/// The word with the letters 1 and 2 exchanged.
pub(crate) fn exchanged_word(alloc: Global, word: &Word) -> Result<Word, NoMemory>
    requires { length word.now ≤ 1000 }
    ensures { IfOk result (λ w. w ≡ map exchanged word.now) }
{
    let mut letters = Vec::new(alloc);
    for k in word.letters() {
        letters.push(exchanged(*k))?;
    }
    word_of(alloc, &letters)
}

fn exchanged(k: i32) -> i32
    ensures { result ≡ exchanged k }
{
    match k {
        1 => 2,
        2 => 1,
        -1 => -2,
        -2 => -1,
        _ => k,
    }
}

/// A word that isn't too long.
fn short(word: Result<Word, WordRefusal>) -> Result<Word, NoMemory>
    requires { IsNotTooLong word }
    ensures { IfOk result (λ w. word ≡ Ok w) }
{
    match word {
        Ok(word) => Ok(word),
        Err(WordRefusal::NoMemory) => Err(NoMemory),
        Err(WordRefusal::TooLong(_)) => unreachable!(),
    }
}
