//! Copies of words.

ghost use Rattle.std.specs.Prelude.{◌≡◌, IfOk, replicate, []};
ghost use Rattle.pc_presentation.specs.Parts.{words_of};

use crate::syllable::Syllable;
use pq_base::NoMemory;
use std::alloc::Global;

/// Equal words.
pub(crate) fn words_copied(
    alloc: Global,
    words: &[Vec<Syllable>],
) -> Result<Vec<Vec<Syllable>>, NoMemory>
    ensures { IfOk result (λ v. words_of v.items ≡ words_of words.now) }
{
    let mut copies = Vec::new(alloc);
    for word in words {
        copies.push(Vec::from_slice(alloc, word.as_slice())?)?;
    }
    Ok(copies)
}

/// So many empty words.
pub(crate) fn empty_words(alloc: Global, count: usize) -> Result<Vec<Vec<Syllable>>, NoMemory>
    ensures { IfOk result (λ v. words_of v.items ≡ replicate count []) }
{
    let mut words = Vec::new(alloc);
    for _ in 0..count {
        words.push(Vec::new(alloc))?;
    }
    Ok(words)
}
