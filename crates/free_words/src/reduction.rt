//! Taking cancelling letters out of a word.

ghost use Rattle.std.specs.Prelude.{IfOk, OnOk};
ghost use Rattle.pq_base.specs.SignedWord.{IsLetter};
ghost use Rattle.free_words.specs.Reduced.{IsReduced, ReducesTo, TakesLetter};

use crate::pieces::inverted;
use crate::word::Word;
use pq_base::NoMemory;
use std::alloc::{AllocError, Global};

/// The word with cancelling neighbours taken out until there are none.
pub fn reduce_free(alloc: Global, w: &Word) -> Result<Word, NoMemory>
    ensures reduced { IfOk result (λ r. IsReduced r) }
    ensures reached { IfOk result (λ r. ReducesTo w.now r) }
{
    let word = w.letters();
    let mut letters = Vec::with_capacity(alloc, word.len())?;
    for k in word {
        take_letter(&mut letters, *k)?;
    }
    Ok(Word::from_vec(letters))
}

/// Takes the last letter off where the next one cancels it, and puts the next one at the end otherwise.
fn take_letter(letters: &mut Vec<i32>, next: i32) -> Result<(), AllocError>
    requires { IsLetter 2147483647 next }
    ensures { OnOk result (TakesLetter letters.old.items next letters.new.items) }
{
    if letters.last() == Some(&inverted(next)) {
        letters.pop();
        return Ok(());
    }
    letters.push(next)?;
    Ok(())
}
