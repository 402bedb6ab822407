//! Words as values.

ghost use Rattle.std.specs.Prelude.{◌≡◌, ◌<◌, ◌≤◌, ℤ, List, length, [], IfOk, MatchResult};
ghost use Rattle.pq_base.specs.Limits.{max_letters};
ghost use Rattle.free_words.specs.declared.refusal.WordRefusal.TheVariants.{TooLong as TooManyLetters};
ghost use Rattle.free_words.specs.Letters.{AreLetters, IsWord};
ghost use Rattle.free_words.specs.Gives.{Gives, GivesRoom};

use crate::refusal::WordRefusal;
use pq_base::NoMemory;
use pq_base::limits::LETTERS;
use std::alloc::Global;
use std::marker::Model;

/// A word: the letter k is generator k, and -k its inverse. Contracts see it as the list of its letters.
#[derive(Debug, Drop)]
pub struct Word {
    letters: Vec<i32>,
}

impl Model for Word {
    ghost use Rattle.std.specs.Prelude.{ℤ, List};
    ghost use Rattle.free_words.specs.Letters.{IsWord};

    ghost Value = { List ℤ };

    ghost view = { λ w. w.letters.items };

    ghost invariant = { λ w. IsWord w.letters.items };
}

impl Word {
    /// The word of these letters, of which none is 0 or `i32::MIN`. More than 65,536 of them are refused as `TooLong` with
    /// their number.
    pub fn of(alloc: Global, letters: &[i32]) -> Result<Word, WordRefusal>
        requires { AreLetters letters.now }
        ensures { Gives result letters.now }
    {
        let mut copy = room_for(alloc, letters.len() as u64)?;
        copy.extend_from_slice(letters)?;
        Ok(Word { letters: copy })
    }

    /// The letters of the word.
    pub fn letters(&self) -> &[i32]
        ensures value { result.now ≡ self.now }
        ensures letters { AreLetters self.now }
        ensures limit { length self.now ≤ max_letters }
    {
        self.letters.as_slice()
    }

    /// An equal word.
    pub fn duplicate(&self) -> Result<Word, NoMemory>
        ensures { IfOk result (λ w. w ≡ self.now) }
    {
        Ok(Word {
            letters: Vec::from_slice(*self.letters.allocator(), self.letters.as_slice())?,
        })
    }

    /// The word of these letters, without copying them.
    pub(crate) fn from_vec(letters: Vec<i32>) -> Word
        requires { IsWord letters.items }
        ensures { result ≡ letters.items }
    {
        Word { letters }
    }

    /// The letters of the word, without copying them.
    pub(crate) fn into_vec(self) -> Vec<i32>
        ensures value { result.items ≡ self }
        ensures letters { AreLetters self }
        ensures limit { length self ≤ max_letters }
    {
        self.letters
    }
}

/// Refuses a word that would have too many letters.
pub(crate) fn check_length(letters: u64) -> Result<(), WordRefusal>
    ensures { MatchResult result (λ _. letters ≤ max_letters) (λ e. (e ≡ TooManyLetters letters) × (max_letters < letters)) }
{
    if letters > LETTERS as u64 {
        return Err(WordRefusal::TooLong(letters));
    }
    Ok(())
}

/// An empty list with room for this many letters, if that isn't above the limit.
pub(crate) fn room_for(alloc: Global, letters: u64) -> Result<Vec<i32>, WordRefusal>
    ensures { GivesRoom result letters }
{
    check_length(letters)?;
    Ok(Vec::with_capacity(alloc, letters as usize)?)
}
