//! Products, inverses, powers, commutators and conjugates of words. Where the word would have more than 65,536 letters
//! it is refused as `TooLong` with its length, before memory is taken for it.

ghost use Rattle.std.specs.Prelude.{◌≡◌, [], ◌∷◌, ◌++◌, IfOk, OnOk};
ghost use Rattle.pq_base.specs.SignedWord.{inv, pow, comm, conj, IsLetter};
ghost use Rattle.free_words.specs.Gives.{Gives};

use crate::pieces::{push_copies, push_inverse};
use crate::refusal::WordRefusal;
use crate::word::{Word, check_length, room_for};
use pq_base::NoMemory;
use std::alloc::Global;

/// The letters of `u`, then those of `v`.
pub fn product(alloc: Global, u: &Word, v: &Word) -> Result<Word, WordRefusal>
    ensures { Gives result (u.now ++ v.now) }
{
    let (left, right) = (u.letters(), v.letters());
    let mut letters = room_for(alloc, (left.len() + right.len()) as u64)?;
    letters.extend_from_slice(left)?;
    letters.extend_from_slice(right)?;
    Ok(Word::from_vec(letters))
}

/// The same of a word that grows in place: the time of many calls is in proportion to the letters that are added.
pub fn extended(u: Word, v: &Word) -> Result<Word, WordRefusal>
    ensures { Gives result (u ++ v.now) }
{
    let mut letters = u.into_vec();
    let more = v.letters();
    check_length((letters.len() + more.len()) as u64)?;
    letters.extend_from_slice(more)?;
    Ok(Word::from_vec(letters))
}

/// The same with one letter.
pub fn extended_by(u: Word, letter: i32) -> Result<Word, WordRefusal>
    requires { IsLetter 2147483647 letter }
    ensures { Gives result (u ++ letter ∷ []) }
{
    let mut letters = u.into_vec();
    check_length(letters.len() as u64 + 1)?;
    letters.push(letter)?;
    Ok(Word::from_vec(letters))
}

/// The word backwards, each letter inverted.
pub fn inverse(alloc: Global, u: &Word) -> Result<Word, NoMemory>
    ensures { IfOk result (λ w. w ≡ inv u.now) }
{
    let word = u.letters();
    let mut letters = Vec::with_capacity(alloc, word.len())?;
    push_inverse(&mut letters, word)?;
    Ok(Word::from_vec(letters))
}

/// As many copies of the word, or for a negative number as many of its inverse.
#[tactic(auto, using(crate::proofs::Lengths::word_lengths))]
pub fn power(alloc: Global, u: &Word, n: i32) -> Result<Word, WordRefusal>
    ensures { Gives result (pow u.now n) }
{
    let size = u64::from(n.unsigned_abs()) * u.letters().len() as u64;
    let mut letters = room_for(alloc, size)?;
    push_power(alloc, &mut letters, u, n)?;
    Ok(Word::from_vec(letters))
}

/// Puts a power at the end.
fn push_power(alloc: Global, out: &mut Vec<i32>, u: &Word, n: i32) -> Result<(), NoMemory>
    ensures { OnOk result (out.new.items ≡ out.old.items ++ pow u.now n) }
{
    if n < 0 {
        let v = inverse(alloc, u)?;
        push_copies(out, v.letters(), n.unsigned_abs())?;
        Ok(())
    } else {
        push_copies(out, u.letters(), n.unsigned_abs())?;
        Ok(())
    }
}

/// The commutator `u⁻¹ v⁻¹ u v`.
#[tactic(auto, using(crate::proofs::Lengths::word_lengths))]
pub fn commutator(alloc: Global, u: &Word, v: &Word) -> Result<Word, WordRefusal>
    ensures { Gives result (comm u.now v.now) }
{
    let (first, second) = (u.letters(), v.letters());
    let mut letters = room_for(alloc, 2 * (first.len() + second.len()) as u64)?;
    push_inverse(&mut letters, first)?;
    push_inverse(&mut letters, second)?;
    letters.extend_from_slice(first)?;
    letters.extend_from_slice(second)?;
    Ok(Word::from_vec(letters))
}

/// The conjugate `v⁻¹ u v`.
#[tactic(auto, using(crate::proofs::Lengths::word_lengths))]
pub fn conjugate(alloc: Global, u: &Word, v: &Word) -> Result<Word, WordRefusal>
    ensures { Gives result (conj u.now v.now) }
{
    let (middle, outer) = (u.letters(), v.letters());
    let mut letters = room_for(alloc, (middle.len() + 2 * outer.len()) as u64)?;
    push_inverse(&mut letters, outer)?;
    letters.extend_from_slice(middle)?;
    letters.extend_from_slice(outer)?;
    Ok(Word::from_vec(letters))
}
