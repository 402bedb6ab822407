//! Writing the letters of a recipe.

ghost use Rattle.std.specs.Prelude.{◌≡◌, ◌++◌, pos, suc, take, drop, IfOk, OnOk};
ghost use Rattle.pq_base.specs.SignedWord.{comm, conj, IsLetter};
ghost use Rattle.free_words.specs.Letters.{AreLetters};
ghost use Rattle.lpres_reader.specs.Recipes.{signed, power_of, last, without_last, step_on};

use crate::recipe::{Recipe, Step};
use free_words::{Word, push_inverse};
use pq_base::NoMemory;
use std::alloc::{AllocError, Global};

/// The word of a recipe, which has at most 65,536 letters.
pub(crate) fn write_word(alloc: Global, recipe: &Recipe) -> Result<Word, NoMemory>
    ensures { IfOk result (λ w. w ≡ recipe.now) }
{
    let mut out = Vec::with_capacity(alloc, recipe.letters())?;
    for step in recipe.steps() {
        take_step(&mut out, *step)?;
    }
    match Word::of(alloc, &out) {
        Ok(word) => Ok(word),
        Err(_) => Err(NoMemory),
    }
}

/// One step more.
fn take_step(out: &mut Vec<i32>, step: Step) -> Result<(), AllocError>
    requires { AreLetters out.old.items }
    ensures written { OnOk result (out.new.items ≡ step_on out.old.items step) }
    ensures letters { OnOk result (AreLetters out.new.items) }
{
    match step {
        Step::Generator(place) => {
            out.push(letter_at(place))?;
            Ok(())
        }
        Step::Raise(letters, inverted, times) => {
            let word = cut_off(out, letters as usize)?;
            push_power(out, &word, inverted, times)
        }
        Step::Conjugate(by, base) => {
            let end = cut_off(out, by as usize + base as usize)?;
            let (outer, middle) = cut_in_two(&end, by as usize);
            push_conjugate(out, middle, outer)
        }
        Step::Commute(first, second) => {
            let end = cut_off(out, first as usize + second as usize)?;
            let (left, right) = cut_in_two(&end, first as usize);
            push_commutator(out, left, right)
        }
    }
}

/// The letter of the generator at a place, counted from 0.
fn letter_at(place: u8) -> i32
    ensures letter { result ≡ pos (suc place) }
    ensures fits { IsLetter 2147483647 result }
{
    i32::from(place) + 1
}

/// Takes so many letters off the end.
fn cut_off(out: &mut Vec<i32>, letters: usize) -> Result<Vec<i32>, AllocError>
    ensures left { OnOk result (out.new.items ≡ without_last letters out.old.items) }
    ensures taken { IfOk result (λ end. end.items ≡ last letters out.old.items) }
{
    let at = out.len().saturating_sub(letters);
    out.split_off(at)
}

/// The first letters of a word, and those behind them.
fn cut_in_two(word: &[i32], at: usize) -> (&[i32], &[i32])
    ensures first { result.0.now ≡ take at word.now }
    ensures second { result.1.now ≡ drop at word.now }
{
    word.split_at(at.min(word.len()))
}

/// Puts a word at the end, or its inverse.
fn push_signed(out: &mut Vec<i32>, word: &[i32], inverted: bool) -> Result<(), AllocError>
    requires { AreLetters word.now }
    ensures { OnOk result (out.new.items ≡ out.old.items ++ signed inverted word.now) }
{
    if inverted {
        push_inverse(out, word)
    } else {
        out.extend_from_slice(word)
    }
}

/// Puts so many copies of a word at the end, or of its inverse.
fn push_power(
    out: &mut Vec<i32>,
    word: &[i32],
    inverted: bool,
    times: u32,
) -> Result<(), AllocError>
    requires { AreLetters word.now }
    ensures { OnOk result (out.new.items ≡ out.old.items ++ power_of inverted word.now times) }
{
    for _ in 0..times {
        push_signed(out, word, inverted)?;
    }
    Ok(())
}

/// Puts the conjugate of a word by another one at the end.
fn push_conjugate(out: &mut Vec<i32>, middle: &[i32], outer: &[i32]) -> Result<(), AllocError>
    requires { AreLetters outer.now }
    ensures { OnOk result (out.new.items ≡ out.old.items ++ conj middle.now outer.now) }
{
    push_inverse(out, outer)?;
    out.extend_from_slice(middle)?;
    out.extend_from_slice(outer)
}

/// Puts the commutator of two words at the end.
fn push_commutator(out: &mut Vec<i32>, left: &[i32], right: &[i32]) -> Result<(), AllocError>
    requires left { AreLetters left.now }
    requires right { AreLetters right.now }
    ensures { OnOk result (out.new.items ≡ out.old.items ++ comm left.now right.now) }
{
    push_inverse(out, left)?;
    push_inverse(out, right)?;
    out.extend_from_slice(left)?;
    out.extend_from_slice(right)
}
