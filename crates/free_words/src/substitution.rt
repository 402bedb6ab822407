//! Replacing the generators of a word by words.

ghost use Rattle.std.specs.Prelude.{◌≡◌, ◌++◌, ◌≤◌, ◌-◌, OnOk, length, slice_index_or, [], unsigned_abs};
ghost use Rattle.pq_base.specs.Limits.{max_letters};
ghost use Rattle.pq_base.specs.SignedWord.{image_of, sub, IsLetter, HasLetters};
ghost use Rattle.free_words.specs.Letters.{AreLetters};
ghost use Rattle.free_words.specs.Gives.{Gives};

use crate::pieces::push_inverse;
use crate::refusal::WordRefusal;
use crate::word::{Word, room_for};
use std::alloc::{AllocError, Global};

/// The word with each generator replaced by its image, the first image for generator 1. Above 65,536 letters it is
/// refused as `TooLong` with its length, before memory is taken for it.
pub fn substitute(alloc: Global, w: &Word, images: &[Word]) -> Result<Word, WordRefusal>
    requires { HasLetters (length images.now) w.now }
    ensures { Gives result (sub w.now images.now) }
{
    let word = w.letters();
    let mut letters = room_for(alloc, substituted_len(word, images))?;
    for k in word {
        push_image(&mut letters, images, *k)?;
    }
    Ok(Word::from_vec(letters))
}

/// How many letters the substituted word has.
fn substituted_len(word: &[i32], images: &[Word]) -> u64
    requires range { HasLetters (length images.now) word.now }
    requires limit { length word.now ≤ max_letters }
    ensures { result ≡ length (sub word.now images.now) }
{
    let mut len = 0;
    for k in word {
        len += image_at(images, *k).letters().len() as u64;
    }
    len
}

/// The word that stands for the generator of a letter.
fn image_at(images: &[Word], k: i32) -> &Word
    requires { IsLetter (length images.now) k }
    ensures { result.now ≡ slice_index_or images.now (unsigned_abs k - 1) [] }
{
    &images[k.unsigned_abs() as usize - 1]
}

/// Puts what stands for a letter at the end.
fn push_image(out: &mut Vec<i32>, images: &[Word], k: i32) -> Result<(), AllocError>
    requires { IsLetter (length images.now) k }
    ensures image { OnOk result (out.new.items ≡ out.old.items ++ image_of images.now k) }
    ensures letters { AreLetters (image_of images.now k) }
{
    let image = image_at(images, k).letters();
    if k < 0 {
        push_inverse(out, image)
    } else {
        out.extend_from_slice(image)
    }
}
