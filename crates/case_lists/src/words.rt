//! Words as cases write them.

use crate::checks::are_letters;
use crate::text::numbers;
use anyhow::{Result, bail};
use free_words::{Word, power};
use std::alloc::Global;

/// The word that a text is: its letters with blanks between them, a negative number for an inverse, and `N of LETTERS` for the word
/// so many times.
pub fn word_of(alloc: Global, text: &str) -> Result<Word> {
    let (times, letters) = text.split_once(" of ").unwrap_or(("1", text));
    let letters = numbers::<i32>(alloc, letters)?;
    if !are_letters(&letters) {
        bail!("a letter 0");
    }
    let word = Word::of(alloc, &letters)?;
    Ok(power(alloc, &word, times.trim().parse::<i32>()?)?)
}
