//! Calls on words. A word is its letters with blanks between them, a negative number for an inverse, and words are parted
//! by `/`: `product U / V`, `extended U / V`, `extended_by U / K`, `inverse U`, `power U / N`, `commutator U / V`,
//! `conjugate U / V`, `substitute U / V / ..`, `reduced U` and `copy U`. `N of LETTERS` is the word so many times.

use anyhow::{Result, bail};
use case_lists::text::show_numbers;
use case_lists::{Cases, is_letter, is_over, word_of};
use free_words::{
    Word, WordRefusal, commutator, conjugate, extended, extended_by, inverse, power, product,
    reduce_free, substitute,
};
use std::alloc::Global;

#[derive(Drop)]
pub(crate) struct WordCases {
    alloc: Global,
}

impl Cases for WordCases {
    fn new(alloc: Global) -> WordCases {
        WordCases { alloc }
    }

    fn act(&mut self, verb: &str, rest: &str, out: &mut String) -> Result<()> {
        let alloc = self.alloc;
        let (first, second) = rest.split_once('/').unwrap_or((rest, ""));
        match verb {
            "inverse" | "reduced" | "copy" => show_word(out, of_one(alloc, verb, first)?),
            "power" | "extended_by" => { show_word(out, of_number(alloc, verb, first, second)?) }
            "substitute" => show_word(out, substituted(alloc, first, second)?),
            _ => show_word(out, of_two(alloc, verb, first, second)?),
        }
    }
}

fn of_one(alloc: Global, verb: &str, text: &str) -> Result<Result<Word, WordRefusal>> {
    let word = word_of(alloc, text)?;
    Ok(match verb {
        "inverse" => inverse(alloc, &word).map_err(|_| WordRefusal::NoMemory),
        "reduced" => reduce_free(alloc, &word).map_err(|_| WordRefusal::NoMemory),
        _ => word.duplicate().map_err(|_| WordRefusal::NoMemory),
    })
}

fn of_number(
    alloc: Global,
    verb: &str,
    text: &str,
    number: &str,
) -> Result<Result<Word, WordRefusal>> {
    let word = word_of(alloc, text)?;
    let number = number.trim().parse::<i32>()?;
    if verb == "power" {
        return Ok(power(alloc, &word, number));
    }
    if !is_letter(number) {
        bail!("a letter 0");
    }
    Ok(extended_by(word, number))
}

fn of_two(
    alloc: Global,
    verb: &str,
    first: &str,
    second: &str,
) -> Result<Result<Word, WordRefusal>> {
    let u = word_of(alloc, first)?;
    let v = word_of(alloc, second)?;
    match verb {
        "product" => Ok(product(alloc, &u, &v)),
        "extended" => Ok(extended(u, &v)),
        "commutator" => Ok(commutator(alloc, &u, &v)),
        "conjugate" => Ok(conjugate(alloc, &u, &v)),
        _ => bail!("no such verb"),
    }
}

fn substituted(alloc: Global, word: &str, images: &str) -> Result<Result<Word, WordRefusal>> {
    let word = word_of(alloc, word)?;
    let mut list = Vec::new(alloc);
    for image in images.split('/') {
        list.push(word_of(alloc, image)?)?;
    }
    if !is_over(list.len(), word.letters()) {
        bail!("a letter without an image");
    }
    Ok(substitute(alloc, &word, &list))
}

/// Writes the letters of a word, or how many there are where they are many.
pub(crate) fn show_word(out: &mut String, word: Result<Word, WordRefusal>) -> Result<()> {
    match word {
        Ok(word) if word.letters().len() <= 40 => {
            out.push_str("   ")?;
            show_numbers(out, word.letters())?;
            out.push('\n')?;
        }
        Ok(word) => {
            let length = word.letters().len();
            writeln!(out, "    {length} letters")?;
        }
        Err(WordRefusal::TooLong(length)) => writeln!(out, "    too long: {length} letters")?,
        Err(WordRefusal::NoMemory) => writeln!(out, "    no memory")?,
    }
    Ok(())
}
