//! Relations, words of generators and overlaps as cases write them.

use anyhow::{Result, bail};
use case_lists::text::halves;
use pc_presentation::{Overlap, Relation, Syllable};
use std::alloc::Global;

/// The number of a generator `aK`.
fn generator_of(text: &str) -> Result<u16> {
    match text.trim().strip_prefix('a') {
        Some(number) => Ok(number.parse::<u16>()?),
        None => bail!("no generator: {text}"),
    }
}

/// The relation with the left side `[aJ,aI]` or `aI^P`.
pub(crate) fn relation_of(text: &str) -> Result<Relation> {
    match text.strip_prefix('[') {
        Some(pair) => {
            let (j, i) = halves(pair.trim_end_matches(']'), ",")?;
            Ok(Relation::Commutator(generator_of(j)?, generator_of(i)?))
        }
        None => {
            let (i, _prime) = halves(text, "^")?;
            Ok(Relation::Power(generator_of(i)?))
        }
    }
}

/// The syllables of a word, as `a1^2*a3`, or none of `1`.
pub(crate) fn syllables_of(alloc: Global, text: &str) -> Result<Vec<Syllable>> {
    let mut word = Vec::new(alloc);
    if text.trim() == "1" {
        return Ok(word);
    }
    for part in text.split('*') {
        word.push(syllable_of(part)?)?;
    }
    Ok(word)
}

fn syllable_of(text: &str) -> Result<Syllable> {
    let (generator, exponent) = text.split_once('^').unwrap_or((text, "1"));
    Ok(Syllable {
        generator: generator_of(generator)?,
        exponent: exponent.trim().parse::<u8>()?,
    })
}

/// The overlap `triple K J I`, `left J I`, `right J I` or `own I`.
pub(crate) fn overlap_of(kind: &str, numbers: &[u16]) -> Result<Overlap> {
    match (kind, numbers) {
        ("triple", [k, j, i]) => Ok(Overlap::Triple(*k, *j, *i)),
        ("left", [j, i]) => Ok(Overlap::Left(*j, *i)),
        ("right", [j, i]) => Ok(Overlap::Right(*j, *i)),
        ("own", [i]) => Ok(Overlap::Own(*i)),
        _ => bail!("no overlap"),
    }
}

/// Writes a word of syllables.
pub(crate) fn show_syllables(out: &mut String, word: &[Syllable]) -> Result<()> {
    if word.is_empty() {
        out.push('1')?;
    }
    for (place, s) in word.iter().enumerate() {
        if place > 0 {
            out.push('*')?;
        }
        let generator = s.generator;
        let exponent = s.exponent;
        if exponent == 1 {
            write!(out, "a{generator}")?;
        } else {
            write!(out, "a{generator}^{exponent}")?;
        }
    }
    Ok(())
}

/// Writes an overlap.
pub(crate) fn show_overlap(out: &mut String, overlap: Overlap) -> Result<()> {
    match overlap {
        Overlap::Triple(k, j, i) => write!(out, "triple {k} {j} {i}")?,
        Overlap::Left(j, i) => write!(out, "left {j} {i}")?,
        Overlap::Right(j, i) => write!(out, "right {j} {i}")?,
        Overlap::Own(i) => write!(out, "own {i}")?,
    }
    Ok(())
}
