//! Presentations that are made of parts. `names X Y ..`, `fixed N / LETTERS` and `iterated N / LETTERS` for N relators with
//! these letters, and `endo LETTERS / LETTERS ..` give parts; `make` makes a presentation of them and forgets them: the
//! answer is its canonical text, or that it is refused.

use crate::presentation_cases::show_presentation;
use anyhow::{Result, bail};
use case_lists::text::halves;
use case_lists::{Cases, word_of};
use free_words::Word;
use lpres_reader::LPres;
use pq_base::Name;
use std::alloc::Global;

#[derive(Drop)]
pub(crate) struct PartsCases {
    alloc: Global,
    names: Vec<Name>,
    fixed: Vec<Word>,
    iterated: Vec<Word>,
    endos: Vec<Vec<Word>>,
}

impl Cases for PartsCases {
    fn new(alloc: Global) -> PartsCases {
        PartsCases {
            alloc,
            names: Vec::new(alloc),
            fixed: Vec::new(alloc),
            iterated: Vec::new(alloc),
            endos: Vec::new(alloc),
        }
    }

    fn act(&mut self, verb: &str, rest: &str, out: &mut String) -> Result<()> {
        match verb {
            "names" => self.names = names_of(self.alloc, rest)?,
            "fixed" => add_words(&mut self.fixed, rest)?,
            "iterated" => add_words(&mut self.iterated, rest)?,
            "endo" => self.endos.push(images_of(self.alloc, rest)?)?,
            "make" => self.make(out)?,
            _ => bail!("no such verb"),
        }
        Ok(())
    }
}

impl PartsCases {
    fn make(&mut self, out: &mut String) -> Result<()> {
        let names = std::mem::replace(&mut self.names, Vec::new(self.alloc));
        let fixed = std::mem::replace(&mut self.fixed, Vec::new(self.alloc));
        let iterated = std::mem::replace(&mut self.iterated, Vec::new(self.alloc));
        let endos = std::mem::replace(&mut self.endos, Vec::new(self.alloc));
        match LPres::of(names, fixed, iterated, endos) {
            Some(pres) => show_presentation(self.alloc, &pres, out)?,
            None => writeln!(out, "    refused")?,
        }
        Ok(())
    }
}

/// The names that a text has between its blanks.
pub(crate) fn names_of(alloc: Global, text: &str) -> Result<Vec<Name>> {
    let mut names = Vec::new(alloc);
    for word in text.split_whitespace() {
        match Name::of(word.as_bytes()) {
            Some(name) => names.push(name)?,
            None => bail!("no name"),
        }
    }
    Ok(names)
}

/// Puts so many equal words at the end.
fn add_words(words: &mut Vec<Word>, rest: &str) -> Result<()> {
    let (times, letters) = halves(rest, "/")?;
    let word = word_of(*words.allocator(), letters)?;
    for _ in 0..times.parse::<u32>()? {
        words.push(word.duplicate()?)?;
    }
    Ok(())
}

fn images_of(alloc: Global, text: &str) -> Result<Vec<Word>> {
    let mut images = Vec::new(alloc);
    for letters in text.split('/') {
        images.push(word_of(alloc, letters)?)?;
    }
    Ok(images)
}
