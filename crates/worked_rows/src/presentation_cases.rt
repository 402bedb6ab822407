//! Texts of presentations. `read` reads the text of the case, and `read TEXT` this text: the answer is the canonical text
//! of what it means, which reads back as that, and so does a copy; or the line and the kind of its first fault. Of what
//! was read last, `along NUMBERS / LETTERS` is the image of a word along endomorphisms, and `trivial P` the answer of class 0.

use crate::word_cases::show_word;
use anyhow::{Result, bail};
use case_lists::text::{Text, halves, numbers, show, unescaped};
use case_lists::{Cases, are_endo_numbers, is_over, prime_of, read_short, show_answer, word_of};
use free_words::Word;
use lpres_reader::{Kind, LPres, ReadRefusal, along, write};
use pc_presentation::Answer;
use std::alloc::Global;

#[derive(Drop)]
pub(crate) struct PresentationCases {
    alloc: Global,
    text: Text,
    read: Option<LPres>,
}

impl Cases for PresentationCases {
    fn new(alloc: Global) -> PresentationCases {
        PresentationCases {
            alloc,
            text: Text::new(alloc),
            read: None,
        }
    }

    fn act(&mut self, verb: &str, rest: &str, out: &mut String) -> Result<()> {
        if self.text.add(verb, rest)? {
            return Ok(());
        }
        if verb == "read" {
            return self.read(rest, out);
        }
        let Some(pres) = &self.read else {
            bail!("no presentation");
        };
        match verb {
            "along" => show_along(self.alloc, pres, rest, out),
            "trivial" => show_trivial(self.alloc, pres, rest, out),
            _ => bail!("no such verb"),
        }
    }
}

impl PresentationCases {
    fn read(&mut self, rest: &str, out: &mut String) -> Result<()> {
        let text = if rest.is_empty() {
            Vec::from_slice(self.alloc, self.text.bytes())?
        } else {
            unescaped(self.alloc, rest)?
        };
        match read_short(self.alloc, &text)? {
            Ok(pres) => {
                show_presentation(self.alloc, &pres, out)?;
                self.read = Some(pres);
            }
            Err(ReadRefusal::Text(fault)) => show_fault(fault.line, fault.kind, out)?,
            Err(ReadRefusal::NoMemory) => bail!("no memory"),
        }
        Ok(())
    }
}

fn show_fault(line: u32, kind: Kind, out: &mut String) -> Result<()> {
    match kind {
        Kind::Limit(which, number) => writeln!(out, "    line {line}: {which:?} {number}")?,
        _ => writeln!(out, "    line {line}: {kind:?}")?,
    }
    Ok(())
}

/// Writes the canonical text of a presentation, which reads back as it.
pub(crate) fn show_presentation(alloc: Global, pres: &LPres, out: &mut String) -> Result<()> {
    let text = write(alloc, pres)?;
    show(out, &text)?;
    if !is_read_back(alloc, &text)? {
        writeln!(out, "    read back otherwise")?;
    }
    if !is_copied(alloc, pres, &text)? {
        writeln!(out, "    copied otherwise")?;
    }
    Ok(())
}

/// Whether a text reads as a presentation whose canonical text it is.
fn is_read_back(alloc: Global, text: &[u8]) -> Result<bool> {
    match read_short(alloc, text)? {
        Ok(pres) => Ok(write(alloc, &pres)?.as_slice() == text),
        Err(_) => Ok(false),
    }
}

/// Whether a copy of a presentation has this text.
fn is_copied(alloc: Global, pres: &LPres, text: &[u8]) -> Result<bool> {
    let copy = pres.duplicate()?;
    Ok(write(alloc, &copy)?.as_slice() == text)
}

fn show_along(alloc: Global, pres: &LPres, rest: &str, out: &mut String) -> Result<()> {
    let (path, letters) = halves(rest, "/")?;
    let path = numbers::<u8>(alloc, path)?;
    let word = word_of(alloc, letters)?;
    show_image(alloc, pres, &path, &word, out)
}

fn show_image(
    alloc: Global,
    pres: &LPres,
    path: &[u8],
    word: &Word,
    out: &mut String,
) -> Result<()> {
    if !are_endo_numbers(pres.endos().len(), path) || !is_over(pres.names().len(), word.letters()) {
        bail!("out of range");
    }
    show_word(out, along(alloc, pres, path, word))
}

fn show_trivial(alloc: Global, pres: &LPres, rest: &str, out: &mut String) -> Result<()> {
    let answer = Answer::trivial(alloc, prime_of(rest)?, pres.names())?;
    show_answer(alloc, &answer, out)
}
