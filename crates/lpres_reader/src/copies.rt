//! Copies of presentations.

ghost use Rattle.std.specs.Prelude.{◌≡◌, IfOk, map};

use crate::presentation::LPres;
use free_words::Word;
use pq_base::{NoMemory, names_copied};
use std::alloc::Global;

impl LPres {
    /// An equal presentation.
    pub fn duplicate(&self) -> Result<LPres, NoMemory>
        ensures { IfOk result (λ p. p ≡ self.now) }
    {
        let alloc = self.allocator();
        let names = names_copied(alloc, self.names())?;
        let fixed = words_copied(alloc, self.fixed())?;
        let iterated = words_copied(alloc, self.iterated())?;
        let endos = endos_copied(alloc, self.endos())?;
        Ok(LPres::of_parts(names, fixed, iterated, endos))
    }
}

/// Equal words.
fn words_copied(alloc: Global, words: &[Word]) -> Result<Vec<Word>, NoMemory>
    ensures { IfOk result (λ copies. copies.items ≡ words.now) }
{
    let mut copies = Vec::new(alloc);
    for word in words {
        copies.push(word.duplicate()?)?;
    }
    Ok(copies)
}

/// Equal lists of images.
fn endos_copied(alloc: Global, endos: &[Vec<Word>]) -> Result<Vec<Vec<Word>>, NoMemory>
    ensures { IfOk result (λ copies. map (λ f. f.items) copies.items ≡ map (λ f. f.items) endos.now) }
{
    let mut copies = Vec::new(alloc);
    for images in endos {
        copies.push(words_copied(alloc, images)?)?;
    }
    Ok(copies)
}
