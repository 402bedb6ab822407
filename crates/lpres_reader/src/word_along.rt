//! Images of words along lists of endomorphisms.

ghost use Rattle.std.specs.Prelude.{length};
ghost use Rattle.pq_base.specs.SignedWord.{HasLetters};
ghost use Rattle.pq_base.specs.LPresentation.{AreEndoNumbers};
ghost use Rattle.lpres_reader.specs.Along.{GivesAlong};

use crate::presentation::LPres;
use free_words::{Word, WordRefusal, substitute};
use std::alloc::Global;

/// The image of a word along a list of endomorphisms by their numbers, counted from 1: the first of the list is applied
/// last. Where the image along a suffix of the list has more than 65,536 letters it is refused as `TooLong`, with the
/// number of letters along the shortest such suffix.
pub fn along(alloc: Global, pres: &LPres, s: &[u8], w: &Word) -> Result<Word, WordRefusal>
    requires numbers { AreEndoNumbers (length pres.now.endos) s.now }
    requires letters { HasLetters (length pres.now.names) w.now }
    ensures { GivesAlong pres.now.endos s.now w.now result }
{
    let mut image = w.duplicate()?;
    let mut rest = s;
    while let Some((number, before)) = rest.split_last() {
        image = substitute(alloc, &image, pres.endo(*number))?;
        rest = before;
    }
    Ok(image)
}
