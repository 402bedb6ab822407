//! The images of the generators under an endomorphism, from the arrows of a line.

ghost use Rattle.std.specs.Prelude.{◌≡◌, ◌≢◌, ℤ, List, [], ◌∷◌, MatchOption, MatchResult};
ghost use Rattle.lpres_reader.specs.declared.fault.Kind.TheVariants.{NotAllImages as MissesImages};
ghost use Rattle.lpres_reader.specs.Items.{GivesEach, words_from};
ghost use Rattle.lpres_reader.specs.Arrows.{mappings, GivesNone};
ghost use Rattle.lpres_reader.specs.Stops.{Refuses};

use crate::fault::{Kind, Stop};
use crate::gathered::Arrow;
use free_words::Word;
use std::alloc::Global;

/// The word of the one arrow from a generator, or `None` where there is none or more than one.
fn image_of(arrows: &[Arrow], place: usize) -> Option<&Word>
    ensures { MatchOption result ((w : List ℤ) → words_from place (mappings arrows.now) ≢ w ∷ [])
        (λ w. words_from place (mappings arrows.now) ≡ w.now ∷ []) }
{
    let mut found: Option<&Word> = None;
    for arrow in arrows {
        if arrow.from == place {
            if found.is_some() {
                return None;
            }
            found = Some(&arrow.to);
        }
    }
    found
}

/// The images of all generators.
pub fn images(alloc: Global, generators: usize, arrows: &[Arrow]) -> Result<Vec<Word>, Stop>
    ensures { MatchResult result (λ f. GivesEach generators (mappings arrows.now) f.items)
        (Refuses (λ k. (k ≡ MissesImages) × GivesNone generators (mappings arrows.now))) }
{
    let mut images = Vec::new(alloc);
    for place in 0..generators {
        let Some(image) = image_of(arrows, place) else {
            return Err(Stop::Fault(Kind::NotAllImages));
        };
        images.push(image.duplicate()?)?;
    }
    Ok(images)
}
