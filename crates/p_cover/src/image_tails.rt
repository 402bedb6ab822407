//! The tails of the images of given generators.

ghost use Rattle.std.specs.Prelude.{◌≡◌, ◌<◌, ◌^◌, IfOk, map, length};
ghost use Rattle.pq_base.specs.Answer.Definition.{image};
ghost use Rattle.pq_base.specs.Canonical.{same_definition};
ghost use Rattle.pc_presentation.specs.Definition.{definition_of};
ghost use Rattle.p_cover.specs.Sources.{place_in};
ghost use Rattle.p_cover.specs.ImageTails.{tails_of_images};

use pc_presentation::{Answer, Definition};
use pq_base::NoMemory;
use std::alloc::Global;

/// For each given generator the tail of its image, where tails are numbered by their places on a list.
pub(crate) fn image_tails(
    alloc: Global,
    answer: &Answer,
    sources: &[Definition],
) -> Result<Vec<Option<u16>>, NoMemory>
    requires { length sources.now < 2 ^ 16 }
    ensures { IfOk result (λ v. v.items ≡ tails_of_images answer.now (map definition_of sources.now)) }
{
    let _conditions = answer.pcp();
    let names = answer.names().len() as u16;
    let mut tails = Vec::new(alloc);
    for k in 0..names {
        tails.push(place_of_image(sources, k + 1))?;
    }
    Ok(tails)
}

/// The place, counted from 1, at which the image of a given generator stands on a list.
fn place_of_image(sources: &[Definition], i: u16) -> Option<u16>
    requires { length sources.now < 2 ^ 16 }
    ensures { result ≡ place_in (map definition_of sources.now) (image i) }
{
    for k in 0..sources.len() {
        if is_image(sources[k], i) {
            return Some(k as u16 + 1);
        }
    }
    None
}

fn is_image(source: Definition, i: u16) -> bool
    ensures { result ≡ same_definition (image i) (definition_of source) }
{
    match source {
        Definition::Image(k) => i == k,
        _ => false,
    }
}
