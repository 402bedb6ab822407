//! Covers with light tails alone.

ghost use Rattle.std.specs.Prelude.{◌≡◌, IfOk, IsTrue};
ghost use Rattle.pc_presentation.specs.Definition.{definition_of};
ghost use Rattle.p_cover.specs.CoverLaws.{IsSource};
ghost use Rattle.tails_by_weight.specs.LightCovers.{is_light, light_cover_of};

use crate::sources::light_sources;
use p_cover::{Cover, cover_of};
use pc_presentation::{Answer, Definition};
use pq_base::NoMemory;
use std::alloc::Global;

/// The cover in which tails are carried by those relations and images alone that have room for a generator of the next class: all
/// that define no generator, but for the commutators of generators whose weights have a sum above the class and one. The others are
/// never enumerated.
pub fn light_cover(alloc: Global, answer: &Answer) -> Result<Cover, NoMemory>
    ensures { IfOk result (λ c. c ≡ light_cover_of answer.now) }
{
    let sources = light_sources(alloc, answer)?;
    cover_of(alloc, answer, &sources)
}

/// Whether a relation or an image has room for a generator of the next class. It is false exactly for a commutator of generators
/// whose weights have a sum above the class and one. It takes no memory.
pub fn is_light(answer: &Answer, t: Definition) -> bool
    requires { IsSource answer.now (definition_of t) }
    ensures { result ≡ is_light answer.now (definition_of t) }
{
    let pcp = answer.pcp();
    match t {
        Definition::Commutator(j, i) => {
            pcp.weight(j) as u16 + pcp.weight(i) as u16 <= answer.class() as u16 + 1
        }
        Definition::Power(_) | Definition::Image(_) => true,
    }
}
