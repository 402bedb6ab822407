//! The light entries of the want order.

ghost use Rattle.std.specs.Prelude.{◌≡◌, ◌≤◌, ◌++◌, IfOk, OnOk, map};
ghost use Rattle.pq_base.specs.Answer.{class_of};
ghost use Rattle.pc_presentation.specs.Definition.{definition_of};
ghost use Rattle.p_cover.specs.Wanted.{wanted};
ghost use Rattle.tails_by_weight.specs.LightCovers.{light_sources};
ghost use Rattle.tails_by_weight.specs.LightParts.{light_commutators_of, light_commutators};

use crate::room::count_with_room;
use p_cover::want::{push_images, push_powers, push_wanted};
use pc_presentation::{Answer, Definition};
use pq_base::NoMemory;
use std::alloc::Global;

/// The entries of the want order that have room for a generator of the next class, in its order: at class 0 the images; else the
/// commutators that qualify and the powers that do, then the other light commutators, the other powers and the images.
pub(crate) fn light_sources(alloc: Global, answer: &Answer) -> Result<Vec<Definition>, NoMemory>
    ensures { IfOk result (λ sources. map definition_of sources.items ≡ light_sources answer.now) }
{
    let _conditions = answer.pcp();
    // at class 0 there are no relations
    let mut sources = Vec::new(alloc);
    push_commutators(&mut sources, answer, true)?;
    push_powers(&mut sources, answer, true)?;
    push_commutators(&mut sources, answer, false)?;
    push_powers(&mut sources, answer, false)?;
    push_images(&mut sources, answer)?;
    Ok(sources)
}

/// Puts the light commutators that define no generator at the end, those that qualify or the others.
fn push_commutators(
    sources: &mut Vec<Definition>,
    answer: &Answer,
    qualifying: bool,
) -> Result<(), NoMemory>
    ensures { OnOk result (map definition_of sources.new.items
        ≡ map definition_of sources.old.items
        ++ wanted answer.now (class_of answer.now) qualifying (light_commutators answer.now answer.now.presentation.rank)) }
{
    for k in 0..answer.pcp().rank() {
        push_commutators_of(sources, answer, qualifying, k + 1)?;
    }
    Ok(())
}

/// Puts such commutators of generator j with those before it at the end.
fn push_commutators_of(
    sources: &mut Vec<Definition>,
    answer: &Answer,
    qualifying: bool,
    j: u16,
) -> Result<(), NoMemory>
    requires from_one { 1 ≤ j }
    requires in_range { j ≤ answer.now.presentation.rank }
    ensures { OnOk result (map definition_of sources.new.items
        ≡ map definition_of sources.old.items ++ wanted answer.now (class_of answer.now) qualifying (light_commutators_of answer.now j)) }
{
    let weight = answer.pcp().weight(j) as u16;
    for k in 0..count_with_room(answer, weight, j) {
        push_wanted(
            sources,
            answer,
            qualifying,
            Definition::Commutator(j, k + 1),
        )?;
    }
    Ok(())
}
