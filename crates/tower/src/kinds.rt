//! The kind of cover that a step has.

ghost use Rattle.std.specs.Prelude.{◌≡◌, IfOk};
ghost use Rattle.tower.specs.StepKinds.{step_cover};

use derivation_log::Log;
use p_cover::{Cover, full_cover};
use pc_presentation::Answer;
use pq_base::NoMemory;
use std::alloc::Global;
use tails_by_weight::light_cover;

/// The cover of a step that the log is told of: with all tails, or with those alone that have room for a generator of the next class.
pub(crate) fn cover_for<L: Log>(alloc: Global, answer: &Answer) -> Result<Cover, NoMemory>
    ensures { IfOk result (λ c. c ≡ step_cover L.FULL answer.now) }
{
    if L::FULL {
        full_cover(alloc, answer)
    } else {
        light_cover(alloc, answer)
    }
}
