//! Elimination: the kept tails of a cover become generators.

ghost use Rattle.std.specs.Prelude.{◌<◌, ◌≡◌, length, IfOk};
ghost use Rattle.pq_base.specs.Limits.{max_class};
ghost use Rattle.pq_base.specs.Answer.{class_of};
ghost use Rattle.class_step.specs.Steps.{IsStep};
ghost use Rattle.cover_quotient.specs.Defining.{KeptMayBeKept};

use crate::kept::{kept_columns, kept_combinations};
use crate::step::Step;
use cover_quotient::next_answer::next_answer;
use fp_echelon::Basis;
use p_cover::Cover;
use pq_base::NoMemory;
use pq_base::limits::RANK;
use std::alloc::Global;

/// The next answer: the tails without a pivot become generators of the next class, and each other tail the combination of
/// kept ones that the basis says. Where the rank would be too large, nothing of the answer is made.
pub fn eliminate(alloc: Global, cover: &Cover, basis: &Basis) -> Result<Step, NoMemory>
    requires prime { basis.now.prime ≡ cover.now.answer.presentation.prime }
    requires width { basis.now.width ≡ length cover.now.sources }
    requires class { class_of cover.now.answer < max_class }
    requires kept { KeptMayBeKept cover.now basis.now.rows }
    ensures { IfOk result (λ step. IsStep cover.now basis.now.rows step) }
{
    let _width = basis.width();
    let old_rank = cover.pcp().rank();
    let kept = kept_columns(alloc, basis)?;
    if kept.is_empty() {
        return Ok(Step::Same);
    }
    let rank = old_rank as u32 + kept.len() as u32;
    if rank > RANK as u32 {
        return Ok(Step::TooLarge { rank });
    }
    let combinations = kept_combinations(alloc, basis, kept)?;
    Ok(Step::Next(next_answer(alloc, cover, &combinations)?))
}
