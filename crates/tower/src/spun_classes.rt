//! One class over the iterated relators: from a stage to the next.

ghost use Rattle.std.specs.Prelude.{◌≡◌, ◌<◌, List, length, IfOk, OnOk, OnErr};
ghost use Rattle.pq_base.specs.Limits.{max_class};
ghost use Rattle.pq_base.specs.Prime.{prime_value};
ghost use Rattle.pq_base.specs.LPresentation.{part};
ghost use Rattle.pq_base.specs.LPresentation.Part.{iterated_part};
ghost use Rattle.pq_base.specs.Answer.{class_of};
ghost use Rattle.pc_presentation.specs.Tailed.{rowed_presentation};
ghost use Rattle.p_cover.specs.Covers.{cover_presentation};
ghost use Rattle.cover_quotient.specs.Stages.{IsStage};
ghost use Rattle.derivation_log.specs.HeldSteps.{HeldStep, other_run, KeepsTheSame};
ghost use Rattle.tower.specs.StepKinds.{step_cover, step_tests};
ghost use Rattle.tower.specs.StepRows.{AreOver, HaveTaken, step_sources};
ghost use Rattle.tower.specs.SpunParts.{AreIterated, IsSpunGrown, IsSpunStep};
ghost use Rattle.tower.specs.Closing.{SufficeIn};
ghost use Rattle.tower.specs.Answers.{IsStepFrom};
ghost use Rattle.tower.specs.LoggedSteps.{IsLogged};

use crate::closing::closing_relators;
use crate::kinds::cover_for;
use crate::relator::{Relator, sources};
use crate::rows::Rows;
use class_step::{Step, eliminate};
use derivation_log::{Log, Run};
use epimorphism::Work;
use lpres_reader::LPres;
use p_cover::{Cover, Images};
use pc_presentation::{Answer, Collect, Scratch};
use pq_base::{NoMemory, Prime};
use std::alloc::Global;

/// One class: what the answer of class k leads to, by the rows of overlaps and of iterated relators along endomorphisms in its cover.
/// These relators are recorded. The log is told of the step where it is done, and of nothing else.
pub(crate) fn spun_class<C: Collect + Drop, L: Log>(
    alloc: Global,
    pres: &LPres,
    run: Run,
    prime: Prime,
    k: u8,
    answer: &Answer,
    recorded: &mut Vec<Relator>,
    log: &mut L,
) -> Result<Step, NoMemory>
    requires grown { IsSpunGrown pres.now recorded.old.items (prime_value prime) k answer.now }
    requires class { k < max_class }
    requires log { (steps : List HeldStep) → L.keeps log.old run steps → length steps ≡ k }
    ensures iterated { OnOk result (AreIterated pres.now recorded.new.items) }
    ensures step { IfOk result (λ step. IsStepFrom (part pres.now iterated_part) (prime_value prime) k answer.now step) }
    ensures recorded { IfOk result (λ step. IsSpunStep pres.now recorded.new.items (prime_value prime) k answer.now step) }
    ensures logged { IfOk result (λ step. IsLogged L.FULL (part pres.now iterated_part) C.meaning answer.now
        (L.keeps log.old run) (L.keeps log.new run) step) }
    ensures other { KeepsTheSame (L.keeps log.old (other_run run)) (L.keeps log.new (other_run run)) }
    ensures refused { OnErr result (KeepsTheSame (L.keeps log.old run) (L.keeps log.new run)) }
{
    let _from = (prime, k);
    let _names = pres.names();
    let cover = cover_for::<L>(alloc, answer)?;
    let _rank = cover.pcp().rank();
    let (rows, mut relators) = rows_of_class::<C, L>(alloc, &cover, pres)?;
    recorded.append(&mut relators)?;
    let step = eliminate(alloc, &cover, &rows.basis)?;
    log.step(run, k + 1, rows.sources.as_slice(), &rows.basis)?;
    Ok(step)
}

/// The rows of the overlaps that are tested, and of iterated relators along endomorphisms that suffice, with these relators.
fn rows_of_class<C: Collect + Drop, L: Log>(
    alloc: Global,
    cover: &Cover,
    pres: &LPres,
) -> Result<(Rows, Vec<Relator>), NoMemory>
    requires stage { let A = cover.now.answer in IsStage (part pres.now iterated_part) A.presentation.prime (class_of A) A }
    requires kind { cover.now ≡ step_cover L.FULL cover.now.answer }
    ensures over { IfOk result (λ r. AreOver cover.now r.0) }
    ensures iterated { IfOk result (λ r. AreIterated pres.now r.1.items) }
    ensures taken { IfOk result (λ r. HaveTaken pres.now cover.now (C.meaning (rowed_presentation (cover_presentation cover.now)))
        (step_sources (step_tests L.FULL cover.now.answer) r.1.items) r.0) }
    ensures taken_in_part { IfOk result (λ r. HaveTaken (part pres.now iterated_part) cover.now
        (C.meaning (rowed_presentation (cover_presentation cover.now))) (step_sources (step_tests L.FULL cover.now.answer) r.1.items) r.0) }
    ensures suffice { IfOk result (λ r.
        SufficeIn pres.now cover.now (C.meaning (rowed_presentation (cover_presentation cover.now))) r.1.items) }
{
    let mut rows = Rows::over(alloc, cover)?;
    let mut s = Scratch::<C>::new(alloc, cover.pcp())?;
    let images = Images::lift(alloc, &mut s, cover)?;
    let mut work = Work::new(alloc, cover)?;
    rows.insert_overlaps::<C, L>(alloc, &mut s, cover)?;
    let relators = closing_relators(alloc, &mut s, cover, &images, pres, &rows)?;
    let sources = sources(alloc, &relators)?;
    rows.insert_relators(&mut s, &mut work, cover, &images, pres, sources);
    Ok((rows, relators))
}
