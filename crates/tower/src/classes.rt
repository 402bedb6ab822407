//! One class: from a stage to the next.

ghost use Rattle.std.specs.Prelude.{◌≡◌, ◌<◌, List, length, IfOk, OnErr};
ghost use Rattle.std.specs.List.{All};
ghost use Rattle.pq_base.specs.Limits.{max_class};
ghost use Rattle.pq_base.specs.Prime.{prime_value};
ghost use Rattle.pq_base.specs.Joined.{IsConsistent};
ghost use Rattle.pc_presentation.specs.Tailed.{rowed_presentation};
ghost use Rattle.p_cover.specs.Covers.{cover_presentation};
ghost use Rattle.derivation_log.specs.declared.source.Run.TheVariants.{Iterated, Whole};
ghost use Rattle.derivation_log.specs.HeldSteps.{HeldStep, KeepsTheSame};
ghost use Rattle.tower.specs.NamedParts.{IsNamed, Dies, named_part};
ghost use Rattle.tower.specs.StepKinds.{step_tests};
ghost use Rattle.tower.specs.StepRows.{AreOver, HaveTaken, step_sources};
ghost use Rattle.tower.specs.Answers.{IsStepFrom, IsGrown};
ghost use Rattle.tower.specs.LoggedSteps.{IsLogged};

use crate::kinds::cover_for;
use crate::relator::{Relator, sources};
use crate::rows::Rows;
use class_step::{Step, eliminate};
use derivation_log::{Log, Run};
use epimorphism::Work;
use lpres_reader::LPres;
use p_cover::{Cover, Images};
use pc_presentation::{Answer, Collect, Scratch};
use pq_base::{NoMemory, Prime};
use std::alloc::Global;

/// One class: what the answer of class k leads to, by the rows of overlaps and of the relators in its cover. The log is told of the
/// step where it is done, and of nothing else.
pub(crate) fn one_class<C: Collect + Drop, L: Log>(
    alloc: Global,
    pres: &LPres,
    relators: &[Relator],
    prime: Prime,
    k: u8,
    answer: &Answer,
    log: &mut L,
) -> Result<Step, NoMemory>
    requires named { All (IsNamed pres.now) relators.now }
    requires grown { IsGrown (named_part pres.now relators.now) (prime_value prime) k answer.now }
    requires class { k < max_class }
    requires log { (steps : List HeldStep) → L.keeps log.old Whole steps → length steps ≡ k }
    ensures step { IfOk result (λ step. IsStepFrom (named_part pres.now relators.now) (prime_value prime) k answer.now step) }
    ensures logged { IfOk result (λ step.
        IsLogged L.FULL pres.now C.meaning answer.now (L.keeps log.old Whole) (L.keeps log.new Whole) step) }
    ensures other { KeepsTheSame (L.keeps log.old Iterated) (L.keeps log.new Iterated) }
    ensures refused { OnErr result (KeepsTheSame (L.keeps log.old Whole) (L.keeps log.new Whole)) }
{
    let _from = (prime, k);
    let _names = pres.names();
    let cover = cover_for::<L>(alloc, answer)?;
    let _rank = cover.pcp().rank();
    let rows = rows_of_class::<C, L>(alloc, &cover, pres, relators)?;
    let step = eliminate(alloc, &cover, &rows.basis)?;
    log.step(Run::Whole, k + 1, rows.sources.as_slice(), &rows.basis)?;
    Ok(step)
}

/// The rows of the overlaps that are tested and of the relators, in the cover of a consistent answer in which the relators die.
fn rows_of_class<C: Collect + Drop, L: Log>(
    alloc: Global,
    cover: &Cover,
    pres: &LPres,
    relators: &[Relator],
) -> Result<Rows, NoMemory>
    requires consistent { IsConsistent cover.now.answer.presentation }
    requires names { cover.now.answer.names ≡ pres.now.names }
    requires named { All (IsNamed pres.now) relators.now }
    requires killed { All (Dies pres.now cover.now.answer) relators.now }
    ensures over { IfOk result (λ rows. AreOver cover.now rows) }
    ensures taken { IfOk result (λ rows. HaveTaken pres.now cover.now (C.meaning (rowed_presentation (cover_presentation cover.now)))
        (step_sources (step_tests L.FULL cover.now.answer) relators.now) rows) }
{
    let mut rows = Rows::over(alloc, cover)?;
    let sources = sources(alloc, relators)?;
    let mut s = Scratch::<C>::new(alloc, cover.pcp())?;
    let images = Images::lift(alloc, &mut s, cover)?;
    let mut work = Work::new(alloc, cover)?;
    rows.insert_overlaps::<C, L>(alloc, &mut s, cover)?;
    rows.insert_relators(&mut s, &mut work, cover, &images, pres, sources);
    Ok(rows)
}
