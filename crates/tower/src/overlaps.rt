//! The rows of the overlaps of a step.

ghost use Rattle.std.specs.Prelude.{[], ◌∷◌, map, OnOk};
ghost use Rattle.pq_base.specs.LPresentation.{LPresentation};
ghost use Rattle.pq_base.specs.Joined.{IsConsistent};
ghost use Rattle.pc_presentation.specs.OverlapNumbers.{AreOverlapNumbers};
ghost use Rattle.pc_presentation.specs.Scratch.{IsScratch};
ghost use Rattle.pc_presentation.specs.Tailed.{rowed_presentation};
ghost use Rattle.p_cover.specs.Covers.{cover_presentation};
ghost use Rattle.consistency.specs.AllOverlaps.{all_overlaps};
ghost use Rattle.derivation_log.specs.declared.source.RowSource.TheVariants.{Test};
ghost use Rattle.tails_by_weight.specs.LightOverlaps.{light_overlaps};
ghost use Rattle.tower.specs.StepKinds.{step_tests};
ghost use Rattle.tower.specs.StepRows.{AreOver, HaveTakenMore};

use crate::rows::Rows;
use consistency::{Tests, row};
use derivation_log::{Log, RowSource};
use p_cover::Cover;
use pc_presentation::{Collect, Overlap, Scratch};
use pq_base::NoMemory;
use std::alloc::Global;
use tails_by_weight::light_tests;

impl Rows {
    /// Finds and inserts the row of each overlap that is tested in a step that the log is told of, in the cover of a consistent answer.
    pub(crate) fn insert_overlaps<C: Collect, L: Log>(
        &mut self,
        alloc: Global,
        s: &mut Scratch<C>,
        cover: &Cover,
    ) -> Result<(), NoMemory>
        requires over { AreOver cover.now self.old }
        requires consistent { IsConsistent cover.now.answer.presentation }
        requires scratch { IsScratch (cover_presentation cover.now) s.old }
        ensures scratch { IsScratch (cover_presentation cover.now) s.new }
        ensures over { AreOver cover.now self.new }
        ensures taken { let push = C.meaning (rowed_presentation (cover_presentation cover.now)) in OnOk result ((M : LPresentation)
            → HaveTakenMore M cover.now push (map Test (step_tests L.FULL cover.now.answer)) self.old self.new) }
    {
        if L::FULL {
            self.insert_all(s, cover);
            Ok(())
        } else {
            self.insert_light(alloc, s, cover)
        }
    }

    /// Finds and inserts the row of each overlap in the cover of a consistent answer. Takes no memory.
    fn insert_all<C: Collect>(&mut self, s: &mut Scratch<C>, cover: &Cover)
        requires over { AreOver cover.now self.old }
        requires consistent { IsConsistent cover.now.answer.presentation }
        requires scratch { IsScratch (cover_presentation cover.now) s.old }
        ensures scratch { IsScratch (cover_presentation cover.now) s.new }
        ensures over { AreOver cover.now self.new }
        ensures taken { (L : LPresentation) → HaveTakenMore L cover.now (C.meaning (rowed_presentation (cover_presentation cover.now)))
            (map Test (all_overlaps cover.now.answer.presentation.rank)) self.old self.new }
    {
        for test in Tests::all(cover.pcp().rank()) {
            self.insert_overlap(s, cover, test);
        }
    }

    /// Finds and inserts the row of each light overlap in the cover of a consistent answer.
    fn insert_light<C: Collect>(
        &mut self,
        alloc: Global,
        s: &mut Scratch<C>,
        cover: &Cover,
    ) -> Result<(), NoMemory>
        requires over { AreOver cover.now self.old }
        requires consistent { IsConsistent cover.now.answer.presentation }
        requires scratch { IsScratch (cover_presentation cover.now) s.old }
        ensures scratch { IsScratch (cover_presentation cover.now) s.new }
        ensures over { AreOver cover.now self.new }
        ensures taken { let push = C.meaning (rowed_presentation (cover_presentation cover.now)) in OnOk result ((M : LPresentation)
            → HaveTakenMore M cover.now push (map Test (light_overlaps cover.now.answer)) self.old self.new) }
    {
        let _pcp = cover.pcp();
        for overlap in light_tests(alloc, cover.answer())? {
            self.insert_overlap(s, cover, overlap);
        }
        Ok(())
    }

    /// Finds and inserts the row of an overlap in the cover of a consistent answer.
    fn insert_overlap<C: Collect>(&mut self, s: &mut Scratch<C>, cover: &Cover, test: Overlap)
        requires over { AreOver cover.now self.old }
        requires consistent { IsConsistent cover.now.answer.presentation }
        requires scratch { IsScratch (cover_presentation cover.now) s.old }
        requires overlap { AreOverlapNumbers cover.now.answer.presentation.rank test }
        ensures scratch { IsScratch (cover_presentation cover.now) s.new }
        ensures over { AreOver cover.now self.new }
        ensures taken { (L : LPresentation) → HaveTakenMore L cover.now (C.meaning (rowed_presentation (cover_presentation cover.now)))
            (Test test ∷ []) self.old self.new }
    {
        let _agrees = row(s, cover, test, &mut self.row);
        self.insert(RowSource::Test(test));
    }
}
