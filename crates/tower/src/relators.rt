//! The rows of the relators of a step.

ghost use Rattle.std.specs.Prelude.{◌≡◌, [], ◌∷◌};
ghost use Rattle.std.specs.List.{All};
ghost use Rattle.pq_base.specs.Joined.{IsConsistent};
ghost use Rattle.pc_presentation.specs.Scratch.{IsScratch};
ghost use Rattle.pc_presentation.specs.Tailed.{rowed_presentation};
ghost use Rattle.p_cover.specs.Covers.{cover_presentation};
ghost use Rattle.p_cover.specs.Images.{AreLifted};
ghost use Rattle.epimorphism.specs.Rooms.{IsWork};
ghost use Rattle.tower.specs.NamedParts.{IsNamedSource, DiesIn};
ghost use Rattle.tower.specs.StepRows.{AreOver, HaveTakenMore};

use crate::finding::find_row;
use crate::rows::Rows;
use derivation_log::RowSource;
use epimorphism::Work;
use lpres_reader::LPres;
use p_cover::{Cover, Images};
use pc_presentation::{Collect, Scratch};

impl Rows {
    /// Finds and inserts the row of each relator, which dies in the consistent answer that is covered. Takes no memory.
    pub(crate) fn insert_relators<C: Collect>(
        &mut self,
        s: &mut Scratch<C>,
        work: &mut Work,
        cover: &Cover,
        images: &Images,
        pres: &LPres,
        sources: Vec<RowSource>,
    )
        requires over { AreOver cover.now self.old }
        requires consistent { IsConsistent cover.now.answer.presentation }
        requires scratch { IsScratch (cover_presentation cover.now) s.old }
        requires work { IsWork cover.now work.old }
        requires images { AreLifted cover.now (C.meaning (rowed_presentation (cover_presentation cover.now))) images.now }
        requires names { cover.now.answer.names ≡ pres.now.names }
        requires named { All (IsNamedSource pres.now) sources.items }
        requires killed { All (DiesIn pres.now cover.now.answer) sources.items }
        ensures scratch { IsScratch (cover_presentation cover.now) s.new }
        ensures work { IsWork cover.now work.new }
        ensures over { AreOver cover.now self.new }
        ensures taken { HaveTakenMore pres.now cover.now (C.meaning (rowed_presentation (cover_presentation cover.now)))
            sources.items self.old self.new }
    {
        for source in sources {
            self.insert_relator(s, work, cover, images, pres, source);
        }
    }

    /// Finds and inserts the row of a relator, which dies in the consistent answer that is covered.
    fn insert_relator<C: Collect>(
        &mut self,
        s: &mut Scratch<C>,
        work: &mut Work,
        cover: &Cover,
        images: &Images,
        pres: &LPres,
        source: RowSource,
    )
        requires over { AreOver cover.now self.old }
        requires consistent { IsConsistent cover.now.answer.presentation }
        requires scratch { IsScratch (cover_presentation cover.now) s.old }
        requires work { IsWork cover.now work.old }
        requires images { AreLifted cover.now (C.meaning (rowed_presentation (cover_presentation cover.now))) images.now }
        requires names { cover.now.answer.names ≡ pres.now.names }
        requires named { IsNamedSource pres.now source }
        requires killed { DiesIn pres.now cover.now.answer source }
        ensures scratch { IsScratch (cover_presentation cover.now) s.new }
        ensures work { IsWork cover.now work.new }
        ensures over { AreOver cover.now self.new }
        ensures taken { HaveTakenMore pres.now cover.now (C.meaning (rowed_presentation (cover_presentation cover.now)))
            (source ∷ []) self.old self.new }
    {
        find_row(s, work, cover, images, pres, &source, &mut self.row);
        self.insert(source);
    }
}
