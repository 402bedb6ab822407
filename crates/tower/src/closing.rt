//! Which iterated relators along endomorphisms suffice in a cover.

ghost use Rattle.std.specs.Prelude.{◌≡◌, IfOk};
ghost use Rattle.std.specs.List.{All};
ghost use Rattle.pq_base.specs.LPresentation.{part};
ghost use Rattle.pq_base.specs.LPresentation.Part.{iterated_part};
ghost use Rattle.pq_base.specs.Answer.{class_of};
ghost use Rattle.pc_presentation.specs.Scratch.{IsScratch};
ghost use Rattle.pc_presentation.specs.Tailed.{rowed_presentation};
ghost use Rattle.p_cover.specs.RowedAnswer.{rowed};
ghost use Rattle.p_cover.specs.Covers.{cover_presentation, rowed_cover};
ghost use Rattle.p_cover.specs.Images.{AreLifted};
ghost use Rattle.cover_quotient.specs.OverlapRows.{SpanOverlaps};
ghost use Rattle.cover_quotient.specs.Stages.{IsStage};
ghost use Rattle.endo_lift.specs.Lifts.{LeavesOutTrivial};
ghost use Rattle.tower.specs.StepRows.{AreOver};
ghost use Rattle.tower.specs.SpunParts.{AreIterated, spun_relators};
ghost use Rattle.tower.specs.Closing.{IsCopy, IsTrivialRow, SufficeIn};

use crate::lifts::{iterated_rows, lifted_endos};
use crate::relator::Relator;
use crate::rows::Rows;
use fp_echelon::{Basis, Insertion};
use lpres_reader::LPres;
use p_cover::{Cover, Images};
use pc_presentation::{Collect, Scratch};
use pq_base::NoMemory;
use relator_spin::{Spun, close};
use std::alloc::Global;

/// Iterated relators along endomorphisms whose rows, with those of all overlaps, span the rows of all of them: those that the
/// closure of the overlap rows, under the matrices of the endomorphisms, names with its new rows. The rows that are given are trivial
/// in the cover and span those of all overlaps.
pub(crate) fn closing_relators<C: Collect>(
    alloc: Global,
    s: &mut Scratch<C>,
    cover: &Cover,
    images: &Images,
    pres: &LPres,
    rows: &Rows,
) -> Result<Vec<Relator>, NoMemory>
    requires scratch { IsScratch (cover_presentation cover.now) s.old }
    requires images { AreLifted cover.now (C.meaning (rowed_presentation (cover_presentation cover.now))) images.now }
    requires stage { let A = cover.now.answer in IsStage (part pres.now iterated_part) A.presentation.prime (class_of A) A }
    requires left_out { LeavesOutTrivial cover.now }
    requires over { AreOver cover.now rows.now }
    requires overlaps { SpanOverlaps (rowed (rowed_cover cover.now)) (C.meaning (rowed_presentation (cover_presentation cover.now)))
        rows.now.basis.added }
    requires trivial { All (IsTrivialRow cover.now) rows.now.basis.added }
    ensures scratch { IsScratch (cover_presentation cover.now) s.new }
    ensures iterated { IfOk result (λ relators. AreIterated pres.now relators.items) }
    ensures suffice { IfOk result (λ relators.
        SufficeIn pres.now cover.now (C.meaning (rowed_presentation (cover_presentation cover.now))) relators.items) }
{
    let _names = pres.names();
    let _pcp = cover.pcp();
    let given = iterated_rows(alloc, s, cover, images, pres)?;
    let matrices = lifted_endos(alloc, s, cover, images, pres)?;
    let overlaps = copy_of(alloc, &rows.basis)?;
    let (_basis, names) = close(alloc, overlaps, &given, &matrices)?;
    relators_of(alloc, names)
}

/// A basis of the same span, made of the same rows, with room for all rows that can be added.
fn copy_of(alloc: Global, basis: &Basis) -> Result<Basis, NoMemory>
    ensures { IfOk result (λ copy. IsCopy basis.now copy) }
{
    let rank = basis.rank();
    let mut copy = Basis::new(alloc, basis.prime(), basis.width())?;
    copy.reserve(basis.width())?;
    for i in 0..rank {
        match copy.insert(basis.added(i + 1)) {
            Insertion::Added(_column) => (),
            Insertion::Dependent => (),
        }
    }
    Ok(copy)
}

/// The relators of these names.
fn relators_of(alloc: Global, names: Vec<Spun>) -> Result<Vec<Relator>, NoMemory>
    ensures { IfOk result (λ relators. relators.items ≡ spun_relators names.items) }
{
    let mut relators = Vec::new(alloc);
    for name in names {
        relators.push(Relator::Iterated(name.row, name.along))?;
    }
    Ok(relators)
}
