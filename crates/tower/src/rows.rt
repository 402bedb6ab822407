//! The rows of a step.

ghost use Rattle.std.specs.Prelude.{◌≡◌, ◌≤◌, ◌<◌, [], ◌∷◌, ◌++◌, length, IfOk};
ghost use Rattle.tower.specs.StepRows.{AreOver, HasInserted};

use derivation_log::RowSource;
use fp_echelon::{Basis, Insertion};
use fp_rows::Row;
use p_cover::Cover;
use pq_base::NoMemory;
use std::alloc::Global;
use std::marker::Model;

/// A basis of the rows of a step, what each row that was added to it comes from, and the row that was found last. All memory is
/// taken at first.
#[derive(Drop)]
pub(crate) struct Rows {
    pub(crate) basis: Basis,
    pub(crate) sources: Vec<RowSource>,
    pub(crate) row: Row,
}

impl Model for Rows {
    ghost use Rattle.std.specs.Prelude.{vec_capacity};
    ghost use Rattle.tower.specs.StepRows.{StepRows};

    ghost Value = { StepRows };

    ghost view = { λ r. record { basis = r.basis; noted = r.sources.items; room = vec_capacity r.sources; row = r.row } };
}

impl Rows {
    /// No rows, over the tails of a cover, and room for as many as can be added and for one that can't.
    pub(crate) fn over(alloc: Global, cover: &Cover) -> Result<Rows, NoMemory>
        ensures over { IfOk result (λ rows. AreOver cover.now rows) }
        ensures empty { IfOk result (λ rows. rows.basis.added ≡ []) }
        ensures none_noted { IfOk result (λ rows. rows.noted ≡ []) }
    {
        let pcp = cover.pcp();
        let _rank = pcp.rank();
        let prime = pcp.prime();
        let tails = cover.tails();
        let mut basis = Basis::new(alloc, prime, tails)?;
        basis.reserve(tails + 1)?;
        Ok(Rows {
            basis,
            sources: Vec::with_capacity(alloc, tails as usize)?,
            row: Row::zero(alloc, prime, tails)?,
        })
    }

    /// Inserts the row that was found last. Takes no memory.
    pub(crate) fn insert(&mut self, source: RowSource)
        requires prime { self.old.row.prime ≡ self.old.basis.prime }
        requires width { length self.old.row.entries ≡ self.old.basis.width }
        requires noted { length self.old.noted ≡ length self.old.basis.added }
        requires spare { 1 ≤ self.old.basis.spare }
        requires room { self.old.basis.width ≤ self.old.room }
        ensures { HasInserted self.old self.new source }
    {
        match self.basis.insert(&self.row) {
            Insertion::Added(_column) => {
                let _rank = self.basis.rank();
                self.note(source);
            }
            Insertion::Dependent => (),
        }
    }

    /// Notes what the row that was added last comes from.
    fn note(&mut self, source: RowSource)
        requires room { length self.old.noted < self.old.room }
        ensures basis { self.new.basis ≡ self.old.basis }
        ensures row { self.new.row ≡ self.old.row }
        ensures noted { self.new.noted ≡ self.old.noted ++ source ∷ [] }
        ensures room { self.old.room ≤ self.new.room }
    {
        match self.sources.push(source) {
            Ok(()) => (),
            Err(_) => unreachable!(),
        }
    }
}
