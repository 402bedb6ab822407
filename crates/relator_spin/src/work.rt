//! A closure while it is made.

ghost use Rattle.std.specs.Prelude.{◌≡◌, ◌≤◌, ◌<◌, ◌+◌, ◌^◌, [], ◌∷◌, ℕ, List, IfOk, OnOk, length, get_or};
ghost use Rattle.fp_rows.specs.Row.{PrimeRow};
ghost use Rattle.fp_echelon.specs.Span.{EachInSpan};
ghost use Rattle.fp_echelon.specs.Matrix.{PrimeMatrix, times_matrix, entries_of};
ghost use Rattle.relator_spin.specs.Closure.{AreOver, AreMatricesOver};
ghost use Rattle.relator_spin.specs.Spinning.{IsReady, IsNamed, IsOffered, HasGrown, ImagesInSpan, no_spun};

use crate::insertion::insert_within;
use crate::spun::Spun;
use fp_echelon::{Basis, Matrix};
use fp_rows::Row;
use pq_base::{NoMemory, Path};
use std::alloc::Global;
use std::marker::Model;

/// A basis, of which the first `older` rows were there at first, and names of the others. The row is for images.
#[derive(Drop)]
pub(crate) struct Work {
    pub(crate) older: u16,
    pub(crate) basis: Basis,
    pub(crate) spun: Vec<Spun>,
    pub(crate) image: Row,
}

impl Model for Work {
    ghost use Rattle.relator_spin.specs.Spinning.{Spinning};

    ghost Value = { Spinning };

    ghost view = { λ w. record { older = w.older; basis = w.basis; spun = w.spun.items; image = w.image } };
}

impl Work {
    /// Adds the given rows, each under its number.
    pub(crate) fn take_rows(&mut self, alloc: Global, rows: &[Row]) -> Result<(), NoMemory>
        requires ready { IsReady self.old }
        requires rows { AreOver self.old.basis.prime self.old.basis.width rows.now }
        requires few { length rows.now < 2 ^ 32 }
        ensures ready { OnOk result (IsReady self.new) }
        ensures grown { OnOk result (HasGrown self.old self.new) }
        ensures named { OnOk result ((ms : List PrimeMatrix) → IsNamed rows.now ms self.old → IsNamed rows.now ms self.new) }
        ensures in_span { OnOk result (EachInSpan self.old.basis.prime self.old.basis.width self.new.basis.added (entries_of rows.now)) }
    {
        for (place, row) in rows.iter().enumerate() {
            self.take_row(alloc, row, place as u32 + 1)?;
        }
        Ok(())
    }

    /// Adds the images of all new rows, also of those that are new by this.
    pub(crate) fn take_images(&mut self, alloc: Global, matrices: &[Matrix]) -> Result<(), NoMemory>
        requires ready { IsReady self.old }
        requires matrices { AreMatricesOver self.old.basis.prime self.old.basis.width matrices.now }
        requires few { length matrices.now ≤ 255 }
        ensures ready { OnOk result (IsReady self.new) }
        ensures grown { OnOk result (HasGrown self.old self.new) }
        ensures named { OnOk result ((rows : List PrimeRow) → IsNamed rows matrices.now self.old → IsNamed rows matrices.now self.new) }
        ensures images { OnOk result ((i : ℕ) → i < length self.new.spun → ImagesInSpan matrices.now self.new i) }
    {
        let mut place: u16 = 0;
        while (place as usize) < self.spun.len() {
            let _rank = self.basis.rank();
            self.expand(alloc, place, matrices)?;
            place += 1;
        }
        Ok(())
    }

    /// Adds the images of the new row at a place, where the first is at place 0.
    fn expand(&mut self, alloc: Global, place: u16, matrices: &[Matrix]) -> Result<(), NoMemory>
        requires ready { IsReady self.old }
        requires place { place < length self.old.spun }
        requires matrices { AreMatricesOver self.old.basis.prime self.old.basis.width matrices.now }
        requires few { length matrices.now ≤ 255 }
        ensures ready { OnOk result (IsReady self.new) }
        ensures grown { OnOk result (HasGrown self.old self.new) }
        ensures named { OnOk result ((rows : List PrimeRow) → IsNamed rows matrices.now self.old → IsNamed rows matrices.now self.new) }
        ensures images { OnOk result (ImagesInSpan matrices.now self.new place) }
    {
        for (index, matrix) in matrices.iter().enumerate() {
            self.take_image(alloc, place, matrix, index as u8 + 1)?;
        }
        Ok(())
    }

    /// Adds a given row, unless it is in the span.
    fn take_row(&mut self, alloc: Global, row: &Row, number: u32) -> Result<(), NoMemory>
        requires ready { IsReady self.old }
        requires prime { row.now.prime ≡ self.old.basis.prime }
        requires width { length row.now.entries ≡ self.old.basis.width }
        ensures { OnOk result (IsOffered row.now.entries (record { row = number; along = [] }) self.old self.new) }
    {
        if insert_within(&mut self.basis, row) {
            let along = Path::of(alloc, &[])?;
            self.spun.push(Spun { row: number, along })?;
        }
        Ok(())
    }

    /// Adds the new row at a place times a matrix, unless it is in the span.
    fn take_image(
        &mut self,
        alloc: Global,
        place: u16,
        matrix: &Matrix,
        number: u8,
    ) -> Result<(), NoMemory>
        requires ready { IsReady self.old }
        requires place { place < length self.old.spun }
        requires prime { matrix.now.prime ≡ self.old.basis.prime }
        requires width { matrix.now.width ≡ self.old.basis.width }
        ensures { let x =
            times_matrix matrix.now.prime matrix.now.width matrix.now.rows (get_or self.old.basis.added (self.old.older + place) []) in
            let parent = get_or self.old.spun place no_spun in
            OnOk result (IsOffered x (record { row = parent.row; along = number ∷ parent.along }) self.old self.new) }
    {
        let _rank = self.basis.rank();
        matrix.apply(self.basis.added(self.older + place + 1), &mut self.image);
        if insert_within(&mut self.basis, &self.image) {
            let parent = &self.spun[place as usize];
            let row = parent.row;
            let along = path_after(alloc, number, &parent.along)?;
            self.spun.push(Spun { row, along })?;
        }
        Ok(())
    }
}

// The path with one number more in front.
fn path_after(alloc: Global, number: u8, path: &Path) -> Result<Path, NoMemory>
    ensures { IfOk result (λ p. p ≡ number ∷ path.now) }
{
    let mut numbers = Vec::new(alloc);
    numbers.push(number)?;
    numbers.extend_from_slice(path.numbers())?;
    Path::of(alloc, &numbers)
}
