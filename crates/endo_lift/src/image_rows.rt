//! The matrix of an endomorphism over the tails of a cover, row by row.

ghost use Rattle.std.specs.Prelude.{◌≡◌, length, IfOk};
ghost use Rattle.pq_base.specs.LPresentation.{AreWords};
ghost use Rattle.pq_base.specs.Joined.{IsConsistent};
ghost use Rattle.pc_presentation.specs.Tailed.{rowed_presentation};
ghost use Rattle.pc_presentation.specs.Scratch.{IsScratch};
ghost use Rattle.p_cover.specs.Covers.{cover_presentation};
ghost use Rattle.p_cover.specs.Images.{AreLifted};
ghost use Rattle.endo_lift.specs.Lifts.{Induces, LeavesOutTrivial, CarriesRows, IsMatrixOver};
ghost use Rattle.endo_lift.specs.Values.{AreSpelled, IsRoom, AreValueRows};

use crate::entry::entry_value;
use crate::room::Room;
use crate::spelled::spelled_values;
use fp_echelon::Matrix;
use free_words::Word;
use p_cover::{Cover, Images};
use pc_presentation::{Collect, Elem, Scratch};
use pq_base::NoMemory;
use std::alloc::Global;

/// The matrix of an endomorphism over the tails of a cover. The row of a word times the matrix is the row of the word's image,
/// where the answer is consistent, the endomorphism induces one of it, and what the cover leaves out is trivial. The row at a
/// tail is the value of the image of the word that the tail stands for; what the generators spell is carried along the
/// endomorphism once. The images are those of the cover. Memory is taken before the first row.
///
/// This is how L. Bartholdi, B. Eick and R. Hartung carry the endomorphisms of an L-presentation to covers.
pub fn matrix<C: Collect>(
    alloc: Global,
    s: &mut Scratch<C>,
    cover: &Cover,
    images: &Images,
    endo: &[Word],
) -> Result<Matrix, NoMemory>
    requires scratch { IsScratch (cover_presentation cover.now) s.old }
    requires images { AreLifted cover.now (C.meaning (rowed_presentation (cover_presentation cover.now))) images.now }
    requires count { length endo.now ≡ length cover.now.answer.names }
    requires letters { AreWords (length cover.now.answer.names) endo.now }
    ensures scratch { IsScratch (cover_presentation cover.now) s.new }
    ensures matrix { IfOk result (λ m. IsMatrixOver cover.now m) }
    ensures carries { IfOk result (λ m. IsConsistent cover.now.answer.presentation → Induces cover.now.answer endo.now
        → LeavesOutTrivial cover.now → CarriesRows cover.now endo.now m.rows) }
{
    let pcp = cover.pcp();
    let elements = spelled_values(alloc, s, cover, images, endo)?;
    let mut room = Room::new(alloc, pcp)?;
    let mut matrix = Matrix::new(alloc, pcp.prime(), cover.tails())?;
    set_rows(s, cover, images, endo, &elements, &mut room, &mut matrix);
    Ok(matrix)
}

/// Sets the row at each tail. The elements are the values of what the generators spell. Takes no memory.
fn set_rows<C: Collect>(
    s: &mut Scratch<C>,
    cover: &Cover,
    images: &Images,
    endo: &[Word],
    elements: &[Elem],
    room: &mut Room,
    matrix: &mut Matrix,
)
    requires scratch { IsScratch (cover_presentation cover.now) s.old }
    requires images { AreLifted cover.now (C.meaning (rowed_presentation (cover_presentation cover.now))) images.now }
    requires count { length endo.now ≡ length cover.now.answer.names }
    requires letters { AreWords (length cover.now.answer.names) endo.now }
    requires spelled { AreSpelled cover.now endo.now elements.now }
    requires rank { length elements.now ≡ cover.now.answer.presentation.rank }
    requires room { IsRoom (cover_presentation cover.now) room.old }
    requires matrix { IsMatrixOver cover.now matrix.old }
    ensures scratch { IsScratch (cover_presentation cover.now) s.new }
    ensures matrix { IsMatrixOver cover.now matrix.new }
    ensures rows { AreValueRows cover.now endo.now (length cover.now.sources) matrix.new.rows }
{
    for t in 0..cover.pcp().tails() {
        let source = cover.source_of(t + 1);
        entry_value(s, cover, images, endo, elements, source, room);
        matrix.set_row(t + 1, room.value.tail());
    }
}
