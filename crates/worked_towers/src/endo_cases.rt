//! Endomorphisms in covers. Of the presentation that the text of the case is, `quotient P C` takes the largest quotient of p-class
//! at most C, in whose full cover, over the plain collector, all that comes behind is. `matrix E` are the rows of the matrix of
//! endomorphism E; `along E E .. / LETTERS` is the row of a word along endomorphisms, where it has one; and `close R E` are the rows
//! that the row of iterated relator R and its images under the matrix of endomorphism E add to an empty basis, each with its name.

ghost use Rattle.std.specs.Prelude.{◌≡◌, IfOk, length};
ghost use Rattle.pq_base.specs.SignedWord.{HasLetters};
ghost use Rattle.pq_base.specs.LPresentation.{AreEndoNumbers};
ghost use Rattle.endo_lift.specs.Lifts.{IsMatrixOver};

use crate::towers::{largest_of, prime_and_class};
use anyhow::{Result, bail};
use case_lists::text::{Text, halves, numbers, show_numbers};
use case_lists::{
    Cases, are_endo_numbers, empty_row, is_over, read_short, scratch_of, show_answer, show_row,
    word_of,
};
use derivation_log::RowCounts;
use endo_lift::matrix;
use epimorphism::{Work, relator_row, row_along};
use fp_echelon::{Basis, Matrix};
use fp_rows::Row;
use free_words::Word;
use lpres_reader::LPres;
use p_cover::{Cover, Images, full_cover};
use pc_presentation::Answer;
use relator_spin::{Spun, close};
use std::alloc::Global;

#[derive(Drop)]
pub(crate) struct EndoCases {
    alloc: Global,
    text: Text,
    answer: Option<Answer>,
}

impl Cases for EndoCases {
    fn new(alloc: Global) -> EndoCases {
        EndoCases {
            alloc,
            text: Text::new(alloc),
            answer: None,
        }
    }

    fn act(&mut self, verb: &str, rest: &str, out: &mut String) -> Result<()> {
        if self.text.add(verb, rest)? {
            return Ok(());
        }
        let Ok(pres) = read_short(self.alloc, self.text.bytes())? else {
            bail!("no presentation");
        };
        if verb == "quotient" {
            let answer = quotient_of(self.alloc, &pres, rest)?;
            show_answer(self.alloc, &answer, out)?;
            self.answer = Some(answer);
            return Ok(());
        }
        match &self.answer {
            Some(answer) => calculate(self.alloc, &pres, answer, verb, rest, out),
            None => bail!("no quotient"),
        }
    }
}

fn quotient_of(alloc: Global, pres: &LPres, rest: &str) -> Result<Answer> {
    let (prime, class) = prime_and_class(rest)?;
    let mut log = RowCounts::new(alloc);
    match largest_of(alloc, pres, prime, class, &mut log) {
        Ok(answer) => Ok(answer),
        Err(_) => bail!("no answer"),
    }
}

fn calculate(
    alloc: Global,
    pres: &LPres,
    answer: &Answer,
    verb: &str,
    rest: &str,
    out: &mut String,
) -> Result<()> {
    let cover = full_cover(alloc, answer)?;
    if cover.answer().names().len() != pres.names().len() {
        bail!("an answer of another presentation");
    }
    match verb {
        "matrix" => show_matrix(alloc, pres, &cover, rest.parse::<u8>()?, out),
        "along" => {
            let (path, letters) = halves(rest, "/")?;
            let path = numbers::<u8>(alloc, path)?;
            show_along(alloc, pres, &cover, &path, &word_of(alloc, letters)?, out)
        }
        "close" => {
            let (relator, endo) = halves(rest, " ")?;
            let relator = relator.parse::<usize>()?;
            show_closure(alloc, pres, &cover, relator, endo.parse::<u8>()?, out)
        }
        _ => bail!("no such verb"),
    }
}

fn show_matrix(alloc: Global, pres: &LPres, cover: &Cover, endo: u8, out: &mut String) -> Result<()>
    requires { length cover.now.answer.names ≡ length pres.now.names }
{
    let matrix = matrix_of(alloc, pres, cover, endo)?;
    for t in 0..cover.tails() {
        out.push_str("   ")?;
        show_row(out, matrix.row(t + 1))?;
        out.push('\n')?;
    }
    Ok(())
}

/// The matrix of an endomorphism, named by its number, over the tails of a cover.
fn matrix_of(alloc: Global, pres: &LPres, cover: &Cover, endo: u8) -> Result<Matrix>
    requires { length cover.now.answer.names ≡ length pres.now.names }
    ensures { IfOk result (λ m. IsMatrixOver cover.now m) }
{
    if !are_endo_numbers(pres.endos().len(), &[endo]) {
        bail!("no such endomorphism");
    }
    let mut s = scratch_of(alloc, cover)?;
    let images = Images::lift(alloc, &mut s, cover)?;
    let matrix = matrix(alloc, &mut s, cover, &images, pres.endo(endo))?;
    Ok(matrix)
}

fn show_along(
    alloc: Global,
    pres: &LPres,
    cover: &Cover,
    path: &[u8],
    word: &Word,
    out: &mut String,
) -> Result<()>
    requires { length cover.now.answer.names ≡ length pres.now.names }
{
    if !are_endo_numbers(pres.endos().len(), path) {
        bail!("no such endomorphism");
    }
    if !is_over(cover.answer().names().len(), word.letters()) {
        bail!("a letter without an image");
    }
    match row_along_of(alloc, pres, cover, path, word)? {
        Some(row) => {
            out.push_str("   ")?;
            show_row(out, &row)?;
            out.push('\n')?;
        }
        None => writeln!(out, "    no row")?,
    }
    Ok(())
}

/// The row of a word along endomorphisms, where it has one.
fn row_along_of(
    alloc: Global,
    pres: &LPres,
    cover: &Cover,
    path: &[u8],
    word: &Word,
) -> Result<Option<Row>>
    requires generators { length cover.now.answer.names ≡ length pres.now.names }
    requires numbers { AreEndoNumbers (length pres.now.endos) path.now }
    requires letters { HasLetters (length cover.now.answer.names) word.now }
{
    let mut s = scratch_of(alloc, cover)?;
    let images = Images::lift(alloc, &mut s, cover)?;
    let mut work = Work::new(alloc, cover)?;
    let mut row = empty_row(alloc, cover)?;
    if row_along(
        &mut s, &mut work, cover, &images, pres, path, word, &mut row,
    ) {
        Ok(Some(row))
    } else {
        Ok(None)
    }
}

fn show_closure(
    alloc: Global,
    pres: &LPres,
    cover: &Cover,
    relator: usize,
    endo: u8,
    out: &mut String,
) -> Result<()>
    requires { length cover.now.answer.names ≡ length pres.now.names }
{
    if relator == 0 || pres.iterated().len() < relator {
        bail!("no such relator");
    }
    let row = row_of_relator(alloc, cover, &pres.iterated()[relator - 1])?;
    let matrix = matrix_of(alloc, pres, cover, endo)?;
    let (basis, spun) = closure_of(alloc, cover, row, matrix)?;
    for place in 0..basis.rank() {
        match spun.get(place as usize) {
            Some(name) => show_added(basis.added(place + 1), name, out)?,
            None => bail!("a row without a name"),
        }
    }
    Ok(())
}

/// The row of a relator.
fn row_of_relator(alloc: Global, cover: &Cover, word: &Word) -> Result<Row>
    ensures prime { IfOk result (λ row. row.prime ≡ cover.now.answer.presentation.prime) }
    ensures width { IfOk result (λ row. length row.entries ≡ length cover.now.sources) }
{
    if !is_over(cover.answer().names().len(), word.letters()) {
        bail!("a letter without an image");
    }
    let mut s = scratch_of(alloc, cover)?;
    let images = Images::lift(alloc, &mut s, cover)?;
    let mut row = empty_row(alloc, cover)?;
    if !relator_row(&mut s, cover, &images, word, &mut row) {
        bail!("a relator without a row");
    }
    Ok(row)
}

/// What a row and its images under a matrix add to an empty basis.
fn closure_of(alloc: Global, cover: &Cover, row: Row, matrix: Matrix) -> Result<(Basis, Vec<Spun>)>
    requires row_prime { row.prime ≡ cover.now.answer.presentation.prime }
    requires row_width { length row.entries ≡ length cover.now.sources }
    requires matrix { IsMatrixOver cover.now matrix }
{
    let basis = Basis::new(alloc, cover.pcp().prime(), cover.tails())?;
    let closed = close(alloc, basis, &[row], &[matrix])?;
    Ok(closed)
}

/// Writes a row that was added, and its name.
fn show_added(row: &Row, name: &Spun, out: &mut String) -> Result<()> {
    let number = name.row;
    out.push_str("   ")?;
    show_row(out, row)?;
    write!(out, " from {number} along")?;
    show_numbers(out, name.along.numbers())?;
    out.push('\n')?;
    Ok(())
}
