//! Steps of one class. `step` is the step from the answer that the text of the case is, without rows, and `step ROW / ROW
//! ..` the step where these rows over its tails are to be trivial: the next answer, or that it is the same, or the rank that
//! is too large; or that there is no step, where the class is the greatest one or a tail is kept that makes no generator.

ghost use Rattle.std.specs.Prelude.{◌≡◌, ◌≤◌, ◌-◌, get_or, length, OnOk, IfOk, IsTrue};
ghost use Rattle.pq_base.specs.Answer.{class_of};
ghost use Rattle.pq_base.specs.Answer.Definition.{image};
ghost use Rattle.fp_echelon.specs.Reduced.{IsPivot};
ghost use Rattle.pc_presentation.specs.Definition.{definition_of};
ghost use Rattle.p_cover.specs.Sources.{relation_source};
ghost use Rattle.p_cover.specs.Covers.{all_sources};
ghost use Rattle.cover_quotient.specs.Defining.{HasEmptySide, MayBeKept, KeptMayBeKept};

use crate::answer_cases::read_short;
use crate::element_calls::is_relation;
use crate::row_cases::insert_row;
use anyhow::{Result, bail};
use case_lists::text::{Text, numbers};
use case_lists::{Cases, show_answer};
use class_step::{Step, eliminate};
use fp_echelon::Basis;
use p_cover::{Cover, full_cover};
use pc_presentation::{Answer, Definition, Relation};
use pq_base::NoMemory;
use pq_base::limits::CLASS;
use std::alloc::Global;

#[derive(Drop)]
pub(crate) struct StepCases {
    alloc: Global,
    text: Text,
}

impl Cases for StepCases {
    fn new(alloc: Global) -> StepCases {
        StepCases {
            alloc,
            text: Text::new(alloc),
        }
    }

    fn act(&mut self, verb: &str, rest: &str, out: &mut String) -> Result<()> {
        if self.text.add(verb, rest)? {
            return Ok(());
        }
        if verb != "step" {
            bail!("no such verb");
        }
        let answer = read_short(self.alloc, self.text.bytes())??;
        let basis = basis_of(self.alloc, &answer, rest)?;
        show_step(self.alloc, step_of(self.alloc, &answer, &basis)?, out)
    }
}

/// A basis of rows over the tails of the full cover.
fn basis_of(alloc: Global, answer: &Answer, rows: &str) -> Result<Basis>
    ensures prime { IfOk result (λ basis. basis.prime ≡ answer.now.presentation.prime) }
    ensures width { IfOk result (λ basis. basis.width ≡ length (all_sources answer.now)) }
{
    let mut basis = empty_basis(alloc, answer)?;
    basis.reserve(basis.width())?;
    for row in rows.split('/') {
        insert_text(alloc, &mut basis, row)?;
    }
    Ok(basis)
}

/// The empty basis over the tails of the full cover.
fn empty_basis(alloc: Global, answer: &Answer) -> Result<Basis>
    ensures prime { IfOk result (λ basis. basis.prime ≡ answer.now.presentation.prime) }
    ensures width { IfOk result (λ basis. basis.width ≡ length (all_sources answer.now)) }
{
    let width = full_cover(alloc, answer)?.tails();
    let basis = Basis::new(alloc, answer.pcp().prime(), width)?;
    Ok(basis)
}

/// Inserts the row that a text is, and nothing of an empty text.
fn insert_text(alloc: Global, basis: &mut Basis, row: &str) -> Result<()>
    ensures prime { OnOk result (basis.new.prime ≡ basis.old.prime) }
    ensures width { OnOk result (basis.new.width ≡ basis.old.width) }
{
    let entries = numbers::<u8>(alloc, row)?;
    if !entries.is_empty() {
        insert_row(alloc, basis, &entries)?;
    }
    Ok(())
}

/// The step from an answer, by its full cover, where each kept tail may be kept.
fn step_of(alloc: Global, answer: &Answer, basis: &Basis) -> Result<Option<Step>, NoMemory>
    requires prime { basis.now.prime ≡ answer.now.presentation.prime }
    requires width { basis.now.width ≡ length (all_sources answer.now) }
{
    let cover = full_cover(alloc, answer)?;
    if CLASS <= cover.answer().class() || !may_all_be_kept(&cover, basis) {
        return Ok(None);
    }
    Ok(Some(eliminate(alloc, &cover, basis)?))
}

/// Whether each tail without a pivot may be kept as a generator.
fn may_all_be_kept(cover: &Cover, basis: &Basis) -> bool
    requires { basis.now.width ≡ length cover.now.sources }
    ensures { IsTrue result → KeptMayBeKept cover.now basis.now.rows }
{
    for c in 0..basis.width() {
        if !is_pivot_or_may_be_kept(cover, basis, c + 1) {
            return false;
        }
    }
    true
}

/// Whether a tail has a pivot, or may be kept.
fn is_pivot_or_may_be_kept(cover: &Cover, basis: &Basis, tail: u16) -> bool
    requires first { 1 ≤ tail }
    requires last { tail ≤ length cover.now.sources }
    ensures { IsTrue result → ¬ IsPivot tail basis.now.rows
        → MayBeKept cover.now.answer (class_of cover.now.answer) (get_or cover.now.sources (tail - 1) (image 0)) }
{
    basis.is_pivot(tail) || may_be_kept(cover.answer(), cover.source_of(tail))
}

/// Whether a tail may be kept: at class 0 that of an image, later that of a relation with the empty word.
fn may_be_kept(answer: &Answer, source: Definition) -> bool
    ensures { IsTrue result → MayBeKept answer.now (class_of answer.now) (definition_of source) }
{
    let is_first = answer.class() == 0;
    match source {
        Definition::Image(_) => is_first,
        Definition::Power(j) => !is_first && has_empty_word(answer, Relation::Power(j)),
        Definition::Commutator(j, i) => {
            !is_first && has_empty_word(answer, Relation::Commutator(j, i))
        }
    }
}

/// Whether this is a relation of an answer, with the empty word.
fn has_empty_word(answer: &Answer, relation: Relation) -> bool
    ensures { IsTrue result → HasEmptySide answer.now (relation_source relation) }
{
    let pcp = answer.pcp();
    is_relation(relation, pcp.rank()) && pcp.word(relation).is_empty()
}

fn show_step(alloc: Global, step: Option<Step>, out: &mut String) -> Result<()> {
    match step {
        Some(Step::Next(answer)) => show_answer(alloc, &answer, out)?,
        Some(Step::Same) => writeln!(out, "    the same")?,
        Some(Step::TooLarge { rank }) => writeln!(out, "    rank {rank} is too large")?,
        None => writeln!(out, "    no step")?,
    }
    Ok(())
}
