//! The tails that the lines of a step keep.

ghost use Rattle.std.specs.Prelude.{◌≡◌, ◌↔◌, ◌≤◌, ◌-◌, false, get_or, length, All, IfOk, IfSome, IfNone, IsTrue};
ghost use Rattle.pq_base.specs.Answer.{class_of};
ghost use Rattle.pq_base.specs.Answer.Definition.{image};
ghost use Rattle.pc_presentation.specs.Definition.{definition_of};
ghost use Rattle.p_cover.specs.Sources.{relation_source};
ghost use Rattle.p_cover.specs.CoverLaws.{IsSource};
ghost use Rattle.pc_presentation.specs.Relation.{IsRelation};
ghost use Rattle.cover_quotient.specs.Kept.{is_listed};
ghost use Rattle.cover_quotient.specs.NextAnswer.{sources_at};
ghost use Rattle.cover_quotient.specs.Defining.{HasEmptySide, MayBeKept};
ghost use Rattle.cover_quotient.specs.NextParts.{IsPlace};
ghost use Rattle.cert_checker.specs.KeptTails.{tails_of, kept_tails, IsLineOf};

use derivation_log::CertTail;
use p_cover::Cover;
use pc_presentation::{Answer, Definition, Relation};
use pq_base::NoMemory;
use std::alloc::Global;

/// The tails of a cover without a line, in rising order.
pub(crate) fn kept_tails(
    alloc: Global,
    cover: &Cover,
    lines: &[CertTail],
) -> Result<Vec<u16>, NoMemory>
    ensures { IfOk result (λ kept. kept.items ≡ kept_tails (length cover.now.sources) lines.now) }
{
    let mut kept = Vec::new(alloc);
    for t in 0..cover.tails() {
        if line_of(lines, t + 1).is_none() {
            kept.push(t + 1)?;
        }
    }
    Ok(kept)
}

/// The line of a tail, counted from 1, if it has one.
pub(crate) fn line_of(lines: &[CertTail], tail: u16) -> Option<&CertTail>
    ensures some { IfSome result (λ line. IsLineOf lines.now tail line.now) }
    ensures none { IfNone result (is_listed tail (tails_of lines.now) ≡ false) }
{
    for line in lines {
        if line.tail() == tail {
            return Some(line);
        }
    }
    None
}

/// Whether each of some tails may be kept.
pub(crate) fn may_all_be_kept(cover: &Cover, kept: &[u16]) -> bool
    requires { All (IsPlace cover.now.sources) kept.now }
    ensures { IsTrue result ↔ All (MayBeKept cover.now.answer (class_of cover.now.answer)) (sources_at kept.now cover.now.sources) }
{
    let _cover = cover.pcp();
    for tail in kept {
        if !may_be_kept(cover.answer(), cover.source_of(*tail)) {
            return false;
        }
    }
    true
}

/// Whether a tail may be kept: at class 0 that of an image, later that of a relation with the empty word.
fn may_be_kept(answer: &Answer, source: Definition) -> bool
    requires { IsSource answer.now (definition_of source) }
    ensures { IsTrue result ↔ MayBeKept answer.now (class_of answer.now) (definition_of source) }
{
    let is_first = answer.class() == 0;
    match source {
        Definition::Image(_) => is_first,
        Definition::Power(j) => !is_first && has_empty_word(answer, Relation::Power(j)),
        Definition::Commutator(j, i) => {
            !is_first && has_empty_word(answer, Relation::Commutator(j, i))
        }
    }
}

/// Whether a relation has the empty word.
fn has_empty_word(answer: &Answer, relation: Relation) -> bool
    requires { IsRelation answer.now.presentation.rank relation }
    ensures { IsTrue result ↔ HasEmptySide answer.now (relation_source relation) }
{
    answer.pcp().word(relation).is_empty()
}
