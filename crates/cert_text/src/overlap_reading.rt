//! Overlaps, each read where it is written exactly so.

ghost use Rattle.std.specs.Prelude.{◌≡◌, ◌++◌, [], ◌∷◌, true, ℕ, List, IfOk, IfSome, IfNone, codes};
ghost use Rattle.pc_presentation.specs.declared.overlap.Overlap.{Overlap as OverlapData};
ghost use Rattle.pc_presentation.specs.declared.overlap.Overlap.TheVariants.{Triple, Left, Right, Own};
ghost use Rattle.derivation_log.specs.CertificateForms.{is_written_overlap};
ghost use Rattle.cert_text.specs.CertificateText.{numbers_text, overlap_text};

use crate::numbers_reading::numbers;
use answer_text::pieces::behind;
use pc_presentation::Overlap;
use pq_base::NoMemory;
use std::alloc::Global;

/// The overlap that a text says.
pub(crate) fn overlap(alloc: Global, text: &[u8]) -> Result<Option<Overlap>, NoMemory>
    ensures some { IfOk result (λ r. IfSome r (λ o. (text.now ≡ overlap_text o) × (is_written_overlap o ≡ true))) }
    ensures none { IfOk result (λ r. IfNone r ((o : OverlapData) → is_written_overlap o ≡ true → ¬ (text.now ≡ overlap_text o))) }
{
    if let Some(rest) = behind(text, b"triple") {
        return triple_behind(alloc, rest);
    }
    if let Some(rest) = behind(text, b"left") {
        return left_behind(alloc, rest);
    }
    if let Some(rest) = behind(text, b"right") {
        return right_behind(alloc, rest);
    }
    match behind(text, b"own") {
        Some(rest) => own_behind(alloc, rest),
        None => Ok(None),
    }
}

/// The overlap of some numbers behind the keyword `triple`.
fn triple(numbers: &[u16]) -> Option<Overlap>
    ensures some { IfSome result (λ o. (overlap_text o ≡ codes "triple" ++ numbers_text numbers.now) × (is_written_overlap o ≡ true)) }
    ensures none { IfNone result ((k j i : ℕ) → is_written_overlap (Triple k j i) ≡ true → ¬ (numbers.now ≡ k ∷ j ∷ i ∷ [])) }
{
    match numbers {
        [k, j, i] if 1 <= *k && 1 <= *j && 1 <= *i => Some(Overlap::Triple(*k, *j, *i)),
        _ => None,
    }
}

/// The overlap that a text says behind the keyword `triple`.
fn triple_behind(alloc: Global, text: &[u8]) -> Result<Option<Overlap>, NoMemory>
    ensures some { IfOk result (λ r. IfSome r (λ o. (overlap_text o ≡ codes "triple" ++ text.now) × (is_written_overlap o ≡ true))) }
    ensures none { IfOk result (λ r. IfNone r ((k j i : ℕ) → is_written_overlap (Triple k j i) ≡ true
        → ¬ (text.now ≡ numbers_text (k ∷ j ∷ i ∷ [])))) }
{
    let Some(found) = numbers(alloc, text)? else {
        return Ok(None);
    };
    match triple(&found) {
        Some(overlap) => Ok(Some(overlap)),
        None => Ok(None),
    }
}

/// The overlap of some numbers behind the keyword `left`.
fn left(numbers: &[u16]) -> Option<Overlap>
    ensures some { IfSome result (λ o. (overlap_text o ≡ codes "left" ++ numbers_text numbers.now) × (is_written_overlap o ≡ true)) }
    ensures none { IfNone result ((j i : ℕ) → is_written_overlap (Left j i) ≡ true → ¬ (numbers.now ≡ j ∷ i ∷ [])) }
{
    match numbers {
        [j, i] if 1 <= *j && 1 <= *i => Some(Overlap::Left(*j, *i)),
        _ => None,
    }
}

/// The overlap that a text says behind the keyword `left`.
fn left_behind(alloc: Global, text: &[u8]) -> Result<Option<Overlap>, NoMemory>
    ensures some { IfOk result (λ r. IfSome r (λ o. (overlap_text o ≡ codes "left" ++ text.now) × (is_written_overlap o ≡ true))) }
    ensures none { IfOk result (λ r. IfNone r ((j i : ℕ) → is_written_overlap (Left j i) ≡ true
        → ¬ (text.now ≡ numbers_text (j ∷ i ∷ [])))) }
{
    let Some(found) = numbers(alloc, text)? else {
        return Ok(None);
    };
    match left(&found) {
        Some(overlap) => Ok(Some(overlap)),
        None => Ok(None),
    }
}

/// The overlap of some numbers behind the keyword `right`.
fn right(numbers: &[u16]) -> Option<Overlap>
    ensures some { IfSome result (λ o. (overlap_text o ≡ codes "right" ++ numbers_text numbers.now) × (is_written_overlap o ≡ true)) }
    ensures none { IfNone result ((j i : ℕ) → is_written_overlap (Right j i) ≡ true → ¬ (numbers.now ≡ j ∷ i ∷ [])) }
{
    match numbers {
        [j, i] if 1 <= *j && 1 <= *i => Some(Overlap::Right(*j, *i)),
        _ => None,
    }
}

/// The overlap that a text says behind the keyword `right`.
fn right_behind(alloc: Global, text: &[u8]) -> Result<Option<Overlap>, NoMemory>
    ensures some { IfOk result (λ r. IfSome r (λ o. (overlap_text o ≡ codes "right" ++ text.now) × (is_written_overlap o ≡ true))) }
    ensures none { IfOk result (λ r. IfNone r ((j i : ℕ) → is_written_overlap (Right j i) ≡ true
        → ¬ (text.now ≡ numbers_text (j ∷ i ∷ [])))) }
{
    let Some(found) = numbers(alloc, text)? else {
        return Ok(None);
    };
    match right(&found) {
        Some(overlap) => Ok(Some(overlap)),
        None => Ok(None),
    }
}

/// The overlap of some numbers behind the keyword `own`.
fn own(numbers: &[u16]) -> Option<Overlap>
    ensures some { IfSome result (λ o. (overlap_text o ≡ codes "own" ++ numbers_text numbers.now) × (is_written_overlap o ≡ true)) }
    ensures none { IfNone result ((i : ℕ) → is_written_overlap (Own i) ≡ true → ¬ (numbers.now ≡ i ∷ [])) }
{
    match numbers {
        [i] if 1 <= *i => Some(Overlap::Own(*i)),
        _ => None,
    }
}

/// The overlap that a text says behind the keyword `own`.
fn own_behind(alloc: Global, text: &[u8]) -> Result<Option<Overlap>, NoMemory>
    ensures some { IfOk result (λ r. IfSome r (λ o. (overlap_text o ≡ codes "own" ++ text.now) × (is_written_overlap o ≡ true))) }
    ensures none { IfOk result (λ r. IfNone r ((i : ℕ) → is_written_overlap (Own i) ≡ true → ¬ (text.now ≡ numbers_text (i ∷ [])))) }
{
    let Some(found) = numbers(alloc, text)? else {
        return Ok(None);
    };
    match own(&found) {
        Some(overlap) => Ok(Some(overlap)),
        None => Ok(None),
    }
}
