//! The lines of sources, each read where it is written exactly so.

ghost use Rattle.std.specs.Prelude.{◌≡◌, ◌<◌, ◌++◌, [], ◌∷◌, true, ℕ, List, IfOk, IfSome, IfNone, codes};
ghost use Rattle.pq_base.specs.LPresentation.{LPresentation};
ghost use Rattle.pq_base.specs.Table.{AllBelow};
ghost use Rattle.lpres_reader.specs.Limits.{IsWithinLimits};
ghost use Rattle.derivation_log.specs.declared.source.RowSource.{RowSource as RowSourceData};
ghost use Rattle.derivation_log.specs.declared.source.Run.{Run as RunData};
ghost use Rattle.derivation_log.specs.CertificateForms.{is_source_in as is_named};
ghost use Rattle.cert_text.specs.CertificateText.{numbers_text, along_text, source_text, source_line};
ghost use Rattle.cert_text.specs.WrittenNumbers.{IsWrittenSource};

use crate::numbers_reading::next_number;
use crate::overlap_reading::overlap;
use crate::path_reading::along;
use answer_text::pieces::behind;
use derivation_log::{RowSource, Run, is_source_in};
use lpres_reader::LPres;
use pq_base::NoMemory;
use std::alloc::Global;

/// The source of a line, where a run may name it.
pub(crate) fn source_line(
    alloc: Global,
    pres: &LPres,
    run: Run,
    line: &[u8],
) -> Result<Option<RowSource>, NoMemory>
    ensures some { IfOk result (λ o. IfSome o (λ a. line.now ≡ source_line a)) }
    ensures named { IfOk result (λ o. IfSome o (λ a. is_named pres.now run a ≡ true)) }
    ensures none { IfOk result (λ o. IfNone o ((a : RowSourceData) → is_named pres.now run a ≡ true → ¬ (line.now ≡ source_line a))) }
{
    let _names = pres.names();
    let Some(text) = behind(line, b"source ") else {
        return Ok(None);
    };
    let Some(found) = source(alloc, text)? else {
        return Ok(None);
    };
    if is_source_in(pres, run, &found) {
        Ok(Some(found))
    } else {
        Ok(None)
    }
}

/// The source that a text says.
fn source(alloc: Global, text: &[u8]) -> Result<Option<RowSource>, NoMemory>
    ensures some { IfOk result (λ o. IfSome o (λ a. text.now ≡ source_text a)) }
    ensures written { IfOk result (λ o. IfSome o (λ a. IsWrittenSource a)) }
    ensures none { IfOk result (λ o. IfNone o ((L : LPresentation) (run : RunData) (a : RowSourceData) → IsWithinLimits L
        → is_named L run a ≡ true → ¬ (text.now ≡ source_text a))) }
{
    if let Some(rest) = behind(text, b"fixed") {
        return Ok(fixed_behind(rest));
    }
    if let Some(rest) = behind(text, b"iterated") {
        return iterated_behind(alloc, rest);
    }
    match overlap(alloc, text)? {
        Some(overlap) => Ok(Some(RowSource::Test(overlap))),
        None => Ok(None),
    }
}

/// The fixed relator that a text says behind the keyword `fixed`.
fn fixed_behind(text: &[u8]) -> Option<RowSource>
    ensures some { IfSome result (λ a. codes "fixed" ++ text.now ≡ source_text a) }
    ensures written { IfSome result (λ a. IsWrittenSource a) }
    ensures none { IfNone result ((i : ℕ) → i < 65536 → ¬ (text.now ≡ numbers_text (i ∷ []))) }
{
    let (relator, rest) = next_number(text)?;
    if rest.is_empty() {
        Some(RowSource::Fixed(u32::from(relator)))
    } else {
        None
    }
}

/// The iterated relator, with its path, that a text says behind the keyword `iterated`.
fn iterated_behind(alloc: Global, text: &[u8]) -> Result<Option<RowSource>, NoMemory>
    ensures some { IfOk result (λ o. IfSome o (λ a. codes "iterated" ++ text.now ≡ source_text a)) }
    ensures written { IfOk result (λ o. IfSome o (λ a. IsWrittenSource a)) }
    ensures none { IfOk result (λ o. IfNone o ((i : ℕ) (s : List ℕ) → i < 65536 → AllBelow 256 s
        → ¬ (text.now ≡ numbers_text (i ∷ []) ++ along_text s))) }
{
    let Some((relator, rest)) = next_number(text) else {
        return Ok(None);
    };
    match along(alloc, rest)? {
        Some(path) => Ok(Some(RowSource::Iterated(u32::from(relator), path))),
        None => Ok(None),
    }
}
