//! Canonical texts of presentations.

ghost use Rattle.std.specs.Prelude.{◌≡◌, ◌<◌, ◌-◌, ◌^◌, length, IfOk, IfSome, IfNone};
ghost use Rattle.pq_base.specs.LPresentation.{LPresentation};
ghost use Rattle.lpres_reader.specs.CanonicalText.{canonical_text};
ghost use Rattle.lpres_reader.specs.Reads.{Reads};
ghost use Rattle.cert_text.specs.CertificateText.{HasText};

use answer_text::pieces::are_same;
use lpres_reader::{LPres, ReadRefusal};
use pq_base::NoMemory;
use std::alloc::Global;

/// The presentation of which this is the canonical text, or `None` where it is that of none.
pub(crate) fn canonical(alloc: Global, text: &[u8]) -> Result<Option<LPres>, NoMemory>
    requires { length text.now < 2 ^ 32 - 1 }
    ensures some { IfOk result (λ o. IfSome o (λ pres. HasText pres × (text.now ≡ canonical_text pres))) }
    ensures none { IfOk result (λ o. IfNone o ((L : LPresentation) → HasText L → ¬ (text.now ≡ canonical_text L))) }
{
    match lpres_reader::read(alloc, text) {
        Ok(pres) => with_text(alloc, text, pres),
        Err(ReadRefusal::Text(_)) => Ok(None),
        Err(ReadRefusal::NoMemory) => Err(NoMemory),
    }
}

/// The presentation that a text reads as, where it is its canonical text.
fn with_text(alloc: Global, text: &[u8], pres: LPres) -> Result<Option<LPres>, NoMemory>
    requires { Reads text.now pres }
    ensures some { IfOk result (λ o. IfSome o (λ found. HasText found × (text.now ≡ canonical_text found))) }
    ensures none { IfOk result (λ o. IfNone o ((L : LPresentation) → HasText L → ¬ (text.now ≡ canonical_text L))) }
{
    let _names = pres.names();
    let written = lpres_reader::write(alloc, &pres)?;
    if are_same(text, &written) {
        Ok(Some(pres))
    } else {
        Ok(None)
    }
}
