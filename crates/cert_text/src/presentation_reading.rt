//! The lines of a presentation, read to the line of the prime.

ghost use Rattle.std.specs.Prelude.{◌≡◌, ◌<◌, ◌≤◌, ◌+◌, ◌-◌, ◌^◌, length, IfOk, IfErr};
ghost use Rattle.cert_text.specs.CertificatePlaces.Place.{for_generators};
ghost use Rattle.cert_text.specs.ReadSoFar.{IsBadAt, IsPresentationRead};

use crate::canonical_reading::canonical;
use crate::fault::CertFault;
use crate::presentation_lines::{behind_items, canonical_lines};
use lpres_reader::LPres;
use std::alloc::Global;

/// The presentation at the front of a text, what follows its lines, and the number of the line there; or the first line that has no form.
pub(crate) fn read_presentation(
    alloc: Global,
    text: &[u8],
    first: u32,
) -> Result<(LPres, &[u8], u32), CertFault>
    requires { length text.now + first < 2 ^ 32 - 1 }
    ensures read { IfOk result (λ x. IsPresentationRead text.now first x.0 x.1.now x.2) }
    ensures shorter { IfOk result (λ x. length x.1.now + x.2 ≤ length text.now + first) }
    ensures err { IfErr result (IsBadAt for_generators text.now first) }
{
    let (count, rest) = behind_items(text);
    let lines = &text[..text.len() - rest.len()];
    if let Some(pres) = canonical(alloc, lines)? {
        return Ok((pres, rest, first + count));
    }
    Err(CertFault::Line(first + canonical_lines(alloc, lines, count)?))
}
