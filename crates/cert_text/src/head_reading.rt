//! The lines of the prime and of the class.

ghost use Rattle.std.specs.Prelude.{◌≡◌, ◌<◌, ◌≤◌, ◌+◌, ◌^◌, ◌++◌, ◌∷◌, ℕ, length, IfOk, IfErr, IfSome, IfNone};
ghost use Rattle.pq_base.specs.LPresentation.{LPresentation};
ghost use Rattle.pq_base.specs.Limits.{max_class};
ghost use Rattle.pq_base.specs.Prime.{IsOffered, prime_value};
ghost use Rattle.answer_text.specs.AnswerPlaces.{prime_line as line_of_prime, class_line as line_of_class};
ghost use Rattle.cert_text.specs.CertificatePlaces.Place.{in_presentation};
ghost use Rattle.cert_text.specs.ReadSoFar.{IsBadAt, GoesOnWithP, IsSizeRead};

use crate::fault::CertFault;
use answer_text::pieces::next_line;
use answer_text::{class_line, prime_line};
use pq_base::Prime;

/// The class, from 1 to 60, of the line of a class.
fn asked_line(line: &[u8]) -> Option<u8>
    ensures some { IfSome result (λ c. line.now ≡ line_of_class c) }
    ensures from_one { IfSome result (λ c. 1 ≤ c) }
    ensures limit { IfSome result (λ c. c ≤ max_class) }
    ensures none { IfNone result ((c : ℕ) → 1 ≤ c → c ≤ max_class → ¬ (line.now ≡ line_of_class c)) }
{
    let class = class_line(line)?;
    if 1 <= class { Some(class) } else { None }
}

/// The prime and the class of the lines behind the presentation, and what follows them; or the first line that has no form.
pub(crate) fn read_size(text: &[u8], first: u32) -> Result<(Prime, u8, &[u8]), CertFault>
    requires more { GoesOnWithP text.now }
    requires limit { length text.now + first < 2 ^ 32 }
    ensures read { IfOk result (λ x. IsSizeRead text.now (prime_value x.0) x.1 x.2.now) }
    ensures shorter { IfOk result (λ x. length x.2.now + 2 ≤ length text.now) }
    ensures err { IfErr result (λ fault. (L : LPresentation) → IsBadAt (in_presentation L) text.now first fault) }
{
    let Some((line, rest)) = next_line(text) else {
        return Err(CertFault::Line(first));
    };
    let Some(prime) = prime_line(line) else {
        return Err(CertFault::Line(first));
    };
    let Some((line, rest)) = next_line(rest) else {
        return Err(CertFault::Line(first + 1));
    };
    match asked_line(line) {
        Some(asked) => Ok((prime, asked, rest)),
        None => Err(CertFault::Line(first + 1)),
    }
}
