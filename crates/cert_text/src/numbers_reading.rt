//! Lists of numbers, each read where it is written exactly so.

ghost use Rattle.std.specs.Prelude.{◌≡◌, ◌<◌, ◌++◌, [], ◌∷◌, true, ℕ, List, length, IfOk, IfSome, IfNone, codes, decimal};
ghost use Rattle.pq_base.specs.Table.{AllBelow};
ghost use Rattle.cert_text.specs.CertificateText.{numbers_text};
ghost use Rattle.cert_text.specs.NumberFronts.{is_no_digit, StartsWell};

use crate::number_reading::front_number;
use pq_base::NoMemory;
use std::alloc::Global;

/// The number below 65536 behind a blank at the front of a text, and what follows it, which no digit begins.
pub(crate) fn next_number(text: &[u8]) -> Option<(u16, &[u8])>
    ensures some { IfSome result (λ x. text.now ≡ 32 ∷ (decimal x.0 ++ x.1.now)) }
    ensures small { IfSome result (λ x. x.0 < 65536) }
    ensures stops { IfSome result (λ x. StartsWell is_no_digit x.1.now) }
    ensures shorter { IfSome result (λ x. length x.1.now < length text.now) }
    ensures none { IfNone result ((n : ℕ) (rest : List ℕ) → n < 65536 → StartsWell is_no_digit rest
        → ¬ (text.now ≡ 32 ∷ (decimal n ++ rest))) }
{
    match text {
        [b' ', rest @ ..] => front_number(rest),
        _ => None,
    }
}

/// The numbers below 65536 of a text, each behind a blank, or `None` where the text is none such list.
pub(crate) fn numbers(alloc: Global, text: &[u8]) -> Result<Option<Vec<u16>>, NoMemory>
    ensures some { IfOk result (λ o. IfSome o (λ ns. text.now ≡ numbers_text ns.items)) }
    ensures small { IfOk result (λ o. IfSome o (λ ns. AllBelow 65536 ns.items)) }
    ensures none { IfOk result (λ o. IfNone o ((ns : List ℕ) → AllBelow 65536 ns → ¬ (text.now ≡ numbers_text ns))) }
{
    let mut numbers = Vec::new(alloc);
    let mut rest = text;
    while !rest.is_empty() {
        let Some((number, more)) = next_number(rest) else {
            return Ok(None);
        };
        numbers.push(number)?;
        rest = more;
    }
    Ok(Some(numbers))
}
