//! Numbers with coefficients, each read where it is written exactly so.

ghost use Rattle.std.specs.Prelude.{◌≡◌, ◌<◌, ◌≤◌, ◌++◌, ◌∷◌, ℕ, List, length, IfOk, IfSome, IfNone};
ghost use Rattle.cert_text.specs.CertificateText.{pair_text, further_pairs_text};
ghost use Rattle.cert_text.specs.NumberFronts.{is_no_digit, StartsWell};
ghost use Rattle.cert_text.specs.WrittenNumbers.{IsSmallPair, AreSmallPairs, EndsPairs};

use crate::number_reading::front_number;
use answer_text::pieces::behind;
use pq_base::NoMemory;
use std::alloc::Global;

/// The number below 65536 with its coefficient below 256 at the front of a text, and what follows it, which no digit begins.
fn front_pair(text: &[u8]) -> Option<((u16, u8), &[u8])>
    ensures some { IfSome result (λ x. text.now ≡ pair_text x.0 ++ x.1.now) }
    ensures small { IfSome result (λ x. IsSmallPair x.0) }
    ensures stops { IfSome result (λ x. StartsWell is_no_digit x.1.now) }
    ensures shorter { IfSome result (λ x. length x.1.now < length text.now) }
    ensures none { IfNone result ((a : ℕ × ℕ) (rest : List ℕ) → IsSmallPair a → StartsWell is_no_digit rest
        → ¬ (text.now ≡ pair_text a ++ rest)) }
{
    let (number, rest) = front_number(text)?;
    let (coefficient, rest) = front_number(behind(rest, b":")?)?;
    if coefficient < 256 {
        Some(((number, coefficient as u8), rest))
    } else {
        None
    }
}

/// The pair behind a blank at the front of a text, and what follows it.
fn next_pair(text: &[u8]) -> Option<((u16, u8), &[u8])>
    ensures some { IfSome result (λ x. text.now ≡ 32 ∷ (pair_text x.0 ++ x.1.now)) }
    ensures small { IfSome result (λ x. IsSmallPair x.0) }
    ensures stops { IfSome result (λ x. StartsWell is_no_digit x.1.now) }
    ensures shorter { IfSome result (λ x. length x.1.now < length text.now) }
    ensures none { IfNone result ((a : ℕ × ℕ) (rest : List ℕ) → IsSmallPair a → StartsWell is_no_digit rest
        → ¬ (text.now ≡ 32 ∷ (pair_text a ++ rest))) }
{
    match text {
        [b' ', rest @ ..] => front_pair(rest),
        _ => None,
    }
}

/// The pairs at the front of a text, each behind a blank, up to where none follows, are put behind others. What follows them is given.
fn further_pairs<'a>(pairs: &mut Vec<(u16, u8)>, text: &'a [u8]) -> Result<&'a [u8], NoMemory>
    requires small { AreSmallPairs pairs.old.items }
    requires stops { StartsWell is_no_digit text.now }
    ensures read { IfOk result (λ rest. further_pairs_text pairs.old.items ++ text.now ≡ further_pairs_text pairs.new.items ++ rest.now) }
    ensures small { IfOk result (λ rest. AreSmallPairs pairs.new.items) }
    ensures longer { IfOk result (λ rest. length pairs.old.items ≤ length pairs.new.items) }
    ensures end { IfOk result (λ rest. EndsPairs rest.now) }
{
    let mut rest = text;
    while let Some((pair, more)) = next_pair(rest) {
        pairs.push(pair)?;
        rest = more;
    }
    Ok(rest)
}

/// The pairs at the front of a text, of which there are some, and what follows them.
pub(crate) fn front_pairs(
    alloc: Global,
    text: &[u8],
) -> Result<Option<(Vec<(u16, u8)>, &[u8])>, NoMemory>
    ensures some { IfOk result (λ o. IfSome o (λ x. 32 ∷ text.now ≡ further_pairs_text x.0.items ++ x.1.now)) }
    ensures small { IfOk result (λ o. IfSome o (λ x. AreSmallPairs x.0.items)) }
    ensures some_pair { IfOk result (λ o. IfSome o (λ x. 1 ≤ length x.0.items)) }
    ensures end { IfOk result (λ o. IfSome o (λ x. EndsPairs x.1.now)) }
    ensures none { IfOk result (λ o. IfNone o ((a : ℕ × ℕ) (rest : List ℕ) → IsSmallPair a → StartsWell is_no_digit rest
        → ¬ (text.now ≡ pair_text a ++ rest))) }
{
    let Some((pair, rest)) = front_pair(text) else {
        return Ok(None);
    };
    let mut pairs = Vec::new(alloc);
    pairs.push(pair)?;
    let rest = further_pairs(&mut pairs, rest)?;
    Ok(Some((pairs, rest)))
}
