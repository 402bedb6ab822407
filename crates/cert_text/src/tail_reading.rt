//! The lines of tails, each read where it is written exactly so.

ghost use Rattle.std.specs.Prelude.{◌≡◌, ◌≤◌, ◌++◌, [], ◌∷◌, true, ℕ, List, length, IfOk, IfSome, IfNone, codes};
ghost use Rattle.pq_base.specs.Prime.{prime_value};
ghost use Rattle.derivation_log.specs.Certificates.{TailLine};
ghost use Rattle.derivation_log.specs.CertificateForms.{are_tail_lines};
ghost use Rattle.cert_text.specs.CertificateText.{kept_text, pairs_text, tail_line};
ghost use Rattle.cert_text.specs.WrittenNumbers.{AreSmallPairs, IsSmallTail};

use crate::number_reading::front_number;
use crate::pair_reading::front_pairs;
use answer_text::pieces::behind;
use derivation_log::{CertTail, is_next_tail_line};
use pq_base::{NoMemory, Prime};
use std::alloc::Global;

/// The tail of a line, where it may stand behind these lines of a step of n sources.
pub(crate) fn tail_line(
    alloc: Global,
    prime: Prime,
    n: usize,
    lines: &[CertTail],
    line: &[u8],
) -> Result<Option<CertTail>, NoMemory>
    requires { are_tail_lines (prime_value prime) n lines.now 1 lines.now ≡ true }
    ensures some { IfOk result (λ o. IfSome o (λ l. line.now ≡ tail_line l)) }
    ensures next { IfOk result (λ o. IfSome o
        (λ l. are_tail_lines (prime_value prime) n (lines.now ++ l ∷ []) 1 (lines.now ++ l ∷ []) ≡ true)) }
    ensures none { IfOk result (λ o. IfNone o ((l : TailLine)
        → are_tail_lines (prime_value prime) n (lines.now ++ l ∷ []) 1 (lines.now ++ l ∷ []) ≡ true → ¬ (line.now ≡ tail_line l))) }
{
    let Some(found) = tail(alloc, line)? else {
        return Ok(None);
    };
    if is_next_tail_line(prime.value(), n, lines, &found) {
        Ok(Some(found))
    } else {
        Ok(None)
    }
}

/// The tail that a line says, whatever its numbers are.
fn tail(alloc: Global, line: &[u8]) -> Result<Option<CertTail>, NoMemory>
    ensures some { IfOk result (λ o. IfSome o (λ l. line.now ≡ tail_line l)) }
    ensures small { IfOk result (λ o. IfSome o (λ l. IsSmallTail l)) }
    ensures none { IfOk result (λ o. IfNone o ((l : TailLine) → IsSmallTail l → 1 ≤ length l.sums → ¬ (line.now ≡ tail_line l))) }
{
    let Some(text) = behind(line, b"tail ") else {
        return Ok(None);
    };
    let Some((tail, rest)) = front_number(text) else {
        return Ok(None);
    };
    let Some(rest) = behind(rest, b" = ") else {
        return Ok(None);
    };
    match kept_and_sums(alloc, rest)? {
        Some((kept, sums)) => Ok(Some(CertTail::of(tail, kept, sums))),
        None => Ok(None),
    }
}

/// What a tail equals, and the sums that show it.
fn kept_and_sums(
    alloc: Global,
    text: &[u8],
) -> Result<Option<(Vec<(u16, u8)>, Vec<(u16, u8)>)>, NoMemory>
    ensures some { IfOk result (λ o. IfSome o (λ x. text.now ≡ kept_text x.0.items ++ (codes " by " ++ pairs_text x.1.items))) }
    ensures kept { IfOk result (λ o. IfSome o (λ x. AreSmallPairs x.0.items)) }
    ensures sums { IfOk result (λ o. IfSome o (λ x. AreSmallPairs x.1.items)) }
    ensures none { IfOk result (λ o. IfNone o ((kept sums : List (ℕ × ℕ)) → AreSmallPairs kept → AreSmallPairs sums → 1 ≤ length sums
        → ¬ (text.now ≡ kept_text kept ++ (codes " by " ++ pairs_text sums)))) }
{
    let Some((kept, rest)) = kept(alloc, text)? else {
        return Ok(None);
    };
    match pairs(alloc, rest)? {
        Some(sums) => Ok(Some((kept, sums))),
        None => Ok(None),
    }
}

/// What a tail equals, and what stands behind the keyword `by`.
fn kept(alloc: Global, text: &[u8]) -> Result<Option<(Vec<(u16, u8)>, &[u8])>, NoMemory>
    ensures some { IfOk result (λ o. IfSome o (λ x. text.now ≡ kept_text x.0.items ++ (codes " by " ++ x.1.now))) }
    ensures small { IfOk result (λ o. IfSome o (λ x. AreSmallPairs x.0.items)) }
    ensures none { IfOk result (λ o. IfNone o ((kept : List (ℕ × ℕ)) (rest : List ℕ) → AreSmallPairs kept
        → ¬ (text.now ≡ kept_text kept ++ (codes " by " ++ rest)))) }
{
    if let Some(rest) = behind(text, b"0 by ") {
        return Ok(Some((Vec::new(alloc), rest)));
    }
    let Some((kept, rest)) = front_pairs(alloc, text)? else {
        return Ok(None);
    };
    match behind(rest, b" by ") {
        Some(rest) => Ok(Some((kept, rest))),
        None => Ok(None),
    }
}

/// The pairs of a text, of which there are some.
fn pairs(alloc: Global, text: &[u8]) -> Result<Option<Vec<(u16, u8)>>, NoMemory>
    ensures some { IfOk result (λ o. IfSome o (λ sums. text.now ≡ pairs_text sums.items)) }
    ensures small { IfOk result (λ o. IfSome o (λ sums. AreSmallPairs sums.items)) }
    ensures none { IfOk result (λ o. IfNone o ((sums : List (ℕ × ℕ)) → AreSmallPairs sums → 1 ≤ length sums
        → ¬ (text.now ≡ pairs_text sums))) }
{
    let Some((pairs, rest)) = front_pairs(alloc, text)? else {
        return Ok(None);
    };
    if rest.is_empty() {
        Ok(Some(pairs))
    } else {
        Ok(None)
    }
}
