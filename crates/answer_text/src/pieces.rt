//! Lines at the front of a text, and pieces of a line: numbers, syllables and the left sides of relations. Each is read where it is written
//! exactly so.

ghost use Rattle.std.specs.Prelude.{◌≡◌, ◌<◌, ◌≤◌, ◌+◌, ◌-◌, ◌↔◌, ℕ, false, true, List, [], ◌∷◌, ◌++◌, ◌==◌};
ghost use Rattle.std.specs.Prelude.{length, IsTrue, IfSome, IfNone, codes, decimal};
ghost use Rattle.std.specs.List.{position};
ghost use Rattle.pc_presentation.specs.declared.relation.Relation.TheVariants.{Power, Commutator};
ghost use Rattle.pc_presentation.specs.declared.syllable.Syllable.{Syllable as SyllableRecord};
ghost use Rattle.pc_presentation.specs.declared.relation.Relation.{Relation as RelationData};
ghost use Rattle.pc_presentation.specs.Relation.{IsRelation};
ghost use Rattle.answer_text.specs.Lines.{avoids};
ghost use Rattle.answer_text.specs.Numbers.{is_digit, number_of};
ghost use Rattle.answer_text.specs.Words.{IsWritten, syllable_text};
ghost use Rattle.answer_text.specs.AnswerPlaces.{left_text};
ghost use Rattle.answer_text.specs.AnswerText.{commutator_text, power_text};

use pc_presentation::{Relation, Syllable};

/// Whether two texts are the same.
pub fn are_same(left: &[u8], right: &[u8]) -> bool
    ensures { IsTrue result ↔ (left.now ≡ right.now) }
{
    left == right
}

/// What stands before the first such byte, and what stands behind it.
pub fn split_at_first(text: &[u8], byte: u8) -> Option<(&[u8], &[u8])>
    ensures some { IfSome result (λ s. text.now ≡ s.0.now ++ byte ∷ s.1.now) }
    ensures first { IfSome result (λ s. avoids byte s.0.now ≡ true) }
    ensures none { IfNone result (avoids byte text.now ≡ true) }
{
    match first(text, byte) {
        Some(at) => Some((&text[..at], &text[at + 1..])),
        None => None,
    }
}

/// The place of the first such byte.
fn first(text: &[u8], byte: u8) -> Option<usize>
    ensures { result ≡ position (λ b. b == byte) text.now }
{
    text.iter().position(|b| *b == byte)
}

/// The next line and what follows it, where there is a whole line.
pub fn next_line(text: &[u8]) -> Option<(&[u8], &[u8])>
    ensures some { IfSome result (λ x. text.now ≡ x.0.now ++ 10 ∷ x.1.now) }
    ensures first { IfSome result (λ x. avoids 10 x.0.now ≡ true) }
    ensures shorter { IfSome result (λ x. length x.1.now + 1 ≤ length text.now) }
    ensures none { IfNone result (avoids 10 text.now ≡ true) }
{
    split_at_first(text, b'\n')
}

/// What stands behind a keyword.
pub fn behind<'a>(text: &'a [u8], keyword: &[u8]) -> Option<&'a [u8]>
    ensures some { IfSome result (λ rest. text.now ≡ keyword.now ++ rest.now) }
    ensures none { IfNone result ((rest : List ℕ) → ¬ (text.now ≡ keyword.now ++ rest)) }
{
    text.strip_prefix(keyword)
}

/// The number below 1000 that is written here.
pub(crate) fn number(text: &[u8]) -> Option<u16>
    ensures some { IfSome result (λ n. (n < 1000) × (text.now ≡ decimal n)) }
    ensures none { IfNone result ((n : ℕ) → n < 1000 → ¬ (text.now ≡ decimal n)) }
{
    value(text)
}

/// The number of up to three digits, of which the first is 0 only where it is the last.
fn value(text: &[u8]) -> Option<u16>
    ensures { result ≡ number_of text.now }
{
    match text {
        [c] => { if is_digit(*c) { Some(digit(*c)) } else { None } }
        [b, c] => {
            if b'0' < *b && is_digit(*b) && is_digit(*c) {
                Some(10 * digit(*b) + digit(*c))
            } else {
                None
            }
        }
        [a, b, c] => {
            if b'0' < *a && is_digit(*a) && is_digit(*b) && is_digit(*c) {
                Some(100 * digit(*a) + (10 * digit(*b) + digit(*c)))
            } else {
                None
            }
        }
        _ => None,
    }
}

/// Whether a byte is a digit.
pub fn is_digit(byte: u8) -> bool
    ensures { result ≡ is_digit byte }
{
    matches!(byte, b'0'..=b'9')
}

/// What a digit stands for.
#[tactic(auto, using(crate::proofs::texts::NumberTexts::is_digit_within))]
fn digit(byte: u8) -> u16
    requires { is_digit byte ≡ true }
    ensures value { result ≡ byte - 48 }
    ensures below { result < 10 }
{
    u16::from(byte - b'0')
}

/// The number that is written before a byte, and what stands behind that.
pub(crate) fn number_before(text: &[u8], byte: u8) -> Option<(u16, &[u8])>
    requires { is_digit byte ≡ false }
    ensures some { IfSome result (λ x. (x.0 < 1000) × (text.now ≡ decimal x.0 ++ byte ∷ x.1.now)) }
    ensures none { IfNone result ((n : ℕ) (rest : List ℕ) → n < 1000 → ¬ (text.now ≡ decimal n ++ byte ∷ rest)) }
{
    let (digits, rest) = split_at_first(text, byte)?;
    Some((number(digits)?, rest))
}

/// The least exponent that is written.
const LEAST_EXPONENT: u16 = 2;

/// The syllable that is written here. An exponent of 1 isn't written.
pub(crate) fn syllable(text: &[u8]) -> Option<Syllable>
    ensures some { IfSome result (λ s. IsWritten s × (text.now ≡ syllable_text s)) }
    ensures none { IfNone result ((s : SyllableRecord) → IsWritten s → ¬ (text.now ≡ syllable_text s)) }
{
    let digits = behind(text, b"a")?;
    let Some((left, right)) = split_at_first(digits, b'^') else {
        let generator = number(digits)?;
        return Some(Syllable {
            generator,
            exponent: 1,
        });
    };
    let generator = number(left)?;
    let exponent = number(right)?;
    if exponent < LEAST_EXPONENT || 100 <= exponent {
        return None;
    }
    Some(Syllable {
        generator,
        exponent: exponent as u8,
    })
}

/// The relation of `rank` generators whose left side is written here.
pub(crate) fn left_side(text: &[u8], prime: u8, rank: u16) -> Option<Relation>
    requires { rank < 1000 }
    ensures some { IfSome result (λ r. IsRelation rank r × (text.now ≡ left_text prime r)) }
    ensures none { IfNone result ((r : RelationData) → IsRelation rank r → ¬ (text.now ≡ left_text prime r)) }
{
    match behind(text, b"[a") {
        Some(inner) => commutator(inner, rank),
        None => power(behind(text, b"a")?, prime, rank),
    }
}

/// The commutator of two of `rank` generators that is written here, behind the letter of the first.
fn commutator(text: &[u8], rank: u16) -> Option<Relation>
    requires { rank < 1000 }
    ensures some { IfSome result (λ r. IsRelation rank r × ((p : ℕ) → codes "[a" ++ text.now ≡ left_text p r)) }
    ensures none { IfNone result ((j i : ℕ) → IsRelation rank (Commutator j i) → ¬ (codes "[a" ++ text.now ≡ commutator_text j i)) }
{
    let (j, rest) = number_before(text, b',')?;
    let (i, rest) = number_before(behind(rest, b"a")?, b']')?;
    if rest.is_empty() && 1 <= i && i < j && j <= rank {
        Some(Relation::Commutator(j, i))
    } else {
        None
    }
}

/// The power of one of `rank` generators that is written here, behind its letter.
fn power(text: &[u8], prime: u8, rank: u16) -> Option<Relation>
    requires { rank < 1000 }
    ensures some { IfSome result (λ r. IsRelation rank r × (codes "a" ++ text.now ≡ left_text prime r)) }
    ensures none { IfNone result ((j : ℕ) → IsRelation rank (Power j) → ¬ (codes "a" ++ text.now ≡ power_text prime j)) }
{
    let (j, rest) = number_before(text, b'^')?;
    if number(rest)? == u16::from(prime) && 1 <= j && j <= rank {
        Some(Relation::Power(j))
    } else {
        None
    }
}
