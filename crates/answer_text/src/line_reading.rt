//! Lines of an answer's text, each read by itself.

ghost use Rattle.std.specs.Prelude.{◌≡◌, ◌<◌, ◌≤◌, ◌↔◌, ℕ, true, List, ◌++◌, length, IfOk, IfSome, IfNone, IsTrue, codes};
ghost use Rattle.pq_base.specs.Limits.{max_class, max_rank};
ghost use Rattle.pq_base.specs.Name.{IsName};
ghost use Rattle.pq_base.specs.Prime.{IsOffered, prime_value};
ghost use Rattle.pc_presentation.specs.declared.syllable.Syllable.{Syllable as SyllableRecord};
ghost use Rattle.pc_presentation.specs.declared.relation.Relation.{Relation as RelationData};
ghost use Rattle.pc_presentation.specs.Relation.{IsRelation, side_start};
ghost use Rattle.pc_presentation.specs.Syllable.{AreSyllables};
ghost use Rattle.answer_text.specs.declared.source.Source.{Source as SourceData};
ghost use Rattle.answer_text.specs.Lines.{avoids};
ghost use Rattle.answer_text.specs.AnswerPlaces.{IsSource, generator_start, left_text, prime_line, class_line, rank_line, order_line};
ghost use Rattle.answer_text.specs.AnswerPlaces.{source_line, relation_line, word_line};

use crate::pieces::{behind, left_side, number, number_before, split_at_first};
use crate::source::Source;
use crate::word_reading::word;
use pc_presentation::{Relation, Syllable};
use pq_base::limits::{CLASS, RANK};
use pq_base::{Name, NoMemory, Prime};
use std::alloc::Global;

/// The prime of the line of the prime.
pub fn prime_line(line: &[u8]) -> Option<Prime>
    ensures some { IfSome result (λ q. line.now ≡ prime_line (prime_value q)) }
    ensures none { IfNone result ((p : ℕ) → IsOffered p → ¬ (line.now ≡ prime_line p)) }
{
    let p = number(behind(line, b"prime ")?)?;
    if p < 8 { Prime::of(p as u8) } else { None }
}

/// The class of the line of the class.
pub fn class_line(line: &[u8]) -> Option<u8>
    ensures some { IfSome result (λ c. (c ≤ max_class) × (line.now ≡ class_line c)) }
    ensures none { IfNone result ((c : ℕ) → c ≤ max_class → ¬ (line.now ≡ class_line c)) }
{
    let c = number(behind(line, b"class ")?)?;
    if c <= u16::from(CLASS) {
        Some(c as u8)
    } else {
        None
    }
}

/// The rank of the line of the rank.
pub(crate) fn rank_line(line: &[u8]) -> Option<u16>
    ensures some { IfSome result (λ n. (n ≤ max_rank) × (line.now ≡ rank_line n)) }
    ensures none { IfNone result ((n : ℕ) → n ≤ max_rank → ¬ (line.now ≡ rank_line n)) }
{
    let n = number(behind(line, b"rank ")?)?;
    if n as usize <= RANK { Some(n) } else { None }
}

/// Whether this is the line of the order, of this prime and rank.
pub(crate) fn is_order_line(line: &[u8], prime: u8, rank: u16) -> bool
    requires { rank < 1000 }
    ensures { IsTrue result ↔ (line.now ≡ order_line prime rank) }
{
    match order(line) {
        Some((p, n)) => p == u16::from(prime) && n == rank,
        None => false,
    }
}

/// The prime and the rank of the line of an order.
fn order(line: &[u8]) -> Option<(u16, u16)>
    ensures some { IfSome result (λ x. (x.0 < 1000) × (x.1 < 1000) × (line.now ≡ order_line x.0 x.1)) }
    ensures none { IfNone result ((p n : ℕ) → p < 1000 → n < 1000 → ¬ (line.now ≡ order_line p n)) }
{
    let (p, rest) = number_before(behind(line, b"order ")?, b'^')?;
    Some((p, number(rest)?))
}

/// The weight and the definition of the line of generator k.
pub(crate) fn generator_line(line: &[u8], k: u16, prime: u8, rank: u16) -> Option<(u8, Source)>
    requires k { k < 1000 }
    requires rank { rank < 1000 }
    ensures some { IfSome result (λ x. (1 ≤ x.0) × (x.0 ≤ max_class) × IsSource rank x.1 × (line.now ≡ source_line prime k x.0 x.1)) }
    ensures none { IfNone result
        ((w : ℕ) (s : SourceData) → 1 ≤ w → w ≤ max_class → IsSource rank s → ¬ (line.now ≡ source_line prime k w s)) }
{
    let (number, weight, text) = numbers(line)?;
    if number != k || weight < 1 || u16::from(CLASS) < weight {
        return None;
    }
    Some((weight as u8, Source::of(text, prime, rank)?))
}

/// The number and the weight of the line of a generator, and what stands behind `from`.
fn numbers(line: &[u8]) -> Option<(u16, u16, &[u8])>
    ensures some { IfSome result (λ x. (x.0 < 1000) × (x.1 < 1000) × (line.now ≡ generator_start x.0 x.1 x.2.now)) }
    ensures none { IfNone result ((k w : ℕ) (t : List ℕ) → k < 1000 → w < 1000 → ¬ (line.now ≡ generator_start k w t)) }
{
    let (number, text) = number_before(behind(line, b"generator a")?, b' ')?;
    let (weight, text) = number_before(behind(text, b"weight ")?, b' ')?;
    Some((number, weight, behind(text, b"from ")?))
}

/// The relation and its word, of the line of a relation.
pub(crate) fn relation_line(
    alloc: Global,
    line: &[u8],
    prime: u8,
    rank: u16,
) -> Result<Option<(Relation, Vec<Syllable>)>, NoMemory>
    requires prime { prime ≤ 100 }
    requires rank { rank < 1000 }
    ensures some { IfOk result
        (λ o. IfSome o (λ x. IsRelation rank x.0 × (1 ≤ length x.1.items) × AreSyllables prime rank (side_start x.0) x.1.items
        × (line.now ≡ relation_line prime x.0 x.1.items))) }
    ensures none { IfOk result (λ o. IfNone o ((r : RelationData) (w : List SyllableRecord) → IsRelation rank r → 1 ≤ length w
        → AreSyllables prime rank (side_start r) w → ¬ (line.now ≡ relation_line prime r w))) }
{
    let Some((relation, right)) = relation_start(line, prime, rank) else {
        return Ok(None);
    };
    let Some(word) = word(alloc, right, prime, rank, leading(relation))? else {
        return Ok(None);
    };
    if word.is_empty() {
        return Ok(None);
    }
    Ok(Some((relation, word)))
}

/// The generator after which those of the right side come.
fn leading(relation: Relation) -> u16
    ensures { result ≡ side_start relation }
{
    match relation {
        Relation::Power(i) => i,
        Relation::Commutator(j, _) => j,
    }
}

/// The relation of the line of a relation, and what stands behind the equals sign.
fn relation_start(line: &[u8], prime: u8, rank: u16) -> Option<(Relation, &[u8])>
    requires { rank < 1000 }
    ensures some { IfSome result
        (λ x. IsRelation rank x.0 × (line.now ≡ codes "relation " ++ (left_text prime x.0 ++ (codes " = " ++ x.1.now)))) }
    ensures none { IfNone result ((r : RelationData) (t : List ℕ) → IsRelation rank r
        → ¬ (line.now ≡ codes "relation " ++ (left_text prime r ++ (codes " = " ++ t)))) }
{
    let (left, right) = sides(behind(line, b"relation ")?)?;
    Some((left_side(left, prime, rank)?, right))
}

/// The name and the word of the line of an image.
pub(crate) fn image_line(
    alloc: Global,
    line: &[u8],
    prime: u8,
    rank: u16,
) -> Result<Option<(Name, Vec<Syllable>)>, NoMemory>
    requires prime { prime ≤ 100 }
    requires rank { rank < 1000 }
    ensures some { IfOk result
        (λ o. IfSome o (λ x. IsName x.0 × AreSyllables prime rank 0 x.1.items × (line.now ≡ word_line x.0 x.1.items))) }
    ensures none { IfOk result
        (λ o. IfNone o ((n : List ℕ) (w : List SyllableRecord) → IsName n → AreSyllables prime rank 0 w → ¬ (line.now ≡ word_line n w))) }
{
    let Some((name, right)) = image_start(line) else {
        return Ok(None);
    };
    let Some(word) = word(alloc, right, prime, rank, 0)? else {
        return Ok(None);
    };
    Ok(Some((name, word)))
}

/// The name of the line of an image, and what stands behind the equals sign.
fn image_start(line: &[u8]) -> Option<(Name, &[u8])>
    ensures some { IfSome result (λ x. IsName x.0 × (line.now ≡ codes "image " ++ (x.0 ++ (codes " = " ++ x.1.now)))) }
    ensures none { IfNone result ((n : List ℕ) (t : List ℕ) → IsName n → ¬ (line.now ≡ codes "image " ++ (n ++ (codes " = " ++ t)))) }
{
    let (left, right) = sides(behind(line, b"image ")?)?;
    Some((Name::of(left)?, right))
}

/// What stands before the equals sign, and what stands behind it, where there is no space before it.
fn sides(text: &[u8]) -> Option<(&[u8], &[u8])>
    ensures some { IfSome result (λ x. text.now ≡ x.0.now ++ (codes " = " ++ x.1.now)) }
    ensures first { IfSome result (λ x. avoids 32 x.0.now ≡ true) }
    ensures none { IfNone result ((l r : List ℕ) → avoids 32 l ≡ true → ¬ (text.now ≡ l ++ (codes " = " ++ r))) }
{
    let (left, right) = split_at_first(text, b' ')?;
    Some((left, behind(right, b"= ")?))
}
