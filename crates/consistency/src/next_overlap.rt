//! Which overlap comes after which.

ghost use Rattle.std.specs.Prelude.{◌≡◌, ◌≤◌, ◌<◌, ◌∷◌, ◌++◌, ℕ, IfSome};
ghost use Rattle.pc_presentation.specs.declared.overlap.Overlap.{Overlap as OverlapByNumbers};
ghost use Rattle.pc_presentation.specs.declared.overlap.Overlap.TheVariants.{Triple, Left, Right, Own};
ghost use Rattle.pc_presentation.specs.OverlapNumbers.{AreOverlapNumbers};
ghost use Rattle.consistency.specs.AllOverlaps.{pairs, owns, all_overlaps};
ghost use Rattle.consistency.specs.OverlapsLeft.{pairs_from, pairs_left, from_overlap, left_from};

use pc_presentation::Overlap;

/// The first overlap of so many generators.
#[tactic(auto, using(crate::proofs::OverlapOrder::from_first_triple, crate::proofs::OverlapOrder::no_triples))]
pub(crate) fn first(rank: u16) -> Option<Overlap>
    ensures all { left_from rank result ≡ all_overlaps rank }
    ensures in_range { IfSome result (λ o. AreOverlapNumbers rank o) }
{
    if rank < 3 {
        return first_left(rank);
    }
    Some(Overlap::Triple(3, 2, 1))
}

/// The first overlap behind the triples.
#[tactic(auto, using(crate::proofs::OverlapOrder::pairs_from_first, crate::proofs::OverlapOrder::no_pairs))]
fn first_left(rank: u16) -> Option<Overlap>
    ensures left { left_from rank result ≡ pairs Left rank ++ (pairs Right rank ++ owns rank) }
    ensures in_range { IfSome result (λ o. AreOverlapNumbers rank o) }
{
    if rank < 2 {
        return first_own(rank);
    }
    Some(Overlap::Left(2, 1))
}

/// The first overlap behind all pairs.
fn first_own(rank: u16) -> Option<Overlap>
    ensures left { left_from rank result ≡ owns rank }
    ensures in_range { IfSome result (λ o. AreOverlapNumbers rank o) }
{
    if rank < 1 {
        return None;
    }
    Some(Overlap::Own(1))
}

/// The overlap behind a given one.
pub(crate) fn after(rank: u16, overlap: Overlap) -> Option<Overlap>
    requires { AreOverlapNumbers rank overlap }
    ensures left { from_overlap rank overlap ≡ overlap ∷ left_from rank result }
    ensures in_range { IfSome result (λ o. AreOverlapNumbers rank o) }
{
    match overlap {
        Overlap::Triple(k, j, i) => after_triple(rank, k, j, i),
        Overlap::Left(j, i) => after_left(rank, j, i),
        Overlap::Right(j, i) => after_right(rank, j, i),
        Overlap::Own(i) => after_own(rank, i),
    }
}

#[tactic(auto, using(crate::proofs::OverlapOrder::triple_behind))]
fn after_triple(rank: u16, k: u16, j: u16, i: u16) -> Option<Overlap>
    requires { AreOverlapNumbers rank (Triple k j i) }
    ensures left { from_overlap rank (Triple k j i) ≡ Triple k j i ∷ left_from rank result }
    ensures in_range { IfSome result (λ o. AreOverlapNumbers rank o) }
{
    if let Some((j, i)) = next_pair(k - 1, j, i) {
        return Some(Overlap::Triple(k, j, i));
    }
    if k < rank {
        return Some(Overlap::Triple(k + 1, 2, 1));
    }
    first_left(rank)
}

#[tactic(auto, using(crate::proofs::OverlapOrder::pairs_from_first))]
fn after_left(rank: u16, j: u16, i: u16) -> Option<Overlap>
    requires { AreOverlapNumbers rank (Left j i) }
    ensures left { from_overlap rank (Left j i) ≡ Left j i ∷ left_from rank result }
    ensures in_range { IfSome result (λ o. AreOverlapNumbers rank o) }
{
    if let Some((j, i)) = next_pair(rank, j, i) {
        return Some(Overlap::Left(j, i));
    }
    Some(Overlap::Right(2, 1))
}

fn after_right(rank: u16, j: u16, i: u16) -> Option<Overlap>
    requires { AreOverlapNumbers rank (Right j i) }
    ensures left { from_overlap rank (Right j i) ≡ Right j i ∷ left_from rank result }
    ensures in_range { IfSome result (λ o. AreOverlapNumbers rank o) }
{
    if let Some((j, i)) = next_pair(rank, j, i) {
        return Some(Overlap::Right(j, i));
    }
    first_own(rank)
}

fn after_own(rank: u16, i: u16) -> Option<Overlap>
    requires { AreOverlapNumbers rank (Own i) }
    ensures left { from_overlap rank (Own i) ≡ Own i ∷ left_from rank result }
    ensures in_range { IfSome result (λ o. AreOverlapNumbers rank o) }
{
    if i == rank {
        return None;
    }
    Some(Overlap::Own(i + 1))
}

/// The pair behind (j, i) among those with j > i up to `n`, or `None` behind the last.
fn next_pair(n: u16, j: u16, i: u16) -> Option<(u16, u16)>
    requires from_one { 1 ≤ i }
    requires falls { i < j }
    requires in_range { j ≤ n }
    ensures left { (f : ℕ → ℕ → OverlapByNumbers) → pairs_from f n j i ≡ f j i ∷ pairs_left f n result }
    ensures in_range { IfSome result (λ p. (1 ≤ p.1) × (p.1 < p.0) × (p.0 ≤ n)) }
{
    if i + 1 < j {
        return Some((j, i + 1));
    }
    if j < n {
        return Some((j + 1, 1));
    }
    None
}
