//! Whether the overlaps of an answer agree.

ghost use Rattle.std.specs.Prelude.{◌≡◌, ◌↔◌, ◌≤◌, ◌<◌, suc, IsTrue, IfOk};
ghost use Rattle.pc_presentation.specs.OverlapNumbers.{AreOverlapNumbers};
ghost use Rattle.pc_presentation.specs.Scratch.{IsScratch};
ghost use Rattle.derivation_log.specs.CertificateParts.{full_kind, OverlapsAgree};
ghost use Rattle.cert_checker.specs.AgreedOverlaps.{Agrees, PairsAgree, LastAgree, TriplesAgree, AgreeUpTo, AllAgree};

use pc_presentation::{Answer, Elem, Overlap, Pcp, Scratch, two_ways};
use plain_collector::Plain;
use pq_base::NoMemory;
use std::alloc::Global;

/// Whether the two ways of each overlap of an answer reach one state, by the plain rule.
pub(crate) fn overlaps_agree(alloc: Global, answer: &Answer) -> Result<bool, NoMemory>
    ensures { IfOk result (λ agree. IsTrue agree ↔ OverlapsAgree full_kind answer.now) }
{
    let pcp = answer.pcp();
    let mut s = Scratch::<Plain>::new(alloc, pcp)?;
    Ok(all_agree(&mut s, pcp))
}

/// Whether all overlaps agree.
fn all_agree(s: &mut Scratch<Plain>, pcp: &Pcp) -> bool
    requires scratch { IsScratch pcp.now s.old }
    requires no_tails { pcp.now.tails ≡ 0 }
    ensures scratch { IsScratch pcp.now s.new }
    ensures agree { IsTrue result ↔ AllAgree pcp.now.presentation (suc pcp.now.presentation.rank) }
{
    for k in 1..=pcp.rank() {
        if !agree_up_to(s, pcp, k) {
            return false;
        }
    }
    true
}

/// Whether the overlaps agree of which generator k, counted from 1, is the latest.
fn agree_up_to(s: &mut Scratch<Plain>, pcp: &Pcp, k: u16) -> bool
    requires scratch { IsScratch pcp.now s.old }
    requires no_tails { pcp.now.tails ≡ 0 }
    requires from_one { 1 ≤ k }
    requires in_range { k ≤ pcp.now.presentation.rank }
    ensures scratch { IsScratch pcp.now s.new }
    ensures agree { IsTrue result ↔ AgreeUpTo pcp.now.presentation k }
{
    agrees(s, pcp, Overlap::Own(k)) && pairs_agree(s, pcp, k) && triples_agree(s, pcp, k)
}

/// Whether the overlaps agree of generator k and one earlier generator.
fn pairs_agree(s: &mut Scratch<Plain>, pcp: &Pcp, k: u16) -> bool
    requires scratch { IsScratch pcp.now s.old }
    requires no_tails { pcp.now.tails ≡ 0 }
    requires in_range { k ≤ pcp.now.presentation.rank }
    ensures scratch { IsScratch pcp.now s.new }
    ensures agree { IsTrue result ↔ PairsAgree pcp.now.presentation k k }
{
    for i in 1..k {
        if !agrees(s, pcp, Overlap::Left(k, i)) || !agrees(s, pcp, Overlap::Right(k, i)) {
            return false;
        }
    }
    true
}

/// Whether the overlaps agree of generator k and two earlier generators.
fn triples_agree(s: &mut Scratch<Plain>, pcp: &Pcp, k: u16) -> bool
    requires scratch { IsScratch pcp.now s.old }
    requires no_tails { pcp.now.tails ≡ 0 }
    requires in_range { k ≤ pcp.now.presentation.rank }
    ensures scratch { IsScratch pcp.now s.new }
    ensures agree { IsTrue result ↔ TriplesAgree pcp.now.presentation k k }
{
    for j in 1..k {
        if !last_agree(s, pcp, k, j) {
            return false;
        }
    }
    true
}

/// Whether the overlaps agree of generators k and j and a generator before both.
fn last_agree(s: &mut Scratch<Plain>, pcp: &Pcp, k: u16, j: u16) -> bool
    requires scratch { IsScratch pcp.now s.old }
    requires no_tails { pcp.now.tails ≡ 0 }
    requires in_range { k ≤ pcp.now.presentation.rank }
    requires earlier { j < k }
    ensures scratch { IsScratch pcp.now s.new }
    ensures agree { IsTrue result ↔ LastAgree pcp.now.presentation k j j }
{
    for i in 1..j {
        if !agrees(s, pcp, Overlap::Triple(k, j, i)) {
            return false;
        }
    }
    true
}

/// Whether the two ways of an overlap reach one state.
fn agrees(s: &mut Scratch<Plain>, pcp: &Pcp, overlap: Overlap) -> bool
    requires scratch { IsScratch pcp.now s.old }
    requires no_tails { pcp.now.tails ≡ 0 }
    requires overlap { AreOverlapNumbers pcp.now.presentation.rank overlap }
    ensures scratch { IsScratch pcp.now s.new }
    ensures agree { IsTrue result ↔ Agrees pcp.now.presentation overlap }
{
    two_ways(s, pcp, overlap);
    are_alike(s.left(), s.right())
}

/// Whether two elements have the same exponents.
pub(crate) fn are_alike(left: &Elem, right: &Elem) -> bool
    ensures { IsTrue result ↔ left.now.state.exponents ≡ right.now.state.exponents }
{
    left.exponents() == right.exponents()
}
