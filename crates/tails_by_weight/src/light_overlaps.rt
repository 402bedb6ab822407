//! Overlaps whose weights leave room for the next class.

ghost use Rattle.std.specs.Prelude.{◌≡◌, ◌≤◌, ◌<◌, ◌++◌, IfOk, OnOk};
ghost use Rattle.tails_by_weight.specs.LightOverlaps.{light_triples_of, light_triples_with, light_triples, light_pairs_with, light_pairs};
ghost use Rattle.tails_by_weight.specs.LightOverlaps.{light_owns, light_overlaps};
ghost use Rattle.tails_by_weight.specs.LightParts.{pair_of};

use crate::room::{count_up_to, count_with_room};
use pc_presentation::{Answer, Overlap};
use pq_base::NoMemory;
use std::alloc::Global;

/// Which of two generators of an overlap has a p-th power.
#[derive(Clone, Copy)]
enum Side {
    Former,
    Latter,
}

/// The overlaps whose weights, and one more where a p-th power is among them, have a sum of at most the class and one, each once:
/// `Triple` by (k, j, i), then `Left` and `Right` by (j, i), then `Own` by i, each rising. The others are never enumerated.
pub fn light_tests(alloc: Global, answer: &Answer) -> Result<Vec<Overlap>, NoMemory>
    ensures { IfOk result (λ tests. tests.items ≡ light_overlaps answer.now) }
{
    let mut tests = Vec::new(alloc);
    push_triples(&mut tests, answer)?;
    push_pairs(&mut tests, answer, Side::Former)?;
    push_pairs(&mut tests, answer, Side::Latter)?;
    push_owns(&mut tests, answer)?;
    Ok(tests)
}

/// Puts the light triples at the end.
fn push_triples(tests: &mut Vec<Overlap>, answer: &Answer) -> Result<(), NoMemory>
    ensures { OnOk result (tests.new.items ≡ tests.old.items ++ light_triples answer.now) }
{
    for k in 0..answer.pcp().rank() {
        push_triples_with(tests, answer, k + 1)?;
    }
    Ok(())
}

/// Puts the light triples of generator k and two before it at the end.
fn push_triples_with(tests: &mut Vec<Overlap>, answer: &Answer, k: u16) -> Result<(), NoMemory>
    requires from_one { 1 ≤ k }
    requires in_range { k ≤ answer.now.presentation.rank }
    ensures { OnOk result (tests.new.items ≡ tests.old.items ++ light_triples_with answer.now k) }
{
    let weight = answer.pcp().weight(k) as u16;
    for j in 0..count_with_room(answer, weight, k) {
        push_triples_of(tests, answer, k, j + 1)?;
    }
    Ok(())
}

/// Puts the light triples of generators k and j and one before them at the end.
fn push_triples_of(
    tests: &mut Vec<Overlap>,
    answer: &Answer,
    k: u16,
    j: u16,
) -> Result<(), NoMemory>
    requires from_one { 1 ≤ j }
    requires falls { j < k }
    requires in_range { k ≤ answer.now.presentation.rank }
    ensures { OnOk result (tests.new.items ≡ tests.old.items ++ light_triples_of answer.now k j) }
{
    let weight = answer.pcp().weight(k) as u16 + answer.pcp().weight(j) as u16;
    for i in 0..count_with_room(answer, weight, j) {
        tests.push(Overlap::Triple(k, j, i + 1))?;
    }
    Ok(())
}

/// Puts the light overlaps of two generators and a p-th power at the end.
fn push_pairs(tests: &mut Vec<Overlap>, answer: &Answer, side: Side) -> Result<(), NoMemory>
    ensures { OnOk result (tests.new.items ≡ tests.old.items ++ light_pairs (pair_of side) answer.now) }
{
    for j in 0..answer.pcp().rank() {
        push_pairs_with(tests, answer, side, j + 1)?;
    }
    Ok(())
}

/// Puts those of generator j and one before it at the end.
fn push_pairs_with(
    tests: &mut Vec<Overlap>,
    answer: &Answer,
    side: Side,
    j: u16,
) -> Result<(), NoMemory>
    requires from_one { 1 ≤ j }
    requires in_range { j ≤ answer.now.presentation.rank }
    ensures { OnOk result (tests.new.items ≡ tests.old.items ++ light_pairs_with (pair_of side) answer.now j) }
{
    let weight = answer.pcp().weight(j) as u16 + 1;
    for i in 0..count_with_room(answer, weight, j) {
        tests.push(pair(side, j, i + 1))?;
    }
    Ok(())
}

/// The overlap of two generators with a p-th power of the one or the other.
fn pair(side: Side, j: u16, i: u16) -> Overlap
    ensures { result ≡ pair_of side j i }
{
    match side {
        Side::Former => Overlap::Left(j, i),
        Side::Latter => Overlap::Right(j, i),
    }
}

/// Puts the light overlaps of one generator at the end.
fn push_owns(tests: &mut Vec<Overlap>, answer: &Answer) -> Result<(), NoMemory>
    ensures { OnOk result (tests.new.items ≡ tests.old.items ++ light_owns answer.now) }
{
    let half = answer.class() as u16 / 2;
    for i in 0..count_up_to(answer, half, answer.pcp().rank()) {
        tests.push(Overlap::Own(i + 1))?;
    }
    Ok(())
}
