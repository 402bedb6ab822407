//! The presentation of the next answer, relation by relation.

ghost use Rattle.std.specs.Prelude.{◌<◌, ◌≡◌, ◌≤◌, ◌+◌, ◌++◌, suc, None, replicate, IfOk, OnOk};
ghost use Rattle.pq_base.specs.Limits.{max_class};
ghost use Rattle.pq_base.specs.Answer.{class_of};
ghost use Rattle.pc_presentation.specs.Relation.{IsRelation};
ghost use Rattle.pc_presentation.specs.Builder.{extended};
ghost use Rattle.pc_presentation.specs.Pcp.{side_word};
ghost use Rattle.cover_quotient.specs.NextAnswer.{combined_answer};
ghost use Rattle.cover_quotient.specs.NextParts.{IsDraft, Awaits, IsPresentationOf};
ghost use Rattle.cover_quotient.specs.Combinations.{AreCombinationsOf};

use crate::combinations::Combinations;
use p_cover::Cover;
use pc_presentation::{Answer, Pcp, PcpBuilder, PcpRefusal, Relation, Syllable};
use pq_base::NoMemory;
use std::alloc::Global;

/// The presentation in which the kept tails are generators of the next class.
pub(crate) fn next_presentation(
    alloc: Global,
    cover: &Cover,
    combinations: &Combinations,
) -> Result<Pcp, NoMemory>
    requires combinations { AreCombinationsOf cover.now combinations.now }
    requires class { class_of cover.now.answer < max_class }
    ensures { IfOk result (IsPresentationOf (combined_answer cover.now combinations.now)) }
{
    let _conditions = cover.pcp().rank();
    let mut builder = empty_builder(alloc, cover, combinations)?;
    give_powers(&mut builder, cover, combinations)?;
    give_commutators(&mut builder, cover, combinations)?;
    Ok(builder.finish())
}

/// A builder for the next generators, to which nothing was given.
fn empty_builder(
    alloc: Global,
    cover: &Cover,
    combinations: &Combinations,
) -> Result<PcpBuilder, NoMemory>
    requires combinations { AreCombinationsOf cover.now combinations.now }
    requires class { class_of cover.now.answer < max_class }
    ensures { IfOk result (IsDraft (combined_answer cover.now combinations.now) cover.now.answer.presentation.rank 0 0 0) }
{
    let _conditions = cover.pcp().rank();
    let answer = cover.answer();
    let weights = next_weights(alloc, answer, combinations.kept().len())?;
    PcpBuilder::new(alloc, answer.pcp().prime(), &weights, 0)
}

/// The weights of an answer's generators, and of so many generators of the next class.
fn next_weights(alloc: Global, answer: &Answer, count: usize) -> Result<Vec<u8>, NoMemory>
    requires { class_of answer.now < max_class }
    ensures { IfOk result (λ v. v.items ≡ answer.now.weights ++ replicate count (suc (class_of answer.now))) }
{
    let mut weights = Vec::from_slice(alloc, answer.pcp().weights())?;
    push_copies(&mut weights, answer.class() + 1, count)?;
    Ok(weights)
}

/// Puts a weight so many times at the end.
fn push_copies(weights: &mut Vec<u8>, weight: u8, count: usize) -> Result<(), NoMemory>
    ensures { OnOk result (weights.new.items ≡ weights.old.items ++ replicate count weight) }
{
    for _ in 0..count {
        weights.push(weight)?;
    }
    Ok(())
}

fn give_powers(
    builder: &mut PcpBuilder,
    cover: &Cover,
    combinations: &Combinations,
) -> Result<(), NoMemory>
    requires combinations { AreCombinationsOf cover.now combinations.now }
    requires draft { IsDraft (combined_answer cover.now combinations.now) cover.now.answer.presentation.rank 0 0 0 builder.old }
    ensures { OnOk result (IsDraft (combined_answer cover.now combinations.now) cover.now.answer.presentation.rank
        cover.now.answer.presentation.rank 0 0 builder.new) }
{
    for k in 0..cover.pcp().rank() {
        give(builder, cover, combinations, Relation::Power(k + 1))?;
    }
    Ok(())
}

fn give_commutators(
    builder: &mut PcpBuilder,
    cover: &Cover,
    combinations: &Combinations,
) -> Result<(), NoMemory>
    requires combinations { AreCombinationsOf cover.now combinations.now }
    requires draft { IsDraft (combined_answer cover.now combinations.now) cover.now.answer.presentation.rank
        cover.now.answer.presentation.rank 0 0 builder.old }
    ensures { OnOk result (IsDraft (combined_answer cover.now combinations.now) cover.now.answer.presentation.rank
        cover.now.answer.presentation.rank cover.now.answer.presentation.rank 0 builder.new) }
{
    for k in 0..cover.pcp().rank() {
        give_commutators_of(builder, cover, combinations, k)?;
    }
    Ok(())
}

/// Gives the commutators of the generator after the first k with those.
fn give_commutators_of(
    builder: &mut PcpBuilder,
    cover: &Cover,
    combinations: &Combinations,
    k: u16,
) -> Result<(), NoMemory>
    requires combinations { AreCombinationsOf cover.now combinations.now }
    requires in_range { k + 1 ≤ cover.now.answer.presentation.rank }
    requires draft { IsDraft (combined_answer cover.now combinations.now) cover.now.answer.presentation.rank
        cover.now.answer.presentation.rank k 0 builder.old }
    ensures { OnOk result (IsDraft (combined_answer cover.now combinations.now) cover.now.answer.presentation.rank
        cover.now.answer.presentation.rank (k + 1) 0 builder.new) }
{
    let _conditions = cover.pcp().rank();
    for i in 0..k {
        give(
            builder,
            cover,
            combinations,
            Relation::Commutator(k + 1, i + 1),
        )?;
    }
    Ok(())
}

/// Gives a relation of the answer's generators its right side. It is accepted, so that only memory can be wanting.
fn give(
    builder: &mut PcpBuilder,
    cover: &Cover,
    combinations: &Combinations,
    r: Relation,
) -> Result<(), NoMemory>
    requires combinations { AreCombinationsOf cover.now combinations.now }
    requires relation { IsRelation cover.now.answer.presentation.rank r }
    requires awaited { Awaits (combined_answer cover.now combinations.now) r builder.old }
    ensures { OnOk result
        (builder.new ≡ extended builder.old r (side_word (combined_answer cover.now combinations.now).presentation r) None) }
{
    let word = next_word(cover, combinations, r)?;
    let Err(refusal) = builder.relation(r, &word, None) else {
        return Ok(());
    };
    match refusal {
        PcpRefusal::NoMemory => Err(NoMemory),
        PcpRefusal::OutOfRange
        | PcpRefusal::Repeated
        | PcpRefusal::NotNormal
        | PcpRefusal::NotLater => unreachable!(),
    }
}

/// The right side of a relation of the answer's generators: its word, and then what becomes of its tail.
fn next_word(
    cover: &Cover,
    combinations: &Combinations,
    r: Relation,
) -> Result<Vec<Syllable>, NoMemory>
    requires combinations { AreCombinationsOf cover.now combinations.now }
    requires relation { IsRelation cover.now.answer.presentation.rank r }
    ensures { IfOk result (λ v. v.items ≡ side_word (combined_answer cover.now combinations.now).presentation r) }
{
    let _combinations = combinations.kept();
    let pcp = cover.pcp();
    combinations.with_tail(pcp.word(r), pcp.rank(), pcp.tail(r))
}
