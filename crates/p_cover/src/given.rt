//! The presentation of a cover, relation by relation.

ghost use Rattle.std.specs.Prelude.{◌≡◌, ◌≤◌, ◌<◌, ◌+◌, ◌-◌, ◌^◌, All, IfOk, OnOk, map, length};
ghost use Rattle.pc_presentation.specs.Relation.{IsRelation, IsTail};
ghost use Rattle.pc_presentation.specs.Definition.{definition_of};
ghost use Rattle.pc_presentation.specs.Pcp.{side_word};
ghost use Rattle.p_cover.specs.Sources.{IsPartOf};
ghost use Rattle.p_cover.specs.Covers.{covering, all_sources};
ghost use Rattle.p_cover.specs.CoverLaws.{IsSource};
ghost use Rattle.p_cover.specs.Given.{IsBegun, IsDraftOf, Gives, Completes, IsPowerTo, IsCommutatorOf, IsCommutatorTo, IsAny};

use pc_presentation::{Answer, Definition, Pcp, PcpBuilder, PcpRefusal, Relation};
use pq_base::NoMemory;
use std::alloc::Global;

/// The presentation of an answer in which the relations on a list carry tails, numbered by their places there.
pub(crate) fn presentation_with_tails(
    alloc: Global,
    answer: &Answer,
    sources: &[Definition],
) -> Result<Pcp, NoMemory>
    requires part { IsPartOf (map definition_of sources.now) (all_sources answer.now) }
    requires limit { length sources.now < 2 ^ 16 }
    ensures { IfOk result (λ q. q ≡ covering answer.now (map definition_of sources.now)) }
{
    let _conditions = answer.pcp();
    let mut builder = empty_builder(alloc, answer, sources)?;
    give_sources(&mut builder, answer, sources)?;
    give_others(&mut builder, answer)?;
    Ok(builder.finish())
}

/// A builder for so many tails, to which nothing was given.
fn empty_builder(
    alloc: Global,
    answer: &Answer,
    sources: &[Definition],
) -> Result<PcpBuilder, NoMemory>
    requires { length sources.now < 2 ^ 16 }
    ensures { IfOk result (IsBegun answer.now (map definition_of sources.now) 0) }
{
    let pcp = answer.pcp();
    let _rank = pcp.rank();
    PcpBuilder::new(alloc, pcp.prime(), pcp.weights(), sources.len() as u16)
}

/// Gives the relations on the list, each with its place as its tail.
fn give_sources(
    builder: &mut PcpBuilder,
    answer: &Answer,
    sources: &[Definition],
) -> Result<(), NoMemory>
    requires sources { All (IsSource answer.now) (map definition_of sources.now) }
    requires limit { length sources.now < 2 ^ 16 }
    requires begun { IsBegun answer.now (map definition_of sources.now) 0 builder.old }
    ensures { OnOk result (IsBegun answer.now (map definition_of sources.now) (length sources.now) builder.new) }
{
    for k in 0..sources.len() {
        give_source(builder, answer, sources, k)?;
    }
    Ok(())
}

/// Gives the relation at a place of the list, counted from 0, if a relation is there.
fn give_source(
    builder: &mut PcpBuilder,
    answer: &Answer,
    sources: &[Definition],
    k: usize,
) -> Result<(), NoMemory>
    requires sources { All (IsSource answer.now) (map definition_of sources.now) }
    requires limit { length sources.now < 2 ^ 16 }
    requires place { k < length sources.now }
    requires begun { IsBegun answer.now (map definition_of sources.now) k builder.old }
    ensures { OnOk result (IsBegun answer.now (map definition_of sources.now) (k + 1) builder.new) }
{
    let _conditions = answer.pcp();
    let tail = k as u16 + 1;
    match sources[k] {
        Definition::Commutator(j, i) => {
            give(builder, answer, Relation::Commutator(j, i), Some(tail))
        }
        Definition::Power(j) => give(builder, answer, Relation::Power(j), Some(tail)),
        Definition::Image(_) => Ok(()),
    }
}

/// Gives the relations that weren't given yet, without tails.
fn give_others(builder: &mut PcpBuilder, answer: &Answer) -> Result<(), NoMemory>
    requires { IsDraftOf answer.now builder.old }
    ensures draft { IsDraftOf answer.now builder.new }
    ensures given { OnOk result (Completes answer.now IsAny builder.old builder.new) }
{
    give_powers(builder, answer)?;
    give_commutators(builder, answer)
}

fn give_powers(builder: &mut PcpBuilder, answer: &Answer) -> Result<(), NoMemory>
    requires { IsDraftOf answer.now builder.old }
    ensures draft { IsDraftOf answer.now builder.new }
    ensures given { OnOk result (Completes answer.now (IsPowerTo answer.now.presentation.rank) builder.old builder.new) }
{
    for k in 0..answer.pcp().rank() {
        give(builder, answer, Relation::Power(k + 1), None)?;
    }
    Ok(())
}

fn give_commutators(builder: &mut PcpBuilder, answer: &Answer) -> Result<(), NoMemory>
    requires { IsDraftOf answer.now builder.old }
    ensures draft { IsDraftOf answer.now builder.new }
    ensures given { OnOk result (Completes answer.now (IsCommutatorTo answer.now.presentation.rank) builder.old builder.new) }
{
    for k in 0..answer.pcp().rank() {
        give_commutators_of(builder, answer, k + 1)?;
    }
    Ok(())
}

/// Gives the commutators of generator j with those before it.
fn give_commutators_of(builder: &mut PcpBuilder, answer: &Answer, j: u16) -> Result<(), NoMemory>
    requires from_one { 1 ≤ j }
    requires in_range { j ≤ answer.now.presentation.rank }
    requires draft { IsDraftOf answer.now builder.old }
    ensures draft { IsDraftOf answer.now builder.new }
    ensures given { OnOk result (Completes answer.now (IsCommutatorOf j (j - 1)) builder.old builder.new) }
{
    let _conditions = answer.pcp();
    for k in 0..j - 1 {
        give(builder, answer, Relation::Commutator(j, k + 1), None)?;
    }
    Ok(())
}

/// Gives a relation its right side in the answer and a tail. One that was given before stays as it is.
fn give(
    builder: &mut PcpBuilder,
    answer: &Answer,
    r: Relation,
    tail: Option<u16>,
) -> Result<(), NoMemory>
    requires relation { IsRelation answer.now.presentation.rank r }
    requires draft { IsDraftOf answer.now builder.old }
    requires tail { IsTail builder.old.built.tails tail }
    ensures draft { IsDraftOf answer.now builder.new }
    ensures given { OnOk result (Gives builder.old builder.new r (side_word answer.now.presentation r) tail) }
{
    let Err(refusal) = builder.relation(r, answer.pcp().word(r), tail) else {
        return Ok(());
    };
    match refusal {
        PcpRefusal::Repeated => Ok(()),
        PcpRefusal::NoMemory => Err(NoMemory),
        PcpRefusal::OutOfRange | PcpRefusal::NotNormal | PcpRefusal::NotLater => unreachable!(),
    }
}
