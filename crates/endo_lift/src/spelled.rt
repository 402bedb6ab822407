//! What the generators of an answer spell, carried along an endomorphism: its values in a cover.

ghost use Rattle.std.specs.Prelude.{◌≡◌, length, IfOk};
ghost use Rattle.pq_base.specs.SignedWord.{sub};
ghost use Rattle.pq_base.specs.LPresentation.{AreWords};
ghost use Rattle.pq_base.specs.Answer.{spelled};
ghost use Rattle.pq_base.specs.EntryWords.{spelling_words};
ghost use Rattle.pc_presentation.specs.Definition.{definition_of};
ghost use Rattle.pc_presentation.specs.Tailed.{rowed_presentation, IsElement};
ghost use Rattle.pc_presentation.specs.Scratch.{IsScratch};
ghost use Rattle.p_cover.specs.Covers.{cover_presentation};
ghost use Rattle.p_cover.specs.Images.{AreLifted};
ghost use Rattle.endo_lift.specs.Values.{IsValue, AreSpelled, IsUpTo};

use free_words::Word;
use p_cover::{Cover, Images};
use pc_presentation::{Collect, Definition, Elem, Scratch, commutator, evaluate, power};
use pq_base::NoMemory;
use std::alloc::Global;

/// For each generator the value of what it spells, carried along the endomorphism.
pub(crate) fn spelled_values<C: Collect>(
    alloc: Global,
    s: &mut Scratch<C>,
    cover: &Cover,
    images: &Images,
    endo: &[Word],
) -> Result<Vec<Elem>, NoMemory>
    requires scratch { IsScratch (cover_presentation cover.now) s.old }
    requires images { AreLifted cover.now (C.meaning (rowed_presentation (cover_presentation cover.now))) images.now }
    requires count { length endo.now ≡ length cover.now.answer.names }
    requires letters { AreWords (length cover.now.answer.names) endo.now }
    ensures scratch { IsScratch (cover_presentation cover.now) s.new }
    ensures spelled { IfOk result (λ v. AreSpelled cover.now endo.now v.items) }
    ensures count { IfOk result (λ v. length v.items ≡ cover.now.answer.presentation.rank) }
{
    let rank = cover.answer().pcp().rank();
    let mut elements = Vec::with_capacity(alloc, rank as usize)?;
    for k in 0..rank {
        let mut element = Elem::one(alloc, cover.pcp())?;
        let source = cover.answer().definition(k + 1);
        left_value(s, cover, images, endo, &elements, source, &mut element);
        elements.push(element)?;
    }
    Ok(elements)
}

/// The value of what the left side of a relation spells, or of a given generator, carried along the endomorphism. The
/// elements are the values of what the first generators spell.
pub(crate) fn left_value<C: Collect>(
    s: &mut Scratch<C>,
    cover: &Cover,
    images: &Images,
    endo: &[Word],
    elements: &[Elem],
    source: Definition,
    out: &mut Elem,
)
    requires scratch { IsScratch (cover_presentation cover.now) s.old }
    requires images { AreLifted cover.now (C.meaning (rowed_presentation (cover_presentation cover.now))) images.now }
    requires count { length endo.now ≡ length cover.now.answer.names }
    requires letters { AreWords (length cover.now.answer.names) endo.now }
    requires spelled { AreSpelled cover.now endo.now elements.now }
    requires source { IsUpTo (length endo.now) (length elements.now) (definition_of source) }
    requires out { IsElement (cover_presentation cover.now) out.old }
    ensures scratch { IsScratch (cover_presentation cover.now) s.new }
    ensures value { let A = cover.now.answer in
        IsValue cover.now (sub (spelled A.presentation.prime (spelling_words A) (definition_of source)) endo.now) out.new }
{
    let pcp = cover.pcp();
    match source {
        Definition::Commutator(j, i) => commutator(
            s,
            pcp,
            &elements[j as usize - 1],
            &elements[i as usize - 1],
            out,
        ),
        Definition::Power(j) => power(
            s,
            pcp,
            &elements[j as usize - 1],
            u32::from(pcp.prime().value()),
            out,
        ),
        Definition::Image(i) => evaluate(
            s,
            pcp,
            endo[i as usize - 1].letters(),
            images.elements(),
            images.inverses(),
            out,
        ),
    }
}
