//! The words that tails stand for, carried along an endomorphism: their values in a cover.

ghost use Rattle.std.specs.Prelude.{◌≡◌, length};
ghost use Rattle.pq_base.specs.SignedWord.{sub};
ghost use Rattle.pq_base.specs.LPresentation.{AreWords};
ghost use Rattle.pq_base.specs.EntryWords.{IsSourceOf, spelling_words, entry_word};
ghost use Rattle.pc_presentation.specs.Syllable.{AreGenerators, letters_of};
ghost use Rattle.pc_presentation.specs.Tailed.{rowed_presentation};
ghost use Rattle.pc_presentation.specs.Scratch.{IsScratch};
ghost use Rattle.pc_presentation.specs.Definition.{definition_of};
ghost use Rattle.p_cover.specs.Covers.{cover_presentation};
ghost use Rattle.p_cover.specs.Images.{AreLifted};
ghost use Rattle.endo_lift.specs.Values.{IsValue, AreSpelled, IsRightSide, IsRoom};

use crate::room::Room;
use crate::spelled::left_value;
use free_words::Word;
use p_cover::{Cover, Images};
use pc_presentation::{Collect, Definition, Elem, Relation, Scratch, Syllable, inverse, product};

/// Makes the value in the room that of the word that a tail from this source stands for, carried along the endomorphism:
/// what the left side spells, behind the inverse of what the right side spells. The elements are the values of what the
/// generators spell.
pub(crate) fn entry_value<C: Collect>(
    s: &mut Scratch<C>,
    cover: &Cover,
    images: &Images,
    endo: &[Word],
    elements: &[Elem],
    source: Definition,
    room: &mut Room,
)
    requires scratch { IsScratch (cover_presentation cover.now) s.old }
    requires images { AreLifted cover.now (C.meaning (rowed_presentation (cover_presentation cover.now))) images.now }
    requires count { length endo.now ≡ length cover.now.answer.names }
    requires letters { AreWords (length cover.now.answer.names) endo.now }
    requires spelled { AreSpelled cover.now endo.now elements.now }
    requires rank { length elements.now ≡ cover.now.answer.presentation.rank }
    requires source { IsSourceOf cover.now.answer (definition_of source) }
    requires room { IsRoom (cover_presentation cover.now) room.old }
    ensures scratch { IsScratch (cover_presentation cover.now) s.new }
    ensures room { IsRoom (cover_presentation cover.now) room.new }
    ensures value { IsValue cover.now (sub (entry_word cover.now.answer (definition_of source)) endo.now) room.new.value }
{
    let pcp = cover.pcp();
    right_value(s, cover, endo, elements, right_side(cover, source), room);
    inverse(s, pcp, &room.value, &mut room.factor);
    left_value(s, cover, images, endo, elements, source, &mut room.product);
    product(s, pcp, &room.factor, &room.product, &mut room.value);
}

/// The right side of a relation, or the image of a given generator.
fn right_side<'a>(cover: &'a Cover, source: Definition) -> &'a [Syllable]
    requires { IsSourceOf cover.now.answer (definition_of source) }
    ensures side { IsRightSide cover.now.answer (definition_of source) result.now }
    ensures generators { AreGenerators cover.now.answer.presentation.rank result.now }
{
    let pcp = cover.pcp();
    match source {
        Definition::Commutator(j, i) => pcp.word(Relation::Commutator(j, i)),
        Definition::Power(j) => pcp.word(Relation::Power(j)),
        Definition::Image(i) => cover.answer().image(i),
    }
}

/// Makes the value in the room that of what a word of generators spells, carried along the endomorphism.
fn right_value<C: Collect>(
    s: &mut Scratch<C>,
    cover: &Cover,
    endo: &[Word],
    elements: &[Elem],
    word: &[Syllable],
    room: &mut Room,
)
    requires scratch { IsScratch (cover_presentation cover.now) s.old }
    requires spelled { AreSpelled cover.now endo.now elements.now }
    requires generators { AreGenerators (length elements.now) word.now }
    requires room { IsRoom (cover_presentation cover.now) room.old }
    ensures scratch { IsScratch (cover_presentation cover.now) s.new }
    ensures room { IsRoom (cover_presentation cover.now) room.new }
    ensures value { IsValue cover.now (sub (sub (letters_of word.now) (spelling_words cover.now.answer)) endo.now) room.new.value }
{
    room.value.clear();
    for syllable in word {
        let factor = &elements[syllable.generator as usize - 1];
        room.multiply(s, cover.pcp(), factor, syllable.exponent);
    }
}
