//! The values of definitions and of words under elements: elements whose words are joined to what the definitions and words say.

ghost use Rattle.std.specs.Prelude.{◌≡◌, ◌≤◌, ◌-◌, ◌++◌, All, get_or, length, []};
ghost use Rattle.pq_base.specs.SignedWord.{copies, sub};
ghost use Rattle.pc_presentation.specs.Definition.{definition_of};
ghost use Rattle.pc_presentation.specs.Syllable.{AreGenerators, letters_of};
ghost use Rattle.pc_presentation.specs.Arithmetic.{word_of};
ghost use Rattle.pc_presentation.specs.Scratch.{IsScratch};
ghost use Rattle.pc_presentation.specs.Tailed.{IsElement, rowed_presentation};
ghost use Rattle.cert_checker.specs.MapWords.{words_of, StandsFor, definition_word, RefersWithin, AreDefinedWords};

use pc_presentation::{
    Answer, Definition, Elem, Pcp, Scratch, Syllable, commutator, power, product,
};
use plain_collector::Plain;

/// Makes `value` the value of a definition, by the elements for the given generators and those for the generators.
pub(crate) fn define(
    s: &mut Scratch<Plain>,
    pcp: &Pcp,
    definition: Definition,
    given: &[Elem],
    elements: &[Elem],
    value: &mut Elem,
)
    requires scratch { IsScratch pcp.now s.old }
    requires given { All (IsElement pcp.now) given.now }
    requires elements { All (IsElement pcp.now) elements.now }
    requires numbers { RefersWithin (length given.now) (length elements.now) (definition_of definition) }
    requires value { IsElement pcp.now value.old }
    ensures scratch { IsScratch pcp.now s.new }
    ensures value { StandsFor pcp.now (definition_word pcp.now.presentation.prime (words_of pcp.now given.now)
        (words_of pcp.now elements.now) (definition_of definition)) value.new }
{
    match definition {
        Definition::Image(i) => value.copy_from(&given[i as usize - 1]),
        Definition::Commutator(j, i) => {
            commutator(
                s,
                pcp,
                &elements[j as usize - 1],
                &elements[i as usize - 1],
                value,
            );
        }
        Definition::Power(j) => {
            let prime = pcp.prime().value() as u32;
            power(s, pcp, &elements[j as usize - 1], prime, value);
        }
    }
}

/// Makes `elements` the values of the definitions of an answer's generators, by the elements for the given generators. `value` is
/// written over.
pub(crate) fn define_all(
    s: &mut Scratch<Plain>,
    pcp: &Pcp,
    answer: &Answer,
    given: &[Elem],
    elements: &mut [Elem],
    value: &mut Elem,
)
    requires scratch { IsScratch pcp.now s.old }
    requires given { All (IsElement pcp.now) given.now }
    requires given_count { length given.now ≡ length answer.now.names }
    requires elements { All (IsElement pcp.now) elements.old }
    requires count { length elements.old ≡ answer.now.presentation.rank }
    requires value { IsElement pcp.now value.old }
    ensures scratch { IsScratch pcp.now s.new }
    ensures elements { All (IsElement pcp.now) elements.new }
    ensures value { IsElement pcp.now value.new }
    ensures defined { AreDefinedWords (rowed_presentation pcp.now) answer.now (words_of pcp.now given.now) (words_of pcp.now elements.new)
        answer.now.presentation.rank }
{
    for k in 0..answer.pcp().rank() {
        define(s, pcp, answer.definition(k + 1), given, elements, value);
        elements[k as usize].copy_from(value);
    }
}

/// Makes `value` the value of a normal word under elements. `factor` and `next` are written over.
pub(crate) fn multiply_out(
    s: &mut Scratch<Plain>,
    pcp: &Pcp,
    word: &[Syllable],
    elements: &[Elem],
    factor: &mut Elem,
    next: &mut Elem,
    value: &mut Elem,
)
    requires scratch { IsScratch pcp.now s.old }
    requires generators { AreGenerators (length elements.now) word.now }
    requires elements { All (IsElement pcp.now) elements.now }
    requires factor { IsElement pcp.now factor.old }
    requires next { IsElement pcp.now next.old }
    requires value { IsElement pcp.now value.old }
    ensures scratch { IsScratch pcp.now s.new }
    ensures factor { IsElement pcp.now factor.new }
    ensures next { IsElement pcp.now next.new }
    ensures value { StandsFor pcp.now (sub (letters_of word.now) (words_of pcp.now elements.now)) value.new }
{
    value.clear();
    for syllable in word {
        multiply_by(s, pcp, *syllable, elements, factor, next, value);
    }
}

/// Multiplies `value` by the power of an element that a syllable says. `factor` and `next` are written over.
fn multiply_by(
    s: &mut Scratch<Plain>,
    pcp: &Pcp,
    syllable: Syllable,
    elements: &[Elem],
    factor: &mut Elem,
    next: &mut Elem,
    value: &mut Elem,
)
    requires scratch { IsScratch pcp.now s.old }
    requires from_one { 1 ≤ syllable.generator }
    requires in_range { syllable.generator ≤ length elements.now }
    requires elements { All (IsElement pcp.now) elements.now }
    requires factor { IsElement pcp.now factor.old }
    requires next { IsElement pcp.now next.old }
    requires value { IsElement pcp.now value.old }
    ensures scratch { IsScratch pcp.now s.new }
    ensures factor { IsElement pcp.now factor.new }
    ensures next { IsElement pcp.now next.new }
    ensures value { StandsFor pcp.now (word_of (rowed_presentation pcp.now) value.old.state
        ++ copies (get_or (words_of pcp.now elements.now) (syllable.generator - 1) []) syllable.exponent) value.new }
{
    let exponent = syllable.exponent as u32;
    power(
        s,
        pcp,
        &elements[syllable.generator as usize - 1],
        exponent,
        factor,
    );
    product(s, pcp, value, factor, next);
    value.copy_from(next);
}
