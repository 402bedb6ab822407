//! Pushes of a collector, many at once: letters of a generator, letters of an element, and the letters that lead from one
//! element to another.

ghost use Rattle.std.specs.Prelude.{◌≡◌, ◌≤◌, ◌<◌, ◌-◌, ◌+◌, ◌%◌, ◌++◌, length, replicate};
ghost use Rattle.pq_base.specs.Prime.{prime_value};
ghost use Rattle.pq_base.specs.SignedWord.{copies, IsLetter, HasLetters};
ghost use Rattle.pq_base.specs.Joined.{Joined};
ghost use Rattle.pc_presentation.specs.Rowed.{flat};
ghost use Rattle.pc_presentation.specs.Collection.{push_word};
ghost use Rattle.pc_presentation.specs.Arithmetic.{product_by, word_of, evaluate_from};
ghost use Rattle.pc_presentation.specs.Tailed.{Element, rowed_presentation, IsElement, with_state};
ghost use Rattle.pc_presentation.specs.ImageElements.{states_of, letter_value, AreImageElements};

use crate::collect::Collect;
use crate::elem::Elem;
use crate::pcp::Pcp;
use crate::syllable::Syllable;
use pq_base::Prime;

/// Pushes a generator, counted from 1, so many times.
pub(crate) fn push_times<C: Collect>(
    collector: &mut C,
    pcp: &Pcp,
    at: &mut Elem,
    generator: u16,
    times: u8,
)
    requires serves { C.serves collector.old pcp.now.presentation.rank }
    requires element { IsElement pcp.now at.old }
    requires from_one { 1 ≤ generator }
    requires in_range { generator ≤ pcp.now.presentation.rank }
    ensures serves { C.serves collector.new pcp.now.presentation.rank }
    ensures element { IsElement pcp.now at.new }
    ensures pushed { at.new
        ≡ with_state at.old (push_word (C.meaning (rowed_presentation pcp.now)) at.old.state (replicate times (generator - 1))) }
{
    if times > 0 {
        let power = Syllable {
            generator,
            exponent: times,
        };
        collector.push_word(pcp, at, &[power], None);
    }
}

/// Pushes the letters of an element, and adds its tails.
pub(crate) fn multiply<C: Collect>(collector: &mut C, pcp: &Pcp, at: &mut Elem, factor: &Elem)
    requires serves { C.serves collector.old pcp.now.presentation.rank }
    requires element { IsElement pcp.now at.old }
    requires factor { IsElement pcp.now factor.now }
    ensures serves { C.serves collector.new pcp.now.presentation.rank }
    ensures element { IsElement pcp.now at.new }
    ensures product { let Y = rowed_presentation pcp.now in
        at.new ≡ with_state at.old (product_by Y (C.meaning Y) at.old.state factor.now.state) }
{
    for i in 0..pcp.rank() {
        push_times(collector, pcp, at, i + 1, factor.exponent(i + 1));
    }
    at.add_tails(factor.tail());
}

/// Makes `out` the product of two elements.
pub(crate) fn multiply_into<C: Collect>(
    collector: &mut C,
    pcp: &Pcp,
    u: &Elem,
    v: &Elem,
    out: &mut Elem,
)
    requires serves { C.serves collector.old pcp.now.presentation.rank }
    requires left { IsElement pcp.now u.now }
    requires right { IsElement pcp.now v.now }
    requires out { IsElement pcp.now out.old }
    ensures serves { C.serves collector.new pcp.now.presentation.rank }
    ensures element { IsElement pcp.now out.new }
    ensures product { let Y = rowed_presentation pcp.now in out.new.state ≡ product_by Y (C.meaning Y) u.now.state v.now.state }
{
    out.copy_from(u);
    multiply(collector, pcp, out, v);
}

/// Replaces `out` by the element whose product behind `at` it was. Afterwards `at` has the exponents that `out` had.
pub(crate) fn divide<C: Collect>(collector: &mut C, pcp: &Pcp, at: &mut Elem, out: &mut Elem)
    requires serves { C.serves collector.old pcp.now.presentation.rank }
    requires at { IsElement pcp.now at.old }
    requires out { IsElement pcp.now out.old }
    ensures serves { C.serves collector.new pcp.now.presentation.rank }
    ensures at { IsElement pcp.now at.new }
    ensures out { IsElement pcp.now out.new }
    ensures quotient { let Y = rowed_presentation pcp.now in product_by Y (C.meaning Y) at.old.state out.new.state ≡ out.old.state }
{
    let prime = pcp.prime();
    for i in 0..pcp.rank() {
        let times = difference(prime, out.exponent(i + 1), at.exponent(i + 1));
        out.set_exponent(i + 1, times);
        push_times(collector, pcp, at, i + 1, times);
    }
    out.add_scaled_tails(at.tail(), prime.value() - 1);
}

/// The residue that makes `sum` with `a`.
fn difference(prime: Prime, sum: u8, a: u8) -> u8
    requires sum { sum < prime_value prime }
    requires residue { a < prime_value prime }
    ensures difference { (a + result) % prime_value prime ≡ sum }
    ensures residue { result < prime_value prime }
{
    prime.add(sum, prime.neg(a))
}

/// Squares `base`. Afterwards `spare` is what it was.
fn square<C: Collect>(collector: &mut C, pcp: &Pcp, base: &mut Elem, spare: &mut Elem)
    requires serves { C.serves collector.old pcp.now.presentation.rank }
    requires base { IsElement pcp.now base.old }
    requires spare { IsElement pcp.now spare.old }
    ensures serves { C.serves collector.new pcp.now.presentation.rank }
    ensures base { IsElement pcp.now base.new }
    ensures spare { IsElement pcp.now spare.new }
    ensures square { let Y = rowed_presentation pcp.now in base.new.state ≡ product_by Y (C.meaning Y) base.old.state base.old.state }
{
    spare.copy_from(base);
    multiply(collector, pcp, base, spare);
}

/// Multiplies by an element where the number is odd.
fn multiply_if_odd<C: Collect>(
    collector: &mut C,
    pcp: &Pcp,
    at: &mut Elem,
    factor: &Elem,
    number: u32,
)
    requires serves { C.serves collector.old pcp.now.presentation.rank }
    requires element { IsElement pcp.now at.old }
    requires factor { IsElement pcp.now factor.now }
    ensures serves { C.serves collector.new pcp.now.presentation.rank }
    ensures element { IsElement pcp.now at.new }
    ensures joined { let Y = rowed_presentation pcp.now in
        Joined (flat Y) (word_of Y at.new.state) (word_of Y at.old.state ++ copies (word_of Y factor.now.state) (number % 2)) }
{
    if number % 2 == 1 {
        multiply(collector, pcp, at, factor);
    }
}

/// Multiplies by an element that is joined to the power of `base`.
pub(crate) fn multiply_by_power<C: Collect>(
    collector: &mut C,
    pcp: &Pcp,
    at: &mut Elem,
    base: &mut Elem,
    spare: &mut Elem,
    exponent: u32,
)
    requires serves { C.serves collector.old pcp.now.presentation.rank }
    requires element { IsElement pcp.now at.old }
    requires base { IsElement pcp.now base.old }
    requires spare { IsElement pcp.now spare.old }
    ensures serves { C.serves collector.new pcp.now.presentation.rank }
    ensures element { IsElement pcp.now at.new }
    ensures base { IsElement pcp.now base.new }
    ensures spare { IsElement pcp.now spare.new }
    ensures joined { let Y = rowed_presentation pcp.now in
        Joined (flat Y) (word_of Y at.new.state) (word_of Y at.old.state ++ copies (word_of Y base.old.state) exponent) }
{
    let mut rest = exponent;
    while rest > 0 {
        multiply_if_odd(collector, pcp, at, base, rest);
        square(collector, pcp, base, spare);
        rest /= 2;
    }
}

/// Multiplies by the values of the letters of a word, one after the other.
pub(crate) fn multiply_along<C: Collect>(
    collector: &mut C,
    pcp: &Pcp,
    at: &mut Elem,
    word: &[i32],
    images: &[Elem],
    inverses: &[Elem],
)
    requires serves { C.serves collector.old pcp.now.presentation.rank }
    requires element { IsElement pcp.now at.old }
    requires letters { HasLetters (length images.now) word.now }
    requires images { AreImageElements pcp.now (C.meaning (rowed_presentation pcp.now)) images.now inverses.now }
    ensures serves { C.serves collector.new pcp.now.presentation.rank }
    ensures element { IsElement pcp.now at.new }
    ensures value { let Y = rowed_presentation pcp.now in
        at.new ≡ with_state at.old (evaluate_from Y (C.meaning Y) (states_of images.now) (states_of inverses.now) at.old.state word.now) }
{
    for k in word {
        multiply(collector, pcp, at, value_of(*k, images, inverses));
    }
}

/// The image of a generator, or its inverse for the inverse of the generator.
fn value_of<'a>(k: i32, images: &'a [Elem], inverses: &'a [Elem]) -> &'a Elem
    requires letter { IsLetter (length images.now) k }
    requires count { length inverses.now ≡ length images.now }
    ensures { (d : Element) → result.now ≡ letter_value images.now inverses.now d k }
{
    let place = k.unsigned_abs() as usize - 1;
    if k < 0 {
        &inverses[place]
    } else {
        &images[place]
    }
}
