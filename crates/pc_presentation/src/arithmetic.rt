//! The arithmetic of elements over any collector, also where the presentation is not consistent. No call takes memory. The
//! calls with an `out` leave open what the elements of the scratch are.

ghost use Rattle.std.specs.Prelude.{◌≡◌, ◌++◌, length, map, pos};
ghost use Rattle.pq_base.specs.SignedWord.{inv, comm, pow, sub, HasLetters};
ghost use Rattle.pq_base.specs.Joined.{Joined};
ghost use Rattle.pc_presentation.specs.Rowed.{flat};
ghost use Rattle.pc_presentation.specs.Collection.{identity};
ghost use Rattle.pc_presentation.specs.Arithmetic.{product_by, word_of, evaluate_from};
ghost use Rattle.pc_presentation.specs.Tailed.{rowed_presentation, IsElement};
ghost use Rattle.pc_presentation.specs.Scratch.{IsScratch};
ghost use Rattle.pc_presentation.specs.ImageElements.{states_of, AreImageElements};

use crate::collect::Collect;
use crate::elem::Elem;
use crate::pcp::Pcp;
use crate::pushing::{divide, multiply_along, multiply_by_power, multiply_into};
use crate::scratch::Scratch;

/// The product of two elements: the letters of `v` are pushed on `u`, and the tails of `v` are added.
pub fn product<C: Collect>(s: &mut Scratch<C>, pcp: &Pcp, u: &Elem, v: &Elem, out: &mut Elem)
    requires scratch { IsScratch pcp.now s.old }
    requires left { IsElement pcp.now u.now }
    requires right { IsElement pcp.now v.now }
    requires out { IsElement pcp.now out.old }
    ensures scratch { IsScratch pcp.now s.new }
    ensures element { IsElement pcp.now out.new }
    ensures product { let Y = rowed_presentation pcp.now in out.new.state ≡ product_by Y (C.meaning Y) u.now.state v.now.state }
    ensures joined { let Y = rowed_presentation pcp.now in
        Joined (flat Y) (word_of Y out.new.state) (word_of Y u.now.state ++ word_of Y v.now.state) }
{
    multiply_into(&mut s.collector, pcp, u, v, out);
}

/// The inverse of an element: its product behind the element is the identity, with a row of zeros over the tails.
pub fn inverse<C: Collect>(s: &mut Scratch<C>, pcp: &Pcp, u: &Elem, out: &mut Elem)
    requires scratch { IsScratch pcp.now s.old }
    requires element { IsElement pcp.now u.now }
    requires out { IsElement pcp.now out.old }
    ensures scratch { IsScratch pcp.now s.new }
    ensures element { IsElement pcp.now out.new }
    ensures inverse { let Y = rowed_presentation pcp.now in
        product_by Y (C.meaning Y) u.now.state out.new.state ≡ identity Y Y.base.rank }
    ensures joined { let Y = rowed_presentation pcp.now in Joined (flat Y) (word_of Y out.new.state) (inv (word_of Y u.now.state)) }
{
    s.left.copy_from(u);
    out.clear();
    divide(&mut s.collector, pcp, &mut s.left, out);
}

/// The commutator of two elements: its product behind the product of `v` and `u` is the product of `u` and `v`.
pub fn commutator<C: Collect>(s: &mut Scratch<C>, pcp: &Pcp, u: &Elem, v: &Elem, out: &mut Elem)
    requires scratch { IsScratch pcp.now s.old }
    requires left { IsElement pcp.now u.now }
    requires right { IsElement pcp.now v.now }
    requires out { IsElement pcp.now out.old }
    ensures scratch { IsScratch pcp.now s.new }
    ensures element { IsElement pcp.now out.new }
    ensures commutator { let Y = rowed_presentation pcp.now in
        product_by Y (C.meaning Y) (product_by Y (C.meaning Y) v.now.state u.now.state) out.new.state
        ≡ product_by Y (C.meaning Y) u.now.state v.now.state }
    ensures joined { let Y = rowed_presentation pcp.now in
        Joined (flat Y) (word_of Y out.new.state) (comm (word_of Y u.now.state) (word_of Y v.now.state)) }
{
    multiply_into(&mut s.collector, pcp, v, u, &mut s.left);
    multiply_into(&mut s.collector, pcp, u, v, out);
    divide(&mut s.collector, pcp, &mut s.left, out);
}

/// An element that is joined to a power. Which one it is stays open where the presentation is not consistent.
pub fn power<C: Collect>(s: &mut Scratch<C>, pcp: &Pcp, u: &Elem, n: u32, out: &mut Elem)
    requires scratch { IsScratch pcp.now s.old }
    requires element { IsElement pcp.now u.now }
    requires out { IsElement pcp.now out.old }
    ensures scratch { IsScratch pcp.now s.new }
    ensures element { IsElement pcp.now out.new }
    ensures joined { let Y = rowed_presentation pcp.now in Joined (flat Y) (word_of Y out.new.state) (pow (word_of Y u.now.state) (pos n)) }
{
    s.left.copy_from(u);
    out.clear();
    multiply_by_power(&mut s.collector, pcp, out, &mut s.left, &mut s.right, n);
}

/// The value of a word: from the identity on, a letter k multiplies by image k, and -k by inverse k.
pub fn evaluate<C: Collect>(
    s: &mut Scratch<C>,
    pcp: &Pcp,
    word: &[i32],
    images: &[Elem],
    inverses: &[Elem],
    out: &mut Elem,
)
    requires scratch { IsScratch pcp.now s.old }
    requires letters { HasLetters (length images.now) word.now }
    requires images { AreImageElements pcp.now (C.meaning (rowed_presentation pcp.now)) images.now inverses.now }
    requires out { IsElement pcp.now out.old }
    ensures scratch { IsScratch pcp.now s.new }
    ensures element { IsElement pcp.now out.new }
    ensures value { let Y = rowed_presentation pcp.now in
        out.new.state ≡ evaluate_from Y (C.meaning Y) (states_of images.now) (states_of inverses.now) (identity Y Y.base.rank) word.now }
    ensures joined { let Y = rowed_presentation pcp.now in
        Joined (flat Y) (word_of Y out.new.state) (sub word.now (map (word_of Y) (states_of images.now))) }
{
    out.clear();
    multiply_along(&mut s.collector, pcp, out, word, images, inverses);
}

/// The value of a word, left in the first element of the scratch.
pub fn value<C: Collect>(
    s: &mut Scratch<C>,
    pcp: &Pcp,
    word: &[i32],
    images: &[Elem],
    inverses: &[Elem],
)
    requires scratch { IsScratch pcp.now s.old }
    requires letters { HasLetters (length images.now) word.now }
    requires images { AreImageElements pcp.now (C.meaning (rowed_presentation pcp.now)) images.now inverses.now }
    ensures scratch { IsScratch pcp.now s.new }
    ensures value { let Y = rowed_presentation pcp.now in
        s.new.left.state ≡ evaluate_from Y (C.meaning Y) (states_of images.now) (states_of inverses.now) (identity Y Y.base.rank) word.now }
    ensures joined { let Y = rowed_presentation pcp.now in
        Joined (flat Y) (word_of Y s.new.left.state) (sub word.now (map (word_of Y) (states_of images.now))) }
{
    s.left.clear();
    multiply_along(&mut s.collector, pcp, &mut s.left, word, images, inverses);
}
