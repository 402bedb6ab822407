//! The images of the given generators in a cover.

ghost use Rattle.std.specs.Prelude.{◌≡◌, ◌≤◌, All, length, replicate, IfOk};
ghost use Rattle.pc_presentation.specs.Syllable.{spread, AreSyllables};
ghost use Rattle.pc_presentation.specs.Relation.{IsTail};
ghost use Rattle.pc_presentation.specs.Pcp.{row_of};
ghost use Rattle.pc_presentation.specs.Tailed.{rowed_presentation, with_state, IsElement};
ghost use Rattle.pc_presentation.specs.Scratch.{IsScratch};
ghost use Rattle.pc_presentation.specs.ImageElements.{AreImageElements};
ghost use Rattle.p_cover.specs.Covers.{cover_presentation};
ghost use Rattle.p_cover.specs.Lifted.{lifted_image, IsInverse};
ghost use Rattle.p_cover.specs.Images.{AreLifted, lifted_images};

use crate::cover::Cover;
use pc_presentation::{Collect, Definition, Elem, Pcp, Scratch, Syllable, inverse};
use pq_base::NoMemory;
use std::alloc::Global;
use std::marker::Model;

/// The images of the given generators as elements of a cover, with their tails, and their inverses.
#[derive(Drop)]
pub struct Images {
    elements: Vec<Elem>,
    inverses: Vec<Elem>,
}

impl Model for Images {
    ghost use Rattle.p_cover.specs.Images.{ImagesOf};

    ghost Value = { ImagesOf };

    ghost view = { λ f. record { elements = f.elements.items; inverses = f.inverses.items } };
}

impl Images {
    /// The images of a cover, and their inverses by `inverse` over the same collector.
    pub fn lift<C: Collect>(
        alloc: Global,
        s: &mut Scratch<C>,
        cover: &Cover,
    ) -> Result<Images, NoMemory>
        requires scratch { IsScratch (cover_presentation cover.now) s.old }
        ensures scratch { IsScratch (cover_presentation cover.now) s.new }
        ensures lifted { IfOk result (λ f. AreLifted cover.now (C.meaning (rowed_presentation (cover_presentation cover.now))) f) }
    {
        let elements = lifted_images(alloc, cover)?;
        let inverses = inverses(alloc, s, cover.pcp(), &elements)?;
        Ok(Images { elements, inverses })
    }

    /// The images, in the order of the given generators.
    pub fn elements(&self) -> &[Elem]
        ensures { result.now ≡ self.now.elements }
    {
        self.elements.as_slice()
    }

    /// Their inverses.
    pub fn inverses(&self) -> &[Elem]
        ensures { result.now ≡ self.now.inverses }
    {
        self.inverses.as_slice()
    }
}

/// The images with their tails.
fn lifted_images(alloc: Global, cover: &Cover) -> Result<Vec<Elem>, NoMemory>
    ensures images { IfOk result (λ v. v.items ≡ lifted_images cover.now) }
    ensures elements { IfOk result (λ v. All (IsElement (cover_presentation cover.now)) v.items) }
{
    let _conditions = cover.pcp().rank();
    let _answer = cover.answer().pcp();
    let names = cover.answer().names().len() as u16;
    let mut images = Vec::new(alloc);
    for k in 0..names {
        images.push(lifted_image(alloc, cover, k + 1)?)?;
    }
    Ok(images)
}

/// The image of given generator i, counted from 1, with its tail.
fn lifted_image(alloc: Global, cover: &Cover, i: u16) -> Result<Elem, NoMemory>
    requires from_one { 1 ≤ i }
    requires in_range { i ≤ length cover.now.answer.names }
    ensures { IfOk result (λ e. e ≡ lifted_image cover.now i) }
{
    let mut image = Elem::one(alloc, cover.pcp())?;
    set_exponents(&mut image, cover.answer().image(i));
    set_tail(&mut image, cover.tail_of(Definition::Image(i)));
    Ok(image)
}

/// Puts the exponents of a word in place of zeros.
fn set_exponents(element: &mut Elem, word: &[Syllable])
    requires word { AreSyllables element.old.prime (length element.old.state.exponents) 0 word.now }
    requires zeros { element.old.state.exponents ≡ replicate (length element.old.state.exponents) 0 }
    ensures { element.new ≡ with_state element.old (record {
      exponents = spread (length element.old.state.exponents) 0 word.now;
      row = element.old.state.row;
    }) }
{
    for s in word {
        element.set_exponent(s.generator, s.exponent);
    }
}

/// Puts the row of a tail in place of zeros.
fn set_tail(element: &mut Elem, tail: Option<u16>)
    requires tail { IsTail (length element.old.state.row) tail }
    requires zeros { element.old.state.row ≡ replicate (length element.old.state.row) 0 }
    requires prime { 2 ≤ element.old.prime }
    ensures { element.new ≡ with_state element.old (record {
      exponents = element.old.state.exponents;
      row = row_of (length element.old.state.row) tail;
    }) }
{
    if let Some(t) = tail {
        element.add_tail(t);
    }
}

/// The inverses of elements.
fn inverses<C: Collect>(
    alloc: Global,
    s: &mut Scratch<C>,
    pcp: &Pcp,
    elements: &[Elem],
) -> Result<Vec<Elem>, NoMemory>
    requires scratch { IsScratch pcp.now s.old }
    requires elements { All (IsElement pcp.now) elements.now }
    ensures scratch { IsScratch pcp.now s.new }
    ensures inverses { IfOk result (λ v. AreImageElements pcp.now (C.meaning (rowed_presentation pcp.now)) elements.now v.items) }
{
    let mut inverses = Vec::new(alloc);
    for element in elements {
        inverses.push(inverse_of(alloc, s, pcp, element)?)?;
    }
    Ok(inverses)
}

/// The inverse of an element.
fn inverse_of<C: Collect>(
    alloc: Global,
    s: &mut Scratch<C>,
    pcp: &Pcp,
    element: &Elem,
) -> Result<Elem, NoMemory>
    requires scratch { IsScratch pcp.now s.old }
    requires element { IsElement pcp.now element.now }
    ensures scratch { IsScratch pcp.now s.new }
    ensures inverse { IfOk result (λ e. IsInverse pcp.now (C.meaning (rowed_presentation pcp.now)) element.now e) }
{
    let mut result = Elem::one(alloc, pcp)?;
    inverse(s, pcp, element, &mut result);
    Ok(result)
}
