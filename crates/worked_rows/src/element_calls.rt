//! Calls on elements of a presentation, over any collector.

ghost use Rattle.std.specs.Prelude.{◌≡◌, ◌↔◌, IfOk, IsTrue, length};
ghost use Rattle.pq_base.specs.SignedWord.{HasLetters};
ghost use Rattle.pc_presentation.specs.Collection.{identity};
ghost use Rattle.pc_presentation.specs.Arithmetic.{product_by};
ghost use Rattle.pc_presentation.specs.Relation.{IsRelation};
ghost use Rattle.pc_presentation.specs.Tailed.{rowed_presentation, IsElement};
ghost use Rattle.pc_presentation.specs.ImageElements.{AreImageElements};

use crate::relation_text::{overlap_of, syllables_of};
use anyhow::{Result, bail};
use case_lists::text::{numbers, show_numbers};
use case_lists::{is_over, show_row};
use fp_rows::Row;
use pc_presentation::{
    Collect, Elem, Overlap, Pcp, Relation, Scratch, Syllable, commutator, evaluate, inverse, power,
    product, two_ways, value,
};
use std::alloc::Global;

/// Pushes a generator, unless it is none of the presentation.
pub(crate) fn push_if_any<C: Collect>(
    collector: &mut C,
    pcp: &Pcp,
    at: &mut Elem,
    generator: u16,
) -> bool
    requires serves { C.serves collector.old pcp.now.presentation.rank }
    requires element { IsElement pcp.now at.old }
    ensures serves { C.serves collector.new pcp.now.presentation.rank }
    ensures element { IsElement pcp.now at.new }
{
    if generator < 1 || pcp.rank() < generator {
        return false;
    }
    collector.push(pcp, at, generator);
    true
}

/// The element that a word is collected to.
fn element<C: Collect + Drop>(alloc: Global, pcp: &Pcp, word: &[Syllable]) -> Result<Elem>
    ensures { IfOk result (λ e. IsElement pcp.now e) }
{
    let mut collector = C::fresh(alloc, pcp)?;
    let mut at = Elem::one(alloc, pcp)?;
    for s in word {
        if !push_times(&mut collector, pcp, &mut at, *s) {
            bail!("no such generator");
        }
    }
    Ok(at)
}

/// Pushes the letters of a syllable, unless its generator is none of the presentation.
fn push_times<C: Collect>(collector: &mut C, pcp: &Pcp, at: &mut Elem, s: Syllable) -> bool
    requires serves { C.serves collector.old pcp.now.presentation.rank }
    requires element { IsElement pcp.now at.old }
    ensures serves { C.serves collector.new pcp.now.presentation.rank }
    ensures element { IsElement pcp.now at.new }
{
    for _ in 0..s.exponent {
        if !push_if_any(collector, pcp, at, s.generator) {
            return false;
        }
    }
    true
}

/// Writes the exponents of an element, and its tails behind a bar where there are tails.
pub(crate) fn show_element(out: &mut String, element: &Elem) -> Result<()> {
    out.push_str("   ")?;
    show_numbers(out, element.exponents())?;
    if element.tail().width() > 0 {
        out.push_str(" |")?;
        show_row(out, element.tail())?;
    }
    out.push('\n')?;
    Ok(())
}

pub(crate) fn show_of_two<C: Collect + Drop>(
    alloc: Global,
    pcp: &Pcp,
    verb: &str,
    first: &[Syllable],
    second: &[Syllable],
    out: &mut String,
) -> Result<()> {
    let mut s = Scratch::<C>::new(alloc, pcp)?;
    let u = element::<C>(alloc, pcp, first)?;
    let v = element::<C>(alloc, pcp, second)?;
    let mut result = Elem::one(alloc, pcp)?;
    if verb == "product" {
        product(&mut s, pcp, &u, &v, &mut result);
    } else {
        commutator(&mut s, pcp, &u, &v, &mut result);
    }
    show_element(out, &result)
}

pub(crate) fn show_of_one<C: Collect + Drop>(
    alloc: Global,
    pcp: &Pcp,
    word: &[Syllable],
    out: &mut String,
) -> Result<()> {
    let u = element::<C>(alloc, pcp, word)?;
    show_element(out, &inverse_of::<C>(alloc, pcp, &u)?)
}

/// The inverse of an element.
fn inverse_of<C: Collect + Drop>(alloc: Global, pcp: &Pcp, u: &Elem) -> Result<Elem>
    requires { IsElement pcp.now u.now }
    ensures element { IfOk result (λ e. IsElement pcp.now e) }
    ensures inverse { let Y = rowed_presentation pcp.now in
        IfOk result (λ e. product_by Y (C.meaning Y) u.now.state e.state ≡ identity Y Y.base.rank) }
{
    let mut s = Scratch::<C>::new(alloc, pcp)?;
    let mut out = Elem::one(alloc, pcp)?;
    inverse(&mut s, pcp, u, &mut out);
    Ok(out)
}

pub(crate) fn show_power<C: Collect + Drop>(
    alloc: Global,
    pcp: &Pcp,
    n: u32,
    word: &[Syllable],
    out: &mut String,
) -> Result<()> {
    let mut s = Scratch::<C>::new(alloc, pcp)?;
    let u = element::<C>(alloc, pcp, word)?;
    let mut result = Elem::one(alloc, pcp)?;
    power(&mut s, pcp, &u, n, &mut result);
    show_element(out, &result)
}

/// Writes the value of a word at two elements.
pub(crate) fn show_evaluated<C: Collect + Drop>(
    alloc: Global,
    pcp: &Pcp,
    letters: &str,
    images: [&str; 2],
    out: &mut String,
) -> Result<()> {
    let word = numbers::<i32>(alloc, letters)?;
    let first = syllables_of(alloc, images[0])?;
    let second = syllables_of(alloc, images[1])?;
    if !is_over(2, &word) {
        bail!("a letter without an image");
    }
    show_value::<C>(alloc, pcp, &word, &first, &second, out)
}

fn show_value<C: Collect + Drop>(
    alloc: Global,
    pcp: &Pcp,
    word: &[i32],
    first: &[Syllable],
    second: &[Syllable],
    out: &mut String,
) -> Result<()>
    requires { HasLetters 2 word.now }
{
    let u = element::<C>(alloc, pcp, first)?;
    let v = element::<C>(alloc, pcp, second)?;
    let x = inverse_of::<C>(alloc, pcp, &u)?;
    let y = inverse_of::<C>(alloc, pcp, &v)?;
    show_value_at::<C>(alloc, pcp, word, &[u, v], &[x, y], out)
}

/// Writes the value of a word as `evaluate` and as `value` give it.
fn show_value_at<C: Collect + Drop>(
    alloc: Global,
    pcp: &Pcp,
    word: &[i32],
    images: &[Elem],
    inverses: &[Elem],
    out: &mut String,
) -> Result<()>
    requires letters { HasLetters (length images.now) word.now }
    requires images { AreImageElements pcp.now (C.meaning (rowed_presentation pcp.now)) images.now inverses.now }
{
    let mut s = Scratch::<C>::new(alloc, pcp)?;
    let mut result = Elem::one(alloc, pcp)?;
    evaluate(&mut s, pcp, word, images, inverses, &mut result);
    value(&mut s, pcp, word, images, inverses);
    show_element(out, &result)?;
    show_element(out, s.left())
}

/// Writes what both ways of an overlap reach.
pub(crate) fn show_ways<C: Collect + Drop>(
    alloc: Global,
    pcp: &Pcp,
    rest: &str,
    out: &mut String,
) -> Result<()> {
    let (kind, places) = rest.split_once(' ').unwrap_or((rest, ""));
    let places = numbers::<u16>(alloc, places)?;
    show_two_ways::<C>(alloc, pcp, overlap_of(kind, &places)?, out)
}

fn show_two_ways<C: Collect + Drop>(
    alloc: Global,
    pcp: &Pcp,
    overlap: Overlap,
    out: &mut String,
) -> Result<()> {
    let mut s = Scratch::<C>::new(alloc, pcp)?;
    if !overlap.is_of(pcp.rank()) {
        bail!("no overlap of the presentation");
    }
    two_ways(&mut s, pcp, overlap);
    show_element(out, s.left())?;
    show_element(out, s.right())
}

/// Whether this is a relation of `rank` generators.
pub(crate) fn is_relation(relation: Relation, rank: u16) -> bool
    ensures { IsTrue result ↔ IsRelation rank relation }
{
    match relation {
        Relation::Power(i) => 1 <= i && i <= rank,
        Relation::Commutator(j, i) => 1 <= i && i < j && j <= rank,
    }
}
