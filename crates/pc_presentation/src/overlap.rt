//! Overlaps by numbers, and the two ways of collecting them.

ghost use Rattle.std.specs.Prelude.{◌≡◌, ◌↔◌, None, IsTrue};
ghost use Rattle.pc_presentation.specs.Syllable.{AreGenerators, syllable};
ghost use Rattle.pc_presentation.specs.Relation.{IsRelation};
ghost use Rattle.pc_presentation.specs.Collection.{identity, push_configuration};
ghost use Rattle.pc_presentation.specs.Overlaps.{left_way, right_way};
ghost use Rattle.pc_presentation.specs.OverlapNumbers.{AreOverlapNumbers, overlap_of, before_side};
ghost use Rattle.pc_presentation.specs.Scratch.{IsScratch};
ghost use Rattle.pc_presentation.specs.Tailed.{rowed_presentation, IsElement, with_state, sparse_configuration};

use crate::collect::Collect;
use crate::elem::Elem;
use crate::pcp::Pcp;
use crate::relation::Relation;
use crate::scratch::Scratch;
use crate::syllable::Syllable;

/// An overlap: a word that can be collected in two ways. Generators count from 1, and fall strictly.
#[derive(Clone, Copy, Debug, PartialEq, Eq)]
pub enum Overlap {
    /// `Triple(k, j, i)`: the word `a_k a_j a_i`.
    Triple(u16, u16, u16),
    /// `Left(j, i)`: the p-th power of `a_j`, and `a_i` behind it.
    Left(u16, u16),
    /// `Right(j, i)`: the p-th power of `a_i` behind `a_j`.
    Right(u16, u16),
    /// `Own(i)`: the power of `a_i` to p + 1.
    Own(u16),
}

impl Overlap {
    /// Whether the numbers are those of `rank` generators, and fall strictly.
    pub fn is_of(self, rank: u16) -> bool
        ensures { IsTrue result ↔ AreOverlapNumbers rank self }
    {
        match self {
            Overlap::Triple(k, j, i) => 1 <= i && i < j && j < k && k <= rank,
            Overlap::Left(j, i) | Overlap::Right(j, i) => 1 <= i && i < j && j <= rank,
            Overlap::Own(i) => 1 <= i && i <= rank,
        }
    }
}

/// Collects both ways of an overlap: the left one in the first element of the scratch, and the right one in the second.
pub fn two_ways<C: Collect>(s: &mut Scratch<C>, pcp: &Pcp, overlap: Overlap)
    requires scratch { IsScratch pcp.now s.old }
    requires overlap { AreOverlapNumbers pcp.now.presentation.rank overlap }
    ensures scratch { IsScratch pcp.now s.new }
    ensures left { let Y = rowed_presentation pcp.now in
        s.new.left.state ≡ push_configuration Y (C.meaning Y) (identity Y Y.base.rank) (left_way Y (overlap_of overlap)) }
    ensures right { let Y = rowed_presentation pcp.now in
        s.new.right.state ≡ push_configuration Y (C.meaning Y) (identity Y Y.base.rank) (right_way Y (overlap_of overlap)) }
{
    left_way(&mut s.collector, pcp, overlap, &mut s.left);
    right_way(&mut s.collector, pcp, overlap, &mut s.right);
}

/// Collects the left way of an overlap: the element is what its letters make of the element one.
pub(crate) fn left_way<C: Collect>(collector: &mut C, pcp: &Pcp, overlap: Overlap, at: &mut Elem)
    requires serves { C.serves collector.old pcp.now.presentation.rank }
    requires element { IsElement pcp.now at.old }
    requires overlap { AreOverlapNumbers pcp.now.presentation.rank overlap }
    ensures serves { C.serves collector.new pcp.now.presentation.rank }
    ensures element { IsElement pcp.now at.new }
    ensures collected { let Y = rowed_presentation pcp.now in
        at.new ≡ with_state at.old (push_configuration Y (C.meaning Y) (identity Y Y.base.rank) (left_way Y (overlap_of overlap))) }
{
    let prime = pcp.prime().value();
    match overlap {
        Overlap::Triple(k, j, i) => {
            collect(collector, pcp, at, &[power(k, 1), power(j, 1), power(i, 1)]);
        }
        Overlap::Left(j, i) => {
            collect(collector, pcp, at, &[power(j, prime), power(i, 1)]);
        }
        Overlap::Right(j, i) => {
            collect(collector, pcp, at, &[power(j, 1), power(i, prime)]);
        }
        Overlap::Own(i) => {
            collect(collector, pcp, at, &[power(i, 1), power(i, prime)]);
        }
    }
}

/// Collects the right way of an overlap, which ends with the right side of a relation: the element is what its letters make
/// of the element one, with the tail of that relation added.
pub(crate) fn right_way<C: Collect>(collector: &mut C, pcp: &Pcp, overlap: Overlap, at: &mut Elem)
    requires serves { C.serves collector.old pcp.now.presentation.rank }
    requires element { IsElement pcp.now at.old }
    requires overlap { AreOverlapNumbers pcp.now.presentation.rank overlap }
    ensures serves { C.serves collector.new pcp.now.presentation.rank }
    ensures element { IsElement pcp.now at.new }
    ensures collected { let Y = rowed_presentation pcp.now in
        at.new ≡ with_state at.old (push_configuration Y (C.meaning Y) (identity Y Y.base.rank) (right_way Y (overlap_of overlap))) }
{
    let prime = pcp.prime().value();
    match overlap {
        Overlap::Triple(k, j, i) => {
            let word = [power(k, 1), power(i, 1), power(j, 1)];
            collect_with_side(collector, pcp, at, &word, Relation::Commutator(j, i));
        }
        Overlap::Left(j, i) => {
            let word = [power(j, prime - 1), power(i, 1), power(j, 1)];
            collect_with_side(collector, pcp, at, &word, Relation::Commutator(j, i));
        }
        Overlap::Right(j, i) => {
            collect_with_side(collector, pcp, at, &[power(j, 1)], Relation::Power(i));
        }
        Overlap::Own(i) => {
            collect_with_side(collector, pcp, at, &[power(i, 1)], Relation::Power(i));
        }
    }
}

/// A power of a generator.
fn power(generator: u16, exponent: u8) -> Syllable
    ensures { result ≡ syllable generator exponent }
{
    Syllable {
        generator,
        exponent,
    }
}

/// Collects a word, from the element one on.
fn collect<C: Collect>(collector: &mut C, pcp: &Pcp, at: &mut Elem, word: &[Syllable])
    requires serves { C.serves collector.old pcp.now.presentation.rank }
    requires element { IsElement pcp.now at.old }
    requires generators { AreGenerators pcp.now.presentation.rank word.now }
    ensures serves { C.serves collector.new pcp.now.presentation.rank }
    ensures element { IsElement pcp.now at.new }
    ensures collected { let Y = rowed_presentation pcp.now in
        at.new ≡ with_state at.old
        (push_configuration Y (C.meaning Y) (identity Y Y.base.rank) (sparse_configuration pcp.now.tails word.now None)) }
{
    at.clear();
    collector.push_word(pcp, at, word, None);
}

/// Collects a word from the element one on, and then the right side of a relation with its tail.
fn collect_with_side<C: Collect>(
    collector: &mut C,
    pcp: &Pcp,
    at: &mut Elem,
    word: &[Syllable],
    relation: Relation,
)
    requires serves { C.serves collector.old pcp.now.presentation.rank }
    requires element { IsElement pcp.now at.old }
    requires generators { AreGenerators pcp.now.presentation.rank word.now }
    requires relation { IsRelation pcp.now.presentation.rank relation }
    ensures serves { C.serves collector.new pcp.now.presentation.rank }
    ensures element { IsElement pcp.now at.new }
    ensures collected { let Y = rowed_presentation pcp.now in
        at.new ≡ with_state at.old (push_configuration Y (C.meaning Y) (identity Y Y.base.rank) (before_side pcp.now word.now relation)) }
{
    collect(collector, pcp, at, word);
    let tail = pcp.tail(relation);
    collector.push_word(pcp, at, pcp.word(relation), tail);
}
