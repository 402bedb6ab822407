//! Presentations, with weights and tails.

ghost use Rattle.std.specs.Prelude.{◌≡◌, ◌≤◌, ◌+◌, ◌-◌, ◌↔◌, ℕ, List, get_or, length, IsTrue, IfOk, OnOk, OnErr};
ghost use Rattle.pq_base.specs.Limits.{max_rank};
ghost use Rattle.pq_base.specs.Prime.{prime_value};
ghost use Rattle.pc_presentation.specs.Syllable.{AreSyllables};
ghost use Rattle.pc_presentation.specs.Relation.{IsRelation, IsTail, side_start, tabulate};
ghost use Rattle.pc_presentation.specs.Pcp.{IsTailedPresentation, IsBareRelation, side_word, tail_of, with_relation, plain_presentation};
ghost use Rattle.pc_presentation.specs.Commuting.{IsFirstCommuting};
ghost use Rattle.pc_presentation.specs.CommutingNumbers.{numbers_with, raised_to};
ghost use Rattle.pc_presentation.specs.Tailed.{rowed_presentation};

use crate::relation::{Relation, relation_count};
use crate::store::Store;
use crate::syllable::Syllable;
use pq_base::{NoMemory, Prime};
use std::alloc::Global;
use std::marker::Model;

/// A power-commutator presentation: its generators have weights, and each relation has a right side, in later generators,
/// and a tail or none. All words lie in one store. For each generator it is known from which one on all commute.
#[derive(Debug, Drop)]
pub struct Pcp {
    prime: Prime,
    weights: Vec<u8>,
    tails: u16,
    relations: Store,
    commuting: Vec<u16>,
}

impl Model for Pcp {
    ghost use Rattle.std.specs.Prelude.{◌≤◌, length};
    ghost use Rattle.pq_base.specs.Limits.{max_rank};
    ghost use Rattle.pq_base.specs.Prime.{prime_value};
    ghost use Rattle.pc_presentation.specs.Store.{AreEntries};
    ghost use Rattle.pc_presentation.specs.Pcp.{TailedPresentation, tailed_presentation};
    ghost use Rattle.pc_presentation.specs.CommutingNumbers.{AreCommutingNumbers};

    ghost Value = { TailedPresentation };

    ghost view = { λ a. tailed_presentation (prime_value a.prime) a.weights.items a.tails a.relations };

    ghost invariant = { λ a.
        (length a.weights.items ≤ max_rank)
        × AreEntries (prime_value a.prime) (length a.weights.items) a.tails a.relations
        × AreCommutingNumbers (tailed_presentation (prime_value a.prime) a.weights.items a.tails a.relations) a.commuting.items };
}

impl Pcp {
    /// The prime.
    pub fn prime(&self) -> Prime
        ensures { prime_value result ≡ self.now.presentation.prime }
    {
        self.prime
    }

    /// How many generators there are.
    pub fn rank(&self) -> u16
        ensures rank { result ≡ self.now.presentation.rank }
        ensures presentation { IsTailedPresentation self.now }
    {
        self.weights.len() as u16
    }

    /// How many tails there are.
    pub fn tails(&self) -> u16
        ensures { result ≡ self.now.tails }
    {
        self.tails
    }

    /// The weight of generator i, counted from 1.
    pub fn weight(&self, i: u16) -> u8
        requires from_one { 1 ≤ i }
        requires in_range { i ≤ self.now.presentation.rank }
        ensures { result ≡ get_or self.now.weights (i - 1) 0 }
    {
        self.weights[i as usize - 1]
    }

    /// The weights of all generators.
    pub fn weights(&self) -> &[u8]
        ensures { result.now ≡ self.now.weights }
    {
        self.weights.as_slice()
    }

    /// The right side of a relation, as the syllables of the exponents that aren't 0.
    pub fn word(&self, r: Relation) -> &[Syllable]
        requires { IsRelation self.now.presentation.rank r }
        ensures { result.now ≡ side_word self.now.presentation r }
    {
        self.relations.word(r.number(self.weights.len()))
    }

    /// The tail of a relation, counted from 1, if it has one.
    pub fn tail(&self, r: Relation) -> Option<u16>
        requires { IsRelation self.now.presentation.rank r }
        ensures { result ≡ tail_of self.now r }
    {
        self.relations.tail(r.number(self.weights.len()))
    }

    /// Whether a relation has an empty right side and no tail.
    pub fn is_bare(&self, r: Relation) -> bool
        requires { IsRelation self.now.presentation.rank r }
        ensures { IsTrue result ↔ IsBareRelation self.now r }
    {
        let _presentation = self.rank();
        self.word(r).is_empty() && self.tail(r).is_none()
    }

    /// The first number after generator i, counted from 1, from which on each generator commutes with each that is before it
    /// and not before i: their relation has an empty right side and no tail. It is one more than the rank where the last
    /// generator doesn't.
    pub fn commuting_from(&self, i: u16) -> u16
        requires from_one { 1 ≤ i }
        requires in_range { i ≤ self.now.presentation.rank }
        ensures { IsFirstCommuting (rowed_presentation self.now) (i - 1) (result - 1) }
    {
        self.commuting[i as usize - 1]
    }

    /// The presentation with empty right sides and no tails after them.
    pub(crate) fn plain(
        alloc: Global,
        prime: Prime,
        weights: &[u8],
        tails: u16,
    ) -> Result<Pcp, NoMemory>
        requires { length weights.now ≤ max_rank }
        ensures { IfOk result (λ q. q ≡ plain_presentation (prime_value prime) weights.now tails) }
    {
        Ok(Pcp {
            prime,
            weights: Vec::from_slice(alloc, weights)?,
            tails,
            relations: Store::new(alloc, relation_count(weights.len()))?,
            commuting: next_numbers(alloc, weights.len())?,
        })
    }

    /// Puts a right side and a tail in place of those of a relation, which was bare.
    pub(crate) fn put(
        &mut self,
        r: Relation,
        word: &[Syllable],
        tail: Option<u16>,
    ) -> Result<(), NoMemory>
        requires relation { IsRelation self.old.presentation.rank r }
        requires word { AreSyllables self.old.presentation.prime self.old.presentation.rank (side_start r) word.now }
        requires tail { IsTail self.old.tails tail }
        requires bare { IsBareRelation self.old r }
        ensures ok { OnOk result (self.new ≡ with_relation self.old r word.now tail) }
        ensures err { OnErr result (self.new ≡ self.old) }
    {
        let number = r.number(self.weights.len());
        self.relations.put(number, word, tail)?;
        note_relation(self.commuting.as_mut_slice(), r, word, tail);
        Ok(())
    }

    /// An equal presentation.
    pub fn duplicate(&self) -> Result<Pcp, NoMemory>
        ensures { IfOk result (λ q. q ≡ self.now) }
    {
        let alloc = *self.weights.allocator();
        Ok(Pcp {
            prime: self.prime,
            weights: Vec::from_slice(alloc, self.weights.as_slice())?,
            tails: self.tails,
            relations: self.relations.duplicate()?,
            commuting: Vec::from_slice(alloc, self.commuting.as_slice())?,
        })
    }
}

/// For each generator the number of the next one: from there on all commute where each relation is bare.
fn next_numbers(alloc: Global, rank: usize) -> Result<Vec<u16>, NoMemory>
    requires { rank ≤ max_rank }
    ensures { IfOk result (λ v. v.items ≡ tabulate rank (λ m. m + 2)) }
{
    let mut numbers = Vec::with_capacity(alloc, rank)?;
    for m in 0..rank as u16 {
        numbers.push(m + 2)?;
    }
    Ok(numbers)
}

/// Makes of the numbers what they are with this relation, which was bare before.
fn note_relation(numbers: &mut [u16], r: Relation, word: &[Syllable], tail: Option<u16>)
    requires relation { IsRelation (length numbers.old) r }
    requires limit { length numbers.old ≤ max_rank }
    ensures { numbers.new ≡ numbers_with r word.now tail numbers.old }
{
    if let Relation::Commutator(j, i) = r {
        if !word.is_empty() || tail.is_some() {
            raise(numbers, i as usize, j + 1);
        }
    }
}

/// Makes each of the first i numbers at least this.
#[tactic(auto, using(crate::proofs::presentations::RaisedNumbers::raised_to_more))]
fn raise(numbers: &mut [u16], i: usize, least: u16)
    requires { i ≤ length numbers.old }
    ensures { numbers.new ≡ raised_to least i numbers.old }
{
    for m in 0..i {
        numbers[m] = least.max(numbers[m]);
    }
}
