//! How a presentation is made, relation by relation.

ghost use Rattle.std.specs.Prelude.{◌≡◌, ◌≤◌, ◌↔◌, length, IfOk, IfErr, OnOk, OnErr, MatchOption, IsTrue};
ghost use Rattle.pq_base.specs.Limits.{max_rank};
ghost use Rattle.pq_base.specs.Prime.{prime_value};
ghost use Rattle.pc_presentation.specs.declared.builder.PcpRefusal.TheVariants.{NoMemory as WantOfMemory};
ghost use Rattle.pc_presentation.specs.Relation.{IsRelation, IsTail};
ghost use Rattle.pc_presentation.specs.Builder.{Draft, empty_draft, extended, WasGiven, IsAccepted, IsRefused};

use crate::pcp::Pcp;
use crate::relation::{Relation, relation_count};
use crate::syllable::{Syllable, are_generators, are_later, is_normal};
use pq_base::{NoMemory, Prime};
use std::alloc::Global;
use std::marker::Model;
use thiserror::Error;

/// Why a relation is refused: the first of these that stands against it.
#[derive(Clone, Copy, Debug, PartialEq, Eq, Error)]
pub enum PcpRefusal {
    /// A number of the relation, of a syllable or of the tail isn't in range, or j > i fails in a commutator.
    #[error("a number out of range")]
    OutOfRange,
    /// The relation was given before.
    #[error("a relation given twice")]
    Repeated,
    /// Generators don't rise strictly, or an exponent isn't from 1 to below the prime.
    #[error("a word that isn't normal")]
    NotNormal,
    /// A generator of the right side doesn't come after those of the left.
    #[error("a generator that isn't a later one")]
    NotLater,
    /// Nothing could be allocated.
    #[error("no memory")]
    NoMemory,
}

impl From<NoMemory> for PcpRefusal {
    ghost from_gives = { λ _ e. e ≡ WantOfMemory };

    fn from(_refused: NoMemory) -> PcpRefusal {
        PcpRefusal::NoMemory
    }
}

/// A presentation in the making. Contracts see what is built so far, and which relations were given.
#[derive(Debug, Drop)]
pub struct PcpBuilder {
    pcp: Pcp,
    given: Vec<bool>,
}

impl Model for PcpBuilder {
    ghost use Rattle.std.specs.Prelude.{◌≡◌, length};
    ghost use Rattle.pc_presentation.specs.Relation.{relation_count};
    ghost use Rattle.pc_presentation.specs.Builder.{Draft, flags_of, OthersAreBare};

    ghost Value = { Draft };

    ghost view = { λ b. record { built = b.pcp; given = flags_of b.pcp.presentation.rank b.given.items } };

    ghost invariant = { λ b.
        (length b.given.items ≡ relation_count b.pcp.presentation.rank)
        × OthersAreBare (record { built = b.pcp; given = flags_of b.pcp.presentation.rank b.given.items }) };
}

impl PcpBuilder {
    /// A presentation for generators of these weights, with so many tails. All relations start with the empty word and no
    /// tail.
    pub fn new(
        alloc: Global,
        prime: Prime,
        weights: &[u8],
        tails: u16,
    ) -> Result<PcpBuilder, NoMemory>
        requires { length weights.now ≤ max_rank }
        ensures { IfOk result (λ b. b ≡ empty_draft (prime_value prime) weights.now tails) }
    {
        Ok(PcpBuilder {
            pcp: Pcp::plain(alloc, prime, weights, tails)?,
            given: vec![in alloc; false; relation_count(weights.len())]?,
        })
    }

    /// Gives a relation its right side and its tail, counted from 1. Nothing changes where the relation is refused.
    pub fn relation(
        &mut self,
        r: Relation,
        word: &[Syllable],
        tail: Option<u16>,
    ) -> Result<(), PcpRefusal>
        ensures accepted { OnOk result (IsAccepted self.old r word.now tail) }
        ensures refused { IfErr result (IsRefused self.old r word.now tail) }
        ensures ok { OnOk result (self.new ≡ extended self.old r word.now tail) }
        ensures err { OnErr result (self.new ≡ self.old) }
    {
        if let Some(refusal) = self.refusal(r, word, tail) {
            return Err(refusal);
        }
        let number = r.number(self.pcp.rank() as usize);
        self.pcp.put(r, word, tail)?;
        self.given[number] = true;
        Ok(())
    }

    /// The presentation with the relations that were given.
    pub fn finish(self) -> Pcp
        ensures { result ≡ self.built }
    {
        let PcpBuilder { pcp, given: _ } = self;
        pcp
    }

    /// The first thing that stands against a relation.
    fn refusal(&self, r: Relation, word: &[Syllable], tail: Option<u16>) -> Option<PcpRefusal>
        ensures { MatchOption result (IsAccepted self.now r word.now tail) (IsRefused self.now r word.now tail) }
    {
        let rank = self.pcp.rank();
        if !r.is_of(rank) || !are_generators(word, rank) || !is_tail(tail, self.pcp.tails()) {
            Some(PcpRefusal::OutOfRange)
        } else if self.was_given(r) {
            Some(PcpRefusal::Repeated)
        } else if !is_normal(word, self.pcp.prime().value()) {
            Some(PcpRefusal::NotNormal)
        } else if !are_later(word, r.leading()) {
            Some(PcpRefusal::NotLater)
        } else {
            None
        }
    }

    fn was_given(&self, r: Relation) -> bool
        requires { IsRelation self.now.built.presentation.rank r }
        ensures { IsTrue result ↔ WasGiven self.now r }
    {
        self.given[r.number(self.pcp.rank() as usize)]
    }
}

/// Whether this is one of so many tails, or none.
fn is_tail(tail: Option<u16>, tails: u16) -> bool
    ensures { IsTrue result ↔ IsTail tails tail }
{
    match tail {
        None => true,
        Some(t) => 1 <= t && t <= tails,
    }
}
