//! What the tails of a cover become: some are kept, and each becomes a combination of the kept ones.

ghost use Rattle.std.specs.Prelude.{◌≡◌, ◌≤◌, ◌+◌, ◌-◌, ◌++◌, ◌∷◌, [], length, get_or, map, take, All, IfOk, OnOk, OnErr};
ghost use Rattle.pq_base.specs.Limits.{max_rank};
ghost use Rattle.pq_base.specs.Prime.{prime_value};
ghost use Rattle.pc_presentation.specs.Syllable.{spread, syllables_of, AreSyllables};
ghost use Rattle.pc_presentation.specs.Relation.{IsTail};
ghost use Rattle.pc_presentation.specs.Pcp.{row_of};
ghost use Rattle.cover_quotient.specs.Carried.{carried};
ghost use Rattle.cover_quotient.specs.Combinations.{AreCombinations};
ghost use Rattle.cover_quotient.specs.NextParts.{shifted};

use pc_presentation::Syllable;
use pq_base::{NoMemory, Prime};
use std::alloc::Global;
use std::marker::Model;

/// The tails that are kept, and for each tail, in turn, the word in the kept ones that it becomes. In these words the kept
/// tails are numbered by their places, from 1 on.
#[derive(Drop)]
pub struct Combinations {
    prime: Prime,
    kept: Vec<u16>,
    words: Vec<Vec<Syllable>>,
}

impl Model for Combinations {
    ghost use Rattle.std.specs.Prelude.{length, map};
    ghost use Rattle.pq_base.specs.Prime.{prime_value};
    ghost use Rattle.pc_presentation.specs.Syllable.{spread};
    ghost use Rattle.pc_presentation.specs.Parts.{words_of, AreImages};
    ghost use Rattle.cover_quotient.specs.Combinations.{TailCombinations};

    ghost Value = { TailCombinations };

    ghost view = { λ k. record {
      prime = prime_value k.prime;
      kept = k.kept.items;
      rows = map (spread (length k.kept.items) 0) (words_of k.words.items);
    } };

    ghost invariant = { λ k. AreImages (prime_value k.prime) (length k.kept.items) (words_of k.words.items) };
}

impl Combinations {
    /// These tails are kept, and nothing is said yet of what a tail becomes.
    pub fn new(alloc: Global, prime: Prime, kept: Vec<u16>) -> Combinations
        ensures { result ≡ record { prime = prime_value prime; kept = kept.items; rows = [] } }
    {
        Combinations {
            prime,
            kept,
            words: Vec::new(alloc),
        }
    }

    /// Says of the next tail which word it becomes.
    pub fn push(&mut self, word: Vec<Syllable>) -> Result<(), NoMemory>
        requires { AreSyllables self.old.prime (length self.old.kept) 0 word.items }
        ensures ok { OnOk result (self.new ≡ record self.old { rows = self.old.rows ++ spread (length self.old.kept) 0 word.items ∷ [] }) }
        ensures err { OnErr result (self.new ≡ self.old) }
    {
        self.words.push(word)?;
        Ok(())
    }

    /// The tails that are kept.
    pub fn kept(&self) -> &[u16]
        ensures kept { result.now ≡ self.now.kept }
        ensures combinations { AreCombinations self.now }
    {
        self.kept.as_slice()
    }

    /// The word that a tail, counted from 1, becomes.
    pub fn word(&self, tail: u16) -> &[Syllable]
        requires first { 1 ≤ tail }
        requires last { tail ≤ length self.now.rows }
        ensures word { result.now ≡ syllables_of 0 (get_or self.now.rows (tail - 1) []) }
        ensures normal { AreSyllables self.now.prime (length self.now.kept) 0 result.now }
    {
        self.words[tail as usize - 1].as_slice()
    }

    /// A word of the first `rank` generators and what becomes of a tail behind it, or of none; the kept tails are the
    /// generators after these.
    pub(crate) fn with_tail(
        &self,
        word: &[Syllable],
        rank: u16,
        tail: Option<u16>,
    ) -> Result<Vec<Syllable>, NoMemory>
        requires tail { IsTail (length self.now.rows) tail }
        requires limit { rank + length self.now.kept ≤ max_rank }
        ensures { IfOk result (λ v. v.items ≡ word.now
            ++ syllables_of rank (carried self.now.prime (length self.now.kept) self.now.rows (row_of (length self.now.rows) tail))) }
    {
        let _combinations = self.kept();
        let mut whole = Vec::from_slice(*self.kept.allocator(), word)?;
        if let Some(tail) = tail {
            push_shifted(&mut whole, self.word(tail), rank)?;
        }
        Ok(whole)
    }
}

/// Puts a word at the end of another, with each generator moved on by so many.
fn push_shifted(word: &mut Vec<Syllable>, end: &[Syllable], by: u16) -> Result<(), NoMemory>
    requires { All (λ s. by + s.generator ≤ max_rank) end.now }
    ensures { OnOk result (word.new.items ≡ word.old.items ++ map (shifted by) end.now) }
{
    for k in 0..end.len() {
        word.push(Syllable {
            generator: by + end[k].generator,
            exponent: end[k].exponent,
        })?;
    }
    Ok(())
}
