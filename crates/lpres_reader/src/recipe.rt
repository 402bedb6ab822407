//! Recipes: how a word is written, without its letters. A recipe knows how many letters it gives, so that limits are tried
//! before any of them is written.

ghost use Rattle.std.specs.Prelude.{◌≡◌, ◌<◌, ◌≤◌, ◌+◌, ◌*◌, pos, suc, [], ◌∷◌, ◌++◌, length, IfOk};
ghost use Rattle.pq_base.specs.SignedWord.{comm, conj};
ghost use Rattle.lpres_reader.specs.Recipes.{power_of, written};

use std::alloc::{AllocError, Global};
use std::marker::Model;

/// One step in writing a word. All but the first change the end of what is written so far.
#[derive(Clone, Copy)]
pub(crate) enum Step {
    /// The generator at this place, counted from 0, comes behind it.
    Generator(u8),
    /// So many letters, or their inverse, come so many times instead.
    Raise(u32, bool, u32),
    /// So many letters, and so many behind them, become the conjugate of the latter by the former.
    Conjugate(u32, u32),
    /// So many letters, and so many behind them, become their commutator.
    Commute(u32, u32),
}

/// A word as the steps that write it. Contracts see it as the list of its letters.
#[derive(Drop)]
pub(crate) struct Recipe {
    steps: Vec<Step>,
    letters: usize,
}

impl Model for Recipe {
    ghost use Rattle.std.specs.Prelude.{ℤ, List, []};
    ghost use Rattle.lpres_reader.specs.Recipes.{written, IsRecipe};

    ghost Value = { List ℤ };

    ghost view = { λ r. written [] r.steps.items };

    ghost invariant = { λ r. IsRecipe r.steps.items r.letters };
}

impl Recipe {
    /// The empty word.
    pub(crate) fn empty(alloc: Global) -> Recipe
        ensures { result ≡ [] }
    {
        Recipe {
            steps: Vec::new(alloc),
            letters: 0,
        }
    }

    /// The generator at a place, counted from 0.
    pub(crate) fn generator(alloc: Global, place: usize) -> Result<Recipe, AllocError>
        requires { place < 32 }
        ensures { IfOk result (λ r. r ≡ pos (suc place) ∷ []) }
    {
        Recipe::empty(alloc).with_generator(place)
    }

    /// How many letters the word has.
    pub(crate) fn letters(&self) -> usize
        ensures letters { result ≡ length self.now }
        ensures limit { result ≤ 65536 }
    {
        self.letters
    }

    /// The steps, in order.
    pub(crate) fn steps(&self) -> &[Step]
        ensures { written [] result.now ≡ self.now }
    {
        self.steps.as_slice()
    }

    /// The word with one generator more.
    pub(crate) fn with_generator(self, place: usize) -> Result<Recipe, AllocError>
        requires place { place < 32 }
        requires limit { length self < 65536 }
        ensures { IfOk result (λ r. r ≡ self ++ pos (suc place) ∷ []) }
    {
        let mut steps = self.steps;
        steps.push(Step::Generator(place as u8))?;
        Ok(Recipe {
            steps,
            letters: self.letters + 1,
        })
    }

    /// The word, then another one.
    pub(crate) fn followed(self, other: Recipe) -> Result<Recipe, AllocError>
        requires { length self + length other ≤ 65536 }
        ensures { IfOk result (λ r. r ≡ self ++ other) }
    {
        if self.letters == 0 {
            return Ok(other);
        }
        let (mut steps, mut more) = (self.steps, other.steps);
        steps.append(&mut more)?;
        Ok(Recipe {
            steps,
            letters: self.letters + other.letters,
        })
    }

    /// So many copies of the word or of its inverse.
    pub(crate) fn raised(self, inverted: bool, times: u32) -> Result<Recipe, AllocError>
        requires { length self * times ≤ 65536 }
        ensures { IfOk result (λ r. r ≡ power_of inverted self times) }
    {
        if !inverted && times == 1 {
            return Ok(self);
        }
        let mut steps = self.steps;
        steps.push(Step::Raise(self.letters as u32, inverted, times))?;
        Ok(Recipe {
            steps,
            letters: self.letters * times as usize,
        })
    }

    /// The conjugate of a word by this one.
    pub(crate) fn conjugating(self, base: Recipe) -> Result<Recipe, AllocError>
        requires { length base + 2 * length self ≤ 65536 }
        ensures { IfOk result (λ r. r ≡ conj base self) }
    {
        if self.letters == 0 {
            return Ok(base);
        }
        let step = Step::Conjugate(self.letters as u32, base.letters as u32);
        let (mut steps, mut more) = (self.steps, base.steps);
        steps.append(&mut more)?;
        steps.push(step)?;
        Ok(Recipe {
            steps,
            letters: base.letters + 2 * self.letters,
        })
    }

    /// The commutator of the word and another one.
    pub(crate) fn commuted(self, other: Recipe) -> Result<Recipe, AllocError>
        requires { 2 * (length self + length other) ≤ 65536 }
        ensures { IfOk result (λ r. r ≡ comm self other) }
    {
        if self.letters + other.letters == 0 {
            return Ok(self);
        }
        let step = Step::Commute(self.letters as u32, other.letters as u32);
        let (mut steps, mut more) = (self.steps, other.steps);
        steps.append(&mut more)?;
        steps.push(step)?;
        Ok(Recipe {
            steps,
            letters: 2 * (self.letters + other.letters),
        })
    }
}
