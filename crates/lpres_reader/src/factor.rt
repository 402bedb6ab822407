//! A factor while exponents may follow it: powers of powers are one power, and conjugates of conjugates one conjugate.

ghost use Rattle.std.specs.Prelude.{◌≡◌, ◌<◌, ◌≤◌, ◌+◌, ◌*◌, length, IfOk};
ghost use Rattle.pq_base.specs.SignedWord.{conj};
ghost use Rattle.lpres_reader.specs.Recipes.{power_of};

use crate::recipe::Recipe;
use std::alloc::{AllocError, Global};
use std::marker::Model;

/// The conjugate of so many copies of a word, or of its inverse, by another word. Contracts see it as the list of its
/// letters.
#[derive(Drop)]
pub(crate) struct Factor {
    base: Recipe,
    inverted: bool,
    times: u32,
    by: Recipe,
}

impl Model for Factor {
    ghost use Rattle.std.specs.Prelude.{◌≤◌, ◌+◌, ◌*◌, ℤ, List, length};
    ghost use Rattle.pq_base.specs.SignedWord.{conj};
    ghost use Rattle.lpres_reader.specs.Recipes.{power_of};

    ghost Value = { List ℤ };

    ghost view = { λ f. conj (power_of f.inverted f.base f.times) f.by };

    ghost invariant = { λ f. length f.base * f.times + 2 * length f.by ≤ 65536 };
}

impl Factor {
    /// A word alone.
    pub(crate) fn of(alloc: Global, word: Recipe) -> Factor
        ensures { result ≡ word }
    {
        // says that it is within the limit
        let _letters = word.letters();
        Factor {
            base: word,
            inverted: false,
            times: 1,
            by: Recipe::empty(alloc),
        }
    }

    /// How many letters it has.
    pub(crate) fn letters(&self) -> usize
        ensures letters { result ≡ length self.now }
        ensures limit { result ≤ 65536 }
    {
        self.base.letters() * self.times as usize + 2 * self.by.letters()
    }

    /// So many copies of it, or of its inverse. No copies are the empty word, and what was before is let go.
    pub(crate) fn raised(
        self,
        alloc: Global,
        inverted: bool,
        times: u32,
    ) -> Result<Factor, AllocError>
        requires { length self * times ≤ 65536 }
        ensures { IfOk result (λ f. f ≡ power_of inverted self times) }
    {
        if times == 0 {
            return Ok(Factor::of(alloc, Recipe::empty(alloc)));
        }
        if times == 1 {
            return Ok(self.signed(inverted));
        }
        if self.letters() == 0 {
            return Ok(self);
        }
        if self.by.letters() == 0 {
            return Ok(Factor {
                base: self.base,
                inverted: self.inverted != inverted,
                times: self.times * times,
                by: self.by,
            });
        }
        let base = self.into_recipe()?;
        Ok(Factor {
            base,
            inverted,
            times,
            by: Recipe::empty(alloc),
        })
    }

    /// It, or its inverse.
    fn signed(self, turned: bool) -> Factor
        ensures { result ≡ power_of turned self 1 }
    {
        Factor {
            base: self.base,
            inverted: self.inverted != turned,
            times: self.times,
            by: self.by,
        }
    }

    /// Its conjugate by a word.
    pub(crate) fn conjugated(self, unit: Recipe) -> Result<Factor, AllocError>
        requires { length self + 2 * length unit ≤ 65536 }
        ensures { IfOk result (λ f. f ≡ conj self unit) }
    {
        Ok(Factor {
            base: self.base,
            inverted: self.inverted,
            times: self.times,
            by: self.by.followed(unit)?,
        })
    }

    /// The word that it is.
    pub(crate) fn into_recipe(self) -> Result<Recipe, AllocError>
        ensures { IfOk result (λ r. r ≡ self) }
    {
        let power = self.base.raised(self.inverted, self.times)?;
        self.by.conjugating(power)
    }
}
