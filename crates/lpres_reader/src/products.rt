//! The words that parts of a line make. Where one is too long, the line stops with its letters.

ghost use Rattle.std.specs.Prelude.{◌≡◌, ◌<◌, ◌≤◌, ◌*◌, ◌++◌, length, IfSome, MatchResult, Some, Ok};
ghost use Rattle.pq_base.specs.SignedWord.{inv, comm, conj};
ghost use Rattle.lpres_reader.specs.declared.fault.Kind.TheVariants.{Limit as PassedLimit};
ghost use Rattle.lpres_reader.specs.declared.fault.Which.TheVariants.{Letters as OfLetters};
ghost use Rattle.lpres_reader.specs.declared.fault.Stop.TheVariants.{Fault as Faulty};
ghost use Rattle.lpres_reader.specs.Trees.{letter_at};
ghost use Rattle.lpres_reader.specs.Values.{Given, fits, raised, signed};

use crate::exponent::size_of;
use crate::factor::Factor;
use crate::fault::{Kind, Stop, Which};
use crate::recipe::Recipe;
use pq_base::limits::{EXPONENT, LETTERS};
use std::alloc::Global;

/// Refuses a word of too many letters.
fn check_letters(letters: usize) -> Result<(), Stop>
    ensures { MatchResult result (λ _. letters ≤ 65536) (λ e. (e ≡ Faulty (PassedLimit OfLetters letters)) × (65536 < letters)) }
{
    if letters > LETTERS {
        return Err(Stop::Fault(Kind::Limit(Which::Letters, letters as u64)));
    }
    Ok(())
}

/// The word of a generator at a place, counted from 0, or the empty word.
pub(crate) fn letter(alloc: Global, place: Option<usize>) -> Result<Recipe, Stop>
    requires { IfSome place (λ k. k < 32) }
    ensures { Given result (Ok (letter_at place)) }
{
    match place {
        None => Ok(Recipe::empty(alloc)),
        Some(place) => Ok(Recipe::generator(alloc, place)?),
    }
}

/// The product of factors so far with one more.
pub(crate) fn joined(before: Recipe, factor: Factor) -> Result<Recipe, Stop>
    ensures { Given result (fits (before ++ factor)) }
{
    check_letters(before.letters() + factor.letters())?;
    Ok(before.followed(factor.into_recipe()?)?)
}

/// The product of factors so far with the generator at a place, counted from 0.
pub(crate) fn joined_letter(before: Recipe, place: usize) -> Result<Recipe, Stop>
    requires { place < 32 }
    ensures { Given result (fits (before ++ letter_at (Some place))) }
{
    check_letters(before.letters() + 1)?;
    Ok(before.with_generator(place)?)
}

/// The conjugate of a factor.
pub(crate) fn conjugated(base: Factor, unit: Recipe) -> Result<Factor, Stop>
    ensures { Given result (fits (conj base unit)) }
{
    check_letters(base.letters() + 2 * unit.letters())?;
    Ok(base.conjugated(unit)?)
}

/// The commutator of two entries.
pub(crate) fn commuted(first: Recipe, second: Recipe) -> Result<Recipe, Stop>
    ensures { Given result (fits (comm first second)) }
{
    check_letters(2 * (first.letters() + second.letters()))?;
    Ok(first.commuted(second)?)
}

/// The relator of an equation.
pub(crate) fn equated(left: Recipe, right: Recipe) -> Result<Recipe, Stop>
    ensures { Given result (fits (left ++ inv right)) }
{
    check_letters(left.letters() + right.letters())?;
    Ok(left.followed(right.raised(true, 1)?)?)
}

/// A power of a factor, by the exponent's digits and whether a minus is before them.
pub(crate) fn raised(
    alloc: Global,
    base: Factor,
    negative: bool,
    digits: &[u8],
) -> Result<Factor, Stop>
    ensures { Given result (raised base (signed negative digits.now)) }
{
    let size = size_of(digits);
    if size > u64::from(EXPONENT) {
        return Err(Stop::Fault(Kind::Limit(Which::Exponent, size)));
    }
    check_letters(base.letters() * size as usize)?;
    Ok(base.raised(alloc, negative, size as u32)?)
}
