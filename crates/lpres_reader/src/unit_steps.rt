//! What a token means in a factor: behind a star or at the front of a word, behind a `^`, and behind the minus of an exponent.

ghost use Rattle.std.specs.Prelude.{Ok};
ghost use Rattle.lpres_reader.specs.Front.{token_of};
ghost use Rattle.lpres_reader.specs.Presentations.{AreGenerators};
ghost use Rattle.lpres_reader.specs.Values.{Given, signed, behind_unit, with_bracket, unit_step, factor_step, raised_step, exponent_step};
ghost use Rattle.lpres_reader.specs.Values.{minus_step};

use crate::factor::Factor;
use crate::fault::Stop;
use crate::known::place_of;
use crate::products::{conjugated, letter, raised};
use crate::recipe::Recipe;
use crate::token::{Symbol, Token};
use crate::value::{Around, Bracket, Opened, Place, Stage, Value, no_form, value_at};
use indexmap::IndexSet;
use pq_base::Name;
use std::alloc::Global;

/// The stage behind a unit.
pub(crate) fn behind_unit(alloc: Global, place: Place, unit: Recipe) -> Result<Stage, Stop>
    ensures { Given result (behind_unit place unit) }
{
    let Place { before, base } = place;
    match base {
        None => Ok(Stage::Behind(before, Factor::of(alloc, unit))),
        Some(base) => Ok(Stage::Behind(before, conjugated(base, unit)?)),
    }
}

/// Opens a bracket.
pub(crate) fn with_bracket(
    alloc: Global,
    around: Around,
    place: Place,
    bracket: Bracket,
) -> Result<Value, Stop>
    ensures { Given result (Ok (with_bracket around place bracket)) }
{
    let stack = around.stack.push(Opened { place, bracket })?;
    Ok(value_at(
        Stage::Before(Recipe::empty(alloc)),
        Around {
            stack,
            outer: around.outer,
            gathered: around.gathered,
        },
    ))
}

/// A token that begins a unit.
pub(crate) fn unit_step(
    alloc: Global,
    names: &IndexSet<Name>,
    around: Around,
    place: Place,
    token: Token,
) -> Result<Value, Stop>
    requires { AreGenerators names.now.keys }
    ensures { Given result (unit_step names.now.keys around place (token_of token.entry)) }
{
    match token {
        Token::Name(text) => {
            let unit = letter(alloc, place_of(names, text))?;
            Ok(value_at(behind_unit(alloc, place, unit)?, around))
        }
        Token::Symbol(Symbol::OpenRound) => with_bracket(alloc, around, place, Bracket::Round),
        Token::Symbol(Symbol::OpenSquare) => with_bracket(
            alloc,
            around,
            place,
            Bracket::Square(None),
        ),
        _ => no_form(),
    }
}

/// A token at the front of a factor.
pub(crate) fn factor_step(
    alloc: Global,
    names: &IndexSet<Name>,
    around: Around,
    before: Recipe,
    token: Token,
) -> Result<Value, Stop>
    requires { AreGenerators names.now.keys }
    ensures { Given result (factor_step names.now.keys around before (token_of token.entry)) }
{
    match token {
        Token::Number(digits) => {
            if digits == b"1".as_slice() {
                let one = Factor::of(alloc, Recipe::empty(alloc));
                Ok(value_at(Stage::Behind(before, one), around))
            } else {
                no_form()
            }
        }
        token => unit_step(alloc, names, around, Place { before, base: None }, token),
    }
}

/// The digits of an exponent behind a factor, and whether a minus is before them.
fn raised_step(
    alloc: Global,
    around: Around,
    before: Recipe,
    base: Factor,
    negative: bool,
    digits: &[u8],
) -> Result<Value, Stop>
    ensures { Given result (raised_step around before base (signed negative digits.now)) }
{
    let factor = raised(alloc, base, negative, digits)?;
    Ok(value_at(Stage::Behind(before, factor), around))
}

/// A token behind a `^`.
pub(crate) fn exponent_step(
    alloc: Global,
    names: &IndexSet<Name>,
    around: Around,
    before: Recipe,
    base: Factor,
    token: Token,
) -> Result<Value, Stop>
    requires { AreGenerators names.now.keys }
    ensures { Given result (exponent_step names.now.keys around before base (token_of token.entry)) }
{
    match token {
        Token::Number(digits) => raised_step(alloc, around, before, base, false, digits),
        Token::Symbol(Symbol::Minus) => Ok(value_at(Stage::Minus(before, base), around)),
        token => {
            let place = Place {
                before,
                base: Some(base),
            };
            unit_step(alloc, names, around, place, token)
        }
    }
}

/// A token behind a `^` and a minus.
pub(crate) fn minus_step(
    alloc: Global,
    around: Around,
    before: Recipe,
    base: Factor,
    token: Token,
) -> Result<Value, Stop>
    ensures { Given result (minus_step around before base (token_of token.entry)) }
{
    match token {
        Token::Number(digits) => raised_step(alloc, around, before, base, true, digits),
        _ => no_form(),
    }
}
