//! What a token means behind a factor, and what a line gives that ends there.

ghost use Rattle.std.specs.Prelude.{None};
ghost use Rattle.lpres_reader.specs.declared.token.Symbol.TheVariants.{Equals};
ghost use Rattle.lpres_reader.specs.Front.{token_of};
ghost use Rattle.lpres_reader.specs.Values.{Given, entered, relator, relators_step, arrows_step, outer_step, round_step, square_step};
ghost use Rattle.lpres_reader.specs.Values.{bracket_step, word_step, behind_step, stack_end, value_end};

use crate::factor::Factor;
use crate::fault::Stop;
use crate::gathered::Gathered;
use crate::products::{commuted, equated, joined};
use crate::recipe::Recipe;
use crate::token::{Symbol, Token};
use crate::unit_steps::{behind_unit, with_bracket};
use crate::value::{
    Around, Bracket, Opened, Outer, Place, Stack, Stage, Value, at_arrows, at_relators, no_form,
    value_at,
};
use std::alloc::Global;

/// The entries of a bracket with one more.
pub(crate) fn entered(entries: Option<Recipe>, entry: Recipe) -> Result<Recipe, Stop>
    ensures { Given result (entered entries entry) }
{
    match entries {
        None => Ok(entry),
        Some(entries) => commuted(entries, entry),
    }
}

/// The relator of a word, which may be the right side of an equation.
pub(crate) fn relator(left: Option<Recipe>, word: Recipe) -> Result<Recipe, Stop>
    ensures { Given result (relator left word) }
{
    match left {
        None => Ok(word),
        Some(left) => equated(left, word),
    }
}

/// A symbol behind a word among relators, which may be the right side of an equation.
pub(crate) fn relators_step(
    alloc: Global,
    left: Option<Recipe>,
    gathered: Gathered,
    word: Recipe,
    symbol: Symbol,
) -> Result<Value, Stop>
    ensures { Given result (relators_step left gathered word symbol) }
{
    match symbol {
        Symbol::Equals => match left {
            None => equals_step(alloc, gathered, word),
            Some(_) => no_form(),
        },
        Symbol::Comma => {
            let relator = relator(left, word)?;
            at_relators(alloc, gathered.with_relator(relator)?)
        }
        _ => no_form(),
    }
}

/// An equals sign behind a word.
pub(crate) fn equals_step(alloc: Global, gathered: Gathered, word: Recipe) -> Result<Value, Stop>
    ensures { Given result (relators_step None gathered word Equals) }
{
    let before = Recipe::empty(alloc);
    let around = Around {
        stack: Stack::none(alloc),
        outer: Outer::Relators(Some(word)),
        gathered,
    };
    Ok(value_at(Stage::Before(before), around))
}

/// A symbol behind a word to which an arrow goes.
pub(crate) fn arrows_step(
    alloc: Global,
    from: usize,
    gathered: Gathered,
    word: Recipe,
    symbol: Symbol,
) -> Result<Value, Stop>
    ensures { Given result (arrows_step from gathered word symbol) }
{
    match symbol {
        Symbol::Comma => Ok(at_arrows(alloc, gathered.with_arrow(from, word)?)),
        _ => no_form(),
    }
}

/// A symbol behind a word in no brackets.
pub(crate) fn outer_step(
    alloc: Global,
    outer: Outer,
    gathered: Gathered,
    word: Recipe,
    symbol: Symbol,
) -> Result<Value, Stop>
    ensures { Given result (outer_step outer gathered word symbol) }
{
    match outer {
        Outer::Relators(left) => relators_step(alloc, left, gathered, word, symbol),
        Outer::Arrows(from) => arrows_step(alloc, from, gathered, word, symbol),
    }
}

/// A symbol behind a word in round brackets.
pub(crate) fn round_step(
    alloc: Global,
    place: Place,
    around: Around,
    word: Recipe,
    symbol: Symbol,
) -> Result<Value, Stop>
    ensures { Given result (round_step place around word symbol) }
{
    match symbol {
        Symbol::CloseRound => Ok(value_at(behind_unit(alloc, place, word)?, around)),
        _ => no_form(),
    }
}

/// A symbol behind a word in square brackets.
pub(crate) fn square_step(
    alloc: Global,
    place: Place,
    entries: Option<Recipe>,
    around: Around,
    word: Recipe,
    symbol: Symbol,
) -> Result<Value, Stop>
    ensures { Given result (square_step place entries around word symbol) }
{
    match symbol {
        Symbol::Comma => {
            let entries = entered(entries, word)?;
            with_bracket(alloc, around, place, Bracket::Square(Some(entries)))
        }
        Symbol::CloseSquare => match entries {
            None => no_form(),
            Some(entries) => {
                let unit = commuted(entries, word)?;
                Ok(value_at(behind_unit(alloc, place, unit)?, around))
            }
        },
        _ => no_form(),
    }
}

/// A symbol behind a word in a bracket.
pub(crate) fn bracket_step(
    alloc: Global,
    opened: Opened,
    around: Around,
    word: Recipe,
    symbol: Symbol,
) -> Result<Value, Stop>
    ensures { Given result (bracket_step opened.bracket opened.place around word symbol) }
{
    let Opened { place, bracket } = opened;
    match bracket {
        Bracket::Round => round_step(alloc, place, around, word, symbol),
        Bracket::Square(entries) => square_step(alloc, place, entries, around, word, symbol),
    }
}

/// A symbol behind a word.
pub(crate) fn word_step(
    alloc: Global,
    around: Around,
    word: Recipe,
    symbol: Symbol,
) -> Result<Value, Stop>
    ensures { Given result (word_step around word symbol) }
{
    let Around {
        stack,
        outer,
        gathered,
    } = around;
    match stack.pop() {
        None => outer_step(alloc, outer, gathered, word, symbol),
        Some((opened, stack)) => {
            let around = Around {
                stack,
                outer,
                gathered,
            };
            bracket_step(alloc, opened, around, word, symbol)
        }
    }
}

/// A token behind a factor.
pub(crate) fn behind_step(
    alloc: Global,
    around: Around,
    before: Recipe,
    factor: Factor,
    token: Token,
) -> Result<Value, Stop>
    ensures { Given result (behind_step around before factor (token_of token.entry)) }
{
    match token {
        Token::Symbol(Symbol::Caret) => Ok(value_at(Stage::Caret(before, factor), around)),
        Token::Symbol(Symbol::Star) => {
            let word = joined(before, factor)?;
            Ok(value_at(Stage::Before(word), around))
        }
        Token::Symbol(symbol) => {
            let word = joined(before, factor)?;
            word_step(alloc, around, word, symbol)
        }
        _ => no_form(),
    }
}

/// What a line gives that ends behind a word.
pub(crate) fn word_end(alloc: Global, around: Around, word: Recipe) -> Result<Gathered, Stop>
    ensures { Given result (stack_end around.stack around.outer around.gathered word) }
{
    let Around {
        stack,
        outer,
        gathered,
    } = around;
    if stack.pop().is_some() {
        return no_form();
    }
    match outer {
        Outer::Relators(left) => gathered.with_relator(relator(left, word)?),
        Outer::Arrows(from) => gathered.with_arrow(from, word),
    }
}

/// What a line gives that ends here.
pub(crate) fn end(alloc: Global, so_far: Value) -> Result<Gathered, Stop>
    ensures { Given result (value_end so_far) }
{
    let Value { stage, around } = so_far;
    match stage {
        Stage::Behind(before, factor) => {
            let word = joined(before, factor)?;
            word_end(alloc, around, word)
        }
        _ => no_form(),
    }
}
