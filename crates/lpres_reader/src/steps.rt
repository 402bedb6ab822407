//! What a line means with one token more, or with the plain factors that come next.

ghost use Rattle.std.specs.Prelude.{MatchResult};
ghost use Rattle.lpres_reader.specs.Front.{token_of};
ghost use Rattle.lpres_reader.specs.Presentations.{AreGenerators};
ghost use Rattle.lpres_reader.specs.Stops.{Refuses};
ghost use Rattle.lpres_reader.specs.Values.{Given, value_step, start_step, from_step, RunsOn, StopsAt};

use crate::fault::Stop;
use crate::known::place_of;
use crate::plain::with_plain_factors;
use crate::recipe::Recipe;
use crate::token::{Symbol, Token};
use crate::unit_steps::{exponent_step, factor_step, minus_step};
use crate::value::{Around, Outer, Stage, Value, no_form, value_at};
use crate::word_ends::behind_step;
use indexmap::IndexSet;
use pq_base::Name;
use std::alloc::Global;

/// A token at the front of an arrow.
pub(crate) fn start_step(
    names: &IndexSet<Name>,
    around: Around,
    token: Token,
) -> Result<Value, Stop>
    requires { AreGenerators names.now.keys }
    ensures { Given result (start_step names.now.keys around (token_of token.entry)) }
{
    match token {
        Token::Name(text) => {
            let from = place_of(names, text).unwrap_or(0);
            Ok(value_at(
                Stage::From,
                Around {
                    stack: around.stack,
                    outer: Outer::Arrows(from),
                    gathered: around.gathered,
                },
            ))
        }
        _ => no_form(),
    }
}

/// A token behind the name from which an arrow goes.
pub(crate) fn from_step(alloc: Global, around: Around, token: Token) -> Result<Value, Stop>
    ensures { Given result (from_step around (token_of token.entry)) }
{
    match token {
        Token::Symbol(Symbol::Arrow) => Ok(value_at(Stage::Before(Recipe::empty(alloc)), around)),
        _ => no_form(),
    }
}

/// What is meant with one token more.
pub(crate) fn step(
    alloc: Global,
    names: &IndexSet<Name>,
    so_far: Value,
    token: Token,
) -> Result<Value, Stop>
    requires { AreGenerators names.now.keys }
    ensures { Given result (value_step names.now.keys so_far (token_of token.entry)) }
{
    let Value { stage, around } = so_far;
    match stage {
        Stage::Start => start_step(names, around, token),
        Stage::From => from_step(alloc, around, token),
        Stage::Before(before) => factor_step(alloc, names, around, before, token),
        Stage::Caret(before, base) => exponent_step(alloc, names, around, before, base, token),
        Stage::Minus(before, base) => minus_step(alloc, around, before, base, token),
        Stage::Behind(before, factor) => behind_step(alloc, around, before, factor, token),
    }
}

/// What is meant with the plain factors that come next, and what is left of the line.
pub(crate) fn plain_steps<'a>(
    names: &IndexSet<Name>,
    so_far: Value,
    line: &'a [u8],
) -> Result<(Value, &'a [u8]), Stop>
    requires { AreGenerators names.now.keys }
    ensures { MatchResult result (λ found. RunsOn names.now.keys line.now found.1.now so_far found.0)
        (Refuses (StopsAt names.now.keys so_far line.now)) }
{
    let Value { stage, around } = so_far;
    match stage {
        Stage::Before(before) => {
            let (word, rest) = with_plain_factors(names, before, line)?;
            Ok((value_at(Stage::Before(word), around), rest))
        }
        stage => Ok((value_at(stage, around), line)),
    }
}
