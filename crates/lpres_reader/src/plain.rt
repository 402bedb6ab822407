//! Factors that are generators' names alone, with a star behind each. They are taken together, or passed over together.

ghost use Rattle.std.specs.Prelude.{◌≡◌, IfSome, MatchResult};
ghost use Rattle.lpres_reader.specs.declared.token.Symbol.TheVariants.{Star as StarSymbol};
ghost use Rattle.lpres_reader.specs.Tokens.{name, symbol};
ghost use Rattle.lpres_reader.specs.Front.{token_first, front_of};
ghost use Rattle.lpres_reader.specs.PlainFactors.{BeginsPlainly, GoesPlainly, PassesOver};
ghost use Rattle.lpres_reader.specs.Presentations.{AreGenerators};
ghost use Rattle.lpres_reader.specs.Stops.{Refuses};
ghost use Rattle.lpres_reader.specs.Values.{FactorsRunOn, FactorsStopAt};

use crate::fault::Stop;
use crate::known::place_of;
use crate::line::after_blanks;
use crate::products::joined_letter;
use crate::recipe::Recipe;
use crate::syntax::Stage;
use crate::token::name_length;
use indexmap::IndexSet;
use pq_base::Name;
use pq_base::name::is_letter;

/// The name that is the first token of a line, and what is behind it. No other tokens are looked at.
#[tactic(auto, using(crate::proofs::texts::PlainFronts::front_name))]
fn name_first(line: &[u8]) -> Option<(&[u8], &[u8])>
    ensures { IfSome result (λ found. front_of line.now ≡ token_first (name found.0.now) found.1.now) }
{
    let line = after_blanks(line);
    match line {
        [first, ..] if is_letter(*first) => Some(line.split_at(name_length(line))),
        _ => None,
    }
}

/// What is behind the star that is the first token of a line.
#[tactic(auto, using(crate::proofs::texts::PlainFronts::front_star))]
fn behind_star(line: &[u8]) -> Option<&[u8]>
    ensures { IfSome result (λ rest. front_of line.now ≡ token_first (symbol StarSymbol) rest.now) }
{
    match after_blanks(line) {
        [b'*', rest @ ..] => Some(rest),
        _ => None,
    }
}

/// The place of the generator, counted from 0, that stands at the front of a line with a star behind it, and what is
/// behind that.
#[inline(always)]
fn plain_factor<'a>(names: &IndexSet<Name>, line: &'a [u8]) -> Option<(usize, &'a [u8])>
    requires { AreGenerators names.now.keys }
    ensures { IfSome result (λ found. BeginsPlainly names.now.keys line.now found.0 found.1.now) }
{
    let (text, behind) = name_first(line)?;
    let rest = behind_star(behind)?;
    let place = place_of(names, text)?;
    Some((place, rest))
}

/// What is left of a line behind the plain factors at its front.
fn behind_plain_factors<'a>(names: &IndexSet<Name>, line: &'a [u8]) -> &'a [u8]
    requires { AreGenerators names.now.keys }
    ensures { GoesPlainly names.now.keys line.now result.now }
{
    let mut rest = line;
    while let Some((_, after)) = plain_factor(names, rest) {
        rest = after;
    }
    rest
}

/// What is left of a line behind the plain factors that come next, where factors do. They leave the form as it is.
pub(crate) fn passed_over<'a>(names: &IndexSet<Name>, stage: Stage, line: &'a [u8]) -> &'a [u8]
    requires { AreGenerators names.now.keys }
    ensures { PassesOver names.now.keys stage line.now result.now }
{
    match stage {
        Stage::Before => behind_plain_factors(names, line),
        _ => line,
    }
}

/// The product of factors with those that come next, and what is left of the line.
pub(crate) fn with_plain_factors<'a>(
    names: &IndexSet<Name>,
    before: Recipe,
    line: &'a [u8],
) -> Result<(Recipe, &'a [u8]), Stop>
    requires { AreGenerators names.now.keys }
    ensures { MatchResult result (λ found. FactorsRunOn names.now.keys line.now found.1.now before found.0)
        (Refuses (FactorsStopAt names.now.keys before line.now)) }
{
    let mut word = before;
    let mut rest = line;
    while let Some((place, after)) = plain_factor(names, rest) {
        word = joined_letter(word, place)?;
        rest = after;
    }
    Ok((word, rest))
}
