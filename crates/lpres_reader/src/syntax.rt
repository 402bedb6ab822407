//! The form of a line, whatever its names and numbers are.

ghost use Rattle.std.specs.Prelude.{◌≡◌, [], ◌&&◌, MatchResult, Err};
ghost use Rattle.lpres_reader.specs.declared.fault.Stop.TheVariants.{Fault as Faulty};
ghost use Rattle.lpres_reader.specs.declared.fault.Kind.TheVariants.{Syntax as SyntaxFault};
ghost use Rattle.lpres_reader.specs.Front.{token_of};
ghost use Rattle.lpres_reader.specs.Faults.{ItemForm};
ghost use Rattle.lpres_reader.specs.Known.{IsChecked};
ghost use Rattle.lpres_reader.specs.Presentations.{AreGenerators};
ghost use Rattle.lpres_reader.specs.Stops.{Refuses};
ghost use Rattle.lpres_reader.specs.declared.syntax.Outer.TheVariants.{Relators};
ghost use Rattle.lpres_reader.specs.Forms.{Found, form, unit_form, outer_form, bracket_form, word_form, behind_form, factor_form};
ghost use Rattle.lpres_reader.specs.Forms.{exponent_form, form_step, first_form, is_behind, nothing_open};

use crate::brackets::{Bracket, Brackets};
use crate::fault::{Kind, Stop};
use crate::known::are_known;
use crate::plain::passed_over;
use crate::token::{Symbol, Token, next_name, next_token};
use indexmap::IndexSet;
use pq_base::Name;
use std::alloc::Global;

/// What the next token stands behind.
#[derive(Clone, Copy)]
pub(crate) enum Stage {
    /// A comma between arrows, or `endo`.
    Start,
    /// The name from which an arrow goes.
    From,
    /// What is before a factor.
    Before,
    /// A `^`.
    Caret,
    /// A `^` and a minus.
    Minus,
    /// A factor.
    Behind,
}

/// What stands on a line. A relator may have the left side of an equation already.
#[derive(Clone, Copy)]
pub(crate) enum Outer {
    Relators(bool),
    Arrows,
}

/// The form of a line so far.
#[derive(Drop)]
pub(crate) struct Form {
    stage: Stage,
    outer: Outer,
    brackets: Brackets,
}

/// No token of this sort may come here.
fn no_form<T>() -> Result<T, Stop>
    ensures { result ≡ Err (Faulty SyntaxFault) }
{
    Err(Stop::Fault(Kind::Syntax))
}

/// The form behind the first token of a line.
fn begin(alloc: Global, keyword: &[u8]) -> Result<Form, Stop>
    ensures { Found result (first_form keyword.now) }
{
    if keyword == b"fixed".as_slice() || keyword == b"iterated".as_slice() {
        Ok(form_at(Stage::Before, Outer::Relators(false), Brackets::none(alloc)))
    } else if keyword == b"endo".as_slice() {
        Ok(form_at(Stage::Start, Outer::Arrows, Brackets::none(alloc)))
    } else {
        no_form()
    }
}

fn form_at(stage: Stage, outer: Outer, brackets: Brackets) -> Form
    ensures { result ≡ form stage outer brackets }
{
    Form {
        stage,
        outer,
        brackets,
    }
}

/// A token that begins a unit.
fn unit_step(outer: Outer, brackets: Brackets, token: Token) -> Result<Form, Stop>
    ensures { Found result (unit_form outer brackets (token_of token.entry)) }
{
    match token {
        Token::Name(_) => Ok(form_at(Stage::Behind, outer, brackets)),
        Token::Symbol(Symbol::OpenRound) => {
            Ok(form_at(Stage::Before, outer, brackets.push(Bracket::Round)?))
        }
        Token::Symbol(Symbol::OpenSquare) => {
            Ok(form_at(Stage::Before, outer, brackets.push(Bracket::Square(false))?))
        }
        _ => no_form(),
    }
}

/// A symbol behind a word among relators, which may be the right side of an equation.
fn relators_step(has_left: bool, brackets: Brackets, symbol: Symbol) -> Result<Form, Stop>
    requires { brackets ≡ [] }
    ensures { Found result (outer_form (Relators has_left) symbol) }
{
    match symbol {
        Symbol::Equals if !has_left => {
            Ok(form_at(Stage::Before, Outer::Relators(true), brackets))
        }
        Symbol::Comma => Ok(form_at(Stage::Before, Outer::Relators(false), brackets)),
        _ => no_form(),
    }
}

/// A symbol behind a word in no brackets.
fn outer_step(outer: Outer, brackets: Brackets, symbol: Symbol) -> Result<Form, Stop>
    requires { brackets ≡ [] }
    ensures { Found result (outer_form outer symbol) }
{
    match outer {
        Outer::Relators(has_left) => relators_step(has_left, brackets, symbol),
        Outer::Arrows => match symbol {
            Symbol::Comma => Ok(form_at(Stage::Start, Outer::Arrows, brackets)),
            _ => no_form(),
        },
    }
}

/// A symbol behind a word in a bracket, around which others are open.
fn bracket_step(
    bracket: Bracket,
    outer: Outer,
    brackets: Brackets,
    symbol: Symbol,
) -> Result<Form, Stop>
    ensures { Found result (bracket_form bracket outer brackets symbol) }
{
    match (bracket, symbol) {
        (Bracket::Round, Symbol::CloseRound) => Ok(form_at(Stage::Behind, outer, brackets)),
        (Bracket::Square(_), Symbol::Comma) => {
            Ok(form_at(Stage::Before, outer, brackets.push(Bracket::Square(true))?))
        }
        (Bracket::Square(true), Symbol::CloseSquare) => Ok(form_at(Stage::Behind, outer, brackets)),
        _ => no_form(),
    }
}

/// A symbol behind a word.
fn word_step(alloc: Global, outer: Outer, brackets: Brackets, symbol: Symbol) -> Result<Form, Stop>
    ensures { Found result (word_form outer brackets symbol) }
{
    match brackets.pop() {
        None => outer_step(outer, Brackets::none(alloc), symbol),
        Some((bracket, brackets)) => bracket_step(bracket, outer, brackets, symbol),
    }
}

/// A token behind a factor.
fn behind_step(alloc: Global, outer: Outer, brackets: Brackets, token: Token) -> Result<Form, Stop>
    ensures { Found result (behind_form outer brackets (token_of token.entry)) }
{
    match token {
        Token::Symbol(Symbol::Caret) => Ok(form_at(Stage::Caret, outer, brackets)),
        Token::Symbol(Symbol::Star) => Ok(form_at(Stage::Before, outer, brackets)),
        Token::Symbol(symbol) => word_step(alloc, outer, brackets, symbol),
        _ => no_form(),
    }
}

/// A token at the front of a factor.
fn factor_step(outer: Outer, brackets: Brackets, token: Token) -> Result<Form, Stop>
    ensures { Found result (factor_form outer brackets (token_of token.entry)) }
{
    match token {
        Token::Number(digits) => {
            if digits == b"1".as_slice() {
                Ok(form_at(Stage::Behind, outer, brackets))
            } else {
                no_form()
            }
        }
        token => unit_step(outer, brackets, token),
    }
}

/// A token behind a `^`.
fn exponent_step(outer: Outer, brackets: Brackets, token: Token) -> Result<Form, Stop>
    ensures { Found result (exponent_form outer brackets (token_of token.entry)) }
{
    match token {
        Token::Number(_) => Ok(form_at(Stage::Behind, outer, brackets)),
        Token::Symbol(Symbol::Minus) => Ok(form_at(Stage::Minus, outer, brackets)),
        token => unit_step(outer, brackets, token),
    }
}

/// The form with one token more.
fn step(alloc: Global, so_far: Form, token: Token) -> Result<Form, Stop>
    ensures { Found result (form_step so_far (token_of token.entry)) }
{
    let Form {
        stage,
        outer,
        brackets,
    } = so_far;
    match stage {
        Stage::Start => match token {
            Token::Name(_) => Ok(form_at(Stage::From, outer, brackets)),
            _ => no_form(),
        },
        Stage::From => match token {
            Token::Symbol(Symbol::Arrow) => Ok(form_at(Stage::Before, outer, brackets)),
            _ => no_form(),
        },
        Stage::Before => factor_step(outer, brackets, token),
        Stage::Caret => exponent_step(outer, brackets, token),
        Stage::Minus => match token {
            Token::Number(_) => Ok(form_at(Stage::Behind, outer, brackets)),
            _ => no_form(),
        },
        Stage::Behind => behind_step(alloc, outer, brackets, token),
    }
}

/// Whether a line may end here.
fn is_whole(so_far: Form) -> bool
    ensures { result ≡ (is_behind so_far.stage && nothing_open so_far.brackets) }
{
    matches!(so_far.stage, Stage::Behind) && so_far.brackets.pop().is_none()
}

/// Refuses a line that has no form of an item, and tells whether all names behind its first token are generators.
pub(crate) fn check_form(alloc: Global, names: &IndexSet<Name>, line: &[u8]) -> Result<bool, Stop>
    requires { AreGenerators names.now.keys }
    ensures { MatchResult result (IsChecked names.now.keys line.now) (Refuses (λ k. (k ≡ SyntaxFault) × (¬ ItemForm line.now))) }
{
    let (keyword, behind) = next_name(line)?;
    let mut so_far = begin(alloc, keyword)?;
    let mut known = true;
    let mut rest = behind;
    while let Some((token, after)) = next_token(rest)? {
        so_far = step(alloc, so_far, token)?;
        known = are_known(names, known, token);
        rest = passed_over(names, so_far.stage, after);
    }
    if is_whole(so_far) {
        Ok(known)
    } else {
        no_form()
    }
}
