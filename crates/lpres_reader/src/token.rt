//! The tokens of a line: names, numbers and symbols.

ghost use Rattle.std.specs.Prelude.{◌≡◌, ◌≤◌, ◌∷◌, length, MatchOption, MatchResult};
ghost use Rattle.std.specs.Char.{is_ascii_digit};
ghost use Rattle.std.specs.List.{prefix_len};
ghost use Rattle.pq_base.specs.Name.{is_name_byte};
ghost use Rattle.lpres_reader.specs.Front.{token_of, line_end, no_token, token_first, symbol_of, front_at_minus, front_at, front_of};
ghost use Rattle.lpres_reader.specs.Front.{IsNamed};
ghost use Rattle.lpres_reader.specs.Tokens.{name};
ghost use Rattle.lpres_reader.specs.Stops.{Refuses};
ghost use Rattle.lpres_reader.specs.declared.fault.Kind.TheVariants.{Syntax as SyntaxFault};

use crate::fault::{Kind, Stop};
use crate::line::after_blanks;
use pq_base::name::{is_letter, is_name_byte};

/// A token that is neither a name nor a number.
#[derive(Clone, Copy)]
pub enum Symbol {
    Arrow,
    Star,
    Caret,
    Minus,
    Equals,
    Comma,
    OpenRound,
    CloseRound,
    OpenSquare,
    CloseSquare,
}

/// A token, as it stands in its line.
#[derive(Clone, Copy)]
pub enum Token<'a> {
    Name(&'a [u8]),
    Number(&'a [u8]),
    Symbol(Symbol),
}

/// No token begins here.
#[derive(Clone, Copy)]
pub struct NoToken;

/// The symbol of one byte, but for the minus.
fn symbol_of(byte: u8) -> Option<Symbol>
    ensures { result ≡ symbol_of byte }
{
    match byte {
        b'*' => Some(Symbol::Star),
        b'^' => Some(Symbol::Caret),
        b'=' => Some(Symbol::Equals),
        b',' => Some(Symbol::Comma),
        b'(' => Some(Symbol::OpenRound),
        b')' => Some(Symbol::CloseRound),
        b'[' => Some(Symbol::OpenSquare),
        b']' => Some(Symbol::CloseSquare),
        _ => None,
    }
}

/// How many bytes at the front of a line may stand in a name.
#[tactic(auto, using(crate::proofs::texts::LineLemmas::prefix_le))]
pub(crate) fn name_length(line: &[u8]) -> usize
    ensures length { result ≡ prefix_len is_name_byte line.now }
    ensures within { result ≤ length line.now }
{
    line.iter().take_while(|byte| is_name_byte(**byte)).count()
}

#[tactic(auto, using(crate::proofs::texts::LineLemmas::prefix_le))]
fn number_length(line: &[u8]) -> usize
    ensures length { result ≡ prefix_len is_ascii_digit line.now }
    ensures within { result ≤ length line.now }
{
    line.iter().take_while(|byte| byte.is_ascii_digit()).count()
}

/// The symbol that begins with a minus, with what is behind that minus.
fn symbol_at_minus(rest: &[u8]) -> (Symbol, &[u8])
    ensures { front_at_minus rest.now ≡ token_first (token_of (Token.Symbol result.0)) result.1.now }
{
    match rest {
        [b'>', rest @ ..] => (Symbol::Arrow, rest),
        _ => (Symbol::Minus, rest),
    }
}

/// The token at the front of a line that begins with no blank, and what is behind it.
fn token_at<'a>(first: u8, rest: &'a [u8], line: &'a [u8]) -> Result<(Token<'a>, &'a [u8]), NoToken>
    requires { line.now ≡ first ∷ rest.now }
    ensures { MatchResult result
        (λ found. front_at first rest.now ≡ token_first (token_of found.0) found.1.now)
        (λ _. front_at first rest.now ≡ no_token) }
{
    if is_letter(first) {
        let (text, rest) = line.split_at(name_length(line));
        Ok((Token::Name(text), rest))
    } else if first.is_ascii_digit() {
        let (text, rest) = line.split_at(number_length(line));
        Ok((Token::Number(text), rest))
    } else if first == b'-' {
        let (symbol, rest) = symbol_at_minus(rest);
        Ok((Token::Symbol(symbol), rest))
    } else {
        match symbol_of(first) {
            Some(symbol) => Ok((Token::Symbol(symbol), rest)),
            None => Err(NoToken),
        }
    }
}

/// The first token of a line and what is behind it, or `None` where only blanks are left.
pub(crate) fn next_token(line: &[u8]) -> Result<Option<(Token<'_>, &[u8])>, NoToken>
    ensures { MatchResult result
        (λ found. MatchOption found
        (front_of line.now ≡ line_end)
        (λ found. front_of line.now ≡ token_first (token_of found.0) found.1.now))
        (λ _. front_of line.now ≡ no_token) }
{
    let line = after_blanks(line);
    match line {
        [] => Ok(None),
        [first, rest @ ..] => Ok(Some(token_at(*first, rest, line)?)),
    }
}

/// The name at the front of a line, and what is behind it.
pub(crate) fn next_name(line: &[u8]) -> Result<(&[u8], &[u8]), Stop>
    ensures { MatchResult result (λ found. front_of line.now ≡ token_first (name found.0.now) found.1.now)
        (Refuses (λ k. (k ≡ SyntaxFault) × (¬ IsNamed (front_of line.now)))) }
{
    match next_token(line)? {
        Some((Token::Name(text), rest)) => Ok((text, rest)),
        _ => Err(Stop::Fault(Kind::Syntax)),
    }
}
