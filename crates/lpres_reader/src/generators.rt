//! The line of the generators.

ghost use Rattle.std.specs.Prelude.{◌≡◌, ◌<◌, [], All, MatchOption, MatchResult, None, Some, length};
ghost use Rattle.pq_base.specs.Name.{IsNameText};
ghost use Rattle.pq_base.specs.LPresentation.{AreDistinct};
ghost use Rattle.lpres_reader.specs.declared.fault.Kind.TheVariants.{Syntax as SyntaxFault, RepeatedName as RepeatedFault};
ghost use Rattle.lpres_reader.specs.Faults.{LineFault};
ghost use Rattle.lpres_reader.specs.GeneratorNames.{line_names, names_at, names_on, named_first, names_from, texts_of, PassesFirst};
ghost use Rattle.lpres_reader.specs.GeneratorNames.{AreWithin};
ghost use Rattle.lpres_reader.specs.Tokens.{symbol as symbol_token};
ghost use Rattle.lpres_reader.specs.Makes.{Makes};
ghost use Rattle.lpres_reader.specs.Presentations.{AreGenerators};
ghost use Rattle.lpres_reader.specs.Verdicts.{bare};
ghost use Rattle.lpres_reader.specs.Stops.{Refuses, kind_of};

use crate::depth::is_shallow;
use crate::fault::{Kind, Stop, Which};
use crate::named::Named;
use crate::presentation::LPres;
use crate::token::{Symbol, Token, next_name, next_token};
use indexmap::IndexSet;
use pq_base::limits::GENERATORS;
use pq_base::{Name, names_copied};
use std::alloc::Global;

/// The name behind a symbol, which has to be a comma, and what is behind that name.
fn name_behind_symbol(symbol: Symbol, rest: &[u8]) -> Result<(&[u8], &[u8]), Stop>
    ensures { MatchResult result
        (λ found. (names_from (symbol_token symbol) rest.now ≡ named_first found.0.now (names_on found.1.now))
        × (length found.1.now < length rest.now))
        (Refuses (λ k. (k ≡ SyntaxFault) × (names_from (symbol_token symbol) rest.now ≡ None))) }
{
    match symbol {
        Symbol::Comma => next_name(rest),
        _ => Err(Stop::Fault(Kind::Syntax)),
    }
}

/// The name behind another and what is behind it, or `None` where only blanks are left.
fn name_behind(line: &[u8]) -> Result<Option<(&[u8], &[u8])>, Stop>
    ensures { MatchResult result
        (λ found. MatchOption found
        (names_on line.now ≡ Some [])
        (λ found. (names_on line.now ≡ named_first found.0.now (names_on found.1.now)) × (length found.1.now < length line.now)))
        (Refuses (λ k. (k ≡ SyntaxFault) × (names_on line.now ≡ None))) }
{
    let Some((token, rest)) = next_token(line)? else {
        return Ok(None);
    };
    match token {
        Token::Name(text) => Ok(Some((text, rest))),
        Token::Symbol(symbol) => Ok(Some(name_behind_symbol(symbol, rest)?)),
        Token::Number(_) => Err(Stop::Fault(Kind::Syntax)),
    }
}

/// What is behind the first token of a line of generators.
fn after_keyword(line: &[u8]) -> Result<&[u8], Stop>
    ensures { MatchResult result (λ after. line_names line.now ≡ names_at after.now)
        (Refuses (λ k. (k ≡ SyntaxFault) × (line_names line.now ≡ None))) }
{
    let (keyword, after) = next_name(line)?;
    if keyword == b"generators".as_slice() {
        Ok(after)
    } else {
        Err(Stop::Fault(Kind::Syntax))
    }
}

/// The names of a line of generators, as they stand there.
fn name_texts<'a>(alloc: Global, line: &'a [u8]) -> Result<Vec<&'a [u8]>, Stop>
    ensures { MatchResult result
        (λ texts. line_names line.now ≡ Some (texts_of texts.items))
        (Refuses (λ k. (k ≡ SyntaxFault) × (line_names line.now ≡ None))) }
{
    let (first, after) = next_name(after_keyword(line)?)?;
    let mut texts = Vec::new(alloc);
    texts.push(first)?;
    let mut rest = after;
    while let Some((text, after)) = name_behind(rest)? {
        texts.push(text)?;
        rest = after;
    }
    Ok(texts)
}

/// Refuses names of which one comes twice.
fn check_distinct(alloc: Global, texts: &[&[u8]]) -> Result<(), Stop>
    ensures { MatchResult result (λ _. AreDistinct (texts_of texts.now))
        (Refuses (λ k. (k ≡ RepeatedFault) × (¬ AreDistinct (texts_of texts.now)))) }
{
    let mut seen = IndexSet::new(alloc);
    for text in texts {
        if !seen.insert(*text)? {
            return Err(Stop::Fault(Kind::RepeatedName));
        }
    }
    Ok(())
}

/// The names, which differ, within the limits.
fn names_of(alloc: Global, texts: &[&[u8]]) -> Result<IndexSet<Name>, Stop>
    requires texts { All IsNameText (texts_of texts.now) }
    requires distinct { AreDistinct (texts_of texts.now) }
    ensures { MatchResult result (λ names. AreWithin (texts_of texts.now) names.keys) (Refuses (PassesFirst (texts_of texts.now))) }
{
    let mut names = IndexSet::new(alloc);
    for text in texts {
        let Some(name) = Name::of(*text) else {
            return Err(Stop::Fault(Kind::Limit(Which::Name, text.len() as u64)));
        };
        if names.len() >= GENERATORS {
            return Err(Stop::Fault(Kind::Limit(Which::Generators, names.len() as u64 + 1)));
        }
        names.insert(name)?;
    }
    Ok(names)
}

/// The names of the generators of a line.
fn read_names(alloc: Global, line: &[u8]) -> Result<IndexSet<Name>, Stop>
    ensures { MatchResult result
        (λ names. AreGenerators names.keys × Makes None line.now (bare names.keys))
        (Refuses (λ k. LineFault None line.now (kind_of k))) }
{
    if !is_shallow(line) {
        return Err(Stop::Fault(Kind::Deep));
    }
    let texts = name_texts(alloc, line)?;
    check_distinct(alloc, &texts)?;
    names_of(alloc, &texts)
}

/// The presentation that the first line makes, which has no relators.
pub fn read_first(alloc: Global, line: &[u8]) -> Result<Named, Stop>
    ensures { MatchResult result (Makes None line.now) (Refuses (λ k. LineFault None line.now (kind_of k))) }
{
    let names = read_names(alloc, line)?;
    let listed = names_copied(alloc, names.as_slice())?;
    let pres = LPres::of_parts(listed, Vec::new(alloc), Vec::new(alloc), Vec::new(alloc));
    Ok(Named::of(names, pres))
}
