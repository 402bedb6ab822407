//! A line after the generators.

ghost use Rattle.std.specs.Prelude.{◌≡◌, ◌≤◌, MatchResult, Some};
ghost use Rattle.lpres_reader.specs.Faults.{LineFault};
ghost use Rattle.lpres_reader.specs.Makes.{Makes};
ghost use Rattle.lpres_reader.specs.Stops.{Refuses, kind_of};
ghost use Rattle.lpres_reader.specs.Passed.{first_value, first_arrow, GivesLine, ItemRead};
ghost use Rattle.lpres_reader.specs.Presentations.{AreGenerators};
ghost use Rattle.lpres_reader.specs.Values.{Given, RunsTo};

use crate::depth::is_shallow;
use crate::fault::{Kind, Stop, Which};
use crate::gathered::Gathered;
use crate::presentation::LPres;
use crate::steps::{plain_steps, step};
use crate::syntax::check_form;
use crate::token::{next_name, next_token};
use crate::value::{Value, at_arrows, at_relators};
use crate::word_ends::end;
use indexmap::IndexSet;
use pq_base::Name;
use pq_base::limits::ENDOS;
use std::alloc::Global;

/// What the tokens of a line give, behind what its first token makes.
fn gather(
    alloc: Global,
    names: &IndexSet<Name>,
    first: Value,
    line: &[u8],
) -> Result<Gathered, Stop>
    requires { AreGenerators names.now.keys }
    ensures { RunsTo names.now.keys first line.now result }
{
    let mut so_far = first;
    let mut rest = line;
    while let Some((token, after)) = next_token(rest)? {
        let stepped = step(alloc, names, so_far, token)?;
        let (next, left) = plain_steps(names, stepped, after)?;
        so_far = next;
        rest = left;
    }
    end(alloc, so_far)
}

/// What is meant behind the first token of a line.
fn first_value(alloc: Global, pres: &LPres, keyword: &[u8]) -> Result<Value, Stop>
    ensures { Given result (first_value pres.now keyword.now) }
{
    let total = pres.total_letters();
    if keyword == b"fixed".as_slice() {
        let count = pres.fixed_count();
        at_relators(alloc, Gathered::none(alloc, Which::Fixed, count, total))
    } else if keyword == b"iterated".as_slice() {
        let count = pres.iterated_count();
        at_relators(alloc, Gathered::none(alloc, Which::Iterated, count, total))
    } else if keyword == b"endo".as_slice() {
        first_arrow(alloc, pres.endos().len() + 1, total)
    } else {
        Err(Stop::Fault(Kind::Syntax))
    }
}

/// What is meant behind `endo` on the line of the endomorphism with this number.
fn first_arrow(alloc: Global, number: usize, total: usize) -> Result<Value, Stop>
    requires { total ≤ 4194304 }
    ensures { Given result (first_arrow number total) }
{
    if number > ENDOS {
        return Err(Stop::Fault(Kind::Limit(Which::Endos, number as u64)));
    }
    let none = Gathered::none(alloc, Which::Endos, 0, total);
    Ok(at_arrows(alloc, none))
}

/// What a line gives that has the form of an item, over names that are known.
fn read_formed(
    alloc: Global,
    names: &IndexSet<Name>,
    pres: &LPres,
    line: &[u8],
) -> Result<Gathered, Stop>
    requires generators { AreGenerators names.now.keys }
    requires names { names.now.keys ≡ pres.now.names }
    ensures { GivesLine pres.now line.now result }
{
    let (keyword, after) = next_name(line)?;
    let first = first_value(alloc, pres, keyword)?;
    gather(alloc, names, first, after)
}

/// What a line gives behind others.
pub fn read_item(
    alloc: Global,
    names: &IndexSet<Name>,
    pres: &LPres,
    line: &[u8],
) -> Result<Gathered, Stop>
    requires generators { AreGenerators names.now.keys }
    requires names { names.now.keys ≡ pres.now.names }
    ensures { MatchResult result (ItemRead pres.now line.now) (Refuses (λ k. LineFault (Some pres.now) line.now (kind_of k))) }
{
    if !is_shallow(line) {
        return Err(Stop::Fault(Kind::Deep));
    }
    let known = check_form(alloc, names, line)?;
    if !known {
        return Err(Stop::Fault(Kind::UnknownName));
    }
    read_formed(alloc, names, pres, line)
}

/// The presentation that a line makes of the one that is before it.
pub fn read_behind(
    alloc: Global,
    names: &IndexSet<Name>,
    pres: LPres,
    line: &[u8],
) -> Result<LPres, Stop>
    requires generators { AreGenerators names.now.keys }
    requires names { names.now.keys ≡ pres.names }
    ensures { MatchResult result (Makes (Some pres) line.now) (Refuses (λ k. LineFault (Some pres) line.now (kind_of k))) }
{
    let gathered = read_item(alloc, names, &pres, line)?;
    pres.with(alloc, gathered)
}
