//! Reading a text, from the left to the right and a line at a time.

ghost use Rattle.std.specs.Prelude.{◌≡◌, ◌<◌, ◌-◌, ◌^◌, ◌↔◌, [], length, IsTrue, IfOk, IfErr, MatchOption, MatchResult};
ghost use Rattle.lpres_reader.specs.Front.{front_of};
ghost use Rattle.lpres_reader.specs.Lines.{content_of};
ghost use Rattle.lpres_reader.specs.Faults.{HasGenerators};
ghost use Rattle.lpres_reader.specs.NextLine.{LeadsTo, StopsBy};
ghost use Rattle.lpres_reader.specs.Reads.{Reads};
ghost use Rattle.lpres_reader.specs.Refusals.{IsRefusedBy, refusal_at};
ghost use Rattle.lpres_reader.specs.Stops.{Refuses};
ghost use Rattle.lpres_reader.specs.Verdicts.{is_generators};

use crate::fault::{Kind, Stop, TextFault};
use crate::generators::read_first;
use crate::line::{cut_line, is_skipped, line_count};
use crate::named::Named;
use crate::presentation::LPres;
use crate::refusal::ReadRefusal;
use crate::token::{Token, next_token};
use std::alloc::Global;

/// Whether a line begins with `generators`.
fn is_generators(line: &[u8]) -> bool
    ensures { result ≡ is_generators (front_of line.now) }
{
    match next_token(line) {
        Ok(Some((Token::Name(text), _))) => text == b"generators".as_slice(),
        _ => false,
    }
}

/// Whether a line of a text begins with `generators`.
fn has_generators(text: &[u8]) -> bool
    ensures { IsTrue result ↔ HasGenerators text.now }
{
    let mut left = Some(text);
    while let Some(text) = left {
        let (line, after) = cut_line(text);
        if is_generators(line) {
            return true;
        }
        left = after;
    }
    false
}

/// Why a text is refused that has no line of generators: its last line does not go on.
fn no_generators(text: &[u8]) -> ReadRefusal
    requires small { length text.now < 2 ^ 32 - 1 }
    requires never { ¬ HasGenerators text.now }
    ensures { IsRefusedBy text.now result }
{
    ReadRefusal::Text(TextFault {
        line: line_count(text),
        kind: Kind::Syntax,
    })
}

/// Why a text is refused that cannot go on at this line.
fn refusal_at(line: u32, stop: Stop) -> ReadRefusal
    ensures { result ≡ refusal_at line stop }
{
    match stop {
        Stop::Fault(kind) => ReadRefusal::Text(TextFault { line, kind }),
        Stop::NoMemory => ReadRefusal::NoMemory,
    }
}

/// What the lines so far are with one line more.
fn read_line(alloc: Global, so_far: Option<Named>, line: &[u8]) -> Result<Option<Named>, Stop>
    ensures { MatchResult result (LeadsTo so_far line.now) (Refuses (StopsBy so_far line.now)) }
{
    if is_skipped(line) {
        return Ok(so_far);
    }
    match so_far {
        None => Ok(Some(read_first(alloc, line)?)),
        Some(named) => Ok(Some(named.with_line(alloc, line)?)),
    }
}

/// What all lines are together: a presentation, or nothing.
fn read_lines(alloc: Global, text: &[u8]) -> Result<Option<Named>, ReadRefusal>
    requires small { length text.now < 2 ^ 32 - 1 }
    requires generators { HasGenerators text.now }
    ensures { MatchResult result (λ found. MatchOption found (content_of text.now ≡ []) (Reads text.now)) (IsRefusedBy text.now) }
{
    let mut so_far = None;
    let mut count: u32 = 0;
    let mut left = Some(text);
    while let Some(text) = left {
        let (line, after) = cut_line(text);
        count += 1;
        so_far = match read_line(alloc, so_far, line) {
            Ok(next) => next,
            Err(stop) => return Err(refusal_at(count, stop)),
        };
        left = after;
    }
    Ok(so_far)
}

/// The presentation that a text is, or the line and kind of its first fault. A text without a line of generators has its
/// fault at its last line. There is no limit on bytes but the one that is required.
pub fn read(alloc: Global, text: &[u8]) -> Result<LPres, ReadRefusal>
    requires { length text.now < 2 ^ 32 - 1 }
    ensures reads { IfOk result (λ pres. Reads text.now pres) }
    ensures refused { IfErr result (IsRefusedBy text.now) }
{
    if has_generators(text) {
        if let Some(named) = read_lines(alloc, text)? {
            return Ok(named.into_pres());
        }
    }
    Err(no_generators(text))
}
