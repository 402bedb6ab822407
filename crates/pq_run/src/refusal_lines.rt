//! The lines that say why a command is refused.

ghost use Rattle.std.specs.Prelude.{◌≡◌, IfOk, string_bytes};
ghost use Rattle.lpres_reader.specs.declared.fault.Kind.TheVariants.{Limit as PastLimit};
ghost use Rattle.pq_run.specs.Refusals.{too_long_line, too_large_line, computed_text, fault_line, kind_text, limit_text};
ghost use Rattle.pq_run.specs.Refusals.{certificate_line, failing_part_line, run_text, part_text};

use crate::input::Input;
use derivation_log::{Part, Run};
use lpres_reader::{Kind, TextFault, Which};
use pq_base::NoMemory;
use pq_base::limits::RANK;
use std::alloc::Global;

/// The line that says that an input is too long.
pub(crate) fn too_long_line(input: Input) -> &'static [u8]
    ensures { result.now ≡ too_long_line input }
{
    match input {
        Input::Presentation => b"refused: input above 4194304 bytes\n",
        Input::Certificate => b"refused: input above 268435456 bytes\n",
    }
}

/// The line that says that a rank is too large.
pub(crate) fn too_large_line(
    alloc: Global,
    run: Run,
    class: u8,
    rank: u32,
) -> Result<Vec<u8>, NoMemory>
    ensures { IfOk result (λ line. line.items ≡ too_large_line run class rank) }
{
    let computed = computed_text(run);
    let text = format!(in alloc;
        "refused: rank {rank} above {RANK} at class {class} of the {computed}\n"
    )?;
    Ok(text.into_bytes())
}

/// How the line of a rank that is too large names what a run computes.
fn computed_text(run: Run) -> &'static str
    ensures { result.now ≡ computed_text run }
{
    match run {
        Run::Iterated => "iterated part",
        Run::Whole => "whole",
    }
}

/// The line that says where bytes that are no certificate have their first fault.
pub(crate) fn certificate_line(alloc: Global, number: u32) -> Result<Vec<u8>, NoMemory>
    ensures { IfOk result (λ line. line.items ≡ certificate_line number) }
{
    let text = format!(in alloc; "refused: certificate line {number}\n")?;
    Ok(text.into_bytes())
}

/// The line that says which part of a certificate is the first that fails.
pub(crate) fn failing_part_line(
    alloc: Global,
    run: Run,
    class: u8,
    part: Part,
) -> Result<Vec<u8>, NoMemory>
    ensures { IfOk result (λ line. line.items ≡ failing_part_line run class part) }
{
    let run = run_text(run);
    let part = part_text(part);
    let text = format!(in alloc; "refused: certificate run {run} class {class} {part}\n")?;
    Ok(text.into_bytes())
}

/// How the line of a failing part names its run.
fn run_text(run: Run) -> &'static str
    ensures { result.now ≡ run_text run }
{
    match run {
        Run::Iterated => "iterated",
        Run::Whole => "whole",
    }
}

/// How that line names the part.
fn part_text(part: Part) -> &'static str
    ensures { result.now ≡ part_text part }
{
    match part {
        Part::Extra => "extra",
        Part::Row => "row",
        Part::Sum => "sum",
        Part::Rank => "rank",
        Part::Short => "short",
        Part::Overlap => "overlap",
        Part::Iterated => "iterated",
        Part::Endo => "endo",
        Part::Fixed => "fixed",
        Part::Map => "map",
        Part::Answer => "answer",
    }
}

/// The line that says where a text has its first fault, and what it is.
pub(crate) fn fault_line(alloc: Global, fault: TextFault) -> Result<Vec<u8>, NoMemory>
    ensures { IfOk result (λ line. line.items ≡ fault_line fault) }
{
    let line = fault.line;
    let kind = kind_text(alloc, fault.kind)?;
    let text = format!(in alloc; "refused: line {line}: {kind}\n")?;
    Ok(text.into_bytes())
}

/// What is wrong with a line of a text.
fn kind_text(alloc: Global, kind: Kind) -> Result<String, NoMemory>
    ensures { IfOk result (λ text. string_bytes text ≡ kind_text kind) }
{
    let text = match kind {
        Kind::Deep => "too deep",
        Kind::Syntax => "syntax",
        Kind::UnknownName => "unknown name",
        Kind::RepeatedName => "repeated name",
        Kind::Limit(which, number) => return past_limit_text(alloc, which, number),
        Kind::NotAllImages => "not all images",
    };
    Ok(String::from_str(alloc, text)?)
}

/// That a limit is passed by a number.
fn past_limit_text(alloc: Global, which: Which, number: u64) -> Result<String, NoMemory>
    ensures { IfOk result (λ text. string_bytes text ≡ kind_text (PastLimit which number)) }
{
    let limit = limit_text(which);
    Ok(format!(in alloc; "limit {limit} {number}")?)
}

/// What is limited.
fn limit_text(which: Which) -> &'static str
    ensures { result.now ≡ limit_text which }
{
    match which {
        Which::Name => "name",
        Which::Generators => "generators",
        Which::Fixed => "fixed",
        Which::Iterated => "iterated",
        Which::Endos => "endos",
        Which::Exponent => "exponent",
        Which::Letters => "letters",
        Which::Total => "total",
    }
}
