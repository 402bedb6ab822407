//! Towers over the plain collector: what a line asks for, the runs that several kinds of case make, and how what they give is shown.

ghost use Rattle.std.specs.Prelude.{◌≡◌, ◌≤◌, [], IfOk};
ghost use Rattle.pq_base.specs.Limits.{max_class};

use anyhow::{Result, bail};
use case_lists::prime_of;
use case_lists::text::{halves, show_numbers};
use derivation_log::{RowCounts, Run};
use lpres_reader::LPres;
use pc_presentation::Answer;
use plain_collector::Plain;
use pq_base::Prime;
use pq_base::limits::CLASS;
use std::alloc::Global;
use tower::{TowerRefusal, largest};

/// The prime and the class that a text is.
pub(crate) fn prime_and_class(text: &str) -> Result<(Prime, u8)>
    ensures from_one { IfOk result (λ asked. 1 ≤ asked.1) }
    ensures most { IfOk result (λ asked. asked.1 ≤ max_class) }
{
    let (prime, class) = halves(text, " ")?;
    let prime = prime_of(prime)?;
    let class = class.parse::<u8>()?;
    if class == 0 || CLASS < class {
        bail!("no class");
    }
    Ok((prime, class))
}

/// The largest quotient of a presentation. The log is told of each class.
pub(crate) fn largest_of(
    alloc: Global,
    pres: &LPres,
    prime: Prime,
    class: u8,
    log: &mut RowCounts,
) -> Result<Answer, TowerRefusal>
    requires from_one { 1 ≤ class }
    requires most { class ≤ max_class }
    requires empty { log.old.whole ≡ [] }
    requires empty_part { log.old.iterated ≡ [] }
{
    largest::<Plain, RowCounts>(alloc, pres, prime, class, log)
}

/// Writes how many rows each class added, those of a run over the iterated part first, and behind which word.
pub(crate) fn show_counts(out: &mut String, kind: &str, log: &RowCounts) -> Result<()> {
    let part = log.of(Run::Iterated);
    if !part.is_empty() {
        write!(out, "    {kind}rows of the iterated part")?;
        show_numbers(out, part)?;
        out.push('\n')?;
    }
    write!(out, "    {kind}rows")?;
    show_numbers(out, log.of(Run::Whole))?;
    out.push('\n')?;
    Ok(())
}

/// Writes the rank that is too large.
pub(crate) fn show_refusal(refusal: TowerRefusal, out: &mut String) -> Result<()> {
    match refusal {
        TowerRefusal::TooLarge { run, class, rank } => {
            let part = match run {
                Run::Iterated => "iterated part",
                Run::Whole => "whole",
            };
            writeln!(
                out,
                "    rank {rank} is too large at class {class} of the {part}"
            )?;
            Ok(())
        }
        TowerRefusal::NoMemory => bail!("no memory"),
    }
}
