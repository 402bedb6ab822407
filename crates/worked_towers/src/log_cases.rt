//! What a log is told. `fixed N` and `iterated N / PATH` are the sources of the rows of relators, and `told`
//! tells the empty log of a step.

use anyhow::{Result, bail};
use case_lists::Cases;
use case_lists::text::{halves, numbers, show_numbers};
use derivation_log::{Log, NoLog, RowSource, Run};
use fp_echelon::Basis;
use pq_base::{Path, Prime};
use std::alloc::Global;
use tower::Relator;

#[derive(Drop)]
pub(crate) struct LogCases {
    alloc: Global,
}

impl Cases for LogCases {
    fn new(alloc: Global) -> LogCases {
        LogCases { alloc }
    }

    fn act(&mut self, verb: &str, rest: &str, out: &mut String) -> Result<()> {
        match verb {
            "fixed" => show_source(self.alloc, Relator::Fixed(rest.parse::<u32>()?), out),
            "iterated" => {
                let (number, path) = halves(rest, "/")?;
                let path = Path::of(self.alloc, &numbers::<u8>(self.alloc, path)?)?;
                show_source(
                    self.alloc,
                    Relator::Iterated(number.parse::<u32>()?, path),
                    out,
                )
            }
            "told" => show_told(self.alloc, out),
            _ => bail!("no such verb"),
        }
    }
}

fn show_source(alloc: Global, relator: Relator, out: &mut String) -> Result<()> {
    match relator.source(alloc)? {
        RowSource::Test(overlap) => writeln!(out, "    {overlap:?}")?,
        RowSource::Fixed(number) => writeln!(out, "    fixed {number}")?,
        RowSource::Iterated(number, path) => {
            write!(out, "    iterated {number} along")?;
            show_numbers(out, path.numbers())?;
            out.push('\n')?;
        }
    }
    Ok(())
}

fn show_told(alloc: Global, out: &mut String) -> Result<()> {
    let basis = Basis::new(alloc, Prime::P2, 3)?;
    NoLog.step(Run::Whole, 2, &[], &basis)?;
    writeln!(out, "    told")?;
    Ok(())
}
