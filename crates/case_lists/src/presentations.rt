//! Presentations and primes as cases write them.

ghost use Rattle.std.specs.Prelude.{IfOk};
ghost use Rattle.lpres_reader.specs.Reads.{Reads};

use anyhow::{Result, bail};
use lpres_reader::{LPres, ReadRefusal, read};
use pq_base::Prime;
use std::alloc::Global;

/// What a text that isn't too long reads as.
pub fn read_short(alloc: Global, text: &[u8]) -> Result<Result<LPres, ReadRefusal>>
    ensures { IfOk result (λ read. IfOk read (Reads text.now)) }
{
    if text.len() > 10_000_000 {
        bail!("too long");
    }
    Ok(read(alloc, text))
}

/// The prime that a text is.
pub fn prime_of(text: &str) -> Result<Prime> {
    match Prime::of(text.trim().parse::<u8>()?) {
        Some(prime) => Ok(prime),
        None => bail!("no prime"),
    }
}
