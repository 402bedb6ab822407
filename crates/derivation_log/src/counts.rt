//! A log of numbers of rows.

ghost use Rattle.std.specs.Prelude.{◌≡◌, true, []};
ghost use Rattle.derivation_log.specs.RowCounts.{counts_of};

use crate::log::Log;
use crate::source::{RowSource, Run};
use fp_echelon::Basis;
use pq_base::NoMemory;
use std::alloc::Global;
use std::marker::Model;

/// A log that keeps how many rows each step added, over all tails and all overlaps.
#[derive(Debug, Drop)]
pub struct RowCounts {
    iterated: Vec<usize>,
    whole: Vec<usize>,
}

impl Model for RowCounts {
    ghost use Rattle.derivation_log.specs.RowCounts.{CountsOfRuns};

    ghost Value = { CountsOfRuns };

    ghost view = { λ c. record { iterated = c.iterated.items; whole = c.whole.items } };
}

impl RowCounts {
    /// A log that keeps no step yet.
    pub fn new(alloc: Global) -> RowCounts
        ensures { result ≡ record { iterated = []; whole = [] } }
    {
        RowCounts {
            iterated: Vec::new(alloc),
            whole: Vec::new(alloc),
        }
    }

    /// How many rows each step of a run added.
    pub fn of(&self, run: Run) -> &[usize]
        ensures { result.now ≡ counts_of self.now run }
    {
        match run {
            Run::Iterated => self.iterated.as_slice(),
            Run::Whole => self.whole.as_slice(),
        }
    }
}

impl Log for RowCounts {
    ghost use Rattle.derivation_log.specs.RowCounts.{HasCounts};

    const FULL: bool = true;

    ghost FULL = { true };

    ghost keeps = { HasCounts };

    fn step(
        &mut self,
        run: Run,
        _class: u8,
        sources: &[RowSource],
        _basis: &Basis,
    ) -> Result<(), NoMemory> {
        match run {
            Run::Iterated => self.iterated.push(sources.len())?,
            Run::Whole => self.whole.push(sources.len())?,
        }
        Ok(())
    }
}
