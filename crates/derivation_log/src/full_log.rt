//! A log of what a certificate needs.

ghost use Rattle.std.specs.Prelude.{◌≡◌, ◌≤◌, true, false, [], IfOk};
ghost use Rattle.pq_base.specs.Limits.{max_class};
ghost use Rattle.pq_base.specs.Prime.{prime_value};
ghost use Rattle.derivation_log.specs.declared.source.Run.{Run};
ghost use Rattle.derivation_log.specs.Certificates.{has_two_runs};
ghost use Rattle.derivation_log.specs.CertificateForms.{first_version};
ghost use Rattle.derivation_log.specs.HeldLines.{KeepsLines, HoldsFitting};

use crate::certificate::Cert;
use crate::lines::told_lines;
use crate::log::Log;
use crate::source::{RowSource, Run};
use crate::step_lines::CertStep;
use fp_echelon::Basis;
use lpres_reader::LPres;
use pc_presentation::Answer;
use pq_base::{NoMemory, Prime};
use std::alloc::Global;
use std::marker::Model;

/// A log that keeps the sources of each step and the tails that its basis eliminates, over all tails and all overlaps. The rows
/// themselves are not kept.
#[derive(Debug, Drop)]
pub struct FullLog {
    iterated: Vec<CertStep>,
    whole: Vec<CertStep>,
}

impl Model for FullLog {
    ghost use Rattle.derivation_log.specs.HeldLines.{LinesOfRuns};

    ghost Value = { LinesOfRuns };

    ghost view = { λ l. record { iterated = l.iterated.items; whole = l.whole.items } };
}

impl FullLog {
    /// A log that keeps no step yet.
    pub fn new(alloc: Global) -> FullLog
        ensures { result ≡ record { iterated = []; whole = [] } }
    {
        FullLog {
            iterated: Vec::new(alloc),
            whole: Vec::new(alloc),
        }
    }

    /// The certificate of the steps that the log keeps, for a presentation, a prime, a class and their answer.
    ///
    /// The steps have this prime, and sources that may be named; the iterated run has none unless there are fixed relators and
    /// endomorphisms. The log is dropped on refusal.
    pub fn finish(
        self,
        pres: &LPres,
        prime: Prime,
        asked: u8,
        answer: &Answer,
    ) -> Result<Cert, NoMemory>
        requires class_from_one { 1 ≤ asked }
        requires class_limit { asked ≤ max_class }
        requires prime { answer.now.presentation.prime ≡ prime_value prime }
        requires names { answer.now.names ≡ pres.now.names }
        requires steps { (run : Run) → HoldsFitting pres.now (prime_value prime) run (KeepsLines self run) }
        requires one_run { has_two_runs pres.now ≡ false → self.iterated ≡ [] }
        ensures { IfOk result (λ c. c ≡ first_version pres.now (prime_value prime) asked self.iterated self.whole answer.now) }
    {
        let pres = pres.duplicate()?;
        let answer = answer.duplicate()?;
        match Cert::of(pres, prime, asked, self.iterated, self.whole, answer) {
            Some(cert) => Ok(cert),
            None => unreachable!(),
        }
    }
}

impl Log for FullLog {
    const FULL: bool = true;

    ghost FULL = { true };

    ghost keeps = { KeepsLines };

    fn step(
        &mut self,
        run: Run,
        _class: u8,
        sources: &[RowSource],
        basis: &Basis,
    ) -> Result<(), NoMemory> {
        let step = told_lines(*self.iterated.allocator(), sources, basis)?;
        match run {
            Run::Iterated => self.iterated.push(step)?,
            Run::Whole => self.whole.push(step)?,
        }
        Ok(())
    }
}
