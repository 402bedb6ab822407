//! Judging a run of a certificate.

ghost use Rattle.std.specs.Prelude.{◌≡◌, ◌++◌, cond, [], ◌∷◌, length, IfOk, IfErr, OnOk};
ghost use Rattle.pq_base.specs.Joined.{IsConsistent};
ghost use Rattle.cover_quotient.specs.Stages.{full_cover_of};
ghost use Rattle.derivation_log.specs.declared.part.Part.TheVariants.{Short, Overlap, Iterated, Endo};
ghost use Rattle.derivation_log.specs.Certificates.{steps_of};
ghost use Rattle.derivation_log.specs.CertificateParts.{full_kind, built_by};
ghost use Rattle.derivation_log.specs.Validity.{Keeps, run_trials, judges_endos};
ghost use Rattle.cert_checker.specs.Judging.{AllPass, IsRefusedAt, parts_at, HasBuilt, trials_of_steps, endo_trials};

use crate::built::Built;
use crate::carried::carries;
use crate::endos::induce;
use crate::judged::judged_last;
use crate::overlaps::overlaps_agree;
use crate::refusal::CheckRefusal;
use crate::step::judge_step;
use derivation_log::{Cert, Part, Run};
use lpres_reader::LPres;
use pc_presentation::Answer;
use pq_base::NoMemory;
use std::alloc::Global;

/// Judges a run: its steps, and then the answer that they build.
pub(crate) fn judge_run(alloc: Global, cert: &Cert, run: Run) -> Result<Answer, CheckRefusal>
    ensures built { IfOk result (λ a. a ≡ built_by full_cover_of cert.now run) }
    ensures consistent { IfOk result (λ a. IsConsistent a.presentation) }
    ensures pass { OnOk result (AllPass cert.now (run_trials cert.now run)) }
    ensures refused { IfErr result (IsRefusedAt cert.now (run_trials cert.now run)) }
{
    let built = judge_steps(alloc, cert, run)?;
    judge_end(alloc, cert, run, &built)?;
    Ok(built.answer)
}

/// Judges the steps of a run, and makes the answer that they build.
fn judge_steps(alloc: Global, cert: &Cert, run: Run) -> Result<Built, CheckRefusal>
    ensures built { IfOk result (HasBuilt cert.now run (length (steps_of cert.now run))) }
    ensures pass { OnOk result (AllPass cert.now (trials_of_steps run (length (steps_of cert.now run)))) }
    ensures refused { IfErr result (IsRefusedAt cert.now (trials_of_steps run (length (steps_of cert.now run)))) }
{
    let _certificate = cert.version();
    let mut built = start(alloc, cert)?;
    for done in 0..cert.steps(run).len() {
        built = judge_step(alloc, cert, run, done as u8, built)?;
    }
    Ok(built)
}

/// The trivial answer, from which a run starts.
fn start(alloc: Global, cert: &Cert) -> Result<Built, NoMemory>
    ensures { IfOk result (λ b. (run : Run) → HasBuilt cert.now run 0 b) }
{
    let names = cert.pres().names();
    Ok(Built {
        answer: Answer::trivial(alloc, cert.prime(), names)?,
        stopped: false,
    })
}

/// Judges a run after its last step.
fn judge_end(alloc: Global, cert: &Cert, run: Run, built: &Built) -> Result<(), CheckRefusal>
    requires { HasBuilt cert.now run (length (steps_of cert.now run)) built.now }
    ensures consistent { OnOk result (IsConsistent built.now.answer.presentation) }
    ensures pass { OnOk result (AllPass cert.now
        (parts_at run cert.now.class (Short ∷ Overlap ∷ Iterated ∷ []) ++ endo_trials cert.now run)) }
    ensures refused { IfErr result (IsRefusedAt cert.now
        (parts_at run cert.now.class (Short ∷ Overlap ∷ Iterated ∷ []) ++ endo_trials cert.now run)) }
{
    let _answer = built.answer.pcp();
    judge_length(cert, run, built)?;
    let agree = overlaps_agree(alloc, &built.answer)?;
    judged_last(cert, run, Part::Overlap, agree)?;
    judge_maps(alloc, cert, run, &built.answer)
}

/// Judges whether a run has as many steps as classes, or has stopped.
fn judge_length(cert: &Cert, run: Run, built: &Built) -> Result<(), CheckRefusal>
    requires { HasBuilt cert.now run (length (steps_of cert.now run)) built.now }
    ensures pass { OnOk result (Keeps full_kind cert.now run cert.now.class Short) }
    ensures refused { IfErr result (IsRefusedAt cert.now (parts_at run cert.now.class (Short ∷ []))) }
{
    let long = cert.asked() as usize <= cert.steps(run).len() || built.stopped;
    judged_last(cert, run, Part::Short, long)
}

/// Judges the relators and the endomorphisms of a consistent answer that a run builds.
fn judge_maps(alloc: Global, cert: &Cert, run: Run, answer: &Answer) -> Result<(), CheckRefusal>
    requires answer { answer.now ≡ built_by full_cover_of cert.now run }
    requires consistent { IsConsistent answer.now.presentation }
    ensures pass { OnOk result (AllPass cert.now (parts_at run cert.now.class (Iterated ∷ []) ++ endo_trials cert.now run)) }
    ensures refused { IfErr result (IsRefusedAt cert.now (parts_at run cert.now.class (Iterated ∷ []) ++ endo_trials cert.now run)) }
{
    let _names = cert.pres().names();
    let carried = carries(alloc, answer, cert.pres().iterated())?;
    judged_last(cert, run, Part::Iterated, carried)?;
    judge_endos(alloc, cert, run, answer)
}

/// Judges the endomorphisms, where they are judged in a run.
fn judge_endos(alloc: Global, cert: &Cert, run: Run, answer: &Answer) -> Result<(), CheckRefusal>
    requires answer { answer.now ≡ built_by full_cover_of cert.now run }
    requires consistent { IsConsistent answer.now.presentation }
    ensures pass { OnOk result (AllPass cert.now (endo_trials cert.now run)) }
    ensures refused { IfErr result (IsRefusedAt cert.now (endo_trials cert.now run)) }
{
    let _certificate = cert.version();
    if !has_endos(cert.pres(), run) {
        return Ok(());
    }
    let induced = induce(alloc, answer, cert.pres())?;
    judged_last(cert, run, Part::Endo, induced)
}

/// Whether the endomorphisms are judged in a run.
fn has_endos(pres: &LPres, run: Run) -> bool
    ensures { result ≡ judges_endos pres.now run }
{
    match run {
        Run::Iterated => true,
        Run::Whole => !pres.endos().is_empty() && pres.fixed().is_empty(),
    }
}
