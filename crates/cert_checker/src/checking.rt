//! The checker.

ghost use Rattle.std.specs.Prelude.{◌≡◌, ◌↔◌, ◌++◌, ◌∷◌, [], cond, true, false, IfOk, IfErr, IfSome, IfNone, OnOk};
ghost use Rattle.pq_base.specs.Joined.{IsConsistent};
ghost use Rattle.cover_quotient.specs.Stages.{full_cover_of};
ghost use Rattle.derivation_log.specs.declared.source.Run.TheVariants.{Iterated as IteratedRun, Whole as WholeRun};
ghost use Rattle.derivation_log.specs.Certificates.{has_two_runs};
ghost use Rattle.derivation_log.specs.CertificateParts.{full_kind, built_by};
ghost use Rattle.derivation_log.specs.Validity.{IsValid};
ghost use Rattle.cert_checker.specs.Judging.{AllPass, IsRefusedAt, IsRefusalOf, first_run_trials, map_trials, last_trials};

use crate::carried::carries;
use crate::equal::answers_are_equal;
use crate::judged::judged_last;
use crate::maps::make_map;
use crate::refusal::CheckRefusal;
use crate::run::judge_run;
use derivation_log::{Cert, Part, Run, has_two_runs};
use pc_presentation::Answer;
use std::alloc::Global;

/// Checks a certificate. A valid one gives its answer, made anew by its steps; any other is refused, with the first part that fails.
pub fn check(alloc: Global, cert: &Cert) -> Result<Answer, CheckRefusal>
    ensures valid { OnOk result (IsValid full_kind cert.now) }
    ensures answer { IfOk result (λ answer. answer ≡ cert.now.answer) }
    ensures refused { IfErr result (IsRefusalOf cert.now) }
{
    let first = judge_first(alloc, cert)?;
    let whole = judge_run(alloc, cert, Run::Whole)?;
    judge_last(alloc, cert, &first, &whole)?;
    Ok(whole)
}

/// Judges the run over the iterated part, where there are two runs.
fn judge_first(alloc: Global, cert: &Cert) -> Result<Option<Answer>, CheckRefusal>
    ensures built { IfOk result (λ first. IfSome first (λ a. a ≡ built_by full_cover_of cert.now IteratedRun)) }
    ensures two_runs { IfOk result (λ first. IfSome first (λ a. has_two_runs cert.now.presentation ≡ true)) }
    ensures one_run { IfOk result (λ first. IfNone first (has_two_runs cert.now.presentation ≡ false)) }
    ensures pass { OnOk result (AllPass cert.now (first_run_trials cert.now)) }
    ensures refused { IfErr result (IsRefusedAt cert.now (first_run_trials cert.now)) }
{
    if has_two_runs(cert.pres()) {
        Ok(Some(judge_run(alloc, cert, Run::Iterated)?))
    } else {
        Ok(None)
    }
}

/// Judges what comes after the run of the whole: the fixed relators, the map of the first answer, and that the answer is the built one.
fn judge_last(
    alloc: Global,
    cert: &Cert,
    first: &Option<Answer>,
    whole: &Answer,
) -> Result<(), CheckRefusal>
    requires first { IfSome first.now (λ a. a ≡ built_by full_cover_of cert.now IteratedRun) }
    requires two_runs { IfSome first.now (λ a. has_two_runs cert.now.presentation ≡ true) }
    requires one_run { IfNone first.now (has_two_runs cert.now.presentation ≡ false) }
    requires whole { whole.now ≡ built_by full_cover_of cert.now WholeRun }
    requires consistent { IsConsistent whole.now.presentation }
    ensures answer { OnOk result (whole.now ≡ cert.now.answer) }
    ensures pass { OnOk result (AllPass cert.now (last_trials cert.now)) }
    ensures refused { IfErr result (IsRefusedAt cert.now (last_trials cert.now)) }
{
    let _names = cert.pres().names();
    let carried = carries(alloc, whole, cert.pres().fixed())?;
    judged_last(cert, Run::Whole, Part::Fixed, carried)?;
    judge_map(alloc, cert, first, whole)?;
    judged_last(
        cert,
        Run::Whole,
        Part::Answer,
        answers_are_equal(cert.answer(), whole),
    )
}

/// Judges the map of the answer of the iterated part, where there is one, into that of the whole.
fn judge_map(
    alloc: Global,
    cert: &Cert,
    first: &Option<Answer>,
    whole: &Answer,
) -> Result<(), CheckRefusal>
    requires first { IfSome first.now (λ a. a ≡ built_by full_cover_of cert.now IteratedRun) }
    requires two_runs { IfSome first.now (λ a. has_two_runs cert.now.presentation ≡ true) }
    requires one_run { IfNone first.now (has_two_runs cert.now.presentation ≡ false) }
    requires whole { whole.now ≡ built_by full_cover_of cert.now WholeRun }
    requires consistent { IsConsistent whole.now.presentation }
    ensures pass { OnOk result (AllPass cert.now (map_trials cert.now)) }
    ensures refused { IfErr result (IsRefusedAt cert.now (map_trials cert.now)) }
{
    match first {
        Some(first) => {
            let made = make_map(alloc, first, whole)?;
            judged_last(cert, Run::Whole, Part::Map, made)
        }
        None => Ok(()),
    }
}
