//! Judging a step of a certificate.

ghost use Rattle.std.specs.Prelude.{◌≡◌, ◌≢◌, ◌↔◌, ◌<◌, ◌≤◌, ◌+◌, ℕ, [], ◌∷◌, length, All, IsTrue, IfOk, IfErr, OnOk};
ghost use Rattle.pq_base.specs.Limits.{max_class};
ghost use Rattle.pq_base.specs.Answer.{class_of};
ghost use Rattle.cover_quotient.specs.Stages.{full_cover_of};
ghost use Rattle.derivation_log.specs.declared.part.Part.TheVariants.{Extra, Row as RowPart, Sum, Rank};
ghost use Rattle.derivation_log.specs.Certificates.{steps_of, step_of};
ghost use Rattle.derivation_log.specs.CertificateRuns.{kept_in, kept_at, next_by, cover_at};
ghost use Rattle.derivation_log.specs.CertificateParts.{full_kind, GiveAnswer};
ghost use Rattle.derivation_log.specs.Validity.{Keeps, step_trials};
ghost use Rattle.cert_checker.specs.SumLines.{IsLineOver};
ghost use Rattle.cert_checker.specs.Judging.{AllPass, IsRefusedAt, parts_at, HasBuilt};

use crate::built::Built;
use crate::combining::answer_of_lines;
use crate::judged::judged;
use crate::kept::{kept_tails, may_all_be_kept};
use crate::refusal::CheckRefusal;
use crate::rows::rows_of;
use crate::sums::are_sums;
use derivation_log::{Cert, CertStep, Part, Run};
use p_cover::{Cover, full_cover};
use pq_base::NoMemory;
use pq_base::limits::RANK;
use std::alloc::Global;

/// Judges the step of a run that comes after `done` others, and makes the answer that it builds.
pub(crate) fn judge_step(
    alloc: Global,
    cert: &Cert,
    run: Run,
    done: u8,
    built: Built,
) -> Result<Built, CheckRefusal>
    requires place { done < length (steps_of cert.now run) }
    requires class { done ≤ cert.now.class }
    requires earlier { (j : ℕ) → 1 ≤ j → j < done → kept_at full_cover_of cert.now run j ≢ [] }
    requires built { HasBuilt cert.now run done built }
    ensures built { IfOk result (HasBuilt cert.now run (done + 1)) }
    ensures pass { OnOk result (AllPass cert.now (step_trials run (done + 1))) }
    ensures refused { IfErr result (IsRefusedAt cert.now (step_trials run (done + 1))) }
{
    let _certificate = cert.version();
    judge_extra(cert, run, done, &built)?;
    let cover = full_cover(alloc, &built.answer)?;
    judge_over(alloc, cert, run, done + 1, &cover, built)
}

/// Judges whether the step that comes after `done` others is wanted: its class is asked for, and each step before it kept a tail.
fn judge_extra(cert: &Cert, run: Run, done: u8, built: &Built) -> Result<(), CheckRefusal>
    requires class { done ≤ cert.now.class }
    requires earlier { (j : ℕ) → 1 ≤ j → j < done → kept_at full_cover_of cert.now run j ≢ [] }
    requires built { HasBuilt cert.now run done built.now }
    ensures pass { OnOk result (Keeps full_kind cert.now run (done + 1) Extra) }
    ensures refused { IfErr result (IsRefusedAt cert.now (parts_at run (done + 1) (Extra ∷ []))) }
{
    let _certificate = cert.version();
    let wanted = done < cert.asked() && !built.stopped;
    judged(cert, run, done + 1, Part::Extra, wanted)
}

/// Judges the other parts of the step to a class, over the cover of the answer before it, and makes the answer that it builds.
fn judge_over(
    alloc: Global,
    cert: &Cert,
    run: Run,
    class: u8,
    cover: &Cover,
    built: Built,
) -> Result<Built, CheckRefusal>
    requires from_one { 1 ≤ class }
    requires place { class ≤ length (steps_of cert.now run) }
    requires cover { cover.now ≡ cover_at full_cover_of cert.now run class }
    requires answer { cover.now.answer ≡ built.answer }
    requires extra { Keeps full_kind cert.now run class Extra }
    ensures built { IfOk result (HasBuilt cert.now run class) }
    ensures pass { OnOk result (AllPass cert.now (parts_at run class (RowPart ∷ Sum ∷ Rank ∷ []))) }
    ensures refused { IfErr result (IsRefusedAt cert.now (parts_at run class (RowPart ∷ Sum ∷ Rank ∷ []))) }
{
    let _certificate = cert.version();
    let step = &cert.steps(run)[class as usize - 1];
    let kept = judge_kept(alloc, cert, run, class, cover, step)?;
    Ok(next(alloc, built, cover, step, kept)?)
}

/// Judges the rows, the sums and the rank of a step, and gives the tails that it keeps.
fn judge_kept(
    alloc: Global,
    cert: &Cert,
    run: Run,
    class: u8,
    cover: &Cover,
    step: &CertStep,
) -> Result<Vec<u16>, CheckRefusal>
    requires from_one { 1 ≤ class }
    requires place { class ≤ length (steps_of cert.now run) }
    requires cover { cover.now ≡ cover_at full_cover_of cert.now run class }
    requires step { step.now ≡ step_of cert.now run class }
    ensures kept { IfOk result (λ kept. kept.items ≡ kept_in cover.now step.now) }
    ensures rank { OnOk result (GiveAnswer full_kind cover.now step.now) }
    ensures pass { OnOk result (AllPass cert.now (parts_at run class (RowPart ∷ Sum ∷ Rank ∷ []))) }
    ensures refused { IfErr result (IsRefusedAt cert.now (parts_at run class (RowPart ∷ Sum ∷ Rank ∷ []))) }
{
    judge_rows(alloc, cert, run, class, cover, step)?;
    judge_rank(alloc, cert, run, class, cover, step)
}

/// Judges the rows of a step, and then the sums of rows.
fn judge_rows(
    alloc: Global,
    cert: &Cert,
    run: Run,
    class: u8,
    cover: &Cover,
    step: &CertStep,
) -> Result<(), CheckRefusal>
    requires from_one { 1 ≤ class }
    requires place { class ≤ length (steps_of cert.now run) }
    requires cover { cover.now ≡ cover_at full_cover_of cert.now run class }
    requires step { step.now ≡ step_of cert.now run class }
    ensures pass { OnOk result (AllPass cert.now (parts_at run class (RowPart ∷ Sum ∷ []))) }
    ensures refused { IfErr result (IsRefusedAt cert.now (parts_at run class (RowPart ∷ Sum ∷ []))) }
{
    let _certificate = cert.version();
    let _presentation = cover.pcp().rank();
    match rows_of(alloc, cover, cert.pres(), step.sources())? {
        None => Err(CheckRefusal::Refused {
            run,
            class,
            part: Part::Row,
        }),
        Some(rows) => {
            let sums = are_sums(alloc, cover, &rows, step.tails())?;
            judged(cert, run, class, Part::Sum, sums)
        }
    }
}

/// Judges the rank of a step, and gives the tails that it keeps.
fn judge_rank(
    alloc: Global,
    cert: &Cert,
    run: Run,
    class: u8,
    cover: &Cover,
    step: &CertStep,
) -> Result<Vec<u16>, CheckRefusal>
    requires cover { cover.now ≡ cover_at full_cover_of cert.now run class }
    requires step { step.now ≡ step_of cert.now run class }
    ensures kept { IfOk result (λ kept. kept.items ≡ kept_in cover.now step.now) }
    ensures rank { OnOk result (GiveAnswer full_kind cover.now step.now) }
    ensures pass { OnOk result (Keeps full_kind cert.now run class Rank) }
    ensures refused { IfErr result (IsRefusedAt cert.now (parts_at run class (Rank ∷ []))) }
{
    let kept = kept_tails(alloc, cover, step.tails())?;
    judged(
        cert,
        run,
        class,
        Part::Rank,
        give_answer(cover, step, &kept),
    )?;
    Ok(kept)
}

/// Whether the kept tails of a step may be kept, and give an answer of a rank within the limit.
fn give_answer(cover: &Cover, step: &CertStep, kept: &[u16]) -> bool
    requires { kept.now ≡ kept_in cover.now step.now }
    ensures { IsTrue result ↔ GiveAnswer full_kind cover.now step.now }
{
    let _step = step.tails();
    cover.pcp().rank() as usize + kept.len() <= RANK && may_all_be_kept(cover, kept)
}

/// What a step builds: the answer stays as it is where no tail is kept.
fn next(
    alloc: Global,
    built: Built,
    cover: &Cover,
    step: &CertStep,
    kept: Vec<u16>,
) -> Result<Built, NoMemory>
    requires answer { cover.now.answer ≡ built.answer }
    requires kept { kept.items ≡ kept_in cover.now step.now }
    requires rank { GiveAnswer full_kind cover.now step.now }
    requires lines { All (IsLineOver cover.now.answer.presentation.prime (length step.now.sources)) step.now.tails }
    requires class { class_of cover.now.answer < max_class }
    ensures answer { IfOk result (λ next. next.answer ≡ next_by cover.now step.now) }
    ensures stopped { IfOk result (λ next. IsTrue next.stopped ↔ kept_in cover.now step.now ≡ []) }
{
    if kept.is_empty() {
        return Ok(Built {
            answer: built.answer,
            stopped: true,
        });
    }
    Ok(Built {
        answer: answer_of_lines(alloc, cover, step, kept)?,
        stopped: false,
    })
}
