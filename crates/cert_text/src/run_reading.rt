//! The steps of a run, read to the line behind them.

ghost use Rattle.std.specs.Prelude.{◌≡◌, ◌<◌, ◌≤◌, ◌+◌, ◌^◌, ◌++◌, [], ◌∷◌, ℕ, suc, List, length, IfOk, IfErr, IfSome, IfNone};
ghost use Rattle.pq_base.specs.Prime.{prime_value};
ghost use Rattle.derivation_log.specs.Certificates.{StepLines};
ghost use Rattle.cert_text.specs.CertificateText.{step_line};
ghost use Rattle.cert_text.specs.CertificatePlaces.{Head, IsHead};
ghost use Rattle.cert_text.specs.CertificatePlaces.Place.{in_run};
ghost use Rattle.cert_text.specs.ReadSoFar.{IsBadAt, AreStepsRead, IsRunRead, end_line};

use crate::fault::CertFault;
use crate::step_reading::read_step;
use answer_text::pieces::behind;
use derivation_log::{CertStep, Run};
use lpres_reader::LPres;
use pq_base::{NoMemory, Prime};
use std::alloc::Global;

/// What follows the line of step k, where that comes next.
fn behind_step_line<'a>(
    alloc: Global,
    text: &'a [u8],
    k: usize,
) -> Result<Option<&'a [u8]>, NoMemory>
    ensures some { IfOk result (λ o. IfSome o (λ rest. text.now ≡ step_line k ++ 10 ∷ rest.now)) }
    ensures none { IfOk result (λ o. IfNone o ((rest : List ℕ) → ¬ (text.now ≡ step_line k ++ 10 ∷ rest))) }
{
    let line = format!(in alloc; "step {k}\n")?;
    Ok(behind(text, line.as_bytes()))
}

/// What follows the line behind the steps of a run, where that comes next.
fn behind_end_line(text: &[u8], run: Run) -> Option<&[u8]>
    ensures some { IfSome result (λ rest. text.now ≡ end_line run ++ 10 ∷ rest.now) }
    ensures none { IfNone result ((rest : List ℕ) → ¬ (text.now ≡ end_line run ++ 10 ∷ rest)) }
{
    match run {
        Run::Iterated => behind(text, b"run whole\n"),
        Run::Whole => behind(text, b"answer\n"),
    }
}

/// The steps at the front of a text, up to where none follows, what follows them, and the number of the line there.
fn read_steps<'a>(
    alloc: Global,
    pres: &LPres,
    prime: Prime,
    run: Run,
    text: &'a [u8],
    first: u32,
) -> Result<(Vec<CertStep>, &'a [u8], u32), NoMemory>
    requires { length text.now + first < 2 ^ 32 }
    ensures read { IfOk result (λ x. AreStepsRead pres.now (prime_value prime) run text.now first x.0.items x.1.now x.2) }
    ensures shorter { IfOk result (λ x. length x.1.now + x.2 ≤ length text.now + first) }
    ensures end { IfOk result (λ x. (rest : List ℕ) → ¬ (x.1.now ≡ step_line (suc (length x.0.items)) ++ 10 ∷ rest)) }
{
    let mut steps = Vec::new(alloc);
    let mut rest = text;
    let mut number = first;
    while let Some(lines) = behind_step_line(alloc, rest, steps.len() + 1)? {
        let (step, more, next) = read_step(alloc, pres, prime, run, lines, number + 1)?;
        steps.push(step)?;
        rest = more;
        number = next;
    }
    Ok((steps, rest, number))
}

/// The steps of a run, what follows the line behind them, and the number of the line there; or the first line that has no form.
pub(crate) fn read_run<'a>(
    alloc: Global,
    pres: &LPres,
    prime: Prime,
    run: Run,
    text: &'a [u8],
    first: u32,
) -> Result<(Vec<CertStep>, &'a [u8], u32), CertFault>
    requires { length text.now + first < 2 ^ 32 }
    ensures read { IfOk result (λ x. IsRunRead pres.now (prime_value prime) run text.now first x.0.items x.1.now x.2) }
    ensures shorter { IfOk result (λ x. length x.1.now + x.2 ≤ length text.now + first) }
    ensures err { IfErr result (λ fault. (H : Head) (earlier : List StepLines) → IsHead H → H.presentation ≡ pres.now
        → H.prime ≡ prime_value prime → IsBadAt (in_run H run earlier []) text.now first fault) }
{
    let (steps, rest, number) = read_steps(alloc, pres, prime, run, text, first)?;
    match behind_end_line(rest, run) {
        Some(more) => Ok((steps, more, number + 1)),
        None => Err(CertFault::Line(number)),
    }
}
