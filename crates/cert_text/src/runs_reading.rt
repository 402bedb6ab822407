//! The runs, read to the line in front of the answer.

ghost use Rattle.std.specs.Prelude.{◌≡◌, ◌<◌, ◌≤◌, ◌+◌, ◌^◌, true, false, length, IfOk, IfErr};
ghost use Rattle.pq_base.specs.Prime.{prime_value};
ghost use Rattle.derivation_log.specs.Certificates.{has_two_runs as are_two_runs};
ghost use Rattle.cert_text.specs.CertificatePlaces.{Head, IsHead};
ghost use Rattle.cert_text.specs.CertificatePlaces.Place.{for_run};
ghost use Rattle.cert_text.specs.ReadSoFar.{IsBadAt, AreRunsRead};

use crate::fault::CertFault;
use crate::run_reading::read_run;
use answer_text::pieces::behind;
use derivation_log::{CertStep, Run, has_two_runs};
use lpres_reader::LPres;
use pq_base::Prime;
use std::alloc::Global;

/// The steps of both runs.
#[derive(Drop)]
pub(crate) struct Runs {
    pub(crate) iterated: Vec<CertStep>,
    pub(crate) whole: Vec<CertStep>,
}

/// The runs, what follows the line in front of the answer, and the number of the line there; or the first line that has no form.
pub(crate) fn read_runs<'a>(
    alloc: Global,
    pres: &LPres,
    prime: Prime,
    text: &'a [u8],
    first: u32,
) -> Result<(Runs, &'a [u8], u32), CertFault>
    requires { length text.now + first < 2 ^ 32 }
    ensures read { IfOk result (λ x. AreRunsRead pres.now (prime_value prime) text.now first
        x.0.iterated.items x.0.whole.items x.1.now x.2) }
    ensures shorter { IfOk result (λ x. length x.1.now + x.2 ≤ length text.now + first) }
    ensures err { IfErr result (λ fault. (H : Head) → IsHead H → H.presentation ≡ pres.now → H.prime ≡ prime_value prime
        → IsBadAt (for_run H) text.now first fault) }
{
    if has_two_runs(pres) {
        read_two_runs(alloc, pres, prime, text, first)
    } else {
        read_only_run(alloc, pres, prime, text, first)
    }
}

/// The runs, where there are two.
fn read_two_runs<'a>(
    alloc: Global,
    pres: &LPres,
    prime: Prime,
    text: &'a [u8],
    first: u32,
) -> Result<(Runs, &'a [u8], u32), CertFault>
    requires two { are_two_runs pres.now ≡ true }
    requires limit { length text.now + first < 2 ^ 32 }
    ensures read { IfOk result (λ x. AreRunsRead pres.now (prime_value prime) text.now first
        x.0.iterated.items x.0.whole.items x.1.now x.2) }
    ensures shorter { IfOk result (λ x. length x.1.now + x.2 ≤ length text.now + first) }
    ensures err { IfErr result (λ fault. (H : Head) → IsHead H → H.presentation ≡ pres.now → H.prime ≡ prime_value prime
        → IsBadAt (for_run H) text.now first fault) }
{
    let Some(lines) = behind(text, b"run iterated\n") else {
        return Err(CertFault::Line(first));
    };
    let (iterated, rest, number) = read_run(alloc, pres, prime, Run::Iterated, lines, first + 1)?;
    let (whole, rest, number) = read_run(alloc, pres, prime, Run::Whole, rest, number)?;
    Ok((Runs { iterated, whole }, rest, number))
}

/// The runs, where there is only one.
fn read_only_run<'a>(
    alloc: Global,
    pres: &LPres,
    prime: Prime,
    text: &'a [u8],
    first: u32,
) -> Result<(Runs, &'a [u8], u32), CertFault>
    requires one { are_two_runs pres.now ≡ false }
    requires limit { length text.now + first < 2 ^ 32 }
    ensures read { IfOk result (λ x. AreRunsRead pres.now (prime_value prime) text.now first
        x.0.iterated.items x.0.whole.items x.1.now x.2) }
    ensures shorter { IfOk result (λ x. length x.1.now + x.2 ≤ length text.now + first) }
    ensures err { IfErr result (λ fault. (H : Head) → IsHead H → H.presentation ≡ pres.now → H.prime ≡ prime_value prime
        → IsBadAt (for_run H) text.now first fault) }
{
    let Some(lines) = behind(text, b"run whole\n") else {
        return Err(CertFault::Line(first));
    };
    let (whole, rest, number) = read_run(alloc, pres, prime, Run::Whole, lines, first + 1)?;
    let runs = Runs {
        iterated: Vec::new(alloc),
        whole,
    };
    Ok((runs, rest, number))
}
