//! The output of `sample N`: the summary of the answer of a sample.

ghost use Rattle.std.specs.Prelude.{◌≤◌, IfOk, IfErr};
ghost use Rattle.pq_base.specs.Limits.{max_sample};
ghost use Rattle.pq_run.specs.SampleRanks.{HasSmallSampleRanks};
ghost use Rattle.pq_run.specs.Output.{WritesSummary};
ghost use Rattle.pq_run.specs.Cause.{IsSampleCause};

use crate::refusal::Refusal;
use derivation_log::NoLog;
use samples::{SAMPLE_CLASS, sample, sample_prime, summary};
use stack_collector::Stack;
use std::alloc::Global;
use tower::largest;

/// Gives the bytes of the summary of a sample's answer.
pub(crate) fn output_of_sample(alloc: Global, n: u32) -> Result<Vec<u8>, Refusal>
    requires { n ≤ max_sample }
    ensures small { IfOk result (λ bytes. HasSmallSampleRanks n) }
    ensures output { IfOk result (λ bytes. WritesSummary n bytes.items) }
    ensures err { IfErr result (IsSampleCause n) }
{
    let pres = sample(alloc, n)?;
    let prime = sample_prime(n);
    let answer = largest::<Stack, NoLog>(alloc, &pres, prime, SAMPLE_CLASS, &mut NoLog)?;
    Ok(summary(alloc, n, &answer)?)
}
