//! The output of `certify P C`: a certificate of the answer of a presentation.

ghost use Rattle.std.specs.Prelude.{◌≡◌, IfOk, IfErr};
ghost use Rattle.pq_base.specs.Prime.{prime_value};
ghost use Rattle.pq_run.specs.Command.{IsClass};
ghost use Rattle.pq_run.specs.Texts.{HasSmallRanks, OfEachText};
ghost use Rattle.pq_run.specs.Output.{Certifies, WritesCertificate};
ghost use Rattle.pq_run.specs.Cause.{IsPresentationCause};

use crate::refusal::Refusal;
use cert_text::write;
use derivation_log::{Cert, FullLog};
use lpres_reader::LPres;
use plain_collector::Plain;
use pq_base::Prime;
use std::alloc::Global;
use tower::largest;

/// A certificate of the answer of a presentation, as text.
pub(crate) fn output_as_certificate(
    alloc: Global,
    prime: Prime,
    class: u8,
    pres: &LPres,
) -> Result<Vec<u8>, Refusal>
    requires { IsClass class }
    ensures small { IfOk result (λ bytes. OfEachText pres.now (HasSmallRanks (prime_value prime) class)) }
    ensures output { IfOk result (λ bytes. OfEachText pres.now
        (λ text. WritesCertificate (prime_value prime) class text bytes.items)) }
    ensures err { IfErr result (IsPresentationCause (prime_value prime) class pres.now) }
{
    let cert = certificate_of(alloc, prime, class, pres)?;
    Ok(write(alloc, &cert)?)
}

/// A certificate of the answer of a presentation: the steps over all tails and all overlaps, by the plain rule. That the presentation
/// keeps its limits comes from the call whose result isn't used.
fn certificate_of(alloc: Global, prime: Prime, class: u8, pres: &LPres) -> Result<Cert, Refusal>
    requires { IsClass class }
    ensures small { IfOk result (λ cert. OfEachText pres.now (HasSmallRanks (prime_value prime) class)) }
    ensures certifies { IfOk result (λ cert. Certifies pres.now (prime_value prime) class cert) }
    ensures version { IfOk result (λ cert. cert.version ≡ 1) }
    ensures err { IfErr result (IsPresentationCause (prime_value prime) class pres.now) }
{
    let _names = pres.names();
    let mut log = FullLog::new(alloc);
    let answer = largest::<Plain, FullLog>(alloc, pres, prime, class, &mut log)?;
    Ok(log.finish(pres, prime, class, &answer)?)
}
