//! The output of `check`: from the bytes of a source to the text of the answer of a valid certificate.

ghost use Rattle.std.specs.Prelude.{◌≡◌, ◌≤◌, ◌+◌, [], Some, IfOk, IfErr, IfSome};
ghost use Rattle.derivation_log.specs.CertificateParts.{full_kind};
ghost use Rattle.derivation_log.specs.Validity.{IsValid};
ghost use Rattle.cert_text.specs.CertificateText.{certificate_text, IsWritable};
ghost use Rattle.pq_run.specs.declared.input.Input.TheVariants.{Certificate};
ghost use Rattle.pq_run.specs.Input.{byte_limit, IsTaken, IsWithin};
ghost use Rattle.pq_run.specs.Output.{WritesCheckedAnswer};
ghost use Rattle.pq_run.specs.Streams.{reading_of};
ghost use Rattle.pq_run.specs.Cause.{IsCertificateCause, IsCheckCause};

use crate::input::read_certificate;
use crate::refusal::Refusal;
use answer_text::text;
use cert_checker::check;
use derivation_log::Cert;
use pc_presentation::Answer;
use pq_io::Source;
use std::alloc::Global;

/// Reads a certificate to its end, and gives the bytes of its answer where it is valid.
pub(crate) fn output_of_check<S: Source>(alloc: Global, source: &mut S) -> Result<Vec<u8>, Refusal>
    ensures read { IfOk result (λ bytes. IfSome (S.left source.old) (λ text. S.left source.new ≡ Some [])) }
    ensures within { IfOk result (λ bytes. IfSome (S.left source.old) (IsWithin Certificate)) }
    ensures output { IfOk result (λ bytes. IfSome (S.left source.old) (λ text. WritesCheckedAnswer text bytes.items)) }
    ensures err { IfErr result (IsCheckCause (reading_of S.left S.faults source.old source.new)) }
    ensures count { S.faults source.old ≤ S.faults source.new }
    ensures left { IsTaken (byte_limit Certificate + 1) (S.left source.old) (S.left source.new) }
{
    let cert = read_certificate(alloc, source)?;
    output_of(alloc, &cert)
}

/// The answer of a certificate as text, where the certificate is valid.
fn output_of(alloc: Global, cert: &Cert) -> Result<Vec<u8>, Refusal>
    requires { IsWritable cert.now }
    ensures output { IfOk result (λ bytes. WritesCheckedAnswer (certificate_text cert.now) bytes.items) }
    ensures err { IfErr result (IsCertificateCause cert.now) }
{
    let answer = answer_of(alloc, cert)?;
    Ok(text(alloc, &answer)?)
}

/// The answer of a certificate, where the certificate is valid.
fn answer_of(alloc: Global, cert: &Cert) -> Result<Answer, Refusal>
    ensures answer { IfOk result (λ answer. answer ≡ cert.now.answer) }
    ensures valid { IfOk result (λ answer. IsValid full_kind cert.now) }
    ensures err { IfErr result (IsCertificateCause cert.now) }
{
    Ok(check(alloc, cert)?)
}
