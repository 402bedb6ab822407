//! What a command reads, and how many bytes that may be.

ghost use Rattle.std.specs.Prelude.{◌≡◌, ◌+◌, ◌≤◌, ℕ, Some, [], IfOk, IfErr, IfSome};
ghost use Rattle.lpres_reader.specs.Reads.{Reads};
ghost use Rattle.pq_run.specs.declared.input.Input.TheVariants.{Presentation, Certificate};
ghost use Rattle.cert_text.specs.CertificateText.{certificate_text, IsWritable};
ghost use Rattle.pq_run.specs.Input.{byte_limit, IsWithin, IsTaken};
ghost use Rattle.pq_run.specs.Streams.{reading_of};
ghost use Rattle.pq_run.specs.Cause.{IsReadCause, IsQuotientCause, IsCheckCause};

use crate::refusal::Refusal;
use derivation_log::Cert;
use lpres_reader::{LPres, read};
use pq_base::limits::{CERTIFICATE_BYTES, PRESENTATION_BYTES};
use pq_io::{InputRefusal, Source, read_up_to};
use std::alloc::Global;

/// What a command reads.
#[derive(Clone, Copy, Debug, PartialEq, Eq)]
pub enum Input {
    /// A presentation.
    Presentation,
    /// A certificate.
    Certificate,
}

impl Input {
    /// The most bytes of it.
    pub fn byte_limit(self) -> usize
        ensures { result ≡ byte_limit self }
    {
        match self {
            Input::Presentation => PRESENTATION_BYTES,
            Input::Certificate => CERTIFICATE_BYTES,
        }
    }
}

/// Reads an input to its end. The refusal is that a read failed, that there are too many bytes, or that memory was wanting.
fn read_input<S: Source>(alloc: Global, input: Input, source: &mut S) -> Result<Vec<u8>, Refusal>
    ensures within { IfOk result (λ bytes. IsWithin input bytes.items) }
    ensures whole { IfOk result (λ bytes. IfSome (S.left source.old) (λ told. (bytes.items ≡ told) × (S.left source.new ≡ Some []))) }
    ensures err { IfErr result (IsReadCause input (reading_of S.left S.faults source.old source.new)) }
    ensures count { S.faults source.old ≤ S.faults source.new }
    ensures left { IsTaken (byte_limit input + 1) (S.left source.old) (S.left source.new) }
{
    match read_up_to(alloc, source, input.byte_limit()) {
        Ok(bytes) => Ok(bytes),
        Err(InputRefusal::Failed) => Err(Refusal::ReadFault),
        Err(InputRefusal::TooLong) => Err(Refusal::InputTooLong(input)),
        Err(InputRefusal::NoMemory) => Err(Refusal::NoMemory),
    }
}

/// Reads a presentation to its end. Its bytes are dropped. What isn't read as one is refused by its first fault.
pub(crate) fn read_presentation<S: Source>(alloc: Global, source: &mut S) -> Result<LPres, Refusal>
    ensures reads { IfOk result (λ pres. IfSome (S.left source.old) (λ text. Reads text pres)) }
    ensures within { IfOk result (λ pres. IfSome (S.left source.old) (IsWithin Presentation)) }
    ensures whole { IfOk result (λ pres. IfSome (S.left source.old) (λ text. S.left source.new ≡ Some [])) }
    ensures err { IfErr result (λ refusal.
        (p c : ℕ) → IsQuotientCause p c (reading_of S.left S.faults source.old source.new) refusal) }
    ensures count { S.faults source.old ≤ S.faults source.new }
    ensures left { IsTaken (byte_limit Presentation + 1) (S.left source.old) (S.left source.new) }
{
    let text = read_input(alloc, Input::Presentation, source)?;
    Ok(read(alloc, &text)?)
}

/// Reads a certificate to its end. Its bytes are dropped. What isn't read as one is refused by the line of its first fault.
pub(crate) fn read_certificate<S: Source>(alloc: Global, source: &mut S) -> Result<Cert, Refusal>
    ensures reads { IfOk result (λ cert. IfSome (S.left source.old) (λ text. text ≡ certificate_text cert)) }
    ensures writable { IfOk result IsWritable }
    ensures within { IfOk result (λ cert. IfSome (S.left source.old) (IsWithin Certificate)) }
    ensures whole { IfOk result (λ cert. IfSome (S.left source.old) (λ text. S.left source.new ≡ Some [])) }
    ensures err { IfErr result (IsCheckCause (reading_of S.left S.faults source.old source.new)) }
    ensures count { S.faults source.old ≤ S.faults source.new }
    ensures left { IsTaken (byte_limit Certificate + 1) (S.left source.old) (S.left source.new) }
{
    let text = read_input(alloc, Input::Certificate, source)?;
    Ok(cert_text::read(alloc, &text)?)
}
