//! Reading a certificate's text.

ghost use Rattle.std.specs.Prelude.{◌≡◌, ◌<◌, ◌≤◌, ◌+◌, ◌-◌, ◌^◌, length, IfOk, IfErr};
ghost use Rattle.pq_base.specs.Prime.{prime_value};
ghost use Rattle.answer_text.specs.AnswerText.{answer_text};
ghost use Rattle.answer_text.specs.OneText.{IsWritable as IsWritableAnswer};
ghost use Rattle.cert_text.specs.CertificateText.{certificate_text, IsWritable};
ghost use Rattle.cert_text.specs.CertificateFaults.{IsFaultOf};
ghost use Rattle.cert_text.specs.CertificatePlaces.{head_of};
ghost use Rattle.cert_text.specs.CertificatePlaces.Place.{for_version};
ghost use Rattle.cert_text.specs.ReadSoFar.{IsBadAt, IsFrontRead, newlines};

use crate::fault::CertFault;
use crate::head_reading::read_size;
use crate::presentation_reading::read_presentation;
use crate::runs_reading::{Runs, read_runs};
use answer_text::pieces::behind;
use answer_text::{AnswerFault, read_answer};
use derivation_log::Cert;
use lpres_reader::LPres;
use pc_presentation::Answer;
use pq_base::Prime;
use std::alloc::Global;

/// The certificate that a text is, or the line of its first fault, counted from 1.
///
/// The text is that which `write` writes of a certificate of version 1: no other text of it is read. Whether the certificate is valid is
/// another matter. Lines are judged one by one, and the fault is at the first that hasn't the form of a line in its place; for bytes that
/// end early it is behind the last whole line. What only all lines of the answer together break, and an answer whose prime or whose names
/// aren't those of the certificate, is a fault at the last line, the answer's end. `NoMemory` tells nothing about the bytes. There may be
/// at most 2^32 - 2 bytes, so that the numbers of lines are in range.
pub fn read(alloc: Global, bytes: &[u8]) -> Result<Cert, CertFault>
    requires { length bytes.now < 2 ^ 32 - 1 }
    ensures text { IfOk result (λ c. bytes.now ≡ certificate_text c) }
    ensures writable { IfOk result (λ c. IsWritable c) }
    ensures fault { IfErr result (IsFaultOf bytes.now) }
{
    let (front, rest, number) = read_front(alloc, bytes)?;
    match read_answer(alloc, rest) {
        Ok(answer) => certificate(bytes, front, rest, number, answer),
        Err(AnswerFault::Line(line)) => Err(CertFault::Line(number - 1 + line)),
        Err(AnswerFault::NoMemory) => Err(CertFault::NoMemory),
    }
}

/// What the lines in front of the answer say.
#[derive(Drop)]
struct Front {
    pres: LPres,
    prime: Prime,
    asked: u8,
    runs: Runs,
}

/// What stands in front of the answer, the answer's text, and the number of its first line; or the first line that has no form.
fn read_front(alloc: Global, bytes: &[u8]) -> Result<(Front, &[u8], u32), CertFault>
    requires { length bytes.now < 2 ^ 32 - 1 }
    ensures read { IfOk result (λ x. IsFrontRead bytes.now (head_of x.0.pres (prime_value x.0.prime) x.0.asked)
        x.0.runs.iterated.items x.0.runs.whole.items x.1.now x.2) }
    ensures shorter { IfOk result (λ x. length x.1.now + x.2 ≤ length bytes.now) }
    ensures err { IfErr result (IsBadAt for_version bytes.now 1) }
{
    let Some(text) = behind(bytes, b"certificate 1\n") else {
        return Err(CertFault::Line(1));
    };
    let (pres, rest, number) = read_presentation(alloc, text, 2)?;
    let (prime, asked, rest) = read_size(rest, number)?;
    let (runs, rest, number) = read_runs(alloc, &pres, prime, rest, number + 2)?;
    let front = Front {
        pres,
        prime,
        asked,
        runs,
    };
    Ok((front, rest, number))
}

/// The certificate of what was read. Where its parts break a condition of a certificate the fault is at the last line, the answer's end.
fn certificate(
    bytes: &[u8],
    front: Front,
    text: &[u8],
    number: u32,
    answer: Answer,
) -> Result<Cert, CertFault>
    requires front { IsFrontRead bytes.now (head_of front.pres (prime_value front.prime) front.asked)
        front.runs.iterated.items front.runs.whole.items text.now number }
    requires answer { text.now ≡ answer_text answer }
    requires writable { IsWritableAnswer answer }
    requires limit { length text.now + number < 2 ^ 32 }
    ensures text { IfOk result (λ c. bytes.now ≡ certificate_text c) }
    ensures writable { IfOk result (λ c. IsWritable c) }
    ensures fault { IfErr result (IsFaultOf bytes.now) }
{
    let end = number - 1 + newlines(text);
    let Front {
        pres,
        prime,
        asked,
        runs,
    } = front;
    match Cert::of(pres, prime, asked, runs.iterated, runs.whole, answer) {
        Some(cert) => Ok(cert),
        None => Err(CertFault::Line(end)),
    }
}

/// How many newlines are in a text.
fn newlines(text: &[u8]) -> u32
    requires { length text.now < 2 ^ 32 }
    ensures { result ≡ newlines text.now }
{
    let mut count = 0;
    for byte in text {
        if *byte == b'\n' {
            count += 1;
        }
    }
    count
}
