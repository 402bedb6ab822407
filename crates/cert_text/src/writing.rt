//! The text of a certificate, part by part.

ghost use Rattle.std.specs.Prelude.{◌≡◌, ◌++◌, [], ◌∷◌, OnOk, IfOk, codes};
ghost use Rattle.pq_base.specs.Lines.{text_of_lines};
ghost use Rattle.pq_base.specs.Prime.{prime_value};
ghost use Rattle.lpres_reader.specs.CanonicalText.{canonical_text};
ghost use Rattle.answer_text.specs.AnswerText.{answer_text};
ghost use Rattle.answer_text.specs.AnswerPlaces.{prime_line, class_line};
ghost use Rattle.derivation_log.specs.Certificates.{has_two_runs as are_two_runs};
ghost use Rattle.cert_text.specs.CertificateText.{version_line, step_line, step_lines, steps_lines, run_line, run_lines, iterated_lines};
ghost use Rattle.cert_text.specs.CertificateText.{certificate_text, IsWritable};

use crate::source_lines::push_sources;
use crate::tail_lines::push_tails;
use derivation_log::{Cert, CertStep, Run, has_two_runs};
use lpres_reader::LPres;
use pc_presentation::Answer;
use pq_base::{NoMemory, Prime};
use std::alloc::Global;

/// The text of a certificate: every byte of it is determined by the certificate.
pub fn write(alloc: Global, cert: &Cert) -> Result<Vec<u8>, NoMemory>
    ensures text { IfOk result (λ text. text.items ≡ certificate_text cert.now) }
    ensures writable { cert.now.version ≡ 1 → IsWritable cert.now }
{
    keeps_limits(cert);
    let mut out = Vec::new(alloc);
    push_version(&mut out, cert.version())?;
    push_presentation(&mut out, cert.pres())?;
    push_prime_and_class(&mut out, cert.prime(), cert.asked())?;
    push_iterated_run(&mut out, cert.pres(), cert.steps(Run::Iterated))?;
    push_run(&mut out, Run::Whole, cert.steps(Run::Whole))?;
    push_answer(&mut out, cert.answer())?;
    Ok(out)
}

/// That a certificate of version 1 keeps the limits of texts: the calls are made for what their contracts say of it. Takes no step.
fn keeps_limits(cert: &Cert)
    ensures { cert.now.version ≡ 1 → IsWritable cert.now }
{
    let _version = cert.version();
    let _names = cert.pres().names();
    let _rank = cert.answer().pcp().rank();
}

/// The first line.
fn push_version(out: &mut Vec<u8>, version: u8) -> Result<(), NoMemory>
    ensures { OnOk result (out.new.items ≡ out.old.items ++ (version_line version ++ 10 ∷ [])) }
{
    let line = format!(in *out.allocator(); "certificate {version}\n")?;
    out.extend_from_slice(line.as_bytes())?;
    Ok(())
}

/// The presentation, canonically.
fn push_presentation(out: &mut Vec<u8>, pres: &LPres) -> Result<(), NoMemory>
    ensures { OnOk result (out.new.items ≡ out.old.items ++ canonical_text pres.now) }
{
    let text = lpres_reader::write(*out.allocator(), pres)?;
    out.extend_from_slice(text.as_slice())?;
    Ok(())
}

/// The prime, and the class that is asked for.
fn push_prime_and_class(out: &mut Vec<u8>, prime: Prime, asked: u8) -> Result<(), NoMemory>
    ensures { OnOk result (out.new.items ≡ out.old.items ++ text_of_lines (prime_line (prime_value prime) ∷ class_line asked ∷ [])) }
{
    let prime = prime.value();
    let lines = format!(in *out.allocator(); "prime {prime}\nclass {asked}\n")?;
    out.extend_from_slice(lines.as_bytes())?;
    Ok(())
}

/// The run over the iterated part, where there are two runs.
fn push_iterated_run(out: &mut Vec<u8>, pres: &LPres, steps: &[CertStep]) -> Result<(), NoMemory>
    ensures { OnOk result (out.new.items ≡ out.old.items ++ text_of_lines (iterated_lines (are_two_runs pres.now) steps.now)) }
{
    if !has_two_runs(pres) {
        return Ok(());
    }
    push_run(out, Run::Iterated, steps)
}

/// A run: its line, and its steps.
fn push_run(out: &mut Vec<u8>, run: Run, steps: &[CertStep]) -> Result<(), NoMemory>
    ensures { OnOk result (out.new.items ≡ out.old.items ++ text_of_lines (run_lines run steps.now)) }
{
    let line: &[u8] = match run {
        Run::Iterated => b"run iterated\n",
        Run::Whole => b"run whole\n",
    };
    out.extend_from_slice(line)?;
    push_steps(out, steps)
}

/// The steps of a run.
fn push_steps(out: &mut Vec<u8>, steps: &[CertStep]) -> Result<(), NoMemory>
    ensures { OnOk result (out.new.items ≡ out.old.items ++ text_of_lines (steps_lines 0 steps.now)) }
{
    for (place, step) in steps.iter().enumerate() {
        push_step(out, place + 1, step)?;
    }
    Ok(())
}

/// A step: its line, its sources, and the tails that they eliminate.
fn push_step(out: &mut Vec<u8>, number: usize, step: &CertStep) -> Result<(), NoMemory>
    ensures { OnOk result (out.new.items ≡ out.old.items ++ text_of_lines (step_lines number step.now)) }
{
    push_step_line(out, number)?;
    push_sources(out, step.sources())?;
    push_tails(out, step.tails())
}

/// The line of a step, which counts from 1.
fn push_step_line(out: &mut Vec<u8>, number: usize) -> Result<(), NoMemory>
    ensures { OnOk result (out.new.items ≡ out.old.items ++ (step_line number ++ 10 ∷ [])) }
{
    let line = format!(in *out.allocator(); "step {number}\n")?;
    out.extend_from_slice(line.as_bytes())?;
    Ok(())
}

/// The answer.
fn push_answer(out: &mut Vec<u8>, answer: &Answer) -> Result<(), NoMemory>
    ensures { OnOk result (out.new.items ≡ out.old.items ++ (codes "answer\n" ++ answer_text answer.now)) }
{
    let text = answer_text::text(*out.allocator(), answer)?;
    out.extend_from_slice(b"answer\n")?;
    out.extend_from_slice(text.as_slice())?;
    Ok(())
}
