//! Steps, read line by line as far as their lines have their form.

ghost use Rattle.std.specs.Prelude.{◌≡◌, ◌<◌, ◌≤◌, ◌+◌, ◌^◌, ◌++◌, [], ◌∷◌, true, length, map, IfOk, IfSome, IfNone};
ghost use Rattle.pq_base.specs.Lines.{text_of_lines};
ghost use Rattle.pq_base.specs.Prime.{prime_value};
ghost use Rattle.derivation_log.specs.CertificateForms.{is_source_in, are_sources_in, are_tail_lines};
ghost use Rattle.cert_text.specs.CertificateText.{source_line as text_of_source, tail_line as text_of_tail};
ghost use Rattle.cert_text.specs.ReadSoFar.{HasNoSource, HasNoTail, IsStepRead};

use crate::source_reading::source_line;
use crate::tail_reading::tail_line;
use answer_text::pieces::next_line;
use derivation_log::{CertStep, CertTail, RowSource, Run};
use lpres_reader::LPres;
use pq_base::{NoMemory, Prime};
use std::alloc::Global;

/// The source of the next line, where it is the line of one that a run may name, and what follows it.
fn next_source<'a>(
    alloc: Global,
    pres: &LPres,
    run: Run,
    text: &'a [u8],
) -> Result<Option<(RowSource, &'a [u8])>, NoMemory>
    ensures some { IfOk result (λ o. IfSome o (λ x. text.now ≡ text_of_source x.0 ++ 10 ∷ x.1.now)) }
    ensures named { IfOk result (λ o. IfSome o (λ x. is_source_in pres.now run x.0 ≡ true)) }
    ensures shorter { IfOk result (λ o. IfSome o (λ x. length x.1.now + 1 ≤ length text.now)) }
    ensures none { IfOk result (λ o. IfNone o (HasNoSource pres.now run text.now)) }
{
    let Some((line, rest)) = next_line(text) else {
        return Ok(None);
    };
    match source_line(alloc, pres, run, line)? {
        Some(source) => Ok(Some((source, rest))),
        None => Ok(None),
    }
}

/// The sources of the lines at the front of a text, up to where none follows, and what follows them.
fn read_sources<'a>(
    alloc: Global,
    pres: &LPres,
    run: Run,
    text: &'a [u8],
) -> Result<(Vec<RowSource>, &'a [u8]), NoMemory>
    ensures lines { IfOk result (λ x. text.now ≡ text_of_lines (map text_of_source x.0.items) ++ x.1.now) }
    ensures named { IfOk result (λ x. are_sources_in pres.now run x.0.items ≡ true) }
    ensures shorter { IfOk result (λ x. length x.0.items + length x.1.now ≤ length text.now) }
    ensures end { IfOk result (λ x. HasNoSource pres.now run x.1.now) }
{
    let mut sources = Vec::new(alloc);
    let mut rest = text;
    while let Some((source, more)) = next_source(alloc, pres, run, rest)? {
        sources.push(source)?;
        rest = more;
    }
    Ok((sources, rest))
}

/// The tail of the next line, where it is a line that may stand behind these of a step of n sources, and what follows it.
fn next_tail<'a>(
    alloc: Global,
    prime: Prime,
    n: usize,
    lines: &[CertTail],
    text: &'a [u8],
) -> Result<Option<(CertTail, &'a [u8])>, NoMemory>
    requires { are_tail_lines (prime_value prime) n lines.now 1 lines.now ≡ true }
    ensures some { IfOk result (λ o. IfSome o (λ x. text.now ≡ text_of_tail x.0 ++ 10 ∷ x.1.now)) }
    ensures next { IfOk result (λ o. IfSome o
        (λ x. are_tail_lines (prime_value prime) n (lines.now ++ x.0 ∷ []) 1 (lines.now ++ x.0 ∷ []) ≡ true)) }
    ensures shorter { IfOk result (λ o. IfSome o (λ x. length x.1.now + 1 ≤ length text.now)) }
    ensures none { IfOk result (λ o. IfNone o (HasNoTail (prime_value prime) n lines.now text.now)) }
{
    let Some((line, rest)) = next_line(text) else {
        return Ok(None);
    };
    match tail_line(alloc, prime, n, lines, line)? {
        Some(tail) => Ok(Some((tail, rest))),
        None => Ok(None),
    }
}

/// The tails of the lines at the front of a text, for a step of n sources, up to where none follows, and what follows them.
fn read_tails<'a>(
    alloc: Global,
    prime: Prime,
    n: usize,
    text: &'a [u8],
) -> Result<(Vec<CertTail>, &'a [u8]), NoMemory>
    ensures lines { IfOk result (λ x. text.now ≡ text_of_lines (map text_of_tail x.0.items) ++ x.1.now) }
    ensures tails { IfOk result (λ x. are_tail_lines (prime_value prime) n x.0.items 1 x.0.items ≡ true) }
    ensures shorter { IfOk result (λ x. length x.0.items + length x.1.now ≤ length text.now) }
    ensures end { IfOk result (λ x. HasNoTail (prime_value prime) n x.0.items x.1.now) }
{
    let mut tails = Vec::new(alloc);
    let mut rest = text;
    while let Some((tail, more)) = next_tail(alloc, prime, n, &tails, rest)? {
        tails.push(tail)?;
        rest = more;
    }
    Ok((tails, rest))
}

/// The lines of a step behind its first, where the first of them has this number; what follows them, and the number of the line there.
pub(crate) fn read_step<'a>(
    alloc: Global,
    pres: &LPres,
    prime: Prime,
    run: Run,
    text: &'a [u8],
    first: u32,
) -> Result<(CertStep, &'a [u8], u32), NoMemory>
    requires { length text.now + first < 2 ^ 32 }
    ensures read { IfOk result (λ x. IsStepRead pres.now (prime_value prime) run text.now x.0 x.1.now) }
    ensures numbered { IfOk result (λ x. x.2 ≡ first + (length x.0.sources + length x.0.tails)) }
    ensures shorter { IfOk result (λ x. length x.1.now + x.2 ≤ length text.now + first) }
{
    let (sources, rest) = read_sources(alloc, pres, run, text)?;
    let (tails, rest) = read_tails(alloc, prime, sources.len(), rest)?;
    let number = first + (sources.len() as u32 + tails.len() as u32);
    Ok((CertStep::of(sources, tails), rest, number))
}
