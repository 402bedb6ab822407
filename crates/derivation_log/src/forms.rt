//! Whether parts make a certificate.

ghost use Rattle.std.specs.Prelude.{◌≡◌, ◌↔◌, ◌++◌, ◌∷◌, [], true, IsTrue};
ghost use Rattle.pq_base.specs.Prime.{prime_value};
ghost use Rattle.derivation_log.specs.Certificates.{has_two_runs};
ghost use Rattle.derivation_log.specs.CertificateForms.{first_version, is_number_from, are_pairs, are_at_most, has_line, are_kept_below};
ghost use Rattle.derivation_log.specs.CertificateForms.{is_tail_line, are_tail_lines, AreRising, least_behind, is_written_overlap};
ghost use Rattle.derivation_log.specs.CertificateForms.{are_each_one_of, is_source_in, are_sources_in, are_steps_in, IsCertificate};

use crate::source::{RowSource, Run};
use crate::step_lines::CertStep;
use crate::tail_line::CertTail;
use lpres_reader::LPres;
use pc_presentation::{Answer, Overlap};
use pq_base::limits::CLASS;
use pq_base::{Path, Prime};

/// Whether the conditions of a certificate hold of its parts.
pub(crate) fn are_parts(
    pres: &LPres,
    prime: Prime,
    asked: u8,
    iterated: &[CertStep],
    whole: &[CertStep],
    answer: &Answer,
) -> bool
    ensures { IsTrue result ↔ IsCertificate (first_version pres.now (prime_value prime) asked iterated.now whole.now answer.now) }
{
    1 <= asked
        && asked <= CLASS
        && is_answer_for(answer, pres, prime)
        && (iterated.is_empty() || has_two_runs(pres))
        && are_steps_in(pres, prime.value(), Run::Iterated, iterated)
        && are_steps_in(pres, prime.value(), Run::Whole, whole)
}

/// Whether an answer has the prime, and the generators of a presentation as its names.
fn is_answer_for(answer: &Answer, pres: &LPres, prime: Prime) -> bool
    ensures { IsTrue result ↔ ((answer.now.presentation.prime ≡ prime_value prime) × (answer.now.names ≡ pres.now.names)) }
{
    answer.pcp().prime().value() == prime.value() && answer.names() == pres.names()
}

/// Whether there are fixed relators and endomorphisms: the run over the iterated part comes first then.
pub fn has_two_runs(pres: &LPres) -> bool
    ensures { result ≡ has_two_runs pres.now }
{
    !pres.fixed().is_empty() && !pres.endos().is_empty()
}

/// Whether the numbers of each step are such as may stand in a run.
fn are_steps_in(pres: &LPres, p: u8, run: Run, steps: &[CertStep]) -> bool
    ensures { result ≡ are_steps_in pres.now p run steps.now }
{
    for step in steps {
        let lines = step.tails();
        if !are_sources_in(pres, run, step.sources())
            || !are_tail_lines(p, step.sources().len(), lines)
        {
            return false;
        }
    }
    true
}

/// Whether each source may be named in a run.
fn are_sources_in(pres: &LPres, run: Run, sources: &[RowSource]) -> bool
    ensures { result ≡ are_sources_in pres.now run sources.now }
{
    for source in sources {
        if !is_source_in(pres, run, source) {
            return false;
        }
    }
    true
}

/// Whether a source may be named in a run.
pub fn is_source_in(pres: &LPres, run: Run, source: &RowSource) -> bool
    ensures { result ≡ is_source_in pres.now run source.now }
{
    match source {
        RowSource::Test(overlap) => is_written_overlap(*overlap),
        RowSource::Fixed(relator) => match run {
            Run::Iterated => false,
            Run::Whole => 1 <= *relator && *relator as usize <= pres.fixed().len(),
        },
        RowSource::Iterated(relator, path) => {
            1 <= *relator
                && *relator as usize <= pres.iterated().len()
                && are_each_one_of(pres.endos().len(), path)
        }
    }
}

/// Whether the numbers of an overlap are above 0.
fn is_written_overlap(overlap: Overlap) -> bool
    ensures { result ≡ is_written_overlap overlap }
{
    match overlap {
        Overlap::Triple(k, j, i) => 1 <= k && 1 <= j && 1 <= i,
        Overlap::Left(j, i) | Overlap::Right(j, i) => 1 <= j && 1 <= i,
        Overlap::Own(i) => 1 <= i,
    }
}

/// Whether each number of a path is from 1 to n.
fn are_each_one_of(n: usize, path: &Path) -> bool
    ensures { result ≡ are_each_one_of n path.now }
{
    for number in path.numbers() {
        if *number < 1 || n < usize::from(*number) {
            return false;
        }
    }
    true
}

/// Whether the tails of lines rise, and the numbers of each line are such as may stand in a step of n sources.
fn are_tail_lines(p: u8, n: usize, lines: &[CertTail]) -> bool
    ensures { result ≡ are_tail_lines p n lines.now 1 lines.now }
{
    for place in 0..lines.len() {
        if !is_next_tail_line(p, n, &lines[..place], &lines[place]) {
            return false;
        }
    }
    true
}

/// Whether a line may stand behind these lines of a step of n sources.
pub fn is_next_tail_line(p: u8, n: usize, lines: &[CertTail], line: &CertTail) -> bool
    requires { are_tail_lines p n lines.now 1 lines.now ≡ true }
    ensures { result ≡ are_tail_lines p n (lines.now ++ line.now ∷ []) 1 (lines.now ++ line.now ∷ []) }
{
    least_behind(lines) <= u32::from(line.tail()) && is_tail_line(p, n, lines, line)
}

/// The least tail that may have a line behind these.
fn least_behind(lines: &[CertTail]) -> u32
    ensures { result ≡ least_behind 1 lines.now }
{
    if lines.is_empty() {
        return 1;
    }
    u32::from(lines[lines.len() - 1].tail()) + 1
}

/// Whether the numbers of a line are such as may stand in a step of n sources with these lines.
fn is_tail_line(p: u8, n: usize, lines: &[CertTail], line: &CertTail) -> bool
    requires { AreRising 1 lines.now }
    ensures { result ≡ is_tail_line p n lines.now line.now }
{
    are_pairs(p, line.kept())
        && are_kept_below(lines, line.tail(), line.kept())
        && !line.sums().is_empty()
        && are_pairs(p, line.sums())
        && are_at_most(n, line.sums())
}

/// Whether numbers rise from 1 on, each with a coefficient from 1 to p - 1.
fn are_pairs(p: u8, pairs: &[(u16, u8)]) -> bool
    ensures { result ≡ are_pairs p 1 pairs.now }
{
    let mut least: u32 = 1;
    for (number, coefficient) in pairs {
        if u32::from(*number) < least || *coefficient < 1 || p <= *coefficient {
            return false;
        }
        least = u32::from(*number) + 1;
    }
    true
}

/// Whether each number is at most n.
fn are_at_most(n: usize, pairs: &[(u16, u8)]) -> bool
    ensures { result ≡ are_at_most n pairs.now }
{
    for (number, _) in pairs {
        if n < usize::from(*number) {
            return false;
        }
    }
    true
}

/// Whether each number is that of a tail below t that has no line.
fn are_kept_below(lines: &[CertTail], t: u16, pairs: &[(u16, u8)]) -> bool
    requires { AreRising 1 lines.now }
    ensures { result ≡ are_kept_below lines.now t pairs.now }
{
    for (number, _) in pairs {
        if t <= *number || has_line(lines, *number) {
            return false;
        }
    }
    true
}

/// Whether a tail has one of these lines.
fn has_line(lines: &[CertTail], t: u16) -> bool
    requires { AreRising 1 lines.now }
    ensures { result ≡ has_line lines.now t }
{
    let mut low = 0;
    let mut high = lines.len();
    while low < high {
        let middle = low + (high - low) / 2;
        let tail = lines[middle].tail();
        if tail == t {
            return true;
        }
        if tail < t {
            low = middle + 1;
        } else {
            high = middle;
        }
    }
    false
}
