//! What the tails of a cover become by the lines of a step, and the next answer.

ghost use Rattle.std.specs.Prelude.{◌≡◌, ◌≤◌, ◌<◌, ◌+◌, map, length, All, IfOk};
ghost use Rattle.pq_base.specs.Limits.{max_rank, max_class};
ghost use Rattle.pq_base.specs.Answer.{class_of};
ghost use Rattle.pc_presentation.specs.Syllable.{syllables_of};
ghost use Rattle.cover_quotient.specs.NextAnswer.{sources_at, combined_answer};
ghost use Rattle.cover_quotient.specs.Defining.{MayBeKept};
ghost use Rattle.derivation_log.specs.CertificateRuns.{coefficient_in, combinations_in};
ghost use Rattle.cert_checker.specs.SumLines.{IsLineOver};
ghost use Rattle.cert_checker.specs.KeptTails.{kept_tails, kept_row};

use crate::kept::line_of;
use cover_quotient::Combinations;
use cover_quotient::kept_words::{push_power, unit_word};
use cover_quotient::next_answer::next_answer;
use derivation_log::{CertStep, CertTail};
use p_cover::Cover;
use pc_presentation::{Answer, Syllable};
use pq_base::NoMemory;
use std::alloc::Global;

/// The answer whose new generators are the kept tails of a cover; each other tail becomes what its line says.
pub(crate) fn answer_of_lines(
    alloc: Global,
    cover: &Cover,
    step: &CertStep,
    kept: Vec<u16>,
) -> Result<Answer, NoMemory>
    requires kept { kept.items ≡ kept_tails (length cover.now.sources) step.now.tails }
    requires limit { cover.now.answer.presentation.rank + length kept.items ≤ max_rank }
    requires lines { All (IsLineOver cover.now.answer.presentation.prime (length step.now.sources)) step.now.tails }
    requires sources { All (MayBeKept cover.now.answer (class_of cover.now.answer)) (sources_at kept.items cover.now.sources) }
    requires class { class_of cover.now.answer < max_class }
    ensures { IfOk result (λ a. a ≡ combined_answer cover.now (combinations_in cover.now step.now)) }
{
    let combinations = combinations(alloc, cover, step, kept)?;
    next_answer(alloc, cover, &combinations)
}

/// What the tails of a cover become.
fn combinations(
    alloc: Global,
    cover: &Cover,
    step: &CertStep,
    kept: Vec<u16>,
) -> Result<Combinations, NoMemory>
    requires kept { kept.items ≡ kept_tails (length cover.now.sources) step.now.tails }
    requires limit { length kept.items ≤ max_rank }
    requires lines { All (IsLineOver cover.now.answer.presentation.prime (length step.now.sources)) step.now.tails }
    ensures { IfOk result (λ k. k ≡ combinations_in cover.now step.now) }
{
    let _cover = cover.pcp().rank();
    let mut combinations = Combinations::new(alloc, cover.pcp().prime(), kept);
    for t in 0..cover.tails() {
        let word = word_of_tail(alloc, cover, step.tails(), combinations.kept(), t + 1)?;
        combinations.push(word)?;
    }
    Ok(combinations)
}

/// The word in the kept tails that a tail, counted from 1, becomes.
fn word_of_tail(
    alloc: Global,
    cover: &Cover,
    lines: &[CertTail],
    kept: &[u16],
    tail: u16,
) -> Result<Vec<Syllable>, NoMemory>
    requires kept { kept.now ≡ kept_tails (length cover.now.sources) lines.now }
    requires limit { length kept.now ≤ max_rank }
    ensures { IfOk result (λ word. word.items ≡ syllables_of 0 (kept_row (length cover.now.sources) lines.now tail)) }
{
    match line_of(lines, tail) {
        Some(line) => word_of_pairs(alloc, kept, line.kept()),
        None => unit_word(alloc, kept, tail),
    }
}

/// The kept tails, each with its coefficient in pairs, as a word.
fn word_of_pairs(
    alloc: Global,
    kept: &[u16],
    pairs: &[(u16, u8)],
) -> Result<Vec<Syllable>, NoMemory>
    requires limit { length kept.now ≤ max_rank }
    ensures { IfOk result (λ word. word.items ≡ syllables_of 0 (map (coefficient_in pairs.now) kept.now)) }
{
    let mut word = Vec::new(alloc);
    for k in 0..kept.len() {
        push_power(&mut word, k as u16 + 1, coefficient(pairs, kept[k]))?;
    }
    Ok(word)
}

/// The coefficient of a number in pairs, and 0 where it isn't there.
fn coefficient(pairs: &[(u16, u8)], number: u16) -> u8
    ensures { result ≡ coefficient_in pairs.now number }
{
    for pair in pairs {
        if pair.0 == number {
            return pair.1;
        }
    }
    0
}
