//! The lines in front of that of the prime, and how many of them are a presentation's. No line of a presentation's canonical text begins
//! with `p`, and that of the prime does.

ghost use Rattle.std.specs.Prelude.{◌≡◌, ◌<◌, ◌≤◌, ◌+◌, ◌-◌, ◌^◌, ◌++◌, [], length, IfOk, IfSome, IfNone, IsTrue};
ghost use Rattle.cert_text.specs.ReadSoFar.{begins_with_p, GoesOnWithP, AreItemLines, first_lines, IsCanonical, IsCanonicalTo};

use crate::canonical_reading::canonical;
use answer_text::pieces::next_line;
use pq_base::NoMemory;
use std::alloc::Global;

/// What follows the next line, where that doesn't begin with `p`.
fn behind_item(text: &[u8]) -> Option<&[u8]>
    ensures some { IfSome result (λ rest. AreItemLines text.now 1 rest.now) }
    ensures shorter { IfSome result (λ rest. length rest.now + 1 ≤ length text.now) }
    ensures none { IfNone result (GoesOnWithP text.now) }
{
    let (line, rest) = next_line(text)?;
    if begins_with_p(line) {
        None
    } else {
        Some(rest)
    }
}

/// Whether a line begins with `p`.
fn begins_with_p(line: &[u8]) -> bool
    ensures { result ≡ begins_with_p line.now }
{
    match line {
        [] => false,
        [byte, ..] => *byte == b'p',
    }
}

/// How many lines at the front of a text don't begin with `p`, and what follows them.
pub(crate) fn behind_items(text: &[u8]) -> (u32, &[u8])
    requires { length text.now < 2 ^ 32 - 1 }
    ensures lines { AreItemLines text.now result.0 result.1.now }
    ensures shorter { result.0 + length result.1.now ≤ length text.now }
    ensures goes_on { GoesOnWithP result.1.now }
{
    let mut count = 0;
    let mut rest = text;
    while let Some(more) = behind_item(rest) {
        count += 1;
        rest = more;
    }
    (count, rest)
}

/// The first lines of a text.
fn first_lines(text: &[u8], count: u32) -> &[u8]
    ensures { result.now ≡ first_lines count text.now }
{
    let mut left = count;
    let mut at = 0;
    while 0 < left && at < text.len() {
        if text[at] == b'\n' {
            left -= 1;
        }
        at += 1;
    }
    &text[..at]
}

/// Whether the first lines of a text are the canonical text of a presentation.
fn are_canonical(alloc: Global, text: &[u8], count: u32) -> Result<bool, NoMemory>
    requires { length text.now < 2 ^ 32 - 1 }
    ensures yes { IfOk result (λ b. IsTrue b → IsCanonical (first_lines count text.now)) }
    ensures no { IfOk result (λ b. ¬ IsTrue b → ¬ IsCanonical (first_lines count text.now)) }
{
    let found = canonical(alloc, first_lines(text, count))?;
    Ok(found.is_some())
}

/// The number of lines at the front of a text that are the canonical text of a presentation, while one line more is none; or 0 where the
/// first line alone is none. As many lines as `count` are none. Takes memory, and time for log `count` readings.
pub(crate) fn canonical_lines(alloc: Global, text: &[u8], count: u32) -> Result<u32, NoMemory>
    requires limit { length text.now < 2 ^ 32 - 1 }
    requires empty { count ≡ 0 → text.now ≡ [] }
    requires not_all { ¬ IsCanonical (first_lines count text.now) }
    ensures lines { IfOk result (λ k. IsCanonicalTo text.now k) }
    ensures within { IfOk result (λ k. k ≤ count) }
{
    let mut low = 0;
    let mut high = count;
    while low + 1 < high {
        let middle = low + (high - low) / 2;
        if are_canonical(alloc, text, middle)? {
            low = middle;
        } else {
            high = middle;
        }
    }
    Ok(low)
}
