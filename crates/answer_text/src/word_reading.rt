//! Words of a presentation, read from their texts.

ghost use Rattle.std.specs.Prelude.{◌≡◌, ◌<◌, ◌≤◌, true, List, ◌∷◌, ◌++◌, IfOk, IfSome, IfNone, MatchOption};
ghost use Rattle.pc_presentation.specs.declared.syllable.Syllable.{Syllable as SyllableRecord};
ghost use Rattle.pc_presentation.specs.Syllable.{AreSyllables};
ghost use Rattle.answer_text.specs.Lines.{avoids};
ghost use Rattle.answer_text.specs.Words.{word_text};

use crate::pieces::{split_at_first, syllable};
use pc_presentation::Syllable;
use pq_base::NoMemory;
use std::alloc::Global;

/// The normal word that is written here, over the generators of `rank` that come after this one.
pub(crate) fn word(
    alloc: Global,
    text: &[u8],
    prime: u8,
    rank: u16,
    after: u16,
) -> Result<Option<Vec<Syllable>>, NoMemory>
    requires prime { prime ≤ 100 }
    requires rank { rank < 1000 }
    ensures some { IfOk result (λ o. IfSome o (λ w. AreSyllables prime rank after w.items × (text.now ≡ word_text w.items))) }
    ensures none { IfOk result (λ o. IfNone o ((w : List SyllableRecord) → AreSyllables prime rank after w → ¬ (text.now ≡ word_text w))) }
{
    let mut word = Vec::new(alloc);
    if matches!(text, [b'1']) {
        return Ok(Some(word));
    }
    let mut last = after;
    let mut rest = Some(text);
    while let Some(left) = rest {
        let (piece, more) = cut(left);
        let Some(s) = syllable(piece) else {
            return Ok(None);
        };
        if s.generator <= last || rank < s.generator || prime <= s.exponent {
            return Ok(None);
        }
        last = s.generator;
        word.push(s)?;
        rest = more;
    }
    Ok(Some(word))
}

/// The text up to the first star, and what is behind it, where there is one.
fn cut(text: &[u8]) -> (&[u8], Option<&[u8]>)
    ensures parts { MatchOption result.1 (result.0.now ≡ text.now) (λ more. text.now ≡ result.0.now ++ 42 ∷ more.now) }
    ensures first { avoids 42 result.0.now ≡ true }
{
    match split_at_first(text, b'*') {
        Some((piece, more)) => (piece, Some(more)),
        None => (text, None),
    }
}
