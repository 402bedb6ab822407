//! Laws of answers with rows: each function does nothing, and its clause is a theorem. None asks that the presentation be
//! consistent.

ghost use Rattle.p_cover.specs.RowedLaws.{SpellingsHoldWithRows, EntryWordsHold};

/// Each generator of an answer with rows is joined in the flat reading to the word that it spells, under the images with
/// their rows.
#[tactic(auto, using(crate::proofs::RowedSpellings::spellings_hold_with_rows))]
pub fn spellings_hold_with_rows()
    ensures { SpellingsHoldWithRows }
{}

/// The entry word of a relation or an image has, under the images with their rows, its row as value.
#[tactic(auto, using(crate::proofs::EntryWords::entry_words_hold))]
pub fn entry_words_hold()
    ensures { EntryWordsHold }
{}
