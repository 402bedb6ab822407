//! Laws of presentations that are cut after some generator: each function does nothing, and its clause is a theorem.

ghost use Rattle.pc_presentation.specs.CutLaws.{CutsCarryJoinedWords, CutsArePresentations, CutsAreConsistent, CutWordsAreLater};

/// Leaving out the letters after the first generators carries joined words to joined words of the presentation that is
/// cut there.
#[tactic(auto, using(crate::proofs::cuts::CutSides::cuts_carry_joined_words))]
pub fn cuts_carry_joined_words()
    ensures { CutsCarryJoinedWords }
{}

/// A presentation that is cut after some generator is a presentation.
pub fn cuts_are_presentations()
    ensures { CutsArePresentations }
{}

/// A consistent presentation that is cut after some generator is consistent.
#[tactic(auto, using(crate::proofs::cuts::Cuts::cuts_are_consistent))]
pub fn cuts_are_consistent()
    ensures { CutsAreConsistent }
{}

/// A word whose cut is joined to the empty word is joined to a normal word in the generators that are cut off, also where
/// the presentation is not consistent.
#[tactic(auto, using(crate::proofs::cuts::Cuts::cut_words_are_later))]
pub fn cut_words_are_later()
    ensures { CutWordsAreLater }
{}
