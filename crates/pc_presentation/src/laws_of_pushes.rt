//! Laws of the plain rule's pushes that let a collector take several at once, also where the presentation is not consistent: each
//! function does nothing, and its clause is a theorem.

ghost use Rattle.pc_presentation.specs.CommutingLaws.{PowersAreAdded, PowersWrap, CommutingLettersStay, PowersWrapBeforeCommutingLetters};

/// Copies of a generator that commutes with each later one that the state has are added to its exponent, where that stays
/// below the prime.
#[tactic(auto, using(crate::proofs::commuting::ShortcutLaws::powers_are_added))]
pub fn powers_are_added()
    ensures { PowersAreAdded }
{}

/// Where the exponent passes the prime, and the right side of the generator's power is empty, what is above the prime stays,
/// and the row of the power is added.
#[tactic(auto, using(crate::proofs::commuting::ShortcutLaws::powers_wrap))]
pub fn powers_wrap()
    ensures { PowersWrap }
{}

/// Letters from a place on from which all generators commute with the one that is pushed, and with those after it, stay in
/// place: it passes the letters before that place alone.
#[tactic(auto, using(crate::proofs::commuting::ShortcutLaws::commuting_letters_stay))]
pub fn commuting_letters_stay()
    ensures { CommutingLettersStay }
{}

/// Where the state has no letters between the generator and that place, and the exponent passes the prime, the right side of
/// the power is pushed on the other letters, and what is above the prime is pushed behind it.
pub fn powers_wrap_before_commuting_letters()
    ensures { PowersWrapBeforeCommutingLetters }
{}
