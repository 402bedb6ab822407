//! Laws of the levels of the series: each function does nothing, and its clause is a theorem.

ghost use Rattle.cover_quotient.specs.Levels.{LastLevelIsSpanned};

/// Over an answer that is ready for the next class, the words of its last level in the flat reading are joined to words of
/// combinations of the rows of the qualifying relations, also where the flat reading is not consistent.
#[tactic(auto, using(crate::proofs::qualifying::LastLevels::last_level_is_spanned))]
pub fn last_level_is_spanned()
    ensures { LastLevelIsSpanned }
{}
