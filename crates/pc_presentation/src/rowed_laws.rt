//! Laws of presentations with rows: each function does nothing, and its clause is a theorem. None asks that the presentation be
//! consistent.

ghost use Rattle.pc_presentation.specs.RowedLaws.{RowsAreCentral, ProjectionsCarryJoinedWords, StatesProject, ProjectionsLift};
ghost use Rattle.pc_presentation.specs.RowedLaws.{ClassesGrowByOneWithRows};

/// In the flat reading the word of a row commutes with every word over the generators and the tails. Sums and multiples of
/// rows are products and powers of their words, and the inverse is the word of the negative row.
#[tactic(auto, using(crate::proofs::rows::RowsCentral::rows_are_central))]
pub fn rows_are_central()
    ensures { RowsAreCentral }
{}

/// Leaving out the tails carries joined words of the flat reading to joined words of the base.
#[tactic(auto, using(crate::proofs::rows::Projections::projections_carry_joined_words))]
pub fn projections_carry_joined_words()
    ensures { ProjectionsCarryJoinedWords }
{}

/// Leaving out the tails carries the word of a state to the normal word of its exponents.
#[tactic(auto, using(crate::proofs::rows::Projections::states_project))]
pub fn states_project()
    ensures { StatesProject }
{}

/// Words that are joined in the base once their tails are left out are joined in the flat reading up to the word of a row.
#[tactic(auto, using(crate::proofs::rows::Lifting::projections_lift))]
pub fn projections_lift()
    ensures { ProjectionsLift }
{}

/// The class of the flat reading is at most one more than that of the base.
pub fn classes_grow_by_one_with_rows()
    ensures { ClassesGrowByOneWithRows }
{}
