//! What is proved of endomorphisms and tails. The functions do nothing: each states a law as its clause.

ghost use Rattle.endo_lift.specs.LiftLaws.{FullCoversLeaveOutNothing, LightCoversLeaveOutTrivialRows, MatricesCarryRows};

/// What a full cover leaves out has trivial rows.
#[tactic(auto, using(crate::proofs::FullCovers::full_covers_leave_out_nothing))]
pub fn full_covers_leave_out_nothing()
    ensures { FullCoversLeaveOutNothing }
{}

/// What a light cover leaves out has trivial rows in the full cover.
#[tactic(auto, using(crate::proofs::LightCovers::light_covers_leave_out_trivial_rows))]
pub fn light_covers_leave_out_trivial_rows()
    ensures { LightCoversLeaveOutTrivialRows }
{}

/// Where an endomorphism induces one of the answer, and what a cover leaves out has trivial rows in the full cover, the matrix whose
/// rows are the values of the images of what the tails stand for carries each row of a word to a row of the word's image. Neither the
/// answer nor the cover need be consistent.
#[tactic(auto, using(crate::proofs::MatrixLaws::matrices_carry_rows))]
pub fn matrices_carry_rows()
    ensures { MatricesCarryRows }
{}
