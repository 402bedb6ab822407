//! What is proved of canonical answers to one question. The functions do nothing: each states a law as its clause.

ghost use Rattle.unique_answers.specs.UniqueLaws.{RestrictionsAreCanonical, CanonicalAnswersAreDeterminedByWhatDies};
ghost use Rattle.unique_answers.specs.UniqueLaws.{LargestQuotientsKillTheSame, CanonicalLargestQuotientsAreUnique};

/// Cut to a class, a canonical answer is canonical.
#[tactic(auto, using(crate::proofs::RestrictedAnswers::restrictions_are_canonical))]
pub fn restrictions_are_canonical()
    ensures { RestrictionsAreCanonical }
{}

/// Canonical and consistent answers for one prime and the same names, in which the same words over the given generators die, are equal.
/// Whether they are largest for anything isn't asked.
#[tactic(auto, using(crate::proofs::UniqueAnswers::canonical_answers_are_determined_by_what_dies))]
pub fn canonical_answers_are_determined_by_what_dies()
    ensures { CanonicalAnswersAreDeterminedByWhatDies }
{}

/// In largest quotients of one class of one presentation the same words die.
#[tactic(auto, using(crate::proofs::SameDeaths::largest_quotients_kill_the_same))]
pub fn largest_quotients_kill_the_same()
    ensures { LargestQuotientsKillTheSame }
{}

/// A presentation, a prime and a class have one canonical largest quotient.
#[tactic(auto, using(crate::proofs::UniqueAnswers::canonical_largest_quotients_are_unique))]
pub fn canonical_largest_quotients_are_unique()
    ensures { CanonicalLargestQuotientsAreUnique }
{}
