//! Laws of collection: each function does nothing, and its clause is a theorem.

ghost use Rattle.pc_presentation.specs.CollectionLaws.{PlainPushesAreRuns, RowsRideAlong, EarlierExponentsAreFinal, DirectedRunsAreJoined};
ghost use Rattle.pc_presentation.specs.CollectionLaws.{PlainPushesAreJoined, WordsReachNormalWords, AgreeingOverlapsMakeConsistent};
ghost use Rattle.pc_presentation.specs.CollectionLaws.{AgreeingOverlapsMakeConsistentWithoutRows, PlainAgreementIsAgreement};
ghost use Rattle.pc_presentation.specs.CollectionLaws.{ConsistentPresentationsHaveTables, PlainRuleIsAMeaning, CollectorsHaveArithmetic};
ghost use Rattle.pc_presentation.specs.CollectionLaws.{ConsistentPushesAreUnique, ConsistentOverlapsAgree, PushesOverConsistentBase};
ghost use Rattle.pc_presentation.specs.CollectionLaws.{OverlapsOverConsistentBase, RowMapsCarryPushes, RowMapsCarryRuns};
ghost use Rattle.pc_presentation.specs.CollectionLaws.{TablesHaveTheClass};

/// A push of the plain rule is a directed run from the word with the letter behind it to a state.
pub fn plain_pushes_are_runs()
    ensures { PlainPushesAreRuns }
{}

/// Rows ride along: a row that is added before a push of the plain rule is added behind it.
#[tactic(auto, using(crate::proofs::consistent::Consistency::rows_ride_along))]
pub fn rows_ride_along()
    ensures { RowsRideAlong }
{}

/// Each run that pushes a generator on a state leaves the earlier exponents, and raises the generator's own by one modulo
/// the prime, whatever its steps are.
#[tactic(auto, using(crate::proofs::collecting::FinalExponents::earlier_exponents_are_final))]
pub fn earlier_exponents_are_final()
    ensures { EarlierExponentsAreFinal }
{}

/// The ends of a directed run are joined in the flat reading, where the tails are the last generators.
#[tactic(auto, using(crate::proofs::rows::TailLaws::directed_runs_are_joined))]
pub fn directed_runs_are_joined()
    ensures { DirectedRunsAreJoined }
{}

/// A push of the plain rule is joined in the flat reading to the word of the state with the letter behind it.
#[tactic(auto, using(crate::proofs::rows::TailLaws::plain_pushes_are_joined))]
pub fn plain_pushes_are_joined()
    ensures { PlainPushesAreJoined }
{}

/// In every presentation each signed word over the generators is joined to a normal word. This is the half of
/// consistency that asks nothing.
#[tactic(auto, using(crate::proofs::consistent::Consistency::words_reach_normal_words))]
pub fn words_reach_normal_words()
    ensures { WordsReachNormalWords }
{}

/// The consistency theorem: where for each overlap some chains of pushes of its two ways end alike, distinct normal words
/// of the flat reading are distinct elements.
#[tactic(auto, using(crate::proofs::consistent::Consistency::agreeing_overlaps_make_consistent))]
pub fn agreeing_overlaps_make_consistent()
    ensures { AgreeingOverlapsMakeConsistent }
{}

/// The consistency theorem for presentations without rows.
#[tactic(auto, using(crate::proofs::consistent::Consistency::agreeing_overlaps_make_consistent_without_rows))]
pub fn agreeing_overlaps_make_consistent_without_rows()
    ensures { AgreeingOverlapsMakeConsistentWithoutRows }
{}

/// An overlap whose two ways reach one state by the plain rule agrees by some chains of pushes.
#[tactic(auto, using(crate::proofs::consistent::Consistency::plain_agreement_is_agreement))]
pub fn plain_agreement_is_agreement()
    ensures { PlainAgreementIsAgreement }
{}

/// The normal words of a consistent presentation, numbered by their exponents as digits to the base of the prime, form a
/// group table under the plain rule's pushes. Its generators satisfy the relators, and words are joined exactly where
/// their values there are equal.
pub fn consistent_presentations_have_tables()
    ensures { ConsistentPresentationsHaveTables }
{}

/// The class of a consistent presentation is the class of its table of normal words.
pub fn tables_have_the_class()
    ensures { TablesHaveTheClass }
{}

/// The plain rule is the meaning of a collector: a function each value of which a directed run reaches.
pub fn plain_rule_is_a_meaning()
    ensures { PlainRuleIsAMeaning }
{}

/// Over each collector, also where the presentation is not consistent, there is exactly one quotient of two states, and
/// products, inverses, commutators and values are joined to the words of these names.
pub fn collectors_have_arithmetic()
    ensures { CollectorsHaveArithmetic }
{}

/// In a consistent flat reading all runs that push a generator on a state end alike, rows included: each collector is the
/// plain rule.
pub fn consistent_pushes_are_unique()
    ensures { ConsistentPushesAreUnique }
{}

/// In a consistent flat reading both ways of each overlap end alike over each collector: the converse of the consistency
/// theorem.
pub fn consistent_overlaps_agree()
    ensures { ConsistentOverlapsAgree }
{}

/// Over a consistent presentation, with any rows, all runs that push a generator on a state reach the same exponents, and
/// rows whose words are joined.
pub fn pushes_over_consistent_base()
    ensures { PushesOverConsistentBase }
{}

/// Over a consistent presentation, with any rows, both ways of each overlap reach the same exponents over each collector,
/// and rows whose words are joined.
pub fn overlaps_over_consistent_base()
    ensures { OverlapsOverConsistentBase }
{}

/// A map of rows that keeps sums, and takes the rows of relations to those of another presentation with rows, in range and
/// out of it, carries pushes of the plain rule to pushes of the plain rule with the same exponents.
pub fn row_maps_carry_pushes()
    ensures { RowMapsCarryPushes }
{}

/// A map of rows that keeps sums, and takes the rows of relations to those of another presentation with rows, as a linear
/// map does, and one that leaves out columns, carries directed runs to directed runs.
pub fn row_maps_carry_runs()
    ensures { RowMapsCarryRuns }
{}
